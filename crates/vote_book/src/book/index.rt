//! What a book keeps beside its entries.
ghost use Rattle.std.specs.Prelude.{◌≡◌, ◌<◌, ℕ, max, Some, [], OnOk, OnErr};
ghost use Rattle.std.specs.List.{list_any};
ghost use Rattle.vote_book.specs.Admission.{is_below, allows, lets, is_above};
ghost use Rattle.vote_book.specs.BookIndex.{IsIndexOf, Adds, is_promised, is_kept_with, covers, maker_behind};
ghost use Rattle.vote_book.specs.Books.{place_made};
ghost use Rattle.vote_book.specs.declared.entry.LogEntry.TheVariants.{Accepted, Promised, Synced};
ghost use Rattle.vote_book.specs.declared.entry.LogEntry.{LogEntry};

use crate::book::accepts::OpenAccepts;
use crate::book::sets::{PlaceSet, SlotSet};
use crate::book::starts::FirstStarts;
use crate::entry::{Accept, LogEntry, Promise, Start};
use smart_base::bytes::Digest32;
use smart_base::equality::same_bytes;
use smart_base::number::Place;
use smart_base::sequence::Sequence;
use smart_statements::statement::Slot;
use std::alloc::{AllocError, Global};

/// What earlier entries are to a later one.
pub struct BookIndex {
    /// The slots that have a write.
    pub written: SlotSet,
    /// The slots that have an accept.
    pub accepted: SlotSet,
    /// The places that are decided or installed.
    pub made: PlaceSet,
    /// The last of them by the order of the entries.
    pub latest: Option<Place>,
    /// The greatest of them, 0 if there is none.
    pub last: Place,
    /// The greatest promise.
    pub promised: Option<Promise>,
    /// The regencies that have begun, in their order.
    pub begun: Sequence<Start>,
    /// The first of them of each regency.
    pub starts: FirstStarts,
    /// The index of the entry that made the greatest place, the first that did.
    pub maker: Option<usize>,
    /// The accepts of places past the greatest.
    pub pending: OpenAccepts,
}

/// Let go by one call, so that no function that lets one go carries the whole of it.
impl Drop for BookIndex {
    fn drop(self) {
        let BookIndex {
            written: _,
            accepted: _,
            made: _,
            latest: _,
            last: _,
            promised: _,
            begun: _,
            starts: _,
            maker: _,
            pending: _,
        } = self;
    }
}

/// Whether a slot is of an earlier view than a promise, or of its view and an earlier regency.
fn is_below(slot: &Slot, promise: &Promise) -> bool
    ensures { result ≡ is_below slot.now promise.now }
{
    let (view, regency) = (slot.view.get(), slot.regency.get());
    view < promise.view.get() || (view == promise.view.get() && regency < promise.regency.get())
}

/// Whether a bound, if there is one, is a digest.
fn allows(bound: &Option<Digest32>, digest: &Digest32) -> bool
    ensures { result ≡ allows bound.now digest.now }
{
    match bound {
        Some(bound) => same_bytes(digest.as_slice(), bound.as_slice()),
        None => true,
    }
}

/// Whether a vote for a digest in a slot may come from a start.
fn lets(slot: &Slot, digest: &Digest32, start: &Start) -> bool
    ensures { result ≡ lets slot.now digest.now start.now }
{
    start.view == slot.view
        && start.regency == slot.regency
        && start.base <= slot.place.get()
        && (start.base != slot.place.get() || allows(&start.bound, digest))
}

/// Whether a promise is of an earlier view than another, or of its view and no later regency.
fn is_kept_with(promise: &Promise, other: &Promise) -> bool
    ensures { result ≡ is_kept_with promise.now other.now }
{
    let (view, regency) = (promise.view.get(), promise.regency.get());
    view < other.view.get() || (view == other.view.get() && regency <= other.regency.get())
}

fn greater(a: Place, b: Place) -> Place
    ensures { result ≡ max a b }
{
    if a.get() < b.get() { b } else { a }
}

/// Whether a vote for a digest in a slot may come from one of some starts. The last are asked first.
fn any_lets(slot: &Slot, digest: &Digest32, mut starts: &[Start]) -> bool
    ensures { result ≡ list_any (lets slot.now digest.now) starts.entry.now }
{
    while let Some((start, earlier)) = starts.split_last() {
        if lets(slot, digest, start) {
            return true;
        }
        starts = earlier;
    }
    false
}

impl BookIndex {
    /// The index of no entries.
    pub fn new(alloc: Global) -> Self
        ensures { IsIndexOf [] result }
    {
        BookIndex {
            written: SlotSet::new(alloc),
            accepted: SlotSet::new(alloc),
            made: PlaceSet::new(alloc),
            latest: None,
            last: Place::zero(),
            promised: None,
            begun: Sequence::new(alloc),
            starts: FirstStarts::new(alloc),
            maker: None,
            pending: OpenAccepts::new(alloc),
        }
    }

    /// Adds an entry behind the others, at its index.
    pub fn add(&mut self, index: usize, entry: &LogEntry) -> Result<(), AllocError>
        ensures ok { OnOk result (Adds index entry.now self.old self.new) }
        ensures err { OnErr result (self.new ≡ self.old) }
    {
        match entry {
            LogEntry::Wrote(write) => self.written.add(&write.slot)?,
            LogEntry::Accepted(accept) => self.accept(index, accept)?,
            LogEntry::Promised(promise) => self.promise(promise),
            LogEntry::Synced(start) => self.begin(start)?,
            LogEntry::Decided(decision) => self.make(index, decision.slot.place)?,
            LogEntry::Installed(installation) => self.make(index, installation.place)?,
            LogEntry::Opened(_) | LogEntry::Marked(_) => {}
        }
        Ok(())
    }

    /// Adds a promise.
    fn promise(&mut self, promise: &Promise)
        ensures { (index : ℕ) → Adds index (Promised promise.now) self.old self.new }
    {
        if !self.covers(promise) {
            self.promised = Some(Promise {
                view: promise.view,
                regency: promise.regency,
            });
        }
    }

    /// Whether whoever keeps the greatest promise keeps another.
    fn covers(&self, promise: &Promise) -> bool
        ensures { result ≡ covers self.now.promised promise.now }
    {
        match &self.promised {
            Some(greatest) => is_kept_with(promise, greatest),
            None => false,
        }
    }

    /// Adds a regency that has begun.
    fn begin(&mut self, start: &Start) -> Result<(), AllocError>
        ensures ok { OnOk result ((index : ℕ) → Adds index (Synced start.now) self.old self.new) }
        ensures err { OnErr result (self.new ≡ self.old) }
    {
        let count = self.begun.len();
        self.begun.push(Start {
            view: start.view,
            regency: start.regency,
            base: start.base,
            bound: start.bound,
        })?;
        let added = self.starts.add(start);
        if added.is_err() {
            self.begun.truncate(count);
        }
        added
    }

    /// Adds an accept. It is open where its place is past the greatest that is made.
    fn accept(&mut self, index: usize, accept: &Accept) -> Result<(), AllocError>
        ensures ok { OnOk result (Adds index (Accepted accept.now) self.old self.new) }
        ensures err { OnErr result (self.new ≡ self.old) }
    {
        if self.last.get() < accept.slot.place.get() {
            self.accept_open(index, accept)
        } else {
            self.accepted.add(&accept.slot)
        }
    }

    /// Adds an accept that is open.
    fn accept_open(&mut self, index: usize, accept: &Accept) -> Result<(), AllocError>
        requires { self.old.last < accept.now.slot.place }
        ensures ok { OnOk result (Adds index (Accepted accept.now) self.old self.new) }
        ensures err { OnErr result (self.new ≡ self.old) }
    {
        let count = self.pending.len();
        self.pending.add(index, &accept.slot)?;
        let added = self.accepted.add(&accept.slot);
        if added.is_err() {
            self.pending.truncate(count);
        }
        added
    }

    /// Adds a place that an entry makes, at its index.
    #[tactic(auto, using(crate::proofs::Reports::made_behind))]
    fn make(&mut self, index: usize, place: Place) -> Result<(), AllocError>
        ensures ok { OnOk result ((entry : LogEntry) → place_made entry ≡ Some place → Adds index entry self.old self.new) }
        ensures err { OnErr result (self.new ≡ self.old) }
    {
        self.made.add(place.get())?;
        self.maker = self.maker_behind(index, place);
        self.latest = Some(place);
        self.last = greater(self.last, place);
        self.pending.keep_open(place);
        Ok(())
    }

    /// The index of the entry that made the greatest place, where one at an index makes a place.
    fn maker_behind(&self, index: usize, place: Place) -> Option<usize>
        ensures { result ≡ maker_behind index self.now.latest self.now.last (Some place) self.now.maker }
    {
        if self.is_above_made(place) {
            Some(index)
        } else {
            self.maker
        }
    }

    /// Whether a place is above all that are made.
    pub fn is_above_made(&self, place: Place) -> bool
        ensures { result ≡ is_above self.now.latest self.now.last place }
    {
        self.latest.is_none() || self.last.get() < place.get()
    }

    /// Whether a vote in a slot would break a promise.
    pub fn is_promised(&self, slot: &Slot) -> bool
        ensures { result ≡ is_promised self.now.promised slot.now }
    {
        match &self.promised {
            Some(promise) => is_below(slot, promise),
            None => false,
        }
    }

    /// Whether a slot's regency has begun in time for a vote for a digest. The newest are asked first.
    pub fn has_begun(&self, slot: &Slot, digest: &Digest32) -> bool
        ensures { result ≡ list_any (lets slot.now digest.now) self.now.begun }
    {
        any_lets(slot, digest, self.begun.as_slice())
    }
}
