//! A member's book.
ghost use Rattle.std.specs.Prelude.{◌≡◌, ◌+◌, ◌-◌, ◌<◌, ◌||◌, Some, nat_le, slice_get, filter_map, option_copied, OnOk, OnErr};
ghost use Rattle.std.specs.List.{list_any};
ghost use Rattle.vote_book.specs.Books.{begun, pushed, ended, restored_of, latest_made, last_made};
ghost use Rattle.vote_book.specs.Admission.{writes_in, accepts_in, makes, forbids, begins, may_vote, follows, is_above, may_install, admits_next};
ghost use Rattle.vote_book.specs.BookIndex.{as_accept, accept_found};
ghost use Rattle.vote_book.specs.BookReports.{last_maker, accept_for, lock_of};
ghost use Rattle.vote_book.specs.Standing.{first_start, own_votes};
ghost use Rattle.vote_book.specs.declared.entry.LogEntry.{LogEntry};

mod accepts;
mod index;
mod sets;
mod starts;

use crate::book::accepts::OpenAccept;
use crate::book::index::BookIndex;
use crate::entry::{Accept, LogEntry, Start};
use crate::votes::OwnVotes;
use smart_base::bytes::Digest32;
use smart_base::number::{Place, Regency, ViewNo};
use smart_statements::statement::Slot;
use std::alloc::{AllocError, Global};
use std::marker::Model;

/// The book of a member's present life: the entries that its disks restored, then those that it made.
/// It may have any entries. If the member keeps the rules, those before an entry admit it.
pub struct Book {
    opening: Place,
    /// The number of restored entries, after it is known.
    restored: Option<usize>,
    entries: Vec<LogEntry>,
    index: BookIndex,
}

/// Let go by one call, so that no function that lets one go carries the whole of it.
impl Drop for Book {
    fn drop(self) {
        let Book {
            opening: _,
            restored: _,
            entries: _,
            index: _,
        } = self;
    }
}

impl Model for Book {
    ghost use Rattle.std.specs.Prelude.{◌≤◌, length, OnSome, IfSome};
    ghost use Rattle.vote_book.specs.Books.{Book as Books};
    ghost use Rattle.vote_book.specs.BookIndex.{IsIndexOf};

    ghost Value = { Books };

    ghost view = { λ b. record { opening = b.opening; restored = b.restored; entries = b.entries.items } };

    ghost invariant = { λ b. IsIndexOf b.entries.items b.index × IfSome b.restored (λ n. n ≤ length b.entries.items) };
}

impl Book {
    /// A book without entries, after the replica of a place; 0 if there is none. Entries that are
    /// pushed now are restored. It needs no memory.
    pub fn begin(alloc: Global, place: Place) -> Self
        ensures { result ≡ begun place }
    {
        Book {
            opening: place,
            restored: None,
            entries: Vec::new(alloc),
            index: BookIndex::new(alloc),
        }
    }

    /// Ends the restored part: entries that are pushed from the first call on are not restored.
    pub fn end_restored(&mut self)
        ensures { self.new ≡ ended self.old }
    {
        if self.restored.is_none() {
            self.restored = Some(self.entries.len());
        }
    }

    /// Adds an entry at the end, whether it is admitted or not. Error: want of memory.
    pub fn push(&mut self, entry: LogEntry) -> Result<(), AllocError>
        ensures ok { OnOk result (self.new ≡ pushed self.old entry) }
        ensures err { OnErr result (self.new ≡ self.old) }
    {
        let index = self.entries.len();
        self.entries.reserve(1)?;
        self.index.add(index, &entry)?;
        self.entries.push_reserved(entry);
        Ok(())
    }

    /// The entries, oldest first.
    pub fn pushed(&self) -> &[LogEntry]
        ensures { result.now ≡ self.now.entries }
    {
        self.entries.as_slice()
    }

    /// Whether the book admits an entry at its end. Certificates and batches are judged elsewhere. It
    /// needs no memory, and walks only the beginnings of regencies, from the newest on.
    pub fn admits(&self, entry: &LogEntry) -> bool
        ensures { result ≡ admits_next self.now entry.now }
    {
        match entry {
            LogEntry::Wrote(write) => {
                self.may_vote(&write.slot, &write.digest) && !self.has_written(&write.slot)
            }
            LogEntry::Accepted(accept) => {
                self.may_vote(&accept.slot, &accept.digest) && !self.has_accepted(&accept.slot)
            }
            LogEntry::Decided(decision) => self.may_decide(decision.slot.place),
            LogEntry::Installed(installation) => self.may_install(installation.place),
            LogEntry::Opened(_)
            | LogEntry::Promised(_)
            | LogEntry::Synced(_)
            | LogEntry::Marked(_) => true,
        }
    }

    fn may_vote(&self, slot: &Slot, digest: &Digest32) -> bool
        ensures { result ≡ may_vote self.now.entries slot.now digest.now }
    {
        self.is_in_turn(slot.place)
            && !self.is_forbidden(slot)
            && (slot.regency.get() == 0 || self.has_begun(slot, digest))
    }

    /// Whether the place before this one is made.
    fn is_in_turn(&self, place: Place) -> bool
        ensures { result ≡ (nat_le place 1 || list_any (makes (place - 1)) self.now.entries) }
    {
        let place = place.get();
        place <= 1 || self.index.made.has(place - 1)
    }

    /// Whether a vote in a slot would break a promise.
    fn is_forbidden(&self, slot: &Slot) -> bool
        ensures { result ≡ list_any (forbids slot.now) self.now.entries }
    {
        self.index.is_promised(slot)
    }

    /// Whether a slot's regency has begun in time for a vote for a digest.
    fn has_begun(&self, slot: &Slot, digest: &Digest32) -> bool
        ensures { result ≡ list_any (begins slot.now digest.now) self.now.entries }
    {
        self.index.has_begun(slot, digest)
    }

    /// Whether there is a WRITE in a slot.
    pub fn has_written(&self, slot: &Slot) -> bool
        ensures { result ≡ list_any (writes_in slot.now) self.now.entries }
    {
        self.index.written.has(slot)
    }

    /// Whether there is an ACCEPT in a slot.
    pub fn has_accepted(&self, slot: &Slot) -> bool
        ensures { result ≡ list_any (accepts_in slot.now) self.now.entries }
    {
        self.index.accepted.has(slot)
    }

    /// The member's votes at a place, in a regency of a view; the place may be past the last that
    /// there is. It needs no memory, and walks no entries.
    pub fn votes_at(&self, view: ViewNo, place: u64, regency: Regency) -> OwnVotes
        ensures { result ≡ own_votes (record { view = view; place = place; regency = regency }) self.now.entries }
    {
        OwnVotes {
            wrote: self.has_written_at(view, place, regency),
            accepted: self.has_accepted_at(view, place, regency),
        }
    }

    fn has_written_at(&self, view: ViewNo, place: u64, regency: Regency) -> bool
        ensures { result ≡ list_any (writes_in (record { view = view; place = place; regency = regency })) self.now.entries }
    {
        self.index.written.has_at(view, place, regency)
    }

    fn has_accepted_at(&self, view: ViewNo, place: u64, regency: Regency) -> bool
        ensures { result ≡ list_any (accepts_in (record { view = view; place = place; regency = regency })) self.now.entries }
    {
        self.index.accepted.has_at(view, place, regency)
    }

    /// The first beginning of a regency of a view, if there is one. It needs no memory, and walks no
    /// entries.
    pub fn first_start(&self, view: ViewNo, regency: Regency) -> Option<&Start>
        ensures { option_copied result ≡ first_start view regency self.now.entries }
    {
        self.index.starts.get(view, regency)
    }

    fn may_decide(&self, place: Place) -> bool
        ensures { result ≡ follows self.now.opening (latest_made self.now.entries) place }
    {
        match self.index.latest {
            Some(latest) => place.get() == latest.get() + 1,
            None => place.get() <= self.opening.get() + 1,
        }
    }

    fn may_install(&self, place: Place) -> bool
        ensures { (entry : LogEntry) → result ≡ may_install self.now.opening (restored_of (pushed self.now entry)) self.now.entries place }
    {
        self.is_above_made(place) && (self.restored.is_some() || place.get() <= self.opening.get())
    }

    /// Whether a place is above all that are made.
    fn is_above_made(&self, place: Place) -> bool
        ensures { result ≡ is_above (latest_made self.now.entries) (last_made self.now.entries) place }
    {
        self.index.is_above_made(place)
    }

    /// The greatest place that is decided or installed; 0 if there is none.
    pub fn last(&self) -> Place
        ensures { result ≡ last_made self.now.entries }
    {
        self.index.last
    }

    /// The first entry that made the last place: the evidence that it is decided. It needs no memory,
    /// and walks no entries.
    pub fn last_maker(&self) -> Option<&LogEntry>
        ensures { option_copied result ≡ last_maker self.now.entries }
    {
        let index = self.index.maker?;
        self.entries.get(index)
    }

    /// The member's lock, if it has one (Mod-SMaRt, EDCC 2012): its accept of the greatest regency in
    /// a view, at the place after the last. It needs no memory, and walks only accepts past the last
    /// place.
    pub fn lock(&self, view: ViewNo) -> Option<&Accept>
        ensures { option_copied result ≡ lock_of view self.now.entries }
    {
        match self.open_lock(view) {
            Some(found) => self.accept_at(found.index),
            None => None,
        }
    }

    /// The lock, by the index of its entry.
    fn open_lock(&self, view: ViewNo) -> Option<OpenAccept>
        ensures { accept_found self.now.entries result ≡ lock_of view self.now.entries }
    {
        self.index.pending.greatest(view, self.index.last.get() + 1)
    }

    /// The accept at an index among those for a place past the last, in a view. It needs no memory,
    /// and walks only accepts past the last place.
    pub fn accept_for(&self, view: ViewNo, place: Place, index: usize) -> Option<&Accept>
        requires { last_made self.now.entries < place }
        ensures { option_copied result ≡ slice_get (filter_map (accept_for view place) self.now.entries) index }
    {
        match self.open_for(view, place, index) {
            Some(found) => self.accept_at(found.index),
            None => None,
        }
    }

    /// That accept, by the index of its entry.
    fn open_for(&self, view: ViewNo, place: Place, index: usize) -> Option<OpenAccept>
        requires { last_made self.now.entries < place }
        ensures { accept_found self.now.entries result ≡ slice_get (filter_map (accept_for view place) self.now.entries) index }
    {
        self.index.pending.nth(view, place.get(), index)
    }

    /// The accept at an index, if there is one.
    fn accept_at(&self, index: usize) -> Option<&Accept>
        ensures { option_copied result ≡ as_accept (slice_get self.now.entries index) }
    {
        match self.entries.get(index) {
            Some(entry) => accept_of(entry),
            None => None,
        }
    }
}

/// The accept that an entry is, if it is one.
fn accept_of(entry: &LogEntry) -> Option<&Accept>
    ensures { option_copied result ≡ as_accept (Some entry.now) }
{
    match entry {
        LogEntry::Accepted(accept) => Some(accept),
        _ => None,
    }
}
