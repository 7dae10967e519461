//! The evidence of entries.
ghost use Rattle.std.specs.Prelude.{◌≡◌, ◌==◌, ◌&&◌, ◌<◌, length, true, is_none, Some, IfOk};
ghost use Rattle.std.specs.Option.{option_copied};
ghost use Rattle.smart_statements.specs.Batches.{FitsBatch};
ghost use Rattle.certificates.specs.Certificates.{votes_fault, marks_fault, write_of, accept_of};
ghost use Rattle.replica_rules.specs.Seals.{digest_of};
ghost use Rattle.node_rules.specs.Arrivals.{is_batch_for};
ghost use Rattle.certificates.specs.Collects.{view_numbered};
ghost use Rattle.node_rules.specs.Reopening.{is_opening, rests, rests_in, view_for};
ghost use Rattle.node_restart.specs.Restarts.{named_for, AreSound};
ghost use Rattle.vote_book.specs.Entries.{FitsEntry};
ghost use Rattle.vote_book.specs.declared.entry.LogEntry.TheVariants.{Accepted, Decided, Installed};

use crate::batch::{is_batch_for, is_same, named_for};
use certificates::check::{check_marks, check_proof, check_write_cert};
use certificates::collect::view_holding;
use smart_base::bytes::Digest32;
use smart_base::number::{Place, ViewNo};
use smart_base::view::View;
use smart_keys::ring::Ring;
use smart_statements::batch::Batch;
use smart_statements::statement::Slot;
use std::alloc::{AllocError, Global};
use vote_book::book::Book;
use vote_book::entry::{Accept, Decision, Installation, LogEntry};

/// Whether an entry opens a book.
pub fn is_opening(entry: &LogEntry) -> bool
    ensures { result ≡ is_opening entry.now }
{
    match entry {
        LogEntry::Opened(_) => true,
        LogEntry::Wrote(_)
        | LogEntry::Accepted(_)
        | LogEntry::Promised(_)
        | LogEntry::Synced(_)
        | LogEntry::Decided(_)
        | LogEntry::Installed(_)
        | LogEntry::Marked(_) => false,
    }
}

/// Whether an accept has its write certificate, and a batch for its place. Error: want of memory.
fn accept_rests(
    alloc: Global,
    ring: &Ring,
    view: &View,
    accept: &Accept,
) -> Result<bool, AllocError>
    ensures { IfOk result (λ holds. holds ≡ rests_in ring.now view.now (Accepted accept.now)) }
{
    let Accept {
        slot,
        digest,
        writes,
        batch,
    } = accept;
    if slot.view != view.number() {
        return Ok(false);
    }
    if check_write_cert(ring, view, *slot, *digest, writes.as_slice()).is_err() {
        return Ok(false);
    }
    is_batch_for(alloc, ring, slot.place.get(), digest, batch)
}

/// Whether an accept is for a place, and has this batch. Error: want of memory.
fn has_accepted(
    alloc: Global,
    accept: &Accept,
    place: u64,
    batch: &Batch,
) -> Result<bool, AllocError>
    requires accept { FitsBatch accept.now.batch }
    requires batch { FitsBatch batch.now }
    ensures { IfOk result (λ has. has ≡ true → (accept.now.slot.place ≡ place) × (accept.now.batch ≡ batch.now)) }
{
    if accept.slot.place.get() != place {
        return Ok(false);
    }
    is_same(alloc, &accept.batch, batch)
}

/// The digest of a batch, if the batch may stand at a slot's place. If the book is locked on this
/// batch there, it may, and the accept has the digest. Error: want of memory.
#[tactic(auto, using(crate::proofs::Sound::lock_sound, crate::proofs::Named::named_so))]
fn named_behind(
    alloc: Global,
    ring: &Ring,
    book: &Book,
    slot: &Slot,
    batch: &Batch,
) -> Result<Option<Digest32>, AllocError>
    requires sound { AreSound ring.now book.now.entries }
    requires fits { FitsBatch batch.now }
    ensures { IfOk result (λ named. named ≡ named_for ring.now slot.now.place batch.now) }
{
    let place = slot.place.get();
    if let Some(accept) = book.lock(slot.view) {
        if has_accepted(alloc, accept, place, batch)? {
            return Ok(Some(accept.digest));
        }
    }
    named_for(alloc, ring, place, batch)
}

/// Whether a decision has its proof, and a batch for its place. Error: want of memory.
#[tactic(auto, using(crate::proofs::Named::named, crate::proofs::Named::unnamed))]
fn decision_rests(
    alloc: Global,
    ring: &Ring,
    view: &View,
    book: &Book,
    decision: &Decision,
) -> Result<bool, AllocError>
    requires sound { AreSound ring.now book.now.entries }
    requires fits { FitsBatch decision.now.batch }
    ensures { IfOk result (λ holds. holds ≡ rests_in ring.now view.now (Decided decision.now)) }
{
    let Decision {
        slot,
        batch,
        accepts,
    } = decision;
    if slot.view != view.number() {
        return Ok(false);
    }
    match named_behind(alloc, ring, book, slot, batch)? {
        Some(digest) => Ok(check_proof(ring, view, *slot, digest, accepts.as_slice()).is_ok()),
        None => Ok(false),
    }
}

/// Whether an installation has its certificate of marks. It needs no memory.
fn installation_rests(ring: &Ring, view: &View, installation: &Installation) -> bool
    ensures { result ≡ rests_in ring.now view.now (Installed installation.now) }
{
    let Installation {
        place,
        digest,
        view: number,
        marks,
    } = installation;
    *number == view.number() && check_marks(ring, view, *place, *digest, marks.as_slice()).is_ok()
}

/// The view that holds a place: the last that starts there or earlier, or else the first of all.
fn view_for(views: &[View], place: Place) -> &View
    requires { 0 < length views.now }
    ensures { Some result.now ≡ view_for views.now place }
{
    match view_holding(&views[1..], place) {
        Some(view) => view,
        None => &views[0],
    }
}

/// The view of a number, if it is one of these.
fn view_numbered(views: &[View], number: ViewNo) -> Option<&View>
    ensures { option_copied result ≡ view_numbered views.now number }
{
    for view in views {
        if view.number() == number {
            return Some(view);
        }
    }
    None
}

/// Whether an installation's certificate holds in the view that it names.
fn installation_holds(ring: &Ring, views: &[View], installation: &Installation) -> bool
    ensures { result ≡ rests ring.now views.now (Installed installation.now) }
{
    match view_numbered(views, installation.view) {
        Some(view) => installation_rests(ring, view, installation),
        None => false,
    }
}

/// Whether an entry's evidence holds by some views, after the entries of a book. It needs memory for
/// the bytes of two batches alone. Error: want of memory.
pub fn rests(
    alloc: Global,
    ring: &Ring,
    views: &[View],
    book: &Book,
    entry: &LogEntry,
) -> Result<bool, AllocError>
    requires some { 0 < length views.now }
    requires sound { AreSound ring.now book.now.entries }
    requires fits { FitsEntry entry.now }
    ensures { IfOk result (λ holds. holds ≡ rests ring.now views.now entry.now) }
{
    match entry {
        LogEntry::Accepted(accept) => {
            accept_rests(alloc, ring, view_for(views, accept.slot.place), accept)
        }
        LogEntry::Decided(decision) => {
            let view = view_for(views, decision.slot.place);
            decision_rests(alloc, ring, view, book, decision)
        }
        LogEntry::Opened(_)
        | LogEntry::Wrote(_)
        | LogEntry::Promised(_)
        | LogEntry::Synced(_)
        | LogEntry::Marked(_) => Ok(true),
        LogEntry::Installed(installation) => Ok(installation_holds(ring, views, installation)),
    }
}
