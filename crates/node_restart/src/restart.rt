//! The replica and the book that restored entries give back.
ghost use Rattle.std.specs.Prelude.{◌≡◌, ◌+◌, ◌<◌, ◌^◌, ℕ, length, max, Some, None, false, IfOk, OnOk, IsErrOf};
ghost use Rattle.std.specs.Result.{is_err};
ghost use Rattle.vote_book.specs.Admission.{admits};
ghost use Rattle.vote_book.specs.Books.{last_made};
ghost use Rattle.vote_book.specs.Entries.{FitsEntry, entry_decoded};
ghost use Rattle.vote_book.specs.declared.entry.LogEntry.TheVariants.{Decided};
ghost use Rattle.node_rules.specs.Reopening.{opens_first};
ghost use Rattle.node_restart.specs.Restarts.{replayed, begun, may_take, took, taken, AreSound, IsInTurn, place_behind};
ghost use Rattle.node_restart.specs.declared.fault.ReopenFault.TheVariants.{Damaged};

use crate::fault::ReopenFault;
use crate::rests::{is_opening, rests};
use delivery::replica::{KeptReplica, deliver};
use smart_base::fault::ReadError;
use smart_base::number::Place;
use smart_base::view::View;
use smart_keys::ring::Ring;
use smart_service::service::Service;
use std::alloc::{AllocError, Global};
use std::marker::Model;
use vote_book::book::Book;
use vote_book::codec::decode_entry;
use vote_book::entry::{Decision, LogEntry};

/// A replica and a book that restored entries give back, one by one, from the replica of a checkpoint
/// or the empty one. Each entry is read, checked after those before it, and written into the book
/// again. What it decided past the first replica's place is delivered, and nobody is answered.
pub struct Restart<S> {
    alloc: Global,
    /// The place of the replica with which it began.
    past: Place,
    replica: KeptReplica<S>,
    book: Book,
}

/// Let go by one call, so that no function that lets one go carries the whole of it.
impl<S: Drop> Drop for Restart<S> {
    fn drop(self) {
        let Restart {
            alloc: _,
            past: _,
            replica: _,
            book: _,
        } = self;
    }
}

impl<S> Model for Restart<S> {
    ghost use Rattle.node_restart.specs.Restarts.{Restart as Restarts, IsReplayed};

    ghost Value = { Restarts S };

    ghost view = { λ r. record { past = r.past; replica = r.replica.replica; entries = r.book.entries } };

    ghost invariant = { λ r. IsReplayed r.past r.replica.replica r.replica.spent r.book };
}

/// Delivers to a replica what a decision past a place decided. Error: want of memory.
#[tactic(auto, using(crate::proofs::Turns::replayed_past, crate::proofs::Turns::replayed_before, crate::proofs::Turns::place_past, crate::proofs::Turns::place_before, crate::proofs::Turns::next_past))]
fn replay_decision<S: Service>(
    alloc: Global,
    replica: &mut KeptReplica<S>,
    past: Place,
    decision: &Decision,
) -> Result<(), AllocError>
    requires ready { replica.old.spent ≡ false }
    requires turn { IsInTurn past replica.old.replica.place (Decided decision.now) }
    ensures state { OnOk result (replica.new.replica ≡ replayed S.meaning past replica.old.replica (Decided decision.now)) }
    ensures spent { replica.new.spent ≡ is_err result }
    ensures place { replica.new.replica.place ≡ place_behind past replica.old.replica.place (Decided decision.now) }
{
    // That a place is below 2^63 is known of its type.
    let place = decision.slot.place.get();
    let past = past.get();
    if place <= past {
        return Ok(());
    }
    deliver(alloc, replica, &decision.batch)?;
    Ok(())
}

/// Delivers to a replica what an entry decided past a place. Error: want of memory.
fn replay<S: Service>(
    alloc: Global,
    replica: &mut KeptReplica<S>,
    past: Place,
    entry: &LogEntry,
) -> Result<(), AllocError>
    requires ready { replica.old.spent ≡ false }
    requires turn { IsInTurn past replica.old.replica.place entry.now }
    ensures state { OnOk result (replica.new.replica ≡ replayed S.meaning past replica.old.replica entry.now) }
    ensures spent { replica.new.spent ≡ is_err result }
    ensures place { replica.new.replica.place ≡ place_behind past replica.old.replica.place entry.now }
{
    match entry {
        LogEntry::Decided(decision) => {
            replay_decision(alloc, replica, past, decision)?;
            Ok(())
        }
        LogEntry::Opened(_)
        | LogEntry::Wrote(_)
        | LogEntry::Accepted(_)
        | LogEntry::Promised(_)
        | LogEntry::Synced(_)
        | LogEntry::Installed(_)
        | LogEntry::Marked(_) => Ok(()),
    }
}

impl<S: Service> Restart<S> {
    /// The start of a restart: the replica of a checkpoint, or the one before any batch, and an empty
    /// book.
    pub fn begin(alloc: Global, replica: KeptReplica<S>) -> Self
        requires { replica.spent ≡ false }
        ensures { result ≡ begun replica.replica }
    {
        let past = replica.replica().place;
        Restart {
            alloc,
            past,
            replica,
            book: Book::begin(alloc, past),
        }
    }

    /// The number of entries that are given back.
    fn made(&self) -> u64
        ensures value { result ≡ length self.now.entries }
        ensures small { result < 2 ^ 63 }
    {
        self.book.pushed().len() as u64
    }

    /// The views that the replica knows.
    fn views(&self) -> &[View]
        ensures value { result.now ≡ self.now.replica.views }
        ensures some { 0 < length result.now }
    {
        self.replica.replica().views.as_slice()
    }

    /// Whether the book admits an entry as a restored one.
    fn admits(&self, entry: &LogEntry) -> bool
        ensures { result ≡ admits self.now.past (length self.now.entries + 1) self.now.entries entry.now }
    {
        self.book.admits(entry)
    }

    /// Whether an entry opens the book, if it is the first.
    fn opens_first(&self, entry: &LogEntry) -> bool
        ensures { result ≡ opens_first self.now.entries entry.now }
    {
        !self.book.pushed().is_empty() || is_opening(entry)
    }

    /// Whether an entry may be taken back after the others. Error: want of memory.
    fn may_take(&self, ring: &Ring, entry: &LogEntry) -> Result<bool, AllocError>
        requires sound { AreSound ring.now self.now.entries }
        requires fits { FitsEntry entry.now }
        ensures { IfOk result (λ may. may ≡ may_take ring.now self.now.replica.views self.now.past self.now.entries entry.now) }
    {
        if !self.opens_first(entry) || !self.admits(entry) {
            return Ok(false);
        }
        rests(self.alloc, ring, self.views(), &self.book, entry)
    }

    /// Writes an entry into the book, and delivers what it decided past the first replica's place. Error:
    /// want of memory.
    fn push(self, entry: LogEntry) -> Result<Self, AllocError>
        requires { IsInTurn self.past self.replica.place entry }
        ensures later { IfOk result (λ later. later ≡ took S.meaning self entry) }
    {
        let Restart {
            alloc,
            past,
            mut replica,
            mut book,
        } = self;
        replay(alloc, &mut replica, past, &entry)?;
        book.push(entry)?;
        Ok(Restart {
            alloc,
            past,
            replica,
            book,
        })
    }

    /// Reads the next entry. Errors: the entry is damaged; want of memory.
    #[tactic(auto, using(crate::proofs::Turns::in_turn))]
    pub fn take(self, ring: &Ring, bytes: &[u8]) -> Result<Self, ReopenFault>
        requires sound { AreSound ring.now self.entries }
        ensures taken { IfOk result (λ later. taken S.meaning ring.now self (entry_decoded bytes.now) ≡ Some later) }
        ensures sound { IfOk result (λ later. AreSound ring.now later.entries) }
        ensures cause { (entry : ℕ) → IsErrOf result (Damaged entry) → (taken S.meaning ring.now self (entry_decoded bytes.now) ≡ None) × (entry ≡ length self.entries + 1) }
    {
        let number = self.made() + 1;
        match decode_entry(self.alloc, bytes) {
            Ok(entry) => {
                if !self.may_take(ring, &entry)? {
                    return Err(ReopenFault::Damaged { entry: number });
                }
                let later = self.push(entry)?;
                Ok(later)
            }
            Err(ReadError::NoMemory) => Err(ReopenFault::NoMemory),
            Err(ReadError::Unread { .. }) => Err(ReopenFault::Damaged { entry: number }),
        }
    }

    /// The replica and the book. What is pushed into the book from then on is not restored. The
    /// book's last place is the replica's, or an earlier one if the restart began there.
    pub fn finish(self) -> (KeptReplica<S>, Book)
        ensures replica { result.0 ≡ record { replica = self.replica; spent = false } }
        ensures book { result.1 ≡ record { opening = self.past; restored = Some (length self.entries); entries = self.entries } }
        ensures made { max self.past (last_made self.entries) ≡ self.replica.place }
    {
        let Restart {
            alloc: _,
            past: _,
            replica,
            mut book,
        } = self;
        book.end_restored();
        (replica, book)
    }
}
