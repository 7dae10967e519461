//! The worker and its rounds.
ghost use Rattle.std.specs.Prelude.{◌≡◌, ◌<◌, Some, IfSome};
ghost use Rattle.check_worker.specs.Hands.{above};

use durable_store::cell::CoreCell;
use durable_store::store::StoreFault;
use smart_base::sequence::Bytes;
use std::alloc::Global;
use store_form::ends::LogFault;

/// A worker that remembers the place that it handed over last.
#[derive(Drop)]
pub struct CheckWorker {
    alloc: Global,
    pub last: u64,
}

impl CheckWorker {
    ghost use Rattle.std.specs.Prelude.{◌≡◌, ◌<◌, ◌⊎◌, ◌^◌, true, false, length, IfOk, IfSome, OnErr, IsErrOf};
    ghost use Rattle.check_worker.specs.Hands.{above, place_of, newest, last_then};

    /// A worker over a node that began with the snapshot of this place, 0 without one.
    pub fn new(alloc: Global, last: u64) -> Self
        ensures { result.last ≡ last }
    {
        CheckWorker { alloc, last }
    }

    /// The place that was handed over last.
    pub fn last(&self) -> u64
        ensures { result ≡ self.now.last }
    {
        self.last
    }

    /// One round: the snapshot for which the node wants a switch is handed over, unchanged, if its place
    /// is above the last. Gives its place, and 0 if and only if there is none. Error: want of memory.
    pub fn round<C: CoreCell>(&mut self, cell: &mut C) -> Result<u64, StoreFault>
        ensures place { IfOk result (λ place. C.alone → place ≡ place_of (above self.old.last (C.wants cell.old))) }
        ensures handed { IfOk result (λ place. C.alone → C.hands cell.new ≡ newest (above self.old.last (C.wants cell.old)) (C.hands cell.old)) }
        ensures wanted { C.alone → C.wants cell.new ≡ C.wants cell.old }
        // A place is 0 or above the last, and the next last one.
        ensures rises { IfOk result (λ place. (place ≡ 0) ⊎ (self.old.last < place)) }
        ensures last { IfOk result (λ place. self.new.last ≡ last_then self.old.last place) }
        ensures err { OnErr result ((self.new.last ≡ self.old.last) × (C.alone → C.hands cell.new ≡ C.hands cell.old)) }
        ensures cause { IsErrOf result (LogFault.Disk true) → ⊥ }
        ensures no_disk { IsErrOf result (LogFault.Disk false) → ⊥ }
    {
        match cell.wanted(self.alloc) {
            Ok(wanted) => Ok(self.hand_over(cell, wanted)),
            Err(_) => Err(LogFault::NoMemory),
        }
    }

    /// Hands over a snapshot, if its place is above the last. Gives its place, 0 if it is not.
    fn hand_over<C: CoreCell>(&mut self, cell: &mut C, wanted: Option<(u64, Bytes)>) -> u64
        requires replica { IfSome wanted (λ x. C.is_replica x.0 x.1) }
        requires fits { IfSome wanted (λ x. length x.1 < 2 ^ 32) }
        ensures place { result ≡ place_of (above self.old.last wanted) }
        ensures handed { C.alone → C.hands cell.new ≡ newest (above self.old.last wanted) (C.hands cell.old) }
        ensures wanted { C.alone → C.wants cell.new ≡ C.wants cell.old }
        ensures rises { (result ≡ 0) ⊎ (self.old.last < result) }
        ensures last { self.new.last ≡ last_then self.old.last result }
    {
        match above(self.last, wanted) {
            Some((place, snapshot)) => {
                cell.hand(place, snapshot);
                self.last = place;
                place
            }
            None => 0,
        }
    }
}

/// A snapshot whose place is above this one.
fn above(last: u64, wanted: Option<(u64, Bytes)>) -> Option<(u64, Bytes)>
    ensures is { result ≡ above last wanted }
    ensures same { IfSome result (λ x. wanted ≡ Some x) }
    ensures higher { IfSome result (λ x. last < x.0) }
{
    match wanted {
        Some((place, snapshot)) => {
            if last < place {
                Some((place, snapshot))
            } else {
                None
            }
        }
        None => None,
    }
}
