//! A seat in memory, as the workers see one.
ghost use Rattle.std.specs.Prelude.{◌<◌, ◌^◌, length};

use durable_store::cell::CoreCell;
use smart_base::duplicate::Duplicate;
use smart_base::sequence::{Bytes, Sequence};
use std::alloc::{AllocError, Global};
use store_laws::job::Tail;

/// A snapshot that fits a slot, with its place.
pub struct Snapshot {
    pub place: u64,
    pub bytes: Bytes,
    pub ghost fits: { length bytes < 2 ^ 32 },
}

/// Let go by one call, so that no function that lets one go carries the whole of it.
impl Drop for Snapshot {
    fn drop(self) {
        let Snapshot { place: _, bytes: _ } = self;
    }
}

impl Snapshot {
    ghost use Rattle.std.specs.Prelude.{◌≡◌};

    /// A snapshot of these bytes, unless they are too many.
    pub fn new(place: u64, bytes: Bytes) -> Option<Snapshot> {
        if bytes.len() >= 1 << 32 {
            return None;
        }
        Some(Snapshot { place, bytes })
    }

    /// Its place and its bytes.
    fn into_pair(self) -> (u64, Bytes)
        ensures place { result.0 ≡ self.place }
        ensures bytes { result.1 ≡ self.bytes }
        ensures fits { length result.1 < 2 ^ 32 }
    {
        let Snapshot { place, bytes } = self;
        (place, bytes)
    }
}

/// A seat in memory, which nobody else changes. No entry stands in a tail of it.
pub struct MemCell {
    pub wanted: Option<Snapshot>,
    pub handed: Option<Snapshot>,
    /// The number of the last entry of the tail of each place.
    pub made: u64,
    /// The place that the last call of `before_write` told.
    pub told: u64,
}

/// Let go by one call, so that no function that lets one go carries the whole of it.
impl Drop for MemCell {
    fn drop(self) {
        let MemCell {
            wanted: _,
            handed: _,
            made: _,
            told: _,
        } = self;
    }
}

impl CoreCell for MemCell {
    ghost use Rattle.std.specs.Prelude.{[]};
    ghost use Rattle.node_rows.specs.Cells.{pair_of};

    ghost alone = { Unit {0} };

    ghost is_replica = { λ _ _. Unit {0} };

    ghost wants = { λ cell. pair_of cell.wanted };

    ghost hands = { λ cell. pair_of cell.handed };

    ghost is_tail = { λ _ _. Unit {0} };

    ghost tails = { λ cell _. record { made = cell.made; entries = [] } };

    fn wanted(&mut self, alloc: Global) -> Result<Option<(u64, Bytes)>, AllocError> {
        match &self.wanted {
            Some(snapshot) => Ok(Some((snapshot.place, snapshot.bytes.duplicate(alloc)?))),
            None => Ok(None),
        }
    }

    fn hand(&mut self, place: u64, snapshot: Bytes) {
        self.handed = Some(Snapshot {
            place,
            bytes: snapshot,
        });
    }

    fn handed(&mut self) -> Option<(u64, Bytes)> {
        match self.handed.take() {
            Some(snapshot) => Some(snapshot.into_pair()),
            None => None,
        }
    }

    fn tail(&mut self, alloc: Global, _place: u64) -> Result<Tail, AllocError> {
        Ok(Tail {
            made: self.made,
            entries: Sequence::new(alloc),
        })
    }

    fn before_write(&mut self, decided: u64) {
        self.told = decided;
    }
}
