//! The end that takes entries.
ghost use Rattle.std.specs.Prelude.{◌≡◌, ◌≤◌, [], length};
ghost use Rattle.std.specs.Arc.{arc_value};
ghost use Rattle.queue_ends.specs.Ends.{taken_list};
ghost use Rattle.log_lane.specs.Word.{raising};

use crate::stored::Stored;
use crate::word::{Raises, Tells, Word, WordSeat};
use queue_ends::take_end::TakeEnd;
use queue_ends::told::Told;
use std::alloc::Global;
use std::sync::{Arc, Wait};

/// The end that takes entries, and says how many are stored. It can move to another thread.
#[derive(Drop)]
pub struct LaneOut<T> {
    pub(crate) items: TakeEnd<T>,
    pub(crate) word: Arc<Word, Global>,
    pub(crate) seat: WordSeat,
    /// How many entries are said to be stored.
    pub(crate) raised: u64,
    pub ghost ours: { (seat.table_id ≡ (arc_value word).shared.table_id) × (seat.table_id.words ≡ 1) × (seat.me.1 ≡ []) },
    pub ghost role: { seat.me.0 ≡ raising raised seat.me.0.heard },
    pub ghost has_taken: { raised ≤ length (taken_list items) },
}

impl<T: Drop> LaneOut<T> {
    ghost use Rattle.std.specs.Prelude.{◌≡◌, ◌≤◌, ◌^◌, [], ◌∷◌, ◌++◌, length, MatchOption};
    ghost use Rattle.queue_ends.specs.Rule.{IsFront};
    ghost use Rattle.queue_ends.specs.Ends.{told_queue, told_put};
    ghost use Rattle.log_lane.specs.Lane.{lane_heard_put, lane_taken, lane_raised, out_lane, stored_lane, told_stored};

    /// Takes the first entry that is left. `None` only where there was none at one moment of the
    /// call, so that all was taken that was heard to be put.
    pub fn take<R: Wait>(&mut self, rt: &R) -> Option<T>
        ensures lane { out_lane self.new ≡ out_lane self.old }
        ensures taken { MatchOption result ((lane_taken self.new ≡ lane_taken self.old) × IsFront (lane_heard_put self.old) (lane_taken self.old))
            (λ entry. lane_taken self.new ≡ lane_taken self.old ++ entry ∷ []) }
        ensures same { (lane_raised self.new ≡ lane_raised self.old) × (lane_heard_put self.new ≡ lane_heard_put self.old) }
    {
        self.items.take(rt)
    }

    /// Says that so many of the entries taken are stored.
    pub fn raise(&mut self, stored: u64)
        requires more { lane_raised self.old ≤ stored }
        requires taken { stored ≤ length (lane_taken self.old) }
        ensures lane { out_lane self.new ≡ out_lane self.old }
        ensures raised { lane_raised self.new ≡ stored }
        ensures same { (lane_taken self.new ≡ lane_taken self.old) × (lane_heard_put self.new ≡ lane_heard_put self.old) }
    {
        self.word.shared.store::<Raises>(&mut self.seat, 0, stored);
        self.raised = stored;
    }

    /// How many entries were taken.
    pub fn taken(&self) -> u64
        ensures count { result ≡ length (lane_taken self.now) }
        ensures few { result ≤ 2 ^ 62 }
    {
        self.items.count()
    }

    /// What the last `raise` said, 0 before the first.
    pub fn raised(&self) -> u64
        ensures { result ≡ lane_raised self.now }
    {
        self.raised
    }

    /// Tells how many entries are stored.
    pub fn tell(&mut self) -> Stored<T>
        ensures lane { (out_lane self.new ≡ out_lane self.old) × (stored_lane result ≡ out_lane self.old) }
        ensures told { told_stored result ≡ lane_raised self.old }
        ensures same { (lane_taken self.new ≡ lane_taken self.old) × (lane_raised self.new ≡ lane_raised self.old) × (lane_heard_put self.new ≡ lane_heard_put self.old) }
    {
        let taken = self.items.tell();
        let seat = self.word.shared.split_seat::<Tells>(&mut self.seat);
        Stored { taken, seat }
    }

    /// Hears what was put.
    pub fn hear(&mut self, told: Told<T>)
        requires { told_queue told ≡ (out_lane self.old).0 }
        ensures lane { out_lane self.new ≡ out_lane self.old }
        ensures heard { lane_heard_put self.new ≡ told_put told }
        ensures same { (lane_taken self.new ≡ lane_taken self.old) × (lane_raised self.new ≡ lane_raised self.old) }
    {
        self.items.hear(told);
    }

    /// Once as many were taken as were heard to be put, those are a front of what was taken.
    pub fn compare(&mut self)
        requires { length (lane_heard_put self.old) ≤ length (lane_taken self.old) }
        ensures lane { out_lane self.new ≡ out_lane self.old }
        ensures same { (lane_taken self.new ≡ lane_taken self.old) × (lane_raised self.new ≡ lane_raised self.old) × (lane_heard_put self.new ≡ lane_heard_put self.old) }
        ensures front { IsFront (lane_heard_put self.old) (lane_taken self.old) }
    {
        self.items.compare();
    }
}
