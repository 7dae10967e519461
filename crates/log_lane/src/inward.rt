//! The end that puts entries.
ghost use Rattle.std.specs.Prelude.{◌≡◌, ◌≤◌, [], length};
ghost use Rattle.std.specs.Arc.{arc_value};
ghost use Rattle.queue_ends.specs.Ends.{put_list, put_capacity};
ghost use Rattle.log_lane.specs.Word.{reading};

use crate::stored::Stored;
use crate::word::{Hears, Reads, Word, WordSeat};
use queue_ends::put_end::PutEnd;
use queue_ends::told::Told;
use std::alloc::Global;
use std::sync::{Arc, Wait};
use std::thread;

/// The greatest number of entries that a lane ever carries.
const MOST: u64 = 1 << 62;

/// The end that puts entries, and reads how many are stored. It can move to another thread.
#[derive(Drop)]
pub struct LaneIn<T> {
    pub(crate) items: PutEnd<T>,
    pub(crate) word: Arc<Word, Global>,
    pub(crate) seat: WordSeat,
    pub(crate) capacity: u64,
    /// How many entries are known to be stored.
    pub(crate) read: u64,
    pub ghost ours: { (seat.table_id ≡ (arc_value word).shared.table_id) × (seat.table_id.words ≡ 1) × (seat.me.1 ≡ []) },
    pub ghost role: { seat.me.0 ≡ reading seat.me.0.found seat.me.0.heard },
    pub ghost has_read: { (read ≤ seat.me.0.found) × (read ≤ length (put_list items)) },
    pub ghost has_heard: { seat.me.0.heard ≤ length (put_list items) },
    pub ghost holds: { capacity ≤ put_capacity items },
}

impl<T: Drop> LaneIn<T> {
    ghost use Rattle.std.specs.Prelude.{◌≡◌, ◌≤◌, ◌^◌, [], ◌∷◌, ◌++◌, length};
    ghost use Rattle.queue_ends.specs.Ends.{told_queue, told_put};
    ghost use Rattle.log_lane.specs.Lane.{lane_put, lane_read, lane_heard, lane_capacity, lane_room, in_lane, stored_lane, told_stored};

    /// How many entries may be put before more are known to be stored.
    pub fn room(&self) -> u64
        ensures { result ≡ lane_room self.now }
    {
        let count = self.items.count();
        let waiting = count - self.read;
        let free = self.capacity.saturating_sub(waiting);
        free.min(MOST - count)
    }

    /// How many entries were put.
    pub fn count(&self) -> u64
        ensures { result ≡ length (lane_put self.now) }
    {
        self.items.count()
    }

    /// Puts an entry behind all others.
    pub fn put<R: Wait>(&mut self, rt: &R, entry: T)
        requires { 1 ≤ lane_room self.old }
        ensures lane { in_lane self.new ≡ in_lane self.old }
        ensures put { lane_put self.new ≡ lane_put self.old ++ entry ∷ [] }
        ensures same { (lane_read self.new ≡ lane_read self.old) × (lane_heard self.new ≡ lane_heard self.old) × (lane_capacity self.new ≡ lane_capacity self.old) }
    {
        let mut entry = entry;
        for _ in rt.forever() {
            match self.items.put(rt, entry) {
                Ok(()) => return,
                Err(back) => entry = back,
            }
            thread::yield_now();
        }
        unreachable!()
    }

    /// How many entries are stored: what the far end has raised the number to at one moment of the
    /// call. It is no less than at an earlier call, and than what was heard.
    pub fn firm(&mut self) -> u64
        ensures lane { in_lane self.new ≡ in_lane self.old }
        ensures read { result ≡ lane_read self.new }
        ensures grows { (lane_read self.old ≤ result) × (lane_heard self.old ≤ result) }
        ensures put { result ≤ length (lane_put self.old) }
        ensures same { (lane_put self.new ≡ lane_put self.old) × (lane_heard self.new ≡ lane_heard self.old) × (lane_capacity self.new ≡ lane_capacity self.old) }
    {
        // The number is never more than the entries that were put, which this end cannot see of it.
        let found = self.load();
        self.read = found.min(self.items.count());
        self.read
    }

    /// What the word is at one moment of the call.
    fn load(&mut self) -> u64
        ensures lane { in_lane self.new ≡ in_lane self.old }
        ensures found { result ≡ self.new.seat.me.0.found }
        ensures grows { (lane_read self.old ≤ result) × (lane_heard self.old ≤ result) }
        ensures same { (lane_put self.new ≡ lane_put self.old) × (lane_read self.new ≡ lane_read self.old) × (lane_heard self.new ≡ lane_heard self.old) × (lane_capacity self.new ≡ lane_capacity self.old) }
    {
        self.word.shared.load::<Reads>(&mut self.seat, 0)
    }

    /// Tells what was put so far.
    pub fn tell(&mut self) -> Told<T>
        ensures lane { (in_lane self.new ≡ in_lane self.old) × (told_queue result ≡ (in_lane self.old).0) }
        ensures told { told_put result ≡ lane_put self.old }
        ensures same { (lane_put self.new ≡ lane_put self.old) × (lane_read self.new ≡ lane_read self.old) × (lane_heard self.new ≡ lane_heard self.old) × (lane_capacity self.new ≡ lane_capacity self.old) }
    {
        self.items.tell()
    }

    /// Hears how many entries were stored.
    pub fn hear(&mut self, stored: Stored<T>)
        requires { stored_lane stored ≡ in_lane self.old }
        ensures lane { in_lane self.new ≡ in_lane self.old }
        ensures heard { lane_heard self.new ≡ told_stored stored }
        ensures same { (lane_put self.new ≡ lane_put self.old) × (lane_read self.new ≡ lane_read self.old) × (lane_capacity self.new ≡ lane_capacity self.old) }
    {
        let Stored { taken, seat } = stored;
        self.items.hear(taken);
        self.word.shared.join_seat::<Hears>(&mut self.seat, seat);
    }
}
