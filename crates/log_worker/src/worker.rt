//! The worker and its rounds.
ghost use Rattle.std.specs.Prelude.{◌≡◌, ◌≤◌, ◌+◌, ◌^◌, false, length};
ghost use Rattle.log_lane.specs.Lane.{lane_taken, lane_raised, out_lane};
ghost use Rattle.log_worker.specs.Rounds.{IsAtRest};

use crate::decided::most_decided;
use crate::home::Home;
use crate::storing::{store_generation, store_group};
use crate::taking::{pass_over, raise, take_all};
use crate::text::EntryText;
use disk_model::disk::Disk;
use durable_store::cell::CoreCell;
use durable_store::store::{Store, StoreFault};
use log_lane::outward::LaneOut;
use smart_base::sequence::{Bytes, Sequence};
use std::alloc::Global;
use std::marker::PhantomData;
use std::sync::Wait;
use store_form::ends::{LogFault, State};
use store_plan::stops::Stops;

/// A worker over the far end of a lane and a store. At any time as many entries are firm in its store as
/// were restored and it has said are stored. Until a round fails, those restored and those that it took
/// are as many as are firm or wait in the store, or fewer.
#[derive(Drop)]
pub struct LogWorker<D: Disk, H: Home> {
    alloc: Global,
    pub lane: LaneOut<EntryText>,
    pub store: Store<D>,
    /// The number of entries that the store restored.
    pub restored: u64,
    /// Whether a round has failed.
    pub faulty: bool,
    of: PhantomData<H>,
    pub ghost named: { (out_lane lane ≡ H.lane) × (restored ≡ H.restored) },
    pub ghost few: { restored ≤ 2 ^ 63 },
    pub ghost stored: { restored + lane_raised lane ≤ store.plan.firm },
    pub ghost rests: { faulty ≡ false → IsAtRest store.plan store.state },
    pub ghost counted: { faulty ≡ false → restored + length (lane_taken lane) ≤ store.plan.firm + length store.plan.waiting },
}

impl<D: Disk, H: Home> LogWorker<D, H> {
    ghost use Rattle.std.specs.Prelude.{◌≡◌, ◌≤◌, ◌<◌, ◌⊎◌, ◌+◌, ◌-◌, ◌^◌, max, min, false, true, [], None, length, IfOk, OnOk, OnErr, IsErrOf};
    ghost use Rattle.log_lane.specs.Lane.{lane_taken, lane_heard_put, lane_raised, out_lane};
    ghost use Rattle.queue_ends.specs.Rule.{IsFront};
    ghost use Rattle.store_laws.specs.States.{Devices, greatest, is_due};
    ghost use Rattle.store_plan.specs.Plans.{state_with};
    ghost use Rattle.durable_store.specs.Disks.{NoneFell, DiskRose};
    ghost use Rattle.durable_store.specs.Stores.{state_of, Stands};
    ghost use Rattle.log_worker.specs.Rounds.{IsAtRest, PassesOver, GroupMade, SwitchMade, HandedMade, Wanted};

    /// A worker over a lane from which nothing was taken, and a store that was just opened. It has no
    /// group under way.
    pub fn new(alloc: Global, lane: LaneOut<EntryText>, store: Store<D>) -> LogWorker<D, H>
        requires lane { (out_lane lane ≡ H.lane) × ((lane_taken lane ≡ []) × (lane_raised lane ≡ 0)) }
        requires restored { (store.plan.restored ≡ H.restored) × ((store.plan.restored ≤ 2 ^ 63) × (store.plan.restored ≤ store.plan.firm)) }
        requires rests { (store.plan.running ≡ []) × ((store.plan.asked ≡ None) × (store.state ≡ State.Open)) }
        requires none { D.told → store.plan.adding ≡ [] }
        ensures lane { result.lane ≡ lane }
        ensures store { (result.store.plan.firm ≡ store.plan.firm) × (result.store.plan.generation ≡ store.plan.generation) }
        ensures disks { result.store.disks ≡ store.disks }
        ensures waiting { (result.store.plan.waiting ≡ store.plan.waiting) × (result.store.state ≡ store.state) }
        // Over disks that tell their contents, the state of the store is as it was.
        ensures told { D.told → (d : Devices) → state_with result.store.plan d ≡ state_with store.plan d }
        ensures whole { result.faulty ≡ false }
        ensures stands { (D.told → Stands (state_of D.cells store)) → D.told → Stands (state_of D.cells result.store) }
    {
        let restored = store.plan.restored;
        let mut store = store;
        store.plan.adding = Sequence::new(alloc);
        LogWorker {
            alloc,
            lane,
            store,
            restored,
            faulty: false,
            of: PhantomData,
        }
    }

    /// A worker that goes on over the lane and the store of one that was taken apart, in which no round had
    /// failed. The store restored so many entries.
    pub fn again(
        alloc: Global,
        lane: LaneOut<EntryText>,
        store: Store<D>,
        restored: u64,
    ) -> LogWorker<D, H>
        requires lane { out_lane lane ≡ H.lane }
        requires restored { (restored ≡ H.restored) × (restored ≤ 2 ^ 63) }
        requires stored { restored + lane_raised lane ≤ store.plan.firm }
        requires rests { IsAtRest store.plan store.state }
        requires taken { restored + length (lane_taken lane) ≤ store.plan.firm + length store.plan.waiting }
        ensures same { (result.lane ≡ lane) × (result.store ≡ store) }
        ensures whole { result.faulty ≡ false }
    {
        LogWorker {
            alloc,
            lane,
            store,
            restored,
            faulty: false,
            of: PhantomData,
        }
    }

    /// The number of firm entries: those restored, and those made firm since.
    pub fn firm(&self) -> u64
        ensures { result ≡ self.now.store.plan.firm }
    {
        self.store.firm()
    }

    /// Whether a round has failed. No more rounds are made then.
    pub fn is_faulty(&self) -> bool
        ensures { result ≡ self.now.faulty }
    {
        self.faulty
    }

    /// The end of the lane, and the store. As many entries are firm as were restored and said to be stored.
    pub fn into_parts(self) -> (LaneOut<EntryText>, Store<D>)
        ensures lane { (result.0 ≡ self.lane) × (out_lane result.0 ≡ H.lane) }
        ensures store { (result.1 ≡ self.store) × (H.restored + lane_raised result.0 ≤ result.1.plan.firm) }
    {
        let LogWorker {
            alloc: _,
            lane,
            store,
            restored: _,
            faulty: _,
            of: _,
        } = self;
        (lane, store)
    }

    /// One round: a switch, if a snapshot was handed over, or else a group of all that is in the lane
    /// and waits. Gives the number of firm entries, and the lane is told how many of its own are. Errors:
    /// a failure of a device; want of memory. No round follows then.
    pub fn round<C: CoreCell, E: Stops, R: Wait>(
        &mut self,
        rt: &R,
        cell: &mut C,
    ) -> Result<u64, StoreFault>
        requires whole { self.old.faulty ≡ false }
        requires sound { D.told → Stands (state_of D.cells self.old.store) }
        ensures firm { IfOk result (λ n. n ≡ self.new.store.plan.firm) }
        ensures rose { self.old.store.plan.firm ≤ self.new.store.plan.firm }
        ensures whole { OnOk result (self.new.faulty ≡ false) }
        ensures fails { OnErr result (self.new.faulty ≡ true) }
        // All that is firm and was taken is said to be stored.
        ensures raised { OnOk result (min (self.new.store.plan.firm - H.restored) (length (lane_taken self.new.lane)) ≤ lane_raised self.new.lane) }
        // A snapshot that was handed over is switched to, and the generation is the next one. The entries of the lane that are firm then are passed over.
        // Or all was taken that was heard to be put, and written with what waited. Nothing is handed over then, or no generation is left. What still
        // waits stands at or after an entry that ends a group.
        ensures done { OnOk result ((HandedMade D.told D.remembers D.cells D.moment D.left_since E.stops H.restored C.is_replica C.is_tail C.alone (C.hands cell.old) (C.tails cell.old) result self.old.store self.new.store
            × ((self.new.store.plan.generation ≡ self.old.store.plan.generation + 1)
            × PassesOver (self.new.store.plan.firm - H.restored) (lane_heard_put self.old.lane) (lane_taken self.old.lane) (lane_taken self.new.lane)))
            ⊎ (GroupMade D.told D.remembers D.cells D.moment D.left_since E.stops result (lane_taken self.old.lane) (lane_taken self.new.lane) self.old.store self.new.store
            × (IsFront (lane_heard_put self.old.lane) (lane_taken self.new.lane)
            × ((C.alone → (C.hands cell.old ≡ None) ⊎ (self.old.store.plan.generation ≡ greatest))
            × ((d : Devices) → is_due E.stops (state_with self.new.store.plan d) ≡ false))))) }
        // The store was asked for no other switch and no other group, and made no other calls.
        ensures failed { OnErr result ((HandedMade D.told D.remembers D.cells D.moment D.left_since E.stops H.restored C.is_replica C.is_tail C.alone (C.hands cell.old) (C.tails cell.old) result self.old.store self.new.store
            × (lane_taken self.new.lane ≡ lane_taken self.old.lane))
            ⊎ GroupMade D.told D.remembers D.cells D.moment D.left_since E.stops result (lane_taken self.old.lane) (lane_taken self.new.lane) self.old.store self.new.store) }
        ensures stands { OnOk result (D.told → Stands (state_of D.cells self.new.store)) }
        ensures later { NoneFell D.faults self.old.store.disks self.new.store.disks }
        ensures cause { IsErrOf result (LogFault.Disk false) → DiskRose D.faults self.old.store.disks self.new.store.disks }
        ensures not_closed { IsErrOf result (LogFault.Disk true) → ⊥ }
    {
        if self.store.generation() < u64::MAX {
            if let Some((place, snapshot)) = cell.handed() {
                return self.switch::<C, E, R>(rt, cell, place, snapshot);
            }
        }
        self.add::<C, E, R>(rt, cell)
    }

    /// Switches to the next generation with a snapshot of this place, and passes over the entries that
    /// are firm by it. A tail that ends before an entry that is firm is refused as want of memory: the
    /// log would lose that entry.
    fn switch<C: CoreCell, E: Stops, R: Wait>(
        &mut self,
        rt: &R,
        cell: &mut C,
        place: u64,
        snapshot: Bytes,
    ) -> Result<u64, StoreFault>
        requires whole { self.old.faulty ≡ false }
        requires next { self.old.store.plan.generation < greatest }
        requires replica { C.is_replica place snapshot }
        requires fits { length snapshot < 2 ^ 32 }
        requires sound { D.told → Stands (state_of D.cells self.old.store) }
        ensures firm { IfOk result (λ n. n ≡ self.new.store.plan.firm) }
        ensures rose { self.old.store.plan.firm ≤ self.new.store.plan.firm }
        ensures whole { OnOk result (self.new.faulty ≡ false) }
        ensures fails { OnErr result (self.new.faulty ≡ true) }
        ensures raised { OnOk result (min (self.new.store.plan.firm - H.restored) (length (lane_taken self.new.lane)) ≤ lane_raised self.new.lane) }
        ensures switched { SwitchMade D.told D.remembers D.cells D.moment D.left_since E.stops H.restored C.is_tail C.alone (C.tails cell.old) place snapshot result self.old.store self.new.store ⊎ Wanted D.told D.remembers D.cells D.moment D.left_since E.stops result self.old.store self.new.store }
        ensures passed { OnOk result (PassesOver (self.new.store.plan.firm - H.restored) (lane_heard_put self.old.lane) (lane_taken self.old.lane) (lane_taken self.new.lane)) }
        ensures kept { OnErr result (lane_taken self.new.lane ≡ lane_taken self.old.lane) }
        ensures generation { OnOk result (self.new.store.plan.generation ≡ self.old.store.plan.generation + 1) }
        ensures stands { OnOk result (D.told → Stands (state_of D.cells self.new.store)) }
        ensures later { NoneFell D.faults self.old.store.disks self.new.store.disks }
        ensures cause { IsErrOf result (LogFault.Disk false) → DiskRose D.faults self.old.store.disks self.new.store.disks }
        ensures not_closed { IsErrOf result (LogFault.Disk true) → ⊥ }
    {
        self.faulty = true;
        let Ok(tail) = cell.tail(self.alloc, place) else {
            return Err(LogFault::NoMemory);
        };
        if tail.made < self.store.firm() - self.restored {
            return Err(LogFault::NoMemory);
        }
        store_generation::<D, E>(self.alloc, &mut self.store, snapshot, &tail)?;
        let stored = self.store.firm() - self.restored;
        pass_over(rt, &mut self.lane, stored);
        let _taken = raise(&mut self.lane, stored);
        self.faulty = false;
        Ok(self.store.firm())
    }

    /// Takes what is in the lane, and lets the store write it with all that waits.
    fn add<C: CoreCell, E: Stops, R: Wait>(
        &mut self,
        rt: &R,
        cell: &mut C,
    ) -> Result<u64, StoreFault>
        requires whole { self.old.faulty ≡ false }
        requires sound { D.told → Stands (state_of D.cells self.old.store) }
        ensures firm { IfOk result (λ n. n ≡ self.new.store.plan.firm) }
        ensures rose { self.old.store.plan.firm ≤ self.new.store.plan.firm }
        ensures whole { OnOk result (self.new.faulty ≡ false) }
        ensures fails { OnErr result (self.new.faulty ≡ true) }
        ensures raised { OnOk result (min (self.new.store.plan.firm - H.restored) (length (lane_taken self.new.lane)) ≤ lane_raised self.new.lane) }
        ensures wrote { GroupMade D.told D.remembers D.cells D.moment D.left_since E.stops result (lane_taken self.old.lane) (lane_taken self.new.lane) self.old.store self.new.store }
        ensures taken { OnOk result (IsFront (lane_heard_put self.old.lane) (lane_taken self.new.lane)) }
        ensures done { OnOk result ((d : Devices) → is_due E.stops (state_with self.new.store.plan d) ≡ false) }
        ensures stands { OnOk result (D.told → Stands (state_of D.cells self.new.store)) }
        ensures later { NoneFell D.faults self.old.store.disks self.new.store.disks }
        ensures cause { IsErrOf result (LogFault.Disk false) → DiskRose D.faults self.old.store.disks self.new.store.disks }
        ensures not_closed { IsErrOf result (LogFault.Disk true) → ⊥ }
    {
        self.faulty = true;
        let mut group = Vec::new(self.alloc);
        if !take_all(rt, &mut self.lane, &mut group) {
            return Err(LogFault::NoMemory);
        }
        if let Some(decided) = most_decided::<E>(
            self.store.plan.waiting.as_slice(),
            group.as_slice(),
        ) {
            cell.before_write(decided);
        }
        store_group::<D, E>(self.alloc, &mut self.store, Sequence::from_vec(group))?;
        let stored = self.store.firm() - self.restored;
        let _taken = raise(&mut self.lane, stored);
        self.faulty = false;
        Ok(self.store.firm())
    }
}
