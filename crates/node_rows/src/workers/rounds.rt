//! The steps of a row: entries are put, and rounds are made.
ghost use Rattle.std.specs.Prelude.{◌≡◌, ◌≤◌, ◌^◌, [], None};
ghost use Rattle.log_lane.specs.Lane.{lane_taken, lane_raised, out_lane};

use crate::fault::RowFault;
use crate::workers::cell::MemCell;
use crate::workers::disk::TrialDisk;
use crate::workers::held::told_of_disks;
use crate::workers::steps::Step;
use check_worker::worker::CheckWorker;
use durable_store::disks::Disks;
use durable_store::store::Store;
use log_lane::inward::LaneIn;
use log_lane::outward::LaneOut;
use log_worker::home::Home;
use log_worker::text::EntryText;
use log_worker::worker::LogWorker;
use smart_base::sequence::Bytes;
use std::alloc::{AllocError, Global};
use std::marker::Brand;
use std::sync::Wait;
use store_form::ends::{LogFault, State};
use store_plan::stops::NeverStops;

/// An entry that decides this place; its bytes end there.
fn entry(alloc: Global, place: u8) -> Result<EntryText, RowFault> {
    let bytes = [6, 0, 0, 0, 0, 0, 0, 0, 0, 0, 0, 0, place];
    let text = Bytes::from_slice(alloc, &bytes)?;
    match EntryText::checked(text) {
        Some(entry) => Ok(entry),
        None => Err(RowFault::Word),
    }
}

/// A worker of each kind, and what they work on.
struct Rig<H: Home> {
    lane: LaneIn<EntryText>,
    cell: MemCell,
    worker: LogWorker<TrialDisk, H>,
    checks: CheckWorker,
}

/// Let go by one call, so that no function that lets one go carries the whole of it.
impl<H: Home> Drop for Rig<H> {
    fn drop(self) {
        let Rig {
            lane: _,
            cell: _,
            worker: _,
            checks: _,
        } = self;
    }
}

impl<H: Home> Rig<H> {
    /// Puts an entry into the lane, if there is room.
    fn put<R: Wait>(&mut self, rt: &R, alloc: Global, place: u8) -> Result<(), RowFault> {
        let text = entry(alloc, place)?;
        if self.lane.room() == 0 {
            return Err(RowFault::Full);
        }
        self.lane.put(rt, text);
        Ok(())
    }

    /// What a round left: the number of firm entries, how many of the lane's are, the generation, and
    /// the place that was told before the last write.
    fn told(&mut self, alloc: Global, firm: u64) -> Result<String, AllocError> {
        let raised = self.lane.firm();
        let generation = self.worker.store.generation();
        let told = self.cell.told;
        format!(in alloc;
            "firm {firm}, of the lane {raised}, generation {generation}, told {told}\n"
        )
    }

    /// One round of the worker of the log, unless one has failed.
    fn round<R: Wait>(&mut self, rt: &R, alloc: Global) -> Result<String, RowFault> {
        if self.worker.is_faulty() {
            return Ok(String::from_str(alloc, "no round\n")?);
        }
        match self
            .worker
            .round::<MemCell, NeverStops, R>(rt, &mut self.cell)
        {
            Ok(firm) => Ok(self.told(alloc, firm)?),
            Err(LogFault::NoMemory) => Err(RowFault::NoMemory),
            Err(LogFault::Disk { closed }) => {
                Ok(format!(in alloc; "disk fault, closed before: {closed}\n")?)
            }
        }
    }

    /// One round of the worker of checkpoints.
    fn check(&mut self, alloc: Global) -> Result<String, RowFault> {
        match self.checks.round(&mut self.cell) {
            Ok(place) => Ok(format!(in alloc; "handed over {place}\n")?),
            Err(_) => Err(RowFault::NoMemory),
        }
    }

    /// The disks of the store.
    fn into_disks(self) -> Disks<TrialDisk> {
        let Rig {
            lane: _,
            cell: _,
            worker,
            checks: _,
        } = self;
        let (_, store) = worker.into_parts();
        store.into_disks()
    }

    /// What is said of a step.
    fn step<R: Wait>(&mut self, rt: &R, alloc: Global, step: Step) -> Result<String, RowFault> {
        match step {
            Step::Round => self.round(rt, alloc),
            Step::Check => self.check(alloc),
            Step::Put(place) => {
                self.put(rt, alloc, place)?;
                Ok(String::new(alloc))
            }
        }
    }
}

/// What is said of the steps of a row and of the disks at its end, over a lane and a store that bear a
/// name.
fn play_named<H: Home, R: Wait>(
    rt: &R,
    alloc: Global,
    lane: LaneIn<EntryText>,
    outward: LaneOut<EntryText>,
    store: Store<TrialDisk>,
    cell: MemCell,
    steps: &[Step],
) -> Result<String, RowFault>
    requires lane { (out_lane outward ≡ H.lane) × ((lane_taken outward ≡ []) × (lane_raised outward ≡ 0)) }
    requires restored { (store.plan.restored ≡ H.restored) × ((store.plan.restored ≤ 2 ^ 63) × (store.plan.restored ≤ store.plan.firm)) }
    requires rests { (store.plan.running ≡ []) × ((store.plan.asked ≡ None) × (store.state ≡ State.Open)) }
{
    let worker: LogWorker<TrialDisk, H> = LogWorker::new(alloc, outward, store);
    let mut rig = Rig {
        lane,
        cell,
        worker,
        checks: CheckWorker::new(alloc, 0),
    };
    let mut said = String::new(alloc);
    for step in steps {
        said.push_str(rig.step(rt, alloc, *step)?.as_str())?;
    }
    said.push_str(told_of_disks(alloc, rig.into_disks())?.as_str())?;
    Ok(said)
}

/// What is said of the steps of a row, over a fresh lane, a store that was just opened, and a seat.
pub fn play<R: Wait>(
    rt: &R,
    alloc: Global,
    lane: LaneIn<EntryText>,
    outward: LaneOut<EntryText>,
    store: Store<TrialDisk>,
    cell: MemCell,
    steps: &[Step],
) -> Result<String, RowFault>
    requires lane { (lane_taken outward ≡ []) × (lane_raised outward ≡ 0) }
    requires restored { (store.plan.restored ≤ 2 ^ 63) × (store.plan.restored ≤ store.plan.firm) }
    requires rests { (store.plan.running ≡ []) × ((store.plan.asked ≡ None) × (store.state ≡ State.Open)) }
{
    play_named::<Brand, R>(rt, alloc, lane, outward, store, cell, steps)
}
