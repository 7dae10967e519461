//! What the workers of a member work on, as plain values that no name of one member is in.
ghost use Rattle.std.specs.Prelude.{◌≡◌, ◌≤◌, false};
ghost use Rattle.group_threads.specs.Desks.{IsDeskOf};

use check_worker::worker::CheckWorker;
use disk_model::disk::Disk;
use durable_store::store::Store;
use log_lane::outward::LaneOut;
use log_worker::home::Home;
use log_worker::text::EntryText;
use log_worker::worker::LogWorker;
use node_endings::ending::LoopEnd;
use std::alloc::Global;

/// The far end of a member's lane, its store, and the worker of its checkpoints.
#[derive(Drop)]
pub struct Desk<D: Disk> {
    pub(crate) alloc: Global,
    pub lane: LaneOut<EntryText>,
    pub store: Store<D>,
    /// The number of entries that the store restored.
    pub restored: u64,
    /// Whether a round has failed.
    pub faulty: bool,
    pub checker: CheckWorker,
}

/// Why the loops of a member ended.
#[derive(Clone, Copy, Debug, PartialEq, Eq)]
pub struct MemberEnds {
    pub delivered: LoopEnd,
    pub sent: LoopEnd,
    pub logged: LoopEnd,
    pub checked: LoopEnd,
}

/// The desk of a worker of the log, beside that of checkpoints.
pub fn desk_of<D: Disk, H: Home>(
    alloc: Global,
    worker: LogWorker<D, H>,
    checker: CheckWorker,
) -> Desk<D>
    ensures desk { IsDeskOf H.lane H.restored result }
    ensures same { (result.lane ≡ worker.lane) × ((result.store ≡ worker.store) × ((result.faulty ≡ worker.faulty) × (result.checker ≡ checker))) }
{
    let restored = worker.restored;
    let faulty = worker.faulty;
    let (lane, store) = worker.into_parts();
    Desk {
        alloc,
        lane,
        store,
        restored,
        faulty,
        checker,
    }
}

/// The workers of a desk.
pub struct Workers<D: Disk, H: Home> {
    pub log: LogWorker<D, H>,
    pub checker: CheckWorker,
}

/// The workers that go on at a desk.
pub fn workers_of<D: Disk, H: Home>(desk: Desk<D>) -> Workers<D, H>
    requires desk { IsDeskOf H.lane H.restored desk }
    requires whole { desk.faulty ≡ false }
    ensures same { (result.log.lane ≡ desk.lane) × ((result.log.store ≡ desk.store) × (result.checker ≡ desk.checker)) }
    ensures whole { result.log.faulty ≡ false }
{
    let Desk {
        alloc,
        lane,
        store,
        restored,
        faulty: _,
        checker,
    } = desk;
    Workers {
        log: LogWorker::again(alloc, lane, store, restored),
        checker,
    }
}
