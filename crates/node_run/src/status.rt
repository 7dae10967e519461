//! How the run of a node ends.
ghost use Rattle.std.specs.Prelude.{◌≡◌};
ghost use Rattle.node_run.specs.Statuses.{is_whole, restore_status, room_status, status_of, store_status, trail_status};

use faults::Fault;
use member_opening::fault::RestoreFault;
use node_endings::ending::{Ends, LoopEnd};
use store_form::ends::LogFault;

/// How the run of a node ended. Of several ends it is the first of this list.
#[derive(Clone, Copy, Debug, PartialEq, Eq)]
pub enum NodeStatus {
    /// The input was read to its end, and all that was due is done.
    Ok,
    /// This frame of the input is too long, or the input ended within it. Frames are counted from 1.
    Form { frame: u64 },
    /// This entry of the store is damaged, or opens the book of another node. Entries are counted from 1;
    /// 0 is the checkpoint.
    Store { entry: u64 },
    /// The input failed.
    ReadFault,
    /// The output failed.
    WriteFault,
    /// The trail failed.
    TrailFault,
    /// A device failed.
    DiskFault,
    /// Memory ran out.
    NoMemory,
}

/// Whether each loop has done all that was due.
fn is_whole(ends: &Ends) -> bool
    ensures { result ≡ is_whole ends.now }
{
    ends.received == LoopEnd::Done
        && ends.delivered == LoopEnd::Done
        && ends.sent == LoopEnd::Done
        && ends.logged == LoopEnd::Done
        && ends.checked == LoopEnd::Done
}

/// The status of a node whose loops have ended. `failed`: the trail has failed. `settled`: nothing was left
/// to do.
pub(crate) fn status_of(ends: &Ends, failed: bool, settled: bool) -> NodeStatus
    ensures { result ≡ status_of ends.now failed settled }
{
    match ends.received {
        LoopEnd::Form { frame } => NodeStatus::Form { frame },
        LoopEnd::Failed => NodeStatus::ReadFault,
        LoopEnd::Done | LoopEnd::Over | LoopEnd::NoMemory => {
            if ends.sent == LoopEnd::Failed {
                NodeStatus::WriteFault
            } else if failed {
                NodeStatus::TrailFault
            } else if ends.logged == LoopEnd::Failed {
                NodeStatus::DiskFault
            } else if settled && is_whole(ends) {
                NodeStatus::Ok
            } else {
                NodeStatus::NoMemory
            }
        }
    }
}

/// The status after a fault of the trail.
pub(crate) fn trail_status(fault: Fault) -> NodeStatus
    ensures { result ≡ trail_status fault }
{
    match fault {
        Fault::Failed => NodeStatus::TrailFault,
        Fault::NoMemory => NodeStatus::NoMemory,
    }
}

/// The status after a fault of a room of disks.
pub(crate) fn room_status(fault: Fault) -> NodeStatus
    ensures { result ≡ room_status fault }
{
    match fault {
        Fault::Failed => NodeStatus::DiskFault,
        Fault::NoMemory => NodeStatus::NoMemory,
    }
}

/// The status after a fault of a store.
pub(crate) fn store_status(fault: LogFault) -> NodeStatus
    ensures { result ≡ store_status fault }
{
    match fault {
        LogFault::Disk { closed: _ } => NodeStatus::DiskFault,
        LogFault::NoMemory => NodeStatus::NoMemory,
    }
}

/// The status after a fault of what a store restored.
pub(crate) fn restore_status(fault: RestoreFault) -> NodeStatus
    ensures { result ≡ restore_status fault }
{
    match fault {
        RestoreFault::Entry { entry } => NodeStatus::Store { entry },
        RestoreFault::NoMemory => NodeStatus::NoMemory,
    }
}
