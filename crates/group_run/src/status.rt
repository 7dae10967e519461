//! How the run of a group ends.
ghost use Rattle.std.specs.Prelude.{◌≡◌};
ghost use Rattle.group_run.specs.Statuses.{audited_status, failed_status, line_status, opening_status, quiet_status, trail_status};

use audit_rules::recorded::{Difference, Verdict};
use faults::Fault;
use group_client::reply_line::LineFault;
use group_opening::berth::OpeningEnd;

/// How the run of a group ended. Of several ends it is the first of this list, but that `Ok` is the end of a
/// run with no other.
#[derive(Drop)]
pub enum GroupStatus {
    /// All replies were accepted, and the trails are coherent.
    Ok,
    /// This entry of a member's store is damaged, or opens the book of another node. Entries are counted
    /// from 1; 0 is the checkpoint. It is the lowest such member.
    Store { entry: u64 },
    /// The output failed.
    WriteFault,
    /// A trail failed.
    TrailFault,
    /// A device failed.
    DiskFault,
    /// The trails are not coherent: this is what differs first.
    Differs(Difference),
    /// So many polls since one request found nothing, and then nothing was left to happen. The request has
    /// no reply.
    GaveUp { polls: u64 },
    /// Memory ran out.
    NoMemory,
}

/// What failed in a run.
#[derive(Clone, Copy, Debug, PartialEq, Eq)]
pub struct Failures {
    pub output: bool,
    pub trail: bool,
    pub disk: bool,
}

/// The status of a run in which something failed, if something did.
pub fn failed_status(failures: Failures, behind: GroupStatus) -> GroupStatus
    ensures { result ≡ failed_status failures behind }
{
    if failures.output {
        GroupStatus::WriteFault
    } else if failures.trail {
        GroupStatus::TrailFault
    } else if failures.disk {
        GroupStatus::DiskFault
    } else {
        behind
    }
}

/// The status of a run that was audited.
pub fn audited_status(verdict: Verdict, behind: GroupStatus) -> GroupStatus
    ensures { result ≡ audited_status verdict behind }
{
    match verdict {
        Verdict::Coherent => behind,
        Verdict::Differs(difference) => GroupStatus::Differs(difference),
    }
}

/// The status of a coherent run. `wanted`: memory ran out. `done`: all replies were accepted. `quiet`: the
/// polls since one request are spent, and nothing is left to happen.
pub fn quiet_status(wanted: bool, done: bool, quiet: bool, polls: u64) -> GroupStatus
    ensures { result ≡ quiet_status wanted done quiet polls }
{
    if wanted {
        GroupStatus::NoMemory
    } else if done {
        GroupStatus::Ok
    } else if quiet {
        GroupStatus::GaveUp { polls }
    } else {
        GroupStatus::NoMemory
    }
}

/// The status of a run of which a line was not written.
pub fn line_status(fault: LineFault) -> GroupStatus
    ensures { result ≡ line_status fault }
{
    match fault {
        LineFault::Failed => GroupStatus::WriteFault,
        LineFault::SinkMemory | LineFault::NoMemory => GroupStatus::NoMemory,
    }
}

/// The status of a run whose trails were not begun.
pub fn trail_status(fault: Fault) -> GroupStatus
    ensures { result ≡ trail_status fault }
{
    match fault {
        Fault::Failed => GroupStatus::TrailFault,
        Fault::NoMemory => GroupStatus::NoMemory,
    }
}

/// The status of a run whose stores were not opened.
pub fn opening_status(end: OpeningEnd) -> GroupStatus
    ensures { result ≡ opening_status end }
{
    match end {
        OpeningEnd::Store { entry } => GroupStatus::Store { entry },
        OpeningEnd::Disk => GroupStatus::DiskFault,
        OpeningEnd::NoMemory => GroupStatus::NoMemory,
    }
}
