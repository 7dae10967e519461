//! The opening of a log over what a crash has left.
ghost use Rattle.std.specs.Prelude.{◌≡◌, ◌≤◌, List, ℕ, IfOk, IfErr, IsErrOf, OnOk, false, true};
ghost use Rattle.faults.specs.Counts.{Rose, HasCause};
ghost use Rattle.disk_model.specs.Cells.{IsImage, settled};
ghost use Rattle.disk_model.specs.Calls.{Elapses};
ghost use Rattle.store_form.specs.Spelling.{Group};
ghost use Rattle.batch_log.specs.Log.{restored};
ghost use Rattle.batch_log.specs.Jobs.{Stands, IsIdle, IsUnderWay};
ghost use Rattle.batch_log.specs.Exact.{end_opened, job_opened, IsNear};

use crate::job::Job;
use crate::log::BatchLog;
use crate::reading::{Groups, groups_of};
use disk_model::disk::{Disk, read_all};
use faults::Fault;
use std::alloc::Global;
use store_form::ends::{LogFault, State};

/// The groups, the index at which they end, and whether the gate there is closed.
fn read_log<D: Disk>(alloc: Global, device: &mut D) -> Result<(Groups, u64, Job), Fault>
    // Nothing is pending.
    requires { D.told → D.cells device.old ≡ settled (D.cells device.old).now }
    ensures groups { IfOk result (λ r. D.told → r.0 ≡ restored (D.cells device.old).now) }
    ensures stands { IfOk result (λ r. D.told → (g : Group) → (other : List Group) × Stands (D.cells device.new) r.1 r.2 g r.0 other) }
    ensures end { IfOk result (λ r. D.told → r.1 ≡ end_opened (D.cells device.old).now) }
    ensures job { IfOk result (λ r. D.told → r.2 ≡ job_opened (D.cells device.old).now) }
    ensures idle { IfOk result (λ r. IsIdle r.2) }
    ensures near { IfOk result (λ r. IsNear r.2 r.1) }
    ensures same { D.told → D.cells device.new ≡ D.cells device.old }
    ensures time { D.told → Elapses (D.moment device.old) (D.moment device.new) (D.left_since device.old) (D.left_since device.new) (IsImage (D.cells device.new)) }
    ensures cause { HasCause (D.faults device.old) (D.faults device.new) result }
{
    let bytes = read_all(alloc, device)?;
    let (groups, rest) = match groups_of(alloc, bytes.as_slice()) {
        Ok(read) => read,
        Err(_) => return Err(Fault::NoMemory),
    };
    let end = (bytes.len() - rest.len()) as u64;
    if rest.is_empty() || rest[0] != 0 {
        return Ok((groups, end, Job::Torn));
    }
    Ok((groups, end, Job::Rest))
}

/// Opens a log over a device on which nothing is pending, and gives its groups. Errors: a failure of
/// the device; want of memory. The device comes back with the error.
pub fn reopen<D: Disk>(alloc: Global, device: D) -> Result<(BatchLog<D>, Groups), (LogFault, D)>
    requires { D.told → D.cells device ≡ settled (D.cells device).now }
    ensures groups { IfOk result (λ r. D.told → r.1 ≡ restored (D.cells device).now) }
    ensures stands { IfOk result (λ r. D.told → (g : Group) → (other : List Group) × Stands (D.cells r.0.device) r.0.end r.0.job g r.1 other) }
    ensures underway { IfOk result (λ r. D.told → IsUnderWay (D.cells r.0.device) r.0.end r.0.job) }
    // The index at which the groups end, and whether the gate there is closed.
    ensures end { IfOk result (λ r. D.told → r.0.end ≡ end_opened (D.cells device).now) }
    ensures job { IfOk result (λ r. D.told → r.0.job ≡ job_opened (D.cells device).now) }
    ensures idle { IfOk result (λ r. IsIdle r.0.job) }
    ensures open { IfOk result (λ r. r.0.state ≡ State.Open) }
    ensures same { IfOk result (λ r. D.told → D.cells r.0.device ≡ D.cells device) }
    ensures back { IfErr result (λ e. D.told → D.cells e.1 ≡ D.cells device) }
    ensures time { IfOk result (λ r. D.told → Elapses (D.moment device) (D.moment r.0.device) (D.left_since device) (D.left_since r.0.device) (IsImage (D.cells r.0.device))) }
    ensures back_time { IfErr result (λ e. D.told → Elapses (D.moment device) (D.moment e.1) (D.left_since device) (D.left_since e.1) (IsImage (D.cells e.1))) }
    ensures later { IfOk result (λ r. D.faults device ≤ D.faults r.0.device) }
    ensures back_later { IfErr result (λ e. D.faults device ≤ D.faults e.1) }
    ensures cause { IfErr result (λ e. e.0 ≡ LogFault.Disk false → Rose (D.faults device) (D.faults e.1)) }
    ensures not_closed { IfErr result (λ e. e.0 ≡ LogFault.Disk true → ⊥) }
{
    let mut device = device;
    match read_log(alloc, &mut device) {
        Ok((groups, end, job)) => Ok((
            BatchLog {
                device,
                end,
                job,
                state: State::Open,
            },
            groups,
        )),
        Err(Fault::Failed) => Err((LogFault::Disk { closed: false }, device)),
        Err(Fault::NoMemory) => Err((LogFault::NoMemory, device)),
    }
}
