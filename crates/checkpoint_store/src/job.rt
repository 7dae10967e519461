//! A job on a slot, one device call at a time.
ghost use Rattle.std.specs.Prelude.{◌≡◌, ℕ, Bool, Option, IfOk, OnOk};
ghost use Rattle.faults.specs.Counts.{HasCause, HasWant};
ghost use Rattle.disk_model.specs.Cells.{IsImage, Within};
ghost use Rattle.disk_model.specs.Calls.{Elapses};
ghost use Rattle.store_form.specs.declared.checkpoint.Checkpoint.{Checkpoint};
ghost use Rattle.checkpoint_store.specs.SlotJobs.{IsSlotUnderWay, SlotStands, has_after, other_after, slot_called, job_after, idle};
ghost use Rattle.checkpoint_store.specs.Exact.{cells_called};

use disk_model::disk::Disk;
use faults::Fault;
use smart_base::sequence::Bytes;

/// The next call of a job on a slot.
#[derive(Drop)]
pub enum SlotJob {
    /// No job runs, and the slot has no byte.
    Empty,
    /// No job runs. The gate is neither closed nor of a whole checkpoint. It has to be closed before
    /// anything else is done.
    Torn,
    /// No job runs, and the gate is closed.
    Shut,
    /// Close the gate.
    Close,
    SyncClose,
    /// Write these bytes after the closed gate.
    Fill(Bytes),
    SyncFill,
    /// No job runs. The gate is closed, and after it stands a whole checkpoint.
    Full,
    /// Open the gate.
    Gate,
    SyncGate,
    /// No job runs, and the slot counts.
    Counts,
}

/// Makes the next device call of a job, and gives the call after it. If no job runs, it changes
/// nothing. Errors: a failure of the device; want of memory.
pub fn slot_step<D: Disk>(device: &mut D, job: SlotJob) -> Result<SlotJob, Fault>
    requires { D.told → (odd : Bool) × IsSlotUnderWay odd (D.cells device.old) job }
    ensures goes { IfOk result (λ then. D.told → (odd : Bool) (next : Checkpoint) (has other : Option Checkpoint) → SlotStands odd (D.cells device.old) job next has other
        → SlotStands odd (D.cells device.new) then next (has_after job next has) (other_after job next has other)) }
    ensures next { IfOk result (λ then. then ≡ job_after job) }
    ensures cells { IfOk result (λ then. D.told → D.cells device.new ≡ cells_called job (D.cells device.old)) }
    ensures torn { D.told → Within (D.cells device.new) (slot_called job (D.cells device.old)) }
    ensures time { Elapses (D.moment device.old) (D.moment device.new) (D.left_since device.old) (D.left_since device.new) (IsImage (D.cells device.new)) }
    ensures cause { HasCause (D.faults device.old) (D.faults device.new) result }
    ensures want { HasWant (D.wants device.old) (D.wants device.new) result }
{
    make_call(device, &job)?;
    let next = job_behind(job);
    Ok(next)
}

/// Makes the next device call of a job. If no job runs, it asks for the device's length.
fn make_call<D: Disk>(device: &mut D, job: &SlotJob) -> Result<(), Fault>
    requires { D.told → (odd : Bool) × IsSlotUnderWay odd (D.cells device.old) job.now }
    ensures cells { OnOk result (D.told → D.cells device.new ≡ cells_called job.now (D.cells device.old)) }
    ensures torn { D.told → Within (D.cells device.new) (slot_called job.now (D.cells device.old)) }
    ensures time { Elapses (D.moment device.old) (D.moment device.new) (D.left_since device.old) (D.left_since device.new) (IsImage (D.cells device.new)) }
    ensures cause { HasCause (D.faults device.old) (D.faults device.new) result }
    ensures want { HasWant (D.wants device.old) (D.wants device.new) result }
{
    match job {
        SlotJob::Close => device.write_at(0, &[0]),
        SlotJob::SyncClose => device.sync(),
        SlotJob::Fill(bytes) => device.write_at(1, bytes.as_slice()),
        SlotJob::SyncFill => device.sync(),
        SlotJob::Gate => device.write_at(0, &[1]),
        SlotJob::SyncGate => device.sync(),
        _ => {
            device.len()?;
            Ok(())
        }
    }
}

/// The call after the next one of a job.
fn job_behind(job: SlotJob) -> SlotJob
    ensures { result ≡ job_after job }
{
    match job {
        SlotJob::Close => SlotJob::SyncClose,
        SlotJob::SyncClose => SlotJob::Shut,
        SlotJob::Fill(_) => SlotJob::SyncFill,
        SlotJob::SyncFill => SlotJob::Full,
        SlotJob::Gate => SlotJob::SyncGate,
        SlotJob::SyncGate => SlotJob::Counts,
        resting => resting,
    }
}

/// Whether no job runs.
pub fn is_idle(job: &SlotJob) -> bool
    ensures { result ≡ idle job.now }
{
    matches!(
        job,
        SlotJob::Empty | SlotJob::Torn | SlotJob::Shut | SlotJob::Full | SlotJob::Counts
    )
}
