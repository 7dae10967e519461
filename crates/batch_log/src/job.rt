//! A job of a log, one device call at a time.
ghost use Rattle.std.specs.Prelude.{◌≡◌, List, ℕ, IfOk, OnOk};
ghost use Rattle.faults.specs.Counts.{HasCause, HasWant};
ghost use Rattle.disk_model.specs.Cells.{IsImage, Within};
ghost use Rattle.disk_model.specs.Calls.{Elapses};
ghost use Rattle.smart_base.specs.Lists.{Each};
ghost use Rattle.store_form.specs.Spelling.{Group, IsEntry};
ghost use Rattle.batch_log.specs.Wires.{Wired};
ghost use Rattle.batch_log.specs.Jobs.{IsUnderWay, IsIdle, IsBody, Begins, idle, Stands, kept_after, other_after, called, code, code_after};
ghost use Rattle.batch_log.specs.Exact.{log_called, job_called, end_called, HasRoom, IsNear};

use disk_model::disk::Disk;
use faults::Fault;
use smart_base::sequence::Bytes;
use std::alloc::{AllocError, Global};
use store_form::group::put_group;

/// The next call of a job. A number is the index at which the log ends after the group has been
/// added.
#[derive(Drop)]
pub enum Job {
    /// No job runs, and the gate after the groups is closed.
    Rest,
    /// No job runs. There is no gate after the groups, or one that a crash left open or torn. It has
    /// to be closed before a group is added.
    Torn,
    /// Close that gate. Then these bytes are written after it, if there are any.
    Close(Option<Bytes>),
    SyncClose(Option<Bytes>),
    /// Write these bytes after the gate.
    Body(Bytes),
    SyncBody(u64),
    /// Open the gate.
    Gate(u64),
    SyncGate(u64),
}

/// Makes the next device call of a job. Gives the index at which the log ends after it, and the call
/// after it. If no job runs, it asks for the device's length and changes nothing. Errors: a failure
/// of the device; want of memory.
pub fn step<D: Disk>(device: &mut D, end: u64, job: Job) -> Result<(u64, Job), Fault>
    requires stands { D.told → IsUnderWay (D.cells device.old) end job }
    requires near { IsNear job end }
    ensures goes { IfOk result (λ r. D.told → (g : Group) (gs other : List Group) → Stands (D.cells device.old) end job g gs other
        → Stands (D.cells device.new) r.0 r.1 g (kept_after job g gs) (other_after job g gs other)) }
    ensures wired { IfOk result (λ r. D.told → (g : Group) (gs other : List Group) → Stands (D.cells device.old) end job g gs other
        → Wired (D.cells device.old) gs → Wired (D.cells device.new) (kept_after job g gs)) }
    ensures next { IfOk result (λ r. code r.1 ≡ code_after job) }
    ensures cells { IfOk result (λ r. D.told → D.cells device.new ≡ log_called job end (D.cells device.old)) }
    ensures job { IfOk result (λ r. r.1 ≡ job_called job end) }
    ensures end { IfOk result (λ r. r.0 ≡ end_called job end) }
    ensures near { IfOk result (λ r. IsNear r.1 r.0) }
    ensures torn { D.told → Within (D.cells device.new) (called job end (D.cells device.old)) }
    ensures time { Elapses (D.moment device.old) (D.moment device.new) (D.left_since device.old) (D.left_since device.new) (IsImage (D.cells device.new)) }
    ensures cause { HasCause (D.faults device.old) (D.faults device.new) result }
    ensures want { HasWant (D.wants device.old) (D.wants device.new) result }
{
    make_call(device, end, &job)?;
    let next_end = end_behind(end, &job);
    let next = job_behind(end, job);
    Ok((next_end, next))
}

/// Makes the next device call of a job. If no job runs, it asks for the device's length.
fn make_call<D: Disk>(device: &mut D, end: u64, job: &Job) -> Result<(), Fault>
    requires stands { D.told → IsUnderWay (D.cells device.old) end job.now }
    requires near { IsNear job.now end }
    ensures room { OnOk result (HasRoom job.now end) }
    ensures cells { OnOk result (D.told → D.cells device.new ≡ log_called job.now end (D.cells device.old)) }
    ensures torn { D.told → Within (D.cells device.new) (called job.now end (D.cells device.old)) }
    ensures time { Elapses (D.moment device.old) (D.moment device.new) (D.left_since device.old) (D.left_since device.new) (IsImage (D.cells device.new)) }
    ensures cause { HasCause (D.faults device.old) (D.faults device.new) result }
    ensures want { HasWant (D.wants device.old) (D.wants device.new) result }
{
    match job {
        Job::Rest => {
            device.len()?;
            Ok(())
        }
        Job::Torn => {
            device.len()?;
            Ok(())
        }
        Job::Close(_) => device.write_at(end, &[0]),
        Job::SyncClose(_) => device.sync(),
        Job::Body(bytes) => device.write_at(end + 1, bytes.as_slice()),
        Job::SyncBody(_) => device.sync(),
        Job::Gate(_) => device.write_at(end, &[1]),
        Job::SyncGate(_) => device.sync(),
    }
}

/// The index at which the log ends after the next device call of a job.
fn end_behind(end: u64, job: &Job) -> u64
    ensures { result ≡ end_called job.now end }
{
    match job {
        Job::SyncGate(next) => *next,
        _ => end,
    }
}

/// The call after the next one of a job.
fn job_behind(end: u64, job: Job) -> Job
    requires { HasRoom job end }
    ensures { result ≡ job_called job end }
{
    match job {
        Job::Rest => Job::Rest,
        Job::Torn => Job::Torn,
        Job::Close(waiting) => Job::SyncClose(waiting),
        Job::SyncClose(None) => Job::Rest,
        Job::SyncClose(Some(bytes)) => Job::Body(bytes),
        Job::Body(bytes) => Job::SyncBody(end + bytes.len() as u64),
        Job::SyncBody(next) => Job::Gate(next),
        Job::Gate(next) => Job::SyncGate(next),
        Job::SyncGate(_) => Job::Rest,
    }
}

/// Whether no job runs.
pub fn is_idle(job: &Job) -> bool
    ensures { result ≡ idle job.now }
{
    matches!(job, Job::Rest | Job::Torn)
}

/// The job that adds a group with these bytes, if no job runs.
pub fn begun(job: &Job, bytes: Bytes) -> Job
    requires { IsIdle job.now }
    ensures { Begins job.now bytes result }
{
    match job {
        Job::Torn => Job::Close(Some(bytes)),
        _ => Job::Body(bytes),
    }
}

/// The bytes after the gate of a group, and the next gate. Error: want of memory.
pub fn body_of(alloc: Global, entries: &[Bytes]) -> Result<Bytes, AllocError>
    requires { Each IsEntry entries.now }
    ensures { IfOk result (λ bytes. IsBody bytes entries.now) }
{
    let mut bytes = Vec::new(alloc);
    put_group(alloc, &mut bytes, entries)?;
    bytes.push(0)?;
    Ok(Bytes::from_vec(bytes))
}
