//! The log over one device.
ghost use Rattle.std.specs.Prelude.{◌≡◌, true};
ghost use Rattle.batch_log.specs.Exact.{IsNear};
ghost use Rattle.batch_log.specs.Jobs.{idle};
ghost use Rattle.store_form.specs.declared.ends.State.TheVariants.{Open};

use crate::job::{Job, begun, body_of, is_idle, step};
use disk_model::disk::Disk;
use faults::Fault;
use smart_base::sequence::Bytes;
use std::alloc::{AllocError, Global};
use store_form::ends::{LogFault, State};

/// A log. It closes when its device fails or wants memory, and is then to be opened again over what
/// the device holds.
///
/// No job runs in a closed log. What it says of jobs and of its end then says nothing of the device.
#[derive(Drop)]
pub struct BatchLog<D: Disk> {
    pub device: D,
    /// The index of the gate after the groups.
    pub end: u64,
    pub job: Job,
    pub state: State,
    ghost rests: { (state ≡ Open → ⊥) → idle job ≡ true },
    ghost near: { IsNear job end },
}

impl<D: Disk> BatchLog<D> {
    ghost use Rattle.std.specs.Prelude.{◌≡◌, ◌≤◌, ◌++◌, ◌∷◌, [], List, ℕ, IsTrue, ◌↔◌, ◌⊎◌, IfOk, OnOk, OnErr, IsErrOf, None, false};
    ghost use Rattle.faults.specs.Counts.{Rose};
    ghost use Rattle.disk_model.specs.Cells.{IsImage};
    ghost use Rattle.disk_model.specs.Calls.{Elapses, LeavesOnly};
    ghost use Rattle.smart_base.specs.Lists.{Each};
    ghost use Rattle.store_form.specs.Spelling.{Group, IsEntry, group_text};
    ghost use Rattle.batch_log.specs.Log.{restored};
    ghost use Rattle.batch_log.specs.Jobs.{IsUnderWay, Stands, Runs, Adds, Begins, IsIdle, idle, LeavesEither, OneOf, at_stake, kept_after, other_after, code, code_after};
    ghost use Rattle.batch_log.specs.Exact.{log_called, job_called, end_called};
    ghost use Rattle.batch_log.specs.Wires.{Wired, LeavesWire};
    ghost use Rattle.store_form.specs.Ends.{Closes};

    /// Adds a group of entries, after it has closed a torn gate. After `Ok` each crash leaves the log
    /// with the group. Errors: a failure of the device; want of memory.
    pub fn append_group(&mut self, alloc: Global, entries: &[Bytes]) -> Result<(), LogFault>
        requires fit { Each IsEntry entries.now }
        requires idle { IsIdle self.old.job }
        requires stands { self.old.state ≡ State.Open → D.told → IsUnderWay (D.cells self.old.device) self.old.end self.old.job }
        ensures ok { OnOk result (D.told → (gs other : List Group) → Stands (D.cells self.old.device) self.old.end self.old.job entries.now gs other
            → Stands (D.cells self.new.device) self.new.end self.new.job entries.now (gs ++ entries.now ∷ []) (gs ++ entries.now ∷ [])) }
        ensures rests { OnOk result (self.new.job ≡ Job.Rest) }
        // A crash at any moment of the call leaves what one before it left, or the groups with the
        // whole new one.
        ensures any_moment { D.told → D.remembers → (gs other : List Group) → Stands (D.cells self.old.device) self.old.end self.old.job entries.now gs other
            → LeavesOnly D.moment D.left_since self.old.device self.new.device (λ c. OneOf (restored c) gs other (gs ++ entries.now ∷ [])) }
        ensures crash { D.told → (gs other : List Group) → Stands (D.cells self.old.device) self.old.end self.old.job entries.now gs other
            → (c : List ℕ) → IsImage (D.cells self.new.device) c → OneOf (restored c) gs other (gs ++ entries.now ∷ []) }
        ensures underway { OnOk result (D.told → IsUnderWay (D.cells self.new.device) self.new.end self.new.job) }
        ensures idle { IsIdle self.new.job }
        // The log after an error, if it is still open: as it was. Memory ran out before the first device call.
        ensures unchanged { OnErr result (self.new.state ≡ State.Open → self.new ≡ self.old) }
        ensures untouched { (self.old.state ≡ State.Open → ⊥) → self.new ≡ self.old }
        ensures later { D.faults self.old.device ≤ D.faults self.new.device }
        ensures cause { IsErrOf result (LogFault.Disk false) → Rose (D.faults self.old.device) (D.faults self.new.device) }
        // The cause of a want of memory that closes the log: the device wanted memory in this call.
        ensures want { IsErrOf result LogFault.NoMemory → self.old.state ≡ State.Open → (self.new.state ≡ State.Open) ⊎ Rose (D.wants self.old.device) (D.wants self.new.device) }
        ensures wants_later { D.wants self.old.device ≤ D.wants self.new.device }
        ensures closes { Closes result self.old.state self.new.state }
    {
        self.append_start(alloc, entries)?;
        while !self.is_idle() {
            self.next_call()?;
        }
        Ok(())
    }

    /// Begins the job that adds a group, and closes a torn gate first; no device call is made.
    /// Errors: want of memory; or the log is closed.
    pub fn append_start(&mut self, alloc: Global, entries: &[Bytes]) -> Result<(), LogFault>
        requires fit { Each IsEntry entries.now }
        requires idle { IsIdle self.old.job }
        ensures ok { OnOk result (D.told → (gs other : List Group) → Stands (D.cells self.old.device) self.old.end self.old.job entries.now gs other
            → Runs (D.cells self.new.device) self.new.end self.new.job entries.now gs other) }
        ensures adds { OnOk result (Adds self.new.job) }
        ensures begins { OnOk result (Begins self.old.job (group_text entries.now ++ 0 ∷ []) self.new.job) }
        ensures err { OnErr result (self.new ≡ self.old) }
        ensures untouched { (self.old.state ≡ State.Open → ⊥) → self.new ≡ self.old }
        ensures device { self.new.device ≡ self.old.device }
        ensures end { self.new.end ≡ self.old.end }
        ensures state { self.new.state ≡ self.old.state }
        ensures cause { IsErrOf result (LogFault.Disk false) → ⊥ }
        ensures closes { Closes result self.old.state self.new.state }
    {
        self.state.check()?;
        let bytes = body_of(alloc, entries)?;
        self.job = begun(&self.job, bytes);
        Ok(())
    }

    /// Begins the job that closes a torn gate and adds nothing; no device call is made.
    pub fn repair_start(&mut self) -> Result<(), LogFault>
        requires { self.old.job ≡ Job.Torn }
        ensures ok { OnOk result (D.told → (g : Group) (gs other : List Group) → Stands (D.cells self.old.device) self.old.end self.old.job g gs other
            → Stands (D.cells self.new.device) self.new.end self.new.job g gs other) }
        ensures job { OnOk result (self.new.job ≡ Job.Close None) }
        ensures err { OnErr result (self.new ≡ self.old) }
        ensures untouched { (self.old.state ≡ State.Open → ⊥) → self.new ≡ self.old }
        ensures device { self.new.device ≡ self.old.device }
        ensures end { self.new.end ≡ self.old.end }
        ensures state { self.new.state ≡ self.old.state }
        ensures cause { IsErrOf result (LogFault.Disk false) → ⊥ }
        ensures closes { Closes result self.old.state self.new.state }
    {
        self.state.check()?;
        self.job = Job::Close(None);
        Ok(())
    }

    /// Makes the next device call of the job, and tells whether no job runs after it. Errors: a
    /// failure of the device; want of memory.
    pub fn next_call(&mut self) -> Result<bool, LogFault>
        requires { self.old.state ≡ State.Open → D.told → IsUnderWay (D.cells self.old.device) self.old.end self.old.job }
        ensures goes { OnOk result (D.told → (g : Group) (gs other : List Group) → Stands (D.cells self.old.device) self.old.end self.old.job g gs other
            → Stands (D.cells self.new.device) self.new.end self.new.job g (kept_after self.old.job g gs) (other_after self.old.job g gs other)) }
        // The whole state after the call: what the device holds, which call is next, and the index at which the log ends.
        ensures cells { OnOk result (D.told → D.cells self.new.device ≡ log_called self.old.job self.old.end (D.cells self.old.device)) }
        ensures job { OnOk result (self.new.job ≡ job_called self.old.job self.old.end) }
        ensures end { OnOk result (self.new.end ≡ end_called self.old.job self.old.end) }
        ensures next { OnOk result (code self.new.job ≡ code_after self.old.job) }
        ensures done { IfOk result (λ done. done ≡ idle self.new.job) }
        ensures underway { OnOk result (D.told → IsUnderWay (D.cells self.new.device) self.new.end self.new.job) }
        ensures rests { OnErr result (IsIdle self.new.job) }
        ensures shut { OnErr result (self.new.state ≡ State.Open → ⊥) }
        ensures untouched { (self.old.state ≡ State.Open → ⊥) → self.new ≡ self.old }
        // What a crash leaves after the call, whether it goes well or not: what is kept, or what was at stake.
        ensures crash { D.told → (g : Group) (gs other : List Group) → Stands (D.cells self.old.device) self.old.end self.old.job g gs other
            → LeavesEither (D.cells self.new.device) gs (at_stake self.old.job g gs other) }
        // A crash over a log that only crashes of its own lives have changed leaves such a log again.
        ensures wires { D.told → (g : Group) (gs other : List Group) → Stands (D.cells self.old.device) self.old.end self.old.job g gs other
            → Wired (D.cells self.old.device) gs → LeavesWire (D.cells self.new.device) gs (at_stake self.old.job g gs other) }
        ensures wired { OnOk result (D.told → (g : Group) (gs other : List Group) → Stands (D.cells self.old.device) self.old.end self.old.job g gs other
            → Wired (D.cells self.old.device) gs → Wired (D.cells self.new.device) (kept_after self.old.job g gs)) }
        ensures time { Elapses (D.moment self.old.device) (D.moment self.new.device) (D.left_since self.old.device) (D.left_since self.new.device) (IsImage (D.cells self.new.device)) }
        ensures later { D.faults self.old.device ≤ D.faults self.new.device }
        ensures cause { IsErrOf result (LogFault.Disk false) → Rose (D.faults self.old.device) (D.faults self.new.device) }
        ensures want { IsErrOf result LogFault.NoMemory → self.old.state ≡ State.Open → Rose (D.wants self.old.device) (D.wants self.new.device) }
        ensures wants_later { D.wants self.old.device ≤ D.wants self.new.device }
        ensures closes { Closes result self.old.state self.new.state }
    {
        self.state.check()?;
        let job = std::mem::replace(&mut self.job, Job::Rest);
        match step(&mut self.device, self.end, job) {
            Ok((end, next)) => {
                let is_done = is_idle(&next);
                self.end = end;
                self.job = next;
                Ok(is_done)
            }
            Err(Fault::Failed) => {
                self.state = State::Failed;
                Err(LogFault::Disk { closed: false })
            }
            Err(Fault::NoMemory) => {
                self.state = State::NoMemory;
                Err(LogFault::NoMemory)
            }
        }
    }

    /// Whether no job runs.
    pub fn is_idle(&self) -> bool
        ensures { result ≡ idle self.now.job }
    {
        is_idle(&self.job)
    }

    /// Whether a gate has to be closed before a group is added.
    pub fn is_torn(&self) -> bool
        ensures { IsTrue result ↔ (self.now.job ≡ Job.Torn) }
    {
        matches!(self.job, Job::Torn)
    }

    /// The device, taken out of the log.
    pub fn into_device(self) -> D
        ensures { result ≡ self.device }
    {
        let BatchLog { device, .. } = self;
        device
    }
}
