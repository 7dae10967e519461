//! The two slots.
ghost use Rattle.std.specs.Prelude.{◌≡◌, Bool, true, Option, IfOk, OnOk};
ghost use Rattle.faults.specs.Counts.{HasCause, HasWant};
ghost use Rattle.disk_model.specs.Cells.{IsImage, Within};
ghost use Rattle.disk_model.specs.Calls.{Elapses};
ghost use Rattle.store_form.specs.declared.checkpoint.Checkpoint.{Checkpoint};
ghost use Rattle.checkpoint_store.specs.SlotJobs.{IsSlotUnderWay, SlotStands, has_after, other_after, slot_called, job_after, idle};
ghost use Rattle.checkpoint_store.specs.Exact.{cells_called};
ghost use Rattle.store_form.specs.declared.ends.State.TheVariants.{Open};

use crate::job::{SlotJob, is_idle, slot_step};
use crate::reading::{is_odd, newest_of, read_pair};
use disk_model::disk::Disk;
use faults::Fault;
use smart_base::sequence::Bytes;
use std::alloc::{AllocError, Global};
use store_form::checkpoint::{Checkpoint, put_checkpoint};
use store_form::ends::{LogFault, State};

/// A device, and the next call of the job on it.
#[derive(Drop)]
pub struct Slot<D> {
    pub device: D,
    pub job: SlotJob,
}

/// The slot of the even generations and that of the odd ones. They close when a device fails or wants
/// memory, and are then to be opened again over what the devices hold.
///
/// A call names the generation whose slot it is on. No job runs in a closed store. What it says of
/// jobs then says nothing of the devices, nor that a gate is shut.
#[derive(Drop)]
pub struct CheckpointStore<D> {
    pub even: Slot<D>,
    pub odd: Slot<D>,
    pub state: State,
    ghost rests: { (state ≡ Open → ⊥) → (idle even.job ≡ true) × (idle odd.job ≡ true) },
}

impl<D: Disk> CheckpointStore<D> {
    ghost use Rattle.std.specs.Prelude.{◌≡◌, ◌≤◌, ◌<◌, ◌^◌, ◌⊎◌, List, ℕ, not, Err, Option};
    ghost use Rattle.std.specs.Prelude.{Some, None, length, IsTrue, ◌↔◌, IfOk, OnOk, OnErr, IsErrOf, false, true};
    ghost use Rattle.faults.specs.Counts.{Rose, HasCause, HasWant};
    ghost use Rattle.disk_model.specs.Cells.{IsImage, Within};
    ghost use Rattle.disk_model.specs.Calls.{Elapses, LeavesOnly};
    ghost use Rattle.store_form.specs.Spelling.{checkpoint_text};
    ghost use Rattle.store_form.specs.declared.checkpoint.Checkpoint.{Checkpoint};
    ghost use Rattle.store_form.specs.Ends.{Closes};
    ghost use Rattle.checkpoint_store.specs.Slots.{is_odd, slot_of, newest, InEachImage, IsClosed, IsReady, NoneAbove};
    ghost use Rattle.checkpoint_store.specs.Stores.{slot, beside, StandsAt, UnderWayAt, LeavesAt, IsFullAt, gate_gives};
    ghost use Rattle.checkpoint_store.specs.Exact.{cells_called};
    ghost use Rattle.checkpoint_store.specs.SlotJobs.{IsIdle, idle, shut, Leaves, has_after, other_after, slot_stake, slot_called, has_then, other_then, job_after, end_of};

    /// Closes the gate of a slot. After `Ok` the slot does not count after any crash. Errors: a
    /// failure of the device; want of memory.
    pub fn close_slot(&mut self, generation: u64) -> Result<(), LogFault>
        requires some { 0 < generation }
        requires idle { IsIdle (slot generation self.old).job }
        requires stands { self.old.state ≡ State.Open → D.told → UnderWayAt D.cells generation self.old }
        ensures ok { OnOk result (D.told → (next : Checkpoint) (has other : Option Checkpoint) → StandsAt D.cells generation self.old next has other
            → StandsAt D.cells generation self.new next None None) }
        ensures rests { OnOk result ((slot generation self.new).job ≡ SlotJob.Shut) }
        // A crash at any moment of the call leaves a slot that does not count, or has what a gate of 1 gives it.
        ensures any_moment { D.told → D.remembers → (next : Checkpoint) (has other : Option Checkpoint) → StandsAt D.cells generation self.old next has other
            → LeavesOnly D.moment D.left_since (slot generation self.old).device (slot generation self.new).device
            (Leaves (is_odd generation) None (gate_gives D.cells generation self.old)) }
        ensures crash { D.told → (next : Checkpoint) (has other : Option Checkpoint) → StandsAt D.cells generation self.old next has other
            → LeavesAt D.cells generation self.new None (gate_gives D.cells generation self.old) }
        ensures underway { OnOk result (D.told → UnderWayAt D.cells generation self.new) }
        ensures idle { IsIdle (slot generation self.new).job }
        ensures beside { OnOk result (beside generation self.new ≡ beside generation self.old) }
        ensures apart { (beside generation self.new).device ≡ (beside generation self.old).device }
        // The store after an error, if it is still open: as it was. Memory ran out before the first device call.
        ensures unchanged { OnErr result (self.new.state ≡ State.Open → self.new ≡ self.old) }
        ensures untouched { (self.old.state ≡ State.Open → ⊥) → self.new ≡ self.old }
        ensures later { D.faults (slot generation self.old).device ≤ D.faults (slot generation self.new).device }
        ensures cause { IsErrOf result (LogFault.Disk false) → Rose (D.faults (slot generation self.old).device) (D.faults (slot generation self.new).device) }
        // The cause of a want of memory that closes the store: the device wanted memory in this call.
        ensures want { IsErrOf result LogFault.NoMemory → self.old.state ≡ State.Open → (self.new.state ≡ State.Open) ⊎ Rose (D.wants (slot generation self.old).device) (D.wants (slot generation self.new).device) }
        ensures wants_later { D.wants (slot generation self.old).device ≤ D.wants (slot generation self.new).device }
        ensures closes { Closes result self.old.state self.new.state }
    {
        self.close_start(generation)?;
        self.run(generation)?;
        Ok(())
    }

    /// Writes a snapshot after the closed gate of a slot, which does not count yet. Errors: a failure
    /// of the device; want of memory.
    pub fn fill_slot(
        &mut self,
        alloc: Global,
        generation: u64,
        snapshot: &[u8],
    ) -> Result<(), LogFault>
        requires some { 0 < generation }
        requires small { length snapshot.now < 2 ^ 32 }
        requires closed { self.old.state ≡ State.Open → D.told → InEachImage (D.cells (slot generation self.old).device) IsClosed }
        requires idle { IsIdle (slot generation self.old).job }
        requires stands { self.old.state ≡ State.Open → D.told → UnderWayAt D.cells generation self.old }
        ensures ok { OnOk result (D.told → (next : Checkpoint) (has other : Option Checkpoint) → StandsAt D.cells generation self.old next has other
            → StandsAt D.cells generation self.new (record { generation = generation; snapshot = snapshot.now }) None None) }
        ensures rests { OnOk result ((slot generation self.new).job ≡ SlotJob.Full) }
        // A crash at any moment of the call leaves what one before it left: a slot that does not count.
        ensures any_moment { D.told → D.remembers → (next : Checkpoint) (has other : Option Checkpoint) → StandsAt D.cells generation self.old next has other
            → LeavesOnly D.moment D.left_since (slot generation self.old).device (slot generation self.new).device
            (Leaves (is_odd generation) has other) }
        ensures crash { D.told → (next : Checkpoint) (has other : Option Checkpoint) → StandsAt D.cells generation self.old next has other
            → LeavesAt D.cells generation self.new has other }
        ensures underway { OnOk result (D.told → UnderWayAt D.cells generation self.new) }
        ensures idle { IsIdle (slot generation self.new).job }
        ensures beside { OnOk result (beside generation self.new ≡ beside generation self.old) }
        ensures apart { (beside generation self.new).device ≡ (beside generation self.old).device }
        ensures unchanged { OnErr result (self.new.state ≡ State.Open → self.new ≡ self.old) }
        ensures untouched { (self.old.state ≡ State.Open → ⊥) → self.new ≡ self.old }
        ensures later { D.faults (slot generation self.old).device ≤ D.faults (slot generation self.new).device }
        ensures cause { IsErrOf result (LogFault.Disk false) → Rose (D.faults (slot generation self.old).device) (D.faults (slot generation self.new).device) }
        ensures want { IsErrOf result LogFault.NoMemory → self.old.state ≡ State.Open → (self.new.state ≡ State.Open) ⊎ Rose (D.wants (slot generation self.old).device) (D.wants (slot generation self.new).device) }
        ensures wants_later { D.wants (slot generation self.old).device ≤ D.wants (slot generation self.new).device }
        ensures closes { Closes result self.old.state self.new.state }
    {
        self.fill_start(alloc, generation, snapshot)?;
        self.run(generation)?;
        Ok(())
    }

    /// Opens the gate of a slot that has a whole checkpoint of this generation. After `Ok` that
    /// checkpoint is the newest after any crash. Errors: a failure of the device; want of memory.
    pub fn gate_slot(&mut self, generation: u64) -> Result<(), LogFault>
        requires some { 0 < generation }
        requires ready { self.old.state ≡ State.Open → D.told → InEachImage (D.cells (slot generation self.old).device) (IsReady generation) }
        requires newest { self.old.state ≡ State.Open → D.told
            → InEachImage (D.cells (beside generation self.old).device) (λ image. NoneAbove generation (slot_of (not (is_odd generation)) image)) }
        requires idle { IsIdle (slot generation self.old).job }
        requires stands { self.old.state ≡ State.Open → D.told → UnderWayAt D.cells generation self.old }
        ensures ok { OnOk result (D.told → (next : Checkpoint) → IsFullAt D.cells generation self.old next
            → StandsAt D.cells generation self.new next (Some next) (Some next)) }
        ensures newest { OnOk result (D.told → (even odd : List ℕ) → IsImage (D.cells self.new.even.device) even
            → IsImage (D.cells self.new.odd.device) odd → newest even odd ≡ gate_gives D.cells generation self.old) }
        ensures rests { OnOk result ((slot generation self.new).job ≡ SlotJob.Counts) }
        // A crash at any moment of the call leaves a slot that does not count, or has this checkpoint.
        ensures any_moment { D.told → D.remembers → (next : Checkpoint) → IsFullAt D.cells generation self.old next
            → LeavesOnly D.moment D.left_since (slot generation self.old).device (slot generation self.new).device
            (Leaves (is_odd generation) None (Some next)) }
        ensures crash { D.told → (next : Checkpoint) → IsFullAt D.cells generation self.old next
            → LeavesAt D.cells generation self.new None (Some next) }
        ensures underway { OnOk result (D.told → UnderWayAt D.cells generation self.new) }
        ensures idle { IsIdle (slot generation self.new).job }
        ensures beside { OnOk result (beside generation self.new ≡ beside generation self.old) }
        ensures apart { (beside generation self.new).device ≡ (beside generation self.old).device }
        ensures unchanged { OnErr result (self.new.state ≡ State.Open → self.new ≡ self.old) }
        ensures untouched { (self.old.state ≡ State.Open → ⊥) → self.new ≡ self.old }
        ensures later { D.faults (slot generation self.old).device ≤ D.faults (slot generation self.new).device }
        ensures cause { IsErrOf result (LogFault.Disk false) → Rose (D.faults (slot generation self.old).device) (D.faults (slot generation self.new).device) }
        ensures want { IsErrOf result LogFault.NoMemory → self.old.state ≡ State.Open → (self.new.state ≡ State.Open) ⊎ Rose (D.wants (slot generation self.old).device) (D.wants (slot generation self.new).device) }
        ensures wants_later { D.wants (slot generation self.old).device ≤ D.wants (slot generation self.new).device }
        ensures closes { Closes result self.old.state self.new.state }
    {
        self.gate_start(generation)?;
        self.run(generation)?;
        Ok(())
    }

    /// Begins the job that closes the gate of a slot; no device call is made.
    pub fn close_start(&mut self, generation: u64) -> Result<(), LogFault>
        requires some { 0 < generation }
        requires idle { IsIdle (slot generation self.old).job }
        ensures ok { OnOk result (D.told → (next : Checkpoint) (has other : Option Checkpoint) → StandsAt D.cells generation self.old next has other
            → StandsAt D.cells generation self.new next None (gate_gives D.cells generation self.old)) }
        ensures job { OnOk result ((slot generation self.new).job ≡ SlotJob.Close) }
        ensures err { OnErr result (self.new ≡ self.old) }
        ensures closed { OnErr result (self.old.state ≡ State.Open → ⊥) }
        ensures untouched { (self.old.state ≡ State.Open → ⊥) → self.new ≡ self.old }
        ensures device { (slot generation self.new).device ≡ (slot generation self.old).device }
        ensures beside { beside generation self.new ≡ beside generation self.old }
        ensures cause { IsErrOf result (LogFault.Disk false) → ⊥ }
        ensures closes { Closes result self.old.state self.new.state }
    {
        self.state.check()?;
        self.begin(generation, SlotJob::Close);
        Ok(())
    }

    /// Begins the job that writes a snapshot after the closed gate of a slot; no device call is made.
    /// Errors: want of memory; or the store is closed.
    pub fn fill_start(
        &mut self,
        alloc: Global,
        generation: u64,
        snapshot: &[u8],
    ) -> Result<(), LogFault>
        requires some { 0 < generation }
        requires small { length snapshot.now < 2 ^ 32 }
        requires closed { self.old.state ≡ State.Open → D.told → InEachImage (D.cells (slot generation self.old).device) IsClosed }
        requires idle { IsIdle (slot generation self.old).job }
        ensures ok { OnOk result (D.told → (next : Checkpoint) (has other : Option Checkpoint) → StandsAt D.cells generation self.old next has other
            → StandsAt D.cells generation self.new (record { generation = generation; snapshot = snapshot.now }) None None) }
        ensures job { OnOk result ((slot generation self.new).job
            ≡ SlotJob.Fill (checkpoint_text (record { generation = generation; snapshot = snapshot.now }))) }
        ensures err { OnErr result (self.new ≡ self.old) }
        ensures untouched { (self.old.state ≡ State.Open → ⊥) → self.new ≡ self.old }
        ensures device { (slot generation self.new).device ≡ (slot generation self.old).device }
        ensures beside { beside generation self.new ≡ beside generation self.old }
        ensures cause { IsErrOf result (LogFault.Disk false) → ⊥ }
        ensures closes { Closes result self.old.state self.new.state }
    {
        self.state.check()?;
        let mut bytes = Vec::new(alloc);
        put_checkpoint(&mut bytes, generation, snapshot)?;
        self.begin(generation, SlotJob::Fill(Bytes::from_vec(bytes)));
        Ok(())
    }

    /// Begins the job that opens the gate of a slot that has a whole checkpoint of this generation;
    /// no device call is made.
    pub fn gate_start(&mut self, generation: u64) -> Result<(), LogFault>
        requires some { 0 < generation }
        requires ready { self.old.state ≡ State.Open → D.told → InEachImage (D.cells (slot generation self.old).device) (IsReady generation) }
        requires newest { self.old.state ≡ State.Open → D.told
            → InEachImage (D.cells (beside generation self.old).device) (λ image. NoneAbove generation (slot_of (not (is_odd generation)) image)) }
        requires idle { IsIdle (slot generation self.old).job }
        ensures ok { OnOk result (D.told → (next : Checkpoint) → IsFullAt D.cells generation self.old next
            → StandsAt D.cells generation self.new next None None) }
        ensures job { OnOk result ((slot generation self.new).job ≡ SlotJob.Gate) }
        ensures err { OnErr result (self.new ≡ self.old) }
        ensures untouched { (self.old.state ≡ State.Open → ⊥) → self.new ≡ self.old }
        ensures device { (slot generation self.new).device ≡ (slot generation self.old).device }
        ensures beside { beside generation self.new ≡ beside generation self.old }
        ensures cause { IsErrOf result (LogFault.Disk false) → ⊥ }
        ensures closes { Closes result self.old.state self.new.state }
    {
        self.state.check()?;
        self.begin(generation, SlotJob::Gate);
        Ok(())
    }

    /// Makes the next device call of the job on a slot, and tells whether no job runs on it after
    /// that. Errors: a failure of the device; want of memory.
    pub fn next_call(&mut self, generation: u64) -> Result<bool, LogFault>
        requires stands { self.old.state ≡ State.Open → D.told → UnderWayAt D.cells generation self.old }
        ensures goes { OnOk result (D.told → (next : Checkpoint) (has other : Option Checkpoint) → StandsAt D.cells generation self.old next has other
            → StandsAt D.cells generation self.new next (has_after (slot generation self.old).job next has)
            (other_after (slot generation self.old).job next has other)) }
        ensures next { OnOk result ((slot generation self.new).job ≡ job_after (slot generation self.old).job) }
        ensures cells { OnOk result (D.told → D.cells (slot generation self.new).device ≡ cells_called (slot generation self.old).job (D.cells (slot generation self.old).device)) }
        ensures done { IfOk result (λ done. done ≡ idle (slot generation self.new).job) }
        ensures rests { OnErr result (IsIdle (slot generation self.new).job) }
        ensures shut { OnErr result (self.new.state ≡ State.Open → ⊥) }
        ensures untouched { (self.old.state ≡ State.Open → ⊥) → self.new ≡ self.old }
        ensures underway { OnOk result (D.told → UnderWayAt D.cells generation self.new) }
        // What a crash leaves after the call, whether it goes well or not: what the slot has, or what was at stake.
        ensures crash { D.told → (next : Checkpoint) (has other : Option Checkpoint) → StandsAt D.cells generation self.old next has other
            → LeavesAt D.cells generation self.new has (slot_stake (slot generation self.old).job next other) }
        ensures time { Elapses (D.moment (slot generation self.old).device) (D.moment (slot generation self.new).device)
            (D.left_since (slot generation self.old).device) (D.left_since (slot generation self.new).device) (IsImage (D.cells (slot generation self.new).device)) }
        ensures beside { OnOk result (beside generation self.new ≡ beside generation self.old) }
        ensures apart { (beside generation self.new).device ≡ (beside generation self.old).device }
        ensures later { D.faults (slot generation self.old).device ≤ D.faults (slot generation self.new).device }
        ensures cause { IsErrOf result (LogFault.Disk false) → Rose (D.faults (slot generation self.old).device) (D.faults (slot generation self.new).device) }
        ensures want { IsErrOf result LogFault.NoMemory → self.old.state ≡ State.Open → Rose (D.wants (slot generation self.old).device) (D.wants (slot generation self.new).device) }
        ensures wants_later { D.wants (slot generation self.old).device ≤ D.wants (slot generation self.new).device }
        ensures closes { Closes result self.old.state self.new.state }
    {
        self.state.check()?;
        match self.call(generation) {
            Ok(is_done) => Ok(is_done),
            Err(fault) => Err(self.closed_by(fault)),
        }
    }

    /// Runs the job on a slot of an open store to its end.
    fn run(&mut self, generation: u64) -> Result<(), LogFault>
        requires open { self.old.state ≡ State.Open }
        requires stands { D.told → UnderWayAt D.cells generation self.old }
        ensures ok { OnOk result (D.told → (next : Checkpoint) (has other : Option Checkpoint) → StandsAt D.cells generation self.old next has other
            → StandsAt D.cells generation self.new next (has_then (slot generation self.old).job next has)
            (other_then (slot generation self.old).job next has other)) }
        ensures rests { OnOk result ((slot generation self.new).job ≡ end_of (slot generation self.old).job) }
        ensures any_moment { D.told → D.remembers → (next : Checkpoint) (has other : Option Checkpoint) → StandsAt D.cells generation self.old next has other
            → LeavesOnly D.moment D.left_since (slot generation self.old).device (slot generation self.new).device
            (Leaves (is_odd generation) has (slot_stake (slot generation self.old).job next other)) }
        ensures crash { D.told → (next : Checkpoint) (has other : Option Checkpoint) → StandsAt D.cells generation self.old next has other
            → LeavesAt D.cells generation self.new has (slot_stake (slot generation self.old).job next other) }
        ensures underway { OnOk result (D.told → UnderWayAt D.cells generation self.new) }
        ensures idle { IsIdle (slot generation self.new).job }
        ensures beside { OnOk result (beside generation self.new ≡ beside generation self.old) }
        ensures apart { (beside generation self.new).device ≡ (beside generation self.old).device }
        ensures shut { OnErr result (self.new.state ≡ State.Open → ⊥) }
        ensures later { D.faults (slot generation self.old).device ≤ D.faults (slot generation self.new).device }
        ensures cause { IsErrOf result (LogFault.Disk false) → Rose (D.faults (slot generation self.old).device) (D.faults (slot generation self.new).device) }
        ensures want { IsErrOf result LogFault.NoMemory → Rose (D.wants (slot generation self.old).device) (D.wants (slot generation self.new).device) }
        ensures wants_later { D.wants (slot generation self.old).device ≤ D.wants (slot generation self.new).device }
        ensures closes { Closes result self.old.state self.new.state }
    {
        while !self.is_idle(generation) {
            self.next_call(generation)?;
        }
        Ok(())
    }

    /// The newest checkpoint that counts; `None` if and only if no slot counts. Errors: a failure of
    /// a device; want of memory. Want of memory for the checkpoint itself leaves the store open.
    pub fn newest(&mut self, alloc: Global) -> Result<Option<Checkpoint>, LogFault>
        ensures found { IfOk result (λ found. D.told → found ≡ newest (D.cells self.old.even.device).now (D.cells self.old.odd.device).now) }
        ensures even { D.told → D.cells self.new.even.device ≡ D.cells self.old.even.device }
        ensures odd { D.told → D.cells self.new.odd.device ≡ D.cells self.old.odd.device }
        ensures even_job { OnOk result (self.new.even.job ≡ self.old.even.job) }
        ensures odd_job { OnOk result (self.new.odd.job ≡ self.old.odd.job) }
        ensures unchanged { OnErr result (self.new.state ≡ State.Open → (self.new.even.job ≡ self.old.even.job) × (self.new.odd.job ≡ self.old.odd.job)) }
        ensures untouched { (self.old.state ≡ State.Open → ⊥) → self.new ≡ self.old }
        ensures even_time { D.told → Elapses (D.moment self.old.even.device) (D.moment self.new.even.device)
            (D.left_since self.old.even.device) (D.left_since self.new.even.device) (IsImage (D.cells self.new.even.device)) }
        ensures odd_time { D.told → Elapses (D.moment self.old.odd.device) (D.moment self.new.odd.device)
            (D.left_since self.old.odd.device) (D.left_since self.new.odd.device) (IsImage (D.cells self.new.odd.device)) }
        ensures even_later { D.faults self.old.even.device ≤ D.faults self.new.even.device }
        ensures odd_later { D.faults self.old.odd.device ≤ D.faults self.new.odd.device }
        ensures cause { IsErrOf result (LogFault.Disk false)
            → Rose (D.faults self.old.even.device) (D.faults self.new.even.device) ⊎ Rose (D.faults self.old.odd.device) (D.faults self.new.odd.device) }
        ensures even_wants_later { D.wants self.old.even.device ≤ D.wants self.new.even.device }
        ensures odd_wants_later { D.wants self.old.odd.device ≤ D.wants self.new.odd.device }
        ensures want { IsErrOf result LogFault.NoMemory → self.old.state ≡ State.Open
            → (self.new.state ≡ State.Open) ⊎ (Rose (D.wants self.old.even.device) (D.wants self.new.even.device) ⊎ Rose (D.wants self.old.odd.device) (D.wants self.new.odd.device)) }
        ensures closes { Closes result self.old.state self.new.state }
    {
        self.state.check()?;
        let (even, odd) = self.read_both(alloc)?;
        let found = newest_of(alloc, even.as_slice(), odd.as_slice())?;
        Ok(found)
    }

    /// Whether no job runs on a slot.
    pub fn is_idle(&self, generation: u64) -> bool
        ensures { result ≡ idle (slot generation self.now).job }
    {
        is_idle(self.job(generation))
    }

    /// Whether a slot has to be closed before anything else is done, the even one first.
    pub fn is_torn(&self, generation: u64) -> bool
        ensures { IsTrue result ↔ ((slot generation self.now).job ≡ SlotJob.Torn) }
    {
        matches!(self.job(generation), SlotJob::Torn)
    }

    /// Whether the gate of a slot of an open store is closed. If it is not, it has to be closed
    /// before the slot is filled.
    pub fn is_shut(&self, generation: u64) -> bool
        ensures { result ≡ shut (slot generation self.now).job }
    {
        matches!(self.job(generation), SlotJob::Shut | SlotJob::Full)
    }

    /// The devices, taken out of the store, the even one first.
    pub fn into_disks(self) -> (D, D)
        ensures even { result.0 ≡ self.even.device }
        ensures odd { result.1 ≡ self.odd.device }
    {
        let CheckpointStore { even, odd, .. } = self;
        let Slot { device: even, .. } = even;
        let Slot { device: odd, .. } = odd;
        (even, odd)
    }

    /// Begins a job on a slot.
    fn begin(&mut self, generation: u64, job: SlotJob)
        requires { self.old.state ≡ State.Open }
        ensures job { (slot generation self.new).job ≡ job }
        ensures device { (slot generation self.new).device ≡ (slot generation self.old).device }
        ensures beside { beside generation self.new ≡ beside generation self.old }
        ensures state { self.new.state ≡ self.old.state }
    {
        if is_odd(generation) {
            self.odd.job = job;
        } else {
            self.even.job = job;
        }
    }

    /// The next call of the job on a slot.
    fn job(&self, generation: u64) -> &SlotJob
        ensures { result.now ≡ (slot generation self.now).job }
    {
        if is_odd(generation) {
            &self.odd.job
        } else {
            &self.even.job
        }
    }

    /// Makes the next device call of the job on a slot of an open store, and tells whether no job
    /// runs on it after that.
    fn call(&mut self, generation: u64) -> Result<bool, Fault>
        requires open { self.old.state ≡ State.Open }
        requires stands { D.told → UnderWayAt D.cells generation self.old }
        ensures goes { OnOk result (D.told → (next : Checkpoint) (has other : Option Checkpoint)
            → StandsAt D.cells generation self.old next has other
            → StandsAt D.cells generation self.new next
            (has_after (slot generation self.old).job next has) (other_after (slot generation self.old).job next has other)) }
        ensures next { OnOk result ((slot generation self.new).job ≡ job_after (slot generation self.old).job) }
        ensures cells { OnOk result (D.told → D.cells (slot generation self.new).device ≡ cells_called (slot generation self.old).job (D.cells (slot generation self.old).device)) }
        ensures done { IfOk result (λ done. done ≡ idle (slot generation self.new).job) }
        ensures torn { D.told → Within (D.cells (slot generation self.new).device) (slot_called (slot generation self.old).job (D.cells (slot generation self.old).device)) }
        ensures time { Elapses (D.moment (slot generation self.old).device) (D.moment (slot generation self.new).device)
            (D.left_since (slot generation self.old).device) (D.left_since (slot generation self.new).device) (IsImage (D.cells (slot generation self.new).device)) }
        ensures beside { beside generation self.new ≡ beside generation self.old }
        ensures state { self.new.state ≡ self.old.state }
        ensures cause { HasCause (D.faults (slot generation self.old).device) (D.faults (slot generation self.new).device) result }
        ensures want { HasWant (D.wants (slot generation self.old).device) (D.wants (slot generation self.new).device) result }
    {
        if is_odd(generation) {
            call(&mut self.odd)
        } else {
            call(&mut self.even)
        }
    }

    /// Closes the store after a device call that failed.
    fn closed_by(&mut self, fault: Fault) -> LogFault
        requires { self.old.state ≡ State.Open }
        ensures even { self.new.even.device ≡ self.old.even.device }
        ensures odd { self.new.odd.device ≡ self.old.odd.device }
        ensures idle { (idle self.new.even.job ≡ true) × (idle self.new.odd.job ≡ true) }
        ensures failed { result ≡ LogFault.Disk false → fault ≡ Fault.Failed }
        ensures wanted { result ≡ LogFault.NoMemory → fault ≡ Fault.NoMemory }
        ensures shut { self.new.state ≡ State.Open → ⊥ }
        ensures closes { Closes {T = Unit {0}} (Err result) self.old.state self.new.state }
    {
        self.even.job = SlotJob::Shut;
        self.odd.job = SlotJob::Shut;
        match fault {
            Fault::Failed => {
                self.state = State::Failed;
                LogFault::Disk { closed: false }
            }
            Fault::NoMemory => {
                self.state = State::NoMemory;
                LogFault::NoMemory
            }
        }
    }

    /// The bytes of both devices of an open store, the even one first.
    fn read_both(&mut self, alloc: Global) -> Result<(Bytes, Bytes), LogFault>
        requires { self.old.state ≡ State.Open }
        ensures bytes { IfOk result (λ r. D.told → (r.0 ≡ (D.cells self.old.even.device).now) × (r.1 ≡ (D.cells self.old.odd.device).now)) }
        ensures even { D.told → D.cells self.new.even.device ≡ D.cells self.old.even.device }
        ensures odd { D.told → D.cells self.new.odd.device ≡ D.cells self.old.odd.device }
        ensures even_job { OnOk result (self.new.even.job ≡ self.old.even.job) }
        ensures odd_job { OnOk result (self.new.odd.job ≡ self.old.odd.job) }
        ensures shut { OnErr result (self.new.state ≡ State.Open → ⊥) }
        ensures even_time { D.told → Elapses (D.moment self.old.even.device) (D.moment self.new.even.device)
            (D.left_since self.old.even.device) (D.left_since self.new.even.device) (IsImage (D.cells self.new.even.device)) }
        ensures odd_time { D.told → Elapses (D.moment self.old.odd.device) (D.moment self.new.odd.device)
            (D.left_since self.old.odd.device) (D.left_since self.new.odd.device) (IsImage (D.cells self.new.odd.device)) }
        ensures even_later { D.faults self.old.even.device ≤ D.faults self.new.even.device }
        ensures odd_later { D.faults self.old.odd.device ≤ D.faults self.new.odd.device }
        ensures cause { IsErrOf result (LogFault.Disk false)
            → Rose (D.faults self.old.even.device) (D.faults self.new.even.device) ⊎ Rose (D.faults self.old.odd.device) (D.faults self.new.odd.device) }
        ensures even_wants_later { D.wants self.old.even.device ≤ D.wants self.new.even.device }
        ensures odd_wants_later { D.wants self.old.odd.device ≤ D.wants self.new.odd.device }
        ensures want { IsErrOf result LogFault.NoMemory
            → Rose (D.wants self.old.even.device) (D.wants self.new.even.device) ⊎ Rose (D.wants self.old.odd.device) (D.wants self.new.odd.device) }
        ensures closes { Closes result self.old.state self.new.state }
    {
        match read_pair(alloc, &mut self.even.device, &mut self.odd.device) {
            Ok(read) => Ok(read),
            Err(fault) => Err(self.closed_by(fault)),
        }
    }
}

/// Makes the next device call of the job on a slot, and tells whether no job runs on it after that.
fn call<D: Disk>(slot: &mut Slot<D>) -> Result<bool, Fault>
    requires { D.told → (odd : Bool) × IsSlotUnderWay odd (D.cells slot.old.device) slot.old.job }
    ensures goes { OnOk result (D.told → (odd : Bool) (next : Checkpoint) (has other : Option Checkpoint)
        → SlotStands odd (D.cells slot.old.device) slot.old.job next has other
        → SlotStands odd (D.cells slot.new.device) slot.new.job next (has_after slot.old.job next has) (other_after slot.old.job next has other)) }
    ensures next { OnOk result (slot.new.job ≡ job_after slot.old.job) }
    ensures cells { OnOk result (D.told → D.cells slot.new.device ≡ cells_called slot.old.job (D.cells slot.old.device)) }
    ensures done { IfOk result (λ done. done ≡ idle slot.new.job) }
    ensures torn { D.told → Within (D.cells slot.new.device) (slot_called slot.old.job (D.cells slot.old.device)) }
    ensures time { Elapses (D.moment slot.old.device) (D.moment slot.new.device)
        (D.left_since slot.old.device) (D.left_since slot.new.device) (IsImage (D.cells slot.new.device)) }
    ensures cause { HasCause (D.faults slot.old.device) (D.faults slot.new.device) result }
    ensures want { HasWant (D.wants slot.old.device) (D.wants slot.new.device) result }
{
    let job = std::mem::replace(&mut slot.job, SlotJob::Shut);
    slot.job = slot_step(&mut slot.device, job)?;
    Ok(is_idle(&slot.job))
}
