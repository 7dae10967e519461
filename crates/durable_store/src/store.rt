//! A store over its four devices.
ghost use Rattle.std.specs.Prelude.{◌≡◌, ◌⊎◌, false, true, OnOk, OnErr, IsErrOf};
ghost use Rattle.store_form.specs.Ends.{Closes};
ghost use Rattle.store_laws.specs.States.{Devices, some, writes_tail};
ghost use Rattle.store_laws.specs.Runs.{CallFits};
ghost use Rattle.store_plan.specs.Fit.{AreEntries};
ghost use Rattle.store_plan.specs.Plans.{state_with, readied};
ghost use Rattle.durable_store.specs.Runs.{unasks};
ghost use Rattle.durable_store.specs.Calls.{fault_told, closed_by};

use crate::disks::Disks;
use disk_model::disk::Disk;
use faults::Fault;
use smart_base::sequence::{Bytes, Sequence};
use std::alloc::Global;
use store_form::ends::{LogFault, State};
use store_laws::job::{StoreCall, Tail};
use store_plan::plan::Plan;
use store_plan::stops::Stops;

/// The reason for which a call of a store did not do its work: a failure of a device, or want of
/// memory.
pub type StoreFault = LogFault;

/// A task for a store.
#[derive(Drop)]
pub enum Job {
    /// These entries are to become firm.
    Append(Sequence<Bytes>),
    /// The next generation is to begin, with this snapshot.
    Switch { generation: u64, snapshot: Bytes },
}

/// A store. It closes when a device fails or wants memory, and is then to be opened again over what
/// the devices hold.
#[derive(Drop)]
pub struct Store<D: Disk> {
    pub disks: Disks<D>,
    /// What the store is about to do.
    pub plan: Plan,
    pub state: State,
}

impl<D: Disk> Store<D> {
    ghost use Rattle.std.specs.Prelude.{◌≡◌, ◌≤◌, ◌⊎◌, ◌+◌, ◌++◌, ℕ, min, List, [], length, drop, None, is_some, not, true, false, IfOk, OnOk, OnErr, IsErrOf};
    ghost use Rattle.store_form.specs.Ends.{Closes};
    ghost use Rattle.store_laws.specs.Restored.{Images};
    ghost use Rattle.store_laws.specs.Firm.{GroupAdds};
    ghost use Rattle.store_laws.specs.States.{Devices, greatest, some, group_of, writes_tail, is_due, given, asked, begun, store_called, MayLeave};
    ghost use Rattle.store_laws.specs.Runs.{called_times, CallFits, CallLeaves};
    ghost use Rattle.store_plan.specs.Fit.{AreEntries};
    ghost use Rattle.store_plan.specs.Plans.{state_with};
    ghost use Rattle.durable_store.specs.Disks.{OthersBy, cells_of, TimeWent, NoneFell, DiskRose, LeftSince};
    ghost use Rattle.durable_store.specs.Stores.{state_of, Stands, JobFits, started};
    ghost use Rattle.durable_store.specs.Runs.{Ran, IsNoSwitch, IsUnasked, SwitchIsOnOrDone, EndsWithSwitch, no_tail, taken_by, asked_by};
    ghost use Rattle.durable_store.specs.Calls.{FirstCan, FirstCalled};

    /// Makes entries firm, after every call that is due before: in one group with all that wait, up to
    /// the first that ends a group. That one and those behind it wait for a switch. Errors: a failure
    /// of a device; want of memory. If memory is wanted and the store stays open, it has not taken the
    /// entries.
    pub fn append<E: Stops>(
        &mut self,
        alloc: Global,
        entries: Sequence<Bytes>,
    ) -> Result<(), StoreFault>
        requires fit { AreEntries entries }
        requires unasked { self.old.state ≡ State.Open → (d : Devices) → IsUnasked (state_with self.old.plan d) }
        requires sound { self.old.state ≡ State.Open → D.told → Stands (state_of D.cells self.old) }
        // The whole state after the calls that went well, what a crash leaves, and left at any moment. With an error the entries are
        // not among those that wait, and no call has taken them.
        ensures ran { self.old.state ≡ State.Open
            → (run : Ran D.told D.remembers D.cells D.moment D.left_since E.stops no_tail (λ d. given entries (state_with self.old.plan d)) (taken_by result self.old.plan.waiting) self.old.disks self.new)
            × OnErr result (self.new.state ≡ State.Open → (d : Devices) → (called_times E.stops no_tail run.calls (given entries (state_with self.old.plan d))).waiting ≡ self.old.plan.waiting ++ entries) }
        ensures done { OnOk result ((d : Devices) → is_due E.stops (state_with self.new.plan d) ≡ false) }
        // How many entries are firm then: the running group, and those that waited or are given, up to the first that ends a group.
        ensures firm { OnOk result ((d : Devices) → GroupAdds (state_with self.old.plan d) → self.old.plan.firm ≤ greatest
            → self.new.plan.firm ≡ min ((self.old.plan.firm + length self.old.plan.adding) + length (group_of E.stops (self.old.plan.waiting ++ entries))) greatest) }
        ensures waits { OnOk result (self.new.plan.waiting ≡ drop (length (group_of E.stops (self.old.plan.waiting ++ entries))) (self.old.plan.waiting ++ entries)) }
        ensures unasked { self.new.state ≡ State.Open → (d : Devices) → IsUnasked (state_with self.new.plan d) }
        ensures stands { self.new.state ≡ State.Open → D.told → Stands (state_of D.cells self.new) }
        ensures later { NoneFell D.faults self.old.disks self.new.disks }
        ensures wants_later { NoneFell D.wants self.old.disks self.new.disks }
        ensures cause { IsErrOf result (LogFault.Disk false) → DiskRose D.faults self.old.disks self.new.disks }
        ensures want { IsErrOf result LogFault.NoMemory → self.old.state ≡ State.Open → (self.new.state ≡ State.Open) ⊎ DiskRose D.wants self.old.disks self.new.disks }
        ensures untouched { (self.old.state ≡ State.Open → ⊥) → self.new ≡ self.old }
        ensures closes { Closes result self.old.state self.new.state }
    {
        let waited = self.plan.waiting.len();
        self.start(alloc, Job::Append(entries))?;
        let tail = Tail {
            made: 0,
            entries: Sequence::new(alloc),
        };
        match self.finish::<E>(alloc, &tail) {
            Ok(()) => Ok(()),
            Err(fault) => {
                self.plan.take_back(waited);
                Err(fault)
            }
        }
    }

    /// Switches to the next generation, after every call that is due before: its slot gets the snapshot,
    /// and its log begins with the tail. After `Ok` it is the present one, and no call was made after
    /// those of the switch. A switch that waited is forgotten.
    ///
    /// Entries are numbered from 1: those that were restored, then those that were given since. The
    /// caller owes that `made`, added to the count of those restored, is the number of the tail's last
    /// entry. It is 0 if that entry was restored, or there is none. Then the entries behind the tail's
    /// last still wait. The store takes the entries up to this number for firm, whatever the tail holds.
    ///
    /// Errors: a failure of a device; want of memory. The generation is then as it was. If memory is
    /// wanted and the store stays open, no switch waits. Either no job runs, or the switch does:
    /// `wants_tail` holds, and the next calls go on with it.
    pub fn switch<E: Stops>(
        &mut self,
        alloc: Global,
        generation: u64,
        snapshot: Bytes,
        tail: &Tail,
    ) -> Result<(), StoreFault>
        requires fits { JobFits (Job.Switch generation snapshot) self.old.plan.generation }
        requires tail { AreEntries tail.now.entries }
        requires no_switch { self.old.state ≡ State.Open → IsNoSwitch self.old.plan.running self.old.plan.ending }
        requires sound { self.old.state ≡ State.Open → D.told → Stands (state_of D.cells self.old) }
        // The whole state after the calls that went well, what a crash leaves, and left at any moment. The last of these calls ends the
        // switch. With an error no switch waits.
        ensures ran { self.old.state ≡ State.Open
            → (run : Ran D.told D.remembers D.cells D.moment D.left_since E.stops tail.now (λ d. asked snapshot (state_with self.old.plan d)) (asked_by result) self.old.disks self.new)
            × OnOk result ((d : Devices) → EndsWithSwitch E.stops tail.now run.calls (asked snapshot (state_with self.old.plan d))) }
        ensures generation { OnOk result (self.new.plan.generation ≡ generation) }
        ensures same_generation { OnErr result (self.new.plan.generation ≡ self.old.plan.generation) }
        ensures idle { OnOk result (self.new.plan.running ≡ []) }
        ensures unasked { self.new.state ≡ State.Open → self.new.plan.asked ≡ None }
        ensures left { OnErr result (self.new.state ≡ State.Open → (self.new.plan.running ≡ []) ⊎ (writes_tail self.new.plan.running ≡ true)) }
        ensures stands { self.new.state ≡ State.Open → D.told → Stands (state_of D.cells self.new) }
        ensures later { NoneFell D.faults self.old.disks self.new.disks }
        ensures wants_later { NoneFell D.wants self.old.disks self.new.disks }
        ensures cause { IsErrOf result (LogFault.Disk false) → DiskRose D.faults self.old.disks self.new.disks }
        ensures want { IsErrOf result LogFault.NoMemory → self.old.state ≡ State.Open → (self.new.state ≡ State.Open) ⊎ DiskRose D.wants self.old.disks self.new.disks }
        ensures untouched { (self.old.state ≡ State.Open → ⊥) → self.new ≡ self.old }
        ensures closes { Closes result self.old.state self.new.state }
    {
        self.state.check()?;
        self.plan.ask(snapshot);
        match self.go_to::<E>(alloc, generation, tail) {
            Ok(()) => Ok(()),
            Err(fault) => {
                forget_switch(&mut self.plan);
                Err(fault)
            }
        }
    }

    /// Makes calls until this generation, to which a switch waits, is the present one.
    fn go_to<E: Stops>(
        &mut self,
        alloc: Global,
        generation: u64,
        tail: &Tail,
    ) -> Result<(), StoreFault>
        requires tail { AreEntries tail.now.entries }
        requires next { generation ≡ self.old.plan.generation + 1 }
        requires waits { (d : Devices) → SwitchIsOnOrDone self.old.plan.generation (state_with self.old.plan d) }
        requires open { self.old.state ≡ State.Open }
        requires sound { D.told → Stands (state_of D.cells self.old) }
        ensures ran { (run : Ran D.told D.remembers D.cells D.moment D.left_since E.stops tail.now (λ d. state_with self.old.plan d) (λ s. s) self.old.disks self.new)
            × OnOk result ((d : Devices) → EndsWithSwitch E.stops tail.now run.calls (state_with self.old.plan d)) }
        ensures generation { OnOk result (self.new.plan.generation ≡ generation) }
        ensures same_generation { OnErr result (self.new.plan.generation ≡ self.old.plan.generation) }
        ensures idle { OnOk result (self.new.plan.running ≡ []) }
        ensures unasked { OnOk result (self.new.plan.asked ≡ None) }
        ensures left { OnErr result (self.new.state ≡ State.Open → (self.new.plan.running ≡ []) ⊎ ((writes_tail self.new.plan.running ≡ true) × (self.new.plan.asked ≡ None))) }
        ensures stands { self.new.state ≡ State.Open → D.told → Stands (state_of D.cells self.new) }
        ensures later { NoneFell D.faults self.old.disks self.new.disks }
        ensures wants_later { NoneFell D.wants self.old.disks self.new.disks }
        ensures cause { IsErrOf result (LogFault.Disk false) → DiskRose D.faults self.old.disks self.new.disks }
        ensures want { IsErrOf result LogFault.NoMemory → (self.new.state ≡ State.Open) ⊎ DiskRose D.wants self.old.disks self.new.disks }
        ensures closes { Closes result self.old.state self.new.state }
    {
        while self.plan.generation != generation {
            self.next_call::<E>(alloc, tail)?;
        }
        Ok(())
    }

    /// Gives the store a task, which waits. Entries wait for a group. A switch that waited is forgotten.
    /// Errors: want of memory; or the store is closed.
    pub fn start(&mut self, alloc: Global, job: Job) -> Result<(), StoreFault>
        requires fits { JobFits job self.old.plan.generation }
        ensures started { OnOk result ((d : Devices) → state_with self.new.plan d ≡ started job (state_with self.old.plan d)) }
        ensures err { OnErr result (self.new ≡ self.old) }
        ensures disks { self.new.disks ≡ self.old.disks }
        ensures state { self.new.state ≡ self.old.state }
        ensures stands { Stands (state_of D.cells self.old) → Stands (state_of D.cells self.new) }
        ensures cause { IsErrOf result (LogFault.Disk false) → ⊥ }
        ensures closes { Closes result self.old.state self.new.state }
    {
        self.state.check()?;
        match job {
            Job::Append(entries) => self.plan.give(alloc, entries)?,
            Job::Switch {
                generation: _,
                snapshot,
            } => self.plan.ask(snapshot),
        }
        Ok(())
    }

    /// Makes every call that is due.
    fn finish<E: Stops>(&mut self, alloc: Global, tail: &Tail) -> Result<(), StoreFault>
        requires tail { AreEntries tail.now.entries }
        requires open { self.old.state ≡ State.Open }
        requires sound { D.told → Stands (state_of D.cells self.old) }
        ensures ran { Ran D.told D.remembers D.cells D.moment D.left_since E.stops tail.now (λ d. state_with self.old.plan d) (λ s. s) self.old.disks self.new }
        ensures done { OnOk result ((d : Devices) → is_due E.stops (state_with self.new.plan d) ≡ false) }
        ensures waits { OnOk result ((d : Devices) → IsUnasked (state_with self.old.plan d) → self.new.plan.waiting ≡ drop (length (group_of E.stops self.old.plan.waiting)) self.old.plan.waiting) }
        ensures firm { OnOk result ((d : Devices) → IsUnasked (state_with self.old.plan d) → GroupAdds (state_with self.old.plan d) → self.old.plan.firm ≤ greatest
            → self.new.plan.firm ≡ min ((self.old.plan.firm + length self.old.plan.adding) + length (group_of E.stops self.old.plan.waiting)) greatest) }
        // Want of memory comes before the entries that wait are taken.
        ensures held { OnErr result ((d : Devices) → IsUnasked (state_with self.old.plan d) → self.new.state ≡ State.Open → self.new.plan.waiting ≡ self.old.plan.waiting) }
        ensures unasked { self.new.state ≡ State.Open → (d : Devices) → IsUnasked (state_with self.old.plan d) → IsUnasked (state_with self.new.plan d) }
        ensures stands { self.new.state ≡ State.Open → D.told → Stands (state_of D.cells self.new) }
        ensures later { NoneFell D.faults self.old.disks self.new.disks }
        ensures wants_later { NoneFell D.wants self.old.disks self.new.disks }
        ensures cause { IsErrOf result (LogFault.Disk false) → DiskRose D.faults self.old.disks self.new.disks }
        ensures want { IsErrOf result LogFault.NoMemory → (self.new.state ≡ State.Open) ⊎ DiskRose D.wants self.old.disks self.new.disks }
        ensures closes { Closes result self.old.state self.new.state }
    {
        while self.plan.is_due::<E>() {
            self.next_call::<E>(alloc, tail)?;
        }
        Ok(())
    }

    /// Makes the next device call, and tells whether no job runs after it. If none ran, the first that
    /// applies begins: a close, the repair, the switch that waits, a group of the entries that wait. If
    /// none applies, nothing is done. The tail is written by the call before which `wants_tail` holds.
    /// Errors: a failure of a device; want of memory.
    pub fn next_call<E: Stops>(&mut self, alloc: Global, tail: &Tail) -> Result<bool, StoreFault>
        requires tail { AreEntries tail.now.entries }
        requires sound { self.old.state ≡ State.Open → D.told → Stands (state_of D.cells self.old) }
        // The whole state after the call, but for the contents of the devices: whatever these are.
        ensures called { OnOk result ((d : Devices) → state_with self.new.plan (store_called E.stops tail.now (state_with self.old.plan d)).devices
            ≡ store_called E.stops tail.now (state_with self.old.plan d)) }
        ensures made { OnOk result (D.told → cells_of D.cells self.new.disks ≡ (store_called E.stops tail.now (state_of D.cells self.old)).devices) }
        ensures done { IfOk result (λ done. done ≡ not (some self.new.plan.running)) }
        // Only the device of the first call of the running job is called.
        ensures one { (d : Devices) → OthersBy (begun E.stops (state_with self.old.plan d)) (begun E.stops (state_with self.old.plan d)).running self.old.disks self.new.disks }
        // What the job that begins writes, and the tail, have a spelling.
        ensures fits { OnOk result ((d : Devices) → CallFits E.stops tail.now (state_with self.old.plan d)) }
        // Want of memory before a device call changes nothing. A job was to begin then, or the tail was to be written.
        ensures unchanged { OnErr result (self.new.state ≡ State.Open → (self.new ≡ self.old) × ((some self.old.plan.running ≡ false) ⊎ (writes_tail self.old.plan.running ≡ true))) }
        ensures held { OnErr result ((self.new.plan.firm ≡ self.old.plan.firm) × (self.new.plan.generation ≡ self.old.plan.generation)) }
        // What a crash leaves after the call, whether it goes well or not.
        ensures crash { self.old.state ≡ State.Open → D.told → (images : Images) → MayLeave (cells_of D.cells self.new.disks) images → CallLeaves E.stops tail.now (state_of D.cells self.old) images }
        // What a crash leaves at any moment of the call: the same.
        ensures any_moment { self.old.state ≡ State.Open → D.told → D.remembers → (images : Images) → LeftSince D.moment D.left_since self.old.disks self.new.disks images
            → CallLeaves E.stops tail.now (state_of D.cells self.old) images }
        ensures stands { self.new.state ≡ State.Open → D.told → Stands (state_of D.cells self.new) }
        ensures time { TimeWent D.moment D.left_since D.cells self.old.disks self.new.disks }
        ensures later { NoneFell D.faults self.old.disks self.new.disks }
        ensures wants_later { NoneFell D.wants self.old.disks self.new.disks }
        ensures cause { IsErrOf result (LogFault.Disk false) → DiskRose D.faults self.old.disks self.new.disks }
        ensures want { IsErrOf result LogFault.NoMemory → self.old.state ≡ State.Open → (self.new.state ≡ State.Open) ⊎ DiskRose D.wants self.old.disks self.new.disks }
        ensures untouched { (self.old.state ≡ State.Open → ⊥) → self.new ≡ self.old }
        ensures closes { Closes result self.old.state self.new.state }
    {
        make_ready::<E>(alloc, self.state, &mut self.plan, tail)?;
        self.make_first(alloc)
    }

    /// Makes the first call of the running job, which writes no tail any more, and tells whether no job
    /// runs after it. If none runs, nothing is done. Errors: a failure of a device; want of memory.
    /// Each closes the store.
    fn make_first(&mut self, alloc: Global) -> Result<bool, StoreFault>
        requires open { self.old.state ≡ State.Open }
        requires there { writes_tail self.old.plan.running ≡ false }
        requires can { D.told → FirstCan self.old.plan.running (cells_of D.cells self.old.disks) }
        ensures went { FirstCalled D.told D.cells D.moment D.left_since self.old self.new result }
        ensures time { TimeWent D.moment D.left_since D.cells self.old.disks self.new.disks }
        ensures later { NoneFell D.faults self.old.disks self.new.disks }
        ensures wants_later { NoneFell D.wants self.old.disks self.new.disks }
        ensures cause { IsErrOf result (LogFault.Disk false) → DiskRose D.faults self.old.disks self.new.disks }
        ensures want { IsErrOf result LogFault.NoMemory → DiskRose D.wants self.old.disks self.new.disks }
        ensures closes { Closes result self.old.state self.new.state }
    {
        let plan = &self.plan;
        let Some(StoreCall::On(device, call)) = plan.running.as_slice().first() else {
            return Ok(true);
        };
        match self.disks.call(*device, call) {
            Ok(()) => Ok(self.plan.advance(alloc)),
            Err(fault) => Err(close(&mut self.state, fault)),
        }
    }

    /// Whether the next call writes the tail.
    pub fn wants_tail(&self) -> bool
        ensures { result ≡ writes_tail self.now.plan.running }
    {
        self.plan.wants_tail()
    }

    /// The number of firm entries: those restored, and those made firm since. It stays at 2^64 - 1.
    pub fn firm(&self) -> u64
        ensures { result ≡ self.now.plan.firm }
    {
        self.plan.firm
    }

    /// The number of the present generation; 0 if no slot counts.
    pub fn generation(&self) -> u64
        ensures { result ≡ self.now.plan.generation }
    {
        self.plan.generation
    }

    /// Whether no job runs. A job may still be due, if a gate is torn, or something waits.
    pub fn is_idle(&self) -> bool
        ensures { result ≡ not (some self.now.plan.running) }
    {
        self.plan.running.is_empty()
    }

    /// Whether there is a device call to make: a job runs, or one is to begin.
    pub fn is_due<E: Stops>(&self) -> bool
        ensures { result ≡ is_due E.stops (state_of D.cells self.now) }
    {
        self.plan.is_due::<E>()
    }

    /// Whether a switch waits.
    pub fn asks(&self) -> bool
        ensures { result ≡ is_some self.now.plan.asked }
    {
        self.plan.asked.is_some()
    }

    /// The devices, taken out of the store.
    pub fn into_disks(self) -> Disks<D>
        ensures { result ≡ self.disks }
    {
        let Store { disks, .. } = self;
        disks
    }
}

/// Lets no switch wait.
fn forget_switch(plan: &mut Plan)
    ensures { (d : Devices) → state_with plan.new d ≡ unasks (state_with plan.old d) }
{
    plan.asked = None;
}

/// Makes the plan of an open store ready for its next call. Errors: want of memory; or the store is
/// closed.
fn make_ready<E: Stops>(
    alloc: Global,
    state: State,
    plan: &mut Plan,
    tail: &Tail,
) -> Result<(), StoreFault>
    requires tail { AreEntries tail.now.entries }
    ensures open { OnOk result (state ≡ State.Open) }
    ensures ready { OnOk result ((d : Devices) → state_with plan.new d ≡ readied E.stops tail.now (state_with plan.old d)) }
    ensures fits { OnOk result ((d : Devices) → CallFits E.stops tail.now (state_with plan.old d)) }
    ensures unchanged { OnErr result (plan.new ≡ plan.old) }
    ensures begins { OnErr result (state ≡ State.Open → (some plan.old.running ≡ false) ⊎ (writes_tail plan.old.running ≡ true)) }
    ensures cause { IsErrOf result (LogFault.Disk false) → ⊥ }
    ensures closes { Closes result state state }
{
    state.check()?;
    plan.ready::<E>(alloc, tail)?;
    Ok(())
}

/// Closes a store for a fault of a device call, and tells the fault.
fn close(state: &mut State, fault: Fault) -> StoreFault
    ensures told { result ≡ fault_told fault }
    ensures closed { state.new ≡ closed_by fault }
{
    match fault {
        Fault::Failed => {
            *state = State::Failed;
            LogFault::Disk { closed: false }
        }
        Fault::NoMemory => {
            *state = State::NoMemory;
            LogFault::NoMemory
        }
    }
}
