//! The plan of a store: which job runs, and what waits.
ghost use Rattle.std.specs.Prelude.{◌≡◌, ◌<◌, ◌≤◌, ◌^◌, take, drop, length};
ghost use Rattle.store_laws.specs.States.{group_of, is_torn};
ghost use Rattle.store_plan.specs.Fit.{AreEntries, entries_prop, AskedFits, asked_prop, CanEnd, ends_prop};

use crate::entries::push_all;
use crate::jobs::{Calls, close_job, group_job, repair_job, switch_job, tail_text};
use crate::stops::Stops;
use batch_log::job::body_of;
use checkpoint_store::reading::is_odd;
use disk_model::call::DeviceCall;
use smart_base::sequence::{Bytes, Sequence};
use std::alloc::{AllocError, Global};
use std::mem;
use store_form::checkpoint::put_checkpoint;
use store_laws::job::{Device, Ending, Gate, StoreCall, Tail};

/// More bytes than a log has.
const LIMIT: u64 = 1 << 63;

/// A store without its devices.
#[derive(Drop)]
pub struct Plan {
    /// The gates of the slots.
    pub even: Gate,
    pub odd: Gate,
    /// Whether the gate after the groups of the log is not sure to be closed.
    pub torn: bool,
    /// The index of that gate.
    pub end: u64,
    /// The number of the present generation.
    pub generation: u64,
    /// The calls that the running job still makes.
    pub running: Calls,
    pub ending: Ending,
    /// The entries of the running group.
    pub adding: Sequence<Bytes>,
    /// The entries that wait for a group.
    pub waiting: Sequence<Bytes>,
    /// The snapshot of the switch that waits.
    pub asked: Option<Bytes>,
    /// The number of entries that were restored.
    pub restored: u64,
    /// The number of firm entries.
    pub firm: u64,
    ghost fit: { AreEntries waiting } by { entries_prop waiting },
    ghost asks: { AskedFits asked } by { asked_prop asked },
    ghost near: { end < 2 ^ 63 },
    ghost ends: { CanEnd running ending generation } by { ends_prop running ending generation },
}

impl Plan {
    ghost use Rattle.std.specs.Prelude.{◌≡◌, ◌≤◌, ◌<◌, ◌⊎◌, ◌+◌, ◌^◌, ◌-◌, ◌++◌, ◌∷◌, [], List, ℕ, length, take, drop, Some, IfOk, OnOk, OnErr, false, true, not};
    ghost use Rattle.store_form.specs.Spelling.{IsGroup};
    ghost use Rattle.store_laws.specs.States.{Devices, side, slot_gate_of, group_of, begun, begins, due_job, is_due, given, asked, close_begins, repair_begins, switch_begins, group_begins, of_group, ends, ended, switches, some, writes_tail};
    ghost use Rattle.store_laws.specs.Stands.{HasSpelling};
    ghost use Rattle.store_plan.specs.Fit.{EndsBy};
    ghost use Rattle.store_plan.specs.Plans.{state_with, waits, leaves_adding, leaves_calls, writes, with_tail};
    ghost use Rattle.store_laws.specs.declared.job.StoreCall.{StoreCall};
    ghost use Rattle.store_laws.specs.declared.job.Device.TheVariants.{Log};
    ghost use Rattle.disk_model.specs.declared.call.DeviceCall.TheVariants.{Write};

    /// Gives entries, which wait for a group. Error: want of memory.
    pub fn give(&mut self, alloc: Global, entries: Sequence<Bytes>) -> Result<(), AllocError>
        requires { AreEntries entries }
        ensures ok { OnOk result ((d : Devices) → state_with self.new d ≡ given entries (state_with self.old d)) }
        ensures err { OnErr result (self.new ≡ self.old) }
    {
        push_all(alloc, &mut self.waiting, entries)?;
        Ok(())
    }

    /// Lets only the first of the entries that wait stay.
    pub fn take_back(&mut self, count: usize)
        ensures { (d : Devices) → state_with self.new d ≡ waits (take count self.old.waiting) (state_with self.old d) }
    {
        self.waiting.truncate(count);
    }

    /// Asks for a switch to the next generation, with this snapshot. One that waits is forgotten.
    pub fn ask(&mut self, snapshot: Bytes)
        requires { length snapshot < 2 ^ 32 }
        ensures { (d : Devices) → state_with self.new d ≡ asked snapshot (state_with self.old d) }
    {
        self.asked = Some(snapshot);
    }

    /// Whether there is a device call to make.
    pub fn is_due<E: Stops>(&self) -> bool
        ensures { (d : Devices) → result ≡ is_due E.stops (state_with self.now d) }
    {
        !self.running.is_empty()
            || is_torn(self.even)
            || is_torn(self.odd)
            || self.torn
            || self.generation < u64::MAX && self.asked.is_some()
            || group_len::<E>(self.waiting.as_slice()) > 0
    }

    /// Begins the close of a slot. Error: want of memory.
    fn begin_close(&mut self, alloc: Global, odd: bool) -> Result<(), AllocError>
        ensures ok { OnOk result ((d : Devices) → state_with self.new d ≡ close_begins odd (state_with self.old d)) }
        ensures err { OnErr result (self.new ≡ self.old) }
    {
        let calls = close_job(alloc, odd)?;
        self.running = calls;
        self.ending = Ending::Closes(odd);
        self.adding = Sequence::new(alloc);
        Ok(())
    }

    /// Begins the repair of the log. Error: want of memory.
    fn begin_repair(&mut self, alloc: Global) -> Result<(), AllocError>
        ensures ok { OnOk result ((d : Devices) → state_with self.new d ≡ repair_begins (state_with self.old d)) }
        ensures err { OnErr result (self.new ≡ self.old) }
    {
        let calls = repair_job(alloc, is_odd(self.generation), self.end)?;
        self.running = calls;
        self.ending = Ending::Repairs;
        self.adding = Sequence::new(alloc);
        Ok(())
    }

    /// Begins the switch that waits. Error: want of memory.
    fn begin_switch(&mut self, alloc: Global) -> Result<(), AllocError>
        requires more { self.old.generation < 2 ^ 64 - 1 }
        ensures ok { OnOk result ((d : Devices) (snapshot : List ℕ) → self.old.asked ≡ Some snapshot → state_with self.new d ≡ switch_begins snapshot (state_with self.old d)) }
        ensures err { OnErr result (self.new ≡ self.old) }
    {
        let Some(snapshot) = &self.asked else {
            return Ok(());
        };
        let mut text = Vec::new(alloc);
        put_checkpoint(&mut text, self.generation + 1, snapshot.as_slice())?;
        let odd = !is_odd(self.generation);
        let gate = if odd { self.odd } else { self.even };
        let calls = switch_job(alloc, odd, gate, Bytes::from_vec(text))?;
        self.running = calls;
        self.ending = Ending::Switches(0, 0);
        self.adding = Sequence::new(alloc);
        self.asked = None;
        Ok(())
    }

    /// Begins the group of the entries that wait, up to the first that ends a group, if there is one.
    /// Error: want of memory, also if the log would be longer than a log may be.
    fn begin_group<E: Stops>(&mut self, alloc: Global) -> Result<(), AllocError>
        ensures none { OnOk result (group_of E.stops self.old.waiting ≡ [] → self.new ≡ self.old) }
        ensures some { OnOk result ((d : Devices) (entry : List ℕ) (entries : List (List ℕ)) → group_of E.stops self.old.waiting ≡ entry ∷ entries
            → state_with self.new d ≡ group_begins (entry ∷ entries) (state_with self.old d)) }
        ensures spelled { OnOk result (IsGroup (group_of E.stops self.old.waiting)) }
        ensures err { OnErr result (self.new ≡ self.old) }
    {
        let count = group_len::<E>(self.waiting.as_slice());
        let body = body_of(alloc, &self.waiting.as_slice()[..count])?;
        if count == 0 {
            return Ok(());
        }
        let end = self.end + body.len() as u64;
        if end >= LIMIT {
            return Err(AllocError);
        }
        let calls = group_job(alloc, is_odd(self.generation), self.end, body)?;
        let adding = self.split(alloc, count)?;
        self.running = calls;
        self.ending = Ending::Adds(end);
        self.adding = adding;
        Ok(())
    }

    /// Takes the first entries out of those that wait. Error: want of memory.
    fn split(&mut self, alloc: Global, count: usize) -> Result<Sequence<Bytes>, AllocError>
        requires { count ≤ length self.old.waiting }
        ensures front { IfOk result (λ front. front ≡ take count self.old.waiting) }
        ensures rest { OnOk result ((d : Devices) → state_with self.new d ≡ waits (drop count self.old.waiting) (state_with self.old d)) }
        ensures err { OnErr result (self.new ≡ self.old) }
    {
        let mut items = mem::replace(&mut self.waiting, Sequence::new(alloc)).into_vec();
        match items.split_off(count) {
            Ok(rest) => {
                self.waiting = Sequence::from_vec(rest);
                Ok(Sequence::from_vec(items))
            }
            Err(wanted) => {
                self.waiting = Sequence::from_vec(items);
                Err(wanted)
            }
        }
    }

    /// Begins the first job that applies, if none runs. Error: want of memory.
    pub fn begin<E: Stops>(&mut self, alloc: Global) -> Result<(), AllocError>
        ensures ok { OnOk result ((d : Devices) → state_with self.new d ≡ begun E.stops (state_with self.old d)) }
        ensures spelled { OnOk result ((d : Devices) → some self.old.running ≡ false → HasSpelling (due_job E.stops (state_with self.old d))) }
        ensures err { OnErr result (self.new ≡ self.old) }
    {
        if !self.running.is_empty() {
            return Ok(());
        }
        if is_torn(self.even) {
            return self.begin_close(alloc, false);
        }
        if is_torn(self.odd) {
            return self.begin_close(alloc, true);
        }
        if self.torn {
            return self.begin_repair(alloc);
        }
        if self.generation < u64::MAX && self.asked.is_some() {
            return self.begin_switch(alloc);
        }
        self.begin_group::<E>(alloc)
    }

    /// Makes the plan ready for its next call, with the tail that this call writes if it writes one.
    /// If no job runs, the first that applies begins. Error: want of memory.
    pub fn ready<E: Stops>(&mut self, alloc: Global, tail: &Tail) -> Result<(), AllocError>
        requires { AreEntries tail.now.entries }
        ensures ok { OnOk result ((d : Devices) → state_with self.new d ≡ with_tail tail.now (begun E.stops (state_with self.old d)).running (begun E.stops (state_with self.old d))) }
        ensures spelled { OnOk result ((d : Devices) → some self.old.running ≡ false → HasSpelling (due_job E.stops (state_with self.old d))) }
        ensures fits { OnOk result (writes_tail self.old.running ≡ true → IsGroup tail.now.entries) }
        ensures there { OnOk result (writes_tail self.new.running ≡ false) }
        ensures err { OnErr result (self.new ≡ self.old) }
        ensures begins { OnErr result ((some self.old.running ≡ false) ⊎ (writes_tail self.old.running ≡ true)) }
    {
        if self.running.is_empty() {
            return self.begin::<E>(alloc);
        }
        if !self.wants_tail() {
            return Ok(());
        }
        let text = tail_text(alloc, tail.entries.as_slice())?;
        let end = text.len() as u64 - 1;
        self.put_tail(alloc, text, end, tail.made);
        Ok(())
    }

    /// Takes the first call off, and ends the job if it was the last. Tells whether no job runs then.
    pub fn advance(&mut self, alloc: Global) -> bool
        ensures next { (d : Devices) (call : StoreCall) (left : List StoreCall) → self.old.running ≡ call ∷ left → state_with self.new d ≡ ended left (leaves_calls left (state_with self.old d)) }
        ensures none { self.old.running ≡ [] → self.new ≡ self.old }
        ensures done { result ≡ not (some self.new.running) }
    {
        let mut calls = mem::replace(&mut self.running, Sequence::new(alloc)).into_vec();
        if calls.is_empty() {
            return true;
        }
        calls.remove(0);
        if calls.is_empty() {
            self.finish(alloc);
            return true;
        }
        self.running = Sequence::from_vec(calls);
        false
    }

    /// Whether the next call writes the tail.
    pub fn wants_tail(&self) -> bool
        ensures { result ≡ writes_tail self.now.running }
    {
        matches!(self.running.as_slice().first(), Some(StoreCall::WriteTail))
    }

    /// What the end of the job makes of the store, once no call of it is left.
    fn finish(&mut self, alloc: Global)
        requires idle { self.old.running ≡ [] }
        requires ends { EndsBy self.old.ending self.old.generation }
        ensures state { (d : Devices) → state_with self.new d ≡ ends self.old.ending (state_with self.old d) }
        ensures idle { self.new.running ≡ [] }
    {
        let added = self.adding.len() as u64;
        self.adding = Sequence::new(alloc);
        let ending = self.ending;
        match ending {
            Ending::Closes(odd) => {
                if odd {
                    self.odd = Gate::Closed;
                } else {
                    self.even = Gate::Closed;
                }
            }
            Ending::Repairs => self.torn = false,
            Ending::Adds(end) => {
                self.torn = false;
                self.end = end;
                self.firm = self.firm.saturating_add(added);
            }
            Ending::Switches(end, made) => self.switched(alloc, end, made),
        }
    }

    /// Puts the write of the tail in the place of the first call.
    fn put_tail(&mut self, alloc: Global, text: Bytes, end: u64, made: u64)
        requires wants { writes_tail self.old.running ≡ true }
        requires near { end < 2 ^ 63 }
        ensures { (d : Devices) (left : List StoreCall) → self.old.running ≡ StoreCall.WriteTail ∷ left
            → state_with self.new d ≡ writes (StoreCall.On (Log (not (side (state_with self.old d)))) (Write 0 text) ∷ left) (Ending.Switches end made) (state_with self.old d) }
    {
        let device = Device::Log(!is_odd(self.generation));
        let mut calls = mem::replace(&mut self.running, Sequence::new(alloc)).into_vec();
        calls[0] = StoreCall::On(device, DeviceCall::Write(0, text));
        self.running = Sequence::from_vec(calls);
        self.ending = Ending::Switches(end, made);
    }

    /// The end of a switch, but for the entries of a group.
    fn switched(&mut self, alloc: Global, end: u64, made: u64)
        requires near { end < 2 ^ 63 }
        requires more { self.old.generation < 2 ^ 64 - 1 }
        requires idle { self.old.running ≡ [] }
        ensures state { (d : Devices) → state_with self.new d ≡ leaves_adding self.old.adding (switches end made (state_with self.old d)) }
        ensures idle { self.new.running ≡ [] }
    {
        let firm = self.firm.max(self.restored.saturating_add(made));
        forget_first(alloc, &mut self.waiting, firm - self.firm);
        if is_odd(self.generation) {
            self.even = Gate::Open;
        } else {
            self.odd = Gate::Open;
        }
        self.torn = false;
        self.end = end;
        self.generation += 1;
        self.firm = firm;
    }
}

/// Whether a gate has to be closed.
fn is_torn(gate: Gate) -> bool
    ensures { result ≡ is_torn gate }
{
    matches!(gate, Gate::Torn)
}

/// The number of entries before the first that ends a group.
fn group_len<E: Stops>(entries: &[Bytes]) -> usize
    ensures few { result ≤ length entries.now }
    ensures front { take result entries.now ≡ group_of E.stops entries.now }
{
    for i in 0..entries.len() {
        if E::stops(entries[i].as_slice()) {
            return i;
        }
    }
    entries.len()
}

/// Lets the first entries go. It takes no memory.
#[tactic(auto, using(crate::proofs::Lists::forgets_all, crate::proofs::Lists::forgets_some))]
fn forget_first(alloc: Global, entries: &mut Sequence<Bytes>, count: u64)
    ensures { entries.new ≡ drop count entries.old }
{
    let mut items = mem::replace(entries, Sequence::new(alloc)).into_vec();
    let len = items.len();
    if count >= len as u64 {
        return;
    }
    let count = count as usize;
    items.rotate_left(count);
    items.truncate(len - count);
    *entries = Sequence::from_vec(items);
}
