//! Trails in memory.
ghost use Rattle.std.specs.Prelude.{◌≡◌, ◌≤◌, ℕ, true, Some};
ghost use Rattle.faults.specs.Counts.{Rose};
ghost use Rattle.node_rooms.specs.Shelves.{taken_at, sink_at};
ghost use Rattle.node_rooms.specs.Texts.{text_of};

use crate::shelves::Shelves;
use crate::trails::TrailRoom;
use faults::Fault;
use smart_base::name::MemberId;
use smart_io::memory::MemSink;
use std::alloc::Global;

/// Whether a thing has failed since it was taken, with so many failures before and now.
pub(crate) fn has_failed(before: Option<u64>, now: u64) -> bool
    ensures failed { (n : ℕ) → before ≡ Some n → Rose n now → result ≡ true }
    ensures rose { (n : ℕ) → before ≡ Some n → result ≡ true → Rose n now }
{
    match before {
        Some(before) => before < now || now == u64::MAX,
        None => false,
    }
}

/// A room of trails in memory. It refuses what is taken, and the first calls if it is told to.
#[derive(Drop)]
pub struct MemTrails {
    shelves: Shelves,
    /// The number of calls of `get` that are still to fail.
    pub refusals: u64,
    /// The number of the call at which each sink fails, counted from 1; 0 for none.
    pub failing: u64,
    faults: u64,
}

impl MemTrails {
    ghost use Rattle.std.specs.Prelude.{◌≡◌, ◌≤◌, [], Some, IfOk, OnOk, OnErr};
    ghost use Rattle.std.specs.Option.{option_copied};
    ghost use Rattle.faults.specs.Counts.{Rose, HasCause};
    ghost use Rattle.disk_model.specs.Rooms.{address, KeepsOthers};
    ghost use Rattle.node_rooms.specs.Shelves.{taken_at, sink_at};
    ghost use Rattle.node_rooms.specs.Texts.{text_of};

    /// A room without trails.
    pub fn new(alloc: Global, refusals: u64, failing: u64) -> Self
        ensures shelves { result.shelves.list.items ≡ [] }
        ensures faults { result.faults ≡ 0 }
    {
        MemTrails {
            shelves: Shelves::new(alloc),
            refusals,
            failing,
            faults: 0,
        }
    }

    /// The number of refused sinks, and of those that came back after a failure.
    pub fn faults(&self) -> u64
        ensures { result ≡ self.now.faults }
    {
        self.faults
    }

    /// The text of a kept trail, if one is kept.
    pub fn text(&self, dir: &[u8], member: MemberId) -> Option<&[u8]>
        ensures { option_copied result ≡ text_of (sink_at self.now.shelves.list.items (address dir.now member 0)) }
    {
        match self.shelves.sink(dir, member, 0) {
            Some(sink) => Some(sink.bytes.as_slice()),
            None => None,
        }
    }

    /// Takes a new sink for an address from which none is taken.
    fn lend(&mut self, alloc: Global, dir: &[u8], member: MemberId) -> Result<MemSink, Fault>
        ensures empty { IfOk result (λ sink. sink.bytes.items ≡ []) }
        ensures taken { IfOk result (λ sink. taken_at self.new.shelves.list.items (address dir.now member 0) ≡ Some sink.faults) }
        ensures others { OnOk result (KeepsOthers (address dir.now member 0) (taken_at self.old.shelves.list.items) (taken_at self.new.shelves.list.items)) }
        ensures other_sinks { OnOk result (KeepsOthers (address dir.now member 0) (sink_at self.old.shelves.list.items) (sink_at self.new.shelves.list.items)) }
        ensures refused { OnErr result (self.new.shelves.list.items ≡ self.old.shelves.list.items) }
        ensures cause { HasCause self.old.faults self.new.faults result }
    {
        if self.refusals > 0 {
            self.refusals -= 1;
            return Err(self.fault());
        }
        let mut failing = Vec::new(alloc);
        if failing.push(self.failing).is_err() {
            return Err(Fault::NoMemory);
        }
        match self.shelves.lend(alloc, dir, member, 0, 0) {
            Ok(()) => Ok(MemSink::new(Vec::new(alloc), failing)),
            Err(_) => Err(Fault::NoMemory),
        }
    }

    /// Counts a failure.
    fn fault(&mut self) -> Fault
        ensures shelves { self.new.shelves ≡ self.old.shelves }
        ensures result { result ≡ Fault.Failed }
        ensures rose { Rose self.old.faults self.new.faults }
        ensures later { self.old.faults ≤ self.new.faults }
    {
        self.faults = self.faults.saturating_add(1);
        Fault::Failed
    }
}

impl TrailRoom for MemTrails {
    type Sink = MemSink;

    ghost kept = { λ room here. text_of (sink_at room.shelves.list.items here) };

    ghost taken = { λ room. taken_at room.shelves.list.items };

    ghost faults = { λ room. room.faults };

    fn get(&mut self, alloc: Global, dir: &[u8], member: MemberId) -> Result<MemSink, Fault> {
        match self.shelves.taken(dir, member, 0) {
            Some(_) => Err(self.fault()),
            None => self.lend(alloc, dir, member),
        }
    }

    fn keep(&mut self, dir: &[u8], member: MemberId, sink: MemSink) {
        let now = sink.faults;
        let before = self.shelves.taken(dir, member, 0);
        self.shelves.put_back(dir, member, 0, Some(sink));
        if has_failed(before, now) {
            self.faults = self.faults.saturating_add(1);
        }
    }
}
