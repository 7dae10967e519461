//! What a trail is written into, and the rooms that keep trails.
ghost use Rattle.std.specs.Prelude.{◌≡◌, ◌≤◌, ℕ, List, Option, Some, None, IfOk, OnErr, IfSome, IsErrOf, IsSome};
ghost use Rattle.faults.specs.Counts.{HasCause, Rose};
ghost use Rattle.disk_model.specs.Rooms.{Address, address, KeepsOthers};
ghost use Rattle.node_rooms.specs.Texts.{IsEmpty};

use faults::Fault;
use smart_base::name::MemberId;
use smart_io::memory::MemSink;
use smart_io::standard::StdSink;
use smart_io::stream::Sink;
use std::alloc::Global;
use std::io::Write;

/// A sink of a trail. It tells its failures, so that a room can count them.
pub trait TrailSink: Sink {
    fn fault_count(&self) -> u64
        ensures { result ≡ Self.faults self.now };
}

impl TrailSink for MemSink {
    fn fault_count(&self) -> u64 {
        self.faults
    }
}

impl<W: Write> TrailSink for StdSink<W> {
    fn fault_count(&self) -> u64 {
        self.faults
    }
}

/// A room of trails. An address is a directory and a member; the device is 0.
pub trait TrailRoom {
    type Sink: TrailSink;

    /// The text of the trail that is kept at an address, where the room tells.
    ghost kept: { Self → Address → Option (List ℕ) };

    /// The number of a sink's failures when it was taken, if it is taken.
    ghost taken: { Self → Address → Option ℕ };

    /// The number of failures of the room and of the sinks that it gave.
    ghost faults: { Self → ℕ };

    /// Takes an empty sink for an address. A trail that was kept there is lost. Errors: `Failed` if the
    /// sink is taken already or the room fails; want of memory.
    fn get(&mut self, alloc: Global, dir: &[u8], member: MemberId) -> Result<Self::Sink, Fault>
        ensures empty { IfOk result (λ sink. IsEmpty (Self.Sink.written sink)) }
        ensures free { IfOk result (λ sink. taken self.old (address dir.now member 0) ≡ None) }
        ensures not_twice { IsSome (taken self.old (address dir.now member 0)) → IsErrOf result Fault.Failed }
        ensures taken { IfOk result (λ sink. taken self.new (address dir.now member 0) ≡ Some (Self.Sink.faults sink)) }
        ensures refused { OnErr result ((taken self.new ≡ taken self.old) × (kept self.new ≡ kept self.old)) }
        ensures others { KeepsOthers (address dir.now member 0) (kept self.old) (kept self.new) }
        ensures others_taken { KeepsOthers (address dir.now member 0) (taken self.old) (taken self.new) }
        ensures cause { HasCause (faults self.old) (faults self.new) result };

    /// Keeps a taken sink at its address. If the sink has failed since it was taken, the room counts
    /// that, and nothing else. It takes no memory.
    fn keep(&mut self, dir: &[u8], member: MemberId, sink: Self::Sink)
        requires { IsSome (taken self.old (address dir.now member 0)) }
        ensures text { IfSome (Self.Sink.written sink) (λ text. kept self.new (address dir.now member 0) ≡ Some text) }
        ensures back { taken self.new (address dir.now member 0) ≡ None }
        ensures others { KeepsOthers (address dir.now member 0) (kept self.old) (kept self.new) }
        ensures others_taken { KeepsOthers (address dir.now member 0) (taken self.old) (taken self.new) }
        ensures later { faults self.old ≤ faults self.new }
        ensures rose { (before : ℕ) → taken self.old (address dir.now member 0) ≡ Some before → Rose before (Self.Sink.faults sink) → Rose (faults self.old) (faults self.new) }
        ensures steady { (before : ℕ) → taken self.old (address dir.now member 0) ≡ Some before → (Rose before (Self.Sink.faults sink) → ⊥) → faults self.new ≡ faults self.old };
}
