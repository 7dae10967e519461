//! The bytes of an event, and how they are written.
ghost use Rattle.std.specs.Prelude.{◌≡◌, ◌⊎◌, ◌≤◌, ◌<◌, ◌^◌, ℕ, true, take, length, IfOk, OnOk, OnErr, IsErrOf};
ghost use Rattle.std.specs.Io.KnownBytes.{Appends};
ghost use Rattle.faults.specs.Counts.{Rose};
ghost use Rattle.trail.specs.Events.{event_text};
ghost use Rattle.trail.specs.Trails.{part};

use faults::Fault;
use frame_stream::writing::write_frame;
use smart_base::sequence::Bytes;
use smart_io::stream::Sink;
use std::alloc::{AllocError, Global};
use trail::event::TrailEvent;
use trail::event_bytes::encode_event;

/// The bytes of an event, fewer than 2^32. Error: want of memory, also for an event with more.
pub(crate) fn short_text(alloc: Global, event: &TrailEvent) -> Result<Bytes, AllocError>
    ensures text { IfOk result (λ text. text ≡ event_text event.now) }
    ensures short { IfOk result (λ text. length text < 2 ^ 32) }
{
    let text = encode_event(alloc, event)?;
    if text.len() >= 1 << 32 {
        return Err(AllocError);
    }
    Ok(Bytes::from_vec(text))
}

/// Writes a part of a trail. Error: a failure of the sink, or a want of memory there; a front of the
/// part is written then. `failed` is set if the sink has failed.
pub(crate) fn write_part<O: Sink>(sink: &mut O, failed: &mut bool, text: &[u8]) -> Result<(), Fault>
    requires { length text.now < 2 ^ 32 }
    ensures ok { OnOk result (Appends (O.written sink.old) (O.written sink.new) (part text.now)) }
    ensures err { OnErr result ((count : ℕ) × Appends (O.written sink.old) (O.written sink.new) (take count (part text.now))) }
    ensures later { O.faults sink.old ≤ O.faults sink.new }
    ensures failed { failed.new ≡ true → (failed.old ≡ true) ⊎ Rose (O.faults sink.old) (O.faults sink.new) }
    ensures cause { IsErrOf result Fault.Failed → (failed.new ≡ true) × Rose (O.faults sink.old) (O.faults sink.new) }
{
    match write_frame(sink, text) {
        Ok(()) => Ok(()),
        Err(Fault::Failed) => {
            *failed = true;
            Err(Fault::Failed)
        }
        Err(Fault::NoMemory) => Err(Fault::NoMemory),
    }
}
