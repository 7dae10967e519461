//! How a trail is written, part by part.
ghost use Rattle.std.specs.Prelude.{◌≡◌, ◌<◌, ◌^◌, ℕ, length, take, OnOk, OnErr};
ghost use Rattle.std.specs.Io.KnownBytes.{Appends};
ghost use Rattle.faults.specs.Counts.{HasCause};
ghost use Rattle.trail.specs.Events.{event_text};
ghost use Rattle.trail.specs.Openings.{opening_text};
ghost use Rattle.trail.specs.Trails.{part};

use crate::event::TrailEvent;
use crate::event_bytes::encode_event;
use crate::opening::TrailOpening;
use crate::opening_bytes::encode_opening;
use faults::Fault;
use frame_stream::writing::write_frame;
use smart_io::stream::Sink;
use std::alloc::Global;

/// Writes an event at the end of a trail. Errors: those of the sink; want of memory. So many first
/// bytes of the part are written then, or none.
pub fn write_event<O: Sink>(alloc: Global, sink: &mut O, event: &TrailEvent) -> Result<(), Fault>
    requires { length (event_text event.now) < 2 ^ 32 }
    ensures ok { OnOk result (Appends (O.written sink.old) (O.written sink.new) (part (event_text event.now))) }
    ensures err { OnErr result ((count : ℕ) × Appends (O.written sink.old) (O.written sink.new) (take count (part (event_text event.now)))) }
    ensures cause { HasCause (O.faults sink.old) (O.faults sink.new) result }
{
    let Ok(bytes) = encode_event(alloc, event) else {
        return Err(Fault::NoMemory);
    };
    write_frame(sink, bytes.as_slice())
}

/// Writes the opening of a trail. Errors: those of the sink; want of memory. So many first bytes of the
/// part are written then, or none.
pub fn write_opening<O: Sink>(
    alloc: Global,
    sink: &mut O,
    opening: &TrailOpening,
) -> Result<(), Fault>
    requires secret { length opening.now.secret < 2 ^ 32 }
    requires snapshot { length opening.now.snapshot < 2 ^ 32 }
    requires whole { length (opening_text opening.now) < 2 ^ 32 }
    ensures ok { OnOk result (Appends (O.written sink.old) (O.written sink.new) (part (opening_text opening.now))) }
    ensures err { OnErr result ((count : ℕ) × Appends (O.written sink.old) (O.written sink.new) (take count (part (opening_text opening.now)))) }
    ensures cause { HasCause (O.faults sink.old) (O.faults sink.new) result }
{
    let Ok(bytes) = encode_opening(alloc, opening) else {
        return Err(Fault::NoMemory);
    };
    write_frame(sink, bytes.as_slice())
}
