//! How a frame is written.
ghost use Rattle.std.specs.Prelude.{◌≡◌, ◌<◌, ◌^◌, ◌++◌, ℕ, length, take, OnOk, OnErr};
ghost use Rattle.std.specs.Io.KnownBytes.{Appends};
ghost use Rattle.faults.specs.Counts.{HasCause, HasWant};
ghost use Rattle.smart_base.specs.Spelling.{u32};
ghost use Rattle.frame_stream.specs.Frames.{framed};

use crate::frame::HEAD_BYTES;
use byteorder::{BigEndian, ByteOrder};
use faults::Fault;
use smart_io::stream::{Sink, write_all};

/// The bytes in which a length stands.
fn head(length: u32) -> [u8; HEAD_BYTES]
    ensures { result ≡ u32 length }
{
    let mut head = [0; HEAD_BYTES];
    BigEndian::write_u32(&mut head, length);
    head
}

/// Writes a frame with this payload. Errors: those of the sink; the first bytes of the frame are
/// written then.
pub fn write_frame<O: Sink>(sink: &mut O, payload: &[u8]) -> Result<(), Fault>
    requires { length payload.now < 2 ^ 32 }
    ensures ok { OnOk result (Appends (O.written sink.old) (O.written sink.new) (framed payload.now)) }
    ensures err { OnErr result ((count : ℕ) × Appends (O.written sink.old) (O.written sink.new) (take count (framed payload.now))) }
    ensures cause { HasCause (O.faults sink.old) (O.faults sink.new) result }
    ensures want { HasWant (O.wants sink.old) (O.wants sink.new) result }
{
    write_all(sink, &head(payload.len() as u32))?;
    write_all(sink, payload)
}
