//! The line that is written for a reply which the client accepts.
ghost use Rattle.std.specs.Prelude.{◌≡◌, ◌≤◌, ℕ, take, Some, IfOk, OnOk, OnErr, IsErrOf};
ghost use Rattle.std.specs.Io.KnownBytes.{Appends};
ghost use Rattle.faults.specs.Counts.{Rose};
ghost use Rattle.group_client.specs.Lines.{accepted_by, reply_line, reply_lines};

use client_quorum::client::{Acceptance, Heard};
use faults::Fault;
use smart_base::sequence::Bytes;
use smart_io::stream::{Sink, write_all};
use std::alloc::{AllocError, Global};

/// Why a line was not written.
#[derive(Clone, Copy, Debug, PartialEq, Eq)]
pub enum LineFault {
    /// The sink has failed.
    Failed,
    /// The sink wants memory.
    SinkMemory,
    /// There was no memory for the line.
    NoMemory,
}

/// The line of an acceptance. Error: want of memory.
fn line_of(alloc: Global, acceptance: &Acceptance) -> Result<Bytes, AllocError>
    ensures { IfOk result (λ line. line ≡ reply_line acceptance.now) }
{
    let number = acceptance.request.seq;
    let mut line = Vec::new(alloc);
    line.extend_from_slice(b"reply ")?;
    line.extend_from_slice(number.to_string(alloc)?.as_bytes())?;
    line.push(b' ')?;
    line.extend_from_slice(acceptance.reply.as_slice())?;
    line.push(b'\n')?;
    Ok(Bytes::from_vec(line))
}

/// Writes all bytes, and flushes them. Errors: a failure of the sink; the sink wants memory. A front of them
/// is written then.
pub fn write_whole<W: Sink>(output: &mut W, bytes: &[u8]) -> Result<(), LineFault>
    ensures ok { OnOk result (Appends (W.written output.old) (W.written output.new) bytes.now) }
    ensures err { OnErr result ((count : ℕ) × Appends (W.written output.old) (W.written output.new) (take count bytes.now)) }
    ensures none { IsErrOf result LineFault.NoMemory → ⊥ }
    ensures failed { IsErrOf result LineFault.Failed → Rose (W.faults output.old) (W.faults output.new) }
    ensures want { IsErrOf result LineFault.SinkMemory → Rose (W.wants output.old) (W.wants output.new) }
    ensures later { (W.faults output.old ≤ W.faults output.new) × (W.wants output.old ≤ W.wants output.new) }
{
    if let Err(fault) = write_all(output, bytes) {
        return Err(fault_of(fault));
    }
    match output.flush() {
        Ok(()) => Ok(()),
        Err(fault) => Err(fault_of(fault)),
    }
}

/// A fault of a sink as one of a line.
fn fault_of(fault: Fault) -> LineFault
    ensures failed { result ≡ LineFault.Failed → fault ≡ Fault.Failed }
    ensures want { result ≡ LineFault.SinkMemory → fault ≡ Fault.NoMemory }
    ensures none { result ≡ LineFault.NoMemory → ⊥ }
{
    match fault {
        Fault::Failed => LineFault::Failed,
        Fault::NoMemory => LineFault::SinkMemory,
    }
}

/// Writes the line of an acceptance, and lets it go on. Errors: a failure of the sink; want of memory.
fn write_line<W: Sink>(
    alloc: Global,
    output: &mut W,
    acceptance: &Acceptance,
) -> Result<(), LineFault>
    ensures ok { OnOk result (Appends (W.written output.old) (W.written output.new) (reply_line acceptance.now)) }
    ensures err { OnErr result ((count : ℕ) × Appends (W.written output.old) (W.written output.new) (take count (reply_line acceptance.now))) }
    ensures none { IsErrOf result LineFault.NoMemory → W.written output.new ≡ W.written output.old }
    ensures failed { IsErrOf result LineFault.Failed → Rose (W.faults output.old) (W.faults output.new) }
    ensures want { IsErrOf result LineFault.SinkMemory → Rose (W.wants output.old) (W.wants output.new) }
    ensures later { (W.faults output.old ≤ W.faults output.new) × (W.wants output.old ≤ W.wants output.new) }
{
    let Ok(line) = line_of(alloc, acceptance) else {
        return Err(LineFault::NoMemory);
    };
    write_whole(output, line.as_slice())
}

/// Writes the line of what was accepted, if something was. Errors: a failure of the sink; want of memory. A
/// front of the line is written then, and nothing unless the sink has failed or wants memory.
pub fn write_reply<W: Sink>(alloc: Global, output: &mut W, heard: &Heard) -> Result<(), LineFault>
    ensures ok { OnOk result (Appends (W.written output.old) (W.written output.new) (reply_lines (accepted_by (Some heard.now)))) }
    ensures err { OnErr result ((count : ℕ) × Appends (W.written output.old) (W.written output.new) (take count (reply_lines (accepted_by (Some heard.now))))) }
    ensures none { IsErrOf result LineFault.NoMemory → W.written output.new ≡ W.written output.old }
    ensures failed { IsErrOf result LineFault.Failed → Rose (W.faults output.old) (W.faults output.new) }
    ensures want { IsErrOf result LineFault.SinkMemory → Rose (W.wants output.old) (W.wants output.new) }
    ensures later { (W.faults output.old ≤ W.faults output.new) × (W.wants output.old ≤ W.wants output.new) }
{
    match heard {
        Heard::Accepted(acceptance) => write_line(alloc, output, acceptance),
        Heard::Counted { have: _, need: _ } => Ok(()),
        Heard::Viewed { have: _, need: _ } => Ok(()),
        Heard::Moved(_) => Ok(()),
        Heard::Ignored(_) => Ok(()),
    }
}
