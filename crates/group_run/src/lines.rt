//! The first line and the last one that the run of a group writes.
ghost use Rattle.std.specs.Prelude.{◌≡◌, ◌≤◌, ℕ, take, IfOk, OnOk, OnErr, IsErrOf};
ghost use Rattle.std.specs.Io.KnownBytes.{Appends};
ghost use Rattle.faults.specs.Counts.{Rose};
ghost use Rattle.group_run.specs.Lines.{group_line, coherent_line};

use group_client::reply_line::{LineFault, write_whole};
use smart_base::sequence::Bytes;
use smart_io::stream::Sink;
use std::alloc::{AllocError, Global};

/// The first line. Error: want of memory.
fn group_line(alloc: Global, members: u16, faulty: u8) -> Result<Bytes, AllocError>
    ensures { IfOk result (λ line. line ≡ group_line members faulty) }
{
    let mut line = Vec::new(alloc);
    line.extend_from_slice(b"group ")?;
    line.extend_from_slice(members.to_string(alloc)?.as_bytes())?;
    line.push(b' ')?;
    line.extend_from_slice(faulty.to_string(alloc)?.as_bytes())?;
    line.push(b'\n')?;
    Ok(Bytes::from_vec(line))
}

/// Writes the first line, and lets it go on. Errors: a failure of the sink; want of memory. A front of the
/// line is written then, and nothing unless the sink has failed or wants memory.
pub fn write_group<W: Sink>(
    alloc: Global,
    output: &mut W,
    members: u16,
    faulty: u8,
) -> Result<(), LineFault>
    ensures ok { OnOk result (Appends (W.written output.old) (W.written output.new) (group_line members faulty)) }
    ensures err { OnErr result ((count : ℕ) × Appends (W.written output.old) (W.written output.new) (take count (group_line members faulty))) }
    ensures none { IsErrOf result LineFault.NoMemory → W.written output.new ≡ W.written output.old }
    ensures failed { IsErrOf result LineFault.Failed → Rose (W.faults output.old) (W.faults output.new) }
    ensures want { IsErrOf result LineFault.SinkMemory → Rose (W.wants output.old) (W.wants output.new) }
    ensures later { (W.faults output.old ≤ W.faults output.new) × (W.wants output.old ≤ W.wants output.new) }
{
    let Ok(line) = group_line(alloc, members, faulty) else {
        return Err(LineFault::NoMemory);
    };
    write_whole(output, line.as_slice())
}

/// Writes the last line, and lets it go on. Errors: a failure of the sink; the sink wants memory. A front of
/// the line is written then.
pub fn write_coherent<W: Sink>(output: &mut W) -> Result<(), LineFault>
    ensures ok { OnOk result (Appends (W.written output.old) (W.written output.new) coherent_line) }
    ensures err { OnErr result ((count : ℕ) × Appends (W.written output.old) (W.written output.new) (take count coherent_line)) }
    ensures none { IsErrOf result LineFault.NoMemory → ⊥ }
    ensures failed { IsErrOf result LineFault.Failed → Rose (W.faults output.old) (W.faults output.new) }
    ensures want { IsErrOf result LineFault.SinkMemory → Rose (W.wants output.old) (W.wants output.new) }
    ensures later { (W.faults output.old ≤ W.faults output.new) × (W.wants output.old ≤ W.wants output.new) }
{
    write_whole(output, b"coherent\n")
}
