//! The bytes of a script, taken in pieces. Each line is played when it ends, and what it tells is
//! written at once.
ghost use Rattle.std.specs.Prelude.{◌≡◌, ◌≤◌, ◌++◌, [], ◌∷◌, List, ℕ, None, IfOk, IfErr, OnOk, OnErr, IsErrOf, Option, take};
ghost use Rattle.std.specs.Io.KnownBytes.{Appends};
ghost use Rattle.faults.specs.Counts.{Rose, HasCause, HasWant};
ghost use Rattle.script_play.specs.Apps.{core_courses};
ghost use Rattle.world_rules.specs.Texts.{text_of};
ghost use Rattle.smart_top.specs.Feeds.{HasTaken, Halted};

use faults::Fault;
use script_play::script::Script;
use smart_base::limits::LINE_BYTES;
use smart_base::sequence::{Bytes, Sequence};
use smart_io::stream::{Sink, write_all};
use std::alloc::{AllocError, Global};
use world_rules::line::OutLine;
use world_text::text::out_text;

/// The reason for which the taking of bytes stopped.
#[derive(Clone, Copy, Debug, PartialEq, Eq)]
pub enum Halt {
    /// A line was refused.
    Refused,
    /// The output failed.
    WriteFault,
    /// The output wanted memory.
    SinkMemory,
    /// Want of memory.
    NoMemory,
}

impl From<AllocError> for Halt {
    ghost use Rattle.std.specs.Prelude.{◌≡◌};
    ghost use Rattle.smart_top.specs.declared.reader.Halt.TheVariants.{NoMemory};

    ghost from_gives = { λ _ e. e ≡ NoMemory };

    fn from(_: AllocError) -> Halt {
        Halt::NoMemory
    }
}

/// A script, and the line that has begun.
pub struct Reader {
    pub alloc: Global,
    pub script: Script,
    pub line: Bytes,
}

impl Drop for Reader {
    fn drop(self) {
        let Reader {
            alloc: _,
            script: _,
            line: _,
        } = self;
    }
}

/// Writes all bytes, and flushes them.
pub fn write_whole<O: Sink>(output: &mut O, bytes: &[u8]) -> Result<(), Fault>
    ensures ok { OnOk result (Appends (O.written output.old) (O.written output.new) bytes.now) }
    ensures err { OnErr result ((count : ℕ) × Appends (O.written output.old) (O.written output.new) (take count bytes.now)) }
    ensures cause { HasCause (O.faults output.old) (O.faults output.new) result }
    ensures want { HasWant (O.wants output.old) (O.wants output.new) result }
{
    match write_all(output, bytes) {
        Ok(()) => output.flush(),
        Err(fault) => Err(fault),
    }
}

/// Writes the text of lines, and flushes it.
pub fn write_lines<O: Sink>(alloc: Global, output: &mut O, lines: &[OutLine]) -> Result<(), Halt>
    ensures ok { OnOk result (Appends (O.written output.old) (O.written output.new) (text_of lines.now)) }
    ensures err { OnErr result ((count : ℕ) × Appends (O.written output.old) (O.written output.new) (take count (text_of lines.now))) }
    ensures memory { IsErrOf result Halt.NoMemory → O.written output.new ≡ O.written output.old }
    ensures refused { IsErrOf result Halt.Refused → ⊥ }
    ensures write { IsErrOf result Halt.WriteFault → Rose (O.faults output.old) (O.faults output.new) }
    ensures want { IsErrOf result Halt.SinkMemory → Rose (O.wants output.old) (O.wants output.new) }
    ensures later { (O.faults output.old ≤ O.faults output.new) × (O.wants output.old ≤ O.wants output.new) }
{
    if lines.is_empty() {
        return Ok(());
    }
    let text = out_text(alloc, lines)?;
    match write_whole(output, text.as_bytes()) {
        Ok(()) => Ok(()),
        Err(Fault::Failed) => Err(Halt::WriteFault),
        Err(Fault::NoMemory) => Err(Halt::SinkMemory),
    }
}

/// Ends the line that has begun: plays it, and writes what it tells.
pub fn end_line<O: Sink>(reader: &mut Reader, output: &mut O) -> Result<(), Halt>
    requires { reader.old.script.refused ≡ None }
    ensures ok { OnOk result ((bytes : List ℕ) (written : Option (List ℕ)) → HasTaken core_courses bytes written (O.written output.old) reader.old.line reader.old.script → HasTaken core_courses (bytes ++ 10 ∷ []) written (O.written output.new) reader.new.line reader.new.script) }
    ensures going { OnOk result (reader.new.script.refused ≡ None) }
    ensures halted { IfErr result (λ halt. (bytes : List ℕ) (written : Option (List ℕ)) → HasTaken core_courses bytes written (O.written output.old) reader.old.line reader.old.script → Halted core_courses bytes (10 ∷ []) written (O.written output.new) reader.new.script halt) }
    ensures write { IsErrOf result Halt.WriteFault → Rose (O.faults output.old) (O.faults output.new) }
    ensures want { IsErrOf result Halt.SinkMemory → Rose (O.wants output.old) (O.wants output.new) }
    ensures later { (O.faults output.old ≤ O.faults output.new) × (O.wants output.old ≤ O.wants output.new) }
{
    let told = reader.script.take_line(reader.line.as_slice())?;
    if let Err(halt) = write_lines(reader.alloc, output, told.as_slice()) {
        return Err(halt);
    }
    if reader.script.refused().is_some() {
        return Err(Halt::Refused);
    }
    reader.line.truncate(0);
    Ok(())
}

/// Takes a byte. A line feed ends the line; any other byte is added to it. A line that becomes too
/// long is refused at once, as what follows changes nothing.
pub fn take_byte<O: Sink>(reader: &mut Reader, output: &mut O, byte: u8) -> Result<(), Halt>
    requires { reader.old.script.refused ≡ None }
    ensures ok { OnOk result ((bytes : List ℕ) (written : Option (List ℕ)) → HasTaken core_courses bytes written (O.written output.old) reader.old.line reader.old.script → HasTaken core_courses (bytes ++ byte ∷ []) written (O.written output.new) reader.new.line reader.new.script) }
    ensures going { OnOk result (reader.new.script.refused ≡ None) }
    ensures halted { IfErr result (λ halt. (bytes : List ℕ) (written : Option (List ℕ)) → HasTaken core_courses bytes written (O.written output.old) reader.old.line reader.old.script → Halted core_courses bytes (byte ∷ []) written (O.written output.new) reader.new.script halt) }
    ensures write { IsErrOf result Halt.WriteFault → Rose (O.faults output.old) (O.faults output.new) }
    ensures want { IsErrOf result Halt.SinkMemory → Rose (O.wants output.old) (O.wants output.new) }
    ensures later { (O.faults output.old ≤ O.faults output.new) × (O.wants output.old ≤ O.wants output.new) }
{
    if byte == b'\n' {
        return end_line(reader, output);
    }
    reader.line.push(byte)?;
    if reader.line.len() > LINE_BYTES {
        let told = reader.script.take_line(reader.line.as_slice())?;
        if let Err(halt) = write_lines(reader.alloc, output, told.as_slice()) {
            return Err(halt);
        }
        return Err(Halt::Refused);
    }
    Ok(())
}

/// Takes the bytes of a piece, in order.
pub fn feed<O: Sink>(reader: &mut Reader, output: &mut O, piece: &[u8]) -> Result<(), Halt>
    requires { reader.old.script.refused ≡ None }
    ensures ok { OnOk result ((bytes : List ℕ) (written : Option (List ℕ)) → HasTaken core_courses bytes written (O.written output.old) reader.old.line reader.old.script → HasTaken core_courses (bytes ++ piece.now) written (O.written output.new) reader.new.line reader.new.script) }
    ensures going { OnOk result (reader.new.script.refused ≡ None) }
    ensures halted { IfErr result (λ halt. (bytes : List ℕ) (written : Option (List ℕ)) → HasTaken core_courses bytes written (O.written output.old) reader.old.line reader.old.script → Halted core_courses bytes piece.now written (O.written output.new) reader.new.script halt) }
    ensures write { IsErrOf result Halt.WriteFault → Rose (O.faults output.old) (O.faults output.new) }
    ensures want { IsErrOf result Halt.SinkMemory → Rose (O.wants output.old) (O.wants output.new) }
    ensures later { (O.faults output.old ≤ O.faults output.new) × (O.wants output.old ≤ O.wants output.new) }
{
    for byte in piece {
        if let Err(halt) = take_byte(reader, output, *byte) {
            return Err(halt);
        }
    }
    Ok(())
}
