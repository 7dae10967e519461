//! The top call.
ghost use Rattle.std.specs.Prelude.{◌≡◌, ◌↔◌, ◌≤◌, ◌<◌, ◌-◌, ◌^◌, Some, None, IfOk, IfSome, List, ℕ, Option, map, string_bytes, OnOk, IsErrOf};
ghost use Rattle.faults.specs.Counts.{Rose};
ghost use Rattle.smart_chart.specs.Transcripts.{range_of};
ghost use Rattle.smart_chart.specs.Runs.{IsPicture, HasDrawn, code_of};

use crate::chart::{height_of, shapes_of};
use crate::lines::{Range, lines_of, parts_of, range_of};
use crate::picture::picture_text;
use crate::reading::read_all;
use faults::Fault;
use smart_io::stream::{Sink, Source, write_all};
use std::alloc::{AllocError, Global};

/// How a run ends.
#[derive(Clone, Copy, Debug, PartialEq, Eq)]
pub enum Status {
    /// The picture is written.
    Ok,
    /// The words are no range of lines.
    Words,
    /// The input failed.
    ReadFault,
    /// The output failed.
    WriteFault,
    /// Memory ran out.
    NoMemory,
}

impl Status {
    /// The exit status of the program.
    pub fn code(self) -> u8
        ensures { result ≡ code_of self }
    {
        match self {
            Status::Ok => 0,
            Status::Words => 2,
            Status::ReadFault => 3,
            Status::WriteFault => 3,
            Status::NoMemory => 11,
        }
    }
}

/// What is said of a status on standard error.
pub fn said(status: Status) -> &'static str {
    match status {
        Status::Ok => "",
        Status::Words => "smart_chart: bad words\n",
        Status::ReadFault => "smart_chart: read fault\n",
        Status::WriteFault => "smart_chart: write fault\n",
        Status::NoMemory => "smart_chart: no memory\n",
    }
}

/// The picture of a range of a transcript's lines.
#[tactic(auto, using(crate::proofs::Drawn::is_picture))]
fn picture_of(alloc: Global, bytes: &[u8], range: Range) -> Result<String, AllocError>
    requires some { 1 ≤ range.from }
    requires bounds { range.from ≤ range.to }
    requires few { range.to - range.from < 1000 }
    requires below { range.to < 2 ^ 32 }
    ensures { IfOk result (λ text. IsPicture range bytes.now (string_bytes text)) }
{
    let lines = lines_of(alloc, bytes)?;
    let (before, shown) = parts_of(lines.as_slice(), range);
    let shapes = shapes_of(alloc, lines.as_slice(), before, shown)?;
    let height = height_of(shown.len());
    let text = picture_text(alloc, height, range.from, shown, shapes.as_slice())?;
    Ok(text)
}

/// Draws the input's lines of a range.
#[tactic(auto, using(crate::proofs::Drawn::has_drawn))]
fn draw<I: Source, O: Sink>(
    alloc: Global,
    range: Range,
    input: &mut I,
    output: &mut O,
) -> Result<(), Status>
    requires some { 1 ≤ range.from }
    requires bounds { range.from ≤ range.to }
    requires few { range.to - range.from < 1000 }
    requires below { range.to < 2 ^ 32 }
    ensures drawn { OnOk result (HasDrawn range (I.left input.old) (I.left input.new) (O.written output.old) (O.written output.new)) }
    ensures read { IsErrOf result Status.ReadFault → Rose (I.faults input.old) (I.faults input.new) }
    ensures write { IsErrOf result Status.WriteFault → Rose (O.faults output.old) (O.faults output.new) }
    ensures other { (IsErrOf result Status.Ok → ⊥) × (IsErrOf result Status.Words → ⊥) }
{
    let bytes = read_all(alloc, input)?;
    let text = match picture_of(alloc, bytes.as_slice(), range) {
        Ok(text) => text,
        Err(_) => return Err(Status::NoMemory),
    };
    match write_all(output, text.as_bytes()) {
        Ok(()) => Ok(()),
        Err(Fault::Failed) => Err(Status::WriteFault),
        Err(Fault::NoMemory) => Err(Status::NoMemory),
    }
}

/// Runs the program: it reads a transcript and writes the picture of the lines that the words give.
pub fn run<I: Source, O: Sink>(
    alloc: Global,
    words: &[String],
    input: &mut I,
    output: &mut O,
) -> Status
    // The words are no range exactly where the status says so; nothing is read or written then.
    ensures words { (result ≡ Status.Words) ↔ (range_of (map string_bytes words.now) ≡ None) }
    ensures untouched { result ≡ Status.Words → (input.new ≡ input.old) × (output.new ≡ output.old) }
    // All of the input is read, and a picture of its lines in that range is written.
    ensures drawn { result ≡ Status.Ok → (range : Range) → range_of (map string_bytes words.now) ≡ Some range → HasDrawn range (I.left input.old) (I.left input.new) (O.written output.old) (O.written output.new) }
    // Faults come only where their count rose.
    ensures read { result ≡ Status.ReadFault → Rose (I.faults input.old) (I.faults input.new) }
    ensures write { result ≡ Status.WriteFault → Rose (O.faults output.old) (O.faults output.new) }
{
    let Some(range) = range_of(words) else {
        return Status::Words;
    };
    match draw(alloc, range, input, output) {
        Ok(()) => Status::Ok,
        Err(status) => status,
    }
}
