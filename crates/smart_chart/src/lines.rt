//! The lines of a transcript, and which of them are shown.
ghost use Rattle.std.specs.Prelude.{◌≡◌, ◌≤◌, ◌<◌, ◌+◌, ◌-◌, ◌^◌, ◌==◌, ◌∷◌, ◌++◌, [], List, ℕ, length, map, take, drop, IfOk, OnOk, IfSome, string_bytes, if◌then◌else◌};
ghost use Rattle.smart_chart.specs.Transcripts.{printed, last_line, lines_from, lines_of, range_by, range_of, in_range};

use smart_base::decimal::number_of;
use std::alloc::{AllocError, Global};
use std::mem::replace;

/// The first and the last line that are shown, counted from 1.
#[derive(Clone, Copy, PartialEq, Eq)]
pub struct Range {
    pub from: u64,
    pub to: u64,
}

/// Lines that are read, and what was read of the next one.
struct Lines {
    done: Vec<String>,
    line: String,
}

impl Drop for Lines {
    fn drop(self) {
        let Lines { done: _, line: _ } = self;
    }
}

fn printed(byte: u8) -> char
    ensures value { result ≡ printed byte }
    ensures plain { result < 128 }
{
    if 32 <= byte && byte <= 126 {
        byte as char
    } else {
        '?'
    }
}

impl Lines {
    fn end_line(&mut self, alloc: Global) -> Result<(), AllocError>
        ensures done { OnOk result (map string_bytes self.new.done.items ≡ map string_bytes self.old.done.items ++ string_bytes self.old.line ∷ []) }
        ensures line { OnOk result (string_bytes self.new.line ≡ []) }
    {
        let line = replace(&mut self.line, String::new(alloc));
        self.done.push(line)?;
        Ok(())
    }

    fn take_byte(&mut self, alloc: Global, byte: u8) -> Result<(), AllocError>
        ensures { (rest : List ℕ) → OnOk result (map string_bytes self.new.done.items ++ lines_from (string_bytes self.new.line) rest ≡ map string_bytes self.old.done.items ++ lines_from (string_bytes self.old.line) (byte ∷ rest)) }
    {
        if byte == b'\n' {
            return self.end_line(alloc);
        }
        self.line.push(printed(byte))?;
        Ok(())
    }

    /// The lines, when all is read. The last may lack its line feed.
    fn finish(self) -> Result<Vec<String>, AllocError>
        ensures { IfOk result (λ lines. map string_bytes lines.items ≡ map string_bytes self.done.items ++ last_line (string_bytes self.line)) }
    {
        let Lines { mut done, line } = self;
        if !line.is_empty() {
            done.push(line)?;
        }
        Ok(done)
    }
}

/// The lines of bytes. A byte that does not print is `?` there.
pub fn lines_of(alloc: Global, bytes: &[u8]) -> Result<Vec<String>, AllocError>
    ensures { IfOk result (λ lines. map string_bytes lines.items ≡ lines_of bytes.now) }
{
    let mut lines = Lines {
        done: Vec::new(alloc),
        line: String::new(alloc),
    };
    for byte in bytes {
        lines.take_byte(alloc, *byte)?;
    }
    lines.finish()
}

fn range_by(from: Option<u64>, to: Option<u64>) -> Option<Range>
    ensures { result ≡ range_by from to }
{
    let (Some(from), Some(to)) = (from, to) else {
        return None;
    };
    if 1 <= from && from <= to && to - from < 1000 && to < 1 << 32 {
        Some(Range { from, to })
    } else {
        None
    }
}

/// The range that a program's words give: `FROM TO`, at most 1,000 lines. Without words it is the first 60.
pub fn range_of(words: &[String]) -> Option<Range>
    ensures value { result ≡ range_of (map string_bytes words.now) }
    ensures bounds { IfSome result (λ range. (1 ≤ range.from) × (range.from ≤ range.to) × (range.to - range.from < 1000) × (range.to < 2 ^ 32)) }
{
    match words {
        [] => Some(Range { from: 1, to: 60 }),
        [from, to] => range_by(number_of(from.as_bytes()), number_of(to.as_bytes())),
        _ => None,
    }
}

/// The lines before a range, and those of it.
pub fn parts_of(lines: &[String], range: Range) -> (&[String], &[String])
    requires some { 1 ≤ range.from }
    requires bounds { range.from ≤ range.to }
    requires few { range.to - range.from < 1000 }
    ensures value { map string_bytes result.1.now ≡ in_range range (map string_bytes lines.now) }
    ensures few { length result.1.now ≤ 1000 }
{
    let before = lines.len().min((range.from - 1) as usize);
    let (before, rest) = lines.split_at(before);
    let count = rest.len().min((range.to - range.from + 1) as usize);
    let (shown, _) = rest.split_at(count);
    (before, shown)
}
