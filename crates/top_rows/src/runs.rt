//! What is said of a run.
use crate::fault::RowFault;
use crate::life::{Ending, say_waits};
use crate::steps::number_of;
use script_play::status::Status;
use smart_io::memory::MemSink;
use smart_top::report::report;
use std::alloc::{AllocError, Global};
use world_rules::message::Premise;

/// The most bytes of a text on standard error that are said. Of a longer one its last line is.
const MOST: usize = 100;

/// Bytes, where those that do not print are escaped; `-` for none.
fn shown(alloc: Global, bytes: &[u8]) -> Result<String, AllocError> {
    if bytes.is_empty() {
        return String::from_str(alloc, "-");
    }
    let escaped = bytes.escape_ascii();
    format!(in alloc; "{escaped}")
}

/// A text, or behind two dots the last line of a long one.
fn shortened(alloc: Global, text: &[u8]) -> Result<String, AllocError> {
    if text.len() <= MOST {
        return shown(alloc, text);
    }
    let last = text.split_inclusive(|byte| *byte == b'\n').last();
    let escaped = last.unwrap_or(text).escape_ascii();
    format!(in alloc; "..{escaped}")
}

/// Says a status, and what was said of it.
fn say_end(rt: &HostRuntime, status: Status, said: &[u8]) -> Result<(), RowFault> {
    let code = status.code();
    let text = shortened(rt.alloc(), said)?;
    println!(rt; "status {code} {text}")?;
    if status == Status::TrailFault {
        println!(rt; "a trail failed")?;
    }
    Ok(())
}

/// Says how a run has ended, and all that it has written.
pub fn say_run(rt: &HostRuntime, ending: &Ending) -> Result<(), RowFault> {
    say_end(rt, ending.status, ending.said.as_slice())?;
    let written = shown(rt.alloc(), ending.written.as_slice())?;
    println!(rt; "written {written}")?;
    say_waits(rt, ending)?;
    if let Some(all_wrote) = ending.all_wrote {
        println!(rt; "all members were about to write: {all_wrote}")?;
    }
    Ok(())
}

/// The status that words name.
fn status_of(words: &str) -> Result<Status, RowFault> {
    let (name, line) = words.split_once(' ').unwrap_or((words, ""));
    match name {
        "memory" => Ok(Status::NoMemory),
        "collision" => Ok(Status::Premise {
            line: number_of(line)?,
            which: Premise::Collision,
        }),
        _ => Err(RowFault::Word),
    }
}

/// Says the status that words name, and what is said of it.
pub fn say_status(rt: &HostRuntime, words: &str) -> Result<(), RowFault> {
    let alloc = rt.alloc();
    let status = status_of(words)?;
    let mut errors = MemSink::new(Vec::new(alloc), Vec::new(alloc));
    report(alloc, &mut errors, status);
    say_end(rt, status, errors.bytes.as_slice())
}
