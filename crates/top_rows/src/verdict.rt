//! How an audit ends: its exit status, what it wrote, and what it said.
use crate::fault::RowFault;
use crate::steps::bytes_of;
use smart_io::memory::{MemSink, MemSource};
use smart_top::audit::audit;
use smart_top::report::report;
use std::alloc::{AllocError, Global};
use std::fmt::Write;

/// How an audit ended, in one line: its exit status, what it wrote, and what it said; `-` for nothing.
#[derive(Drop)]
pub struct Verdict {
    pub text: String,
}

/// Adds bytes that were written, behind a space. Error: want of memory.
fn put_bytes(text: &mut String, bytes: &[u8]) -> Result<(), AllocError> {
    if bytes.is_empty() {
        text.push_str(" -")?;
        return Ok(());
    }
    let escaped = bytes.escape_ascii();
    write!(text, " {escaped}")
}

/// Audits bytes.
pub fn verdict_of(alloc: Global, bytes: &[u8]) -> Result<Verdict, RowFault> {
    let bytes = Vec::from_slice(alloc, bytes)?;
    let mut input = MemSource::new(bytes, Vec::new(alloc));
    let mut output = MemSink::new(Vec::new(alloc), Vec::new(alloc));
    let mut errors = MemSink::new(Vec::new(alloc), Vec::new(alloc));
    let status = audit(alloc, &mut input, &mut output);
    report(alloc, &mut errors, status);
    let code = status.code();
    let mut text = String::new(alloc);
    write!(&mut text, "{code}")?;
    put_bytes(&mut text, output.bytes.as_slice())?;
    put_bytes(&mut text, errors.bytes.as_slice())?;
    Ok(Verdict { text })
}

/// Audits the bytes of a word, and says how that ends.
pub fn say_whole(rt: &HostRuntime, word: &str) -> Result<(), RowFault> {
    let bytes = bytes_of(rt.alloc(), word)?;
    let Verdict { text } = verdict_of(rt.alloc(), bytes.as_slice())?;
    println!(rt; "{text}")?;
    Ok(())
}
