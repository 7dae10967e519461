//! What is said of how a run ended.
use script_play::status::Status;
use smart_io::stream::{Sink, write_all};
use std::alloc::{AllocError, Global};
use std::fmt::Write;
use world_rules::crash::NotAnImage;
use world_rules::line::Kind;
use world_rules::message::Premise;

fn kind_name(kind: Kind) -> &'static str {
    match kind {
        Kind::Empty => "Empty",
        Kind::Byte => "Byte",
        Kind::Long => "Long",
        Kind::Header => "Header",
        Kind::Word => "Word",
        Kind::Count => "Count",
        Kind::Number => "Number",
        Kind::Form => "Form",
        Kind::Refer => "Refer",
    }
}

/// Names the premise that does not hold; for a crash also the device and the byte that are wrong.
fn push_premise(text: &mut String, which: Premise) -> Result<(), AllocError> {
    match which {
        Premise::TooManyFaulty => text.push_str("TooManyFaulty")?,
        Premise::Forged => text.push_str("Forged")?,
        Premise::Collision => text.push_str("Collision")?,
        Premise::NotAnImage(NotAnImage { device, at }) => write!(text, "NotAnImage {device}@{at}")?,
    }
    Ok(())
}

/// The text of a status; empty for `Ok`.
fn text_of(alloc: Global, status: Status) -> Result<String, AllocError> {
    let mut text = String::new(alloc);
    match status {
        Status::Ok => {}
        Status::Words => text.push_str("smart: bad words\n")?,
        Status::Script { line, kind } => {
            let kind = kind_name(kind);
            write!(&mut text, "smart: line {line}: {kind}\n")?;
        }
        Status::Store { entry } => write!(&mut text, "smart: line {entry}: Store\n")?,
        Status::ReadFault => text.push_str("smart: read fault\n")?,
        Status::WriteFault | Status::TrailFault => text.push_str("smart: write fault\n")?,
        Status::DiskFault => text.push_str("smart: disk fault\n")?,
        Status::Premise { line, which } => {
            write!(&mut text, "smart: line {line}: premise ")?;
            push_premise(&mut text, which)?;
            text.push_str("\n")?;
        }
        Status::Limit { line } => write!(&mut text, "smart: line {line}: limit\n")?,
        Status::Differs { .. } => text.push_str("smart: differs\n")?,
        Status::GaveUp { .. } => text.push_str("smart: gave up\n")?,
        Status::NoMemory => text.push_str("smart: no memory\n")?,
    }
    Ok(text)
}

/// Writes to a sink how a run ended. A failure there changes nothing.
pub fn report<E: Sink>(alloc: Global, errors: &mut E, status: Status) {
    if let Ok(text) = text_of(alloc, status) {
        let _ = write_all(errors, text.as_bytes());
        let _ = errors.flush();
    }
}
