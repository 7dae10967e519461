//! What an input does, step by step.
use crate::fault::RowFault;
use hex::FromHexError;
use std::alloc::Global;

/// What an input waits for.
#[derive(Clone, Copy, Debug, PartialEq, Eq)]
pub enum Awaited {
    /// This place was delivered.
    Delivered(u64),
    /// So many frames were written.
    Written(u64),
    /// The file of its slot has the checkpoint of this generation.
    Switched(u64),
    /// The clock was looked at so often.
    Looked(u64),
    /// A group that decides a place was about to be written.
    Writing,
    /// The output has failed.
    Failed,
}

/// What an input does next.
#[derive(Drop)]
pub enum Step {
    /// It gives bytes.
    Bytes(Vec<u8>),
    /// It gives so many frames that mean nothing, one a millisecond.
    Frames(u64),
    /// The same until the member stops.
    Stop,
    /// So many milliseconds pass at once, and the member sees it.
    Time(u64),
    /// So many milliseconds pass at once, whether or not the member sees it.
    Later(u64),
    /// It waits.
    Wait(Awaited),
    /// It waits until the output has failed, which may fail now.
    Failure,
    /// It opens the gate for the groups.
    Open,
    /// It opens the gate behind a delivery.
    Free,
}

/// Adds the bytes of a part: hexadecimal digits, and behind an asterisk how often their bytes come.
fn add_part(alloc: Global, bytes: &mut Vec<u8>, part: &str) -> Result<(), RowFault> {
    let (digits, times) = part.split_once('*').unwrap_or((part, "1"));
    let piece = match hex::decode(alloc, digits) {
        Ok(piece) => piece,
        Err(FromHexError::OutOfMemory) => return Err(RowFault::NoMemory),
        Err(_) => return Err(RowFault::Word),
    };
    for _ in 0..number_of(times)? {
        bytes.extend_from_slice(piece.as_slice())?;
    }
    Ok(())
}

/// The bytes that a word spells, part by part between plus signs; none of `-`.
pub fn bytes_of(alloc: Global, word: &str) -> Result<Vec<u8>, RowFault> {
    let mut bytes = Vec::new(alloc);
    if word == "-" {
        return Ok(bytes);
    }
    for part in word.split('+') {
        add_part(alloc, &mut bytes, part)?;
    }
    Ok(bytes)
}

/// The number that a word is.
pub fn number_of(word: &str) -> Result<u64, RowFault> {
    word.parse::<u64>().ok().ok_or(RowFault::Word)
}

/// The number of a member that a word is, or how many there are.
pub fn member_of(word: &str) -> Result<u16, RowFault> {
    word.parse::<u16>().ok().ok_or(RowFault::Word)
}

/// What an option waits for.
fn awaited_of(name: &str, value: &str) -> Result<Awaited, RowFault> {
    match name {
        "delivered" => Ok(Awaited::Delivered(number_of(value)?)),
        "written" => Ok(Awaited::Written(number_of(value)?)),
        "switched" => Ok(Awaited::Switched(number_of(value)?)),
        "writing" => Ok(Awaited::Writing),
        _ => Err(RowFault::Word),
    }
}

/// The step that an option is.
pub fn step_of(alloc: Global, name: &str, value: &str) -> Result<Step, RowFault> {
    match name {
        "input" => Ok(Step::Bytes(bytes_of(alloc, value)?)),
        "pause" => Ok(Step::Frames(number_of(value)?)),
        "stopped" => Ok(Step::Stop),
        "time" => Ok(Step::Time(number_of(value)?)),
        "later" => Ok(Step::Later(number_of(value)?)),
        "failed" => Ok(Step::Failure),
        "go" => Ok(Step::Open),
        "free" => Ok(Step::Free),
        _ => Ok(Step::Wait(awaited_of(name, value)?)),
    }
}
