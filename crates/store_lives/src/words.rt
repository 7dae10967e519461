//! The words of a life: numbers and bytes, and what is told of either.
ghost use Rattle.std.specs.Prelude.{◌≡◌, ◌<◌, ◌^◌, length, IfOk};
ghost use Rattle.store_plan.specs.Fit.{AreEntries};

use book_tail::tail::cut_texts;
use hex::FromHexError;
use smart_base::fault::ReadError;
use smart_base::number::Place;
use smart_base::sequence::{Bytes, Sequence};
use std::alloc::{AllocError, Global};
use std::io;
use store_form::ends::LogFault;
use store_laws::job::Tail;
use vote_book::codec::decode_entry;
use vote_book::entry::LogEntry;

/// A line that cannot be played.
pub fn no_step(why: &str) -> io::Error {
    io::Error::new(io::ErrorKind::InvalidData, why)
}

/// A number in decimal digits.
pub fn number_of(word: &str) -> io::Result<u64> {
    word.parse::<u64>().ok().ok_or(no_step("no number"))
}

/// The bytes of hexadecimal digits; none for `-`.
pub fn bytes_of(alloc: Global, word: &str) -> io::Result<Bytes>
    ensures { IfOk result (λ bytes. length bytes < 2 ^ 32) }
{
    let digits = if word == "-" { "" } else { word };
    match hex::decode(alloc, digits) {
        Ok(bytes) if bytes.len() < 1 << 32 => Ok(Bytes::from_vec(bytes)),
        Err(FromHexError::OutOfMemory) => Err(AllocError.into()),
        _ => Err(no_step("no bytes")),
    }
}

/// The bytes of each word.
pub fn entries_of(alloc: Global, words: &str) -> io::Result<Sequence<Bytes>>
    ensures { IfOk result (λ entries. AreEntries entries) }
{
    let mut entries = Vec::new(alloc);
    for word in words.split_whitespace() {
        entries.push(bytes_of(alloc, word)?)?;
    }
    Ok(Sequence::from_vec(entries))
}

/// The entry of a book that a word is.
fn entry_of(alloc: Global, word: &str) -> io::Result<LogEntry> {
    let bytes = bytes_of(alloc, word)?;
    match decode_entry(alloc, bytes.as_slice()) {
        Ok(entry) => Ok(entry),
        Err(ReadError::NoMemory) => Err(AllocError.into()),
        Err(ReadError::Unread { .. }) => Err(no_step("no entry")),
    }
}

/// What is kept of a book beside a checkpoint: a place, and the book's entries.
fn cut_of(alloc: Global, words: &str) -> io::Result<Sequence<Bytes>>
    ensures { IfOk result (λ entries. AreEntries entries) }
{
    let (place, words) = words.split_once(' ').unwrap_or((words, ""));
    let place = number_of(place)?;
    if 1 << 63 <= place {
        return Err(no_step("no place"));
    }
    let mut book = Vec::new(alloc);
    for word in words.split_whitespace() {
        book.push(entry_of(alloc, word)?)?;
    }
    Ok(cut_texts(alloc, book.as_slice(), Place::new(place))?)
}

/// A tail: the number of its last entry that was made, and its entries, or the book of which they are
/// the cut. No word is a tail of none.
pub fn tail_of(alloc: Global, words: &str) -> io::Result<Tail>
    ensures { IfOk result (λ tail. AreEntries tail.entries) }
{
    let (made, entries) = words.split_once(' ').unwrap_or((words, ""));
    let made = if made.is_empty() { 0 } else { number_of(made)? };
    let entries = match entries.strip_prefix("cut ") {
        Some(book) => cut_of(alloc, book)?,
        None => entries_of(alloc, entries)?,
    };
    Ok(Tail { made, entries })
}

/// Adds a space and the digits of bytes.
pub fn spell(alloc: Global, told: &mut String, bytes: &[u8]) -> io::Result<()> {
    let digits = hex::encode(alloc, bytes)?;
    told.push_str(if bytes.is_empty() { " -" } else { " " })?;
    told.push_str(digits.as_str())?;
    Ok(())
}

/// The word for a fault.
pub fn word_of(fault: LogFault) -> &'static str {
    match fault {
        LogFault::Disk { closed: false } => "failed",
        LogFault::Disk { closed: true } => "closed",
        LogFault::NoMemory => "no memory",
    }
}

/// The word for what a call answers.
pub fn answer_of(answer: Result<(), LogFault>) -> &'static str {
    match answer {
        Ok(()) => "ok",
        Err(fault) => word_of(fault),
    }
}
