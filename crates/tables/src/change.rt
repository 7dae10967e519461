//! The changes by which one row stands for many cases.
use crate::fault::RowFault;
use crate::names::number_of;
use std::alloc::{AllocError, Global};

/// The numbers from the first to the last.
#[derive(Clone, Copy)]
pub struct Span {
    pub first: usize,
    pub last: usize,
}

/// What becomes of the bytes of a row.
#[derive(Clone, Copy)]
pub enum Change {
    /// Their fronts of these lengths.
    Fronts(Span),
    /// A byte at each of these offsets has each of these values.
    Bytes { offsets: Span, values: Span },
}

/// A number, or two with a hyphen between them.
fn span_of(word: &str) -> Result<Span, RowFault> {
    let (first, last) = word.split_once('-').unwrap_or((word, word));
    Ok(Span {
        first: number_of(first)?,
        last: number_of(last)?,
    })
}

fn bytes_change(word: &str) -> Result<Change, RowFault> {
    let (offsets, values) = word.split_once(':').ok_or(RowFault::Word)?;
    Ok(Change::Bytes {
        offsets: span_of(offsets)?,
        values: span_of(values)?,
    })
}

/// The change of a word: `/3-5` are fronts of 3 to 5 bytes, and `@7:0-2` sets the byte at offset 7
/// to 0, 1 and 2.
pub fn change_of(word: &str) -> Result<Change, RowFault> {
    if let Some(lengths) = word.strip_prefix('/') {
        return Ok(Change::Fronts(span_of(lengths)?));
    }
    bytes_change(word.strip_prefix('@').ok_or(RowFault::Word)?)
}

/// The first bytes, so many or all.
pub fn front_of(alloc: Global, bytes: &[u8], len: usize) -> Result<Vec<u8>, AllocError> {
    let mut front = Vec::from_slice(alloc, bytes)?;
    front.truncate(len);
    Ok(front)
}

/// The bytes with another value at an offset.
pub fn bytes_with(
    alloc: Global,
    bytes: &[u8],
    offset: usize,
    value: usize,
) -> Result<Vec<u8>, AllocError> {
    let mut changed = Vec::from_slice(alloc, bytes)?;
    if let Some(byte) = changed.get_mut(offset) {
        *byte = (value % 256) as u8;
    }
    Ok(changed)
}
