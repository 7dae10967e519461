//! Which entries a book admits.
use crate::fault::{RowFault, fault_of};
use smart_base::number::Place;
use std::alloc::Global;
use vote_book::book::Book;
use vote_book::codec::decode_entry;

/// A place in eight bytes.
fn place_of(bytes: &[u8]) -> Result<Place, RowFault> {
    let Some(bytes) = bytes.first_chunk::<8>() else {
        return Err(RowFault::Word);
    };
    let number = u64::from_be_bytes(*bytes);
    if number < 1 << 63 {
        Ok(Place::new(number))
    } else {
        Err(RowFault::Word)
    }
}

/// Pushes the entry of bytes. No bytes end what is restored.
fn push(alloc: Global, book: &mut Book, bytes: &[u8]) -> Result<(), RowFault> {
    if bytes.is_empty() {
        book.end_restored();
        return Ok(());
    }
    match decode_entry(alloc, bytes) {
        Ok(entry) => Ok(book.push(entry)?),
        Err(error) => Err(fault_of(error)),
    }
}

/// Whether a book admits the entry of bytes.
fn is_admitted(alloc: Global, book: &Book, bytes: &[u8]) -> Result<bool, RowFault> {
    match decode_entry(alloc, bytes) {
        Ok(entry) => {
            let admits = book.admits(&entry);
            drop(entry);
            Ok(admits)
        }
        Err(error) => Err(fault_of(error)),
    }
}

/// Whether a book admits the entry of bytes behind others.
fn admits_behind(
    alloc: Global,
    book: &mut Book,
    entries: &[Vec<u8>],
    bytes: &[u8],
) -> Result<bool, RowFault> {
    for entry in entries {
        push(alloc, book, entry.as_slice())?;
    }
    is_admitted(alloc, book, bytes)
}

fn is_admitted_from(
    alloc: Global,
    place: Place,
    entries: &[Vec<u8>],
    bytes: &[u8],
) -> Result<bool, RowFault> {
    let mut book = Book::begin(alloc, place);
    let admits = admits_behind(alloc, &mut book, entries, bytes);
    drop(book);
    admits
}

/// Whether a book that begins behind a place admits the entry of bytes behind others.
pub fn told_of_book(alloc: Global, heads: &[Vec<u8>], bytes: &[u8]) -> Result<String, RowFault> {
    let (place, entries) = heads.split_first().ok_or(RowFault::Word)?;
    let place = place_of(place.as_slice())?;
    let told = if is_admitted_from(alloc, place, entries, bytes)? {
        "admitted"
    } else {
        "refused"
    };
    Ok(String::from_str(alloc, told)?)
}
