//! The entries of a lane: bytes that a store takes.
ghost use Rattle.std.specs.Prelude.{◌≡◌, IfOk, IfSome};
ghost use Rattle.store_form.specs.Spelling.{IsEntry};
ghost use Rattle.vote_book.specs.Entries.{entry_text};

use smart_base::sequence::Bytes;
use std::alloc::{AllocError, Global};
use std::marker::Model;
use vote_book::codec::encode_entry;
use vote_book::entry::LogEntry;

/// The greatest length of an entry in bytes.
const ENTRY_BYTES: usize = 0xffff_ffff;

/// The bytes of an entry: fewer than 2^32.
pub struct EntryText {
    bytes: Bytes,
}

/// Let go by one call, so that no function that lets one go carries the whole of it.
impl Drop for EntryText {
    fn drop(self) {
        let EntryText { bytes: _ } = self;
    }
}

impl Model for EntryText {
    ghost use Rattle.std.specs.Prelude.{List, ℕ};
    ghost use Rattle.store_form.specs.Spelling.{IsEntry};

    ghost Value = { List ℕ };

    ghost view = { λ t. t.bytes };

    ghost invariant = { λ t. IsEntry t.bytes };
}

impl EntryText {
    /// The bytes of an entry. Error: want of memory, also for an entry that is too long for a store.
    pub fn of(alloc: Global, entry: &LogEntry) -> Result<EntryText, AllocError>
        ensures { IfOk result (λ text. text ≡ entry_text entry.now) }
    {
        let bytes = Bytes::from_vec(encode_entry(alloc, entry)?);
        match EntryText::checked(bytes) {
            Some(text) => Ok(text),
            None => Err(AllocError),
        }
    }

    /// Bytes as those of an entry, unless they are too many.
    pub fn checked(bytes: Bytes) -> Option<EntryText>
        ensures { IfSome result (λ text. text ≡ bytes) }
    {
        if bytes.len() > ENTRY_BYTES {
            return None;
        }
        Some(EntryText { bytes })
    }

    /// The bytes. It takes no memory.
    pub fn into_bytes(self) -> Bytes
        ensures value { result ≡ self }
        ensures short { IsEntry result }
    {
        let EntryText { bytes } = self;
        bytes
    }
}
