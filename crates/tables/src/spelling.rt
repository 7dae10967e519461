//! What is read of bytes: where they are faulty, or whether what they are is spelled as they are.
use crate::fault::RowFault;
use smart_base::cursor::Cursor;
use smart_base::fault::ReadError;
use smart_messages::codec::{decode, encode};
use smart_messages::message::Message;
use smart_messages::regency::ViewInfo;
use smart_statements::signed::Signed;
use std::alloc::Global;
use vote_book::codec::{decode_entry, encode_entry};
use vote_book::entry::LogEntry;

fn told_offset(alloc: Global, at: usize) -> Result<String, RowFault> {
    Ok(format!(in alloc; "{at}")?)
}

/// The offset of the first fault.
fn told_fault(alloc: Global, error: ReadError) -> Result<String, RowFault> {
    match error {
        ReadError::NoMemory => Err(RowFault::NoMemory),
        ReadError::Unread { at } => told_offset(alloc, at),
    }
}

/// Whether the spelling is the bytes that were read.
fn told_spelling(alloc: Global, spelling: &[u8], bytes: &[u8]) -> Result<String, RowFault> {
    let told = if spelling == bytes {
        "fine"
    } else {
        "otherwise"
    };
    Ok(String::from_str(alloc, told)?)
}

fn message_again(alloc: Global, message: &Message, bytes: &[u8]) -> Result<String, RowFault> {
    let spelling = encode(alloc, message)?;
    told_spelling(alloc, spelling.as_slice(), bytes)
}

/// What `decode` and `encode` make of bytes.
pub fn told_of_message(alloc: Global, bytes: &[u8]) -> Result<String, RowFault> {
    match decode(alloc, bytes) {
        Ok(message) => {
            let told = message_again(alloc, &message, bytes);
            drop(message);
            told
        }
        Err(error) => told_fault(alloc, error),
    }
}

fn entry_again(alloc: Global, entry: &LogEntry, bytes: &[u8]) -> Result<String, RowFault> {
    let spelling = encode_entry(alloc, entry)?;
    told_spelling(alloc, spelling.as_slice(), bytes)
}

/// What `decode_entry` and `encode_entry` make of bytes.
pub fn told_of_entry(alloc: Global, bytes: &[u8]) -> Result<String, RowFault> {
    match decode_entry(alloc, bytes) {
        Ok(entry) => {
            let told = entry_again(alloc, &entry, bytes);
            drop(entry);
            told
        }
        Err(error) => told_fault(alloc, error),
    }
}

fn view_again(alloc: Global, view: &Signed<ViewInfo>, bytes: &[u8]) -> Result<String, RowFault> {
    let mut spelling = Vec::new(alloc);
    view.put(&mut spelling)?;
    told_spelling(alloc, spelling.as_slice(), bytes)
}

/// What is read and spelled of a view that a member tells.
pub fn told_of_view(alloc: Global, bytes: &[u8]) -> Result<String, RowFault> {
    let mut cut = Cursor::new(bytes);
    match Signed::<ViewInfo>::read(alloc, &mut cut) {
        Ok(view) => {
            let told = if cut.is_done() {
                view_again(alloc, &view, bytes)
            } else {
                told_offset(alloc, cut.at())
            };
            drop(view);
            told
        }
        Err(error) => told_fault(alloc, error),
    }
}
