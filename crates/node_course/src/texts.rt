//! How the entries of an event go into the lane.
ghost use Rattle.std.specs.Prelude.{◌≡◌, ◌≤◌, ◌+◌, ◌++◌, length, map, drop, IfOk, OnOk, OnErr};
ghost use Rattle.vote_book.specs.Entries.{entry_text};
ghost use Rattle.log_lane.specs.Lane.{lane_put, lane_read, lane_capacity, lane_room, in_lane};

use log_lane::inward::LaneIn;
use log_worker::text::EntryText;
use std::alloc::{AllocError, Global};
use std::sync::Wait;
use vote_book::entry::LogEntry;

/// The entries of a book after the first ones.
fn behind(entries: &[LogEntry], count: u64) -> &[LogEntry]
    ensures { result.now ≡ drop count entries.now }
{
    let count = count as usize;
    if count >= entries.len() {
        return &[];
    }
    let (_, rest) = entries.split_at(count);
    rest
}

/// The bytes of entries, in order. Error: want of memory.
fn texts_of(alloc: Global, entries: &[LogEntry]) -> Result<Vec<EntryText>, AllocError>
    ensures { IfOk result (λ texts. texts.items ≡ map entry_text entries.now) }
{
    let mut texts = Vec::with_capacity(alloc, entries.len())?;
    for entry in entries {
        texts.push(EntryText::of(alloc, entry)?)?;
    }
    Ok(texts)
}

/// The bytes of the entries of a book after the first ones. Error: want of memory.
pub(crate) fn texts_behind(
    alloc: Global,
    entries: &[LogEntry],
    count: u64,
) -> Result<Vec<EntryText>, AllocError>
    ensures { IfOk result (λ texts. texts.items ≡ map entry_text (drop count entries.now)) }
{
    texts_of(alloc, behind(entries, count))
}

/// Puts entries into a lane that has room for them.
pub(crate) fn put_all<R: Wait>(rt: &R, lane: &mut LaneIn<EntryText>, texts: Vec<EntryText>)
    requires { length texts.items ≤ lane_room lane.old }
    ensures lane { in_lane lane.new ≡ in_lane lane.old }
    ensures put { lane_put lane.new ≡ lane_put lane.old ++ texts.items }
    ensures same { (lane_read lane.new ≡ lane_read lane.old) × (lane_capacity lane.new ≡ lane_capacity lane.old) }
{
    for text in texts {
        lane.put(rt, text);
    }
}
