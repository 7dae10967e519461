//! Snapshots of entries.
ghost use Rattle.std.specs.Prelude.{◌≡◌, ◌++◌, ◌≤◌, length, IfOk, OnOk};
ghost use Rattle.std.specs.List.{flat_map};
ghost use Rattle.smart_base.specs.Cuts.{Gives, GivesAll, Takes, IsBytes, times_at};
ghost use Rattle.smart_base.specs.Lists.{Each};
ghost use Rattle.app_kv.specs.Stores.{IsStore, IsEntry};
ghost use Rattle.app_kv.specs.Snapshots.{entry_text, store_text, key_at, value_at, entry_at, entry_count_at, store_at, read_store};

use crate::operation::{KEY_BYTES, VALUE_BYTES, is_key, is_value};
use crate::store::{ENTRIES, Entry};
use smart_base::cursor::Cursor;
use smart_base::fault::{ReadError, Unread};
use smart_base::field::{put_text, put_u16, take_text};
use smart_base::sequence::{Bytes, Sequence};
use std::alloc::{AllocError, Global};

#[tactic(auto, unfolding(smart_base::specs::Cuts::ranged))]
fn take_key(alloc: Global, cut: &mut Cursor<'_>) -> Result<Bytes, ReadError>
    ensures { Gives result cut.new (key_at cut.old) }
{
    let at = cut.at();
    let text = take_text(alloc, cut, KEY_BYTES)?;
    if is_key(text.as_slice()) {
        Ok(text)
    } else {
        Err(ReadError::Unread { at })
    }
}

#[tactic(auto, unfolding(smart_base::specs::Cuts::ranged))]
fn take_value(alloc: Global, cut: &mut Cursor<'_>) -> Result<Bytes, ReadError>
    ensures { Gives result cut.new (value_at cut.old) }
{
    let at = cut.at();
    let text = take_text(alloc, cut, VALUE_BYTES)?;
    if is_value(text.as_slice()) {
        Ok(text)
    } else {
        Err(ReadError::Unread { at })
    }
}

#[tactic(auto, unfolding(crate::specs::Snapshots::entry_at))]
fn take_entry(alloc: Global, cut: &mut Cursor<'_>) -> Result<Entry, ReadError>
    ensures { Gives result cut.new (entry_at cut.old) }
{
    let key = take_key(alloc, cut)?;
    let value = take_value(alloc, cut)?;
    Ok(Entry { key, value })
}

#[tactic(auto, unfolding(smart_base::specs::Cuts::ranged))]
fn take_count(cut: &mut Cursor<'_>) -> Result<u16, Unread>
    ensures { Takes result cut.new (entry_count_at cut.old) }
{
    let at = cut.at();
    let count = cut.take_u16()?;
    if count as usize <= ENTRIES {
        Ok(count)
    } else {
        Err(Unread { at })
    }
}

fn take_entries(
    alloc: Global,
    count: u16,
    cut: &mut Cursor<'_>,
) -> Result<Sequence<Entry>, ReadError>
    ensures { Gives result cut.new (times_at entry_at count cut.old) }
{
    let mut list = Sequence::new(alloc);
    for turn in 0..count {
        let entry = take_entry(alloc, cut)?;
        list.push(entry)?;
    }
    Ok(list)
}

#[tactic(auto, unfolding(crate::specs::Snapshots::store_at))]
fn take_store(alloc: Global, cut: &mut Cursor<'_>) -> Result<Sequence<Entry>, ReadError>
    ensures { Gives result cut.new (store_at cut.old) }
{
    let count = take_count(cut)?;
    take_entries(alloc, count, cut)
}

/// The entries that all of the bytes are, in the order in which they stand there.
#[tactic(auto, unfolding(smart_base::specs::Cuts::whole))]
pub fn read_store(alloc: Global, bytes: &[u8]) -> Result<Sequence<Entry>, ReadError>
    ensures exact { GivesAll result (read_store bytes.now) }
    ensures bytes { IsBytes bytes.now }
{
    let mut cut = Cursor::new(bytes);
    // That these are bytes is known of the cursor.
    let _all = cut.rest();
    let entries = take_store(alloc, &mut cut)?;
    if !cut.is_done() {
        return Err(ReadError::Unread { at: cut.at() });
    }
    Ok(entries)
}

#[tactic(auto, unfolding(crate::specs::Snapshots::entry_text))]
fn put_entry(out: &mut Vec<u8>, entry: &Entry) -> Result<(), AllocError>
    requires { IsEntry entry.now }
    ensures { OnOk result (out.new.items ≡ out.old.items ++ entry_text entry.now) }
{
    put_text(out, entry.key.as_slice())?;
    put_text(out, entry.value.as_slice())?;
    Ok(())
}

fn put_entries(out: &mut Vec<u8>, entries: &[Entry]) -> Result<(), AllocError>
    requires { Each IsEntry entries.now }
    ensures { OnOk result (out.new.items ≡ out.old.items ++ flat_map entry_text entries.now) }
{
    for entry in entries {
        put_entry(out, entry)?;
    }
    Ok(())
}

/// How many bytes the snapshot of entries has: room that is made once. No promise rests on it.
pub fn room_of(entries: &[Entry]) -> usize {
    let mut room: usize = 2;
    for entry in entries {
        let held = entry.key.len().wrapping_add(entry.value.len());
        room = room.wrapping_add(held).wrapping_add(8);
    }
    room
}

/// Adds the bytes of entries.
pub fn put_store(out: &mut Vec<u8>, entries: &[Entry]) -> Result<(), AllocError>
    requires { IsStore entries.now }
    ensures { OnOk result (out.new.items ≡ out.old.items ++ store_text entries.now) }
{
    put_u16(out, entries.len() as u16)?;
    put_entries(out, entries)
}
