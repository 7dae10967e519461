//! Groups of entries.
ghost use Rattle.std.specs.Prelude.{◌≡◌, ◌<◌, ◌^◌, ◌++◌, length, IfOk, OnOk, OnErr};
ghost use Rattle.std.specs.Int.{w32, w64};
ghost use Rattle.std.specs.List.{flat_map};
ghost use Rattle.smart_base.specs.Lists.{Each};
ghost use Rattle.smart_base.specs.Cuts.{Gives, Takes, text_at, times_at, anything};
ghost use Rattle.smart_base.specs.Spelling.{behind, Extends};
ghost use Rattle.store_form.specs.Spelling.{IsEntry, IsGroup, payload, group_text};
ghost use Rattle.store_form.specs.Reading.{entry_at, payload_at, group_at};

use smart_base::cursor::Cursor;
use smart_base::fault::{ReadError, Unread};
use smart_base::field::{copied, put_text, put_u64};
use smart_base::sequence::{Bytes, Sequence};
use std::alloc::{AllocError, Global};

/// Reads an entry after its length. Errors: a field that is none; want of memory.
#[tactic(auto, unfolding(smart_base::specs::Cuts::contents))]
pub fn take_entry(alloc: Global, cut: &mut Cursor<'_>) -> Result<Bytes, ReadError>
    ensures exact { Gives result cut.new (entry_at cut.old) }
    ensures unchanged { OnErr result (cut.new ≡ cut.old) }
{
    let mut ahead = cut.ahead();
    let field = ahead.take_bytes()?;
    let entry = copied(alloc, &field)?;
    *cut = ahead;
    Ok(entry)
}

fn take_entries(
    alloc: Global,
    count: u64,
    cut: &mut Cursor<'_>,
) -> Result<Sequence<Bytes>, ReadError>
    ensures { Gives result cut.new (times_at entry_at count cut.old) }
{
    let mut list = Sequence::new(alloc);
    for turn in 0..count {
        let entry = take_entry(alloc, cut)?;
        list.push(entry)?;
    }
    Ok(list)
}

#[tactic(auto, unfolding(crate::specs::Reading::payload_at))]
fn take_payload(alloc: Global, cut: &mut Cursor<'_>) -> Result<Sequence<Bytes>, ReadError>
    ensures { Gives result cut.new (payload_at cut.old) }
{
    let count = cut.take_u64()?;
    take_entries(alloc, count, cut)
}

/// Reads a length of 64 bits and that many bytes. The fault is at the length.
#[tactic(auto, unfolding(smart_base::specs::Cuts::text_at, smart_base::specs::Cuts::ranged))]
fn take_field<'a>(cut: &mut Cursor<'a>) -> Result<Cursor<'a>, Unread>
    ensures { Takes result cut.new (text_at w64 anything cut.old) }
{
    let at = cut.at();
    let count = cut.take_u64()?;
    if (cut.rest().len() as u64) < count {
        return Err(Unread { at });
    }
    let field = cut.fixed(count as usize)?;
    Ok(field)
}

/// Reads the entries of a group after its gate. Errors: a field that is none; want of memory.
#[tactic(auto, unfolding(crate::specs::Reading::group_at, smart_base::specs::Cuts::whole))]
pub fn take_group(alloc: Global, cut: &mut Cursor<'_>) -> Result<Sequence<Bytes>, ReadError>
    ensures exact { Gives result cut.new (group_at cut.old) }
    ensures unchanged { OnErr result (cut.new ≡ cut.old) }
{
    let mut ahead = cut.ahead();
    let mut field = take_field(&mut ahead)?;
    let entries = take_payload(alloc, &mut field)?;
    if !field.is_done() {
        return Err(ReadError::Unread { at: field.at() });
    }
    *cut = ahead;
    Ok(entries)
}

fn put_entries(out: &mut Vec<u8>, entries: &[Bytes]) -> Result<(), AllocError>
    requires { Each IsEntry entries.now }
    ensures { OnOk result (out.new.items ≡ out.old.items ++ flat_map (λ entry. behind w32 entry) entries.now) }
{
    for entry in entries {
        put_text(out, entry.as_slice())?;
    }
    Ok(())
}

#[tactic(auto, unfolding(crate::specs::Spelling::payload))]
fn payload_of(alloc: Global, entries: &[Bytes]) -> Result<Vec<u8>, AllocError>
    requires { Each IsEntry entries.now }
    ensures { IfOk result (λ text. text.items ≡ payload entries.now) }
{
    let mut text = Vec::new(alloc);
    put_u64(&mut text, entries.len() as u64)?;
    put_entries(&mut text, entries)?;
    Ok(text)
}

/// Adds the bytes after the gate of a group with these entries. Error: want of memory.
#[tactic(auto, unfolding(crate::specs::Spelling::group_text))]
pub fn put_group(alloc: Global, out: &mut Vec<u8>, entries: &[Bytes]) -> Result<(), AllocError>
    requires { Each IsEntry entries.now }
    ensures text { OnOk result (out.new.items ≡ out.old.items ++ group_text entries.now) }
    ensures fits { OnOk result (IsGroup entries.now) }
    ensures err { OnErr result (Extends out.old.items out.new.items) }
{
    // That the number of entries fits 64 bits is known of its type.
    let _count = entries.len();
    let text = payload_of(alloc, entries)?;
    put_u64(out, text.len() as u64)?;
    out.extend_from_slice(&text)?;
    Ok(())
}
