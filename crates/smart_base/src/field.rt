//! The fields that many formats have, as they are read and written.
ghost use Rattle.std.specs.Prelude.{◌≡◌, ◌<◌, ◌≤◌, ◌^◌, ◌++◌, length, IfOk, OnOk, OnErr};
ghost use Rattle.std.specs.Int.{w16, w32};
ghost use Rattle.smart_base.specs.Cuts.{IsBytes, Gives, Takes};
ghost use Rattle.smart_base.specs.Spelling.{u8, u16, u32, u64, behind, Extends};
ghost use Rattle.smart_base.specs.Fields.{kind_at, same_at, count_at, items_at, digest_at, tag_at, text_to, payload_at};

use crate::bytes::{Digest32, Payload, Tag};
use crate::cursor::Cursor;
use crate::fault::{ReadError, Unread};
use crate::limits::{PAYLOAD_BYTES, TAG_BYTES};
use crate::sequence::Bytes;
use std::alloc::{AllocError, Global};

/// The bytes that are left, copied.
pub fn copied(alloc: Global, cut: &Cursor<'_>) -> Result<Bytes, AllocError>
    ensures value { IfOk result (λ bytes. bytes ≡ cut.now.left) }
    ensures bytes { IsBytes cut.now.left }
{
    Bytes::from_slice(alloc, cut.rest())
}

/// A byte that has to be this one.
#[tactic(auto, unfolding(crate::specs::Cuts::ranged))]
pub fn take_kind(cut: &mut Cursor<'_>, kind: u8) -> Result<u8, Unread>
    ensures byte { Takes result cut.new (kind_at kind cut.old) }
    ensures unchanged { OnErr result (cut.new ≡ cut.old) }
{
    let mut ahead = cut.ahead();
    let found = ahead.take_u8()?;
    if found == kind {
        *cut = ahead;
        Ok(found)
    } else {
        Err(Unread { at: cut.at() })
    }
}

/// A number that has to be this one.
#[tactic(auto, unfolding(crate::specs::Cuts::ranged))]
pub fn take_same(cut: &mut Cursor<'_>, number: u16) -> Result<u16, Unread>
    ensures number { Takes result cut.new (same_at number cut.old) }
    ensures unchanged { OnErr result (cut.new ≡ cut.old) }
{
    let mut ahead = cut.ahead();
    let found = ahead.take_u16()?;
    if found == number {
        *cut = ahead;
        Ok(found)
    } else {
        Err(Unread { at: cut.at() })
    }
}

/// A place or a request's number: from 1 to 2^63-1.
#[tactic(auto, unfolding(crate::specs::Cuts::ranged))]
pub fn take_count(cut: &mut Cursor<'_>) -> Result<u64, Unread>
    ensures number { Takes result cut.new (count_at cut.old) }
    ensures some { IfOk result (λ n. 0 < n) }
    ensures small { IfOk result (λ n. n < 2 ^ 63) }
    ensures unchanged { OnErr result (cut.new ≡ cut.old) }
{
    let mut ahead = cut.ahead();
    let found = ahead.take_u64()?;
    if 0 < found && found < 1 << 63 {
        *cut = ahead;
        Ok(found)
    } else {
        Err(Unread { at: cut.at() })
    }
}

/// How many items a list has, from 1 to the most that it may have.
#[tactic(auto, unfolding(crate::specs::Cuts::ranged))]
pub fn take_items(cut: &mut Cursor<'_>, most: u16) -> Result<u16, Unread>
    ensures number { Takes result cut.new (items_at most cut.old) }
    ensures some { IfOk result (λ n. 0 < n) }
    ensures few { IfOk result (λ n. n ≤ most) }
    ensures unchanged { OnErr result (cut.new ≡ cut.old) }
{
    let mut ahead = cut.ahead();
    let found = ahead.take_u16()?;
    if 0 < found && found <= most {
        *cut = ahead;
        Ok(found)
    } else {
        Err(Unread { at: cut.at() })
    }
}

/// A digest of 32 bytes.
#[tactic(auto, unfolding(crate::specs::Cuts::contents))]
pub fn take_digest(cut: &mut Cursor<'_>) -> Result<Digest32, Unread>
    ensures digest { Takes result cut.new (digest_at cut.old) }
    ensures unchanged { OnErr result (cut.new ≡ cut.old) }
{
    let field = cut.fixed(32)?;
    let mut bytes = [0; 32];
    bytes.copy_from_slice(field.rest());
    Ok(Digest32::new(bytes))
}

/// A tag behind its length.
#[tactic(auto, unfolding(crate::specs::Cuts::contents, crate::specs::Cuts::text_at, crate::specs::Cuts::ranged))]
pub fn take_tag(alloc: Global, cut: &mut Cursor<'_>) -> Result<Tag, ReadError>
    ensures tag { Gives result cut.new (tag_at cut.old) }
    ensures unchanged { OnErr result (cut.new ≡ cut.old) }
{
    let mut ahead = cut.ahead();
    let count = ahead.take_u16()? as usize;
    if count == 0 || TAG_BYTES < count || ahead.rest().len() < count {
        return Err(ReadError::Unread { at: cut.at() });
    }
    let field = ahead.fixed(count)?;
    let tag = copied(alloc, &field)?;
    *cut = ahead;
    Ok(Tag::new(tag))
}

/// A text of at most so many bytes behind its length.
#[tactic(auto, unfolding(crate::specs::Cuts::contents, crate::specs::Cuts::text_at, crate::specs::Cuts::ranged))]
pub fn take_text(alloc: Global, cut: &mut Cursor<'_>, most: usize) -> Result<Bytes, ReadError>
    ensures text { Gives result cut.new (text_to most cut.old) }
    ensures short { IfOk result (λ text. length text ≤ most) }
    ensures unchanged { OnErr result (cut.new ≡ cut.old) }
{
    let mut ahead = cut.ahead();
    let count = ahead.take_u32()? as usize;
    if most < count || ahead.rest().len() < count {
        return Err(ReadError::Unread { at: cut.at() });
    }
    let field = ahead.fixed(count)?;
    let text = copied(alloc, &field)?;
    *cut = ahead;
    Ok(text)
}

/// An operation or a reply behind its length.
pub fn take_payload(alloc: Global, cut: &mut Cursor<'_>) -> Result<Payload, ReadError>
    ensures payload { Gives result cut.new (payload_at cut.old) }
    ensures unchanged { OnErr result (cut.new ≡ cut.old) }
{
    Ok(Payload::new(take_text(alloc, cut, PAYLOAD_BYTES)?))
}

/// Adds a byte.
pub fn put_u8(out: &mut Vec<u8>, number: u8) -> Result<(), AllocError>
    ensures text { OnOk result (out.new.items ≡ out.old.items ++ u8 number) }
    ensures err { OnErr result (out.new.items ≡ out.old.items) }
{
    out.extend_from_slice(&number.to_be_bytes())?;
    Ok(())
}

/// Adds a number of 16 bits.
pub fn put_u16(out: &mut Vec<u8>, number: u16) -> Result<(), AllocError>
    ensures text { OnOk result (out.new.items ≡ out.old.items ++ u16 number) }
    ensures err { OnErr result (out.new.items ≡ out.old.items) }
{
    out.extend_from_slice(&number.to_be_bytes())?;
    Ok(())
}

/// Adds a number of 32 bits.
pub fn put_u32(out: &mut Vec<u8>, number: u32) -> Result<(), AllocError>
    ensures text { OnOk result (out.new.items ≡ out.old.items ++ u32 number) }
    ensures err { OnErr result (out.new.items ≡ out.old.items) }
{
    out.extend_from_slice(&number.to_be_bytes())?;
    Ok(())
}

/// Adds a number of 64 bits.
pub fn put_u64(out: &mut Vec<u8>, number: u64) -> Result<(), AllocError>
    ensures text { OnOk result (out.new.items ≡ out.old.items ++ u64 number) }
    ensures err { OnErr result (out.new.items ≡ out.old.items) }
{
    out.extend_from_slice(&number.to_be_bytes())?;
    Ok(())
}

/// Adds a text behind a length of 16 bits.
pub fn put_short(out: &mut Vec<u8>, text: &[u8]) -> Result<(), AllocError>
    requires { length text.now < 2 ^ 16 }
    ensures text { OnOk result (out.new.items ≡ out.old.items ++ behind w16 text.now) }
    ensures err { OnErr result (Extends out.old.items out.new.items) }
{
    out.extend_from_slice(&(text.len() as u16).to_be_bytes())?;
    out.extend_from_slice(text)?;
    Ok(())
}

/// Adds a text behind a length of 32 bits.
pub fn put_text(out: &mut Vec<u8>, text: &[u8]) -> Result<(), AllocError>
    requires { length text.now < 2 ^ 32 }
    ensures text { OnOk result (out.new.items ≡ out.old.items ++ behind w32 text.now) }
    ensures err { OnErr result (Extends out.old.items out.new.items) }
{
    out.extend_from_slice(&(text.len() as u32).to_be_bytes())?;
    out.extend_from_slice(text)?;
    Ok(())
}
