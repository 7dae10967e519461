//! The bytes of views.
ghost use Rattle.std.specs.Prelude.{◌≡◌, ◌++◌, nat_lt, true, IfOk, OnOk, OnErr, Ok};
ghost use Rattle.std.specs.List.{flat_map};
ghost use Rattle.std.specs.Int.{w16};
ghost use Rattle.smart_base.specs.Cuts.{Cut, IsBytes, Gives, Takes, ranged, number_at};
ghost use Rattle.smart_base.specs.Spelling.{u16, Spelled, Extends};
ghost use Rattle.smart_base.specs.Views.{View, is_view};
ghost use Rattle.smart_base.specs.ViewBytes.{view_text, view_number_at, first_place_at, faulty_at, member_count_at, members_at, view_at};

use crate::cursor::Cursor;
use crate::fault::{ReadError, Unread};
use crate::field::{put_u8, put_u16, put_u32, put_u64};
use crate::limits::{FAULTY, LAST_VIEW, MEMBERS};
use crate::name::MemberId;
use crate::number::ViewNo;
use crate::sequence::Sequence;
use crate::view::View;
use std::alloc::{AllocError, Global};

#[tactic(auto, unfolding(crate::specs::Cuts::ranged))]
fn take_view_number(cut: &mut Cursor<'_>) -> Result<u32, Unread>
    ensures { Takes result cut.new (view_number_at cut.old) }
{
    let at = cut.at();
    let found = cut.take_u32()?;
    if found <= LAST_VIEW {
        Ok(found)
    } else {
        Err(Unread { at })
    }
}

#[tactic(auto, unfolding(crate::specs::Cuts::ranged))]
fn take_start(cut: &mut Cursor<'_>) -> Result<u64, Unread>
    ensures { Takes result cut.new (first_place_at cut.old) }
{
    let at = cut.at();
    let found = cut.take_u64()?;
    if 1 <= found && found <= 1 << 63 {
        Ok(found)
    } else {
        Err(Unread { at })
    }
}

#[tactic(auto, unfolding(crate::specs::Cuts::ranged))]
fn take_faulty(cut: &mut Cursor<'_>) -> Result<u8, Unread>
    ensures { Takes result cut.new (faulty_at cut.old) }
{
    let at = cut.at();
    let found = cut.take_u8()?;
    if found <= FAULTY {
        Ok(found)
    } else {
        Err(Unread { at })
    }
}

#[tactic(auto, unfolding(crate::specs::Cuts::ranged))]
fn take_member_count(cut: &mut Cursor<'_>, f: u8) -> Result<u16, Unread>
    ensures { Takes result cut.new (member_count_at f cut.old) }
{
    let at = cut.at();
    let found = cut.take_u16()?;
    if 3 * f as usize + 1 <= found as usize && found as usize <= MEMBERS {
        Ok(found)
    } else {
        Err(Unread { at })
    }
}

#[tactic(auto, unfolding(crate::specs::Cuts::ranged))]
fn take_above(cut: &mut Cursor<'_>, last: u16) -> Result<u16, Unread>
    ensures { Takes result cut.new (ranged (λ m. nat_lt last m) (number_at w16) cut.old) }
{
    let at = cut.at();
    let found = cut.take_u16()?;
    if last < found {
        Ok(found)
    } else {
        Err(Unread { at })
    }
}

fn take_members(
    alloc: Global,
    count: u16,
    cut: &mut Cursor<'_>,
) -> Result<Sequence<MemberId>, ReadError>
    ensures { Gives result cut.new (members_at 0 count cut.old) }
{
    let mut list = Sequence::new(alloc);
    let mut last = 0;
    for turn in 0..count {
        let member = take_above(cut, last)?;
        list.push(MemberId::new(member))?;
        last = member;
    }
    Ok(list)
}

#[tactic(auto, unfolding(crate::specs::ViewBytes::view_at))]
fn take_view(alloc: Global, cut: &mut Cursor<'_>) -> Result<View, ReadError>
    ensures exact { Gives result cut.new (view_at cut.old) }
    ensures bytes { IsBytes cut.old.left }
{
    // That these are bytes is known of the cursor.
    let _all = cut.rest();
    let number = take_view_number(cut)?;
    let start = take_start(cut)?;
    let f = take_faulty(cut)?;
    let count = take_member_count(cut, f)?;
    let members = take_members(alloc, count, cut)?;
    Ok(View::new(ViewNo::new(number), start, f, members))
}

/// Reads a view.
pub fn read_view(alloc: Global, cut: &mut Cursor<'_>) -> Result<View, ReadError>
    // What is read is spelled so.
    ensures found { IfOk result (λ v. Spelled cut.old (view_text v) cut.new) }
    // What is spelled so is read, unless memory runs out.
    ensures only { (v : View) (d : Cut) → is_view v ≡ true → Spelled cut.old (view_text v) d → Gives result cut.new (Ok (v, d)) }
    // Else the offset of the first field that cannot be read or is out of its range.
    ensures exact { Gives result cut.new (view_at cut.old) }
    ensures unchanged { OnErr result (cut.new ≡ cut.old) }
{
    let mut ahead = cut.ahead();
    let view = take_view(alloc, &mut ahead)?;
    *cut = ahead;
    Ok(view)
}

fn put_members(out: &mut Vec<u8>, members: &[MemberId]) -> Result<(), AllocError>
    ensures text { OnOk result (out.new.items ≡ out.old.items ++ flat_map u16 members.now) }
    ensures err { OnErr result (Extends out.old.items out.new.items) }
{
    for member in members {
        put_u16(out, member.get())?;
    }
    Ok(())
}

/// Adds a view's bytes.
#[tactic(auto, unfolding(crate::specs::ViewBytes::view_text))]
pub fn put_view(out: &mut Vec<u8>, view: &View) -> Result<(), AllocError>
    ensures text { OnOk result (out.new.items ≡ out.old.items ++ view_text view.now) }
    ensures err { OnErr result (Extends out.old.items out.new.items) }
{
    let members = view.members();
    put_u32(out, view.number().get())?;
    put_u64(out, view.start())?;
    put_u8(out, view.f())?;
    put_u16(out, members.len() as u16)?;
    put_members(out, members)?;
    Ok(())
}
