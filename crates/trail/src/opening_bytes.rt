//! The bytes of a trail's opening, and how openings are read.
ghost use Rattle.std.specs.Prelude.{◌≡◌, ◌<◌, ◌^◌, ◌++◌, ℕ, List, length, IfOk, OnOk, OnErr, Ok};
ghost use Rattle.smart_base.specs.Cuts.{Gives, GivesAll, Takes};
ghost use Rattle.smart_base.specs.Spelling.{Extends};
ghost use Rattle.trail.specs.Openings.{app_number, app_of, is_first, opening_text, FitsOpening, first_view_at, app_number_at, text_field_at, opening_at, opening_decoded};
ghost use Rattle.trail.specs.declared.opening.TrailOpening.{TrailOpening};

use crate::opening::{App, TrailOpening};
use smart_base::cursor::Cursor;
use smart_base::fault::{ReadError, Unread};
use smart_base::field::{copied, put_text, put_u8, put_u16, put_u32, put_u64, take_kind};
use smart_base::limits::LAST_PERIOD;
use smart_base::sequence::Bytes;
use smart_base::view::View;
use smart_base::view_bytes::{put_view, read_view};
use std::alloc::{AllocError, Global};

/// Whether this is a group's first view, and the period within its limits.
fn is_first(period: u32, view: &View) -> bool
    ensures { result ≡ is_first period view.now }
{
    view.number().get() == 0
        && view.start() == 1
        && view.members().len() <= period as usize
        && period <= LAST_PERIOD
}

#[tactic(auto, unfolding(smart_base::specs::Cuts::ranged))]
fn take_view(alloc: Global, period: u32, cut: &mut Cursor<'_>) -> Result<View, ReadError>
    ensures { Gives result cut.new (first_view_at period cut.old) }
{
    let at = cut.at();
    let view = read_view(alloc, cut)?;
    if is_first(period, &view) {
        Ok(view)
    } else {
        Err(ReadError::Unread { at })
    }
}

#[tactic(auto, unfolding(smart_base::specs::Cuts::ranged))]
fn take_app(cut: &mut Cursor<'_>) -> Result<u8, Unread>
    ensures { Takes result cut.new (app_number_at cut.old) }
{
    let at = cut.at();
    let found = cut.take_u8()?;
    if found <= 1 {
        Ok(found)
    } else {
        Err(Unread { at })
    }
}

#[tactic(auto, unfolding(smart_base::specs::Cuts::contents))]
fn take_text(alloc: Global, cut: &mut Cursor<'_>) -> Result<Bytes, ReadError>
    ensures { Gives result cut.new (text_field_at cut.old) }
{
    let field = cut.take_bytes()?;
    let text = copied(alloc, &field)?;
    Ok(text)
}

fn app_of(number: u8) -> App
    ensures { result ≡ app_of number }
{
    if number == 0 { App::Count } else { App::Kv }
}

#[tactic(auto, unfolding(crate::specs::Openings::opening_at))]
fn read_opening(alloc: Global, cut: &mut Cursor<'_>) -> Result<TrailOpening, ReadError>
    ensures { Gives result cut.new (opening_at cut.old) }
{
    take_kind(cut, 0)?;
    let member = cut.take_u16()?;
    let period = cut.take_u32()?;
    let view = take_view(alloc, period, cut)?;
    let app = take_app(cut)?;
    let secret = take_text(alloc, cut)?;
    let snapshot = take_text(alloc, cut)?;
    let entries = cut.take_u64()?;
    Ok(TrailOpening {
        member,
        period,
        view,
        app: app_of(app),
        secret,
        snapshot,
        entries,
    })
}

#[tactic(auto, unfolding(crate::specs::Openings::opening_decoded, smart_base::specs::Cuts::whole))]
fn read_all(alloc: Global, bytes: &[u8]) -> Result<TrailOpening, ReadError>
    ensures { GivesAll result (opening_decoded bytes.now) }
{
    let mut cut = Cursor::new(bytes);
    let opening = read_opening(alloc, &mut cut)?;
    if !cut.is_done() {
        return Err(ReadError::Unread { at: cut.at() });
    }
    Ok(opening)
}

/// The opening that these bytes are, all of them. Errors: the lowest offset of a field that is none, or
/// of a byte left over; want of memory.
pub fn decode_opening(alloc: Global, bytes: &[u8]) -> Result<TrailOpening, ReadError>
    // What is read is spelled so.
    ensures found { IfOk result (λ o. FitsOpening o × (bytes.now ≡ opening_text o)) }
    // What is spelled so is read, unless memory runs out.
    ensures only { (o : TrailOpening) → FitsOpening o → bytes.now ≡ opening_text o → GivesAll result (Ok o) }
    ensures exact { GivesAll result (opening_decoded bytes.now) }
{
    read_all(alloc, bytes)
}

fn app_number(app: App) -> u8
    ensures { result ≡ app_number app }
{
    match app {
        App::Count => 0,
        App::Kv => 1,
    }
}

/// The bytes of an opening. Error: want of memory.
#[tactic(auto, unfolding(crate::specs::Openings::opening_text))]
pub fn encode_opening(alloc: Global, opening: &TrailOpening) -> Result<Vec<u8>, AllocError>
    requires secret { length opening.now.secret < 2 ^ 32 }
    requires snapshot { length opening.now.snapshot < 2 ^ 32 }
    ensures { IfOk result (λ v. v.items ≡ opening_text opening.now) }
{
    let mut out = Vec::new(alloc);
    put_u8(&mut out, 0)?;
    put_u16(&mut out, opening.member)?;
    put_u32(&mut out, opening.period)?;
    put_view(&mut out, &opening.view)?;
    put_u8(&mut out, app_number(opening.app))?;
    put_text(&mut out, opening.secret.as_slice())?;
    put_text(&mut out, opening.snapshot.as_slice())?;
    put_u64(&mut out, opening.entries)?;
    Ok(out)
}
