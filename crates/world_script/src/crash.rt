//! Lines that stop nodes, and let them go on.
ghost use Rattle.std.specs.Prelude.{◌≡◌, IfOk, [], Ok};
ghost use Rattle.world_rules.specs.Scripts.{image_of, patch_of, before, with_patch, patches_of, crash_by, crash_all_line, crash_line, restart_line};
ghost use Rattle.world_script.specs.Patches.{patches_then};

use crate::hex::hex_bytes;
use crate::numbers::{DEVICES, NUMBERS, member_of, number_in};
use crate::words::{Words, parted_at};
use smart_base::equality::same_bytes;
use smart_base::name::MemberId;
use smart_base::sequence::Sequence;
use std::alloc::{AllocError, Global};
use world_rules::crash::{Image, Patch};
use world_rules::line::{Kind, Line};

/// What a crash leaves: `old` or `new`.
fn image_of(word: &[u8]) -> Option<Image>
    ensures { result ≡ image_of word.now }
{
    if same_bytes(word, b"old") {
        Some(Image::Old)
    } else if same_bytes(word, b"new") {
        Some(Image::New)
    } else {
        None
    }
}

/// `D@AT=HEX`: one byte or more.
fn patch_of(alloc: Global, word: &[u8]) -> Result<Result<Patch, Kind>, AllocError>
    ensures { IfOk result (λ patch. patch ≡ patch_of word.now) }
{
    let Some((device, rest)) = parted_at(b'@', word) else {
        return Ok(Err(Kind::Form));
    };
    let Some((at, hex)) = parted_at(b'=', rest) else {
        return Ok(Err(Kind::Form));
    };
    let Some(device) = number_in(&DEVICES, device) else {
        return Ok(Err(Kind::Number));
    };
    let Some(at) = number_in(&NUMBERS, at) else {
        return Ok(Err(Kind::Number));
    };
    let Some(bytes) = hex_bytes(alloc, hex)? else {
        return Ok(Err(Kind::Form));
    };
    if bytes.is_empty() {
        return Ok(Err(Kind::Form));
    }
    Ok(Ok(Patch { device, at, bytes }))
}

/// Of two kinds of what is wrong with patches the first: a number, or else a form.
fn before(kind: Kind, other: Kind) -> Kind
    ensures { result ≡ before kind other }
{
    match kind {
        Kind::Number => Kind::Number,
        _ => other,
    }
}

/// One more patch, or what is wrong with it or with those in front of it.
fn with_next(
    patches: Result<Sequence<Patch>, Kind>,
    next: Result<Patch, Kind>,
) -> Result<Result<Sequence<Patch>, Kind>, AllocError>
    ensures { IfOk result (λ all. all ≡ patches_then patches (with_patch next (Ok []))) }
{
    match (patches, next) {
        (Ok(mut patches), Ok(next)) => {
            patches.push(next)?;
            Ok(Ok(patches))
        }
        (Ok(_), Err(kind)) => Ok(Err(kind)),
        (Err(kind), Ok(_)) => Ok(Err(kind)),
        (Err(kind), Err(other)) => Ok(Err(before(kind, other))),
    }
}

/// All patches, or what is wrong with them.
fn patches_of(
    alloc: Global,
    mut words: Words<'_>,
) -> Result<Result<Sequence<Patch>, Kind>, AllocError>
    ensures { IfOk result (λ patches. patches ≡ patches_of words.entry) }
{
    let mut patches = Ok(Sequence::new(alloc));
    while let Some((word, more)) = words.split_first() {
        let next = patch_of(alloc, word)?;
        patches = with_next(patches, next)?;
        words = more;
    }
    Ok(patches)
}

fn crash_by(
    member: Option<MemberId>,
    image: Option<Image>,
    patches: Result<Sequence<Patch>, Kind>,
) -> Result<Line, Kind>
    ensures { result ≡ crash_by member image patches }
{
    let member = member.ok_or(Kind::Number)?;
    let patches = patches?;
    let image = image.ok_or(Kind::Form)?;
    Ok(Line::Crash {
        member,
        image,
        patches,
    })
}

/// What a crash of all leaves, and nothing behind it.
fn crash_all_line(image: &[u8], patches: Words<'_>) -> Result<Line, Kind>
    ensures { result ≡ crash_all_line image.now patches.entry }
{
    if patches.split_first().is_some() {
        return Err(Kind::Count);
    }
    let image = image_of(image).ok_or(Kind::Form)?;
    Ok(Line::CrashAll { image })
}

/// One member's number or `all`, what is left, and patches of one member's devices.
pub fn crash_line(alloc: Global, words: Words<'_>) -> Result<Result<Line, Kind>, AllocError>
    ensures { IfOk result (λ line. line ≡ crash_line words.entry) }
{
    let Some((member, words)) = words.split_first() else {
        return Ok(Err(Kind::Count));
    };
    let Some((image, words)) = words.split_first() else {
        return Ok(Err(Kind::Count));
    };
    if same_bytes(member, b"all") {
        return Ok(crash_all_line(image, words));
    }
    let patches = patches_of(alloc, words)?;
    Ok(crash_by(member_of(member), image_of(image), patches))
}

/// One member's number, or `all`.
pub fn restart_line(words: Words<'_>) -> Result<Line, Kind>
    ensures { result ≡ restart_line words.entry }
{
    let word = words.only().ok_or(Kind::Count)?;
    if same_bytes(word, b"all") {
        return Ok(Line::RestartAll);
    }
    let member = member_of(word).ok_or(Kind::Number)?;
    Ok(Line::Restart { member })
}
