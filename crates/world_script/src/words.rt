//! The words of a line.
ghost use Rattle.std.specs.Prelude.{◌≡◌, ◌==◌, ◌∷◌, ◌⊎◌, ◌<◌, ◌≤◌, [], IfOk, IfSome, if◌then◌else◌, nat_le, count_by, length, position};
ghost use Rattle.std.specs.Option.{MatchOption};
ghost use Rattle.smart_base.specs.declared.limits.TheConstants.{PAYLOAD_BYTES};
ghost use Rattle.world_rules.specs.Scripts.{words_in, behind_space, behind_spaces, parted_at};
ghost use Rattle.world_script.specs.Words.{Several};

use smart_base::bytes::Payload;
use smart_base::limits::PAYLOAD_BYTES;
use std::alloc::{AllocError, Global};
use std::marker::Model;

/// The words that are left of a line.
#[derive(Drop)]
pub struct Words<'a> {
    more: bool,
    left: &'a [u8],
}

impl<'a> Model for Words<'a> {
    ghost use Rattle.std.specs.Prelude.{List, ℕ};
    ghost use Rattle.world_script.specs.Words.{words_left};

    ghost Value = { List (List ℕ) };

    ghost view = { λ w. words_left w.more w.left.now };
}

fn place_in(sign: u8, bytes: &[u8]) -> Option<usize>
    ensures place { result ≡ position (λ b. b == sign) bytes.now }
    ensures within { IfSome result (λ i. i < length bytes.now) }
{
    bytes.iter().position(|b| *b == sign)
}

fn spaces_in(bytes: &[u8]) -> usize
    ensures count { result ≡ count_by (λ b. b == 32) bytes.now }
    ensures within { result ≤ length bytes.now }
{
    bytes.iter().filter(|b| **b == b' ').count()
}

/// What stands in front of the first space, and what behind it.
fn parts(bytes: &[u8]) -> Option<(&[u8], &[u8])>
    ensures words { MatchOption result (words_in bytes.now ≡ bytes.now ∷ []) (λ parts. words_in bytes.now ≡ parts.0.now ∷ words_in parts.1.now) }
    ensures behind { MatchOption result (behind_space bytes.now ≡ []) (λ parts. behind_space bytes.now ≡ parts.1.now) }
{
    let Some(i) = place_in(b' ', bytes) else {
        return None;
    };
    let (front, _) = bytes.split_at(i);
    let (_, rest) = bytes.split_at(i + 1);
    Some((front, rest))
}

/// What stands in front of the first byte of some kind, and what behind it, where there is one.
#[tactic(auto, using(crate::proofs::Signs::parted_where, crate::proofs::Signs::parted_nowhere))]
pub fn parted_at(sign: u8, word: &[u8]) -> Option<(&[u8], &[u8])>
    ensures { MatchOption result (parted_at sign word.now ≡ None) (λ parts. parted_at sign word.now ≡ Some (parts.0.now, parts.1.now)) }
{
    let Some(i) = place_in(sign, word) else {
        return None;
    };
    let (front, _) = word.split_at(i);
    let (_, rest) = word.split_at(i + 1);
    Some((front, rest))
}

/// What stands behind the first space.
pub fn behind_space(bytes: &[u8]) -> &[u8]
    ensures { result.now ≡ behind_space bytes.now }
{
    match parts(bytes) {
        None => &[],
        Some((_, rest)) => rest,
    }
}

/// What stands behind the first spaces, so many as `count`.
pub fn behind_spaces(count: u64, bytes: &[u8]) -> &[u8]
    ensures { result.now ≡ behind_spaces count bytes.now }
{
    let mut rest = bytes;
    for _ in 0..count {
        rest = behind_space(rest);
    }
    rest
}

/// An operation or a reply, if the bytes are few enough to be one.
pub fn payload_of(alloc: Global, bytes: &[u8]) -> Result<Option<Payload>, AllocError>
    ensures { IfOk result (λ p. p ≡ (if nat_le (length bytes.now) PAYLOAD_BYTES then Some bytes.now else None)) }
{
    if bytes.len() > PAYLOAD_BYTES {
        return Ok(None);
    }
    Ok(Some(Payload::from_slice(alloc, bytes)?))
}

/// The words that single spaces part.
pub fn words_in(bytes: &[u8]) -> Words<'_>
    ensures { result ≡ words_in bytes.now }
{
    Words {
        more: true,
        left: bytes,
    }
}

impl<'a> Words<'a> {
    /// The first word and those behind it.
    pub fn split_first(&self) -> Option<(&'a [u8], Words<'a>)>
        ensures { MatchOption result (self.now ≡ []) (λ parts. self.now ≡ parts.0.now ∷ parts.1) }
    {
        if !self.more {
            return None;
        }
        match parts(self.left) {
            None => Some((
                self.left,
                Words {
                    more: false,
                    left: self.left,
                },
            )),
            Some((word, left)) => Some((word, Words { more: true, left })),
        }
    }
    /// The word that is left alone. With no word and with several there is none.
    pub fn only(&self) -> Option<&'a [u8]>
        ensures { MatchOption result ((self.now ≡ []) ⊎ Several self.now) (λ word. self.now ≡ word.now ∷ []) }
    {
        let (word, more) = self.split_first()?;
        match more.split_first() {
            None => Some(word),
            Some(_) => None,
        }
    }

    /// How many words are left.
    pub fn count(&self) -> usize
        ensures { result ≡ length self.now }
    {
        if self.more {
            spaces_in(self.left) + 1
        } else {
            0
        }
    }
}
