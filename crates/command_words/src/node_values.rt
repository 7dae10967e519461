//! The values of the options of `node` and `group`.
ghost use Rattle.std.specs.Prelude.{◌≡◌, ◌≤◌, ◌<◌, IfOk, IfSome, Ok, Some, codes, length, option_and_then};
ghost use Rattle.std.specs.List.{list_all};
ghost use Rattle.clap.specs.Words.{found_of, rows_of};
ghost use Rattle.clap.specs.Walk.{first_of};
ghost use Rattle.command_words.specs.Options.{bytes_read, comma_in, group_at, group_of, group_run_of, group_size_of, group_with, is_lower_digit, member_of, node_of, number_in, period_of, secret_of};
ghost use Rattle.command_words.specs.Ranges.{FitsGroup, FitsGroupRun, FitsNode};

use crate::node_words::{GroupSize, GroupWords, NodeWords};
use clap::ArgMatches;
use hex::FromHexError;
use smart_base::decimal::number_of;
use smart_base::limits::{FAULTY, LAST_PERIOD, MEMBERS, PERIOD};
use smart_base::sequence::Bytes;
use std::alloc::{AllocError, Global};

/// The number that a word is, if it is one of a range.
#[tactic(auto, unfolding(crate::specs::Options::number_in))]
fn number_in(word: &[u8], least: u64, most: u64) -> Option<u64>
    ensures is { result ≡ number_in least most word.now }
    ensures within { IfSome result (λ n. (least ≤ n) × (n ≤ most)) }
{
    let number = number_of(word)?;
    (least <= number && number <= most).then_some(number)
}

/// The number of a member that a word is.
fn member_of(word: &[u8]) -> Option<u16>
    ensures is { result ≡ member_of word.now }
    ensures within { IfSome result (λ n. 1 ≤ n) }
{
    let number = number_in(word, 1, 65_535)?;
    Some(number as u16)
}

/// A group of so many members, of which so many may be faulty, if there is one.
fn group_with(members: u8, faulty: u8) -> Option<GroupSize>
    requires members { (1 ≤ members) × (members ≤ 31) }
    requires faulty { faulty ≤ 10 }
    ensures is { result ≡ group_with (Some members) (Some faulty) }
    ensures fits { IfSome result FitsGroup }
{
    if 3 * faulty + 1 <= members {
        Some(GroupSize { members, faulty })
    } else {
        None
    }
}

/// The index of the first comma of a word.
#[tactic(auto, unfolding(crate::specs::Options::comma_in))]
fn comma_in(word: &[u8]) -> Option<usize>
    ensures is { result ≡ comma_in word.now }
    ensures within { IfSome result (λ at. at < length word.now) }
{
    word.iter().position(|byte| *byte == b',')
}

/// The group whose two numbers a comma at this index parts.
fn group_at(word: &[u8], at: usize) -> Option<GroupSize>
    requires { at < length word.now }
    ensures is { result ≡ group_at word.now (Some at) }
    ensures fits { IfSome result FitsGroup }
{
    let (first, rest) = word.split_at(at);
    let (_, second) = rest.split_at(1);
    let members = number_in(first, 1, MEMBERS as u64)?;
    let faulty = number_in(second, 0, u64::from(FAULTY))?;
    group_with(members as u8, faulty as u8)
}

/// The group that a word is: its two numbers, parted by a comma.
fn group_of(word: &[u8]) -> Option<GroupSize>
    ensures is { result ≡ group_of word.now }
    ensures fits { IfSome result FitsGroup }
{
    match comma_in(word) {
        Some(at) => group_at(word, at),
        None => None,
    }
}

/// Whether a byte is a digit from 0 to 9 or from a to f.
fn is_lower_digit(byte: u8) -> bool
    ensures { result ≡ is_lower_digit byte }
{
    matches!(byte, b'0'..=b'9' | b'a'..=b'f')
}

/// Whether a word has such digits alone.
fn are_lower_digits(word: &[u8]) -> bool
    ensures { result ≡ list_all is_lower_digit word.now }
{
    word.iter().all(|byte| is_lower_digit(*byte))
}

/// Bytes, if they are 1 to 64.
fn short_bytes(bytes: Vec<u8>) -> Option<Bytes>
    ensures is { result ≡ bytes_read (Ok bytes.items) }
    ensures fits { IfSome result (λ some. (1 ≤ length some) × (length some ≤ 64)) }
{
    if 1 <= bytes.len() && bytes.len() <= 64 {
        Some(Bytes::from_vec(bytes))
    } else {
        None
    }
}

/// The secret that a word spells, if it spells one. Error: want of memory.
#[tactic(auto, unfolding(crate::specs::Options::secret_of))]
fn secret_of(alloc: Global, word: &[u8]) -> Result<Option<Bytes>, AllocError>
    ensures is { IfOk result (λ secret. secret ≡ secret_of word.now) }
    ensures fits { IfOk result (λ secret. IfSome secret (λ bytes. (1 ≤ length bytes) × (length bytes ≤ 64))) }
{
    if !are_lower_digits(word) {
        return Ok(None);
    }
    match hex::decode(alloc, word) {
        Ok(bytes) => Ok(short_bytes(bytes)),
        Err(FromHexError::OutOfMemory) => Err(AllocError),
        Err(_) => Ok(None),
    }
}

/// The member that `--id` names.
#[tactic(auto, using(crate::proofs::Parsing::first_word))]
fn member_met(matches: &ArgMatches<'_>) -> Option<u16>
    ensures is { result ≡ option_and_then member_of (first_of (codes "id") (rows_of (found_of matches.now))) }
    ensures within { IfSome result (λ n. 1 ≤ n) }
{
    member_of(matches.get_str("id")?.as_bytes())
}

/// The directory that `--dir` names. Error: want of memory.
#[tactic(auto, using(crate::proofs::Parsing::first_word))]
fn directory_met(alloc: Global, matches: &ArgMatches<'_>) -> Result<Option<Bytes>, AllocError>
    ensures { IfOk result (λ dir. dir ≡ first_of (codes "dir") (rows_of (found_of matches.now))) }
{
    match matches.get_str("dir") {
        Some(word) => Ok(Some(Bytes::from_slice(alloc, word.as_bytes())?)),
        None => Ok(None),
    }
}

/// The secret that `--secret` spells. Error: want of memory.
#[tactic(auto, using(crate::proofs::Parsing::first_word))]
fn secret_met(alloc: Global, matches: &ArgMatches<'_>) -> Result<Option<Bytes>, AllocError>
    ensures is { IfOk result (λ secret. secret ≡ option_and_then secret_of (first_of (codes "secret") (rows_of (found_of matches.now)))) }
    ensures fits { IfOk result (λ secret. IfSome secret (λ bytes. (1 ≤ length bytes) × (length bytes ≤ 64))) }
{
    match matches.get_str("secret") {
        Some(word) => secret_of(alloc, word.as_bytes()),
        None => Ok(None),
    }
}

/// The group that `--group` names.
#[tactic(auto, using(crate::proofs::Parsing::first_word))]
fn group_met(matches: &ArgMatches<'_>) -> Option<GroupSize>
    ensures is { result ≡ option_and_then group_of (first_of (codes "group") (rows_of (found_of matches.now))) }
    ensures fits { IfSome result FitsGroup }
{
    group_of(matches.get_str("group")?.as_bytes())
}

/// The period that `--period` names, or the usual one.
#[tactic(auto, using(crate::proofs::Parsing::first_word))]
fn period_met(matches: &ArgMatches<'_>, members: u8) -> Option<u32>
    requires { members ≤ 31 }
    ensures is { result ≡ period_of members (first_of (codes "period") (rows_of (found_of matches.now))) }
    ensures within { IfSome result (λ p. (members ≤ p) × (p ≤ LAST_PERIOD)) }
{
    let Some(word) = matches.get_str("period") else {
        return Some(PERIOD);
    };
    let period = number_in(word.as_bytes(), u64::from(members), u64::from(LAST_PERIOD))?;
    Some(period as u32)
}

/// The node that the options are, if they are one. Error: want of memory.
pub(crate) fn node_met(
    alloc: Global,
    matches: &ArgMatches<'_>,
) -> Result<Option<NodeWords>, AllocError>
    ensures is { IfOk result (λ node. node ≡ node_of (rows_of (found_of matches.now))) }
    ensures fits { IfOk result (λ node. IfSome node FitsNode) }
{
    let Some(id) = member_met(matches) else {
        return Ok(None);
    };
    let Some(dir) = directory_met(alloc, matches)? else {
        return Ok(None);
    };
    let Some(secret) = secret_met(alloc, matches)? else {
        return Ok(None);
    };
    let Some(group) = group_met(matches) else {
        return Ok(None);
    };
    let Some(period) = period_met(matches, group.members) else {
        return Ok(None);
    };
    Ok(Some(NodeWords {
        id,
        dir,
        secret,
        group,
        period,
    }))
}

/// The most empty polls that `group` may be told.
const LAST_TURNS: u64 = 9_223_372_036_854_775_808;

/// The most asks of a run of a group.
const LAST_ASKS: u64 = 10_000;

/// The number that the option of a name is, if it is one of a range.
#[tactic(auto, using(crate::proofs::Parsing::first_word))]
fn number_met(matches: &ArgMatches<'_>, name: &str, least: u64, most: u64) -> Option<u64>
    ensures is { result ≡ option_and_then (number_in least most) (first_of name.now (rows_of (found_of matches.now))) }
    ensures within { IfSome result (λ n. (least ≤ n) × (n ≤ most)) }
{
    number_in(matches.get_str(name)?.as_bytes(), least, most)
}

/// The group of `--n` members, of which `--f` may be faulty.
fn group_size_met(matches: &ArgMatches<'_>) -> Option<GroupSize>
    ensures is { result ≡ group_size_of (rows_of (found_of matches.now)) }
    ensures fits { IfSome result FitsGroup }
{
    let members = number_met(matches, "n", 1, MEMBERS as u64)?;
    let faulty = number_met(matches, "f", 0, u64::from(FAULTY))?;
    group_with(members as u8, faulty as u8)
}

/// The run of a group that the options are, if they are one. Error: want of memory.
pub(crate) fn group_run_met(
    alloc: Global,
    matches: &ArgMatches<'_>,
) -> Result<Option<GroupWords>, AllocError>
    ensures is { IfOk result (λ run. run ≡ group_run_of (rows_of (found_of matches.now))) }
    ensures fits { IfOk result (λ run. IfSome run FitsGroupRun) }
{
    let Some(group) = group_size_met(matches) else {
        return Ok(None);
    };
    let Some(period) = number_met(
        matches,
        "period",
        u64::from(group.members),
        u64::from(LAST_PERIOD),
    ) else {
        return Ok(None);
    };
    let Some(turns) = number_met(matches, "turns", 0, LAST_TURNS) else {
        return Ok(None);
    };
    let Some(asks) = number_met(matches, "asks", 0, LAST_ASKS) else {
        return Ok(None);
    };
    let Some(dir) = directory_met(alloc, matches)? else {
        return Ok(None);
    };
    Ok(Some(GroupWords {
        group,
        period: period as u32,
        turns,
        asks: asks as u32,
        dir,
    }))
}
