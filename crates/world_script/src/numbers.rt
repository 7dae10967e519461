//! Words that are numbers.
ghost use Rattle.std.specs.Prelude.{◌≡◌, ◌≤◌, ◌^◌, ℕ, IfSome, IfOk, OnSome, drop};
ghost use Rattle.smart_base.specs.declared.limits.TheConstants as constants;
ghost use Rattle.world_rules.specs.Scripts.{number_in, member_of, client_of, asker_of, changed_member_of, numbers_in, each_word};
ghost use Rattle.world_script.specs.Words.{Within};

use crate::words::Words;
use smart_base::decimal::number_of;
use smart_base::limits;
use smart_base::name::{ClientId, MemberId};
use smart_base::sequence::Sequence;
use std::alloc::{AllocError, Global};
use std::marker::Model;

/// The least and the greatest of numbers.
#[derive(Drop)]
pub struct Range {
    least: u64,
    most: u64,
}

impl Model for Range {
    ghost use Rattle.world_rules.specs.Scripts.{Range as Numbers};

    ghost Value = { Numbers };

    ghost view = { λ r. record { least = r.least; most = r.most } };
}

/// The numbers of members.
pub const MEMBERS: Range = Range {
    least: 1,
    most: 65_535,
};
/// The numbers that a change may name as members.
pub const CHANGED: Range = Range {
    least: 0,
    most: 65_535,
};
/// How many members a change may say to be faulty.
pub const CHANGED_FAULTY: Range = Range {
    least: 0,
    most: 255,
};
/// The numbers of clients. Client 0 is the view manager.
pub const CLIENTS: Range = Range {
    least: 0,
    most: limits::LAST_CLIENT as u64,
};
/// The numbers of clients that ask for operations of the service.
pub const ASKERS: Range = Range {
    least: 1,
    most: limits::LAST_CLIENT as u64,
};
/// How many device calls a line may ask for.
pub const CALLS: Range = Range {
    least: 1,
    most: 1000,
};
/// The numbers of a member's devices.
pub const DEVICES: Range = Range { least: 0, most: 3 };
/// The numbers of messages in lines.
pub const MESSAGES: Range = Range {
    least: 1,
    most: limits::MESSAGES as u64,
};
/// The numbers of views and of regencies.
pub const SMALL_NUMBERS: Range = Range {
    least: 0,
    most: 0xffff_ffff,
};
/// Places, and the numbers of requests.
pub const PLACES: Range = Range {
    least: 1,
    most: 0x7fff_ffff_ffff_ffff,
};
/// Places from 0 on.
pub const EARLY_PLACES: Range = Range {
    least: 0,
    most: 0x7fff_ffff_ffff_ffff,
};
/// The numbers that a view may have.
pub const VIEWS: Range = Range {
    least: 0,
    most: limits::LAST_VIEW as u64,
};
/// The first places of views.
pub const STARTS: Range = Range {
    least: 1,
    most: 1 << 63,
};
/// How many members may be faulty.
pub const FAULTY: Range = Range {
    least: 0,
    most: limits::FAULTY as u64,
};
/// The indices of requests in a batch.
pub const INDICES: Range = Range {
    least: 0,
    most: 65_535,
};
/// All numbers that have 64 bits.
pub const NUMBERS: Range = Range {
    least: 0,
    most: u64::MAX,
};

/// The number that a word is, if it is in the range.
pub fn number_in(range: &Range, word: &[u8]) -> Option<u64>
    ensures number { result ≡ number_in range.now.least range.now.most word.now }
    ensures most { IfSome result (λ n. n ≤ range.now.most) }
{
    let n = number_of(word)?;
    if range.least <= n && n <= range.most {
        Some(n)
    } else {
        None
    }
}

/// The member whose number a word is.
pub fn member_of(word: &[u8]) -> Option<MemberId>
    ensures { result ≡ member_of word.now }
{
    let n = number_in(&MEMBERS, word)?;
    Some(MemberId::new(n as u16))
}

/// The client whose number a word is, be it the view manager or another one.
pub fn client_of(word: &[u8]) -> Option<ClientId>
    ensures { result ≡ client_of word.now }
{
    let n = number_in(&CLIENTS, word)?;
    Some(ClientId::new(n as u16))
}

/// The client whose number a word is, if it may ask for operations of the service.
pub fn asker_of(word: &[u8]) -> Option<ClientId>
    ensures { result ≡ asker_of word.now }
{
    let n = number_in(&ASKERS, word)?;
    Some(ClientId::new(n as u16))
}

/// The members whose numbers the words are.
pub fn members_of(
    alloc: Global,
    mut words: Words<'_>,
) -> Result<Option<Sequence<MemberId>>, AllocError>
    ensures { IfOk result (λ members. members ≡ each_word member_of words.entry) }
{
    let mut members = Sequence::new(alloc);
    while let Some((word, more)) = words.split_first() {
        let Some(member) = member_of(word) else {
            return Ok(None);
        };
        members.push(member)?;
        words = more;
    }
    Ok(Some(members))
}

/// The number that a word is, if a change may name it as a member.
fn changed_member_of(word: &[u8]) -> Option<MemberId>
    ensures { result ≡ changed_member_of word.now }
{
    let n = number_in(&CHANGED, word)?;
    Some(MemberId::new(n as u16))
}

/// The members that a change names by words.
pub fn changed_members_of(
    alloc: Global,
    mut words: Words<'_>,
) -> Result<Option<Sequence<MemberId>>, AllocError>
    ensures { IfOk result (λ members. members ≡ each_word changed_member_of words.entry) }
{
    let mut members = Sequence::new(alloc);
    while let Some((word, more)) = words.split_first() {
        let Some(member) = changed_member_of(word) else {
            return Ok(None);
        };
        members.push(member)?;
        words = more;
    }
    Ok(Some(members))
}

/// The period that a word is, of a group of so many members. In so many places each member takes one
/// checkpoint.
pub fn period_in(members: u64, word: &[u8]) -> Option<u32>
    ensures { result ≡ number_in members constants.LAST_PERIOD word.now }
{
    let periods = Range {
        least: members,
        most: limits::LAST_PERIOD as u64,
    };
    let n = number_in(&periods, word)?;
    Some(n as u32)
}

/// A number for each range, in order. Their words are taken. There are none where a word is missing
/// or is no number of its range.
pub fn numbers_in<const N: usize>(ranges: &[Range; N], words: &mut Words<'_>) -> Option<[u64; N]>
    ensures numbers { result ≡ numbers_in ranges.now words.old }
    ensures within { IfSome result (λ ns. Within ranges.now ns) }
    ensures rest { OnSome result (words.new ≡ drop N words.old) }
{
    let mut numbers = [0; N];
    for i in 0..N {
        let (word, more) = words.split_first()?;
        numbers[i] = number_in(&ranges[i], word)?;
        *words = more;
    }
    Some(numbers)
}

/// The numbers of messages that the words are, if each is one.
pub fn messages_in(alloc: Global, mut words: Words<'_>) -> Result<Option<Sequence<u64>>, AllocError>
    ensures { IfOk result (λ numbers. numbers ≡ each_word (number_in 1 constants.MESSAGES) words.entry) }
{
    let mut numbers = Sequence::new(alloc);
    while let Some((word, more)) = words.split_first() {
        let Some(number) = number_in(&MESSAGES, word) else {
            return Ok(None);
        };
        numbers.push(number)?;
        words = more;
    }
    Ok(Some(numbers))
}
