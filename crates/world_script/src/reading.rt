//! What the lines of a script mean.
ghost use Rattle.std.specs.Prelude.{◌≡◌, ◌&&◌, ◌<◌, ◌≤◌, nat_le, Ok, Err, IfOk, IfSome, take, ◌+◌};
ghost use Rattle.std.specs.List.{list_all};
ghost use Rattle.smart_base.specs.declared.limits.TheConstants.{LINE_BYTES};
ghost use Rattle.world_rules.specs.Scripts.{is_printed, is_short, is_nothing, number_in, member_of, client_of, each_word, party_of_word, ask_line, change_line, again_line, told_line, flow_line, give_line, deliver_line, tick_line, settle_line, disk_with, disk_line, show_line, node_line, faulty_line, rogue_line, form_by, injecting, line_by, line_of, members_from, view_for, group_words, group_line, app_line, is_period, period_words, period_line};
ghost use Rattle.world_rules.specs.declared.line.Kind.{Kind};
ghost use Rattle.world_script.specs.declared.fault.LineFault.TheVariants as faults;

use crate::crash::{crash_line, restart_line};
use crate::fault::LineFault;
use crate::forms::form_by;
use crate::numbers::{
    CALLS, CHANGED_FAULTY, MESSAGES, asker_of, changed_members_of, client_of, member_of,
    members_of, number_in, period_in,
};
use crate::words::{Words, behind_spaces, payload_of, words_in};
use reconfig::change::Change;
use smart_base::decimal::number_of;
use smart_base::equality::same_bytes;
use smart_base::limits::{FAULTY, LINE_BYTES, MEMBERS};
use smart_base::name::MemberId;
use smart_base::party::Party;
use smart_base::sequence::Sequence;
use smart_base::view::View;
use std::alloc::{AllocError, Global};
use world_rules::line::{App, Kind, Line};

fn all_print(bytes: &[u8]) -> bool
    ensures { result ≡ list_all (λ b. nat_le 32 b && nat_le b 126) bytes.now }
{
    bytes.iter().all(|b| 32 <= *b && *b <= 126)
}

/// The bytes up to the one that makes a line too long.
fn looked_at(bytes: &[u8]) -> &[u8]
    ensures { result.now ≡ take (LINE_BYTES + 1) bytes.now }
{
    if bytes.len() <= LINE_BYTES + 1 {
        return bytes;
    }
    let (front, _) = bytes.split_at(LINE_BYTES + 1);
    front
}

/// Whether all bytes of a line print, up to the one that makes it too long.
pub fn is_printed(bytes: &[u8]) -> bool
    ensures { result ≡ is_printed bytes.now }
{
    all_print(looked_at(bytes))
}

/// Whether a line has at most 65,536 bytes.
pub fn is_short(bytes: &[u8]) -> bool
    ensures { result ≡ is_short bytes.now }
{
    bytes.len() <= LINE_BYTES
}

/// Whether a line is empty or a comment.
pub fn is_nothing(bytes: &[u8]) -> bool
    ensures { result ≡ is_nothing bytes.now }
{
    match bytes {
        [] => true,
        [first, ..] => *first == b'#',
    }
}

/// The service that the line `app count` or `app kv` names, if the line is one.
#[tactic(auto, unfolding(world_rules::specs::Scripts::app_line))]
pub fn read_app(bytes: &[u8]) -> Option<App>
    ensures { result ≡ app_line bytes.now }
{
    if same_bytes(bytes, b"app count") {
        Some(App::Count)
    } else if same_bytes(bytes, b"app kv") {
        Some(App::Kv)
    } else {
        None
    }
}

/// A member by its number, or a client by c and its number.
fn party_of_word(word: &[u8]) -> Option<Party>
    ensures { result ≡ party_of_word word.now }
{
    match word {
        [b'c', id @ ..] => Some(Party::Client(client_of(id)?)),
        _ => Some(Party::Member(member_of(word)?)),
    }
}

/// The members and clients that the words tell.
fn parties_of(alloc: Global, mut words: Words<'_>) -> Result<Option<Sequence<Party>>, AllocError>
    ensures { IfOk result (λ parties. parties ≡ each_word party_of_word words.entry) }
{
    let mut parties = Sequence::new(alloc);
    while let Some((word, more)) = words.split_first() {
        let Some(party) = party_of_word(word) else {
            return Ok(None);
        };
        parties.push(party)?;
        words = more;
    }
    Ok(Some(parties))
}

/// The number of a client that asks, and an operation, which is the rest of the line.
fn ask_line(alloc: Global, bytes: &[u8], words: Words<'_>) -> Result<Result<Line, Kind>, AllocError>
    ensures { IfOk result (λ line. line ≡ ask_line bytes.now words.entry) }
{
    let Some((client, more)) = words.split_first() else {
        return Ok(Err(Kind::Count));
    };
    let Some(_) = more.split_first() else {
        return Ok(Err(Kind::Count));
    };
    let Some(client) = asker_of(client) else {
        return Ok(Err(Kind::Number));
    };
    let Some(op) = payload_of(alloc, behind_spaces(2, bytes))? else {
        return Ok(Err(Kind::Form));
    };
    Ok(Ok(Line::Ask { client, op }))
}

/// How many members may be faulty, and the members. It is the operation that asks for this change.
fn change_line(alloc: Global, words: Words<'_>) -> Result<Result<Line, Kind>, AllocError>
    ensures { IfOk result (λ line. line ≡ change_line words.entry) }
{
    let Some((f, more)) = words.split_first() else {
        return Ok(Err(Kind::Count));
    };
    let Some(_) = more.split_first() else {
        return Ok(Err(Kind::Count));
    };
    let Some(f) = number_in(&CHANGED_FAULTY, f) else {
        return Ok(Err(Kind::Number));
    };
    let Some(members) = changed_members_of(alloc, more)? else {
        return Ok(Err(Kind::Number));
    };
    let change = Change {
        f: f as u8,
        members,
    };
    if !change.is_brief() {
        return Ok(Err(Kind::Form));
    }
    let op = change.operation(alloc)?;
    Ok(Ok(Line::Change { op }))
}

/// One client's number.
fn again_line(words: Words<'_>) -> Result<Line, Kind>
    ensures { result ≡ again_line words.entry }
{
    let word = words.only().ok_or(Kind::Count)?;
    let client = client_of(word).ok_or(Kind::Number)?;
    Ok(Line::Again { client })
}

/// The numbers of two clients.
fn told_line(words: Words<'_>) -> Result<Line, Kind>
    ensures { result ≡ told_line words.entry }
{
    let (from, more) = words.split_first().ok_or(Kind::Count)?;
    let (to, more) = more.split_first().ok_or(Kind::Count)?;
    let None = more.split_first() else {
        return Err(Kind::Count);
    };
    let from = client_of(from).ok_or(Kind::Number)?;
    let to = client_of(to).ok_or(Kind::Number)?;
    Ok(Line::Tell { from, to })
}

fn flow_line(alloc: Global, words: Words<'_>) -> Result<Result<Line, Kind>, AllocError>
    ensures { IfOk result (λ line. line ≡ flow_line words.entry) }
{
    let Some(members) = members_of(alloc, words)? else {
        return Ok(Err(Kind::Number));
    };
    Ok(Ok(Line::Flow { members }))
}

/// A message's number, and whom it is given to.
fn give_line(alloc: Global, words: Words<'_>) -> Result<Result<Line, Kind>, AllocError>
    ensures { IfOk result (λ line. line ≡ give_line words.entry) }
{
    let Some((number, more)) = words.split_first() else {
        return Ok(Err(Kind::Count));
    };
    let Some(_) = more.split_first() else {
        return Ok(Err(Kind::Count));
    };
    let Some(number) = number_in(&MESSAGES, number) else {
        return Ok(Err(Kind::Number));
    };
    let Some(to) = parties_of(alloc, more)? else {
        return Ok(Err(Kind::Number));
    };
    Ok(Ok(Line::Give { number, to }))
}

fn deliver_line(alloc: Global, words: Words<'_>) -> Result<Result<Line, Kind>, AllocError>
    ensures { IfOk result (λ line. line ≡ deliver_line words.entry) }
{
    let Some(_) = words.split_first() else {
        return Ok(Err(Kind::Count));
    };
    let Some(members) = members_of(alloc, words)? else {
        return Ok(Err(Kind::Number));
    };
    Ok(Ok(Line::Deliver { members }))
}

fn tick_line(alloc: Global, words: Words<'_>) -> Result<Result<Line, Kind>, AllocError>
    ensures { IfOk result (λ line. line ≡ tick_line words.entry) }
{
    let Some(_) = words.split_first() else {
        return Ok(Err(Kind::Count));
    };
    let Some(members) = members_of(alloc, words)? else {
        return Ok(Err(Kind::Number));
    };
    Ok(Ok(Line::Tick { members }))
}

/// One member's number, or `all`.
fn settle_line(words: Words<'_>) -> Result<Line, Kind>
    ensures { result ≡ settle_line words.entry }
{
    let word = words.only().ok_or(Kind::Count)?;
    if same_bytes(word, b"all") {
        return Ok(Line::SettleAll);
    }
    let member = member_of(word).ok_or(Kind::Number)?;
    Ok(Line::Settle { member })
}

fn disk_with(member: Option<MemberId>, count: Option<u64>) -> Result<Line, Kind>
    ensures { result ≡ disk_with member count }
{
    let member = member.ok_or(Kind::Number)?;
    let count = count.ok_or(Kind::Number)?;
    Ok(Line::Disk { member, count })
}

/// One member's number, and how many calls.
fn disk_line(words: Words<'_>) -> Result<Line, Kind>
    ensures { result ≡ disk_line words.entry }
{
    let (member, words) = words.split_first().ok_or(Kind::Count)?;
    let Some((count, words)) = words.split_first() else {
        return disk_with(member_of(member), Some(1));
    };
    if words.split_first().is_some() {
        return Err(Kind::Count);
    }
    disk_with(member_of(member), number_in(&CALLS, count))
}

fn show_line(words: Words<'_>) -> Result<Line, Kind>
    ensures { result ≡ show_line words.entry }
{
    match words.split_first() {
        None => Ok(Line::Show),
        Some(_) => Err(Kind::Count),
    }
}

/// One member's number.
fn node_line(words: Words<'_>) -> Result<Line, Kind>
    ensures { result ≡ node_line words.entry }
{
    let word = words.only().ok_or(Kind::Count)?;
    let member = member_of(word).ok_or(Kind::Number)?;
    Ok(Line::Node { member })
}

/// One member's number.
fn faulty_line(words: Words<'_>) -> Result<Line, Kind>
    ensures { result ≡ faulty_line words.entry }
{
    let word = words.only().ok_or(Kind::Count)?;
    let member = member_of(word).ok_or(Kind::Number)?;
    Ok(Line::Faulty { member })
}

/// One client's number.
fn rogue_line(words: Words<'_>) -> Result<Line, Kind>
    ensures { result ≡ rogue_line words.entry }
{
    let word = words.only().ok_or(Kind::Count)?;
    let client = client_of(word).ok_or(Kind::Number)?;
    Ok(Line::Rogue { client })
}

/// A form of what is injected.
fn inject_line(
    alloc: Global,
    bytes: &[u8],
    words: Words<'_>,
) -> Result<Result<Line, Kind>, AllocError>
    ensures { IfOk result (λ line. line ≡ injecting (form_by bytes.now words.entry)) }
{
    match form_by(alloc, bytes, words)? {
        Ok(form) => Ok(Ok(Line::Inject(form))),
        Err(kind) => Ok(Err(kind)),
    }
}

fn line_by(alloc: Global, bytes: &[u8], words: Words<'_>) -> Result<Result<Line, Kind>, AllocError>
    ensures { IfOk result (λ line. line ≡ line_by bytes.now words.entry) }
{
    let Some((word, words)) = words.split_first() else {
        return Ok(Err(Kind::Word));
    };
    if same_bytes(word, b"ask") {
        ask_line(alloc, bytes, words)
    } else if same_bytes(word, b"change") {
        change_line(alloc, words)
    } else if same_bytes(word, b"again") {
        Ok(again_line(words))
    } else if same_bytes(word, b"told") {
        Ok(told_line(words))
    } else if same_bytes(word, b"flow") {
        flow_line(alloc, words)
    } else if same_bytes(word, b"give") {
        give_line(alloc, words)
    } else if same_bytes(word, b"deliver") {
        deliver_line(alloc, words)
    } else if same_bytes(word, b"tick") {
        tick_line(alloc, words)
    } else if same_bytes(word, b"settle") {
        Ok(settle_line(words))
    } else if same_bytes(word, b"disk") {
        Ok(disk_line(words))
    } else if same_bytes(word, b"crash") {
        crash_line(alloc, words)
    } else if same_bytes(word, b"restart") {
        Ok(restart_line(words))
    } else if same_bytes(word, b"show") {
        Ok(show_line(words))
    } else if same_bytes(word, b"node") {
        Ok(node_line(words))
    } else if same_bytes(word, b"faulty") {
        Ok(faulty_line(words))
    } else if same_bytes(word, b"rogue") {
        Ok(rogue_line(words))
    } else if same_bytes(word, b"inject") {
        inject_line(alloc, bytes, words)
    } else {
        Ok(Err(Kind::Word))
    }
}

/// The meaning of a line behind the header, or what is wrong with it.
#[tactic(auto, unfolding(world_rules::specs::Scripts::line_of))]
fn meaning_of(alloc: Global, bytes: &[u8]) -> Result<Result<Line, Kind>, AllocError>
    ensures { IfOk result (λ line. line ≡ line_of bytes.now) }
{
    if !is_printed(bytes) {
        return Ok(Err(Kind::Byte));
    }
    if !is_short(bytes) {
        return Ok(Err(Kind::Long));
    }
    if is_nothing(bytes) {
        return Ok(Ok(Line::Nothing));
    }
    line_by(alloc, bytes, words_in(bytes))
}

/// Reads a line behind the header.
pub fn read_line(alloc: Global, bytes: &[u8]) -> Result<Line, LineFault>
    ensures line { IfOk result (λ line. line_of bytes.now ≡ Ok line) }
    ensures kind { (kind : Kind) → result ≡ Err (faults.Kind kind) → line_of bytes.now ≡ Err kind }
{
    match meaning_of(alloc, bytes) {
        Err(_) => Err(LineFault::NoMemory),
        Ok(Err(kind)) => Err(LineFault::Kind { kind }),
        Ok(Ok(line)) => Ok(line),
    }
}

/// Members 1 to count.
#[tactic(auto, using(crate::proofs::Members::members_more, crate::proofs::Members::members_none))]
fn first_members(alloc: Global, count: u16) -> Result<Sequence<MemberId>, AllocError>
    requires { count < 100 }
    ensures { IfOk result (λ members. members ≡ members_from 1 count) }
{
    let mut members = Sequence::new(alloc);
    for i in 0..count {
        members.push(MemberId::new(i + 1))?;
    }
    Ok(members)
}

#[tactic(auto, using(crate::proofs::Members::first_view))]
fn view_for(alloc: Global, n: Option<u64>, f: Option<u64>) -> Result<Option<View>, AllocError>
    ensures { IfOk result (λ view. view ≡ view_for n f) }
{
    let Some(n) = n else {
        return Ok(None);
    };
    let Some(f) = f else {
        return Ok(None);
    };
    if 1 <= n && n <= MEMBERS as u64 && f <= FAULTY as u64 && 3 * f + 1 <= n {
        let members = first_members(alloc, n as u16)?;
        Ok(View::checked(0, 1, f as u8, members.into_vec()))
    } else {
        Ok(None)
    }
}

fn group_words(alloc: Global, words: Words<'_>) -> Result<Option<View>, AllocError>
    ensures { IfOk result (λ view. view ≡ group_words words.entry) }
{
    let Some((members, more)) = words.split_first() else {
        return Ok(None);
    };
    let Some((faulty, more)) = more.split_first() else {
        return Ok(None);
    };
    let None = more.split_first() else {
        return Ok(None);
    };
    view_for(alloc, number_of(members), number_of(faulty))
}

/// The view that the line `group N F` begins with, if the line is one.
#[tactic(auto, unfolding(world_rules::specs::Scripts::group_line))]
pub fn read_group(alloc: Global, bytes: &[u8]) -> Result<Option<View>, AllocError>
    ensures { IfOk result (λ view. view ≡ group_line bytes.now) }
{
    let Some((word, words)) = words_in(bytes).split_first() else {
        return Ok(None);
    };
    if same_bytes(word, b"group") {
        group_words(alloc, words)
    } else {
        Ok(None)
    }
}

/// Whether the first of some words is `period`.
fn is_period(words: &Words<'_>) -> bool
    ensures { result ≡ is_period words.now }
{
    match words.split_first() {
        None => false,
        Some((word, _)) => same_bytes(word, b"period"),
    }
}

/// The number that the second of two words states, if it is a period of a group of so many members.
fn period_words(members: u64, words: Words<'_>) -> Option<u32>
    ensures { result ≡ period_words members words.entry }
{
    let (_, words) = words.split_first()?;
    let (number, words) = words.split_first()?;
    match words.split_first() {
        None => period_in(members, number),
        Some(_) => None,
    }
}

/// The period that the line `period P` states in a group of so many members, if it states one; nothing
/// at all, if the line is another one.
#[tactic(auto, unfolding(world_rules::specs::Scripts::period_line))]
pub fn read_period(members: u64, bytes: &[u8]) -> Option<Option<u32>>
    ensures { result ≡ period_line members bytes.now }
{
    let words = words_in(bytes);
    if is_period(&words) {
        Some(period_words(members, words))
    } else {
        None
    }
}
