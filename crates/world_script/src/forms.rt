//! The forms of what a script injects.
ghost use Rattle.std.specs.Prelude.{◌≡◌, ◌<◌, ◌≤◌, ◌^◌, IfOk, Some, drop};
ghost use Rattle.smart_base.specs.declared.limits.TheConstants as constants;
ghost use Rattle.world_rules.specs.Scripts.{number_in, f_stated, f_of, is_view_form, view_form, ask_form, propose_form, vote_form, stop_form, message_or_none, stopdata_by, stopdata_form, sync_form, reply_form, hex_bytes, digest_by, mark_form, stateask_form, offer_form, part_form, raw_form, form_by};

use crate::hex::hex_bytes;
use crate::numbers::{
    CLIENTS, EARLY_PLACES, FAULTY, INDICES, MEMBERS, MESSAGES, NUMBERS, PLACES, SMALL_NUMBERS,
    STARTS, VIEWS, members_of, messages_in, number_in, numbers_in,
};
use crate::words::{Words, behind_spaces, payload_of};
use smart_base::bytes::Digest32;
use smart_base::equality::same_bytes;
use smart_base::limits::{self, BATCH_REQUESTS, MARKS};
use smart_base::name::{ClientId, MemberId};
use smart_base::number::{Place, Regency, ViewNo};
use smart_base::view::View;
use smart_statements::statement::{Answer, Slot, VoteKind};
use std::alloc::{AllocError, Global};
use world_rules::line::{Injection, Kind};

/// The words in front of a proposal's requests: S V K R.
const SLOT_WORDS: usize = 4;

fn slot_of(view: u64, place: u64, regency: u64) -> Slot
    requires view { view < 2 ^ 32 }
    requires place { place < 2 ^ 63 }
    requires regency { regency < 2 ^ 32 }
    ensures { result ≡ record { view = view; place = place; regency = regency } }
{
    Slot {
        view: ViewNo::new(view as u32),
        place: Place::new(place),
        regency: Regency::new(regency as u32),
    }
}

/// `C SEQ AFTER OP`: the operation is the rest of the line.
fn ask_form(
    alloc: Global,
    bytes: &[u8],
    mut words: Words<'_>,
) -> Result<Result<Injection, Kind>, AllocError>
    ensures { IfOk result (λ form. form ≡ ask_form bytes.now words.entry) }
{
    if words.count() < 4 {
        return Ok(Err(Kind::Count));
    }
    let Some(numbers) = numbers_in(&[CLIENTS, PLACES, NUMBERS], &mut words) else {
        return Ok(Err(Kind::Number));
    };
    let [client, seq, after] = numbers;
    let Some(op) = payload_of(alloc, behind_spaces(5, bytes))? else {
        return Ok(Err(Kind::Form));
    };
    let client = ClientId::new(client as u16);
    Ok(Ok(Injection::Ask {
        client,
        seq,
        after,
        op,
    }))
}

/// `S V K R NUM..`: 1 to 64 requests.
fn propose_form(alloc: Global, mut words: Words<'_>) -> Result<Result<Injection, Kind>, AllocError>
    ensures { IfOk result (λ form. form ≡ propose_form words.entry) }
{
    let count = words.count();
    if count <= SLOT_WORDS || SLOT_WORDS + (BATCH_REQUESTS as usize) < count {
        return Ok(Err(Kind::Count));
    }
    let Some(numbers) = numbers_in(&[MEMBERS, SMALL_NUMBERS, PLACES, SMALL_NUMBERS], &mut words)
    else {
        return Ok(Err(Kind::Number));
    };
    let [signer, view, place, regency] = numbers;
    let Some(asks) = messages_in(alloc, words)? else {
        return Ok(Err(Kind::Number));
    };
    let signer = MemberId::new(signer as u16);
    let slot = slot_of(view, place, regency);
    Ok(Ok(Injection::Propose { signer, slot, asks }))
}

/// `S V K R NUM`.
fn vote_form(kind: VoteKind, mut words: Words<'_>) -> Result<Injection, Kind>
    ensures { result ≡ vote_form kind words.entry }
{
    if words.count() != 5 {
        return Err(Kind::Count);
    }
    let numbers = numbers_in(
        &[MEMBERS, SMALL_NUMBERS, PLACES, SMALL_NUMBERS, MESSAGES],
        &mut words,
    )
    .ok_or(Kind::Number)?;
    let [signer, view, place, regency, proposal] = numbers;
    let signer = MemberId::new(signer as u16);
    let slot = slot_of(view, place, regency);
    Ok(Injection::Vote {
        kind,
        signer,
        slot,
        proposal,
    })
}

/// `S V R`.
fn stop_form(mut words: Words<'_>) -> Result<Injection, Kind>
    ensures { result ≡ stop_form words.entry }
{
    if words.count() != 3 {
        return Err(Kind::Count);
    }
    let numbers = numbers_in(&[MEMBERS, SMALL_NUMBERS, SMALL_NUMBERS], &mut words).ok_or(
        Kind::Number,
    )?;
    let [signer, view, regency] = numbers;
    Ok(Injection::Stop {
        signer: MemberId::new(signer as u16),
        view: ViewNo::new(view as u32),
        regency: Regency::new(regency as u32),
    })
}

/// A dash for nothing, or the number of a message.
fn message_or_none(word: &[u8]) -> Option<Option<u64>>
    ensures { result ≡ message_or_none word.now }
{
    if same_bytes(word, b"-") {
        return Some(None);
    }
    match number_in(&MESSAGES, word) {
        None => None,
        Some(number) => Some(Some(number)),
    }
}

/// `S V R EV LOCK`.
fn stopdata_form(mut words: Words<'_>) -> Result<Injection, Kind>
    ensures { result ≡ stopdata_form words.entry }
{
    if words.count() != 5 {
        return Err(Kind::Count);
    }
    let numbers = numbers_in(&[MEMBERS, SMALL_NUMBERS, SMALL_NUMBERS], &mut words).ok_or(
        Kind::Number,
    )?;
    let [signer, view, regency] = numbers;
    let (evidence, more) = words.split_first().ok_or(Kind::Count)?;
    let (lock, more) = more.split_first().ok_or(Kind::Count)?;
    let None = more.split_first() else {
        return Err(Kind::Count);
    };
    let evidence = message_or_none(evidence).ok_or(Kind::Number)?;
    let lock = message_or_none(lock).ok_or(Kind::Number)?;
    Ok(Injection::StopData {
        signer: MemberId::new(signer as u16),
        view: ViewNo::new(view as u32),
        regency: Regency::new(regency as u32),
        evidence,
        lock,
    })
}

/// `S V R NUM..`: any number of reports.
fn sync_form(alloc: Global, mut words: Words<'_>) -> Result<Result<Injection, Kind>, AllocError>
    ensures { IfOk result (λ form. form ≡ sync_form words.entry) }
{
    if words.count() < 3 {
        return Ok(Err(Kind::Count));
    }
    let Some(numbers) = numbers_in(&[MEMBERS, SMALL_NUMBERS, SMALL_NUMBERS], &mut words) else {
        return Ok(Err(Kind::Number));
    };
    let [signer, view, regency] = numbers;
    let Some(reports) = messages_in(alloc, words)? else {
        return Ok(Err(Kind::Number));
    };
    Ok(Ok(Injection::Sync {
        signer: MemberId::new(signer as u16),
        view: ViewNo::new(view as u32),
        regency: Regency::new(regency as u32),
        reports,
    }))
}

/// `S V K I C SEQ TEXT`: the text is the rest of the line.
fn reply_form(
    alloc: Global,
    bytes: &[u8],
    mut words: Words<'_>,
) -> Result<Result<Injection, Kind>, AllocError>
    ensures { IfOk result (λ form. form ≡ reply_form bytes.now words.entry) }
{
    if words.count() < 7 {
        return Ok(Err(Kind::Count));
    }
    let Some(numbers) = numbers_in(
        &[MEMBERS, SMALL_NUMBERS, PLACES, INDICES, CLIENTS, PLACES],
        &mut words,
    ) else {
        return Ok(Err(Kind::Number));
    };
    let [signer, view, place, index, client, seq] = numbers;
    let Some(reply) = payload_of(alloc, behind_spaces(8, bytes))? else {
        return Ok(Err(Kind::Form));
    };
    let signer = MemberId::new(signer as u16);
    let answer = Answer {
        view: ViewNo::new(view as u32),
        place: Place::new(place),
        index: index as u16,
        client: ClientId::new(client as u16),
        seq,
        reply,
    };
    Ok(Ok(Injection::Reply { signer, answer }))
}

/// The f that a word states; 0 if it is no number to 10.
fn f_stated(word: &[u8]) -> usize
    ensures stated { result ≡ f_stated (number_in 0 constants.FAULTY word.now) }
    ensures few { result ≤ constants.FAULTY }
{
    match number_in(&FAULTY, word) {
        None => 0,
        Some(f) => f as usize,
    }
}

/// The f that the fourth word states; 0 if there is no such word.
fn f_of(words: &Words<'_>) -> usize
    ensures stated { result ≡ f_of (drop 3 words.now) }
    ensures few { result ≤ constants.FAULTY }
{
    let Some((_, words)) = words.split_first() else {
        return 0;
    };
    let Some((_, words)) = words.split_first() else {
        return 0;
    };
    let Some((_, words)) = words.split_first() else {
        return 0;
    };
    match words.split_first() {
        None => 0,
        Some((word, _)) => f_stated(word),
    }
}

/// Whether S V START F stand before 3F+1 to 31 members.
fn is_view_form(words: &Words<'_>) -> bool
    ensures { result ≡ is_view_form words.now }
{
    let (count, f) = (words.count(), f_of(words));
    4 + 3 * f + 1 <= count && count <= 4 + limits::MEMBERS
}

/// `S V START F M..`.
fn view_form(alloc: Global, mut words: Words<'_>) -> Result<Result<Injection, Kind>, AllocError>
    ensures { IfOk result (λ form. form ≡ view_form words.entry) }
{
    if !is_view_form(&words) {
        return Ok(Err(Kind::Count));
    }
    let Some(numbers) = numbers_in(&[MEMBERS, VIEWS, STARTS, FAULTY], &mut words) else {
        return Ok(Err(Kind::Number));
    };
    let [signer, number, start, f] = numbers;
    let Some(members) = members_of(alloc, words)? else {
        return Ok(Err(Kind::Number));
    };
    let signer = MemberId::new(signer as u16);
    match View::checked(number as u32, start, f as u8, members.into_vec()) {
        None => Ok(Err(Kind::Number)),
        Some(view) => Ok(Ok(Injection::View { signer, view })),
    }
}

/// The digest that bytes are, if there are 32 of them.
fn digest_of(bytes: &[u8]) -> Option<Digest32>
    ensures { result ≡ digest_by (Some bytes.now) }
{
    if bytes.len() != 32 {
        return None;
    }
    let mut digest = [0; 32];
    digest.copy_from_slice(bytes);
    Some(Digest32::new(digest))
}

/// The digest that a word's digits are, if they are 64.
fn digest_by(alloc: Global, word: &[u8]) -> Result<Option<Digest32>, AllocError>
    ensures { IfOk result (λ digest. digest ≡ digest_by (hex_bytes word.now)) }
{
    match hex_bytes(alloc, word)? {
        None => Ok(None),
        Some(bytes) => Ok(digest_of(bytes.as_slice())),
    }
}

/// `S K HEX64`.
fn mark_form(alloc: Global, mut words: Words<'_>) -> Result<Result<Injection, Kind>, AllocError>
    ensures { IfOk result (λ form. form ≡ mark_form words.entry) }
{
    if words.count() != 3 {
        return Ok(Err(Kind::Count));
    }
    let Some(numbers) = numbers_in(&[MEMBERS, PLACES], &mut words) else {
        return Ok(Err(Kind::Number));
    };
    let [signer, place] = numbers;
    let Some((word, _)) = words.split_first() else {
        return Ok(Err(Kind::Count));
    };
    let Some(digest) = digest_by(alloc, word)? else {
        return Ok(Err(Kind::Form));
    };
    Ok(Ok(Injection::Mark {
        signer: MemberId::new(signer as u16),
        place: Place::new(place),
        digest,
    }))
}

/// `M Q FETCH`.
fn stateask_form(mut words: Words<'_>) -> Result<Injection, Kind>
    ensures { result ≡ stateask_form words.entry }
{
    if words.count() != 3 {
        return Err(Kind::Count);
    }
    let Some(numbers) = numbers_in(&[MEMBERS, EARLY_PLACES, EARLY_PLACES], &mut words) else {
        return Err(Kind::Number);
    };
    let [member, place, fetch] = numbers;
    Ok(Injection::StateAsk {
        member: MemberId::new(member as u16),
        place: Place::new(place),
        fetch: Place::new(fetch),
    })
}

/// `M K SIZE NUM..`: at most 64 marks.
fn offer_form(alloc: Global, mut words: Words<'_>) -> Result<Result<Injection, Kind>, AllocError>
    ensures { IfOk result (λ form. form ≡ offer_form words.entry) }
{
    let count = words.count();
    if count < 3 || count > 3 + MARKS {
        return Ok(Err(Kind::Count));
    }
    let Some(numbers) = numbers_in(&[MEMBERS, EARLY_PLACES, SMALL_NUMBERS], &mut words) else {
        return Ok(Err(Kind::Number));
    };
    let [member, place, size] = numbers;
    let Some(marks) = messages_in(alloc, words)? else {
        return Ok(Err(Kind::Number));
    };
    Ok(Ok(Injection::Offer {
        member: MemberId::new(member as u16),
        place: Place::new(place),
        size: size as u32,
        marks,
    }))
}

/// `K INDEX TOTAL HEX`: one byte or more.
fn part_form(alloc: Global, mut words: Words<'_>) -> Result<Result<Injection, Kind>, AllocError>
    ensures { IfOk result (λ form. form ≡ part_form words.entry) }
{
    if words.count() != 4 {
        return Ok(Err(Kind::Count));
    }
    let Some(numbers) = numbers_in(&[PLACES, SMALL_NUMBERS, SMALL_NUMBERS], &mut words) else {
        return Ok(Err(Kind::Number));
    };
    let [place, index, total] = numbers;
    let Some((word, _)) = words.split_first() else {
        return Ok(Err(Kind::Count));
    };
    let Some(bytes) = hex_bytes(alloc, word)? else {
        return Ok(Err(Kind::Form));
    };
    if bytes.is_empty() {
        return Ok(Err(Kind::Form));
    }
    Ok(Ok(Injection::Part {
        place: Place::new(place),
        index: index as u32,
        total: total as u32,
        bytes,
    }))
}

/// `HEX`: one byte or more.
fn raw_form(alloc: Global, words: Words<'_>) -> Result<Result<Injection, Kind>, AllocError>
    ensures { IfOk result (λ form. form ≡ raw_form words.entry) }
{
    let Some(word) = words.only() else {
        return Ok(Err(Kind::Count));
    };
    let Some(bytes) = hex_bytes(alloc, word)? else {
        return Ok(Err(Kind::Form));
    };
    if bytes.is_empty() {
        return Ok(Err(Kind::Form));
    }
    Ok(Ok(Injection::Raw { bytes }))
}

/// What a script injects, by the words behind `inject`, or what is wrong with them.
pub fn form_by(
    alloc: Global,
    bytes: &[u8],
    words: Words<'_>,
) -> Result<Result<Injection, Kind>, AllocError>
    ensures { IfOk result (λ form. form ≡ form_by bytes.now words.entry) }
{
    let Some((word, words)) = words.split_first() else {
        return Ok(Err(Kind::Count));
    };
    if same_bytes(word, b"ask") {
        ask_form(alloc, bytes, words)
    } else if same_bytes(word, b"propose") {
        propose_form(alloc, words)
    } else if same_bytes(word, b"write") {
        Ok(vote_form(VoteKind::Write, words))
    } else if same_bytes(word, b"accept") {
        Ok(vote_form(VoteKind::Accept, words))
    } else if same_bytes(word, b"stop") {
        Ok(stop_form(words))
    } else if same_bytes(word, b"stopdata") {
        Ok(stopdata_form(words))
    } else if same_bytes(word, b"sync") {
        sync_form(alloc, words)
    } else if same_bytes(word, b"reply") {
        reply_form(alloc, bytes, words)
    } else if same_bytes(word, b"view") {
        view_form(alloc, words)
    } else if same_bytes(word, b"mark") {
        mark_form(alloc, words)
    } else if same_bytes(word, b"stateask") {
        Ok(stateask_form(words))
    } else if same_bytes(word, b"offer") {
        offer_form(alloc, words)
    } else if same_bytes(word, b"part") {
        part_form(alloc, words)
    } else if same_bytes(word, b"raw") {
        raw_form(alloc, words)
    } else {
        Ok(Err(Kind::Word))
    }
}
