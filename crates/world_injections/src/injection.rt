//! What a script injects.
ghost use Rattle.std.specs.Prelude.{◌≡◌, ◌<◌, ◌≤◌, ◌^◌, true, Some, None, if◌then◌else◌, nat_lt, length, is_some, IfOk, IfSome, filter, nat_le, option_copied, option_map};
ghost use Rattle.std.specs.List.{flat_map};
ghost use Rattle.std.specs.Option.{option_and_then};
ghost use Rattle.smart_base.specs.declared.limits.TheConstants.{BATCH_REQUESTS, MARKS, PIECE_BYTES};
ghost use Rattle.smart_statements.specs.Kinds.{requests, proposals, ballots};
ghost use Rattle.smart_statements.specs.Reports.{reports, marks};
ghost use Rattle.smart_messages.specs.Messages.{spelling};
ghost use Rattle.smart_statements.specs.Spelling.{signed as signed_text};
ghost use Rattle.replica_rules.specs.Seals.{signed, digest_of};
ghost use Rattle.world_rules.specs.Secrets.{group_secret};
ghost use Rattle.world_rules.specs.Injections.{content_at, request_of, request_at, requests_at, batch_proposed, report_of, reports_at, mark_of, marks_at, decision_of, view_of_first, evident_by, evident_at, short_bytes, locked_at, report_bytes, report_by, sync_bytes, offer_bytes, proposal_bytes, vote_bytes, injected_bytes, are_bytes, injected};
ghost use Rattle.smart_messages.specs.declared.message.Message.TheVariants as changes;
ghost use Rattle.smart_messages.specs.Regencies.{stops, view_infos};
ghost use Rattle.world_injections.specs.Proposals.{is_proposable, proposable};
ghost use Rattle.world_injections.specs.Sizes.{is_early, evident_len, locked_len, fits_report, fits_numbers, fits_marks};
ghost use Rattle.world_injections.specs.Named.{locked_of, evident_of};

use crate::size::{batch_len, lock_len};
use smart_base::bytes::{Digest32, Payload};
use smart_base::duplicate::Duplicate;
use smart_base::keys::Digester;
use smart_base::limits::{BATCH_BYTES, BATCH_REQUESTS, MARKS, MESSAGE_BYTES, PIECE_BYTES};
use smart_base::name::{ClientId, MemberId};
use smart_base::number::{Place, Regency, ViewNo};
use smart_base::sequence::{Bytes, Sequence};
use smart_base::view::View;
use smart_keys::hash::Sha;
use smart_keys::ring::Ring;
use smart_messages::codec::encode;
use smart_messages::message::{Message, Proposed, decision_in, mark_in, report_in, request_in};
use smart_messages::party::party_of;
use smart_messages::regency::{Reported, Stop, Sync, ViewInfo};
use smart_statements::batch::Batch;
use smart_statements::optional::duplicate_optional;
use smart_statements::report::{DecisionProof, Evidence, LockCertificate, Mark, Report};
use smart_statements::signed::{Signed, Statement};
use smart_statements::signed_list::SignedList;
use smart_statements::statement::{Ballot, Proposal, Request, Slot, VoteKind};
use std::alloc::{AllocError, Global};
use std::mem::drop;
use transfer_form::transfer::{Piece, ProvenBatch, StateAsk, StateOffer, StatePart};
use world_ledger::content::{batch_proposed, read_content};
use world_rules::line::Injection;
use world_rules::message::{Content, Sent};

/// The most items of a list.
const LIST_ITEMS: usize = 65_535;

/// What a report takes over of another.
#[derive(Drop)]
struct Locked {
    lock: Option<LockCertificate>,
    batch: Option<Batch>,
}

/// What a report shows of a decision.
#[derive(Drop)]
struct Evident {
    last: Place,
    evidence: Evidence,
}

/// The bytes of a batch before its requests.
const HEAD_BYTES: usize = 2;

/// The bytes of a report beside its evidence, its lock and its batch.
const REPORT_BYTES: usize = 59;

/// The bytes of a decision proof as evidence beside its votes.
const PROOF_BYTES: usize = 43;

/// The bytes of an offer beside its marks.
const OFFER_BYTES: usize = 17;

/// The bytes of a beginning of a regency beside its reports.
const SYNC_BYTES: usize = 53;

/// The content of a number, which counts from 1.
fn content_at(sent: &[Sent], number: u64) -> Option<&Content>
    ensures { option_copied result ≡ content_at sent.now number }
{
    if number < 1 {
        return None;
    }
    match sent.get((number - 1) as usize) {
        None => None,
        Some(message) => Some(&message.content),
    }
}

/// The request that a content is.
fn request_of(content: &Content) -> Option<&Signed<Request>>
    ensures { option_copied result ≡ request_of content.now }
{
    match content {
        Content::Message(message) => request_in(message),
        Content::Raw(_) => None,
    }
}

/// The report that a content is.
fn report_of(content: &Content) -> Option<&Reported>
    ensures { option_copied result ≡ report_of content.now }
{
    match content {
        Content::Message(message) => report_in(message),
        Content::Raw(_) => None,
    }
}

fn report_at(sent: &[Sent], number: u64) -> Option<&Reported>
    ensures { option_copied result ≡ option_and_then report_of (content_at sent.now number) }
{
    match content_at(sent, number) {
        None => None,
        Some(content) => report_of(content),
    }
}

fn request_at(sent: &[Sent], number: u64) -> Option<&Signed<Request>>
    ensures { option_copied result ≡ request_at sent.now number }
{
    match content_at(sent, number) {
        None => None,
        Some(content) => request_of(content),
    }
}

/// The mark that a content is.
fn mark_of(content: &Content) -> Option<&Signed<Mark>>
    ensures { option_copied result ≡ mark_of content.now }
{
    match content {
        Content::Message(message) => mark_in(message),
        Content::Raw(_) => None,
    }
}

fn mark_at(sent: &[Sent], number: u64) -> Option<&Signed<Mark>>
    ensures { option_copied result ≡ option_and_then mark_of (content_at sent.now number) }
{
    match content_at(sent, number) {
        None => None,
        Some(content) => mark_of(content),
    }
}

/// The decided batch that a content shows.
fn decision_of(content: &Content) -> Option<&ProvenBatch>
    ensures { option_copied result ≡ decision_of content.now }
{
    match content {
        Content::Message(message) => decision_in(message),
        Content::Raw(_) => None,
    }
}

fn decision_at(sent: &[Sent], number: u64) -> Option<&ProvenBatch>
    ensures { option_copied result ≡ option_and_then decision_of (content_at sent.now number) }
{
    match content_at(sent, number) {
        None => None,
        Some(content) => decision_of(content),
    }
}

/// The batch that the message of a number proposes.
fn batch_at(sent: &[Sent], number: u64) -> Option<&Batch>
    ensures { option_copied result ≡ option_and_then batch_proposed (content_at sent.now number) }
{
    match content_at(sent, number) {
        None => None,
        Some(content) => batch_proposed(content),
    }
}

/// How many bytes the requests of messages have, where all are there.
fn requests_len(sent: &[Sent], asks: &[u64]) -> Option<usize>
    requires { length asks.now ≤ BATCH_REQUESTS }
    ensures value { result ≡ option_map (λ qs. length (flat_map (signed_text requests) qs)) (requests_at sent.now asks.now) }
    ensures small { IfSome result (λ bytes. bytes < 2 ^ 40) }
{
    let mut bytes = 0;
    for number in asks {
        match request_at(sent, *number) {
            None => return None,
            Some(request) => bytes += request.text_len(),
        }
    }
    Some(bytes)
}

/// Whether the requests of messages are there and may stand in one batch.
fn is_proposable(sent: &[Sent], asks: &[u64]) -> bool
    ensures { result ≡ is_some (proposable (requests_at sent.now asks.now)) }
{
    if asks.len() < 1 || asks.len() > BATCH_REQUESTS as usize {
        return false;
    }
    match requests_len(sent, asks) {
        None => false,
        Some(bytes) => HEAD_BYTES + bytes <= BATCH_BYTES,
    }
}

/// How many bytes the reports of messages have, where all are there.
fn reports_len(sent: &[Sent], numbers: &[u64]) -> Option<usize>
    requires { length numbers.now < 2 ^ 16 }
    ensures value { result ≡ option_map (λ rs. length (flat_map (signed_text reports) rs)) (reports_at sent.now numbers.now) }
    ensures small { IfSome result (λ bytes. bytes < 2 ^ 50) }
{
    let mut bytes = 0;
    for number in numbers {
        match report_at(sent, *number) {
            None => return None,
            Some(reported) => bytes += reported.head.text_len(),
        }
    }
    Some(bytes)
}

/// How many bytes votes of regency 0 have.
fn early_len(votes: &[Signed<Ballot>]) -> usize
    requires { length votes.now < 2 ^ 16 }
    ensures value { result ≡ length (flat_map (signed_text ballots) (filter is_early votes.now)) }
    ensures small { result < 2 ^ 50 }
{
    let mut bytes = 0;
    for vote in votes {
        if is_early(vote) {
            bytes += vote.text_len();
        }
    }
    bytes
}

/// How many bytes the evidence of a number's decision has, if the decision is there; one if none is named.
fn evidence_len(sent: &[Sent], decision: Option<u64>) -> Option<usize>
    ensures value { result ≡ option_map evident_len (evident_at sent.now 0 decision) }
    ensures small { IfSome result (λ bytes. bytes < 2 ^ 51) }
{
    match decision {
        None => Some(1),
        Some(number) => match decision_at(sent, number) {
            None => None,
            Some(proven) => Some(PROOF_BYTES + early_len(proven.accepts.as_slice())),
        },
    }
}

/// How many bytes the lock and the batch of a number's report have, if the report is there; one each if
/// none is named.
fn locked_len(sent: &[Sent], lock: Option<u64>) -> Option<usize>
    ensures value { result ≡ option_map locked_len (locked_at sent.now lock) }
    ensures small { IfSome result (λ bytes. bytes < 2 ^ 52) }
{
    match lock {
        None => Some(2),
        Some(number) => match report_at(sent, number) {
            None => None,
            Some(reported) => Some(
                lock_len(&reported.head.statement().lock) + batch_len(&reported.batch),
            ),
        },
    }
}

/// Whether a report that takes over what a decision shows, and what the report of a number has, is short
/// enough; both are there.
fn fits_report(sent: &[Sent], evidence: Option<u64>, lock: Option<u64>) -> bool
    ensures { result ≡ fits_report (evident_at sent.now 0 evidence) (locked_at sent.now lock) }
{
    let Some(evidence) = evidence_len(sent, evidence) else {
        return false;
    };
    let Some(lock) = locked_len(sent, lock) else {
        return false;
    };
    REPORT_BYTES + (evidence + lock) <= MESSAGE_BYTES
}

/// How many bytes the marks of messages have, where all are there.
fn marks_len(sent: &[Sent], numbers: &[u64]) -> Option<usize>
    requires { length numbers.now ≤ MARKS }
    ensures value { result ≡ option_map (λ ms. length (flat_map (signed_text marks) ms)) (marks_at sent.now numbers.now) }
    ensures small { IfSome result (λ bytes. bytes < 2 ^ 40) }
{
    let mut bytes = 0;
    for number in numbers {
        match mark_at(sent, *number) {
            None => return None,
            Some(mark) => bytes += mark.text_len(),
        }
    }
    Some(bytes)
}

/// Whether the marks of messages are there, few and short enough.
fn fits_offer(sent: &[Sent], numbers: &[u64]) -> bool
    ensures { result ≡ fits_marks numbers.now (marks_at sent.now numbers.now) }
{
    if MARKS < numbers.len() {
        return false;
    }
    match marks_len(sent, numbers) {
        None => false,
        Some(bytes) => OFFER_BYTES + bytes <= MESSAGE_BYTES,
    }
}

/// Whether the reports of messages are there, and few and short enough.
fn fits_sync(sent: &[Sent], numbers: &[u64]) -> bool
    ensures { result ≡ fits_numbers numbers.now (reports_at sent.now numbers.now) }
{
    if LIST_ITEMS < numbers.len() {
        return false;
    }
    match reports_len(sent, numbers) {
        None => false,
        Some(bytes) => SYNC_BYTES + bytes <= MESSAGE_BYTES,
    }
}

/// Whether a form can be injected: all that it names is there, and it passes no limit. It takes no
/// memory to tell.
#[tactic(auto, unfolding(world_rules::specs::Injections::injected_bytes), using(crate::proofs::SizeLaws::report_fits, crate::proofs::SizeLaws::sync_fits, crate::proofs::SizeLaws::offer_fits, crate::proofs::SizeLaws::part_fits))]
pub fn is_injectable(sent: &[Sent], form: &Injection) -> bool
    ensures { result ≡ is_some (injected_bytes sent.now form.now) }
{
    match form {
        Injection::Ask { .. }
        | Injection::Stop { .. }
        | Injection::Reply { .. }
        | Injection::View { .. }
        | Injection::Mark { .. }
        | Injection::StateAsk { .. }
        | Injection::Raw { .. } => true,
        Injection::Propose { asks, .. } => is_proposable(sent, asks.as_slice()),
        Injection::Vote { proposal, .. } => batch_at(sent, *proposal).is_some(),
        Injection::StopData { evidence, lock, .. } => fits_report(sent, *evidence, *lock),
        Injection::Sync { reports, .. } => fits_sync(sent, reports.as_slice()),
        Injection::Offer { marks, .. } => fits_offer(sent, marks.as_slice()),
        Injection::Part { bytes, .. } => bytes.len() <= PIECE_BYTES,
    }
}

/// The requests of messages.
fn requests_at(
    alloc: Global,
    sent: &[Sent],
    asks: &[u64],
) -> Result<Option<Sequence<Signed<Request>>>, AllocError>
    ensures { IfOk result (λ qs. qs ≡ requests_at sent.now asks.now) }
{
    let mut list = Sequence::new(alloc);
    for number in asks {
        match request_at(sent, *number) {
            None => return Ok(None),
            Some(request) => list.push(request.duplicate(alloc)?)?,
        }
    }
    Ok(Some(list))
}

/// The batch of the requests of messages.
fn proposable(alloc: Global, sent: &[Sent], asks: &[u64]) -> Result<Option<Batch>, AllocError>
    ensures { IfOk result (λ batch. batch ≡ proposable (requests_at sent.now asks.now)) }
{
    if !is_proposable(sent, asks) {
        return Ok(None);
    }
    match requests_at(alloc, sent, asks)? {
        None => Ok(None),
        Some(list) => Ok(Some(Batch::from_list(list))),
    }
}

/// A statement in the name of a signer.
#[tactic(auto, unfolding(smart_keys::specs::Keys::tag_of))]
fn sealed<S: Statement>(
    alloc: Global,
    ring: &Ring,
    signer: u16,
    statement: S,
) -> Result<Signed<S>, AllocError>
    ensures { IfOk result (λ s. s ≡ signed S.form ring.now signer statement) }
{
    let mut sealer = ring.sealer(party_of(S::kind(), signer));
    match Signed::seal(alloc, &mut sealer, signer, statement) {
        Ok(signed) => Ok(signed),
        // A sealer's only want is memory.
        Err(_) => Err(AllocError),
    }
}

/// What names a batch in votes.
#[tactic(auto, unfolding(replica_rules::specs::Seals::digest_of))]
fn digest_of(alloc: Global, batch: &Batch) -> Result<Digest32, AllocError>
    ensures { IfOk result (λ digest. digest ≡ digest_of batch.now) }
{
    let text = batch.text(alloc)?;
    Ok(Sha::digest(text.as_slice()))
}

fn spelled(alloc: Global, message: Message) -> Result<Option<Bytes>, AllocError>
    ensures { IfOk result (λ bytes. bytes ≡ Some (spelling message)) }
{
    let bytes = encode(alloc, &message);
    drop(message);
    Ok(Some(Bytes::from_vec(bytes?)))
}

fn ask_bytes(
    alloc: Global,
    ring: &Ring,
    client: ClientId,
    seq: u64,
    after: u64,
    op: &Payload,
) -> Result<Option<Bytes>, AllocError>
    requires { ring.now ≡ group_secret }
    ensures { IfOk result (λ bytes. bytes ≡ Some (spelling (changes.Ask (signed requests group_secret client (record { client = client; seq = seq; after = after; op = op.now }))))) }
{
    let request = Request {
        client,
        seq,
        after,
        op: op.duplicate(alloc)?,
    };
    let signed = sealed(alloc, ring, client.get(), request)?;
    spelled(alloc, Message::Ask(signed))
}

fn proposal_bytes(
    alloc: Global,
    ring: &Ring,
    sent: &[Sent],
    signer: MemberId,
    slot: Slot,
    asks: &[u64],
) -> Result<Option<Bytes>, AllocError>
    requires { ring.now ≡ group_secret }
    ensures { IfOk result (λ bytes. bytes ≡ option_and_then (proposal_bytes signer slot) (requests_at sent.now asks.now)) }
{
    match proposable(alloc, sent, asks)? {
        None => Ok(None),
        Some(batch) => {
            let digest = digest_of(alloc, &batch)?;
            let head = sealed(alloc, ring, signer.get(), Proposal { slot, digest })?;
            let message = Message::Propose(Proposed { head, batch });
            spelled(alloc, message)
        }
    }
}

fn vote_bytes(
    alloc: Global,
    ring: &Ring,
    sent: &[Sent],
    kind: VoteKind,
    signer: MemberId,
    slot: Slot,
    proposal: u64,
) -> Result<Option<Bytes>, AllocError>
    requires { ring.now ≡ group_secret }
    ensures { IfOk result (λ bytes. bytes ≡ option_and_then (vote_bytes kind signer slot) (option_and_then batch_proposed (content_at sent.now proposal))) }
{
    match batch_at(sent, proposal) {
        None => Ok(None),
        Some(batch) => {
            let digest = digest_of(alloc, batch)?;
            let ballot = Ballot { kind, slot, digest };
            let signed = sealed(alloc, ring, signer.get(), ballot)?;
            spelled(alloc, Message::Vote(signed))
        }
    }
}

/// Bytes that are not more than a message has.
fn short_bytes(bytes: Bytes) -> Option<Bytes>
    ensures { result ≡ short_bytes bytes }
{
    if bytes.len() <= MESSAGE_BYTES {
        Some(bytes)
    } else {
        None
    }
}

/// The bytes of a message, if they are not more than a message has.
fn short_spelling(alloc: Global, message: Message) -> Result<Option<Bytes>, AllocError>
    ensures { IfOk result (λ bytes. bytes ≡ short_bytes (spelling message)) }
{
    let bytes = encode(alloc, &message);
    drop(message);
    Ok(short_bytes(Bytes::from_vec(bytes?)))
}

fn stop_bytes(
    alloc: Global,
    ring: &Ring,
    signer: MemberId,
    view: ViewNo,
    regency: Regency,
) -> Result<Option<Bytes>, AllocError>
    requires { ring.now ≡ group_secret }
    ensures { IfOk result (λ bytes. bytes ≡ Some (spelling (changes.Stop (signed stops group_secret signer (record { view = view; regency = regency }))))) }
{
    let signed = sealed(alloc, ring, signer.get(), Stop { view, regency })?;
    spelled(alloc, Message::Stop(signed))
}

fn view_bytes(
    alloc: Global,
    ring: &Ring,
    signer: MemberId,
    view: &View,
) -> Result<Option<Bytes>, AllocError>
    requires { ring.now ≡ group_secret }
    ensures { IfOk result (λ bytes. bytes ≡ Some (spelling (changes.ViewTold (signed view_infos group_secret signer (record { view = view.now }))))) }
{
    let info = ViewInfo {
        view: view.duplicate(alloc)?,
    };
    let signed = sealed(alloc, ring, signer.get(), info)?;
    spelled(alloc, Message::ViewTold(signed))
}

fn mark_bytes(
    alloc: Global,
    ring: &Ring,
    signer: MemberId,
    place: Place,
    digest: Digest32,
) -> Result<Option<Bytes>, AllocError>
    requires { ring.now ≡ group_secret }
    ensures { IfOk result (λ bytes. bytes ≡ Some (spelling (changes.Mark (signed marks group_secret signer (record { place = place; digest = digest }))))) }
{
    let signed = sealed(alloc, ring, signer.get(), Mark { place, digest })?;
    spelled(alloc, Message::Mark(signed))
}

/// The marks of messages.
fn marks_at(
    alloc: Global,
    sent: &[Sent],
    numbers: &[u64],
) -> Result<Option<Sequence<Signed<Mark>>>, AllocError>
    ensures value { IfOk result (λ marks. marks ≡ marks_at sent.now numbers.now) }
    ensures count { IfOk result (λ marks. IfSome marks (λ ms. length ms ≡ length numbers.now)) }
{
    let mut list = Sequence::new(alloc);
    for number in numbers {
        match mark_at(sent, *number) {
            None => return Ok(None),
            Some(mark) => list.push(mark.duplicate(alloc)?)?,
        }
    }
    Ok(Some(list))
}

fn offer_bytes(
    alloc: Global,
    sent: &[Sent],
    member: MemberId,
    place: Place,
    size: u32,
    numbers: &[u64],
) -> Result<Option<Bytes>, AllocError>
    ensures { IfOk result (λ bytes. bytes ≡ (if nat_le (length numbers.now) MARKS then option_and_then (offer_bytes member place size) (marks_at sent.now numbers.now) else None)) }
{
    if MARKS < numbers.len() {
        return Ok(None);
    }
    match marks_at(alloc, sent, numbers)? {
        None => Ok(None),
        Some(marks) => {
            let offer = StateOffer {
                member,
                place,
                size,
                marks: SignedList::from_list(marks),
            };
            short_spelling(alloc, Message::StateOffer(offer))
        }
    }
}

fn part_bytes(
    alloc: Global,
    place: Place,
    index: u32,
    total: u32,
    bytes: &Bytes,
) -> Result<Option<Bytes>, AllocError>
    ensures { IfOk result (λ text. text ≡ (if nat_le (length bytes.now) PIECE_BYTES then Some (spelling (changes.StatePart (record { place = place; index = index; total = total; bytes = bytes.now }))) else None)) }
{
    if PIECE_BYTES < bytes.len() {
        return Ok(None);
    }
    let part = StatePart {
        place,
        index,
        total,
        bytes: Piece::new(bytes.duplicate(alloc)?),
    };
    spelled(alloc, Message::StatePart(part))
}

fn is_early(vote: &Signed<Ballot>) -> bool
    ensures { result ≡ is_early vote.now }
{
    vote.statement().slot.regency == Regency::new(0)
}

/// Copies of votes of regency 0.
fn early_accepts(alloc: Global, votes: &[Signed<Ballot>]) -> Result<SignedList<Ballot>, AllocError>
    requires { length votes.now < 2 ^ 16 }
    ensures { IfOk result (λ list. list ≡ filter is_early votes.now) }
{
    let mut list = Sequence::new(alloc);
    for vote in votes {
        if is_early(vote) {
            list.push(vote.duplicate(alloc)?)?;
        }
    }
    Ok(SignedList::from_list(list))
}

/// The view of the first vote; a given one if there is none.
fn view_of_first(view: ViewNo, votes: &[Signed<Ballot>]) -> ViewNo
    ensures { result ≡ view_of_first view votes.now }
{
    match votes.first() {
        None => view,
        Some(vote) => vote.statement().slot.view,
    }
}

/// What a decision shows: its place, and its votes of regency 0 as evidence.
fn evident_by(alloc: Global, view: ViewNo, proven: &ProvenBatch) -> Result<Evident, AllocError>
    ensures { IfOk result (λ shown. evident_of shown ≡ evident_by view proven.now) }
{
    let accepts = early_accepts(alloc, proven.accepts.as_slice())?;
    let proof = DecisionProof {
        view: view_of_first(view, accepts.as_slice()),
        regency: Regency::new(0),
        digest: digest_of(alloc, &proven.batch)?,
        accepts,
    };
    Ok(Evident {
        last: proven.place,
        evidence: Evidence::Decided(proof),
    })
}

/// What the decision of a number shows; place 0 without evidence if none is named.
fn evident_at(
    alloc: Global,
    sent: &[Sent],
    view: ViewNo,
    decision: Option<u64>,
) -> Result<Option<Evident>, AllocError>
    ensures { IfOk result (λ shown. option_map evident_of shown ≡ evident_at sent.now view decision) }
{
    match decision {
        None => Ok(Some(Evident {
            last: Place::zero(),
            evidence: Evidence::Nothing,
        })),
        Some(number) => match decision_at(sent, number) {
            None => Ok(None),
            Some(proven) => Ok(Some(evident_by(alloc, view, proven)?)),
        },
    }
}

/// The lock of a report, and its batch: none, or those of the report of a number.
fn locked_at(alloc: Global, sent: &[Sent], lock: Option<u64>) -> Result<Option<Locked>, AllocError>
    ensures { IfOk result (λ locked. option_map locked_of locked ≡ locked_at sent.now lock) }
{
    match lock {
        None => Ok(Some(Locked {
            lock: None,
            batch: None,
        })),
        Some(number) => match report_at(sent, number) {
            None => Ok(None),
            Some(reported) => Ok(Some(Locked {
                lock: duplicate_optional(alloc, &reported.head.statement().lock)?,
                batch: duplicate_optional(alloc, &reported.batch)?,
            })),
        },
    }
}

/// The bytes of a report that takes this over.
fn locked_bytes(
    alloc: Global,
    ring: &Ring,
    signer: MemberId,
    view: ViewNo,
    regency: Regency,
    evident: Evident,
    locked: Locked,
) -> Result<Option<Bytes>, AllocError>
    requires { ring.now ≡ group_secret }
    ensures { IfOk result (λ bytes. bytes ≡ report_bytes signer view regency (evident_of evident) (locked_of locked)) }
{
    let report = Report {
        view,
        regency,
        last: evident.last,
        evidence: evident.evidence,
        lock: locked.lock,
    };
    let batch = locked.batch;
    let head = sealed(alloc, ring, signer.get(), report)?;
    let message = Message::StopData(Reported { head, batch });
    short_spelling(alloc, message)
}

fn report_bytes(
    alloc: Global,
    ring: &Ring,
    sent: &[Sent],
    signer: MemberId,
    view: ViewNo,
    regency: Regency,
    evident: Evident,
    lock: Option<u64>,
) -> Result<Option<Bytes>, AllocError>
    requires { ring.now ≡ group_secret }
    ensures { IfOk result (λ bytes. bytes ≡ option_and_then (report_bytes signer view regency (evident_of evident)) (locked_at sent.now lock)) }
{
    match locked_at(alloc, sent, lock)? {
        None => Ok(None),
        Some(locked) => locked_bytes(alloc, ring, signer, view, regency, evident, locked),
    }
}

/// The reports of messages.
fn reports_at(
    alloc: Global,
    sent: &[Sent],
    numbers: &[u64],
) -> Result<Option<Sequence<Signed<Report>>>, AllocError>
    ensures value { IfOk result (λ reports. reports ≡ reports_at sent.now numbers.now) }
    ensures count { IfOk result (λ reports. IfSome reports (λ rs. length rs ≡ length numbers.now)) }
{
    let mut list = Sequence::new(alloc);
    for number in numbers {
        match report_at(sent, *number) {
            None => return Ok(None),
            Some(reported) => list.push(reported.head.duplicate(alloc)?)?,
        }
    }
    Ok(Some(list))
}

/// The bytes of the beginning of a regency with reports.
fn collected_bytes(
    alloc: Global,
    ring: &Ring,
    signer: MemberId,
    view: ViewNo,
    regency: Regency,
    reports: Sequence<Signed<Report>>,
) -> Result<Option<Bytes>, AllocError>
    requires secret { ring.now ≡ group_secret }
    requires few { length reports < 2 ^ 16 }
    ensures { IfOk result (λ bytes. bytes ≡ sync_bytes signer view regency reports) }
{
    let sync = Sync {
        view,
        regency,
        collect: SignedList::from_list(reports),
    };
    let signed = sealed(alloc, ring, signer.get(), sync)?;
    short_spelling(alloc, Message::Sync(signed))
}

fn sync_bytes(
    alloc: Global,
    ring: &Ring,
    sent: &[Sent],
    signer: MemberId,
    view: ViewNo,
    regency: Regency,
    numbers: &[u64],
) -> Result<Option<Bytes>, AllocError>
    requires { ring.now ≡ group_secret }
    ensures { IfOk result (λ bytes. bytes ≡ (if nat_lt (length numbers.now) (2 ^ 16) then option_and_then (sync_bytes signer view regency) (reports_at sent.now numbers.now) else None)) }
{
    if LIST_ITEMS < numbers.len() {
        return Ok(None);
    }
    match reports_at(alloc, sent, numbers)? {
        None => Ok(None),
        Some(reports) => collected_bytes(alloc, ring, signer, view, regency, reports),
    }
}

#[tactic(auto, unfolding(world_rules::specs::Injections::injected_bytes))]
fn injected_bytes(
    alloc: Global,
    ring: &Ring,
    sent: &[Sent],
    form: &Injection,
) -> Result<Option<Bytes>, AllocError>
    requires { ring.now ≡ group_secret }
    ensures { IfOk result (λ bytes. bytes ≡ injected_bytes sent.now form.now) }
{
    match form {
        Injection::Ask {
            client,
            seq,
            after,
            op,
        } => ask_bytes(alloc, ring, *client, *seq, *after, op),
        Injection::Propose { signer, slot, asks } => {
            proposal_bytes(alloc, ring, sent, *signer, *slot, asks.as_slice())
        }
        Injection::Vote {
            kind,
            signer,
            slot,
            proposal,
        } => vote_bytes(alloc, ring, sent, *kind, *signer, *slot, *proposal),
        Injection::Stop {
            signer,
            view,
            regency,
        } => stop_bytes(alloc, ring, *signer, *view, *regency),
        Injection::StopData {
            signer,
            view,
            regency,
            evidence,
            lock,
        } => match evident_at(alloc, sent, *view, *evidence)? {
            None => Ok(None),
            Some(evident) => {
                report_bytes(alloc, ring, sent, *signer, *view, *regency, evident, *lock)
            }
        },
        Injection::Sync {
            signer,
            view,
            regency,
            reports,
        } => {
            let numbers = reports.as_slice();
            sync_bytes(alloc, ring, sent, *signer, *view, *regency, numbers)
        }
        Injection::Reply { signer, answer } => {
            let signed = sealed(alloc, ring, signer.get(), answer.duplicate(alloc)?)?;
            spelled(alloc, Message::Reply(signed))
        }
        Injection::View { signer, view } => view_bytes(alloc, ring, *signer, view),
        Injection::Mark {
            signer,
            place,
            digest,
        } => mark_bytes(alloc, ring, *signer, *place, *digest),
        Injection::StateAsk {
            member,
            place,
            fetch,
        } => {
            let ask = StateAsk {
                member: *member,
                place: *place,
                fetch: *fetch,
            };
            spelled(alloc, Message::StateAsk(ask))
        }
        Injection::Offer {
            member,
            place,
            size,
            marks,
        } => offer_bytes(alloc, sent, *member, *place, *size, marks.as_slice()),
        Injection::Part {
            place,
            index,
            total,
            bytes,
        } => part_bytes(alloc, *place, *index, *total, bytes),
        Injection::Raw { bytes } => Ok(Some(bytes.duplicate(alloc)?)),
    }
}

/// Shows what each slice of bytes is: numbers below 256.
fn show_bytes(bytes: &[u8])
    ensures { are_bytes bytes.now ≡ true }
{}

/// What a form injects, if all that it names is there and it passes no limit.
pub fn injected(
    alloc: Global,
    ring: &Ring,
    sent: &[Sent],
    form: &Injection,
) -> Result<Option<Content>, AllocError>
    requires { ring.now ≡ group_secret }
    ensures { IfOk result (λ content. content ≡ injected sent.now form.now) }
{
    match injected_bytes(alloc, ring, sent, form)? {
        None => Ok(None),
        Some(bytes) => {
            show_bytes(bytes.as_slice());
            Ok(Some(read_content(alloc, bytes)?))
        }
    }
}
