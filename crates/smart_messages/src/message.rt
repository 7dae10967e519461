//! The messages of members and clients, and the signed statements that stand in one.
ghost use Rattle.std.specs.Prelude.{◌≡◌, ◌++◌, ◌∷◌, [], IfOk, OnOk, map};
ghost use Rattle.std.specs.List.{flat_map};
ghost use Rattle.std.specs.Option.{option_copied};
ghost use Rattle.smart_messages.specs.Messages.{request_in, proposal_in, vote_in, report_in, mark_in, decision_in, slot_of, batch_in, sealed, sealed_of, statements_in, parts_of_evidence, parts_of_lock, in_report, requests_of};

use crate::party::signer_of;
use crate::regency::{Reported, Stop, Sync, ViewInfo};
use smart_base::bytes::Tag;
use smart_base::duplicate::Duplicate;
use smart_base::party::Party;
use smart_base::sequence::{Bytes, Sequence};
use smart_statements::batch::Batch;
use smart_statements::report::{Evidence, LockCertificate, Mark, Report};
use smart_statements::signed::{Signed, Statement};
use smart_statements::statement::{Answer, Ballot, Proposal, Request, Slot};
use std::alloc::{AllocError, Global};
use transfer_form::transfer::{ProvenBatch, StateAsk, StateOffer, StatePart};

/// A leader's proposal, with its batch.
#[derive(Drop)]
pub struct Proposed {
    pub head: Signed<Proposal>,
    pub batch: Batch,
}

/// A message (Mod-SMaRt, EDCC 2012). Each bears the tag of its signer, but those by which a member
/// takes over another's replica: what they bring is checked by the tags in it.
#[derive(Drop)]
pub enum Message {
    /// ASK: a client asks for an operation, or a member passes its request on.
    Ask(Signed<Request>),
    /// PROPOSE: a leader proposes a batch for a slot.
    Propose(Proposed),
    /// WRITE or ACCEPT: a member votes for a batch in a slot.
    Vote(Signed<Ballot>),
    /// STOP: a member asks for the next regency.
    Stop(Signed<Stop>),
    /// STOPDATA: a member reports its book to the leader of a regency.
    StopData(Reported),
    /// SYNC: a leader begins its regency with the reports that it collected.
    Sync(Signed<Sync>),
    /// DECISION: a member shows a batch that was decided, with the ACCEPTs that prove it.
    Decision(ProvenBatch),
    /// REPLY: a member answers a client.
    Reply(Signed<Answer>),
    /// MARK: a member states the digest of its replica after a place (checkpoints in turn:
    /// Dura-SMaRt, USENIX ATC 2013).
    Mark(Signed<Mark>),
    /// STATEASK: a member asks for others' state (collaborative state transfer: Dura-SMaRt, USENIX ATC
    /// 2013).
    StateAsk(StateAsk),
    /// STATEOFFER: a member offers its newest firm snapshot, with marks of its own.
    StateOffer(StateOffer),
    /// STATEPART: a member gives a part of its snapshot.
    StatePart(StatePart),
    /// VIEWTOLD: a member tells clients the view in force (BFT-SMaRt, DSN 2014).
    ViewTold(Signed<ViewInfo>),
}

impl Duplicate for Proposed {
    fn duplicate(&self, alloc: Global) -> Result<Proposed, AllocError> {
        Ok(Proposed {
            head: self.head.duplicate(alloc)?,
            batch: self.batch.duplicate(alloc)?,
        })
    }
}

impl Duplicate for Message {
    fn duplicate(&self, alloc: Global) -> Result<Message, AllocError> {
        match self {
            Message::Ask(ask) => Ok(Message::Ask(ask.duplicate(alloc)?)),
            Message::Propose(proposed) => Ok(Message::Propose(proposed.duplicate(alloc)?)),
            Message::Vote(vote) => Ok(Message::Vote(vote.duplicate(alloc)?)),
            Message::Stop(stop) => Ok(Message::Stop(stop.duplicate(alloc)?)),
            Message::StopData(reported) => Ok(Message::StopData(reported.duplicate(alloc)?)),
            Message::Sync(sync) => Ok(Message::Sync(sync.duplicate(alloc)?)),
            Message::Decision(proven) => Ok(Message::Decision(proven.duplicate(alloc)?)),
            Message::Reply(reply) => Ok(Message::Reply(reply.duplicate(alloc)?)),
            Message::Mark(mark) => Ok(Message::Mark(mark.duplicate(alloc)?)),
            Message::StateAsk(ask) => Ok(Message::StateAsk(*ask)),
            Message::StateOffer(offer) => Ok(Message::StateOffer(offer.duplicate(alloc)?)),
            Message::StatePart(part) => Ok(Message::StatePart(part.duplicate(alloc)?)),
            Message::ViewTold(info) => Ok(Message::ViewTold(info.duplicate(alloc)?)),
        }
    }
}

/// The request that a message is, if it is one.
pub fn request_in(message: &Message) -> Option<&Signed<Request>>
    ensures { option_copied result ≡ request_in message.now }
{
    match message {
        Message::Ask(request) => Some(request),
        _ => None,
    }
}

/// The PROPOSE that a message is, if it is one.
pub fn proposal_in(message: &Message) -> Option<&Proposed>
    ensures { option_copied result ≡ proposal_in message.now }
{
    match message {
        Message::Propose(proposed) => Some(proposed),
        _ => None,
    }
}

/// The vote that a message is, if it is one.
pub fn vote_in(message: &Message) -> Option<&Signed<Ballot>>
    ensures { option_copied result ≡ vote_in message.now }
{
    match message {
        Message::Vote(ballot) => Some(ballot),
        _ => None,
    }
}

/// The STOPDATA that a message is, if it is one.
pub fn report_in(message: &Message) -> Option<&Reported>
    ensures { option_copied result ≡ report_in message.now }
{
    match message {
        Message::StopData(reported) => Some(reported),
        _ => None,
    }
}

/// The mark that a message is, if it is one.
pub fn mark_in(message: &Message) -> Option<&Signed<Mark>>
    ensures { option_copied result ≡ mark_in message.now }
{
    match message {
        Message::Mark(mark) => Some(mark),
        _ => None,
    }
}

/// The decided batch that a message shows, if it does.
pub fn decision_in(message: &Message) -> Option<&ProvenBatch>
    ensures { option_copied result ≡ decision_in message.now }
{
    match message {
        Message::Decision(proven) => Some(proven),
        _ => None,
    }
}

/// The slot of a PROPOSE or of a vote.
pub fn slot_of(message: &Message) -> Option<Slot>
    ensures { result ≡ slot_of message.now }
{
    match message {
        Message::Propose(proposed) => Some(proposed.head.statement().slot),
        Message::Vote(ballot) => Some(ballot.statement().slot),
        _ => None,
    }
}

/// The batch of a PROPOSE or of a DECISION, or of the lock in a STOPDATA.
pub fn batch_in(message: &Message) -> Option<&Batch>
    ensures { option_copied result ≡ batch_in message.now }
{
    match message {
        Message::Propose(proposed) => Some(&proposed.batch),
        Message::StopData(reported) => reported.batch.as_ref(),
        Message::Decision(proven) => Some(&proven.batch),
        _ => None,
    }
}

/// A signed statement in a message: its signer, its bytes, and the tag over them.
#[derive(Drop)]
pub struct Sealed {
    pub who: Party,
    pub text: Bytes,
    pub tag: Tag,
}

/// Adds a statement.
fn stand<S: Statement>(
    alloc: Global,
    signed: &Signed<S>,
    found: &mut Sequence<Sealed>,
) -> Result<(), AllocError>
    ensures { OnOk result (found.new ≡ found.old ++ sealed S.form signed.now ∷ []) }
{
    found.push(Sealed {
        who: signer_of(signed),
        text: Bytes::from_slice(alloc, signed.bytes())?,
        tag: signed.tag().duplicate(alloc)?,
    })?;
    Ok(())
}

/// Adds statements of one kind.
fn stand_each<S: Statement>(
    alloc: Global,
    items: &[Signed<S>],
    found: &mut Sequence<Sealed>,
) -> Result<(), AllocError>
    ensures { OnOk result (found.new ≡ found.old ++ map (sealed S.form) items.now) }
{
    for item in items {
        stand(alloc, item, found)?;
    }
    Ok(())
}

#[tactic(auto, using(crate::proofs::Walks::voted_are, crate::proofs::Walks::marked_are))]
fn stand_evidence(
    alloc: Global,
    evidence: &Evidence,
    found: &mut Sequence<Sealed>,
) -> Result<(), AllocError>
    ensures { OnOk result (found.new ≡ found.old ++ map sealed_of (parts_of_evidence evidence.now)) }
{
    match evidence {
        Evidence::Nothing => Ok(()),
        Evidence::Decided(proof) => stand_each(alloc, proof.accepts.as_slice(), found),
        Evidence::Marked(certificate) => stand_each(alloc, certificate.marks.as_slice(), found),
    }
}

#[tactic(auto, using(crate::proofs::Walks::voted_are))]
fn stand_lock(
    alloc: Global,
    lock: &Option<LockCertificate>,
    found: &mut Sequence<Sealed>,
) -> Result<(), AllocError>
    ensures { OnOk result (found.new ≡ found.old ++ map sealed_of (parts_of_lock lock.now)) }
{
    match lock {
        None => Ok(()),
        Some(lock) => stand_each(alloc, lock.writes.as_slice(), found),
    }
}

#[tactic(auto, using(crate::proofs::Walks::asked_are))]
fn stand_batch(
    alloc: Global,
    batch: &Option<Batch>,
    found: &mut Sequence<Sealed>,
) -> Result<(), AllocError>
    ensures { OnOk result (found.new ≡ found.old ++ map sealed_of (requests_of batch.now)) }
{
    match batch {
        None => Ok(()),
        Some(batch) => stand_each(alloc, batch.as_slice(), found),
    }
}

/// Adds a report, and what stands in it.
fn stand_report(
    alloc: Global,
    report: &Signed<Report>,
    found: &mut Sequence<Sealed>,
) -> Result<(), AllocError>
    ensures { OnOk result (found.new ≡ found.old ++ map sealed_of (in_report report.now)) }
{
    let statement = report.statement();
    stand(alloc, report, found)?;
    stand_evidence(alloc, &statement.evidence, found)?;
    stand_lock(alloc, &statement.lock, found)?;
    Ok(())
}

fn stand_reports(
    alloc: Global,
    reports: &[Signed<Report>],
    found: &mut Sequence<Sealed>,
) -> Result<(), AllocError>
    ensures { OnOk result (found.new ≡ found.old ++ map sealed_of (flat_map in_report reports.now)) }
{
    for report in reports {
        stand_report(alloc, report, found)?;
    }
    Ok(())
}

fn stand_all(
    alloc: Global,
    message: &Message,
    found: &mut Sequence<Sealed>,
) -> Result<(), AllocError>
    ensures { OnOk result (found.new ≡ found.old ++ map sealed_of (statements_in message.now)) }
{
    match message {
        Message::Ask(request) => stand(alloc, request, found),
        Message::Propose(proposed) => {
            stand(alloc, &proposed.head, found)?;
            stand_each(alloc, proposed.batch.as_slice(), found)?;
            Ok(())
        }
        Message::Vote(ballot) => stand(alloc, ballot, found),
        Message::Stop(stop) => stand(alloc, stop, found),
        Message::StopData(reported) => {
            stand_report(alloc, &reported.head, found)?;
            stand_batch(alloc, &reported.batch, found)?;
            Ok(())
        }
        Message::Sync(sync) => {
            let reports = sync.statement().collect.as_slice();
            stand(alloc, sync, found)?;
            stand_reports(alloc, reports, found)?;
            Ok(())
        }
        Message::Decision(proven) => {
            stand_each(alloc, proven.accepts.as_slice(), found)?;
            stand_each(alloc, proven.batch.as_slice(), found)?;
            Ok(())
        }
        Message::Reply(answer) => stand(alloc, answer, found),
        Message::Mark(mark) => stand(alloc, mark, found),
        Message::StateOffer(offer) => {
            stand_each(alloc, offer.marks.as_slice(), found)?;
            Ok(())
        }
        Message::StateAsk(_) | Message::StatePart(_) => Ok(()),
        Message::ViewTold(info) => stand(alloc, info, found),
    }
}

/// All signed statements that stand in a message, at any depth and with any tags. Error: want of
/// memory.
pub fn statements_in(alloc: Global, message: &Message) -> Result<Sequence<Sealed>, AllocError>
    ensures { IfOk result (λ found. found ≡ map sealed_of (statements_in message.now)) }
{
    let mut found = Sequence::new(alloc);
    stand_all(alloc, message, &mut found)?;
    Ok(found)
}
