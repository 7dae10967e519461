//! The statements of members and clients.
ghost use Rattle.std.specs.Prelude.{◌≡◌, ◌++◌, OnOk, OnErr};
ghost use Rattle.smart_base.specs.Cuts.{Takes};
ghost use Rattle.smart_base.specs.Spelling.{Extends};
ghost use Rattle.smart_statements.specs.Kinds.{proposals, ballots, answers, requests};
ghost use Rattle.smart_statements.specs.Reading.{slot_at, proposal_at, vote_kind_at, ballot_at, answer_at, request_at};
ghost use Rattle.smart_statements.specs.Reports.{votes_of, FitsVote};
ghost use Rattle.smart_statements.specs.ReportLaws.{vote_law};
ghost use Rattle.smart_statements.specs.Spelling.{slot as slot_text, vote_kind, FitsProposal, FitsBallot, FitsAnswer, FitsRequest};
ghost use Rattle.smart_statements.specs.Statements.{proposal_law, ballot_law, answer_law, request_law};

use crate::signed::{CLIENT, MEMBER, Selection, Statement};
use smart_base::bytes::{Digest32, Payload};
use smart_base::cursor::Cursor;
use smart_base::duplicate::Duplicate;
use smart_base::fault::{ReadError, Unread};
use smart_base::field::{
    put_text, put_u8, put_u16, put_u32, put_u64, take_count, take_digest, take_kind, take_payload,
    take_same,
};
use smart_base::name::ClientId;
use smart_base::number::{Place, Regency, ViewNo};
use std::alloc::{AllocError, Global};

/// A slot: an instance of consensus in one regency (Mod-SMaRt, EDCC 2012). It has a view, a place of
/// the list and a regency.
#[derive(Clone, Copy, Debug, PartialEq, Eq)]
pub struct Slot {
    pub view: ViewNo,
    pub place: Place,
    pub regency: Regency,
}

/// The two voting phases of an instance (Mod-SMaRt, EDCC 2012).
#[derive(Clone, Copy, Debug, PartialEq, Eq)]
pub enum VoteKind {
    Write,
    Accept,
}

/// A client's request. `seq` is its number, from 1. `after` is the greatest place that the client
/// knew when it asked, 0 if it knew none. `op` is the service's operation, at most 4,096 bytes.
pub struct Request {
    pub client: ClientId,
    pub seq: u64,
    pub after: u64,
    pub op: Payload,
}

/// Let go by one call, so that no function that lets one go carries the whole of it.
impl Drop for Request {
    fn drop(self) {
        let Request {
            client: _,
            seq: _,
            after: _,
            op: _,
        } = self;
    }
}

/// A leader's proposal for a slot: the digest of a batch.
#[derive(Drop)]
pub struct Proposal {
    pub slot: Slot,
    pub digest: Digest32,
}

/// A member's vote in a slot, for the digest of a batch.
#[derive(Drop)]
pub struct Ballot {
    pub kind: VoteKind,
    pub slot: Slot,
    pub digest: Digest32,
}

/// A member's reply to an executed request. It has the request's place in the list, the view in force
/// there, and the service's answer.
pub struct Answer {
    pub view: ViewNo,
    pub place: Place,
    /// The request's index in its batch, from 0.
    pub index: u16,
    pub client: ClientId,
    pub seq: u64,
    pub reply: Payload,
}

/// Let go by one call, so that no function that lets one go carries the whole of it.
impl Drop for Answer {
    fn drop(self) {
        let Answer {
            view: _,
            place: _,
            index: _,
            client: _,
            seq: _,
            reply: _,
        } = self;
    }
}

#[tactic(auto, unfolding(crate::specs::Reading::slot_at))]
fn take_slot(cut: &mut Cursor<'_>) -> Result<Slot, Unread>
    ensures { Takes result cut.new (slot_at cut.old) }
{
    let view = ViewNo::new(cut.take_u32()?);
    let place = Place::new(take_count(cut)?);
    let regency = Regency::new(cut.take_u32()?);
    Ok(Slot {
        view,
        place,
        regency,
    })
}

fn put_slot(out: &mut Vec<u8>, slot: Slot) -> Result<(), AllocError>
    ensures text { OnOk result (out.new.items ≡ out.old.items ++ slot_text slot) }
    ensures err { OnErr result (Extends out.old.items out.new.items) }
{
    let (view, place, regency) = (slot.view.get(), slot.place.get(), slot.regency.get());
    put_u32(out, view)?;
    put_u64(out, place)?;
    put_u32(out, regency)?;
    Ok(())
}

#[tactic(auto, unfolding(smart_base::specs::Cuts::ranged))]
fn take_vote_kind(cut: &mut Cursor<'_>) -> Result<u8, Unread>
    ensures { Takes result cut.new (vote_kind_at cut.old) }
{
    let at = cut.at();
    let found = cut.take_u8()?;
    if found == 2 || found == 3 {
        Ok(found)
    } else {
        Err(Unread { at })
    }
}

/// The first byte of a vote.
fn vote_kind(kind: VoteKind) -> u8
    ensures { result ≡ vote_kind kind }
{
    match kind {
        VoteKind::Write => 2,
        VoteKind::Accept => 3,
    }
}

impl Statement for Proposal {
    ghost form = { proposals };

    ghost fits = { λ signer. FitsProposal };

    ghost agree = { proposal_law };

    fn kind() -> u8 {
        MEMBER
    }

    #[tactic(auto, unfolding(crate::specs::Reading::proposal_at))]
    fn read(_alloc: Global, _signer: u16, cut: &mut Cursor<'_>) -> Result<Proposal, ReadError> {
        take_kind(cut, 1)?;
        let slot = take_slot(cut)?;
        let digest = take_digest(cut)?;
        Ok(Proposal { slot, digest })
    }

    #[tactic(auto, using(crate::specs::Statements::proposal_small))]
    fn put(&self, out: &mut Vec<u8>) -> Result<(), AllocError> {
        put_u8(out, 1)?;
        put_slot(out, self.slot)?;
        out.extend_from_slice(self.digest.as_slice())?;
        Ok(())
    }
}

impl Statement for Ballot {
    ghost form = { ballots };

    ghost fits = { λ signer. FitsBallot };

    ghost agree = { ballot_law };

    fn kind() -> u8 {
        MEMBER
    }

    #[tactic(auto, unfolding(crate::specs::Reading::ballot_at))]
    fn read(_alloc: Global, _signer: u16, cut: &mut Cursor<'_>) -> Result<Ballot, ReadError> {
        let kind = if take_vote_kind(cut)? == 2 {
            VoteKind::Write
        } else {
            VoteKind::Accept
        };
        let slot = take_slot(cut)?;
        let digest = take_digest(cut)?;
        Ok(Ballot { kind, slot, digest })
    }

    #[tactic(auto, using(crate::specs::Statements::ballot_small))]
    fn put(&self, out: &mut Vec<u8>) -> Result<(), AllocError> {
        put_u8(out, vote_kind(self.kind))?;
        put_slot(out, self.slot)?;
        out.extend_from_slice(self.digest.as_slice())?;
        Ok(())
    }
}

/// The selection of votes of one kind.
impl Selection<Ballot> for VoteKind {
    ghost use Rattle.std.specs.Prelude.{refl};

    ghost form = { votes_of };

    ghost fits = { λ kind signer. FitsVote kind };

    ghost of_kind = { λ kind. refl };

    ghost agree = { vote_law };

    #[tactic(auto, unfolding(crate::specs::Reports::vote_at))]
    fn read(
        &self,
        _alloc: Global,
        _signer: u16,
        cut: &mut Cursor<'_>,
    ) -> Result<Ballot, ReadError> {
        take_kind(cut, vote_kind(*self))?;
        let slot = take_slot(cut)?;
        let digest = take_digest(cut)?;
        Ok(Ballot {
            kind: *self,
            slot,
            digest,
        })
    }
}

impl Statement for Answer {
    ghost form = { answers };

    ghost fits = { λ signer. FitsAnswer };

    ghost agree = { answer_law };

    fn kind() -> u8 {
        MEMBER
    }

    #[tactic(auto, unfolding(crate::specs::Reading::answer_at))]
    fn read(alloc: Global, _signer: u16, cut: &mut Cursor<'_>) -> Result<Answer, ReadError> {
        take_kind(cut, 8)?;
        let view = ViewNo::new(cut.take_u32()?);
        let place = Place::new(take_count(cut)?);
        let index = cut.take_u16()?;
        let client = ClientId::new(cut.take_u16()?);
        let seq = take_count(cut)?;
        let reply = take_payload(alloc, cut)?;
        Ok(Answer {
            view,
            place,
            index,
            client,
            seq,
            reply,
        })
    }

    #[tactic(auto, using(crate::specs::Statements::answer_small))]
    fn put(&self, out: &mut Vec<u8>) -> Result<(), AllocError> {
        let (view, place, client) = (self.view.get(), self.place.get(), self.client.get());
        let reply = self.reply.as_slice();
        put_u8(out, 8)?;
        put_u32(out, view)?;
        put_u64(out, place)?;
        put_u16(out, self.index)?;
        put_u16(out, client)?;
        put_u64(out, self.seq)?;
        put_text(out, reply)?;
        Ok(())
    }
}

impl Statement for Request {
    ghost form = { requests };

    ghost fits = { FitsRequest };

    ghost agree = { request_law };

    fn kind() -> u8 {
        CLIENT
    }

    #[tactic(auto, unfolding(crate::specs::Reading::request_at))]
    fn read(alloc: Global, signer: u16, cut: &mut Cursor<'_>) -> Result<Request, ReadError> {
        take_kind(cut, 9)?;
        let client = ClientId::new(take_same(cut, signer)?);
        let seq = take_count(cut)?;
        let after = cut.take_u64()?;
        let op = take_payload(alloc, cut)?;
        Ok(Request {
            client,
            seq,
            after,
            op,
        })
    }

    #[tactic(auto, using(crate::specs::Statements::request_small))]
    fn put(&self, out: &mut Vec<u8>) -> Result<(), AllocError> {
        let client = self.client.get();
        let op = self.op.as_slice();
        put_u8(out, 9)?;
        put_u16(out, client)?;
        put_u64(out, self.seq)?;
        put_u64(out, self.after)?;
        put_text(out, op)?;
        Ok(())
    }
}

impl Duplicate for Request {
    fn duplicate(&self, alloc: Global) -> Result<Request, AllocError> {
        Ok(Request {
            client: self.client,
            seq: self.seq,
            after: self.after,
            op: self.op.duplicate(alloc)?,
        })
    }
}

impl Duplicate for Proposal {
    fn duplicate(&self, _alloc: Global) -> Result<Proposal, AllocError> {
        Ok(Proposal {
            slot: self.slot,
            digest: self.digest,
        })
    }
}

impl Duplicate for Ballot {
    fn duplicate(&self, _alloc: Global) -> Result<Ballot, AllocError> {
        Ok(Ballot {
            kind: self.kind,
            slot: self.slot,
            digest: self.digest,
        })
    }
}

impl Duplicate for Answer {
    fn duplicate(&self, alloc: Global) -> Result<Answer, AllocError> {
        Ok(Answer {
            view: self.view,
            place: self.place,
            index: self.index,
            client: self.client,
            seq: self.seq,
            reply: self.reply.duplicate(alloc)?,
        })
    }
}
