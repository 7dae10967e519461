//! The instance itself.
ghost use Rattle.std.specs.Prelude.{◌≡◌, ◌+◌, ◌<◌, [], true, false, Some, None, IfOk, IsSome, OnOk, OnErr, option_map};
ghost use Rattle.std.specs.List.{list_any};
ghost use Rattle.std.specs.Option.{option_copied};
ghost use Rattle.smart_base.specs.Views.{is_member};
ghost use Rattle.smart_statements.specs.declared.statement.VoteKind.TheVariants as kinds;
ghost use Rattle.node_rules.specs.Votes.{has_quorum, name_of};
ghost use Rattle.node_rules.specs.Arrivals.{is_same_proposal, is_same_vote};
ghost use Rattle.node_rules.specs.Nodes.{is_within};
ghost use Rattle.node_rules.specs.Votes.{certificate_votes, proposed_for};
ghost use Rattle.consensus_instance.specs.Instances.{Instance, first_of, regency_of, decided_place, is_free, has_begun, is_bound_to, is_unbound, is_open, open_slot, votable, written, due_by, accepted_named, trimmed, moved_on, taken_to, promising, syncing, resuming};
ghost use Rattle.consensus_instance.specs.Instances.{is_reached, keeps_vote, keeps_proposal, keeping_vote, keeping_proposal};

use crate::find::{
    accepted_proposal, certificate_votes, has_quorum, proposed_for, repeats_proposal, repeats_vote,
};
use crate::needed::{is_ahead, keep_needed};
use crate::rule::Rule;
use crate::start::Start;
use smart_base::bytes::Digest32;
use smart_base::equality::same_bytes;
use smart_base::name::MemberId;
use smart_base::number::{Place, Regency};
use smart_base::view::View;
use smart_messages::message::{Message, Proposed};
use smart_statements::batch::Batch;
use smart_statements::signed::Signed;
use smart_statements::signed_list::SignedList;
use smart_statements::statement::{Ballot, Proposal, Slot, VoteKind};
use std::alloc::{AllocError, Global};
use std::marker::Model;
use vote_book::votes::OwnVotes;

/// The instance of consensus in which a member takes part: that of its next place (Mod-SMaRt, EDCC
/// 2012). A batch goes by the digest that its proposal states; none is digested here. Regency 0 has
/// begun from the first. Proposals and votes are kept of members alone, for slots within reach, and
/// each once: what else comes leaves the instance as it was.
pub struct Instance {
    id: MemberId,
    /// The view in force.
    view: View,
    /// The last delivered place.
    place: Place,
    /// Whether the batch of the next place is decided.
    decided: bool,
    regency: Regency,
    /// The beginning of the regency in force, after the member has adopted it.
    start: Option<Start>,
    /// Proposals and votes, in the order in which they came.
    arrivals: Vec<Message>,
    /// Whether the member has a WRITE in the open slot.
    wrote: bool,
    /// Whether the member has an ACCEPT in the open slot.
    accepted: bool,
}

/// Let go by one call, so that no function that lets one go carries the whole of it.
impl Drop for Instance {
    fn drop(self) {
        let Instance {
            id: _,
            view: _,
            place: _,
            decided: _,
            regency: _,
            start: _,
            arrivals: _,
            wrote: _,
            accepted: _,
        } = self;
    }
}

impl Model for Instance {
    ghost use Rattle.std.specs.Prelude.{◌≡◌, ◌+◌, ◌<◌, ◌^◌, true, IsSome};
    ghost use Rattle.consensus_instance.specs.Instances.{Instance};

    ghost Value = { Instance };

    ghost view = { λ i. record {
      id = i.id;
      view = i.view;
      place = i.place;
      decided = i.decided;
      regency = i.regency;
      start = i.start;
      arrivals = i.arrivals.items;
      wrote = i.wrote;
      accepted = i.accepted;
    } };

    ghost invariant = { λ i. (i.decided ≡ true → i.place + 1 < 2 ^ 63) × (i.regency ≡ 0 → IsSome i.start) };
}

impl Instance {
    /// The instance of the first place of a group, in regency 0, which begins with the group's first
    /// view. It needs no memory.
    pub fn begin(alloc: Global, id: MemberId, view: View) -> Self
        ensures { result ≡ first_of id view [] }
    {
        let base = view.start();
        Instance {
            id,
            view,
            place: Place::zero(),
            decided: false,
            regency: Regency::new(0),
            start: Some(Start { base, bound: None }),
            arrivals: Vec::new(alloc),
            wrote: false,
            accepted: false,
        }
    }

    /// The instance of a restarted member at the next place of a view, with the beginning of its
    /// regency, if it has one, and its votes there. It needs no memory.
    pub fn resume(
        alloc: Global,
        id: MemberId,
        view: View,
        place: Place,
        regency: Regency,
        start: Option<Start>,
        votes: OwnVotes,
    ) -> Self
        requires { regency ≡ 0 → IsSome start }
        ensures { result ≡ resuming id view place regency start votes }
    {
        Instance {
            id,
            view,
            place,
            decided: false,
            regency,
            start,
            arrivals: Vec::new(alloc),
            wrote: votes.wrote,
            accepted: votes.accepted,
        }
    }

    /// The last delivered place.
    pub fn place(&self) -> Place
        ensures { result ≡ self.now.place }
    {
        self.place
    }

    /// The regency in force.
    pub fn regency(&self) -> Regency
        ensures { result ≡ regency_of self.now }
    {
        self.regency
    }

    /// The beginning of the regency in force, if it has begun; regency 0 always has.
    pub fn start(&self) -> Option<Start>
        ensures start { result ≡ self.now.start }
        ensures first { self.now.regency ≡ 0 → IsSome result }
    {
        self.start
    }

    /// The last place that is decided, delivered or not.
    pub fn decided_place(&self) -> Place
        ensures { result ≡ decided_place self.now }
    {
        if self.decided {
            self.place.next()
        } else {
            self.place
        }
    }

    /// Whether no decided batch waits for delivery, and there is a next place.
    pub fn is_free(&self) -> bool
        ensures { result ≡ is_free self.now }
    {
        !self.decided && self.place.get() + 1 < 1 << 63
    }

    /// Whether the slot is open at the next place: no decided batch waits, the regency in force has
    /// begun, and its base is this place or an earlier one.
    pub fn is_open(&self) -> bool
        ensures { result ≡ is_open self.now.view self.now }
    {
        self.view.is_member(self.id) && self.is_free() && self.has_begun()
    }

    /// The bound of a place, if it has one: members vote there for this digest alone in the regency
    /// in force. A leader proposes no other batch there.
    pub fn is_bound_to(&self, place: Place) -> Option<&Digest32>
        ensures { option_copied result ≡ is_bound_to place self.now }
    {
        match &self.start {
            Some(start) if start.base == place.get() => start.bound.as_ref(),
            Some(_) | None => None,
        }
    }

    /// Whether a proposal in the regency in force is for another batch than the bound one at its
    /// place.
    pub fn is_unbound(&self, proposed: &Proposed) -> bool
        ensures { result ≡ is_unbound proposed.now self.now }
    {
        let proposal = proposed.head.statement();
        proposal.slot.regency == self.regency
            && !self.may_have(proposal.slot.place, &proposal.digest)
    }

    /// The slot in which the member takes part.
    pub fn open_slot(&self) -> Slot
        requires { is_free self.now ≡ true }
        ensures { result ≡ open_slot self.now.view self.now }
    {
        Slot {
            view: self.view.number(),
            place: self.place.next(),
            regency: self.regency(),
        }
    }

    /// Keeps a member's proposal for a slot within reach, unless it repeats one; else the instance
    /// stays as it was. Error: want of memory; nothing is kept then.
    pub fn on_propose(&mut self, propose: Signed<Proposal>, batch: Batch) -> Result<(), AllocError>
        ensures ok { OnOk result (self.new ≡ keeping_proposal (record { head = propose; batch = batch }) self.old) }
        ensures err { OnErr result (self.new ≡ self.old) }
    {
        let proposed = Proposed {
            head: propose,
            batch,
        };
        if !self.keeps_proposal(&proposed) {
            return Ok(());
        }
        self.arrivals.push(Message::Propose(proposed))?;
        Ok(())
    }

    /// Keeps a member's vote for a slot within reach, unless it repeats one; else the instance stays as
    /// it was. Error: want of memory; nothing is kept then.
    pub fn on_vote(&mut self, vote: Signed<Ballot>) -> Result<(), AllocError>
        ensures ok { OnOk result (self.new ≡ keeping_vote vote self.old) }
        ensures err { OnErr result (self.new ≡ self.old) }
    {
        if !self.keeps_vote(&vote) {
            return Ok(());
        }
        self.arrivals.push(Message::Vote(vote))?;
        Ok(())
    }

    /// Whether a proposal may be kept.
    #[tactic(auto, unfolding(crate::specs::Instances::keeps_proposal))]
    fn keeps_proposal(&self, proposed: &Proposed) -> bool
        ensures { result ≡ keeps_proposal proposed.now self.now }
    {
        self.has_member(proposed.head.signer())
            && self.reaches(&proposed.head.statement().slot)
            && !self.repeats_proposal(proposed)
    }

    /// Whether a vote may be kept.
    #[tactic(auto, unfolding(crate::specs::Instances::keeps_vote))]
    fn keeps_vote(&self, vote: &Signed<Ballot>) -> bool
        ensures { result ≡ keeps_vote vote.now self.now }
    {
        self.has_member(vote.signer())
            && self.reaches(&vote.statement().slot)
            && !self.repeats_vote(vote)
    }

    fn has_member(&self, signer: u16) -> bool
        ensures { result ≡ is_member self.now.view signer }
    {
        self.view.is_member(MemberId::new(signer))
    }

    /// Whether a slot is within reach: of the view in force, one or two places past the last decided
    /// one, and of the regency in force or the next one.
    fn reaches(&self, slot: &Slot) -> bool
        ensures { result ≡ is_reached self.now slot.now }
    {
        let place = self.decided_place();
        is_ahead(self.view.number(), place, self.regency, slot)
            && slot.place.get() <= place.get() + 2
            && slot.regency.get() as u64 <= self.regency.get() as u64 + 1
    }

    /// Whether the signer's proposal for the slot was kept before.
    pub fn repeats_proposal(&self, proposed: &Proposed) -> bool
        ensures { result ≡ list_any (is_same_proposal proposed.now) self.now.arrivals }
    {
        repeats_proposal(self.arrivals.as_slice(), proposed)
    }

    /// Whether the signer's vote of this kind for the slot was kept before.
    pub fn repeats_vote(&self, ballot: &Signed<Ballot>) -> bool
        ensures { result ≡ list_any (is_same_vote ballot.now) self.now.arrivals }
    {
        repeats_vote(self.arrivals.as_slice(), ballot)
    }

    /// The proposal for which a vote is due now, if there is one.
    #[tactic(auto, unfolding(crate::specs::Instances::due_by))]
    pub fn due(&self, rule: Rule) -> Option<&Proposed>
        ensures proposal { option_copied result ≡ due_by rule self.now.view self.now }
        ensures free { IsSome result → is_free self.now ≡ true }
    {
        match rule {
            Rule::Write if self.is_open() && !self.wrote => self.votable(),
            Rule::Accept if self.is_open() && !self.accepted => self.written(self.votable()),
            Rule::Write | Rule::Accept => None,
        }
    }

    /// A certificate for a digest in a slot: copies of the votes of the first members by number that
    /// make a quorum; of all that voted so if they are fewer. Error: want of memory.
    pub fn votes(
        &self,
        alloc: Global,
        kind: VoteKind,
        slot: &Slot,
        digest: &Digest32,
    ) -> Result<SignedList<Ballot>, AllocError>
        ensures { IfOk result (λ votes. votes ≡ certificate_votes self.now.arrivals self.now.view kind slot.now digest.now) }
    {
        let arrivals = self.arrivals.as_slice();
        certificate_votes(alloc, arrivals, &self.view, kind, slot, digest)
    }

    /// Whether a quorum accepted a digest in a slot.
    pub fn is_accepted(&self, slot: &Slot, digest: &Digest32) -> bool
        ensures { result ≡ has_quorum self.now.arrivals self.now.view kinds.Accept slot.now digest.now }
    {
        has_quorum(
            self.arrivals.as_slice(),
            &self.view,
            VoteKind::Accept,
            slot,
            digest,
        )
    }

    /// The first proposal whose batch a quorum accepted in a slot. It is for the slot's place in its
    /// view, in the regency in force or a later one. The slot may be of another regency.
    pub fn accepted_proposal(&self, slot: &Slot) -> Option<&Proposed>
        ensures { option_map name_of (option_copied result) ≡ accepted_named self.now.view slot.now self.now }
    {
        accepted_proposal(self.arrivals.as_slice(), &self.view, self.regency, slot)
    }

    /// Notes that the member has a WRITE in the open slot.
    pub fn wrote(&mut self)
        ensures { self.new ≡ record self.old { wrote = true } }
    {
        self.wrote = true;
    }

    /// Notes that the member has an ACCEPT in the open slot.
    pub fn accepted(&mut self)
        ensures { self.new ≡ record self.old { accepted = true } }
    {
        self.accepted = true;
    }

    /// Notes that the batch of the next place is decided.
    pub fn decided(&mut self)
        requires { is_free self.old ≡ true }
        ensures { self.new ≡ record self.old { decided = true } }
    {
        self.decided = true;
    }

    /// Moves to the next place, after the decided batch was delivered; the member has these votes
    /// there.
    pub fn delivered(&mut self, votes: OwnVotes)
        requires { self.old.decided ≡ true }
        ensures { self.new ≡ moved_on votes self.old }
    {
        self.place = self.place.next();
        self.decided = false;
        self.wrote = votes.wrote;
        self.accepted = votes.accepted;
    }

    /// Moves to the place after a replica that was taken over, in the replica's view. The regency in
    /// force there has this beginning, if it has begun; the member has these votes in its slot. What
    /// was kept stays.
    pub fn taken_to(
        &mut self,
        view: View,
        place: Place,
        regency: Regency,
        begins: Option<Start>,
        votes: OwnVotes,
    )
        requires { regency ≡ 0 → IsSome begins }
        ensures { self.new ≡ taken_to view place regency begins votes self.old }
    {
        self.view = view;
        self.place = place;
        self.decided = false;
        self.regency = regency;
        self.start = begins;
        self.wrote = votes.wrote;
        self.accepted = votes.accepted;
    }

    /// Moves to a later regency, which the member has promised. If the regency has begun, this is its
    /// beginning; the member has these votes in its slot. A book that is not tidy may have both
    /// before the promise.
    pub fn promised(&mut self, regency: Regency, start: Option<Start>, votes: OwnVotes)
        requires { self.old.regency < regency }
        ensures { self.new ≡ promising regency start votes self.old }
    {
        self.regency = regency;
        self.start = start;
        self.wrote = votes.wrote;
        self.accepted = votes.accepted;
    }

    /// Notes the beginning of the regency in force, unless it has one already.
    pub fn synced(&mut self, start: Start)
        ensures { self.new ≡ syncing start self.old }
    {
        if self.start.is_none() {
            self.start = Some(start);
        }
    }

    /// Drops the proposals and votes that are no longer needed.
    #[tactic(auto, unfolding(crate::specs::Instances::trimmed))]
    pub fn trim(&mut self)
        ensures { self.new ≡ trimmed self.old.view.number self.old }
    {
        let view = self.view.number();
        let place = self.decided_place();
        let regency = self.regency();
        keep_needed(&mut self.arrivals, view, place, regency);
    }

    /// Whether members vote at the next place: the regency in force has begun, and its base is this
    /// place or an earlier one.
    fn has_begun(&self) -> bool
        ensures { result ≡ has_begun (self.now.place + 1) self.now.start }
    {
        match &self.start {
            None => false,
            Some(start) => start.base <= self.place.get() + 1,
        }
    }

    /// Whether a digest may get votes at a place.
    fn may_have(&self, place: Place, digest: &Digest32) -> bool
        ensures { result ≡ is_within (is_bound_to place self.now) digest.now }
    {
        match self.is_bound_to(place) {
            None => true,
            Some(bound) => same_bytes(bound.as_slice(), digest.as_slice()),
        }
    }

    /// The first proposal for the open slot, if its digest may get votes.
    fn votable(&self) -> Option<&Proposed>
        requires { is_free self.now ≡ true }
        ensures { option_copied result ≡ votable self.now (proposed_for self.now.arrivals (open_slot self.now.view self.now)) }
    {
        match proposed_for(self.arrivals.as_slice(), &self.open_slot()) {
            None => None,
            Some(proposed) => {
                if self.may_have(self.place.next(), &proposed.head.statement().digest) {
                    Some(proposed)
                } else {
                    None
                }
            }
        }
    }

    /// A proposal, if a quorum wrote for it in the open slot.
    fn written<'a>(&self, proposed: Option<&'a Proposed>) -> Option<&'a Proposed>
        requires { is_free self.now ≡ true }
        ensures { option_copied result ≡ written self.now.view self.now (option_copied proposed.entry) }
    {
        match proposed {
            None => None,
            Some(proposed) => {
                let slot = self.open_slot();
                let digest = &proposed.head.statement().digest;
                if has_quorum(
                    self.arrivals.as_slice(),
                    &self.view,
                    VoteKind::Write,
                    &slot,
                    digest,
                ) {
                    Some(proposed)
                } else {
                    None
                }
            }
        }
    }
}
