//! The rule that decides. It has three functions: what is due, what the rule does with it, and both
//! together.
ghost use Rattle.std.specs.Prelude.{◌≡◌, ◌+◌, ◌<◌, ◌^◌, ◌==◌, ◌++◌, true, IfOk, IfSome, OnOk, IsSome, Some, find, filter, length, option_map, filter_map, OnErr};
ghost use Rattle.std.specs.Option.{option_copied, option_to_list};
ghost use Rattle.smart_base.specs.Lists.{or_else};
ghost use Rattle.smart_base.specs.Views.{first_quorum};
ghost use Rattle.node_state.specs.Following.{named};
ghost use Rattle.smart_statements.specs.Forms.{SignedBy};
ghost use Rattle.smart_statements.specs.declared.statement.Ballot.{Ballot};
ghost use Rattle.node_rules.specs.Rules.{has_signed, first_votes, shown_next, decision_shown, slot_in, decision_in, decision_ahead, deciding, decide_batch, decides, fired_if};
ghost use Rattle.node_rules.specs.Nodes.{next_place, is_free, view_of, regency_of};
ghost use Rattle.node_rules.specs.Votes.{name_of, named_in, named_by, accepted_in, decision_by};
ghost use Rattle.node_rules.specs.declared.node.Fired.TheVariants as fires;

use node_rules::node::Fired;
use node_state::find::accept_by_quorum;
use node_state::shown::slot_shown;
use node_state::state::NodeState;
use smart_base::bytes::Digest32;
use smart_base::duplicate::Duplicate;
use smart_base::name::MemberId;
use smart_base::number::Regency;
use smart_base::sequence::Sequence;
use smart_base::view::View;
use smart_messages::message::Proposed;
use smart_service::service::Service;
use smart_statements::batch::Batch;
use smart_statements::signed::Signed;
use smart_statements::signed_list::SignedList;
use smart_statements::statement::{Ballot, Slot, VoteKind};
use std::alloc::{AllocError, Global};
use transfer_form::transfer::ProvenBatch;
use vote_book::entry::{Accept, Decision, LogEntry};

/// The slot of the next place in a regency of the view in force.
fn slot_in<S: Service>(node: &NodeState<S>, regency: Regency) -> Slot
    requires { is_free node.now ≡ true }
    ensures { result ≡ slot_in node.now regency }
{
    Slot {
        view: node.view().number(),
        place: node.place().next(),
        regency,
    }
}

/// The decision in a slot for a batch with its digest, with the ACCEPTs that prove it. Error: want of
/// memory.
fn decision_of<S: Service>(
    node: &NodeState<S>,
    slot: &Slot,
    digest: &Digest32,
    batch: &Batch,
) -> Result<Decision, AllocError>
    ensures decision { IfOk result (λ d. Some d ≡ decision_by (view_of node.now) slot.now node.now.arrivals (Some (record { digest = digest.now; batch = batch.now }))) }
    ensures slot { IfOk result (λ d. d.slot ≡ slot.now) }
{
    let accepts = node.certificate(VoteKind::Accept, slot, digest)?;
    Ok(Decision {
        slot: *slot,
        batch: batch.duplicate(node.alloc)?,
        accepts,
    })
}

/// The first proposal for the place of a slot whose batch a quorum accepted in that slot. It is of
/// the regency in force or a later one.
fn proposed_by_quorum<'a, S: Service>(node: &'a NodeState<S>, slot: &Slot) -> Option<&'a Proposed>
    ensures { option_map name_of (option_copied result) ≡ accepted_in (view_of node.now) slot.now node.now.arrivals (filter_map (named_in slot.now.view slot.now.place (regency_of node.now)) node.now.arrivals) }
{
    node.instance.accepted_proposal(slot)
}

/// The decision in a slot for a proposed batch. Error: want of memory.
fn proposed_decision<S: Service>(
    node: &NodeState<S>,
    slot: &Slot,
) -> Result<Option<Decision>, AllocError>
    ensures decision { IfOk result (λ d. d ≡ decision_by (view_of node.now) slot.now node.now.arrivals (accepted_in (view_of node.now) slot.now node.now.arrivals (filter_map (named_in slot.now.view slot.now.place (regency_of node.now)) node.now.arrivals))) }
    ensures slot { IfOk result (λ d. IfSome d (λ d. d.slot ≡ slot.now)) }
{
    match proposed_by_quorum(node, slot) {
        None => Ok(None),
        Some(proposed) => {
            let digest = &proposed.head.statement().digest;
            Ok(Some(decision_of(node, slot, digest, &proposed.batch)?))
        }
    }
}

/// The first batch that the node accepted at the place of a slot, in any regency, and that a quorum
/// accepted in that slot.
fn accepted_by_quorum<'a, S: Service>(node: &'a NodeState<S>, slot: &Slot) -> Option<&'a Accept>
    requires free { is_free node.now ≡ true }
    requires place { slot.now.place ≡ next_place node.now }
    ensures { option_map named (option_copied result) ≡ accepted_in (view_of node.now) slot.now node.now.arrivals (filter_map (named_by slot.now.view slot.now.place) node.now.entries) }
{
    accept_by_quorum(&node.book, &node.instance, slot)
}

/// The decision in a slot for a batch that the node accepted. Error: want of memory.
fn own_decision<S: Service>(
    node: &NodeState<S>,
    slot: &Slot,
) -> Result<Option<Decision>, AllocError>
    requires free { is_free node.now ≡ true }
    requires place { slot.now.place ≡ next_place node.now }
    ensures decision { IfOk result (λ d. d ≡ decision_by (view_of node.now) slot.now node.now.arrivals (accepted_in (view_of node.now) slot.now node.now.arrivals (filter_map (named_by slot.now.view slot.now.place) node.now.entries))) }
    ensures slot { IfOk result (λ d. IfSome d (λ d. d.slot ≡ slot.now)) }
{
    match accepted_by_quorum(node, slot) {
        None => Ok(None),
        Some(accept) => { Ok(Some(decision_of(node, slot, &accept.digest, &accept.batch)?)) }
    }
}

/// A decision in a slot of the next place, or else one for a batch that the node accepted. Error:
/// want of memory.
fn or_own<S: Service>(
    node: &NodeState<S>,
    first: Option<Decision>,
    slot: &Slot,
) -> Result<Option<Decision>, AllocError>
    requires free { is_free node.now ≡ true }
    requires place { slot.now.place ≡ next_place node.now }
    requires slot { IfSome first (λ d. d.slot ≡ slot.now) }
    ensures decision { IfOk result (λ d. d ≡ or_else first (decision_by (view_of node.now) slot.now node.now.arrivals (accepted_in (view_of node.now) slot.now node.now.arrivals (filter_map (named_by slot.now.view slot.now.place) node.now.entries)))) }
    ensures slot { IfOk result (λ d. IfSome d (λ d. d.slot ≡ slot.now)) }
{
    if first.is_some() {
        return Ok(first);
    }
    own_decision(node, slot)
}

/// The decision that is due in a regency at the next place. Error: want of memory.
fn decision_in<S: Service>(
    node: &NodeState<S>,
    regency: Regency,
) -> Result<Option<Decision>, AllocError>
    requires { is_free node.now ≡ true }
    ensures decision { IfOk result (λ d. d ≡ decision_in node.now regency) }
    ensures place { IfOk result (λ d. IfSome d (λ d. d.slot.place ≡ next_place node.now)) }
{
    let slot = slot_in(node, regency);
    let first = proposed_decision(node, &slot)?;
    let found = or_own(node, first, &slot)?;
    Ok(found)
}

/// The decision that is due in the regency after the one in force. Error: want of memory.
fn decision_ahead<S: Service>(node: &NodeState<S>) -> Result<Option<Decision>, AllocError>
    requires { is_free node.now ≡ true }
    ensures decision { IfOk result (λ d. d ≡ decision_ahead node.now) }
    ensures place { IfOk result (λ d. IfSome d (λ d. d.slot.place ≡ next_place node.now)) }
{
    let present = node.regency().get();
    if present == u32::MAX {
        return Ok(None);
    }
    decision_in(node, Regency::new(present + 1))
}

fn has_signed(votes: &[Signed<Ballot>], member: MemberId) -> bool
    ensures { result ≡ has_signed votes.now member }
{
    votes.iter().any(|vote| vote.signer() == member.get())
}

fn vote_of(votes: &[Signed<Ballot>], member: MemberId) -> Option<&Signed<Ballot>>
    ensures { option_copied result ≡ find (λ (b : SignedBy Ballot). b.signer == member) votes.now }
{
    votes.iter().find(|vote| vote.signer() == member.get())
}

/// The members that have signed some votes. Error: want of memory.
fn signers(
    alloc: Global,
    votes: &[Signed<Ballot>],
    members: &[MemberId],
) -> Result<Sequence<MemberId>, AllocError>
    ensures { IfOk result (λ found. found ≡ filter (has_signed votes.now) members.now) }
{
    let mut found = Sequence::new(alloc);
    for member in members {
        if has_signed(votes, *member) {
            found.push(*member)?;
        }
    }
    Ok(found)
}

/// The first signers by number that make a quorum. Error: want of memory.
fn first_signers(
    alloc: Global,
    view: &View,
    votes: &[Signed<Ballot>],
) -> Result<Sequence<MemberId>, AllocError>
    ensures value { IfOk result (λ members. members ≡ first_quorum view.now (has_signed votes.now)) }
    ensures few { IfOk result (λ members. length members < 2 ^ 16) }
{
    let all = view.members();
    let mut members = signers(alloc, votes, all)?;
    members.truncate(view.quorum());
    Ok(members)
}

/// Adds a copy of the first vote of a member, if there is one. Error: want of memory.
fn add_vote(
    alloc: Global,
    list: &mut SignedList<Ballot>,
    votes: &[Signed<Ballot>],
    member: MemberId,
) -> Result<(), AllocError>
    requires { length list.old + 1 < 2 ^ 16 }
    ensures { OnOk result (list.new ≡ list.old ++ option_to_list (find (λ (b : SignedBy Ballot). b.signer == member) votes.now)) }
{
    match vote_of(votes, member) {
        None => Ok(()),
        Some(vote) => {
            list.push(vote.duplicate(alloc)?)?;
            Ok(())
        }
    }
}

/// Copies of the first votes of some members. Error: want of memory.
fn votes_by(
    alloc: Global,
    votes: &[Signed<Ballot>],
    members: &[MemberId],
) -> Result<SignedList<Ballot>, AllocError>
    requires { length members.now < 2 ^ 16 }
    ensures { IfOk result (λ list. list ≡ filter_map (λ member. find (λ (b : SignedBy Ballot). b.signer == member) votes.now) members.now) }
{
    let mut list = SignedList::new(alloc);
    for member in members {
        add_vote(alloc, &mut list, votes, *member)?;
    }
    Ok(list)
}

/// The votes of the first members by number that make a quorum. Error: want of memory.
fn first_votes(
    alloc: Global,
    view: &View,
    votes: &[Signed<Ballot>],
) -> Result<SignedList<Ballot>, AllocError>
    ensures { IfOk result (λ list. list ≡ first_votes view.now votes.now) }
{
    let members = first_signers(alloc, view, votes)?;
    votes_by(alloc, votes, members.as_slice())
}

/// The first kept decision of the next place.
fn shown_next<S: Service>(node: &NodeState<S>) -> Option<&ProvenBatch>
    requires { is_free node.now ≡ true }
    ensures { option_copied result ≡ shown_next node.now }
{
    let next = node.place().next();
    node.decisions
        .as_slice()
        .iter()
        .find(|proven| proven.place == next)
}

/// The decision that others showed, with the first quorum's ACCEPTs. Error: want of memory.
fn decision_shown<S: Service>(
    node: &NodeState<S>,
    proven: &ProvenBatch,
) -> Result<Decision, AllocError>
    ensures { IfOk result (λ d. d ≡ decision_shown node.now proven.now) }
{
    let votes = proven.accepts.as_slice();
    Ok(Decision {
        slot: slot_shown(node, proven),
        batch: proven.batch.duplicate(node.alloc)?,
        accepts: first_votes(node.alloc, node.view(), votes)?,
    })
}

/// The decision of the next place that others showed, if they did. Error: want of memory.
fn shown_decision<S: Service>(node: &NodeState<S>) -> Result<Option<Decision>, AllocError>
    requires { is_free node.now ≡ true }
    ensures decision { IfOk result (λ d. d ≡ option_map (decision_shown node.now) (shown_next node.now)) }
    ensures place { IfOk result (λ d. IfSome d (λ d. d.slot.place ≡ next_place node.now)) }
{
    match shown_next(node) {
        None => Ok(None),
        Some(proven) => Ok(Some(decision_shown(node, proven)?)),
    }
}

/// The decision that is due, if the node is free: what others showed first, then in the regency in
/// force, then in the next one. Error: want of memory.
#[tactic(auto, unfolding(node_rules::specs::Rules::deciding))]
fn deciding<S: Service>(node: &NodeState<S>) -> Result<Option<Decision>, AllocError>
    ensures decision { IfOk result (λ d. d ≡ deciding node.now) }
    ensures free { IfOk result (λ d. IsSome d → is_free node.now ≡ true) }
    ensures place { IfOk result (λ d. IfSome d (λ d. d.slot.place ≡ next_place node.now)) }
{
    if !node.is_free() {
        return Ok(None);
    }
    let shown = shown_decision(node)?;
    if shown.is_some() {
        return Ok(shown);
    }
    let found = decision_in(node, node.regency())?;
    if found.is_some() {
        return Ok(found);
    }
    decision_ahead(node)
}

#[tactic(auto, unfolding(node_rules::specs::Rules::decide_batch))]
fn decide_batch<S: Service>(node: &mut NodeState<S>, decision: Decision) -> Result<(), AllocError>
    requires free { is_free node.old ≡ true }
    requires place { decision.slot.place ≡ next_place node.old }
    ensures node { OnOk result (node.new ≡ decide_batch node.old (Some decision)) }
    ensures err { OnErr result (node.new.entries ≡ node.old.entries) }
{
    let batch = decision.batch.duplicate(node.alloc)?;
    node.book.push(LogEntry::Decided(decision))?;
    node.waiting = Some(batch);
    node.instance.decided();
    Ok(())
}

/// The rule that decides: a quorum accepted a batch that the node has (Mod-SMaRt, EDCC 2012; a quorum
/// of the next regency: this project's own). The decision is recorded with its proof, and its batch
/// waits for delivery. Error: want of memory.
#[tactic(auto, unfolding(node_rules::specs::Rules::decides, node_rules::specs::Rules::decide_batch))]
pub fn decides<S: Service>(
    node: &mut NodeState<S>,
    fired: &mut Sequence<Fired>,
) -> Result<(), AllocError>
    ensures node { OnOk result (node.new ≡ decides node.old) }
    ensures fired { OnOk result (fired.new ≡ fired.old ++ fired_if (fires.Decided (next_place node.old)) (deciding node.old)) }
    ensures err { OnErr result (node.new.entries ≡ node.old.entries) }
{
    match deciding(node)? {
        None => Ok(()),
        Some(decision) => {
            fired.push(Fired::Decided(node.place().next()))?;
            decide_batch(node, decision)?;
            Ok(())
        }
    }
}
