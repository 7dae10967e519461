//! The judging of proposals and votes.
ghost use Rattle.std.specs.Prelude.{◌≡◌, ◌||◌, ◌&&◌, None, is_none, IfOk, OnOk, OnErr};
ghost use Rattle.replica_rules.specs.Seals.{is_verified};
ghost use Rattle.node_rules.specs.Nodes.{ring_of};
ghost use Rattle.node_rules.specs.Arrivals.{signer_why, is_unbound, why_propose, why_vote, why_unasked, is_beyond, noted, kept};
ghost use Rattle.node_judging.specs.Arriving.{kept_unless};
ghost use Rattle.smart_messages.specs.declared.message.Message.TheVariants as plain;

use crate::reasons::{is_beyond, signer_why, slot_why};
use node_restart::batch::is_batch_for;
use node_rules::node::Why;
use node_state::state::NodeState;
use smart_messages::message::Proposed;
use smart_service::service::Service;
use smart_statements::signed::{Signed, Statement};
use smart_statements::statement::{Ballot, Slot};
use std::alloc::AllocError;

/// Keeps a PROPOSE, or tells why it is dropped. Error: want of memory.
#[tactic(auto, unfolding(node_rules::specs::Arrivals::noted, node_rules::specs::Arrivals::kept))]
pub fn take_proposal<S: Service>(
    node: &mut NodeState<S>,
    proposed: Proposed,
) -> Result<Option<Why>, AllocError>
    ensures why { IfOk result (λ why. why ≡ why_propose node.old proposed) }
    ensures node { IfOk result (λ why. node.new ≡ kept_unless why (noted node.old (plain.Propose proposed)) (plain.Propose proposed)) }
    ensures err { OnErr result (node.new.entries ≡ node.old.entries) }
    ensures snapshots { OnErr result (node.new.taken ≡ node.old.taken) }
{
    let dropped = why_propose(node, &proposed)?;
    note(node, &proposed.head, proposed.head.statement().slot);
    if dropped.is_some() {
        return Ok(dropped);
    }
    keep_proposal(node, proposed)?;
    Ok(None)
}

/// Keeps a PROPOSE that is not dropped. Error: want of memory.
fn keep_proposal<S: Service>(node: &mut NodeState<S>, proposed: Proposed) -> Result<(), AllocError>
    requires { why_propose node.old proposed ≡ None }
    ensures node { OnOk result (node.new ≡ kept node.old (plain.Propose proposed)) }
    ensures err { OnErr result (node.new.entries ≡ node.old.entries) }
    ensures snapshots { OnErr result (node.new.taken ≡ node.old.taken) }
{
    let Proposed { head, batch } = proposed;
    node.instance.on_propose(head, batch)?;
    Ok(())
}

/// Keeps a vote, or tells why it is dropped. Error: want of memory.
#[tactic(auto, unfolding(node_rules::specs::Arrivals::noted, node_rules::specs::Arrivals::kept))]
pub fn take_vote<S: Service>(
    node: &mut NodeState<S>,
    ballot: Signed<Ballot>,
) -> Result<Option<Why>, AllocError>
    ensures why { IfOk result (λ why. why ≡ why_vote node.old ballot) }
    ensures node { IfOk result (λ why. node.new ≡ kept_unless why (noted node.old (plain.Vote ballot)) (plain.Vote ballot)) }
    ensures err { OnErr result (node.new.entries ≡ node.old.entries) }
    ensures snapshots { OnErr result (node.new.taken ≡ node.old.taken) }
{
    let dropped = why_vote(node, &ballot);
    note(node, &ballot, ballot.statement().slot);
    if dropped.is_some() {
        return Ok(dropped);
    }
    keep_vote(node, ballot)?;
    Ok(None)
}

/// Keeps a vote that is not dropped. Error: want of memory.
fn keep_vote<S: Service>(node: &mut NodeState<S>, ballot: Signed<Ballot>) -> Result<(), AllocError>
    requires { why_vote node.old ballot ≡ None }
    ensures node { OnOk result (node.new ≡ kept node.old (plain.Vote ballot)) }
    ensures err { OnErr result (node.new.entries ≡ node.old.entries) }
    ensures snapshots { OnErr result (node.new.taken ≡ node.old.taken) }
{
    node.instance.on_vote(ballot)?;
    Ok(())
}

/// Notes that the node lags, if a member's message for a slot shows it.
fn note<S: Service, T: Statement>(node: &mut NodeState<S>, signed: &Signed<T>, slot: Slot)
    ensures { node.new ≡ record node.old { behind = node.old.behind || (is_none (signer_why node.old (is_verified T.form (ring_of node.old) signed.now) signed.now.signer) && is_beyond node.old slot) } }
{
    node.behind = node.behind || is_beyond(node, slot) && signer_why(node, signed).is_none();
}

/// Whether a proposal in the regency in force is for another batch than the bound one at its place.
fn is_unbound<S: Service>(node: &NodeState<S>, proposed: &Proposed) -> bool
    ensures { result ≡ is_unbound node.now proposed.now }
{
    node.instance.is_unbound(proposed)
}

#[tactic(auto, unfolding(node_rules::specs::Arrivals::why_propose))]
fn why_propose<S: Service>(
    node: &NodeState<S>,
    proposed: &Proposed,
) -> Result<Option<Why>, AllocError>
    ensures { IfOk result (λ why. why ≡ why_propose node.now proposed.now) }
{
    let head = &proposed.head;
    if let Some(why) = signer_why(node, head) {
        return Ok(Some(why));
    }
    let proposal = head.statement();
    let slot = proposal.slot;
    if let Some(why) = slot_why(node, slot) {
        return Ok(Some(why));
    }
    if head.signer() != node.view().leader(slot.regency).get() {
        return Ok(Some(Why::NotLeader));
    }
    let place = slot.place.get();
    if !is_batch_for(
        node.alloc,
        node.keys.ring(),
        place,
        &proposal.digest,
        &proposed.batch,
    )? {
        Ok(Some(Why::InvalidBatch))
    } else if is_unbound(node, proposed) {
        Ok(Some(Why::Unbound))
    } else if node.instance.repeats_proposal(proposed) {
        Ok(Some(Why::Repeated))
    } else {
        Ok(None)
    }
}

#[tactic(auto, unfolding(node_rules::specs::Arrivals::why_vote))]
fn why_vote<S: Service>(node: &NodeState<S>, ballot: &Signed<Ballot>) -> Option<Why>
    ensures { result ≡ why_vote node.now ballot.now }
{
    if let Some(why) = signer_why(node, ballot) {
        return Some(why);
    }
    if let Some(why) = slot_why(node, ballot.statement().slot) {
        return Some(why);
    }
    if node.instance.repeats_vote(ballot) {
        Some(Why::Repeated)
    } else {
        None
    }
}

/// Why a member's message is dropped that is of a kind for which no member waits.
#[tactic(auto, unfolding(node_rules::specs::Arrivals::why_unasked))]
pub fn why_unasked<S: Service, T: Statement>(node: &NodeState<S>, signed: &Signed<T>) -> Option<Why>
    ensures { result ≡ why_unasked T.form node.now signed.now }
{
    if let Some(why) = signer_why(node, signed) {
        return Some(why);
    }
    Some(Why::Unasked)
}
