//! The judging of what members exchange so that one takes over a replica.
ghost use Rattle.std.specs.Prelude.{◌≡◌, ◌+◌, ◌==◌, ◌||◌, nat_le, nat_lt, IfOk, OnErr};
ghost use Rattle.std.specs.List.{list_any, list_all};
ghost use Rattle.smart_statements.specs.Forms.{SignedBy};
ghost use Rattle.smart_statements.specs.declared.report.Mark.{Mark};
ghost use Rattle.transfer_form.specs.declared.transfer.ProvenBatch.{ProvenBatch};
ghost use Rattle.replica_rules.specs.Seals.{digest_of};
ghost use Rattle.node_rules.specs.Nodes.{ring_of, decided_place};
ghost use Rattle.node_rules.specs.Arrivals.{is_proven_batch, why_decision, why_state_ask, is_old_offer, is_same_offer, why_offer, why_ignored, why_part, noted, kept};
ghost use Rattle.node_judging.specs.Arriving.{kept_unless};
ghost use Rattle.smart_messages.specs.declared.message.Message.TheVariants as changes;

use certificates::check::check_proof;
use node_restart::batch::named_for;
use node_rules::node::Why;
use node_state::shown::slot_shown;
use node_state::snapshots::firm_at;
use node_state::state::NodeState;
use smart_base::bytes::Digest32;
use smart_base::number::Place;
use smart_service::service::Service;
use smart_statements::report::Mark;
use smart_statements::signed::Signed;
use state_transfer::fetch::Ignored;
use state_transfer::plan::verified;
use std::alloc::AllocError;
use transfer_form::transfer::{ProvenBatch, StateAsk, StateOffer, StatePart};

/// Notes that the node lags, if a message's place shows it.
fn note<S: Service>(node: &mut NodeState<S>, place: Place)
    ensures { node.new ≡ record node.old { behind = node.old.behind || nat_lt (decided_place node.old + 1) place } }
{
    let last = node.decided_place().get();
    node.behind = node.behind || last + 1 < place.get();
}

/// Whether the ACCEPTs prove the batch, whose digest this is.
#[tactic(auto, unfolding(node_rules::specs::Arrivals::is_proven_batch))]
fn is_proven<S: Service>(node: &NodeState<S>, proven: &ProvenBatch, digest: Digest32) -> bool
    requires { digest ≡ digest_of proven.now.batch }
    ensures { result ≡ is_proven_batch node.now proven.now }
{
    let slot = slot_shown(node, proven);
    check_proof(
        node.keys.ring(),
        node.view(),
        slot,
        digest,
        proven.accepts.as_slice(),
    )
    .is_ok()
}

fn is_at(place: Place, proven: &ProvenBatch) -> bool
    ensures { result ≡ (proven.now.place == place) }
{
    proven.place == place
}

/// Whether one of the decided batches is of a place.
fn is_shown(decisions: &[ProvenBatch], place: Place) -> bool
    ensures { result ≡ list_any (λ (o : ProvenBatch). o.place == place) decisions.now }
{
    decisions.iter().any(|other| is_at(place, other))
}

/// Why a DECISION is dropped, if it is. Error: want of memory.
#[tactic(auto, using(node_restart::proofs::Named::named, node_restart::proofs::Named::unnamed), unfolding(node_rules::specs::Arrivals::why_decision))]
fn why_decision<S: Service>(
    node: &NodeState<S>,
    proven: &ProvenBatch,
) -> Result<Option<Why>, AllocError>
    ensures { IfOk result (λ why. why ≡ why_decision node.now proven.now) }
{
    let last = node.decided_place().get();
    let place = proven.place.get();
    if place <= last {
        return Ok(Some(Why::OldPlace));
    }
    if last + 1 < place || node.waiting.is_some() {
        return Ok(Some(Why::FarPlace));
    }
    let Some(digest) = named_for(node.alloc, node.keys.ring(), place, &proven.batch)? else {
        return Ok(Some(Why::InvalidBatch));
    };
    if !is_proven(node, proven, digest) {
        Ok(Some(Why::BadProof))
    } else if is_shown(node.decisions.as_slice(), proven.place) {
        Ok(Some(Why::Repeated))
    } else {
        Ok(None)
    }
}

/// Keeps a DECISION, or tells why it is dropped. Error: want of memory.
#[tactic(auto, unfolding(node_rules::specs::Arrivals::noted, node_rules::specs::Arrivals::kept))]
pub fn take_decision<S: Service>(
    node: &mut NodeState<S>,
    proven: ProvenBatch,
) -> Result<Option<Why>, AllocError>
    ensures why { IfOk result (λ why. why ≡ why_decision node.old proven) }
    ensures node { IfOk result (λ why. node.new ≡ kept_unless why (noted node.old (changes.Decision proven)) (changes.Decision proven)) }
    ensures err { OnErr result (node.new.entries ≡ node.old.entries) }
    ensures snapshots { OnErr result (node.new.taken ≡ node.old.taken) }
{
    let dropped = why_decision(node, &proven)?;
    note(node, proven.place);
    if dropped.is_some() {
        return Ok(dropped);
    }
    node.decisions.push(proven)?;
    Ok(None)
}

/// Why an ask for state is dropped, if it is.
#[tactic(auto, unfolding(node_rules::specs::Arrivals::why_state_ask))]
fn why_state_ask<S: Service>(node: &NodeState<S>, ask: &StateAsk) -> Option<Why>
    ensures { result ≡ why_state_ask node.now ask.now }
{
    if ask.fetch == Place::zero() {
        if node.place() <= ask.place {
            Some(Why::FarPlace)
        } else {
            None
        }
    } else if firm_at(node, ask.fetch).is_none() {
        Some(Why::OldPlace)
    } else {
        None
    }
}

/// Tells why an ask for state is dropped, if it is. Nothing of it is kept.
#[tactic(auto, using(crate::proofs::Parts::ask_kept), unfolding(node_rules::specs::Arrivals::noted))]
pub fn take_state_ask<S: Service>(node: &mut NodeState<S>, ask: &StateAsk) -> Option<Why>
    ensures why { result ≡ why_state_ask node.old ask.now }
    ensures node { node.new ≡ kept_unless result (noted node.old (changes.StateAsk ask.now)) (changes.StateAsk ask.now) }
{
    let dropped = why_state_ask(node, ask);
    note(node, ask.place);
    dropped
}

fn is_within(place: Place, mark: &Signed<Mark>) -> bool
    ensures { result ≡ nat_le mark.now.statement.place place }
{
    mark.statement().place <= place
}

/// Whether no mark is of a later place than this one.
fn are_within(place: Place, marks: &[Signed<Mark>]) -> bool
    ensures { result ≡ list_all (λ (m : SignedBy Mark). nat_le m.statement.place place) marks.now }
{
    marks.iter().all(|mark| is_within(place, mark))
}

/// Whether an offer's place and those of all its marks are delivered.
fn is_old<S: Service>(node: &NodeState<S>, offer: &StateOffer) -> bool
    ensures { result ≡ is_old_offer node.now offer.now }
{
    let place = node.place();
    offer.place <= place && are_within(place, offer.marks.as_slice())
}

fn is_same(offer: &StateOffer, other: &StateOffer) -> bool
    ensures { result ≡ is_same_offer offer.now other.now }
{
    other.member == offer.member && other.place == offer.place
}

/// Whether one of the offers is of the member and place of this one.
fn has_same(offers: &[StateOffer], offer: &StateOffer) -> bool
    ensures { result ≡ list_any (is_same_offer offer.now) offers.now }
{
    offers.iter().any(|other| is_same(offer, other))
}

/// Why an offer is dropped, if it is.
#[tactic(auto, unfolding(node_rules::specs::Arrivals::why_offer))]
fn why_offer<S: Service>(node: &NodeState<S>, offer: &StateOffer) -> Option<Why>
    ensures { result ≡ why_offer node.now offer.now }
{
    if is_old(node, offer) {
        Some(Why::OldPlace)
    } else if has_same(node.offers.as_slice(), offer) {
        Some(Why::Repeated)
    } else {
        None
    }
}

/// Keeps an offer without the marks whose tags do not verify, or tells why it is dropped. Error: want of
/// memory.
#[tactic(auto, unfolding(node_rules::specs::Arrivals::noted, node_rules::specs::Arrivals::kept))]
pub fn take_offer<S: Service>(
    node: &mut NodeState<S>,
    offer: &StateOffer,
) -> Result<Option<Why>, AllocError>
    ensures why { IfOk result (λ why. why ≡ why_offer node.old offer.now) }
    ensures node { IfOk result (λ why. node.new ≡ kept_unless why (noted node.old (changes.StateOffer offer.now)) (changes.StateOffer offer.now)) }
    ensures err { OnErr result (node.new.entries ≡ node.old.entries) }
    ensures snapshots { OnErr result (node.new.taken ≡ node.old.taken) }
{
    let dropped = why_offer(node, offer);
    note(node, offer.place);
    if dropped.is_some() {
        return Ok(dropped);
    }
    let offer = verified(node.alloc, node.keys.ring(), offer)?;
    node.offers.push(offer)?;
    Ok(None)
}

fn why_ignored(why: Ignored) -> Why
    ensures { result ≡ why_ignored why }
{
    match why {
        Ignored::Unasked => Why::Unasked,
        Ignored::Repeated => Why::Repeated,
    }
}

/// Why a part is dropped, if it is.
#[tactic(auto, unfolding(node_rules::specs::Arrivals::why_part))]
fn why_part<S: Service>(node: &NodeState<S>, part: &StatePart) -> Option<Why>
    ensures { result ≡ why_part node.now part.now }
{
    match &node.fetch {
        None => Some(Why::Unasked),
        Some(fetch) => match fetch.part_fault(part) {
            None => None,
            Some(why) => Some(why_ignored(why)),
        },
    }
}

/// Keeps a part that the plan wants, or tells why it is dropped. Error: want of memory.
#[tactic(auto, using(crate::proofs::Parts::part_noted, crate::proofs::Parts::part_absent))]
pub fn take_part<S: Service>(
    node: &mut NodeState<S>,
    part: StatePart,
) -> Result<Option<Why>, AllocError>
    ensures why { IfOk result (λ why. why ≡ why_part node.old part) }
    ensures node { IfOk result (λ why. node.new ≡ kept_unless why (noted node.old (changes.StatePart part)) (changes.StatePart part)) }
    ensures err { OnErr result (node.new.entries ≡ node.old.entries) }
    ensures snapshots { OnErr result (node.new.taken ≡ node.old.taken) }
{
    let dropped = why_part(node, &part);
    if dropped.is_some() {
        return Ok(dropped);
    }
    let Some(fetch) = &mut node.fetch else {
        return Ok(None);
    };
    fetch.accept_part(part)?;
    Ok(None)
}
