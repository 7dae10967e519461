//! Decided batches that others show, and asks for state.
ghost use Rattle.std.specs.Prelude.{◌≡◌, OnOk, OnErr};
ghost use Rattle.node_rules.specs.Nodes.{holding};
ghost use Rattle.node_rules.specs.Changes.{state_ask};
ghost use Rattle.node_rules.specs.Arrivals.{regency_by, slot_shown};

use crate::state::NodeState;
use node_rules::node::Target;
use smart_base::number::{Place, Regency};
use smart_messages::message::Message;
use smart_service::service::Service;
use smart_statements::signed::Signed;
use smart_statements::statement::{Ballot, Slot};
use std::alloc::AllocError;
use transfer_form::transfer::{ProvenBatch, StateAsk};

/// The regency of the first vote; 0 if there is none.
fn regency_by(votes: &[Signed<Ballot>]) -> Regency
    ensures { result ≡ regency_by votes.now }
{
    match votes.first() {
        None => Regency::new(0),
        Some(vote) => vote.statement().slot.regency,
    }
}

/// The slot in which a batch was decided, in the view in force.
pub fn slot_shown<S: Service>(node: &NodeState<S>, proven: &ProvenBatch) -> Slot
    ensures { result ≡ slot_shown node.now proven.now }
{
    Slot {
        view: node.view().number(),
        place: proven.place,
        regency: regency_by(proven.accepts.as_slice()),
    }
}

/// Puts an ask for state into the outbox. Error: want of memory.
pub fn hold_state_ask<S: Service>(
    node: &mut NodeState<S>,
    to: Target,
    fetch: Place,
) -> Result<(), AllocError>
    ensures node { OnOk result (node.new ≡ holding node.old to (state_ask node.old fetch)) }
    ensures err { OnErr result (node.new.entries ≡ node.old.entries) }
    ensures snapshots { OnErr result (node.new.taken ≡ node.old.taken) }
{
    let ask = StateAsk {
        member: node.id(),
        place: node.place(),
        fetch,
    };
    node.hold(to, Message::StateAsk(ask))
}
