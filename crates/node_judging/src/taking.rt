//! What a node keeps of what arrives, and why it drops the rest.
ghost use Rattle.std.specs.Prelude.{◌≡◌, IfOk, OnErr};
ghost use Rattle.smart_messages.specs.Messages.{Fits};
ghost use Rattle.node_rules.specs.Arrivals.{why_dropped, noted};
ghost use Rattle.node_judging.specs.Arriving.{kept_unless};

use crate::arrivals::{take_proposal, take_vote, why_unasked};
use crate::asks::take_request;
use crate::marks::take_mark;
use crate::reports::{take_report, take_stop, take_sync};
use crate::transfers::{take_decision, take_offer, take_part, take_state_ask};
use node_rules::node::Why;
use node_state::state::NodeState;
use smart_messages::message::Message;
use smart_service::service::Service;
use std::alloc::AllocError;

/// Keeps an arrival, or tells why it is dropped. Error: want of memory.
#[tactic(auto, using(crate::proofs::Requests::own_request, crate::proofs::Requests::ask_noted, crate::proofs::Requests::unasked_kept), unfolding(node_rules::specs::Arrivals::kept))]
pub fn take<S: Service>(
    node: &mut NodeState<S>,
    message: Message,
) -> Result<Option<Why>, AllocError>
    requires { Fits message }
    ensures why { IfOk result (λ why. why ≡ why_dropped node.old message) }
    ensures node { IfOk result (λ why. node.new ≡ kept_unless why (noted node.old message) message) }
    ensures err { OnErr result (node.new.entries ≡ node.old.entries) }
    ensures snapshots { OnErr result (node.new.taken ≡ node.old.taken) }
{
    match message {
        Message::Ask(request) => take_request(node, request),
        Message::Propose(proposed) => take_proposal(node, proposed),
        Message::Vote(ballot) => take_vote(node, ballot),
        Message::Stop(stop) => take_stop(node, stop),
        Message::StopData(reported) => take_report(node, reported),
        Message::Sync(sync) => take_sync(node, sync),
        Message::Decision(proven) => take_decision(node, proven),
        Message::Reply(answer) => Ok(why_unasked(node, &answer)),
        Message::Mark(mark) => take_mark(node, mark),
        Message::StateAsk(ask) => Ok(take_state_ask(node, &ask)),
        Message::StateOffer(offer) => take_offer(node, &offer),
        Message::StatePart(part) => take_part(node, part),
        Message::ViewTold(info) => Ok(why_unasked(node, &info)),
    }
}
