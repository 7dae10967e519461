//! The judging of clients' requests.
ghost use Rattle.std.specs.Prelude.{◌≡◌, true, is_none, IfOk, OnErr};
ghost use Rattle.smart_base.specs.Views.{is_member};
ghost use Rattle.smart_service.specs.Tables.{kept_reply};
ghost use Rattle.node_rules.specs.Rules.{called_by, answering};
ghost use Rattle.node_rules.specs.Nodes.{view_of};
ghost use Rattle.node_rules.specs.Arrivals.{why_ask};
ghost use Rattle.node_judging.specs.Arriving.{why_offered, kept_unless};
ghost use Rattle.smart_messages.specs.declared.message.Message.TheVariants as plain;

use node_rules::node::{Asked, Called, Why};
use node_state::state::NodeState;
use request_pool::pool::Offer;
use smart_base::duplicate::Duplicate;
use smart_base::party::Party;
use smart_messages::message::Message;
use smart_service::service::Service;
use smart_service::table::Execution;
use smart_statements::signed::Signed;
use smart_statements::statement::Request;
use std::alloc::AllocError;

/// The reason for which a request is dropped that the pool answers so. `gone` tells whether no reply
/// to it is kept.
fn why_offered(offer: Offer, gone: bool) -> Option<Why>
    ensures { result ≡ why_offered offer gone }
{
    match offer {
        Offer::Kept | Offer::Replaced => None,
        Offer::Old => { if gone { Some(Why::OldSeq) } else { None } }
        Offer::Ahead => Some(Why::FarSeq),
        Offer::BadTag => Some(Why::BadTag),
        Offer::Stranger => Some(Why::Stranger),
    }
}

/// Keeps a request that may be executed now, or tells why it is dropped. Error: want of memory.
#[tactic(auto, unfolding(node_rules::specs::Arrivals::why_ask))]
pub fn take_request<S: Service>(
    node: &mut NodeState<S>,
    request: Signed<Request>,
) -> Result<Option<Why>, AllocError>
    requires { request.signer ≡ request.statement.client }
    ensures why { IfOk result (λ why. why ≡ why_ask node.old request) }
    ensures node { IfOk result (λ why. node.new ≡ kept_unless why node.old (plain.Ask request)) }
    ensures err { OnErr result (node.new.entries ≡ node.old.entries) }
    ensures snapshots { OnErr result (node.new.taken ≡ node.old.taken) }
{
    if !node.view().is_member(node.id()) {
        return Ok(Some(Why::NotMember));
    }
    learn(node, &request)?;
    offer(node, request)
}

/// Learns the key of a client that asks, so that its tags cost less from then on. Checks the tag of a
/// request that was not executed, so that it is not made again for each batch that brings the request.
/// Error: want of memory.
fn learn<S: Service>(node: &mut NodeState<S>, request: &Signed<Request>) -> Result<(), AllocError>
    ensures { node.new ≡ node.old }
{
    let asked = request.statement();
    node.keys.learn(Party::Client(asked.client))?;
    if asked.seq <= node.replica.replica().table.last_seq(asked.client) {
        return Ok(());
    }
    node.keys.check(node.alloc, request)
}

/// Whether no reply to a request is kept.
fn is_gone<S: Service>(node: &NodeState<S>, asked: &Request) -> bool
    ensures { result ≡ is_none (kept_reply node.now.replica.table asked.now.client asked.now.seq) }
{
    let table = &node.replica.replica().table;
    match table.kept_reply(asked.client, asked.seq) {
        Some(_) => false,
        None => true,
    }
}

/// Offers a request to the pool, which verifies its tag. Error: want of memory.
fn offer<S: Service>(
    node: &mut NodeState<S>,
    request: Signed<Request>,
) -> Result<Option<Why>, AllocError>
    requires member { is_member (view_of node.old) node.old.id ≡ true }
    requires client { request.signer ≡ request.statement.client }
    ensures why { IfOk result (λ why. why ≡ why_ask node.old request) }
    ensures node { IfOk result (λ why. node.new ≡ kept_unless why node.old (plain.Ask request)) }
    ensures err { OnErr result (node.new.entries ≡ node.old.entries) }
    ensures snapshots { OnErr result (node.new.taken ≡ node.old.taken) }
{
    let asked = request.statement();
    let gone = is_gone(node, asked);
    let last = node.replica.replica().table.last_seq(asked.client);
    let offer = node.pool.offer(node.keys.ring(), request, last)?;
    Ok(why_offered(offer, gone))
}

/// What a message asks the node for.
pub fn called_by(message: &Message) -> Called
    ensures { result ≡ called_by message.now }
{
    match message {
        Message::Ask(request) => {
            let asked = request.statement();
            Called::Request(Asked {
                client: asked.client,
                seq: asked.seq,
            })
        }
        Message::StateAsk(ask) => Called::State(*ask),
        Message::StateOffer(_) => Called::Offered,
        Message::Propose(_)
        | Message::Vote(_)
        | Message::Stop(_)
        | Message::StopData(_)
        | Message::Sync(_)
        | Message::Decision(_)
        | Message::Reply(_)
        | Message::Mark(_)
        | Message::StatePart(_)
        | Message::ViewTold(_) => Called::Nobody,
    }
}

/// A copy of the execution whose reply answers a repeated request, if that reply is kept. Error: want of
/// memory.
#[tactic(auto, unfolding(node_rules::specs::Rules::answering))]
pub fn answering<S: Service>(
    node: &NodeState<S>,
    asked: Asked,
) -> Result<Option<Execution>, AllocError>
    ensures { IfOk result (λ line. line ≡ answering node.now asked) }
{
    let table = &node.replica.replica().table;
    match table.kept_reply(asked.client, asked.seq) {
        None => Ok(None),
        Some(execution) => Ok(Some(execution.duplicate(node.alloc)?)),
    }
}
