//! The text that an event completes.
ghost use Rattle.std.specs.Prelude.{◌≡◌, IfOk};
ghost use Rattle.std.specs.Option.{option_to_list};
ghost use Rattle.smart_messages.specs.Messages.{decoded};
ghost use Rattle.node_rules.specs.Transfers.{completed_for, completed_in, completed_by};

use node_state::state::NodeState;
use smart_base::fault::ReadError;
use smart_base::sequence::Bytes;
use smart_messages::codec::decode;
use smart_messages::message::Message;
use smart_service::service::Service;
use smart_statements::entry::NodeEvent;
use std::alloc::AllocError;
use transfer_form::transfer::StatePart;

/// What the parts of the node's plan are joined to with one more, if that is the last one. Error: want of
/// memory.
#[tactic(auto, using(crate::proofs::Completed::fetch_same, crate::proofs::Completed::completed_some))]
fn completed_for<S: Service>(
    node: &mut NodeState<S>,
    part: StatePart,
) -> Result<Option<Bytes>, AllocError>
    ensures text { IfOk result (λ text. option_to_list text ≡ completed_for node.old.fetch part) }
    ensures same { node.new ≡ node.old }
{
    let alloc = node.alloc;
    match &mut node.fetch {
        None => Ok(None),
        Some(fetch) => fetch.completed(alloc, part),
    }
}

/// The same of bytes that come. They are read only while the node has a plan.
#[tactic(auto, using(crate::proofs::Completed::completed_none))]
fn completed_in<S: Service>(
    node: &mut NodeState<S>,
    bytes: &[u8],
) -> Result<Option<Bytes>, AllocError>
    ensures text { IfOk result (λ text. option_to_list text ≡ completed_in node.old (decoded bytes.now)) }
    ensures same { node.new ≡ node.old }
{
    if node.fetch.is_none() {
        return Ok(None);
    }
    match decode(node.alloc, bytes) {
        Ok(Message::StatePart(part)) => completed_for(node, part),
        Ok(_) => Ok(None),
        Err(ReadError::NoMemory) => Err(AllocError),
        Err(ReadError::Unread { .. }) => Ok(None),
    }
}

/// The text that an event completes, if it brings the last part of the node's plan. Error: want of
/// memory.
#[tactic(auto, unfolding(node_rules::specs::Transfers::completed_by))]
pub fn completed_by<S: Service>(
    node: &mut NodeState<S>,
    event: &NodeEvent,
) -> Result<Option<Bytes>, AllocError>
    ensures text { IfOk result (λ text. option_to_list text ≡ completed_by node.old event.now) }
    ensures same { node.new ≡ node.old }
{
    match event {
        NodeEvent::Arrive(bytes) => completed_in(node, bytes.as_slice()),
        NodeEvent::Tick | NodeEvent::Deliver | NodeEvent::Firm(_) => Ok(None),
    }
}
