//! What a node tells of its view.
ghost use Rattle.std.specs.Prelude.{◌≡◌, IfOk, OnOk, OnErr};
ghost use Rattle.node_rules.specs.Nodes.{view_told, holding};

use crate::state::NodeState;
use node_rules::node::Target;
use smart_base::duplicate::Duplicate;
use smart_messages::message::Message;
use smart_messages::regency::ViewInfo;
use smart_service::service::Service;
use std::alloc::AllocError;

/// The node's signed statement of the view in force. Error: want of memory.
fn view_told<S: Service>(node: &NodeState<S>) -> Result<Message, AllocError>
    ensures { IfOk result (λ told. told ≡ view_told node.now) }
{
    let view = node.view().duplicate(node.alloc)?;
    Ok(Message::ViewTold(node.keys.sealed(node.alloc, ViewInfo { view })?))
}

/// Puts the node's statement of the view in force into the outbox. Error: want of memory.
pub fn hold_view_told<S: Service>(node: &mut NodeState<S>, to: Target) -> Result<(), AllocError>
    ensures node { OnOk result (node.new ≡ holding node.old to (view_told node.old)) }
    ensures err { OnErr result (node.new.entries ≡ node.old.entries) }
    ensures snapshots { OnErr result (node.new.taken ≡ node.old.taken) }
{
    let message = view_told(node)?;
    node.hold(to, message)
}
