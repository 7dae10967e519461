//! The node's wish for the next regency.
ghost use Rattle.std.specs.Prelude.{◌≡◌, ◌+◌, ◌<◌, ◌^◌, IfOk, OnOk, OnErr};
ghost use Rattle.node_rules.specs.Nodes.{regency_of};
ghost use Rattle.node_rules.specs.Changes.{stop_for, asks_next};

use node_rules::node::Target;
use node_state::state::NodeState;
use smart_base::number::Regency;
use smart_messages::message::Message;
use smart_messages::regency::Stop;
use smart_service::service::Service;
use std::alloc::AllocError;

/// The node's signed STOP for the regency after the one in force. Error: want of memory.
fn stop_for<S: Service>(node: &NodeState<S>) -> Result<Message, AllocError>
    requires { regency_of node.now + 1 < 2 ^ 32 }
    ensures { IfOk result (λ stop. stop ≡ stop_for node.now) }
{
    let stop = Stop {
        view: node.view().number(),
        regency: Regency::new(node.regency().get() + 1),
    };
    let signed = node.keys.sealed(node.alloc, stop)?;
    Ok(Message::Stop(signed))
}

/// Asks for the regency after the one in force: STOP goes to the view. Error: want of memory.
pub fn asks_next<S: Service>(node: &mut NodeState<S>) -> Result<(), AllocError>
    requires { regency_of node.old + 1 < 2 ^ 32 }
    ensures node { OnOk result (node.new ≡ asks_next node.old) }
    ensures err { OnErr result (node.new.entries ≡ node.old.entries) }
{
    let stop = stop_for(node)?;
    node.synchronizer.stop_made();
    node.hold(Target::View, stop)?;
    Ok(())
}
