//! What becomes of an event, before any rule.
ghost use Rattle.std.specs.Prelude.{◌≡◌, IfOk, OnOk, OnErr};
ghost use Rattle.smart_messages.specs.Messages.{Fits, decoded};
ghost use Rattle.node_rules.specs.Arrivals.{why_dropped};
ghost use Rattle.node_rules.specs.Steps.{judged, reads, takes_in};

use node_judging::asks::called_by;
use node_judging::taking::take;
use node_rules::node::{Called, Cause, Why};
use node_state::state::NodeState;
use smart_base::fault::ReadError;
use smart_messages::codec::decode;
use smart_messages::message::Message;
use smart_service::service::Service;
use smart_statements::entry::NodeEvent;
use std::alloc::AllocError;

/// What calls for the rules, and the reason for which an arrival was dropped.
#[derive(Clone, Copy)]
pub struct Taken {
    pub cause: Cause,
    pub dropped: Option<Why>,
}

/// Takes an event in, before any rule. Error: want of memory.
#[tactic(auto, unfolding(node_rules::specs::Steps::takes_in))]
pub fn take_in<S: Service>(node: &mut NodeState<S>, event: &NodeEvent) -> Result<Taken, AllocError>
    ensures node { OnOk result (node.new ≡ (takes_in node.old event.now).node) }
    ensures cause { IfOk result (λ taken. taken.cause ≡ (takes_in node.old event.now).cause) }
    ensures dropped { IfOk result (λ taken. taken.dropped ≡ (takes_in node.old event.now).dropped) }
    ensures err { OnErr result (node.new.entries ≡ node.old.entries) }
    ensures snapshots { OnErr result (node.new.taken ≡ node.old.taken) }
{
    match event {
        NodeEvent::Arrive(bytes) => read(node, bytes.as_slice()),
        NodeEvent::Tick => Ok(Taken {
            cause: Cause::Ticked,
            dropped: None,
        }),
        NodeEvent::Deliver => Ok(Taken {
            cause: Cause::Delivering,
            dropped: None,
        }),
        NodeEvent::Firm(count) => {
            node.firm = node.restored.saturating_add(*count);
            Ok(Taken {
                cause: Cause::Firmed,
                dropped: None,
            })
        }
    }
}

/// Drops bytes that are no message, and judges a message. Error: want of memory.
fn read<S: Service>(node: &mut NodeState<S>, bytes: &[u8]) -> Result<Taken, AllocError>
    ensures node { OnOk result (node.new ≡ (reads node.old (decoded bytes.now)).node) }
    ensures cause { IfOk result (λ taken. taken.cause ≡ (reads node.old (decoded bytes.now)).cause) }
    ensures dropped { IfOk result (λ taken. taken.dropped ≡ (reads node.old (decoded bytes.now)).dropped) }
    ensures err { OnErr result (node.new.entries ≡ node.old.entries) }
    ensures snapshots { OnErr result (node.new.taken ≡ node.old.taken) }
{
    match decode(node.alloc, bytes) {
        Ok(message) => judge(node, message),
        Err(ReadError::NoMemory) => Err(AllocError),
        Err(ReadError::Unread { .. }) => Ok(Taken {
            cause: Cause::Came(Called::Nobody),
            dropped: Some(Why::Unread),
        }),
    }
}

/// Keeps a message, or drops it for its first reason. Error: want of memory.
fn judge<S: Service>(node: &mut NodeState<S>, message: Message) -> Result<Taken, AllocError>
    requires { Fits message }
    ensures node { OnOk result (node.new ≡ (judged node.old message (why_dropped node.old message)).node) }
    ensures cause { IfOk result (λ taken. taken.cause ≡ (judged node.old message (why_dropped node.old message)).cause) }
    ensures dropped { IfOk result (λ taken. taken.dropped ≡ (judged node.old message (why_dropped node.old message)).dropped) }
    ensures err { OnErr result (node.new.entries ≡ node.old.entries) }
    ensures snapshots { OnErr result (node.new.taken ≡ node.old.taken) }
{
    let called = called_by(&message);
    match take(node, message)? {
        None => Ok(Taken {
            cause: Cause::Came(called),
            dropped: None,
        }),
        Some(why) => Ok(Taken {
            cause: Cause::Came(Called::Nobody),
            dropped: Some(why),
        }),
    }
}
