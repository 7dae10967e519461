//! The replies to executed requests, and the view in force behind a kept one.
ghost use Rattle.std.specs.Prelude.{◌≡◌, ◌++◌, IfOk, OnOk, OnErr};
ghost use Rattle.node_rules.specs.Nodes.{ring_of};
ghost use Rattle.node_rules.specs.Rules.{reply_of, replies_with, replying, answer_line, telling_view, fired_if};
ghost use Rattle.node_rules.specs.declared.node.Fired.TheVariants as fires;

use node_rules::node::{Fired, Target};
use node_state::state::NodeState;
use node_state::views::hold_view_told;
use smart_base::sequence::Sequence;
use smart_messages::message::Message;
use smart_service::service::Service;
use smart_service::table::Execution;
use smart_statements::statement::Answer;
use std::alloc::AllocError;

/// The node's reply to an executed request. Error: want of memory.
fn reply_of<S: Service>(node: &NodeState<S>, line: Execution) -> Result<Message, AllocError>
    ensures { IfOk result (λ reply. reply ≡ reply_of (ring_of node.now) node.now.id line) }
{
    let answer = Answer {
        view: line.view,
        place: line.place,
        index: line.index,
        client: line.client,
        seq: line.seq,
        reply: line.reply,
    };
    Ok(Message::Reply(node.keys.sealed(node.alloc, answer)?))
}

/// Puts the replies to executed requests into the outbox. Error: want of memory.
pub(crate) fn replying<S: Service>(
    node: &mut NodeState<S>,
    lines: Sequence<Execution>,
) -> Result<(), AllocError>
    ensures node { OnOk result (node.new ≡ replying node.old lines) }
    ensures err { OnErr result (node.new.entries ≡ node.old.entries) }
{
    for line in lines.into_vec() {
        let client = line.client;
        let reply = reply_of(node, line)?;
        node.hold(Target::Client(client), reply)?;
    }
    Ok(())
}

/// Puts the reply of an execution into the outbox, and the view in force behind it if the node knows
/// more than the first view: its client may not know it. Error: want of memory.
fn tell_again<S: Service>(node: &mut NodeState<S>, line: Execution) -> Result<(), AllocError>
    ensures node { OnOk result (node.new ≡ telling_view (replies_with node.old line) line.client) }
    ensures err { OnErr result (node.new.entries ≡ node.old.entries) }
    ensures snapshots { OnErr result (node.new.taken ≡ node.old.taken) }
{
    let client = line.client;
    let reply = reply_of(node, line)?;
    node.hold(Target::Client(client), reply)?;
    if 1 < node.replica.replica().views.as_slice().len() {
        hold_view_told(node, Target::Client(client))?;
    }
    Ok(())
}

/// Puts the reply of an execution into the outbox, if there is one, and tells it. The view in force goes
/// behind it if the node knows more than the first view. Error: want of memory.
#[tactic(auto, unfolding(node_rules::specs::Rules::answer_line))]
pub fn answer_line<S: Service>(
    node: &mut NodeState<S>,
    line: Option<Execution>,
    fired: &mut Sequence<Fired>,
) -> Result<(), AllocError>
    ensures node { OnOk result (node.new ≡ answer_line node.old line) }
    ensures fired { OnOk result (fired.new ≡ fired.old ++ fired_if fires.Answered line) }
    ensures err { OnErr result (node.new.entries ≡ node.old.entries) }
    ensures snapshots { OnErr result (node.new.taken ≡ node.old.taken) }
{
    match line {
        None => Ok(()),
        Some(line) => {
            fired.push(Fired::Answered)?;
            tell_again(node, line)
        }
    }
}
