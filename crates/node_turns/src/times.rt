//! The rule of time.
ghost use Rattle.std.specs.Prelude.{◌≡◌, ◌+◌, ◌<◌, ◌^◌, ◌++◌, ◌&&◌, ◌||◌, nat_lt, not, true, IfOk, OnOk, slice_get, OnErr};
ghost use Rattle.node_rules.specs.Nodes.{regency_of, is_synced};
ghost use Rattle.node_rules.specs.Changes.{fired_when, lags, asks_state, is_pressed, timing, passes_on, presses, times};
ghost use Rattle.node_rules.specs.declared.node.Fired.TheVariants as fires;

use crate::asks::asks_next;
use node_rules::node::{Fired, Target};
use node_state::shown::hold_state_ask;
use node_state::state::NodeState;
use smart_base::duplicate::Duplicate;
use smart_base::number::Place;
use smart_base::sequence::Sequence;
use smart_messages::message::Message;
use smart_service::service::Service;
use smart_statements::signed::Signed;
use smart_statements::statement::Request;
use std::alloc::AllocError;

/// Whether the node takes part in the regency in force.
fn is_synced<S: Service>(node: &NodeState<S>) -> bool
    ensures { result ≡ is_synced node.now }
{
    node.instance.start().is_some()
}

/// Whether the node lags: it is no member, or has heard that it is behind.
fn lags<S: Service>(node: &NodeState<S>) -> bool
    ensures { result ≡ lags node.now }
{
    !node.view().is_member(node.id()) || node.behind
}

/// Forgets what was offered and planned, and asks all members for state. Error: want of memory.
#[tactic(auto, unfolding(node_rules::specs::Changes::asks_state))]
fn asks_state<S: Service>(node: &mut NodeState<S>) -> Result<(), AllocError>
    ensures node { OnOk result (node.new ≡ asks_state node.old) }
    ensures err { OnErr result (node.new.entries ≡ node.old.entries) }
{
    node.offers = Sequence::new(node.alloc);
    node.fetch = None;
    node.behind = false;
    hold_state_ask(node, Target::View, Place::zero())
}

/// Whether there is pressure: a request waits, or the regency has not begun.
fn is_pressed<S: Service>(node: &NodeState<S>) -> bool
    ensures { result ≡ is_pressed node.now }
{
    !node.pool.is_empty() || !is_synced(node)
}

/// Whether a node that does not lag acts on time: there is pressure, and a first wait to begin or a next
/// regency to ask for.
fn presses_now<S: Service>(node: &NodeState<S>) -> bool
    ensures value { result ≡ (is_pressed node.now && (not node.now.impatient || nat_lt (regency_of node.now + 1) (2 ^ 32))) }
    ensures next { result ≡ true → node.now.impatient ≡ true → regency_of node.now + 1 < 2 ^ 32 }
{
    is_pressed(node) && (!node.impatient || node.regency().get() < u32::MAX)
}

/// A copy of the oldest request in the pool. Error: want of memory.
fn oldest<S: Service>(node: &NodeState<S>) -> Result<Option<Signed<Request>>, AllocError>
    ensures { IfOk result (λ request. request ≡ slice_get node.now.pool 0) }
{
    match node.pool.oldest() {
        None => Ok(None),
        Some(request) => Ok(Some(request.duplicate(node.alloc)?)),
    }
}

/// Passes the oldest request in the pool to the leader. Error: want of memory.
fn passes_on<S: Service>(node: &mut NodeState<S>) -> Result<(), AllocError>
    ensures node { OnOk result (node.new ≡ passes_on node.old node.old.pool) }
    ensures err { OnErr result (node.new.entries ≡ node.old.entries) }
{
    let leader = node.view().leader(node.regency());
    match oldest(node)? {
        None => Ok(()),
        Some(request) => {
            node.hold(Target::Node(leader), Message::Ask(request))?;
            Ok(())
        }
    }
}

#[tactic(auto, unfolding(node_rules::specs::Changes::presses))]
fn presses<S: Service>(node: &mut NodeState<S>) -> Result<(), AllocError>
    requires { node.old.impatient ≡ true → regency_of node.old + 1 < 2 ^ 32 }
    ensures node { OnOk result (node.new ≡ presses node.old) }
    ensures err { OnErr result (node.new.entries ≡ node.old.entries) }
{
    if node.impatient {
        asks_next(node)?;
    } else {
        node.impatient = true;
        passes_on(node)?;
    }
    Ok(())
}

/// The rule that acts on time. A node that lags asks for state. Else the leader is passed the oldest
/// request first, and then the next regency is asked for (the two timeouts of Mod-SMaRt, EDCC 2012).
/// Error: want of memory.
#[tactic(auto, unfolding(node_rules::specs::Changes::times, node_rules::specs::Changes::timing))]
pub fn times<S: Service>(
    node: &mut NodeState<S>,
    fired: &mut Sequence<Fired>,
) -> Result<(), AllocError>
    ensures node { OnOk result (node.new ≡ times node.old) }
    ensures fired { OnOk result (fired.new ≡ fired.old ++ fired_when fires.Timed (timing node.old)) }
    ensures err { OnErr result (node.new.entries ≡ node.old.entries) }
{
    if lags(node) {
        fired.push(Fired::Timed)?;
        asks_state(node)?;
        return Ok(());
    }
    if presses_now(node) {
        fired.push(Fired::Timed)?;
        presses(node)?;
    }
    Ok(())
}
