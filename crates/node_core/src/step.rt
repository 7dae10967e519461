//! The step of a node at an event.
ghost use Rattle.std.specs.Prelude.{◌≡◌, ◌++◌, [], nat_lt, filter, IfOk, OnOk, OnErr};
ghost use Rattle.transfer_form.specs.declared.transfer.ProvenBatch.{ProvenBatch};
ghost use Rattle.node_rules.specs.Kept.{trimmed, core_step};
ghost use Rattle.node_rules.specs.Steps.{rules, pass, step_of};
ghost use Rattle.node_core.specs.Apart.{front_rows, KeepsTaken};
ghost use Rattle.node_state.specs.Broken.{IsPartly};

use crate::arrivals::take_in;
use crate::node::Outcome;
use crate::passes::{answer_due, pass};
use node_rules::node::{Cause, Fired, OwnSnapshot};
use node_state::find::keep_ahead;
use node_state::state::NodeState;
use smart_base::number::Place;
use smart_base::sequence::Sequence;
use smart_service::service::Service;
use smart_statements::entry::NodeEvent;
use std::alloc::{AllocError, Global};
use std::mem;
use transfer_form::transfer::ProvenBatch;

/// Adds snapshots to others. Error: want of memory; nothing is added then.
fn push_all(
    alloc: Global,
    snapshots: &mut Sequence<OwnSnapshot>,
    more: Sequence<OwnSnapshot>,
) -> Result<(), AllocError>
    ensures ok { OnOk result (snapshots.new ≡ snapshots.old ++ more) }
    ensures err { OnErr result (snapshots.new ≡ snapshots.old) }
{
    let mut items = mem::replace(snapshots, Sequence::new(alloc)).into_vec();
    let mut added = more.into_vec();
    let answer = items.append(&mut added);
    *snapshots = Sequence::from_vec(items);
    answer
}

/// Sets aside the snapshots that the node took.
fn set_aside<S: Service>(node: &mut NodeState<S>) -> Sequence<OwnSnapshot>
    ensures snapshots { result ≡ node.old.taken }
    ensures node { node.new ≡ record node.old { taken = [] } }
{
    mem::replace(&mut node.taken, Sequence::new(node.alloc))
}

/// Puts snapshots in front of those that the node took. Error: want of memory; the node has only the
/// former then.
fn put_in_front<S: Service>(
    node: &mut NodeState<S>,
    before: Sequence<OwnSnapshot>,
) -> Result<(), AllocError>
    ensures node { OnOk result (node.new ≡ record node.old { taken = before ++ node.old.taken }) }
    ensures err { OnErr result (node.new ≡ record node.old { taken = before }) }
{
    let more = mem::replace(&mut node.taken, before);
    push_all(node.alloc, &mut node.taken, more)?;
    Ok(())
}

/// One pass of the rules before the answers. None of them reads the snapshots of before, so these are
/// set aside: a pass that is refused leaves them alone. Error: want of memory.
fn pass_apart<S: Service>(
    node: &mut NodeState<S>,
    cause: &Cause,
    fired: &mut Sequence<Fired>,
) -> Result<(), AllocError>
    ensures pass { OnOk result (pass (front_rows S.meaning) node.old cause.now fired.old ≡ (node.new, fired.new)) }
    ensures kept { OnOk result (KeepsTaken node.old node.new) }
    ensures err { OnErr result (IsPartly node.old.entries node.new.entries (pass (front_rows S.meaning) node.old cause.now fired.old).0.entries) }
    ensures snapshots { OnErr result (node.new.taken ≡ node.old.taken) }
{
    let before = set_aside(node);
    match pass(node, cause, fired) {
        Ok(()) => {
            put_in_front(node, before)?;
            Ok(())
        }
        Err(fault) => {
            node.taken = before;
            Err(fault)
        }
    }
}

/// One pass of all rules. Error: want of memory; the snapshots of before are the first ones then.
fn pass_all<S: Service>(
    node: &mut NodeState<S>,
    cause: &Cause,
    fired: &mut Sequence<Fired>,
) -> Result<(), AllocError>
    ensures pass { OnOk result (pass (rules S.meaning) node.old cause.now fired.old ≡ (node.new, fired.new)) }
    ensures err { OnErr result (IsPartly node.old.entries node.new.entries (pass (rules S.meaning) node.old cause.now fired.old).0.entries) }
    ensures snapshots { OnErr result (KeepsTaken node.old node.new) }
{
    pass_apart(node, cause, fired)?;
    answer_due(node, cause, fired)?;
    Ok(())
}

/// The step of a core. A step that is refused leaves the snapshots of before.
pub fn step<S: Service>(node: &mut NodeState<S>, event: &NodeEvent) -> Result<Outcome, AllocError>
    ensures node { OnOk result (node.new ≡ (core_step S.meaning node.old event.now).node) }
    ensures fired { IfOk result (λ o. o.fired ≡ (core_step S.meaning node.old event.now).fired) }
    ensures dropped { IfOk result (λ o. o.dropped ≡ (core_step S.meaning node.old event.now).dropped) }
    ensures err { OnErr result (IsPartly node.old.entries node.new.entries (core_step S.meaning node.old event.now).node.entries) }
    ensures snapshots { OnErr result (node.new.taken ≡ node.old.taken) }
{
    let count = node.taken.len();
    match core_step(node, event) {
        Ok(outcome) => Ok(outcome),
        Err(fault) => {
            node.taken.truncate(count);
            Err(fault)
        }
    }
}

/// The step of a core, which may leave more snapshots if it is refused.
#[tactic(auto, unfolding(node_rules::specs::Kept::core_step))]
fn core_step<S: Service>(node: &mut NodeState<S>, event: &NodeEvent) -> Result<Outcome, AllocError>
    ensures node { OnOk result (node.new ≡ (core_step S.meaning node.old event.now).node) }
    ensures fired { IfOk result (λ o. o.fired ≡ (core_step S.meaning node.old event.now).fired) }
    ensures dropped { IfOk result (λ o. o.dropped ≡ (core_step S.meaning node.old event.now).dropped) }
    ensures err { OnErr result (IsPartly node.old.entries node.new.entries (core_step S.meaning node.old event.now).node.entries) }
    ensures snapshots { OnErr result (KeepsTaken node.old node.new) }
{
    let outcome = step_of(node, event)?;
    trim(node);
    Ok(outcome)
}

/// The step of a node that keeps everything: an event is taken in, and if it is not dropped, the rules
/// pass.
fn step_of<S: Service>(node: &mut NodeState<S>, event: &NodeEvent) -> Result<Outcome, AllocError>
    ensures node { OnOk result (node.new ≡ (step_of S.meaning node.old event.now).node) }
    ensures fired { IfOk result (λ o. o.fired ≡ (step_of S.meaning node.old event.now).fired) }
    ensures dropped { IfOk result (λ o. o.dropped ≡ (step_of S.meaning node.old event.now).dropped) }
    ensures err { OnErr result (IsPartly node.old.entries node.new.entries (step_of S.meaning node.old event.now).node.entries) }
    ensures snapshots { OnErr result (KeepsTaken node.old node.new) }
{
    let taken = take_in(node, event)?;
    let mut fired = Sequence::new(node.alloc);
    match taken.dropped {
        Some(why) => Ok(Outcome {
            fired,
            dropped: Some(why),
        }),
        None => {
            pass_all(node, &taken.cause, &mut fired)?;
            Ok(Outcome {
                fired,
                dropped: None,
            })
        }
    }
}

fn is_later(place: Place, proven: &ProvenBatch) -> bool
    ensures { result ≡ nat_lt place proven.now.place }
{
    place < proven.place
}

fn keep_later(decisions: &mut Vec<ProvenBatch>, place: Place)
    ensures { decisions.new.items ≡ filter (λ (d : ProvenBatch). nat_lt place d.place) decisions.old.items }
{
    decisions.retain(|proven| is_later(place, proven));
}

/// The decided batches past a place.
fn later(decisions: Sequence<ProvenBatch>, place: Place) -> Sequence<ProvenBatch>
    ensures { result ≡ filter (λ (d : ProvenBatch). nat_lt place d.place) decisions }
{
    let mut kept = decisions.into_vec();
    keep_later(&mut kept, place);
    Sequence::from_vec(kept)
}

/// Drops what no rule needs any more.
#[tactic(auto, unfolding(node_rules::specs::Kept::trimmed, consensus_instance::specs::Instances::trimmed, regency_sync::specs::Synchronizers::trimmed))]
fn trim<S: Service>(node: &mut NodeState<S>)
    ensures { node.new ≡ trimmed node.old }
{
    let number = node.view().number();
    let place = node.decided_place();
    let regency = node.regency();
    node.instance.trim();
    node.synchronizer.trim();
    let decisions = mem::replace(&mut node.decisions, Sequence::new(node.alloc));
    node.decisions = later(decisions, place);
    keep_ahead(&mut node.proposed, number, place, regency);
}
