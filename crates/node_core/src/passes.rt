//! One pass of the rules.
ghost use Rattle.std.specs.Prelude.{◌≡◌, ◌++◌, OnOk, OnErr, is_some};
ghost use Rattle.node_rules.specs.Steps.{deliver_row, time_row, answer_row, pass};
ghost use Rattle.node_core.specs.Apart.{time_rows, front_rows};
ghost use Rattle.node_state.specs.Broken.{IsPartly};

use crate::answers::answers_call;
use node_replica::delivers::delivers;
use node_replica::install::installs;
use node_replica::marks::marks_place;
use node_rules::node::{Cause, Fired};
use node_state::state::NodeState;
use node_turns::times::times;
use node_turns::turns::turns;
use node_votes::decisions::decides;
use node_votes::votes::votes;
use smart_base::sequence::Sequence;
use smart_service::service::Service;
use std::alloc::AllocError;

/// One pass of the rules before the answers: each once, in their order, with the events that they
/// report. Error: want of memory.
pub fn pass<S: Service>(
    node: &mut NodeState<S>,
    cause: &Cause,
    fired: &mut Sequence<Fired>,
) -> Result<(), AllocError>
    ensures pass { OnOk result (pass (front_rows S.meaning) node.old cause.now fired.old ≡ (node.new, fired.new)) }
    ensures err { OnErr result (IsPartly node.old.entries node.new.entries (pass (front_rows S.meaning) node.old cause.now fired.old).0.entries) }
{
    installs(node, fired)?;
    deliver_due(node, cause, fired)?;
    turns(node, cause, fired)?;
    votes(node, cause, fired)?;
    ends(node, cause, fired)?;
    Ok(())
}

/// Delivers and marks, where the service is to execute what waits. Error: want of memory.
fn deliver_due<S: Service>(
    node: &mut NodeState<S>,
    cause: &Cause,
    fired: &mut Sequence<Fired>,
) -> Result<(), AllocError>
    ensures row { OnOk result (deliver_row S.meaning node.old cause.now fired.old ≡ (node.new, fired.new)) }
    ensures err { OnErr result (IsPartly node.old.entries node.new.entries (deliver_row S.meaning node.old cause.now fired.old).0.entries) }
{
    match cause {
        Cause::Delivering => {
            let delivered = batch_waits(node);
            delivers(node, fired)?;
            marks_place(node, delivered, fired)?;
            Ok(())
        }
        Cause::Came(_) | Cause::Ticked | Cause::Firmed => Ok(()),
    }
}

/// Whether a batch waits for its delivery.
fn batch_waits<S: Service>(node: &NodeState<S>) -> bool
    ensures { result ≡ is_some node.now.waiting }
{
    node.waiting.is_some()
}

/// The rules behind the votes: decides and acts on time, each once. Error: want of memory.
fn ends<S: Service>(
    node: &mut NodeState<S>,
    cause: &Cause,
    fired: &mut Sequence<Fired>,
) -> Result<(), AllocError>
    ensures pass { OnOk result (pass time_rows node.old cause.now fired.old ≡ (node.new, fired.new)) }
    ensures err { OnErr result (IsPartly node.old.entries node.new.entries (pass time_rows node.old cause.now fired.old).0.entries) }
{
    decides(node, fired)?;
    act_on_time(node, cause, fired)?;
    Ok(())
}

/// Acts on time, where time passed. Error: want of memory.
fn act_on_time<S: Service>(
    node: &mut NodeState<S>,
    cause: &Cause,
    fired: &mut Sequence<Fired>,
) -> Result<(), AllocError>
    ensures row { OnOk result (time_row node.old cause.now fired.old ≡ (node.new, fired.new)) }
    ensures err { OnErr result (node.new.entries ≡ node.old.entries) }
{
    match cause {
        Cause::Ticked => {
            times(node, fired)?;
            Ok(())
        }
        Cause::Came(_) | Cause::Delivering | Cause::Firmed => Ok(()),
    }
}

/// Answers what came. Error: want of memory.
pub fn answer_due<S: Service>(
    node: &mut NodeState<S>,
    cause: &Cause,
    fired: &mut Sequence<Fired>,
) -> Result<(), AllocError>
    ensures row { OnOk result (answer_row node.old cause.now fired.old ≡ (node.new, fired.new)) }
    ensures err { OnErr result (node.new.entries ≡ node.old.entries) }
    ensures snapshots { OnErr result (node.new.taken ≡ node.old.taken) }
{
    match cause {
        Cause::Came(called) => {
            answers_call(node, *called, fired)?;
            Ok(())
        }
        Cause::Ticked | Cause::Delivering | Cause::Firmed => Ok(()),
    }
}
