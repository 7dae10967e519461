//! The rules that answer what came: repeated requests, asks for state, and offers.
ghost use Rattle.std.specs.Prelude.{◌≡◌, ◌++◌, OnOk, OnErr};
ghost use Rattle.node_rules.specs.Transfers.{answers_call, answered_call};
ghost use Rattle.node_rules.specs.Rules.{answers_again, answering, fired_if};
ghost use Rattle.node_rules.specs.declared.node.Fired.TheVariants as fires;

use node_answers::answers::answers_state;
use node_answers::plans::plans;
use node_judging::asks::answering;
use node_replica::replies::answer_line;
use node_rules::node::{Asked, Called, Fired};
use node_state::state::NodeState;
use smart_base::sequence::Sequence;
use smart_service::service::Service;
use std::alloc::AllocError;

/// The rule that answers a repeated request: its client is sent the kept reply again, and behind it the
/// view in force, if that is not the first. Error: want of memory.
#[tactic(auto, unfolding(node_rules::specs::Rules::answers_again))]
fn answers_again<S: Service>(
    node: &mut NodeState<S>,
    asked: Asked,
    fired: &mut Sequence<Fired>,
) -> Result<(), AllocError>
    ensures node { OnOk result (node.new ≡ answers_again node.old asked) }
    ensures fired { OnOk result (fired.new ≡ fired.old ++ fired_if fires.Answered (answering node.old asked)) }
    ensures err { OnErr result (node.new.entries ≡ node.old.entries) }
    ensures snapshots { OnErr result (node.new.taken ≡ node.old.taken) }
{
    let line = answering(node, asked)?;
    answer_line(node, line, fired)?;
    Ok(())
}

/// The rules that answer what came. Error: want of memory.
pub fn answers_call<S: Service>(
    node: &mut NodeState<S>,
    called: Called,
    fired: &mut Sequence<Fired>,
) -> Result<(), AllocError>
    ensures node { OnOk result (node.new ≡ answers_call node.old called) }
    ensures fired { OnOk result (fired.new ≡ fired.old ++ answered_call node.old called) }
    ensures err { OnErr result (node.new.entries ≡ node.old.entries) }
    ensures snapshots { OnErr result (node.new.taken ≡ node.old.taken) }
{
    match called {
        Called::Nobody => Ok(()),
        Called::Request(asked) => answers_again(node, asked, fired),
        Called::State(ask) => {
            fired.push(Fired::Answered)?;
            answers_state(node, ask)
        }
        Called::Offered => plans(node, fired),
    }
}
