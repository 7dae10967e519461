//! The plan that a member makes of the offers that it got.
ghost use Rattle.std.specs.Prelude.{◌≡◌, ◌++◌, IfOk, OnOk, OnErr};
ghost use Rattle.node_rules.specs.Transfers.{planning, follow_plan, plans};
ghost use Rattle.node_rules.specs.Rules.{fired_if};
ghost use Rattle.node_rules.specs.declared.node.Fired.TheVariants as fires;

use node_rules::node::{Fired, Target};
use node_state::shown::hold_state_ask;
use node_state::state::NodeState;
use smart_base::sequence::Sequence;
use smart_service::service::Service;
use state_transfer::choice::{Plan, PlanError};
use state_transfer::fetch::Fetch;
use state_transfer::plan::plan;
use std::alloc::AllocError;

/// The plan that is made, if none stands and one is possible. Error: want of memory.
#[tactic(auto, unfolding(node_rules::specs::Transfers::planning))]
fn planning<S: Service>(node: &NodeState<S>) -> Result<Option<Plan>, AllocError>
    ensures { IfOk result (λ plan. plan ≡ planning node.now) }
{
    if node.fetch.is_some() {
        return Ok(None);
    }
    let offers = node.offers.as_slice();
    match plan(
        node.alloc,
        offers,
        node.marks.marks(),
        node.place(),
        node.view(),
    ) {
        Ok(plan) => Ok(Some(plan)),
        Err(PlanError::NotYet(_)) => Ok(None),
        Err(PlanError::NoMemory) => Err(AllocError),
    }
}

/// Makes a plan if an offer made one possible, and asks its seeder for the parts. Error: want of memory.
#[tactic(auto, unfolding(node_rules::specs::Transfers::plans, node_rules::specs::Transfers::follow_plan))]
pub fn plans<S: Service>(
    node: &mut NodeState<S>,
    fired: &mut Sequence<Fired>,
) -> Result<(), AllocError>
    ensures node { OnOk result (node.new ≡ plans node.old) }
    ensures fired { OnOk result (fired.new ≡ fired.old ++ fired_if fires.Answered (planning node.old)) }
    ensures err { OnErr result (node.new.entries ≡ node.old.entries) }
    ensures snapshots { OnErr result (node.new.taken ≡ node.old.taken) }
{
    let Some(plan) = planning(node)? else {
        return Ok(());
    };
    fired.push(Fired::Answered)?;
    let (seeder, place) = (plan.seeder, plan.place);
    node.fetch = Some(Fetch::begin(node.alloc, plan));
    hold_state_ask(node, Target::Node(seeder), place)
}
