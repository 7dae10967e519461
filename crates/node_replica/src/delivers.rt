//! The rule that delivers.
ghost use Rattle.std.specs.Prelude.{◌≡◌, ◌++◌, ◌∷◌, if◌then◌else◌, is_none, IfOk, OnOk, OnErr};
ghost use Rattle.node_rules.specs.Rules.{replying, delivers, delivery};
ghost use Rattle.node_replica.specs.Delivering.{executed, execution};
ghost use Rattle.node_replica.specs.Begun.{viewed};
ghost use Rattle.node_rules.specs.Nodes.{informed};
ghost use Rattle.node_rules.specs.declared.node.Fired.TheVariants as fires;

use crate::replies::replying;
use crate::views::tell_view;
use delivery::delivered::Delivered;
use delivery::replica::deliver;
use delivery::views::Begun;
use node_rules::node::{Delivery, Fired, Target};
use node_state::state::NodeState;
use node_state::summary::{Summary, summarize};
use node_state::views::hold_view_told;
use smart_base::number::ViewNo;
use smart_base::sequence::Sequence;
use smart_service::service::Service;
use smart_service::table::Execution;
use std::alloc::AllocError;

/// What a delivery gives: its event, the executions, and the number of the view that began, if one did.
#[derive(Drop)]
struct Executed {
    delivery: Delivery,
    lines: Sequence<Execution>,
    begun: Option<ViewNo>,
}

/// Executes the waiting batch, if there is one, and keeps the requests that are still to be proposed. If
/// the batch begins a view, what was kept is of views that are over, and is let go. Error: want of memory.
#[tactic(auto, unfolding(crate::specs::Delivering::executed))]
fn execute_waiting<S: Service>(node: &mut NodeState<S>) -> Result<Option<Executed>, AllocError>
    ensures node { OnOk result (node.new ≡ executed S.meaning node.old node.old.waiting) }
    ensures told { IfOk result (λ told. told ≡ execution S.meaning node.old node.old.waiting) }
    ensures err { OnErr result (node.new.entries ≡ node.old.entries) }
{
    if node.replica.spent() {
        return Err(AllocError);
    }
    let votes = node.votes_at(node.place().get() + 2, node.regency());
    match node.waiting.take() {
        None => Ok(None),
        Some(batch) => {
            node.instance.delivered(votes);
            let given = deliver(node.alloc, &mut node.replica, &batch)?;
            let Delivered { lines, begun } = given;
            node.pool.settle(&node.replica.replica().table);
            node.impatient = false;
            let place = node.replica.replica().place;
            let delivery = Delivery {
                place,
                batch,
                executed: lines.len() as u64,
            };
            match begun {
                None => Ok(Some(Executed {
                    delivery,
                    lines,
                    begun: None,
                })),
                Some(Begun { own, other }) => {
                    let id = node.keys.member();
                    let number = own.number();
                    let Summary {
                        instance,
                        synchronizer,
                    } = summarize(node.alloc, id, own, other, place, &node.book);
                    node.instance = instance;
                    node.synchronizer = synchronizer;
                    node.proposed = Vec::new(node.alloc);
                    Ok(Some(Executed {
                        delivery,
                        lines,
                        begun: Some(number),
                    }))
                }
            }
        }
    }
}

/// Puts the replies into the outbox, if the node answers, and behind them its view, unless it stayed in
/// that. Error: want of memory.
fn tell_clients<S: Service>(
    node: &mut NodeState<S>,
    answers: bool,
    lines: Sequence<Execution>,
    stays: bool,
) -> Result<(), AllocError>
    ensures node { OnOk result (node.new ≡ informed stays (if answers then replying node.old lines else node.old)) }
    ensures err { OnErr result (node.new.entries ≡ node.old.entries) }
{
    if answers {
        replying(node, lines)?;
    }
    if !stays {
        hold_view_told(node, Target::Clients)?;
    }
    Ok(())
}

/// Tells a delivery, and the view that it began, if it began one; clients get their replies if the node
/// answers, and then the view. Error: want of memory.
fn tell<S: Service>(
    node: &mut NodeState<S>,
    answers: bool,
    executed: Executed,
    fired: &mut Sequence<Fired>,
) -> Result<(), AllocError>
    ensures node { OnOk result (node.new ≡ informed (is_none executed.begun) (if answers then replying node.old executed.lines else node.old)) }
    ensures fired { OnOk result (fired.new ≡ fired.old ++ fires.Delivered executed.delivery ∷ viewed executed.begun) }
    ensures err { OnErr result (node.new.entries ≡ node.old.entries) }
{
    let Executed {
        delivery,
        lines,
        begun,
    } = executed;
    let stays = begun.is_none();
    fired.push(Fired::Delivered(delivery))?;
    tell_view(begun, fired)?;
    tell_clients(node, answers, lines, stays)?;
    Ok(())
}

/// The rule that delivers: the waiting batch, if there is one, is executed, and each client whose
/// request was executed gets its reply (state machine replication). If the batch begins a view, all
/// clients that have asked are told it. A reply leaves after the decision is firm (Dura-SMaRt, USENIX
/// ATC 2013). Error: want of memory.
pub fn delivers<S: Service>(
    node: &mut NodeState<S>,
    fired: &mut Sequence<Fired>,
) -> Result<(), AllocError>
    ensures node { OnOk result (node.new ≡ delivers S.meaning node.old) }
    ensures fired { OnOk result (fired.new ≡ fired.old ++ delivery S.meaning node.old node.old.waiting) }
    ensures err { OnErr result (node.new.entries ≡ node.old.entries) }
{
    let answers = node.view().is_member(node.id());
    let told = execute_waiting(node)?;
    match told {
        None => Ok(()),
        Some(executed) => {
            tell(node, answers, executed, fired)?;
            Ok(())
        }
    }
}
