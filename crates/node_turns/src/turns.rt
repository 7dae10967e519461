//! The rules that adopt, join, promise and lead. Each has three functions: what is due, what the rule
//! does with it, and both together.
ghost use Rattle.std.specs.Prelude.{◌≡◌, ◌+◌, ◌<◌, ◌^◌, ◌++◌, true, find, IfOk, IfSome, OnOk, Some, OnErr};
ghost use Rattle.std.specs.Option.{option_copied};
ghost use Rattle.node_rules.specs.Nodes.{view_of, regency_of};
ghost use Rattle.node_rules.specs.Rules.{fired_if};
ghost use Rattle.node_rules.specs.Changes.{fired_when, fired_adopt, is_adoptable, adoption, adopts, joining, joins, next_promise, promising, promise_next, promises, leading, lead_with, leads};
ghost use Rattle.node_rules.specs.Steps.{turn_rows, pass};
ghost use Rattle.node_state.specs.Following.{is_unbegun};
ghost use Rattle.node_state.specs.Broken.{IsPartly};
ghost use Rattle.node_rules.specs.declared.node.Fired.TheVariants as fires;

use crate::asks::asks_next;
use crate::reports::reported_by;
use crate::starts::{adopt_start, promise_to, start_by_sync};
use node_rules::node::{Cause, Fired, Target};
use node_state::state::NodeState;
use regency_sync::needed::needs_sync;
use smart_base::duplicate::Duplicate;
use smart_base::number::Regency;
use smart_base::sequence::Sequence;
use smart_messages::message::Message;
use smart_messages::regency::Sync;
use smart_service::service::Service;
use smart_statements::report::Report;
use smart_statements::signed::Signed;
use smart_statements::signed_list::SignedList;
use std::alloc::AllocError;
use vote_book::entry::Promise;

/// One pass of the rules of a leader change: adopts, joins, promises and leads, each once. Error: want
/// of memory.
#[tactic(auto, unfolding(node_rules::specs::Steps::pass, node_rules::specs::Steps::turn_rows))]
pub fn turns<S: Service>(
    node: &mut NodeState<S>,
    cause: &Cause,
    fired: &mut Sequence<Fired>,
) -> Result<(), AllocError>
    ensures pass { OnOk result (pass turn_rows node.old cause.now fired.old ≡ (node.new, fired.new)) }
    ensures err { OnErr result (IsPartly node.old.entries node.new.entries (pass turn_rows node.old cause.now fired.old).0.entries) }
{
    adopts(node, fired)?;
    joins(node, fired)?;
    promises(node, fired)?;
    leads(node, fired)?;
    Ok(())
}

/// Whether a SYNC may be adopted: it is of the view in force, of the regency in force or a later one,
/// and that regency has not begun.
fn is_adoptable<S: Service>(node: &NodeState<S>, sync: &Signed<Sync>) -> bool
    ensures { result ≡ is_adoptable node.now sync.now }
{
    needs_sync(node.view().number(), node.regency(), sync)
        && !node.is_begun(sync.statement().regency)
}

fn first_adoptable<'a, S: Service>(
    node: &NodeState<S>,
    syncs: &'a [Signed<Sync>],
) -> Option<&'a Signed<Sync>>
    ensures { option_copied result ≡ find (is_adoptable node.now) syncs.now }
{
    syncs.iter().find(|sync| is_adoptable(node, sync))
}

/// The first kept SYNC that may be adopted, if there is one.
#[tactic(auto, unfolding(node_rules::specs::Changes::adoption))]
fn adoption<S: Service>(node: &NodeState<S>) -> Option<&Signed<Sync>>
    ensures sync { option_copied result ≡ adoption node.now }
    ensures view { IfSome result (λ s. s.now.statement.view ≡ (view_of node.now).number) }
    ensures later { IfSome result (λ s. is_unbegun node.now s.now.statement.regency ≡ true) }
{
    first_adoptable(node, node.synchronizer().syncs())
}

/// The rule that adopts: the node takes part in a regency that its leader has begun (reception of
/// SYNC: Mod-SMaRt, EDCC 2012). Error: want of memory.
#[tactic(auto, unfolding(node_rules::specs::Changes::adopts, node_rules::specs::Changes::adopts_by))]
fn adopts<S: Service>(
    node: &mut NodeState<S>,
    fired: &mut Sequence<Fired>,
) -> Result<(), AllocError>
    ensures node { OnOk result (node.new ≡ adopts node.old) }
    ensures fired { OnOk result (fired.new ≡ fired.old ++ fired_adopt (adoption node.old)) }
    ensures err { OnErr result (IsPartly node.old.entries node.new.entries (adopts node.old).entries) }
{
    match adoption(node) {
        None => Ok(()),
        Some(sync) => {
            let start = start_by_sync(sync.statement());
            fired.push(Fired::Adopted(start.duplicate(node.alloc)?))?;
            adopt_start(node, start)?;
            Ok(())
        }
    }
}

/// Whether more than f members ask for the next regency, and the node has not asked in this life.
#[tactic(auto, unfolding(node_rules::specs::Changes::joining))]
fn joining<S: Service>(node: &NodeState<S>) -> bool
    ensures value { result ≡ joining node.now }
    ensures next { result ≡ true → regency_of node.now + 1 < 2 ^ 32 }
{
    node.synchronizer().is_joining()
}

/// The rule that joins: the node asks for the next regency after more than f members did (Mod-SMaRt,
/// EDCC 2012). Error: want of memory.
#[tactic(auto, unfolding(node_rules::specs::Changes::joins))]
fn joins<S: Service>(node: &mut NodeState<S>, fired: &mut Sequence<Fired>) -> Result<(), AllocError>
    ensures node { OnOk result (node.new ≡ joins node.old) }
    ensures fired { OnOk result (fired.new ≡ fired.old ++ fired_when fires.Joined (joining node.old)) }
    ensures err { OnErr result (node.new.entries ≡ node.old.entries) }
{
    if joining(node) {
        fired.push(Fired::Joined)?;
        asks_next(node)?;
    }
    Ok(())
}

/// Whether 2f+1 members ask for the next regency.
#[tactic(auto, unfolding(node_rules::specs::Changes::promising))]
fn promising<S: Service>(node: &NodeState<S>) -> bool
    ensures value { result ≡ promising node.now }
    ensures next { result ≡ true → regency_of node.now + 1 < 2 ^ 32 }
{
    node.synchronizer().is_promising()
}

fn next_promise<S: Service>(node: &NodeState<S>) -> Promise
    requires { regency_of node.now + 1 < 2 ^ 32 }
    ensures { result ≡ next_promise node.now }
{
    Promise {
        view: node.view().number(),
        regency: Regency::new(node.regency().get() + 1),
    }
}

#[tactic(auto, unfolding(node_rules::specs::Changes::promise_next, node_rules::specs::Changes::reported_by))]
fn promise_next<S: Service>(node: &mut NodeState<S>) -> Result<(), AllocError>
    requires { regency_of node.old + 1 < 2 ^ 32 }
    ensures node { OnOk result (node.new ≡ promise_next node.old) }
    ensures err { OnErr result (IsPartly node.old.entries node.new.entries (promise_next node.old).entries) }
{
    let promise = next_promise(node);
    let regency = promise.regency;
    let leader = node.view().leader(regency);
    let reported = reported_by(node, regency)?;
    promise_to(node, promise)?;
    node.impatient = true;
    let message = Message::StopData(reported);
    node.hold(Target::Node(leader), message)?;
    Ok(())
}

/// The rule that promises: after 2f+1 members ask for the next regency the node promises it, and
/// reports to its leader (Mod-SMaRt, EDCC 2012). The report leaves after the promise is firm (this
/// project's own rule). Error: want of memory.
#[tactic(auto, unfolding(node_rules::specs::Changes::promises))]
fn promises<S: Service>(
    node: &mut NodeState<S>,
    fired: &mut Sequence<Fired>,
) -> Result<(), AllocError>
    ensures node { OnOk result (node.new ≡ promises node.old) }
    ensures fired { OnOk result (fired.new ≡ fired.old ++ fired_when (fires.Promised (next_promise node.old)) (promising node.old)) }
    ensures err { OnErr result (IsPartly node.old.entries node.new.entries (promises node.old).entries) }
{
    if promising(node) {
        fired.push(Fired::Promised(next_promise(node)))?;
        promise_next(node)?;
    }
    Ok(())
}

/// The collect with which the node begins its regency, if it is to begin it. Error: want of memory.
#[tactic(auto, unfolding(node_rules::specs::Changes::leading))]
fn leading<S: Service>(node: &NodeState<S>) -> Result<Option<SignedList<Report>>, AllocError>
    ensures { IfOk result (λ reports. reports ≡ leading node.now) }
{
    node.synchronizer().collecting(node.alloc)
}

#[tactic(auto, unfolding(node_rules::specs::Changes::lead_with))]
fn lead_with<S: Service>(
    node: &mut NodeState<S>,
    collect: SignedList<Report>,
) -> Result<(), AllocError>
    ensures node { OnOk result (node.new ≡ lead_with node.old (Some collect)) }
    ensures err { OnErr result (node.new.entries ≡ node.old.entries) }
{
    let sync = Sync {
        view: node.view().number(),
        regency: node.regency(),
        collect,
    };
    let signed = node.keys.sealed(node.alloc, sync)?;
    node.synchronizer.sync_made();
    let message = Message::Sync(signed);
    node.hold(Target::View, message)?;
    Ok(())
}

/// The rule that leads: the leader of a regency that has not begun begins it with n-f reports (SYNC
/// of Mod-SMaRt, EDCC 2012). Error: want of memory.
#[tactic(auto, unfolding(node_rules::specs::Changes::leads, node_rules::specs::Changes::lead_with))]
fn leads<S: Service>(node: &mut NodeState<S>, fired: &mut Sequence<Fired>) -> Result<(), AllocError>
    ensures node { OnOk result (node.new ≡ leads node.old) }
    ensures fired { OnOk result (fired.new ≡ fired.old ++ fired_if fires.Led (leading node.old)) }
    ensures err { OnErr result (node.new.entries ≡ node.old.entries) }
{
    match leading(node)? {
        None => Ok(()),
        Some(collect) => {
            fired.push(Fired::Led)?;
            lead_with(node, collect)?;
            Ok(())
        }
    }
}
