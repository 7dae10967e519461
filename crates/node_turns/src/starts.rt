//! The promise of a regency, and the part in it from its beginning on.
ghost use Rattle.std.specs.Prelude.{◌≡◌, ◌<◌, true, OnOk, option_map, OnErr};
ghost use Rattle.vote_book.specs.Standing.{first_start};
ghost use Rattle.consensus_instance.specs.Nodes.{stated_start};
ghost use Rattle.node_rules.specs.Nodes.{view_of, regency_of};
ghost use Rattle.node_rules.specs.Changes.{start_by_sync};
ghost use Rattle.node_state.specs.Following.{is_unbegun, promised_by, reached, begun_at};
ghost use Rattle.node_state.specs.Broken.{IsPartly};

use consensus_instance::start::Start as Beginning;
use node_state::find::first_start;
use node_state::state::NodeState;
use regency_sync::choosing::choice;
use smart_base::number::Regency;
use smart_messages::regency::Sync;
use smart_service::service::Service;
use std::alloc::AllocError;
use vote_book::entry::{LogEntry, Promise, Start};

/// The beginning that a SYNC states: the choice of the reports in it.
pub fn start_by_sync(sync: &Sync) -> Start
    ensures { result ≡ start_by_sync sync.now }
{
    let choice = choice(sync.collect.as_slice());
    Start {
        view: sync.view,
        regency: sync.regency,
        base: choice.base,
        bound: choice.bound,
    }
}

/// The first beginning of a regency of the view in force, by the book.
fn present_start<S: Service>(node: &NodeState<S>, regency: Regency) -> Option<Beginning>
    ensures { result ≡ option_map stated_start (first_start (view_of node.now).number regency node.now.entries) }
{
    first_start(&node.book, node.view().number(), regency)
}

/// Promises a later regency. Error: want of memory.
pub fn promise_to<S: Service>(node: &mut NodeState<S>, promise: Promise) -> Result<(), AllocError>
    requires view { promise.view ≡ (view_of node.old).number }
    requires later { regency_of node.old < promise.regency }
    ensures node { OnOk result (node.new ≡ promised_by node.old promise) }
    ensures regency { OnOk result (regency_of node.new ≡ promise.regency) }
    ensures err { OnErr result (node.new.entries ≡ node.old.entries) }
{
    let regency = promise.regency;
    let start = present_start(node, regency);
    let votes = node.votes_at(node.place().get() + 1, regency);
    node.book.push(LogEntry::Promised(promise))?;
    node.instance.promised(regency, start, votes);
    node.synchronizer.promised_to(regency, start.is_some());
    Ok(())
}

/// Promises a regency, if it is later than the one in force. Error: want of memory.
fn reach<S: Service>(node: &mut NodeState<S>, promise: Promise) -> Result<(), AllocError>
    requires view { promise.view ≡ (view_of node.old).number }
    requires later { is_unbegun node.old promise.regency ≡ true }
    ensures node { OnOk result (node.new ≡ reached node.old promise) }
    ensures regency { OnOk result (regency_of node.new ≡ promise.regency) }
    ensures err { OnErr result (node.new.entries ≡ node.old.entries) }
{
    if node.regency() < promise.regency {
        promise_to(node, promise)?;
    }
    Ok(())
}

/// Takes part in the regency in force from its beginning, unless the book has one already. Error:
/// want of memory.
fn begin_at<S: Service>(node: &mut NodeState<S>, start: Start) -> Result<(), AllocError>
    requires view { start.view ≡ (view_of node.old).number }
    requires regency { regency_of node.old ≡ start.regency }
    ensures node { OnOk result (node.new ≡ begun_at node.old start) }
    ensures err { OnErr result (node.new.entries ≡ node.old.entries) }
{
    let regency = start.regency;
    let beginning = Beginning {
        base: start.base,
        bound: start.bound,
    };
    node.book.push(LogEntry::Synced(start))?;
    node.instance.synced(beginning);
    node.synchronizer.adopted(regency);
    node.impatient = false;
    Ok(())
}

/// Takes part in a regency from its beginning; a later one is promised first. Error: want of memory.
pub fn adopt_start<S: Service>(node: &mut NodeState<S>, start: Start) -> Result<(), AllocError>
    requires view { start.view ≡ (view_of node.old).number }
    requires later { is_unbegun node.old start.regency ≡ true }
    ensures node { OnOk result (node.new ≡ begun_at (reached node.old (record { view = start.view; regency = start.regency })) start) }
    ensures err { OnErr result (IsPartly node.old.entries node.new.entries (begun_at (reached node.old (record { view = start.view; regency = start.regency })) start).entries) }
{
    let promise = Promise {
        view: start.view,
        regency: start.regency,
    };
    reach(node, promise)?;
    begin_at(node, start)?;
    Ok(())
}
