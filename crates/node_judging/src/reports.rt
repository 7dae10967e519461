//! The judging of the messages of a leader change.
ghost use Rattle.std.specs.Prelude.{◌≡◌, ◌||◌, ◌&&◌, ◌++◌, ◌∷◌, [], None, is_none, IfOk, OnOk, OnErr};
ghost use Rattle.replica_rules.specs.Seals.{is_verified};
ghost use Rattle.node_rules.specs.Nodes.{ring_of};
ghost use Rattle.node_rules.specs.Arrivals.{signer_why, why_stop, bears_lock, is_proven, why_report, is_collect, why_sync, is_newer, noted, kept};
ghost use Rattle.node_judging.specs.Arriving.{kept_unless};
ghost use Rattle.smart_messages.specs.declared.message.Message.TheVariants as changes;

use crate::reasons::{is_newer, regency_why, signer_why, view_why, wish_why};
use certificates::collect::{check_collect, check_evidence, has_no_false_lock};
use node_restart::batch::is_batch_for;
use node_rules::node::Why;
use node_state::state::NodeState;
use regency_sync::choosing::choice;
use smart_base::number::ViewNo;
use smart_messages::regency::{Reported, Stop, Sync};
use smart_service::service::Service;
use smart_statements::batch::Batch;
use smart_statements::report::LockCertificate;
use smart_statements::signed::{Signed, Statement};
use std::alloc::AllocError;

/// Notes that the node lags, if a member's message of a view shows it.
fn note_view<S: Service, T: Statement>(node: &mut NodeState<S>, signed: &Signed<T>, view: ViewNo)
    ensures { node.new ≡ record node.old { behind = node.old.behind || (is_none (signer_why node.old (is_verified T.form (ring_of node.old) signed.now) signed.now.signer) && is_newer node.old view) } }
{
    node.behind = node.behind || is_newer(node, view) && signer_why(node, signed).is_none();
}

/// Keeps a STOP, or tells why it is dropped. Error: want of memory.
#[tactic(auto, unfolding(node_rules::specs::Arrivals::noted, node_rules::specs::Arrivals::kept))]
pub fn take_stop<S: Service>(
    node: &mut NodeState<S>,
    stop: Signed<Stop>,
) -> Result<Option<Why>, AllocError>
    ensures why { IfOk result (λ why. why ≡ why_stop node.old stop) }
    ensures node { IfOk result (λ why. node.new ≡ kept_unless why (noted node.old (changes.Stop stop)) (changes.Stop stop)) }
    ensures err { OnErr result (node.new.entries ≡ node.old.entries) }
    ensures snapshots { OnErr result (node.new.taken ≡ node.old.taken) }
{
    let dropped = why_stop(node, &stop);
    note_view(node, &stop, stop.statement().view);
    if dropped.is_some() {
        return Ok(dropped);
    }
    keep_stop(node, stop)?;
    Ok(None)
}

/// Keeps a STOP that is not dropped. Error: want of memory.
fn keep_stop<S: Service>(node: &mut NodeState<S>, stop: Signed<Stop>) -> Result<(), AllocError>
    requires { why_stop node.old stop ≡ None }
    ensures node { OnOk result (node.new ≡ kept node.old (changes.Stop stop)) }
    ensures err { OnErr result (node.new.entries ≡ node.old.entries) }
    ensures snapshots { OnErr result (node.new.taken ≡ node.old.taken) }
{
    node.synchronizer.on_stop(stop)?;
    Ok(())
}

/// Keeps a STOPDATA, or tells why it is dropped. Error: want of memory.
#[tactic(auto, unfolding(node_rules::specs::Arrivals::noted, node_rules::specs::Arrivals::kept))]
pub fn take_report<S: Service>(
    node: &mut NodeState<S>,
    reported: Reported,
) -> Result<Option<Why>, AllocError>
    ensures why { IfOk result (λ why. why ≡ why_report node.old reported) }
    ensures node { IfOk result (λ why. node.new ≡ kept_unless why (noted node.old (changes.StopData reported)) (changes.StopData reported)) }
    ensures err { OnErr result (node.new.entries ≡ node.old.entries) }
    ensures snapshots { OnErr result (node.new.taken ≡ node.old.taken) }
{
    let dropped = why_report(node, &reported)?;
    note_view(node, &reported.head, reported.head.statement().view);
    if dropped.is_some() {
        return Ok(dropped);
    }
    keep_report(node, reported)?;
    Ok(None)
}

/// Keeps a STOPDATA that is not dropped. Error: want of memory.
fn keep_report<S: Service>(node: &mut NodeState<S>, reported: Reported) -> Result<(), AllocError>
    requires { why_report node.old reported ≡ None }
    ensures node { OnOk result (node.new ≡ kept node.old (changes.StopData reported)) }
    ensures err { OnErr result (node.new.entries ≡ node.old.entries) }
    ensures snapshots { OnErr result (node.new.taken ≡ node.old.taken) }
{
    let Reported { head, batch } = reported;
    node.synchronizer.on_stopdata(head, batch)?;
    Ok(())
}

/// Keeps a SYNC, or tells why it is dropped. Error: want of memory.
#[tactic(auto, unfolding(node_rules::specs::Arrivals::noted, node_rules::specs::Arrivals::kept))]
pub fn take_sync<S: Service>(
    node: &mut NodeState<S>,
    sync: Signed<Sync>,
) -> Result<Option<Why>, AllocError>
    ensures why { IfOk result (λ why. why ≡ why_sync node.old sync) }
    ensures node { IfOk result (λ why. node.new ≡ kept_unless why (noted node.old (changes.Sync sync)) (changes.Sync sync)) }
    ensures err { OnErr result (node.new.entries ≡ node.old.entries) }
    ensures snapshots { OnErr result (node.new.taken ≡ node.old.taken) }
{
    let dropped = why_sync(node, &sync);
    note_view(node, &sync, sync.statement().view);
    if dropped.is_some() {
        return Ok(dropped);
    }
    let base = choice(sync.statement().collect.as_slice()).base;
    let lags = node.decided_place().get() + 1 < base;
    keep_sync(node, sync)?;
    node.behind = node.behind || lags;
    Ok(None)
}

/// Keeps a SYNC that is not dropped. Error: want of memory.
fn keep_sync<S: Service>(node: &mut NodeState<S>, sync: Signed<Sync>) -> Result<(), AllocError>
    requires { why_sync node.old sync ≡ None }
    ensures node { OnOk result (node.new ≡ record node.old { syncs = node.old.syncs ++ sync ∷ [] }) }
    ensures err { OnErr result (node.new.entries ≡ node.old.entries) }
    ensures snapshots { OnErr result (node.new.taken ≡ node.old.taken) }
{
    node.synchronizer.on_sync(sync)?;
    Ok(())
}

#[tactic(auto, unfolding(node_rules::specs::Arrivals::why_stop))]
fn why_stop<S: Service>(node: &NodeState<S>, stop: &Signed<Stop>) -> Option<Why>
    ensures { result ≡ why_stop node.now stop.now }
{
    if let Some(why) = signer_why(node, stop) {
        return Some(why);
    }
    if let Some(why) = view_why(node, stop.statement().view) {
        return Some(why);
    }
    if let Some(why) = wish_why(node, stop.statement().regency) {
        return Some(why);
    }
    if node.synchronizer().repeats_stop(stop) {
        Some(Why::Repeated)
    } else {
        None
    }
}

/// Whether a report brings the batch of its lock, if it has a lock, and the batch may stand at a
/// place. Error: want of memory.
fn bears_lock<S: Service>(
    node: &NodeState<S>,
    place: u64,
    lock: &Option<LockCertificate>,
    batch: &Option<Batch>,
) -> Result<bool, AllocError>
    ensures { IfOk result (λ bears. bears ≡ bears_lock (ring_of node.now) place lock.now batch.now) }
{
    match lock {
        None => Ok(true),
        Some(lock) => match batch {
            None => Ok(false),
            Some(batch) => {
                is_batch_for(node.alloc, node.keys.ring(), place, &lock.digest, batch)
            }
        },
    }
}

/// Whether the evidence, the lock and the batch of a report hold. Error: want of memory.
#[tactic(auto, unfolding(node_rules::specs::Arrivals::is_proven))]
fn is_proven<S: Service>(node: &NodeState<S>, reported: &Reported) -> Result<bool, AllocError>
    ensures { IfOk result (λ proven. proven ≡ is_proven node.now reported.now) }
{
    let ring = node.keys.ring();
    let report = reported.head.statement();
    let views = node.replica.replica().views.as_slice();
    if !check_evidence(ring, views, report.last, &report.evidence)
        || !has_no_false_lock(ring, node.view(), report.last, report.regency, &report.lock)
    {
        return Ok(false);
    }
    bears_lock(node, report.last.get() + 1, &report.lock, &reported.batch)
}

#[tactic(auto, unfolding(node_rules::specs::Arrivals::why_report))]
fn why_report<S: Service>(
    node: &NodeState<S>,
    reported: &Reported,
) -> Result<Option<Why>, AllocError>
    ensures { IfOk result (λ why. why ≡ why_report node.now reported.now) }
{
    let head = &reported.head;
    if let Some(why) = signer_why(node, head) {
        return Ok(Some(why));
    }
    if let Some(why) = view_why(node, head.statement().view) {
        return Ok(Some(why));
    }
    if let Some(why) = regency_why(node, head.statement().regency) {
        return Ok(Some(why));
    }
    if node.view().leader(head.statement().regency) != node.id() {
        Ok(Some(Why::NotLeader))
    } else if !is_proven(node, reported)? {
        Ok(Some(Why::BadProof))
    } else if node.synchronizer().repeats_report(head) {
        Ok(Some(Why::Repeated))
    } else {
        Ok(None)
    }
}

/// Whether the reports of a SYNC are a collect.
#[tactic(auto, unfolding(node_rules::specs::Arrivals::is_collect))]
fn is_collect<S: Service>(node: &NodeState<S>, sync: &Sync) -> bool
    ensures { result ≡ is_collect node.now sync.now }
{
    let views = node.replica.replica().views.as_slice();
    let reports = sync.collect.as_slice();
    check_collect(node.keys.ring(), views, sync.regency, reports).is_ok()
}

#[tactic(auto, unfolding(node_rules::specs::Arrivals::why_sync))]
fn why_sync<S: Service>(node: &NodeState<S>, sync: &Signed<Sync>) -> Option<Why>
    ensures { result ≡ why_sync node.now sync.now }
{
    if let Some(why) = signer_why(node, sync) {
        return Some(why);
    }
    if let Some(why) = view_why(node, sync.statement().view) {
        return Some(why);
    }
    let regency = sync.statement().regency;
    if regency < node.regency() {
        Some(Why::OldRegency)
    } else if sync.signer() != node.view().leader(regency).get() {
        Some(Why::NotLeader)
    } else if !is_collect(node, sync.statement()) {
        Some(Why::BadProof)
    } else if node.is_begun(regency) || node.synchronizer().repeats_sync(sync) {
        Some(Why::Repeated)
    } else {
        None
    }
}
