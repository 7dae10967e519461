//! The report of a node to a new leader (STOPDATA of Mod-SMaRt, EDCC 2012).
ghost use Rattle.std.specs.Prelude.{◌≡◌, IfOk, option_map};
ghost use Rattle.replica_rules.specs.Seals.{digest_of};
ghost use Rattle.vote_book.specs.BookReports.{last_maker, evidence_of, evidence_by, lock_of, certificate_of};
ghost use Rattle.node_rules.specs.Nodes.{view_of};
ghost use Rattle.node_rules.specs.Changes.{report_of, reported_by};

use node_restart::batch::digest_of;
use node_state::state::NodeState;
use smart_base::duplicate::Duplicate;
use smart_base::number::Regency;
use smart_messages::regency::Reported;
use smart_service::service::Service;
use smart_statements::batch::Batch;
use smart_statements::report::{DecisionProof, Evidence, LockCertificate, MarkCertificate, Report};
use std::alloc::{AllocError, Global};
use vote_book::entry::{Accept, LogEntry};

/// The evidence that an entry gives for the place that it makes. Error: want of memory.
fn evidence_by(alloc: Global, entry: &LogEntry) -> Result<Evidence, AllocError>
    ensures { IfOk result (λ evidence. evidence ≡ evidence_by digest_of entry.now) }
{
    match entry {
        LogEntry::Decided(decision) => Ok(Evidence::Decided(DecisionProof {
            view: decision.slot.view,
            regency: decision.slot.regency,
            digest: digest_of(alloc, &decision.batch)?,
            accepts: decision.accepts.duplicate(alloc)?,
        })),
        LogEntry::Installed(installation) => Ok(Evidence::Marked(MarkCertificate {
            view: installation.view,
            digest: installation.digest,
            marks: installation.marks.duplicate(alloc)?,
        })),
        LogEntry::Opened(_)
        | LogEntry::Wrote(_)
        | LogEntry::Accepted(_)
        | LogEntry::Promised(_)
        | LogEntry::Synced(_)
        | LogEntry::Marked(_) => Ok(Evidence::Nothing),
    }
}

/// The certificate of a lock: the WRITEs of an accept. Error: want of memory.
fn certificate_of(alloc: Global, accept: &Accept) -> Result<LockCertificate, AllocError>
    ensures { IfOk result (λ lock. lock ≡ certificate_of accept.now) }
{
    Ok(LockCertificate {
        regency: accept.slot.regency,
        digest: accept.digest,
        writes: accept.writes.duplicate(alloc)?,
    })
}

/// The evidence for the last place that the book makes. Error: want of memory.
fn evidence<S: Service>(node: &NodeState<S>) -> Result<Evidence, AllocError>
    ensures { IfOk result (λ evidence. evidence ≡ evidence_of digest_of (last_maker node.now.entries)) }
{
    match node.book.last_maker() {
        None => Ok(Evidence::Nothing),
        Some(entry) => evidence_by(node.alloc, entry),
    }
}

/// The certificate of the node's lock, if it has one. Error: want of memory.
fn lock_certificate<S: Service>(node: &NodeState<S>) -> Result<Option<LockCertificate>, AllocError>
    ensures { IfOk result (λ lock. lock ≡ option_map certificate_of (lock_of (view_of node.now).number node.now.entries)) }
{
    match node.lock() {
        None => Ok(None),
        Some(accept) => Ok(Some(certificate_of(node.alloc, accept)?)),
    }
}

/// The batch on which the node is locked, if there is one. Error: want of memory.
fn locked_batch<S: Service>(node: &NodeState<S>) -> Result<Option<Batch>, AllocError>
    ensures { IfOk result (λ batch. batch ≡ option_map (λ (a : Accept). a.batch) (lock_of (view_of node.now).number node.now.entries)) }
{
    match node.lock() {
        None => Ok(None),
        Some(accept) => Ok(Some(accept.batch.duplicate(node.alloc)?)),
    }
}

/// The node's report of its book for a regency. Error: want of memory.
#[tactic(auto, unfolding(node_rules::specs::Changes::report_of))]
fn report_of<S: Service>(node: &NodeState<S>, regency: Regency) -> Result<Report, AllocError>
    ensures { IfOk result (λ report. report ≡ report_of node.now regency) }
{
    Ok(Report {
        view: node.view().number(),
        regency,
        last: node.book.last(),
        evidence: evidence(node)?,
        lock: lock_certificate(node)?,
    })
}

/// The signed report, with the batch of its lock. Error: want of memory.
#[tactic(auto, unfolding(node_rules::specs::Changes::reported_by))]
pub fn reported_by<S: Service>(
    node: &NodeState<S>,
    regency: Regency,
) -> Result<Reported, AllocError>
    ensures { IfOk result (λ reported. reported ≡ reported_by node.now regency) }
{
    let report = report_of(node, regency)?;
    Ok(Reported {
        head: node.keys.sealed(node.alloc, report)?,
        batch: locked_batch(node)?,
    })
}
