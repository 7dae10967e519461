//! The core that a store restores.
ghost use Rattle.std.specs.Prelude.{◌≡◌, ◌≤◌, ◌+◌, ℕ, false, length, min, IfOk, OnOk, IsErrOf};
ghost use Rattle.vote_book.specs.Entries.{entry_text};
ghost use Rattle.vote_book.specs.declared.entry.LogEntry.TheVariants.{Opened};
ghost use Rattle.node_rules.specs.Reopening.{damage_of};
ghost use Rattle.member_opening.specs.Restorings.{begin_otherwise, fault_with, node_by, opening_by, parts_in, store_fault, KeepsCounts};
ghost use Rattle.member_opening.specs.declared.fault.RestoreFault.TheVariants.{Entry};

use crate::fault::RestoreFault;
use crate::settings::Settings;
use node_core::node::NodeCore;
use node_restart::fault::ReopenFault;
use node_rules::node::Parts;
use smart_base::duplicate::Duplicate;
use smart_base::equality::same_bytes;
use smart_base::sequence::Bytes;
use smart_keys::ring::Ring;
use smart_service::service::Service;
use std::alloc::{AllocError, Global};
use std::mem::{drop, replace};
use store_form::checkpoint::Checkpoint;
use store_laws::job::Kept;
use vote_book::codec::encode_entry;
use vote_book::entry::{LogEntry, Opening};

/// The snapshot of a checkpoint.
fn snapshot_of(alloc: Global, mut checkpoint: Checkpoint) -> Bytes
    ensures { result ≡ checkpoint.snapshot }
{
    let snapshot = replace(&mut checkpoint.snapshot, Bytes::new(alloc));
    drop(checkpoint);
    snapshot
}

/// The parts from which a node begins, of what a store restores.
pub fn parts_in(alloc: Global, kept: Kept) -> Parts
    ensures { result ≡ parts_in kept }
{
    let Kept { present, entries } = kept;
    match present {
        None => Parts {
            snapshot: None,
            entries,
        },
        Some(checkpoint) => Parts {
            snapshot: Some(snapshot_of(alloc, checkpoint)),
            entries,
        },
    }
}

/// The bytes of the entry that opens a node's book. Error: want of memory.
fn opening_text(alloc: Global, settings: &Settings) -> Result<Vec<u8>, AllocError>
    ensures { IfOk result (λ text. text.items ≡ entry_text (Opened (opening_by settings.now))) }
{
    let opening = Opening {
        member: settings.member,
        period: settings.period,
        view: settings.view.duplicate(alloc)?,
    };
    encode_entry(alloc, &LogEntry::Opened(opening))
}

/// Whether entries begin with another one than that of these bytes.
fn begin_otherwise(entries: &[Bytes], text: &[u8]) -> bool
    ensures { result ≡ begin_otherwise entries.now text.now }
{
    match entries.first() {
        Some(first) => !same_bytes(first.as_slice(), text),
        None => false,
    }
}

/// Whether a book begins with another opening than a node's. Error: want of memory.
fn opens_otherwise(
    alloc: Global,
    settings: &Settings,
    entries: &[Bytes],
) -> Result<bool, AllocError>
    ensures { IfOk result (λ other. other ≡ begin_otherwise entries.now (entry_text (Opened (opening_by settings.now)))) }
{
    let text = opening_text(alloc, settings)?;
    Ok(begin_otherwise(entries, text.as_slice()))
}

/// The core that restarts from parts. Errors: the number of the first damaged part; want of memory.
fn reopened<S: Service>(
    alloc: Global,
    settings: &Settings,
    parts: &Parts,
) -> Result<NodeCore<S>, ReopenFault>
    ensures whole { OnOk result (damage_of S.meaning settings.now.secret settings.now.view parts.now ≡ None) }
    ensures node { IfOk result (λ core. core.node ≡ node_by S.meaning settings.now parts.now) }
    ensures broken { IfOk result (λ core. core.broken ≡ false) }
    ensures cause { (entry : ℕ) → IsErrOf result (ReopenFault.Damaged entry) → damage_of S.meaning settings.now.secret settings.now.view parts.now ≡ Some entry }
{
    let view = settings.view.duplicate(alloc)?;
    let ring = Ring::from_secret(Bytes::from_slice(alloc, settings.secret.as_slice())?);
    NodeCore::reopen(alloc, settings.member, view, settings.period, ring, parts)
}

/// The core with which a node begins, from what its store restores. Errors: the number of the first entry
/// that is damaged, or opens the book of another node; want of memory.
#[tactic(auto, using(crate::proofs::Counted::kept_counts), unfolding(crate::specs::Restorings::store_fault))]
pub fn restored<S: Service>(
    alloc: Global,
    settings: &Settings,
    parts: &Parts,
) -> Result<NodeCore<S>, RestoreFault>
    ensures whole { OnOk result (store_fault S.meaning settings.now parts.now ≡ None) }
    ensures node { IfOk result (λ core. core.node ≡ node_by S.meaning settings.now parts.now) }
    ensures broken { IfOk result (λ core. core.broken ≡ false) }
    ensures counts { IfOk result (λ core. KeepsCounts (length parts.now.entries) core.node) }
    ensures cause { (entry : ℕ) → IsErrOf result (Entry entry) → store_fault S.meaning settings.now parts.now ≡ Some entry }
{
    let other = opens_otherwise(alloc, settings, parts.entries.as_slice())?;
    match reopened::<S>(alloc, settings, parts) {
        Ok(core) => {
            if other {
                return Err(RestoreFault::Entry { entry: 1 });
            }
            Ok(core)
        }
        Err(ReopenFault::Damaged { entry }) => {
            let entry = if other { entry.min(1) } else { entry };
            Err(RestoreFault::Entry { entry })
        }
        Err(ReopenFault::NoMemory) => Err(RestoreFault::NoMemory),
    }
}
