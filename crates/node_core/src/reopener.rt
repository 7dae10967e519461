//! Restarts, from a checkpoint and the entries behind it, part by part.
ghost use Rattle.std.specs.Prelude.{◌≡◌, [], ℕ, true, false, is_some, option_map, Some, None, Err, IfOk, OnOk, IsErrOf};
ghost use Rattle.std.specs.Option.{option_copied};
ghost use Rattle.snapshot_form.specs.Snapshots.{restored};
ghost use Rattle.vote_book.specs.Entries.{entry_decoded};
ghost use Rattle.replica_rules.specs.Replicas.{managed_of};
ghost use Rattle.node_rules.specs.Reopening.{replica_from, damaged, damage_of, outset_from, reopened_from};
ghost use Rattle.node_rules.specs.Steps.{Outset};
ghost use Rattle.node_restart.specs.declared.fault.ReopenFault.TheVariants.{Damaged, NoMemory};
ghost use Rattle.node_opening.specs.Resuming.{gone_on};
ghost use Rattle.node_core.specs.Reopeners.{taken_after, read_on, IsDamaged, IsAfter};

use crate::node::NodeCore;
use delivery::replica::KeptReplica;
use node_opening::reopen::resume;
use node_restart::fault::ReopenFault;
use node_restart::restart::Restart;
use node_rules::node::{OwnSnapshot, Parts};
use node_state::seal::taught;
use smart_base::name::MemberId;
use smart_base::number::Place;
use smart_base::sequence::Bytes;
use smart_base::view::View;
use smart_keys::ring::Ring;
use smart_service::fault::RestoreError;
use smart_service::service::Service;
use snapshot_form::reading::from_bytes;
use std::alloc::{AllocError, Global};
use std::marker::Model;

/// A node that restarts: what its devices restore is read part by part, first the newest checkpoint and
/// then the entries of the log behind it.
pub struct Reopener<S> {
    alloc: Global,
    id: MemberId,
    period: u32,
    ring: Ring,
    /// The snapshot of the checkpoint, if there is one.
    checkpoint: Option<OwnSnapshot>,
    /// What was given back so far. None once an entry was damaged, or memory was wanting.
    restart: Option<Restart<S>>,
    /// The number of the first damaged entry, if one was read.
    damage: Option<u64>,
}

/// Let go by one call, so that no function that lets one go carries the whole of it.
impl<S: Drop> Drop for Reopener<S> {
    fn drop(self) {
        let Reopener {
            alloc: _,
            id: _,
            period: _,
            ring: _,
            checkpoint: _,
            restart: _,
            damage: _,
        } = self;
    }
}

impl<S> Model for Reopener<S> {
    ghost use Rattle.std.specs.Prelude.{IfSome};
    ghost use Rattle.node_restart.specs.Restarts.{AreSound};
    ghost use Rattle.node_core.specs.Reopeners.{Reopening};

    ghost Value = { Reopening S };

    ghost view = { λ r. record { member = r.id; secret = r.ring; period = r.period; checkpoint = r.checkpoint; restart = r.restart; damage = r.damage } };

    ghost invariant = { λ r. IfSome r.restart (λ restart. AreSound r.ring restart.entries) };
}

/// The replica whose snapshot a checkpoint has. Errors: it is the snapshot of no replica; want of memory.
fn replica_of<S: Service>(alloc: Global, bytes: &[u8]) -> Result<KeptReplica<S>, ReopenFault>
    ensures replica { IfOk result (λ kept. restored S.meaning bytes.now ≡ Some kept.replica) }
    ensures whole { IfOk result (λ kept. kept.spent ≡ false) }
    ensures cause { (entry : ℕ) → IsErrOf result (Damaged entry) → (entry ≡ 0) × (restored S.meaning bytes.now ≡ None) }
{
    match from_bytes(alloc, bytes) {
        Ok(replica) => Ok(KeptReplica::new(replica)),
        Err(RestoreError::BadSnapshot) => Err(ReopenFault::Damaged { entry: 0 }),
        Err(RestoreError::NoMemory) => Err(ReopenFault::NoMemory),
    }
}

/// The replica with which a restart begins: that of the checkpoint, or the one before any batch. Errors:
/// the checkpoint has the snapshot of no replica; want of memory.
fn first_replica<S: Service>(
    alloc: Global,
    view: View,
    snapshot: Option<&[u8]>,
) -> Result<KeptReplica<S>, ReopenFault>
    ensures replica { IfOk result (λ kept. replica_from S.meaning view (option_copied snapshot.entry) ≡ Some kept.replica) }
    ensures whole { IfOk result (λ kept. kept.spent ≡ false) }
    ensures cause { (entry : ℕ) → IsErrOf result (Damaged entry) → (entry ≡ 0) × (replica_from S.meaning view (option_copied snapshot.entry) ≡ None) }
{
    match snapshot {
        None => {
            let kept = KeptReplica::empty(alloc, view)?;
            Ok(kept)
        }
        Some(bytes) => replica_of(alloc, bytes),
    }
}

/// A checkpoint's snapshot, if there is one; it is firm. Error: want of memory.
fn checkpoint_of(
    alloc: Global,
    place: Place,
    snapshot: Option<&[u8]>,
) -> Result<Option<OwnSnapshot>, AllocError>
    ensures { IfOk result (λ own. own ≡ option_map (λ bytes. record { place = place; snapshot = bytes; needs = 0 }) (option_copied snapshot.entry)) }
{
    match snapshot {
        None => Ok(None),
        Some(bytes) => Ok(Some(OwnSnapshot {
            place,
            snapshot: Bytes::from_slice(alloc, bytes)?,
            needs: 0,
        })),
    }
}

impl<S: Service> Reopener<S> {
    /// Begins a restart over the snapshot of the newest checkpoint, if there is one. `view` is the
    /// group's first view, and `period` the number of places in which each member takes one checkpoint.
    /// Errors: number 0 is damaged, since the bytes are the snapshot of no replica; want of memory.
    pub fn begin(
        alloc: Global,
        id: MemberId,
        view: View,
        period: u32,
        ring: Ring,
        snapshot: Option<&[u8]>,
    ) -> Result<Self, ReopenFault>
        ensures begun { IfOk result (λ r. IsAfter S.meaning (outset_from S.meaning ring id view period (option_copied snapshot.entry)) [] r) }
        ensures whole { OnOk result (is_some (replica_from S.meaning view (option_copied snapshot.entry)) ≡ true) }
        ensures cause { (entry : ℕ) → IsErrOf result (Damaged entry) → (entry ≡ 0) × (replica_from S.meaning view (option_copied snapshot.entry) ≡ None) }
    {
        let replica = first_replica(alloc, view, snapshot)?;
        let ring = taught(ring, replica.replica().views.present().members())?;
        let checkpoint = checkpoint_of(alloc, replica.replica().place, snapshot)?;
        Ok(Reopener {
            alloc,
            id,
            period,
            ring,
            checkpoint,
            restart: Some(Restart::begin(alloc, replica)),
            damage: None,
        })
    }

    /// Reads the next entry, as `entry` does while none was damaged.
    fn read_next(&mut self, bytes: &[u8]) -> Result<(), ReopenFault>
        requires { self.old.damage ≡ None }
        ensures next { OnOk result (self.new ≡ read_on S.meaning self.old bytes.now) }
        ensures some { OnOk result (is_some (taken_after S.meaning self.old.secret self.old.restart (entry_decoded bytes.now)) ≡ true) }
        ensures cause { (entry : ℕ) → IsErrOf result (Damaged entry) → IsDamaged S.meaning self.old bytes.now entry }
        ensures noted { (entry : ℕ) → IsErrOf result (Damaged entry) → self.new.damage ≡ Some entry }
        ensures lost { IsErrOf result NoMemory → (self.new.restart ≡ None) × (self.new.damage ≡ self.old.damage) }
    {
        let Some(restart) = self.restart.take() else {
            return Err(ReopenFault::NoMemory);
        };
        match restart.take(&self.ring, bytes) {
            Ok(later) => {
                self.restart = Some(later);
                Ok(())
            }
            Err(ReopenFault::Damaged { entry }) => {
                self.damage = Some(entry);
                Err(ReopenFault::Damaged { entry })
            }
            Err(ReopenFault::NoMemory) => Err(ReopenFault::NoMemory),
        }
    }

    /// Reads the next entry. Errors: the number, from 1, of the first damaged entry, the same from then
    /// on; want of memory, after which the restart is lost.
    pub fn entry(&mut self, bytes: &[u8]) -> Result<(), ReopenFault>
        ensures next { OnOk result (self.new ≡ read_on S.meaning self.old bytes.now) }
        ensures some { OnOk result (is_some (taken_after S.meaning self.old.secret self.old.restart (entry_decoded bytes.now)) ≡ true) }
        ensures cause { (entry : ℕ) → IsErrOf result (Damaged entry) → IsDamaged S.meaning self.old bytes.now entry }
        ensures noted { (entry : ℕ) → IsErrOf result (Damaged entry) → self.new.damage ≡ Some entry }
        ensures lost { IsErrOf result NoMemory → (self.new.restart ≡ None) × (self.new.damage ≡ self.old.damage) }
        ensures again { (entry : ℕ) → self.old.damage ≡ Some entry → (result ≡ Err (Damaged entry)) × (self.new ≡ self.old) }
    {
        if let Some(entry) = self.damage {
            return Err(ReopenFault::Damaged { entry });
        }
        match self.read_next(bytes) {
            Ok(()) => Ok(()),
            Err(fault) => Err(fault),
        }
    }

    /// Reads more entries, in order.
    fn read_all(&mut self, entries: &[Bytes]) -> Result<(), ReopenFault>
        ensures read { OnOk result ((o : Outset S) → IsAfter S.meaning o [] self.old → IsAfter S.meaning o entries.now self.new) }
        ensures cause { (entry : ℕ) → IsErrOf result (Damaged entry) → (o : Outset S) → IsAfter S.meaning o [] self.old → damaged o.secret o.replica.place (managed_of o.replica) entries.now ≡ Some entry }
    {
        for bytes in entries {
            self.entry(bytes.as_slice())?;
        }
        Ok(())
    }

    /// The node after the restart. Error: want of memory, also if the restart was lost.
    pub fn finish(self) -> Result<NodeCore<S>, AllocError>
        requires { self.damage ≡ None }
        ensures node { IfOk result (λ core. option_map (λ back. gone_on self.secret self.member self.period back self.checkpoint) self.restart ≡ Some core.node) }
        ensures broken { IfOk result (λ core. core.broken ≡ false) }
    {
        let Reopener {
            alloc,
            id,
            period,
            ring,
            checkpoint,
            restart,
            damage: _,
        } = self;
        let Some(back) = restart else {
            return Err(AllocError);
        };
        let node = resume(alloc, id, period, ring, back, checkpoint)?;
        Ok(NodeCore::whole(node))
    }
}

/// The snapshot among a restart's parts, if there is one.
fn snapshot_in(parts: &Parts) -> Option<&[u8]>
    ensures { option_copied result ≡ parts.now.snapshot }
{
    match &parts.snapshot {
        None => None,
        Some(bytes) => Some(bytes.as_slice()),
    }
}

impl<S: Service> NodeCore<S> {
    /// The node after a restart from what its disks restored: the newest checkpoint, if there is one,
    /// and the entries of the log behind it (recovery: Dura-SMaRt, USENIX ATC 2013). `view` is the
    /// group's first view. `period` is the number of places in which each member takes one checkpoint.
    ///
    /// All these entries are firm, and nothing else of the earlier life is left. The node notes that
    /// it may lag. With no entry it opens a new book. The book need not be tidy. The cost is linear
    /// in what was restored. Errors: the number, from 1, of the first damaged entry, or 0 if the
    /// checkpoint has the snapshot of no replica; want of memory.
    pub fn reopen(
        alloc: Global,
        id: MemberId,
        view: View,
        period: u32,
        ring: Ring,
        parts: &Parts,
    ) -> Result<Self, ReopenFault>
        ensures whole { OnOk result (damage_of S.meaning ring view parts.now ≡ None) }
        ensures node { IfOk result (λ core. core.node ≡ reopened_from S.meaning ring id view period parts.now) }
        ensures broken { IfOk result (λ core. core.broken ≡ false) }
        // The number of the first part to be damaged.
        ensures cause { (entry : ℕ) → IsErrOf result (Damaged entry) → damage_of S.meaning ring view parts.now ≡ Some entry }
    {
        let snapshot = snapshot_in(parts);
        let mut reopener = Reopener::begin(alloc, id, view, period, ring, snapshot)?;
        reopener.read_all(parts.entries.as_slice())?;
        let core = reopener.finish()?;
        Ok(core)
    }
}
