//! Hosts that crash, and restart from what their devices hold.
ghost use Rattle.std.specs.Prelude.{◌≡◌, ◌++◌, [], true, false, length, IfOk, IfErr, OnOk, OnErr, option_map};
ghost use Rattle.store_laws.specs.States.{given, store_opened};
ghost use Rattle.store_laws.specs.Restored.{restores};
ghost use Rattle.world_rules.specs.Crashes.{bytes_held, images_left, wrong_images};
ghost use Rattle.member_store.specs.Left.{Tells};
ghost use Rattle.node_rules.specs.Reopening.{damage_of};
ghost use Rattle.world_rules.specs.Secrets.{group_secret};
ghost use Rattle.world_rules.specs.Worlds.{core_course, spelled_behind, host_crashed, parts_of, parts_held, host_resumed};
ghost use Rattle.world_hosts.specs.Lives.{node_from, node_in, host_with, told_with};

use crate::host::{Host, behind};
use member_store::crash::CrashFault;
use member_store::store::MemberStore;
use node_core::node::NodeCore;
use node_restart::fault::ReopenFault;
use node_rules::node::Parts;
use smart_base::duplicate::Duplicate;
use smart_base::name::MemberId;
use smart_base::number::Place;
use smart_base::sequence::Bytes;
use smart_base::view::View;
use smart_keys::ring::Ring;
use smart_service::service::Service;
use std::alloc::{AllocError, Global};
use std::mem::{drop, replace};
use store_form::checkpoint::Checkpoint;
use store_laws::job::Kept;
use world_rules::crash::{Image, Patch};
use world_rules::line::OutLine;

/// Stops a store. Its devices stay as they read, which a crash may leave of any. Error: want of
/// memory.
fn stop(store: &mut MemberStore) -> Result<(), AllocError>
    requires { store.old.runs ≡ true }
    ensures { OnOk result (store.new ≡ record { runs = false; state = store_opened (bytes_held store.old.state) }) }
{
    match store.crash(Image::New, &[]) {
        Ok(()) => Ok(()),
        Err(_) => Err(AllocError),
    }
}

/// The snapshot of a checkpoint.
fn snapshot_of(alloc: Global, mut checkpoint: Checkpoint) -> Bytes
    ensures { result ≡ checkpoint.snapshot }
{
    let snapshot = replace(&mut checkpoint.snapshot, Bytes::new(alloc));
    drop(checkpoint);
    snapshot
}

/// The parts that a store gives a node, of what it restores.
fn parts_of(alloc: Global, kept: Kept) -> Parts
    ensures { result ≡ parts_of kept }
{
    let Kept { present, entries } = kept;
    match present {
        None => Parts {
            snapshot: None,
            entries,
        },
        Some(checkpoint) => Parts {
            snapshot: Some(snapshot_of(alloc, checkpoint)),
            entries,
        },
    }
}

/// Restarts a stopped store, and gives the parts that its devices hold. Error: want of memory.
fn restored(alloc: Global, store: &mut MemberStore) -> Result<Parts, AllocError>
    requires { store.old.runs ≡ false }
    ensures runs { OnOk result (store.new ≡ record { runs = true; state = store.old.state }) }
    ensures same { OnOk result (store_opened (bytes_held store.new.state) ≡ store.new.state) }
    ensures parts { IfOk result (λ parts. parts ≡ parts_of (restores (bytes_held store.old.state))) }
{
    store.what_is_left();
    let kept = store.restart()?;
    Ok(parts_of(alloc, kept))
}

/// The node after a restart from parts, if none is damaged. Error: want of memory.
fn reopened<S: Service>(
    alloc: Global,
    id: MemberId,
    view: &View,
    period: u32,
    ring: &Ring,
    parts: &Parts,
) -> Result<Option<NodeCore<S>>, AllocError>
    requires { ring.now ≡ group_secret }
    ensures { IfOk result (λ node. option_map (λ n. n.node) node ≡ node_from S.meaning view.now period id parts.now (damage_of S.meaning group_secret view.now parts.now)) }
{
    let view = view.duplicate(alloc)?;
    let ring = ring.duplicate(alloc)?;
    match NodeCore::reopen(alloc, id, view, period, ring, parts) {
        Ok(node) => Ok(Some(node)),
        Err(ReopenFault::Damaged { .. }) => Ok(None),
        Err(ReopenFault::NoMemory) => Err(AllocError),
    }
}

impl<S: Service> Host<S> {
    /// Crashes a running host, and leaves this of its devices. Errors: bytes that no crash leaves;
    /// want of memory. Nothing has changed then.
    pub fn crash(&mut self, image: Image, patches: &[Patch]) -> Result<(), CrashFault>
        requires { self.old.up ≡ true }
        ensures right { OnOk result (wrong_images self.old.store (images_left image patches.now self.old.store) ≡ None) }
        ensures left { OnOk result (self.new ≡ host_crashed (core_course S.meaning) self.old (images_left image patches.now self.old.store)) }
        ensures wrong { IfErr result (λ e. Tells e (wrong_images self.old.store (images_left image patches.now self.old.store))) }
        ensures err { OnErr result (self.new ≡ self.old) }
    {
        self.store.crash(image, patches)
    }

    /// Gives to the store what a restarted node has written after the restored entries. Error: want
    /// of memory.
    fn give_opening(&mut self, node: &NodeCore<S>) -> Result<(), AllocError>
        requires { self.old.up ≡ true }
        ensures { OnOk result (self.new ≡ record self.old { store = given (spelled_behind node.now.node.restored node.now.node.entries) self.old.store }) }
    {
        self.store.write_down(behind(node.book(), node.restored()))
    }

    /// Ends a life: what was delivered in it counts as earlier.
    fn end_life(&mut self) -> Result<(), AllocError>
        ensures { OnOk result (self.new ≡ record self.old { delivered = []; earlier = self.old.earlier ++ self.old.delivered }) }
    {
        self.earlier.append(&mut self.delivered)
    }

    /// Puts another node in the place of the one before. Its store switches to no checkpoint yet.
    fn take(&mut self, node: NodeCore<S>)
        ensures { self.new ≡ record self.old { node = node.node; switching = 0; resumed = node.node.replica.place } }
    {
        self.switching = Place::new(0);
        self.resumed = node.place();
        let before = replace(&mut self.node, node);
        drop(before);
    }

    /// Puts a restarted node in the place of the one before, over a store that runs again.
    fn go_on(&mut self, node: NodeCore<S>) -> Result<(), AllocError>
        requires { self.old.up ≡ true }
        ensures { OnOk result (self.new ≡ host_resumed self.old node.node) }
    {
        if let Err(error) = self.give_opening(&node) {
            drop(node);
            return Err(error);
        }
        if let Err(error) = self.end_life() {
            drop(node);
            return Err(error);
        }
        self.take(node);
        Ok(())
    }

    /// Puts a restarted node in the place of the one before. If there is none, the store stops again.
    fn go_on_with(&mut self, node: Option<NodeCore<S>>) -> Result<(), AllocError>
        requires up { self.old.up ≡ true }
        requires held { store_opened (bytes_held self.old.store) ≡ self.old.store }
        ensures { OnOk result (self.new ≡ host_with (record self.old { up = false }) (option_map (λ n. n.node) node)) }
    {
        match node {
            Some(node) => self.go_on(node),
            None => stop(&mut self.store),
        }
    }

    /// Restarts the stopped store of a host, and gives the parts that its devices hold. Error: want of
    /// memory.
    fn start(&mut self, alloc: Global) -> Result<Parts, AllocError>
        requires { self.old.up ≡ false }
        ensures host { OnOk result (self.new ≡ record self.old { up = true }) }
        ensures held { OnOk result (store_opened (bytes_held self.new.store) ≡ self.new.store) }
        ensures parts { IfOk result (λ parts. parts ≡ parts_held self.old) }
    {
        restored(alloc, &mut self.store)
    }
}

/// What a restart from so many entries tells, if there is a node.
fn told<S: Service>(member: MemberId, entries: u64, node: &Option<NodeCore<S>>) -> Option<OutLine>
    ensures { result ≡ told_with member entries (option_map (λ n. n.node) node.now) }
{
    match node {
        Some(node) => Some(OutLine::Restarted {
            member,
            place: node.place(),
            entries,
        }),
        None => None,
    }
}

/// Restarts a crashed host from what its devices hold, and gives what the restart tells. If the
/// checkpoint or an entry is damaged, the host stays as it is. Error: want of memory.
pub fn resume<S: Service>(
    alloc: Global,
    host: &mut Host<S>,
    view: &View,
    period: u32,
    ring: &Ring,
) -> Result<Option<OutLine>, AllocError>
    requires down { host.old.up ≡ false }
    requires secret { ring.now ≡ group_secret }
    ensures host { OnOk result (host.new ≡ host_with host.old (node_in S.meaning view.now period host.old)) }
    ensures line { IfOk result (λ line. line ≡ told_with host.old.node.id (length (parts_held host.old).entries) (node_in S.meaning view.now period host.old)) }
{
    let member = host.node.id();
    let parts = host.start(alloc)?;
    let node: Option<NodeCore<S>> = reopened(alloc, member, view, period, ring, &parts)?;
    let line = told(member, parts.entries.len() as u64, &node);
    drop(parts);
    if let Err(error) = host.go_on_with(node) {
        drop(line);
        return Err(error);
    }
    Ok(line)
}
