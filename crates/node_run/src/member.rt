//! The run of a member: its devices are taken, its store is opened, its node lives, and all is put back.
ghost use Rattle.std.specs.Prelude.{◌≡◌, ℕ, IfOk, false, length};
ghost use Rattle.faults.specs.Counts.{Rose};
ghost use Rattle.store_laws.specs.Restored.{Images, restores};
ghost use Rattle.durable_store.specs.Disks.{AreSettled, DiskRose, NoneFell, contents};
ghost use Rattle.member_opening.specs.Devices.{images_at};
ghost use Rattle.member_opening.specs.Headings.{head_by};
ghost use Rattle.member_opening.specs.Restorings.{KeepsCounts};
ghost use Rattle.node_run.specs.Members.{RunEnd, RunOver, StoreOver};
ghost use Rattle.member_opening.specs.Opened.{IsOpened, OpensWith};
ghost use Rattle.node_run.specs.Wires.{AreFresh};

use crate::life::{Remains, run_life};
use crate::status::{NodeStatus, restore_status, room_status, store_status, trail_status};
use crate::wires::{Wires, new_wires};
use clock_gate::clock::Clock;
use clock_gate::gate::Gate;
use disk_model::disk::Disk;
use disk_model::room::DiskRoom;
use durable_store::disks::Disks;
use durable_store::reopening::reopen;
use durable_store::store::Store;
use member_opening::devices::{put_back, take_devices};
use member_opening::heading::head_by;
use member_opening::restoring::{parts_in, restored};
use member_opening::settings::Settings;
use node_core::node::NodeCore;
use node_rooms::trails::TrailRoom;
use node_rules::node::Parts;
use smart_io::stream::{Sink, Source};
use smart_service::service::Service;
use std::alloc::{AllocError, Global};
use std::sync::Wait;
use std::thread::Threads;
use store_laws::job::Kept;
use trail::opening::TrailOpening;

/// The devices that a run leaves, and how it ended.
struct Left<D: Disk> {
    disks: Disks<D>,
    status: NodeStatus,
}

/// What a life needs besides its core and its store.
#[derive(Drop)]
struct Needs {
    head: TrailOpening,
    wires: Wires,
}

/// What a life needs besides its core and its store. Error: want of memory.
fn needs_of<S: Service>(
    alloc: Global,
    settings: &Settings,
    parts: &Parts,
) -> Result<Needs, AllocError>
    ensures head { IfOk result (λ n. n.head ≡ head_by S.meaning settings.now parts.now) }
    ensures wires { IfOk result (λ n. AreFresh n.wires) }
{
    Ok(Needs {
        head: head_by::<S>(alloc, settings, parts)?,
        wires: new_wires(alloc)?,
    })
}

/// Lets a node live over its store, with a trail from a room. What is left of the store is its devices.
fn live<
    S: Service + Send,
    D: Disk + Send,
    T: TrailRoom,
    I: Source + Send,
    W: Sink + Send,
    K: Clock + Send,
    G: Gate + Sync,
    R: Threads + Wait + Sync,
>(
    rt: &R,
    alloc: Global,
    settings: &Settings,
    core: NodeCore<S>,
    parts: &Parts,
    store: Store<D>,
    input: &mut I,
    output: &mut W,
    clock: &mut K,
    trails: &mut T,
    gate: &G,
) -> Left<D>
where
    T::Sink: Send,
    requires core { (core.broken ≡ false) × KeepsCounts store.plan.restored core.node }
    requires restored { store.plan.restored ≡ length parts.now.entries }
    requires opened { IsOpened D.told D.cells store }
    ensures ended { (images : Images) → StoreOver (record { meaning = S.meaning; settings = settings.now; disk = D; told = D.told; remembers = D.remembers; cells = D.cells; moment = D.moment; left_since = D.left_since; images = images; left_before = I.left input.old; left_after = I.left input.new; written_before = W.written output.old; written_after = W.written output.new; sink = T.Sink; text_of = T.Sink.written; trails = record { before = T.kept trails.old; after = T.kept trails.new; taken_before = T.taken trails.old; taken_after = T.taken trails.new } }) core.node (head_by S.meaning settings.now parts.now) parts.now.entries store result.disks result.status }
    ensures refused { (entry : ℕ) → result.status ≡ NodeStatus.Store entry → ⊥ }
    ensures read { result.status ≡ NodeStatus.ReadFault → Rose (I.faults input.old) (I.faults input.new) }
    ensures write { result.status ≡ NodeStatus.WriteFault → Rose (W.faults output.old) (W.faults output.new) }
    ensures trail { result.status ≡ NodeStatus.TrailFault → Rose (T.faults trails.old) (T.faults trails.new) }
    ensures disk { result.status ≡ NodeStatus.DiskFault → DiskRose D.faults store.disks result.disks }
    ensures later { NoneFell D.faults store.disks result.disks }
{
    let Ok(needs) = needs_of::<S>(alloc, settings, parts) else {
        return Left {
            disks: store.into_disks(),
            status: NodeStatus::NoMemory,
        };
    };
    let Needs { head, wires } = needs;
    let dir = settings.dir.as_slice();
    match trails.get(alloc, dir, settings.member) {
        Ok(sink) => {
            let Remains {
                store,
                sink,
                status,
            } = run_life(
                rt,
                alloc,
                core,
                wires,
                sink,
                &head,
                parts.entries.as_slice(),
                store,
                &settings.member,
                input,
                clock,
                output,
                gate,
            );
            trails.keep(dir, settings.member, sink);
            Left {
                disks: store.into_disks(),
                status,
            }
        }
        Err(fault) => Left {
            disks: store.into_disks(),
            status: trail_status(fault),
        },
    }
}

/// Runs a member over its store, from what that restored.
fn over_store<
    S: Service + Send,
    D: Disk + Send,
    T: TrailRoom,
    I: Source + Send,
    W: Sink + Send,
    K: Clock + Send,
    G: Gate + Sync,
    R: Threads + Wait + Sync,
>(
    rt: &R,
    alloc: Global,
    settings: &Settings,
    store: Store<D>,
    kept: Kept,
    input: &mut I,
    output: &mut W,
    clock: &mut K,
    trails: &mut T,
    gate: &G,
) -> Left<D>
where
    T::Sink: Send,
    requires restored { store.plan.restored ≡ length kept.entries }
    requires opened { IsOpened D.told D.cells store }
    ensures ended { (images : Images) → (D.told → kept ≡ restores images) → OpensWith D.told D.cells images kept store → RunOver (record { meaning = S.meaning; settings = settings.now; disk = D; told = D.told; remembers = D.remembers; cells = D.cells; moment = D.moment; left_since = D.left_since; images = images; left_before = I.left input.old; left_after = I.left input.new; written_before = W.written output.old; written_after = W.written output.new; sink = T.Sink; text_of = T.Sink.written; trails = record { before = T.kept trails.old; after = T.kept trails.new; taken_before = T.taken trails.old; taken_after = T.taken trails.new } }) store.disks result.disks result.status }
    ensures read { result.status ≡ NodeStatus.ReadFault → Rose (I.faults input.old) (I.faults input.new) }
    ensures write { result.status ≡ NodeStatus.WriteFault → Rose (W.faults output.old) (W.faults output.new) }
    ensures trail { result.status ≡ NodeStatus.TrailFault → Rose (T.faults trails.old) (T.faults trails.new) }
    ensures disk { result.status ≡ NodeStatus.DiskFault → DiskRose D.faults store.disks result.disks }
    ensures later { NoneFell D.faults store.disks result.disks }
{
    let parts = parts_in(alloc, kept);
    match restored::<S>(alloc, settings, &parts) {
        Ok(core) => live(
            rt, alloc, settings, core, &parts, store, input, output, clock, trails, gate,
        ),
        Err(fault) => Left {
            disks: store.into_disks(),
            status: restore_status(fault),
        },
    }
}

/// Opens the store of a member over its devices, and runs the member over it.
fn over_disks<
    S: Service + Send,
    D: Disk + Send,
    T: TrailRoom,
    I: Source + Send,
    W: Sink + Send,
    K: Clock + Send,
    G: Gate + Sync,
    R: Threads + Wait + Sync,
>(
    rt: &R,
    alloc: Global,
    settings: &Settings,
    disks: Disks<D>,
    input: &mut I,
    output: &mut W,
    clock: &mut K,
    trails: &mut T,
    gate: &G,
) -> Left<D>
where
    T::Sink: Send,
    requires { D.told → AreSettled D.cells disks }
    ensures ended { RunOver (record { meaning = S.meaning; settings = settings.now; disk = D; told = D.told; remembers = D.remembers; cells = D.cells; moment = D.moment; left_since = D.left_since; images = contents D.cells disks; left_before = I.left input.old; left_after = I.left input.new; written_before = W.written output.old; written_after = W.written output.new; sink = T.Sink; text_of = T.Sink.written; trails = record { before = T.kept trails.old; after = T.kept trails.new; taken_before = T.taken trails.old; taken_after = T.taken trails.new } }) disks result.disks result.status }
    ensures read { result.status ≡ NodeStatus.ReadFault → Rose (I.faults input.old) (I.faults input.new) }
    ensures write { result.status ≡ NodeStatus.WriteFault → Rose (W.faults output.old) (W.faults output.new) }
    ensures trail { result.status ≡ NodeStatus.TrailFault → Rose (T.faults trails.old) (T.faults trails.new) }
    ensures disk { result.status ≡ NodeStatus.DiskFault → DiskRose D.faults disks result.disks }
    ensures later { NoneFell D.faults disks result.disks }
{
    match reopen(alloc, disks) {
        Ok((store, kept)) => {
            // That there are fewer than 2^63 of them is known of the list.
            let _restored = kept.entries.len();
            over_store::<S, D, T, I, W, K, G, R>(
                rt, alloc, settings, store, kept, input, output, clock, trails, gate,
            )
        }
        Err((fault, disks)) => Left {
            disks,
            status: store_status(fault),
        },
    }
}

/// Runs one member of a group, until its input is at its end and all that was due is done, or until
/// something fails.
///
/// The frames that are read and are not empty arrive at the node in order; what its trail sends is written
/// as frames in order. What it says needs no more entries than its store holds firm. Its devices are taken
/// from a room and put back, and its trail is kept in another. All other disks of the room stay as they
/// are, and so do its own if no life is lived over them.
pub fn run_member<
    S: Service + Send,
    M: DiskRoom,
    T: TrailRoom,
    I: Source + Send,
    W: Sink + Send,
    K: Clock + Send,
    G: Gate + Sync,
    R: Threads + Wait + Sync,
>(
    rt: &R,
    alloc: Global,
    settings: &Settings,
    input: &mut I,
    output: &mut W,
    room: &mut M,
    clock: &mut K,
    trails: &mut T,
    gate: &G,
) -> NodeStatus
where
    M::Disk: Send,
    T::Sink: Send,
    ensures ended { RunEnd (record { meaning = S.meaning; settings = settings.now; disk = M.Disk; told = M.Disk.told; remembers = M.Disk.remembers; cells = M.Disk.cells; moment = M.Disk.moment; left_since = M.Disk.left_since; images = images_at (M.cells room.old) settings.now.dir settings.now.member; left_before = I.left input.old; left_after = I.left input.new; written_before = W.written output.old; written_after = W.written output.new; sink = T.Sink; text_of = T.Sink.written; trails = record { before = T.kept trails.old; after = T.kept trails.new; taken_before = T.taken trails.old; taken_after = T.taken trails.new } }) (record { before = M.cells room.old; after = M.cells room.new; taken_before = M.taken room.old; taken_after = M.taken room.new }) result }
    ensures read { result ≡ NodeStatus.ReadFault → Rose (I.faults input.old) (I.faults input.new) }
    ensures write { result ≡ NodeStatus.WriteFault → Rose (W.faults output.old) (W.faults output.new) }
    ensures trail { result ≡ NodeStatus.TrailFault → Rose (T.faults trails.old) (T.faults trails.new) }
    ensures disk { result ≡ NodeStatus.DiskFault → Rose (M.faults room.old) (M.faults room.new) }
{
    let dir = settings.dir.as_slice();
    match take_devices(alloc, room, dir, settings.member) {
        Ok(disks) => {
            let Left { disks, status } = over_disks::<S, M::Disk, T, I, W, K, G, R>(
                rt, alloc, settings, disks, input, output, clock, trails, gate,
            );
            put_back(room, dir, settings.member, disks);
            status
        }
        Err(fault) => room_status(fault),
    }
}
