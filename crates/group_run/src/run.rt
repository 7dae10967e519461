//! The run of a group, from its stores to its status.
ghost use Rattle.std.specs.Prelude.{◌≡◌, ◌≤◌, ◌<◌, ◌+◌, ◌-◌, ◌^◌, ℕ, List, Option, slice_index_or, vec_len, IfOk};
ghost use Rattle.disk_model.specs.Cells.{Cells};
ghost use Rattle.disk_model.specs.Rooms.{address};
ghost use Rattle.smart_base.specs.Lists.{Each};
ghost use Rattle.store_laws.specs.Restored.{Images};
ghost use Rattle.group_wires.specs.Wires.{AreFresh};
ghost use Rattle.faults.specs.Counts.{Rose};
ghost use Rattle.app_count.specs.Counts.{counting};
ghost use Rattle.member_opening.specs.Devices.{IsHeld, images_at};
ghost use Rattle.group_opening.specs.Berths.{AllHeld, AreBerths};
ghost use Rattle.app_count.specs.declared.Count.{Count};
ghost use Rattle.group_parties.specs.Crews.{HasHeads};
ghost use Rattle.group_run.specs.Ends.{GroupEnd};
ghost use Rattle.group_opening.specs.Lanes.{AreFreshLanes};
ghost use Rattle.group_run.specs.Gears.{HasRoom, IsEmptyGear};
ghost use Rattle.group_opening.specs.Rooms.{IsReturned, KeepsRest};
ghost use Rattle.group_opening.specs.Runs.{client_head, RoomBefore};

use crate::clocks::LentClock;
use crate::concluding::conclude;
use crate::lines::write_group;
use crate::status::{GroupStatus, line_status, opening_status, trail_status};
use app_count::Count;
use clock_gate::clock::Clock;
use clock_gate::gate::Gate;
use disk_model::disk::Disk;
use disk_model::room::DiskRoom;
use group_opening::berth::{Berth, close_all, open_all};
use group_opening::gathering::{Lane, client_head, keep_sinks, new_lanes, take_sinks};
use group_opening::settings::GroupSettings;
use group_parties::course::run_crew;
use group_parties::crew::{Berthed, berth_places, crew_of, places};
use group_parties::ending::MemberEnd;
use group_wires::dealing::{Wires, new_wires};
use node_rooms::trails::TrailRoom;
use smart_io::stream::Sink;
use std::alloc::{AllocError, Global};
use std::sync::{Mutex, Wait};
use std::thread::Threads;
use trail::opening::TrailOpening;

/// What a group needs besides its stores and the sinks of its trails.
pub struct Gear<D: Disk, O: Sink> {
    pub client: TrailOpening,
    pub lanes: Vec<Lane>,
    pub wires: Wires,
    pub made: Berthed<Count, D, O>,
    pub left: Vec<MemberEnd<D, O>>,
}

/// What a group needs of memory alone.
#[derive(Drop)]
struct Links {
    client: TrailOpening,
    lanes: Vec<Lane>,
    wires: Wires,
}

/// The head of the client's trail, the lanes and the links of a group. Error: want of memory.
fn links_of(alloc: Global, settings: &GroupSettings) -> Result<Links, AllocError>
    ensures client { IfOk result (λ l. l.client ≡ client_head settings.now) }
    ensures lanes { IfOk result (λ l. Each AreFreshLanes l.lanes.items × (vec_len l.lanes ≡ settings.now.members)) }
    ensures wires { IfOk result (λ l. AreFresh settings.now.members l.wires) }
{
    Ok(Links {
        client: client_head(alloc, settings)?,
        lanes: new_lanes(alloc, usize::from(settings.members))?,
        wires: new_wires(alloc, settings.members)?,
    })
}

/// What a group needs besides its stores and the sinks of its trails. Error: want of memory.
fn gear_of<D: Disk, O: Sink>(
    alloc: Global,
    settings: &GroupSettings,
) -> Result<Gear<D, O>, AllocError>
    ensures client { IfOk result (λ g. g.client ≡ client_head settings.now) }
    ensures lanes { IfOk result (λ g. Each AreFreshLanes g.lanes.items × (vec_len g.lanes ≡ settings.now.members)) }
    ensures wires { IfOk result (λ g. AreFresh settings.now.members g.wires) }
    ensures empty { IfOk result IsEmptyGear }
    ensures room { IfOk result (HasRoom settings.now.members) }
{
    let count = usize::from(settings.members);
    let Links {
        client,
        lanes,
        wires,
    } = links_of(alloc, settings)?;
    let left = places(alloc, count)?;
    match berth_places(alloc, count) {
        Ok(made) => Ok(Gear {
            client,
            lanes,
            wires,
            made,
            left,
        }),
        Err(_) => {
            left.destroy_empty();
            Err(AllocError)
        }
    }
}

/// Lets places go that were not used.
fn let_go<D: Disk, O: Sink>(gear: Gear<D, O>)
    requires { IsEmptyGear gear }
{
    let Gear {
        client: _,
        lanes: _,
        wires: _,
        made,
        left,
    } = gear;
    let Berthed { stations, heads: _ } = made;
    stations.destroy_empty();
    left.destroy_empty();
}

/// Runs a group whose stores are opened and whose trails are begun.
fn run_begun<
    M: DiskRoom,
    T: TrailRoom,
    W: Sink,
    K: Clock + Send,
    G: Gate + Sync,
    R: Threads + Wait + Sync,
>(
    rt: &R,
    alloc: Global,
    settings: &GroupSettings,
    berths: Vec<Berth<Count, M::Disk>>,
    gear: Gear<M::Disk, T::Sink>,
    sinks: Vec<T::Sink>,
    output: &mut W,
    room: &mut M,
    clock: &mut K,
    trails: &mut T,
    gate: &G,
) -> GroupStatus
where
    M::Disk: Send,
    T::Sink: Send,
    requires berths { (images : ℕ → Images) × AreBerths counting M.Disk.told M.Disk.cells images settings.now 1 berths.items }
    requires held { AllHeld (M.taken room.old) M.Disk.faults settings.now.dir 1 berths.items }
    requires many { (vec_len berths ≡ settings.now.members) × (vec_len sinks ≡ settings.now.members + 1) }
    requires turns { settings.now.turns ≤ 2 ^ 63 }
    requires client { gear.client ≡ client_head settings.now }
    requires lanes { Each AreFreshLanes gear.lanes.items × (vec_len gear.lanes ≡ settings.now.members) }
    requires wires { AreFresh settings.now.members gear.wires }
    requires empty { IsEmptyGear gear }
    requires room { HasRoom settings.now.members gear }
    requires heads { HasHeads T.Sink.written settings.now gear.client berths.items sinks.items }
    requires taken { (i : ℕ) (d : T.Sink) → i < vec_len sinks → IsHeld (T.taken trails.old (address settings.now.dir i 0)) (T.Sink.faults (slice_index_or sinks.items i d)) }
    ensures ended { (images : ℕ → Images) (disks : RoomBefore Cells) (texts : RoomBefore (Option (List ℕ))) → AreBerths counting M.Disk.told M.Disk.cells images settings.now 1 berths.items → GroupEnd (record { meaning = counting; settings = settings.now; disk = M.Disk; told = M.Disk.told; remembers = M.Disk.remembers; cells = M.Disk.cells; moment = M.Disk.moment; left_since = M.Disk.left_since; images = images; written_before = W.written output.old; written_after = W.written output.new; wants_before = W.wants output.old; wants_after = W.wants output.new; sink = T.Sink; text_of = T.Sink.written; room = record { before = disks.kept; after = M.cells room.new; taken_before = disks.taken; taken_after = M.taken room.new }; trails = record { before = texts.kept; after = T.kept trails.new; taken_before = texts.taken; taken_after = T.taken trails.new } }) result }
    ensures write { result ≡ GroupStatus.WriteFault → Rose (W.faults output.old) (W.faults output.new) }
    ensures trail { result ≡ GroupStatus.TrailFault → Rose (T.faults trails.old) (T.faults trails.new) }
    ensures disk { result ≡ GroupStatus.DiskFault → Rose (M.faults room.old) (M.faults room.new) }
    ensures store { (entry : ℕ) → result ≡ GroupStatus.Store entry → ⊥ }
    ensures disks { IsReturned settings.now.dir 1 (settings.now.members + 1) 4 (record { before = M.cells room.old; after = M.cells room.new; taken_before = M.taken room.old; taken_after = M.taken room.new }) }
    ensures sinks { IsReturned settings.now.dir 0 (settings.now.members + 1) 1 (record { before = T.kept trails.old; after = T.kept trails.new; taken_before = T.taken trails.old; taken_after = T.taken trails.new }) }
{
    let dir = settings.dir.as_slice();
    if let Err(fault) = write_group(alloc, output, settings.members, settings.faulty) {
        let_go(gear);
        close_all(room, dir, berths);
        keep_sinks(trails, dir, sinks);
        return line_status(fault);
    }
    let Gear {
        client,
        lanes,
        wires,
        made,
        left,
    } = gear;
    let crew = crew_of(settings, &client, berths, sinks, lanes, wires, made);
    let lent = Mutex::new(LentClock { clock });
    let rest = run_crew::<Count, T::Sink, W, M::Disk, LentClock<'_, K>, G, R>(
        rt, alloc, settings, crew, left, output, &lent, gate,
    );
    conclude(alloc, settings, client, rest, output, room, trails)
}

/// Runs a group whose stores are opened.
fn run_opened<
    M: DiskRoom,
    T: TrailRoom,
    W: Sink,
    K: Clock + Send,
    G: Gate + Sync,
    R: Threads + Wait + Sync,
>(
    rt: &R,
    alloc: Global,
    settings: &GroupSettings,
    berths: Vec<Berth<Count, M::Disk>>,
    output: &mut W,
    room: &mut M,
    clock: &mut K,
    trails: &mut T,
    gate: &G,
) -> GroupStatus
where
    M::Disk: Send,
    T::Sink: Send,
    requires berths { (images : ℕ → Images) × AreBerths counting M.Disk.told M.Disk.cells images settings.now 1 berths.items }
    requires held { AllHeld (M.taken room.old) M.Disk.faults settings.now.dir 1 berths.items }
    requires many { vec_len berths ≡ settings.now.members }
    requires turns { settings.now.turns ≤ 2 ^ 63 }
    ensures ended { (images : ℕ → Images) (disks : RoomBefore Cells) (texts : RoomBefore (Option (List ℕ))) → AreBerths counting M.Disk.told M.Disk.cells images settings.now 1 berths.items → GroupEnd (record { meaning = counting; settings = settings.now; disk = M.Disk; told = M.Disk.told; remembers = M.Disk.remembers; cells = M.Disk.cells; moment = M.Disk.moment; left_since = M.Disk.left_since; images = images; written_before = W.written output.old; written_after = W.written output.new; wants_before = W.wants output.old; wants_after = W.wants output.new; sink = T.Sink; text_of = T.Sink.written; room = record { before = disks.kept; after = M.cells room.new; taken_before = disks.taken; taken_after = M.taken room.new }; trails = record { before = texts.kept; after = T.kept trails.new; taken_before = texts.taken; taken_after = T.taken trails.new } }) result }
    ensures write { result ≡ GroupStatus.WriteFault → Rose (W.faults output.old) (W.faults output.new) }
    ensures trail { result ≡ GroupStatus.TrailFault → Rose (T.faults trails.old) (T.faults trails.new) }
    ensures disk { result ≡ GroupStatus.DiskFault → Rose (M.faults room.old) (M.faults room.new) }
    ensures store { (entry : ℕ) → result ≡ GroupStatus.Store entry → ⊥ }
    ensures disks { IsReturned settings.now.dir 1 (settings.now.members + 1) 4 (record { before = M.cells room.old; after = M.cells room.new; taken_before = M.taken room.old; taken_after = M.taken room.new }) }
    ensures sinks { KeepsRest settings.now.dir 0 (settings.now.members + 1) 1 (record { before = T.kept trails.old; after = T.kept trails.new; taken_before = T.taken trails.old; taken_after = T.taken trails.new }) }
{
    let dir = settings.dir.as_slice();
    let Ok(gear) = gear_of(alloc, settings) else {
        close_all(room, dir, berths);
        return GroupStatus::NoMemory;
    };
    match take_sinks(alloc, settings, &gear.client, berths.as_slice(), trails) {
        Ok(sinks) => run_begun(
            rt, alloc, settings, berths, gear, sinks, output, room, clock, trails, gate,
        ),
        Err(fault) => {
            let_go(gear);
            close_all(room, dir, berths);
            trail_status(fault)
        }
    }
}

/// Runs a group of members and one client, over the service that counts, until all replies were accepted, or
/// until the polls since one request are spent and nothing is left to happen, or until something fails.
///
/// The stores of the members are opened, ascending by member. Each member and the client have a trail, and
/// links to each other. At the end the trails are audited. The devices of all members and the sinks of all
/// trails go back to their rooms.
pub fn run_group<
    M: DiskRoom,
    T: TrailRoom,
    W: Sink,
    K: Clock + Send,
    G: Gate + Sync,
    R: Threads + Wait + Sync,
>(
    rt: &R,
    alloc: Global,
    settings: &GroupSettings,
    output: &mut W,
    room: &mut M,
    clock: &mut K,
    trails: &mut T,
    gate: &G,
) -> GroupStatus
where
    M::Disk: Send,
    T::Sink: Send,
    requires turns { settings.now.turns ≤ 2 ^ 63 }
    ensures ended { GroupEnd (record { meaning = counting; settings = settings.now; disk = M.Disk; told = M.Disk.told; remembers = M.Disk.remembers; cells = M.Disk.cells; moment = M.Disk.moment; left_since = M.Disk.left_since; images = λ member. images_at (M.cells room.old) settings.now.dir member; written_before = W.written output.old; written_after = W.written output.new; wants_before = W.wants output.old; wants_after = W.wants output.new; sink = T.Sink; text_of = T.Sink.written; room = record { before = M.cells room.old; after = M.cells room.new; taken_before = M.taken room.old; taken_after = M.taken room.new }; trails = record { before = T.kept trails.old; after = T.kept trails.new; taken_before = T.taken trails.old; taken_after = T.taken trails.new } }) result }
    ensures write { result ≡ GroupStatus.WriteFault → Rose (W.faults output.old) (W.faults output.new) }
    ensures trail { result ≡ GroupStatus.TrailFault → Rose (T.faults trails.old) (T.faults trails.new) }
    ensures disk { result ≡ GroupStatus.DiskFault → Rose (M.faults room.old) (M.faults room.new) }
    // All else in the rooms is as it was, and what was taken of them is put back.
    ensures disks { KeepsRest settings.now.dir 1 (settings.now.members + 1) 4 (record { before = M.cells room.old; after = M.cells room.new; taken_before = M.taken room.old; taken_after = M.taken room.new }) }
    ensures sinks { KeepsRest settings.now.dir 0 (settings.now.members + 1) 1 (record { before = T.kept trails.old; after = T.kept trails.new; taken_before = T.taken trails.old; taken_after = T.taken trails.new }) }
{
    match open_all::<Count, M>(alloc, settings, room) {
        Ok(berths) => run_opened(
            rt, alloc, settings, berths, output, room, clock, trails, gate,
        ),
        Err(end) => opening_status(end),
    }
}
