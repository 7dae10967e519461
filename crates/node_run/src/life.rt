//! The life of a node, from its core to its end.
ghost use Rattle.std.specs.Prelude.{◌≡◌, ◌≤◌, ◌&&◌, [], IfErr, false};
ghost use Rattle.std.specs.Io.KnownBytes.{Appends};
ghost use Rattle.faults.specs.Counts.{Rose};
ghost use Rattle.durable_store.specs.Disks.{DiskRose, NoneFell};
ghost use Rattle.durable_store.specs.Stores.{state_of, Stands};
ghost use Rattle.log_lane.specs.Lane.{in_lane, lane_put, lane_room, lane_taken};
ghost use Rattle.group_links.specs.Link.{in_link, link_put, link_taken, out_link};
ghost use Rattle.trail.specs.Trails.{trail_text};
ghost use Rattle.member_opening.specs.Restorings.{KeepsCounts};
ghost use Rattle.node_run.specs.Lives.{LifeEnd};
ghost use Rattle.node_run.specs.Statuses.{all_went, status_of};
ghost use Rattle.member_opening.specs.Opened.{IsOpened};
ghost use Rattle.node_run.specs.Rounds.{IsLeftBy, LifeFrom};
ghost use Rattle.node_run.specs.Wires.{AreFresh};

use crate::naming::{Named, PlaceOf};
use crate::status::{NodeStatus, status_of, trail_status};
use crate::wires::Wires;
use check_worker::worker::CheckWorker;
use clock_gate::clock::Clock;
use clock_gate::gate::Gate;
use disk_model::disk::Disk;
use durable_store::store::Store;
use group_links::ends::LinkEnd;
use group_links::inward::LinkIn;
use group_links::outward::LinkOut;
use log_lane::inward::LaneIn;
use log_worker::text::EntryText;
use log_worker::worker::LogWorker;
use member_opening::heading::write_head;
use node_core::node::NodeCore;
use node_endings::ending::Ends;
use node_endings::finishing::{NodeEnd, finish};
use node_endings::settling::settle;
use node_ends::intake::Intake;
use node_ends::outlet::Outlet;
use node_played::played::Played;
use node_seat::place::Place;
use node_seat::seat::{NodeCell, Seat};
use node_threads::running::run_loops;
use smart_base::name::MemberId;
use smart_base::sequence::Bytes;
use smart_io::stream::{Sink, Source};
use smart_service::service::Service;
use std::alloc::Global;
use std::marker::Brand;
use std::sync::atomic::AtomicBool;
use std::sync::{Mutex, Wait};
use std::thread::Threads;
use store_plan::stops::InstallsStop;
use trail::opening::TrailOpening;

/// What is left of a life: its store, the sink of its trail, and how it ended.
pub struct Remains<D: Disk, O: Sink> {
    pub store: Store<D>,
    pub sink: O,
    pub status: NodeStatus,
}

/// The seat of a node at its opening, over a sink that has the head of the trail. Error: want of memory;
/// the sink comes back.
fn seated<S: Service, P: Place<S>, O: Sink, R: Wait>(
    rt: &R,
    alloc: Global,
    core: NodeCore<S>,
    lane: LaneIn<EntryText>,
    from: LinkOut<Bytes>,
    to: LinkIn<Bytes>,
    sink: O,
) -> Result<Seat<S, P, O>, O>
    requires core { (core.node ≡ P.opening) × (core.broken ≡ false) }
    requires counts { KeepsCounts P.restored core.node }
    requires lane { (in_lane lane ≡ P.lane) × ((lane_put lane ≡ []) × (1 ≤ lane_room lane)) }
    requires links { ((out_link from ≡ P.arriving) × (link_taken from ≡ [])) × ((in_link to ≡ P.leaving) × (link_put to ≡ [])) }
    requires sink { Appends P.begun (O.written sink) (trail_text P.head P.entries []) }
    requires later { P.failures ≤ O.faults sink }
    ensures back { IfErr result (λ same. same ≡ sink) }
{
    match Played::open(rt, alloc, core, lane) {
        Ok(inner) => Ok(Seat::new(inner, from, to, sink)),
        Err(_) => Err(sink),
    }
}

/// Whether all messages went through both links.
fn all_went(arriving: LinkEnd, leaving: LinkEnd) -> bool
    ensures { result ≡ all_went arriving leaving }
{
    arriving.taken == arriving.put && leaving.taken == leaving.put
}

/// What is left of a node that was taken apart. `settled`: nothing was left to do.
fn remains_of<S: Service, O: Sink, D: Disk>(
    ends: &Ends,
    settled: bool,
    end: NodeEnd<S, O, D>,
) -> Remains<D, O>
    ensures store { result.store ≡ end.store }
    ensures sink { result.sink ≡ end.sink }
    ensures status { result.status ≡ status_of ends.now end.failed (settled && all_went end.arriving end.leaving) }
{
    let NodeEnd {
        core: _,
        stuck: _,
        trail: _,
        sink,
        over: _,
        failed,
        store,
        lane: _,
        arriving,
        leaving,
    } = end;
    Remains {
        store,
        sink,
        status: status_of(ends, failed, settled && all_went(arriving, leaving)),
    }
}

/// Runs the loops of a node over its seat until all have ended, and takes it apart.
fn run_seated<
    S: Service + Send,
    P: Place<S> + Send,
    O: Sink + Send,
    I: Source + Send,
    K: Clock + Send,
    W: Sink + Send,
    D: Disk + Send,
    G: Gate + Sync,
    R: Threads + Wait + Sync,
>(
    rt: &R,
    alloc: Global,
    seat: Seat<S, P, O>,
    arriving: LinkIn<Bytes>,
    leaving: LinkOut<Bytes>,
    worker: LogWorker<D, P>,
    checker: CheckWorker,
    member: &MemberId,
    input: &mut I,
    clock: &mut K,
    output: &mut W,
    gate: &G,
) -> Remains<D, O>
    requires arriving { (in_link arriving ≡ P.arriving) × (link_put arriving ≡ []) }
    requires leaving { (out_link leaving ≡ P.leaving) × (link_taken leaving ≡ []) }
    requires taken { lane_taken worker.lane ≡ [] }
    requires faulty { worker.faulty ≡ false }
    requires sound { D.told → Stands (state_of D.cells worker.store) }
    ensures ended { (end : LifeEnd (record { meaning = S.meaning; opening = P.opening; head = P.head; entries = P.entries; left_before = I.left input.old; left_after = I.left input.new; written_before = W.written output.old; written_after = W.written output.new; told_before = P.begun; told_after = O.written result.sink; firm = result.store.plan.firm }) result.status) × IsLeftBy D.told D.remembers D.cells D.moment D.left_since S.meaning P.opening end.lived.trail P.restored result.status worker.store result.store }
    ensures read { result.status ≡ NodeStatus.ReadFault → Rose (I.faults input.old) (I.faults input.new) }
    ensures write { result.status ≡ NodeStatus.WriteFault → Rose (W.faults output.old) (W.faults output.new) }
    ensures trail { result.status ≡ NodeStatus.TrailFault → Rose P.failures (O.faults result.sink) }
    ensures disk { result.status ≡ NodeStatus.DiskFault → DiskRose D.faults worker.store.disks result.store.disks }
    ensures later { NoneFell D.faults worker.store.disks result.store.disks }
{
    let cell: NodeCell<S, P, O> = Mutex::new(seat);
    let mut intake = Intake::new(alloc, arriving);
    let mut outlet = Outlet::new(leaving);
    let mut worker = worker;
    let mut checker = checker;
    let quiet = AtomicBool::new(false);
    let ends = run_loops::<S, P, O, I, K, W, D, InstallsStop, P, G, R>(
        rt,
        &cell,
        gate,
        member,
        &quiet,
        input,
        &mut intake,
        clock,
        output,
        &mut outlet,
        &mut worker,
        &mut checker,
    );
    let mut seat = cell.into_inner();
    let settled = settle(rt, &mut seat);
    let end = finish(seat, intake.into_link(), outlet.into_link(), worker);
    remains_of(&ends, settled, end)
}

/// Runs a node from its core to its end: it writes the head of its trail, makes its seat, and runs its
/// loops. All that bears a name is made within.
fn run_named<
    S: Service + Send,
    N: Named<S> + Send,
    O: Sink + Send,
    I: Source + Send,
    K: Clock + Send,
    W: Sink + Send,
    D: Disk + Send,
    G: Gate + Sync,
    R: Threads + Wait + Sync,
>(
    rt: &R,
    alloc: Global,
    core: NodeCore<S>,
    wires: Wires,
    sink: O,
    head: &TrailOpening,
    entries: &[Bytes],
    store: Store<D>,
    member: &MemberId,
    input: &mut I,
    clock: &mut K,
    output: &mut W,
    gate: &G,
) -> Remains<D, O>
    requires lane { (N.lane ≡ in_lane wires.lane_in) × (N.restored ≡ store.plan.restored) }
    requires links { (N.arriving ≡ in_link wires.arriving_in) × (N.leaving ≡ in_link wires.leaving_in) }
    requires opening { (N.opening S.meaning ≡ core.node) × ((N.head ≡ head.now) × (N.entries ≡ entries.now)) }
    requires begun { (N.begun ≡ O.written sink) × (N.failures ≡ O.faults sink) }
    requires fresh { AreFresh wires }
    requires core { (core.broken ≡ false) × KeepsCounts store.plan.restored core.node }
    requires opened { IsOpened D.told D.cells store }
    ensures ended { LifeFrom D.told D.remembers D.cells D.moment D.left_since (record { meaning = S.meaning; opening = core.node; head = head.now; entries = entries.now; left_before = I.left input.old; left_after = I.left input.new; written_before = W.written output.old; written_after = W.written output.new; told_before = O.written sink; told_after = O.written result.sink; firm = result.store.plan.firm }) store.plan.restored store result.store result.status }
    ensures read { result.status ≡ NodeStatus.ReadFault → Rose (I.faults input.old) (I.faults input.new) }
    ensures write { result.status ≡ NodeStatus.WriteFault → Rose (W.faults output.old) (W.faults output.new) }
    ensures trail { result.status ≡ NodeStatus.TrailFault → Rose (O.faults sink) (O.faults result.sink) }
    ensures disk { result.status ≡ NodeStatus.DiskFault → DiskRose D.faults store.disks result.store.disks }
    ensures later { NoneFell D.faults store.disks result.store.disks }
{
    let last = core.place().get();
    let mut sink = sink;
    if let Err(fault) = write_head(alloc, &mut sink, head, entries) {
        return Remains {
            store,
            sink,
            status: trail_status(fault),
        };
    }
    let Wires {
        lane_in,
        lane_out,
        arriving_in,
        arriving_out,
        leaving_in,
        leaving_out,
    } = wires;
    match seated::<S, PlaceOf<S, N>, O, R>(
        rt,
        alloc,
        core,
        lane_in,
        arriving_out,
        leaving_in,
        sink,
    ) {
        Ok(seat) => {
            let worker: LogWorker<D, PlaceOf<S, N>> = LogWorker::new(alloc, lane_out, store);
            let checker = CheckWorker::new(alloc, last);
            run_seated(
                rt,
                alloc,
                seat,
                arriving_in,
                leaving_out,
                worker,
                checker,
                member,
                input,
                clock,
                output,
                gate,
            )
        }
        Err(sink) => Remains {
            store,
            sink,
            status: NodeStatus::NoMemory,
        },
    }
}

/// Runs a node from its core to its end, over a lane and links of its own.
pub fn run_life<
    S: Service + Send,
    O: Sink + Send,
    I: Source + Send,
    K: Clock + Send,
    W: Sink + Send,
    D: Disk + Send,
    G: Gate + Sync,
    R: Threads + Wait + Sync,
>(
    rt: &R,
    alloc: Global,
    core: NodeCore<S>,
    wires: Wires,
    sink: O,
    head: &TrailOpening,
    entries: &[Bytes],
    store: Store<D>,
    member: &MemberId,
    input: &mut I,
    clock: &mut K,
    output: &mut W,
    gate: &G,
) -> Remains<D, O>
    requires fresh { AreFresh wires }
    requires core { (core.broken ≡ false) × KeepsCounts store.plan.restored core.node }
    requires opened { IsOpened D.told D.cells store }
    ensures ended { LifeFrom D.told D.remembers D.cells D.moment D.left_since (record { meaning = S.meaning; opening = core.node; head = head.now; entries = entries.now; left_before = I.left input.old; left_after = I.left input.new; written_before = W.written output.old; written_after = W.written output.new; told_before = O.written sink; told_after = O.written result.sink; firm = result.store.plan.firm }) store.plan.restored store result.store result.status }
    ensures read { result.status ≡ NodeStatus.ReadFault → Rose (I.faults input.old) (I.faults input.new) }
    ensures write { result.status ≡ NodeStatus.WriteFault → Rose (W.faults output.old) (W.faults output.new) }
    ensures trail { result.status ≡ NodeStatus.TrailFault → Rose (O.faults sink) (O.faults result.sink) }
    ensures disk { result.status ≡ NodeStatus.DiskFault → DiskRose D.faults store.disks result.store.disks }
    ensures later { NoneFell D.faults store.disks result.store.disks }
{
    run_named::<S, Brand, O, I, K, W, D, G, R>(
        rt, alloc, core, wires, sink, head, entries, store, member, input, clock, output, gate,
    )
}
