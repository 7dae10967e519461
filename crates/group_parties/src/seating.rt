//! How the parties of a group get their seats.
ghost use Rattle.std.specs.Prelude.{◌≡◌, ◌≤◌, ◌<◌, ◌+◌, ◌-◌, [], ℕ, map, slice_index_or, vec_len, vec_capacity, false, true, Some, IfOk, IfErr, IsOk};
ghost use Rattle.std.specs.List.{All};
ghost use Rattle.durable_store.specs.declared.disks.Disks.{Disks};
ghost use Rattle.std.specs.Io.KnownBytes.{Appends};
ghost use Rattle.log_lane.specs.Lane.{in_lane, out_lane, lane_put, lane_room, lane_raised, lane_taken};
ghost use Rattle.trail.specs.Trails.{trail_text};
ghost use Rattle.member_opening.specs.Restorings.{KeepsCounts};
ghost use Rattle.member_opening.specs.Opened.{IsAsOpened, IsOpened, OpensWith};
ghost use Rattle.group_parties.specs.Origins.{Origin};
ghost use Rattle.group_threads.specs.Desks.{IsReady};
ghost use Rattle.group_parties.specs.Manned.{HasDesk, HasWorked};
ghost use Rattle.group_parties.specs.Stations.{AreBegun, AreOpened, AreStations, IsStation};
ghost use Rattle.group_parties.specs.Unseated.{unseated_end, IsPut, IsUnseated};

use crate::ending::MemberEnd;
use check_worker::worker::CheckWorker;
use disk_model::disk::Disk;
use durable_store::store::Store;
use group_ends::inbox::Inbox;
use group_ends::journal::{Journal, JournalParts};
use group_seat::seat::GroupSeat;
use group_threads::bearer::{HomeOf, MemberOf, Numbered};
use group_threads::desk::{Desk, MemberEnds, desk_of};
use group_threads::members::Runner;
use group_wires::row::Row;
use log_lane::inward::LaneIn;
use log_lane::outward::LaneOut;
use log_worker::text::EntryText;
use log_worker::worker::LogWorker;
use node_core::node::NodeCore;
use node_course::course::Course;
use node_course::group_life::GroupLife;
use node_endings::ending::LoopEnd;
use smart_base::name::MemberId;
use smart_io::stream::Sink;
use smart_service::service::Service;
use std::alloc::Global;
use std::marker::Brand;
use std::sync::{Mutex, Wait};

/// What a member begins with.
pub struct Station<S: Service, D: Disk, O: Sink> {
    pub member: MemberId,
    pub core: NodeCore<S>,
    pub store: Store<D>,
    pub lane_in: LaneIn<EntryText>,
    pub lane_out: LaneOut<EntryText>,
    pub row: Row,
    pub inbox: Inbox,
    /// The sink of its trail, which has the trail's head.
    pub sink: O,
}

/// What is left of a member that got no seat.
pub struct Unseated<D: Disk, O: Sink> {
    pub store: Store<D>,
    pub sink: O,
}

/// The desk of a member, for workers that bear its name.
fn desk_as<S: Service, P: GroupLife<S>, M: Numbered, D: Disk>(
    alloc: Global,
    member: &MemberId,
    lane: LaneOut<EntryText>,
    store: Store<D>,
    last: u64,
) -> Desk<D>
    requires number { member.now ≡ M.number }
    requires lane { (out_lane lane ≡ P.lane M.number) × ((lane_taken lane ≡ []) × (lane_raised lane ≡ 0)) }
    requires restored { store.plan.restored ≡ P.restored M.number }
    requires opened { IsOpened D.told D.cells store }
    ensures ready { IsReady D.told D.cells (P.lane M.number) (P.restored M.number) (Some result) }
    ensures untaken { lane_taken result.lane ≡ [] }
    ensures as_opened { IsAsOpened D.told store result.store }
{
    let _name: MemberOf<M> = MemberOf::new(*member);
    let worker: LogWorker<D, HomeOf<S, P, M>> = LogWorker::new(alloc, lane, store);
    desk_of(alloc, worker, CheckWorker::new(alloc, last))
}

/// The desk of a member, over its lane and its store. Its last checkpoint is of this place.
fn desk_for<S: Service, P: GroupLife<S>, D: Disk>(
    alloc: Global,
    member: &MemberId,
    lane: LaneOut<EntryText>,
    store: Store<D>,
    last: u64,
) -> Desk<D>
    requires lane { (out_lane lane ≡ P.lane member.now) × ((lane_taken lane ≡ []) × (lane_raised lane ≡ 0)) }
    requires restored { store.plan.restored ≡ P.restored member.now }
    requires opened { IsOpened D.told D.cells store }
    ensures ready { IsReady D.told D.cells (P.lane member.now) (P.restored member.now) (Some result) }
    ensures untaken { lane_taken result.lane ≡ [] }
    ensures as_opened { IsAsOpened D.told store result.store }
{
    desk_as::<S, P, Brand, D>(alloc, member, lane, store, last)
}

/// The course of a member at its opening. Error: want of memory; the sink of its trail comes back.
fn course_of<S: Service, P: GroupLife<S>, O: Sink, R: Wait>(
    rt: &R,
    alloc: Global,
    number: u16,
    core: NodeCore<S>,
    lane: LaneIn<EntryText>,
    sink: O,
) -> Result<Course<S, P, O>, O>
    requires core { (core.node ≡ P.opening number) × (core.broken ≡ false) }
    requires counts { KeepsCounts (P.restored number) core.node }
    requires lane { (in_lane lane ≡ P.lane number) × ((lane_put lane ≡ []) × (1 ≤ lane_room lane)) }
    requires sink { Appends (P.begun number) (O.written sink) (trail_text (P.head number) (P.entries number) []) }
    requires later { P.failures number ≤ O.faults sink }
    ensures ok { IfOk result (λ course. (course.journal.number ≡ number) × ((course.journal.events.items ≡ []) × ((course.stuck ≡ false) × (course.journal.whole ≡ true)))) }
    ensures later { IfErr result (λ back. P.failures number ≤ O.faults back) }
{
    let journal: Journal<P, O> = match Journal::new(alloc, number, sink) {
        Ok(journal) => journal,
        Err(sink) => return Err(sink),
    };
    match Course::open(rt, alloc, number, core, lane, journal) {
        Ok(course) => Ok(course),
        Err(journal) => {
            let JournalParts {
                number: _,
                events: _,
                sink,
                failed: _,
                whole: _,
            } = journal.into_parts();
            Err(sink)
        }
    }
}

/// What is left of a member whose seat is not made.
fn unseated_of<S: Service, D: Disk, O: Sink>(station: Station<S, D, O>) -> Unseated<D, O>
    ensures { (result.store ≡ station.store) × (result.sink ≡ station.sink) }
{
    let Station {
        member: _,
        core: _,
        store,
        lane_in: _,
        lane_out: _,
        row: _,
        inbox: _,
        sink,
    } = station;
    Unseated { store, sink }
}

/// The end of a member that got no seat.
fn end_of<D: Disk, O: Sink>(member: MemberId, unseated: Unseated<D, O>) -> MemberEnd<D, O>
    ensures { result ≡ unseated_end member unseated.store unseated.sink }
{
    let Unseated { store, sink } = unseated;
    MemberEnd {
        member,
        sink,
        failed: false,
        store,
        worn: false,
        lived: None,
    }
}

/// A member before its loops run. Error: want of memory.
pub fn seat_member<S: Service, P: GroupLife<S>, O: Sink, D: Disk, R: Wait>(
    rt: &R,
    alloc: Global,
    station: Station<S, D, O>,
) -> Result<Runner<S, P, O, D>, Unseated<D, O>>
    requires { IsStation (record { head = P.head; entries = P.entries; begun = P.begun; failures = P.failures; receivers = P.receivers; leaving = P.leaving; arriving = P.arriving; lane = P.lane; restored = P.restored; opening = P.opening }) D.told D.cells O.written O.faults station }
    ensures number { IfOk result (λ r. r.member ≡ station.member) }
    ensures ready { IfOk result (λ r. IsReady D.told D.cells (P.lane r.member) (P.restored r.member) r.desk) }
    // No round was made yet over the store that was opened.
    ensures manned { (origin : Origin) → OpensWith D.told D.cells origin.images origin.kept station.store → IfOk result (λ r. HasDesk D.told D.remembers D.cells D.moment D.left_since S.meaning origin (P.lane r.member) (P.opening r.member) (P.restored r.member) r.desk) }
    ensures worked { IfOk result (λ r. HasWorked D.faults station.store.disks r.ends r.desk) }
    ensures back { IfErr result (λ u. u.store ≡ station.store) }
    ensures later { IfErr result (λ u. P.failures station.member ≤ O.faults u.sink) }
{
    let Station {
        member,
        core,
        store,
        lane_in,
        lane_out,
        row,
        inbox,
        sink,
    } = station;
    let last = core.place().get();
    let Row { ports } = row;
    match course_of::<S, P, O, R>(rt, alloc, member.get(), core, lane_in, sink) {
        Ok(inner) => Ok(Runner {
            member,
            cell: Mutex::new(GroupSeat::new(inner, ports, inbox)),
            desk: Some(desk_for::<S, P, D>(alloc, &member, lane_out, store, last)),
            ends: MemberEnds {
                delivered: LoopEnd::Over,
                sent: LoopEnd::Over,
                logged: LoopEnd::Over,
                checked: LoopEnd::Over,
            },
        }),
        Err(sink) => Err(Unseated { store, sink }),
    }
}

/// A member before its loops run, if those before it have a seat. Error: want of memory, or they have none.
fn seat_next<S: Service, P: GroupLife<S>, O: Sink, D: Disk, R: Wait>(
    rt: &R,
    alloc: Global,
    whole: bool,
    station: Station<S, D, O>,
) -> Result<Runner<S, P, O, D>, Unseated<D, O>>
    requires { IsStation (record { head = P.head; entries = P.entries; begun = P.begun; failures = P.failures; receivers = P.receivers; leaving = P.leaving; arriving = P.arriving; lane = P.lane; restored = P.restored; opening = P.opening }) D.told D.cells O.written O.faults station }
    ensures whole { IsOk result → whole ≡ true }
    ensures number { IfOk result (λ r. r.member ≡ station.member) }
    ensures ready { IfOk result (λ r. IsReady D.told D.cells (P.lane r.member) (P.restored r.member) r.desk) }
    ensures manned { (origin : Origin) → OpensWith D.told D.cells origin.images origin.kept station.store → IfOk result (λ r. HasDesk D.told D.remembers D.cells D.moment D.left_since S.meaning origin (P.lane r.member) (P.opening r.member) (P.restored r.member) r.desk) }
    ensures worked { IfOk result (λ r. HasWorked D.faults station.store.disks r.ends r.desk) }
    ensures back { IfErr result (λ u. u.store ≡ station.store) }
{
    if !whole {
        return Err(unseated_of(station));
    }
    seat_member::<S, P, O, D, R>(rt, alloc, station)
}

/// Puts a member with its seat behind others, or what is left of it.
fn put_seat<S: Service, P: GroupLife<S>, O: Sink, D: Disk>(
    member: MemberId,
    seated: Result<Runner<S, P, O, D>, Unseated<D, O>>,
    runners: &mut Vec<Runner<S, P, O, D>>,
    left: &mut Vec<MemberEnd<D, O>>,
)
    requires room { (vec_len runners.old < vec_capacity runners.old) × (vec_len left.old < vec_capacity left.old) }
    ensures put { IsPut member seated runners.old.items runners.new.items left.old.items left.new.items }
    ensures room { (vec_capacity runners.new ≡ vec_capacity runners.old) × (vec_capacity left.new ≡ vec_capacity left.old) }
{
    match seated {
        Ok(runner) => runners.push_reserved(runner),
        Err(unseated) => left.push_reserved(end_of(member, unseated)),
    }
}

/// The members of a group that have a seat, and what is left of those that got none.
pub struct Seating<S: Service, P: GroupLife<S>, O: Sink, D: Disk> {
    pub runners: Vec<Runner<S, P, O, D>>,
    pub left: Vec<MemberEnd<D, O>>,
}

/// Gives each member its seat, in the places that there are for them. Those behind the first that gets none
/// get none either. What is left of them comes back with the last of them first.
pub fn seat_all<S: Service, P: GroupLife<S>, O: Sink, D: Disk, R: Wait>(
    rt: &R,
    alloc: Global,
    stations: Vec<Station<S, D, O>>,
    places: Seating<S, P, O, D>,
) -> Seating<S, P, O, D>
    requires stations { AreStations (record { head = P.head; entries = P.entries; begun = P.begun; failures = P.failures; receivers = P.receivers; leaving = P.leaving; arriving = P.arriving; lane = P.lane; restored = P.restored; opening = P.opening }) D.told D.cells O.written O.faults 1 stations.items }
    requires empty { (places.runners.items ≡ []) × (places.left.items ≡ []) }
    requires room { (vec_len stations ≤ vec_capacity places.runners) × (vec_len stations ≤ vec_capacity places.left) }
    ensures many { vec_len result.left + vec_len result.runners ≡ vec_len stations }
    ensures room { vec_len stations ≤ vec_capacity result.left }
    ensures numbers { vec_len result.left ≡ 0 → map (λ r. r.member) result.runners.items ≡ map (λ s. s.member) stations.items }
    ensures seated { (i : ℕ) (r : _) (s : _) → i < vec_len result.runners → (slice_index_or result.runners.items i r).member ≡ (slice_index_or stations.items i s).member }
    ensures unseated { (i : ℕ) (d : _) (s : _) → vec_len result.runners ≤ i → i < vec_len stations → IsUnseated (slice_index_or stations.items i s) (slice_index_or result.left.items (vec_len stations - (i + 1)) d) }
    ensures ready { All (λ r. IsReady D.told D.cells (P.lane r.member) (P.restored r.member) r.desk) result.runners.items }
    ensures manned { (origins : ℕ → Origin) → AreOpened D.told D.cells origins 1 stations.items → All (λ r. HasDesk D.told D.remembers D.cells D.moment D.left_since S.meaning (origins r.member) (P.lane r.member) (P.opening r.member) (P.restored r.member) r.desk) result.runners.items }
    ensures worked { (begun : ℕ → Disks D) → AreBegun begun 1 stations.items → All (λ r. HasWorked D.faults (begun r.member) r.ends r.desk) result.runners.items }
{
    let Seating {
        mut runners,
        mut left,
    } = places;
    let mut stations = stations;
    stations.reverse();
    while let Some(station) = stations.pop() {
        let member = station.member;
        let seated = seat_next::<S, P, O, D, R>(rt, alloc, left.is_empty(), station);
        put_seat(member, seated, &mut runners, &mut left);
    }
    stations.destroy_empty();
    left.reverse();
    Seating { runners, left }
}

/// What is left of members that get no seat. It takes no memory, as there are places for all.
pub fn unseated_all<S: Service, D: Disk, O: Sink>(
    stations: Vec<Station<S, D, O>>,
    left: Vec<MemberEnd<D, O>>,
) -> Vec<MemberEnd<D, O>>
    requires room { vec_len left + vec_len stations ≤ vec_capacity left }
    requires empty { left.items ≡ [] }
    ensures many { vec_len result ≡ vec_len stations }
    ensures each { (i : ℕ) (d : _) (s : _) → i < vec_len stations → IsUnseated (slice_index_or stations.items i s) (slice_index_or result.items i d) }
{
    let mut stations = stations;
    let mut left = left;
    while let Some(station) = stations.pop() {
        let member = station.member;
        left.push_reserved(end_of(member, unseated_of(station)));
    }
    stations.destroy_empty();
    left.reverse();
    left
}
