//! How the parties of a group end their trails, and are taken apart.
ghost use Rattle.std.specs.Prelude.{◌≡◌, ◌≤◌, ◌<◌, ◌+◌, ◌-◌, ◌^◌, ◌++◌, ◌∷◌, [], ℕ, min, slice_index_or, vec_len, vec_capacity, false, true, is_some, List, Some, IfSome};
ghost use Rattle.std.specs.List.{All};
ghost use Rattle.faults.specs.Counts.{Rose};
ghost use Rattle.group_parties.specs.Origins.{Origin};
ghost use Rattle.durable_store.specs.Disks.{DiskRose, NoneFell};
ghost use Rattle.durable_store.specs.declared.disks.Disks.{Disks};
ghost use Rattle.trail.specs.declared.event.TrailEvent.{TrailEvent};
ghost use Rattle.trail.specs.declared.event.TrailEvent.TheVariants.{End};
ghost use Rattle.client_quorum.specs.Clients.{fresh};
ghost use Rattle.client_seat.specs.Asks.{client_of, polls_since};
ghost use Rattle.group_ends.specs.Journals.{has_end};
ghost use Rattle.group_parties.specs.Manned.{HasDesk, HasWorked, HoldsDesk, IsLeftOver, IsSinceOpened};
ghost use Rattle.group_parties.specs.Seated.{AreMute, IsClientLeft};

use client_seat::seat::{ClientParts, ClientSeat};
use disk_model::disk::Disk;
use durable_store::store::Store;
use group_ends::inbox::Inbox;
use group_ends::journal::JournalParts;
use group_ends::owner::Owner;
use group_seat::seat::{GroupSeat, GroupSeatParts};
use group_threads::desk::Desk;
use group_threads::members::Runner;
use group_wires::row::Row;
use log_lane::ends::rejoin;
use node_course::course::CourseParts;
use node_course::group_life::GroupLife;
use node_endings::ending::LoopEnd;
use smart_base::name::MemberId;
use smart_base::sequence::Sequence;
use smart_io::stream::Sink;
use smart_service::service::Service;
use trail::event::TrailEvent;

/// What a party has lived: its trail, and the ends of its links.
#[derive(Drop)]
pub struct Lived {
    pub events: Sequence<TrailEvent>,
    /// Whether the trail has ended, and no call has failed.
    pub whole: bool,
    pub row: Row,
    pub inbox: Inbox,
}

/// What is left of a member.
pub struct MemberEnd<D: Disk, O: Sink> {
    pub member: MemberId,
    /// The sink of its trail.
    pub sink: O,
    /// Whether the sink has failed.
    pub failed: bool,
    pub store: Store<D>,
    /// Whether a device has failed.
    pub worn: bool,
    /// What it has lived. `None`: it got no seat, or its seat was another member's.
    pub lived: Option<Lived>,
}

/// What is left of the client.
pub struct ClientLeft<O: Sink> {
    /// The sink of its trail.
    pub sink: O,
    /// Whether the sink has failed.
    pub failed: bool,
    /// What it has lived. `None`: it got no seat.
    pub lived: Option<Lived>,
    /// The polls since it sent its last message.
    pub polls: u64,
}

/// Notes in its trail that a member ends, if no call has failed. Says whether it did.
fn end_seat<S: Service, P: GroupLife<S>, O: Sink>(seat: &mut GroupSeat<S, P, O>) -> bool
    ensures ended { result ≡ true → (seat.new.over ≡ false) × (has_end seat.new.inner.journal.events.items ≡ true) }
    ensures number { seat.new.inner.journal.number ≡ seat.old.inner.journal.number }
{
    if !seat.goes_on() {
        return false;
    }
    seat.end().is_ok()
}

/// Takes the seat of a member apart, and brings the ends of its lane together. `ended`: its trail has ended,
/// and no call has failed.
fn take_apart<S: Service, P: GroupLife<S>, O: Sink, D: Disk>(
    member: MemberId,
    seat: GroupSeat<S, P, O>,
    desk: Desk<D>,
    ended: bool,
    worn: bool,
) -> MemberEnd<D, O>
    requires desk { HoldsDesk (P.lane member) (P.restored member) (Some desk) }
    requires ended { ended ≡ true → (seat.over ≡ false) × (has_end seat.inner.journal.events.items ≡ true) }
    ensures member { (result.member ≡ member) × ((result.store ≡ desk.store) × (result.worn ≡ worn)) }
    ensures lived { (origin : Origin) → HasDesk D.told D.remembers D.cells D.moment D.left_since S.meaning origin (P.lane member) (P.opening member) (P.restored member) (Some desk) → IfSome result.lived (IsLeftOver D.told D.remembers D.cells D.moment D.left_since S.meaning O.written origin (P.opening member) (P.restored member) (P.head member) (P.entries member) (P.begun member) (P.receivers member) (P.leaving member) (P.arriving member) result.store result.sink) }
    ensures cause { result.failed ≡ true → Rose (P.failures member) (O.faults result.sink) }
    ensures whole { IfSome result.lived (λ l. l.whole ≡ ended) }
{
    let number = seat.number();
    let GroupSeatParts {
        course,
        ports,
        links,
        over: _,
        cut: _,
    } = seat.into_parts();
    let CourseParts {
        core: _,
        journal,
        lane,
        stuck: _,
    } = course;
    let JournalParts {
        number: _,
        events,
        sink,
        failed,
        whole: _,
    } = journal;
    let store = desk.store;
    if number != member.get() {
        return MemberEnd {
            member,
            sink,
            failed: false,
            store,
            worn,
            lived: None,
        };
    }
    rejoin(lane, desk.lane);
    MemberEnd {
        member,
        sink,
        failed,
        store,
        worn,
        lived: Some(Lived {
            events: Sequence::from_vec(events),
            whole: ended,
            row: Row { ports },
            inbox: Inbox::new(links),
        }),
    }
}

/// Whether a loop ended for a failure.
fn has_failed(end: LoopEnd) -> bool
    ensures { result ≡ true → end ≡ LoopEnd.Failed }
{
    end == LoopEnd::Failed
}

/// Ends the trail of a member, and takes the member apart.
pub fn finish<S: Service, P: GroupLife<S>, O: Sink, D: Disk>(
    runner: Runner<S, P, O, D>,
) -> MemberEnd<D, O>
    requires desk { HoldsDesk (P.lane runner.member) (P.restored runner.member) runner.desk }
    ensures member { result.member ≡ runner.member }
    ensures lived { (origin : Origin) → HasDesk D.told D.remembers D.cells D.moment D.left_since S.meaning origin (P.lane runner.member) (P.opening runner.member) (P.restored runner.member) runner.desk → IfSome result.lived (IsLeftOver D.told D.remembers D.cells D.moment D.left_since S.meaning O.written origin (P.opening runner.member) (P.restored runner.member) (P.head runner.member) (P.entries runner.member) (P.begun runner.member) (P.receivers runner.member) (P.leaving runner.member) (P.arriving runner.member) result.store result.sink) }
    // Its store is as rounds left it, also where the seat was another member's.
    ensures since { (origin : Origin) → HasDesk D.told D.remembers D.cells D.moment D.left_since S.meaning origin (P.lane runner.member) (P.opening runner.member) (P.restored runner.member) runner.desk → IsSinceOpened D.told D.remembers D.cells D.moment D.left_since S.meaning origin (P.opening runner.member) (P.restored runner.member) result.store }
    ensures cause { result.failed ≡ true → Rose (P.failures runner.member) (O.faults result.sink) }
    ensures devices { (begun : Disks D) → HasWorked D.faults begun runner.ends runner.desk → NoneFell D.faults begun result.store.disks × (result.worn ≡ true → DiskRose D.faults begun result.store.disks) }
{
    let Runner {
        member,
        cell,
        desk,
        ends,
    } = runner;
    let Some(desk) = desk else { unreachable!() };
    let mut seat = cell.into_inner();
    let ended = end_seat(&mut seat);
    take_apart(member, seat, desk, ended, has_failed(ends.logged))
}

/// Ends the trails of members, and takes the members apart, behind those that are taken apart already. It
/// takes no memory, as there are places for all.
pub fn finish_all<S: Service, P: GroupLife<S>, O: Sink, D: Disk>(
    runners: Vec<Runner<S, P, O, D>>,
    left: Vec<MemberEnd<D, O>>,
) -> Vec<MemberEnd<D, O>>
    requires desks { All (λ r. HoldsDesk (P.lane r.member) (P.restored r.member) r.desk) runners.items }
    requires room { vec_len left + vec_len runners ≤ vec_capacity left }
    ensures many { vec_len result ≡ vec_len left + vec_len runners }
    // The first of them are those that had a seat, in their order.
    ensures members { (i : ℕ) (d : _) (r : _) → i < vec_len runners → (slice_index_or result.items i d).member ≡ (slice_index_or runners.items i r).member }
    ensures lived { (origins : ℕ → Origin) (i : ℕ) (d : _) (r : _) → i < vec_len runners → let runner = slice_index_or runners.items i r in let end = slice_index_or result.items i d in HasDesk D.told D.remembers D.cells D.moment D.left_since S.meaning (origins runner.member) (P.lane runner.member) (P.opening runner.member) (P.restored runner.member) runner.desk → IfSome end.lived (IsLeftOver D.told D.remembers D.cells D.moment D.left_since S.meaning O.written (origins runner.member) (P.opening runner.member) (P.restored runner.member) (P.head runner.member) (P.entries runner.member) (P.begun runner.member) (P.receivers runner.member) (P.leaving runner.member) (P.arriving runner.member) end.store end.sink) }
    ensures since { (origins : ℕ → Origin) (i : ℕ) (d : _) (r : _) → i < vec_len runners → let runner = slice_index_or runners.items i r in HasDesk D.told D.remembers D.cells D.moment D.left_since S.meaning (origins runner.member) (P.lane runner.member) (P.opening runner.member) (P.restored runner.member) runner.desk → IsSinceOpened D.told D.remembers D.cells D.moment D.left_since S.meaning (origins runner.member) (P.opening runner.member) (P.restored runner.member) (slice_index_or result.items i d).store }
    ensures cause { (i : ℕ) (d : _) (r : _) → i < vec_len runners → (slice_index_or result.items i d).failed ≡ true → Rose (P.failures (slice_index_or runners.items i r).member) (O.faults (slice_index_or result.items i d).sink) }
    ensures devices { (begun : ℕ → Disks D) (i : ℕ) (d : _) (r : _) → i < vec_len runners → let runner = slice_index_or runners.items i r in let end = slice_index_or result.items i d in HasWorked D.faults (begun runner.member) runner.ends runner.desk → NoneFell D.faults (begun runner.member) end.store.disks × (end.worn ≡ true → DiskRose D.faults (begun runner.member) end.store.disks) }
    // Behind them are those that were taken apart already, the last of them first.
    ensures behind { (i : ℕ) (d : _) (e : _) → vec_len runners ≤ i → i < vec_len left + vec_len runners → slice_index_or result.items i d ≡ slice_index_or left.items (vec_len left + vec_len runners - (i + 1)) e }
{
    let mut runners = runners;
    let mut left = left;
    while let Some(runner) = runners.pop() {
        let end = finish(runner);
        left.push_reserved(end);
    }
    runners.destroy_empty();
    left.reverse();
    left
}

/// Notes the client's polls and the end of its trail, if no call has failed. Says whether it did.
fn end_client<P: Owner, O: Sink>(seat: &mut ClientSeat<P, O>) -> bool
    ensures ended { result ≡ true → (seat.new.over ≡ false) × ((seat.new.idle ≡ 0) × ((seat.new.client ≡ seat.old.client) × (has_end seat.new.journal.events.items ≡ true))) }
    ensures behind { (more : List TrailEvent) × (AreMute more × (seat.new.journal.events.items ≡ seat.old.journal.events.items ++ more)) }
{
    if !seat.goes_on() {
        return false;
    }
    if seat.tell_polls().is_err() {
        return false;
    }
    seat.end().is_ok()
}

/// Ends the trail of the client, and takes the client apart.
pub fn finish_client<P: Owner, O: Sink>(seat: ClientSeat<P, O>) -> ClientLeft<O>
    ensures some { is_some result.lived ≡ true }
    ensures left { IfSome result.lived (IsClientLeft (P.head 0) (P.entries 0) O.written (P.begun 0) (P.receivers 0) (P.leaving 0) (P.arriving 0) result.sink) }
    ensures behind { IfSome result.lived (λ l. (more : List TrailEvent) × (AreMute more × (l.events ≡ seat.journal.events.items ++ more))) }
    ensures waits { IfSome result.lived (λ l. l.whole ≡ true → client_of (P.head 0).secret (fresh (P.head 0).view 1) l.events ≡ seat.client) }
    ensures polls { IfSome result.lived (λ l. l.whole ≡ true → result.polls ≡ min (polls_since 0 l.events) (2 ^ 64 - 1)) }
    ensures cause { result.failed ≡ true → Rose (P.failures 0) (O.faults result.sink) }
{
    let mut seat = seat;
    let ended = end_client(&mut seat);
    let polls = seat.polls();
    let ClientParts {
        client: _,
        journal,
        ports,
        links,
        pending: _,
        over: _,
    } = seat.into_parts();
    let JournalParts {
        number: _,
        events,
        sink,
        failed,
        whole: _,
    } = journal;
    ClientLeft {
        sink,
        failed,
        lived: Some(Lived {
            events: Sequence::from_vec(events),
            whole: ended,
            row: Row { ports },
            inbox: Inbox::new(links),
        }),
        polls,
    }
}
