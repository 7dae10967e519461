//! The course of a group under its name: its parties get their seats, run, and are taken apart.
ghost use Rattle.std.specs.Prelude.{◌≡◌, ◌≤◌, ◌<◌, ◌+◌, ◌-◌, ◌^◌, [], ℕ, map, slice_index_or, vec_len, vec_capacity, false, true, is_some, None, IfSome};
ghost use Rattle.std.specs.List.{All};
ghost use Rattle.faults.specs.Counts.{Rose};
ghost use Rattle.durable_store.specs.declared.disks.Disks.{Disks};
ghost use Rattle.group_threads.specs.Desks.{IsReady};
ghost use Rattle.store_laws.specs.Restored.{Images};
ghost use Rattle.group_parties.specs.Crews.{IsCrew, names_of};
ghost use Rattle.group_parties.specs.Manned.{HasDesk, HasWorked};
ghost use Rattle.group_parties.specs.Origins.{Origin};
ghost use Rattle.group_parties.specs.Courses.{CourseMade};
ghost use Rattle.group_parties.specs.Rests.{HasCourse, HasRun, IsEndedBy};
ghost use Rattle.group_opening.specs.Runs.{client_head};
ghost use Rattle.group_parties.specs.Seated.{IsClientLeft};

use crate::client::{ClientStation, seat_client};
use crate::crew::{Crew, Headed, places};
use crate::ending::{ClientLeft, MemberEnd, finish_all, finish_client};
use crate::naming::{GroupOf, Named};
use crate::running::{CourseEnd, run_parties};
use crate::seating::{Seating, seat_all, unseated_all};
use client_seat::seat::ClientSeat;
use clock_gate::clock::Clock;
use clock_gate::gate::Gate;
use disk_model::disk::Disk;
use group_client::asking::ClientFault;
use group_client::turns::Task;
use group_opening::settings::GroupSettings;
use group_threads::members::{Members, Runner};
use node_course::group_life::GroupLife;
use smart_io::stream::Sink;
use smart_service::service::Service;
use std::alloc::Global;
use std::marker::Brand;
use std::sync::{Mutex, Wait};
use std::thread::Threads;

/// What is left of a group.
pub struct Rest<D: Disk, O: Sink> {
    /// Its members, ascending.
    pub members: Vec<MemberEnd<D, O>>,
    pub client: ClientLeft<O>,
    /// The heads of the members' trails.
    pub heads: Vec<Headed>,
    pub end: CourseEnd,
}

/// What is left of a client that got no seat.
fn client_without<O: Sink>(sink: O) -> ClientLeft<O>
    ensures { (result.sink ≡ sink) × ((result.failed ≡ false) × (is_some result.lived ≡ false)) }
{
    ClientLeft {
        sink,
        failed: false,
        lived: None,
        polls: 0,
    }
}

/// Runs the parties of a group, unless a member is without a seat.
fn run_if_seated<
    S: Service + Send,
    P: GroupLife<S> + Send,
    O: Sink + Send,
    W: Sink,
    D: Disk + Send,
    K: Clock + Send,
    G: Gate + Sync,
    R: Threads + Wait + Sync,
>(
    rt: &R,
    alloc: Global,
    settings: &GroupSettings,
    seated: bool,
    seat: &mut ClientSeat<P, O>,
    members: &mut Members<S, P, O, D>,
    output: &mut W,
    clock: &Mutex<K>,
    gate: &G,
) -> CourseEnd
    requires turns { settings.now.turns ≤ 2 ^ 63 }
    requires fresh { (seat.old.over ≡ false) × ((seat.old.pending ≡ None) × ((seat.old.journal.events.items ≡ []) × (seat.old.client.last ≡ 0))) }
    requires ready { All (λ r. IsReady D.told D.cells (P.lane r.member) (P.restored r.member) r.desk) members.old.runners.items }
    ensures since { (origins : ℕ → Origin) → All (λ r. HasDesk D.told D.remembers D.cells D.moment D.left_since S.meaning (origins r.member) (P.lane r.member) (P.opening r.member) (P.restored r.member) r.desk) members.old.runners.items → All (λ r. HasDesk D.told D.remembers D.cells D.moment D.left_since S.meaning (origins r.member) (P.lane r.member) (P.opening r.member) (P.restored r.member) r.desk) members.new.runners.items }
    ensures worked { (begun : ℕ → Disks D) → All (λ r. HasWorked D.faults (begun r.member) r.ends r.desk) members.old.runners.items → All (λ r. HasWorked D.faults (begun r.member) r.ends r.desk) members.new.runners.items }
    ensures same { map (λ r. r.member) members.new.runners.items ≡ map (λ r. r.member) members.old.runners.items }
    ensures made { CourseMade (P.head 0) settings.now.asks settings.now.turns result seat.new.client seat.new.journal.events.items (record { written = W.written output.old; faults = W.faults output.old; wants = W.wants output.old }) (record { written = W.written output.new; faults = W.faults output.new; wants = W.wants output.new }) }
{
    if !seated {
        return CourseEnd::Over;
    }
    let task = Task {
        asks: settings.asks,
        turns: settings.turns,
    };
    run_parties::<S, P, O, W, D, K, G, R>(rt, alloc, gate, clock, &task, seat, output, members)
}

/// What is left of parties that have run.
struct Ran<D: Disk, O: Sink> {
    members: Vec<MemberEnd<D, O>>,
    client: ClientLeft<O>,
    end: CourseEnd,
}

/// Runs the parties of a group, if each member has a seat, and takes them apart. Those without a seat come with
/// the last of them first.
fn run_seated<
    S: Service + Send,
    P: GroupLife<S> + Send,
    O: Sink + Send,
    W: Sink,
    D: Disk + Send,
    K: Clock + Send,
    G: Gate + Sync,
    R: Threads + Wait + Sync,
>(
    rt: &R,
    alloc: Global,
    settings: &GroupSettings,
    seat: ClientSeat<P, O>,
    runners: Vec<Runner<S, P, O, D>>,
    left: Vec<MemberEnd<D, O>>,
    output: &mut W,
    clock: &Mutex<K>,
    gate: &G,
) -> Ran<D, O>
    requires head { P.head 0 ≡ client_head settings.now }
    requires turns { settings.now.turns ≤ 2 ^ 63 }
    requires fresh { (seat.over ≡ false) × ((seat.pending ≡ None) × ((seat.journal.events.items ≡ []) × (seat.client.last ≡ 0))) }
    requires ready { All (λ r. IsReady D.told D.cells (P.lane r.member) (P.restored r.member) r.desk) runners.items }
    requires manned { (origins : ℕ → Origin) × All (λ r. HasDesk D.told D.remembers D.cells D.moment D.left_since S.meaning (origins r.member) (P.lane r.member) (P.opening r.member) (P.restored r.member) r.desk) runners.items }
    requires room { vec_len left + vec_len runners ≤ vec_capacity left }
    ensures many { vec_len result.members ≡ vec_len left + vec_len runners }
    ensures numbers { (i : ℕ) (d : _) (r : _) → i < vec_len runners → (slice_index_or result.members.items i d).member ≡ (slice_index_or runners.items i r).member }
    ensures ended { (origins : ℕ → Origin) (begun : ℕ → Disks D) → All (λ r. HasDesk D.told D.remembers D.cells D.moment D.left_since S.meaning (origins r.member) (P.lane r.member) (P.opening r.member) (P.restored r.member) r.desk) runners.items → All (λ r. HasWorked D.faults (begun r.member) r.ends r.desk) runners.items → (i : ℕ) (d : _) → i < vec_len runners → IsEndedBy (record { head = P.head; entries = P.entries; begun = P.begun; failures = P.failures; receivers = P.receivers; leaving = P.leaving; arriving = P.arriving; lane = P.lane; restored = P.restored; opening = P.opening }) S.meaning D.told D.remembers D.cells D.moment D.left_since D.faults O.written O.faults origins begun (slice_index_or result.members.items i d) }
    ensures behind { (i : ℕ) (d : _) (e : _) → vec_len runners ≤ i → i < vec_len left + vec_len runners → slice_index_or result.members.items i d ≡ slice_index_or left.items (vec_len left + vec_len runners - (i + 1)) e }
    ensures some { is_some result.client.lived ≡ true }
    ensures client { IfSome result.client.lived (λ l. IsClientLeft (P.head 0) (P.entries 0) O.written (P.begun 0) (P.receivers 0) (P.leaving 0) (P.arriving 0) result.client.sink l × HasCourse settings.now result.client.polls result.end l (record { written = W.written output.old; faults = W.faults output.old; wants = W.wants output.old }) (record { written = W.written output.new; faults = W.faults output.new; wants = W.wants output.new })) }
    ensures cause { result.client.failed ≡ true → Rose (P.failures 0) (O.faults result.client.sink) }
    ensures failed { result.end ≡ CourseEnd.GaveUp ClientFault.Output → Rose (W.faults output.old) (W.faults output.new) }
    ensures want { result.end ≡ CourseEnd.GaveUp ClientFault.OutputMemory → Rose (W.wants output.old) (W.wants output.new) }
    ensures later { (W.faults output.old ≤ W.faults output.new) × (W.wants output.old ≤ W.wants output.new) }
{
    let mut seat = seat;
    let mut members = Members { runners };
    let end = run_if_seated::<S, P, O, W, D, K, G, R>(
        rt,
        alloc,
        settings,
        left.is_empty(),
        &mut seat,
        &mut members,
        output,
        clock,
        gate,
    );
    let Members { runners } = members;
    Ran {
        members: finish_all(runners, left),
        client: finish_client(seat),
        end,
    }
}

/// Runs a group whose name the type bears. All that bears the name is made within.
fn run_named<
    S: Service + Send,
    N: Named<S> + Send,
    O: Sink + Send,
    W: Sink,
    D: Disk + Send,
    K: Clock + Send,
    G: Gate + Sync,
    R: Threads + Wait + Sync,
>(
    rt: &R,
    alloc: Global,
    settings: &GroupSettings,
    crew: Crew<S, D, O>,
    left: Vec<MemberEnd<D, O>>,
    output: &mut W,
    clock: &Mutex<K>,
    gate: &G,
) -> Rest<D, O>
    requires crew { (images : ℕ → Images) × IsCrew S.meaning D.told D.cells O.written images settings.now crew }
    requires places { (left.items ≡ []) × (settings.now.members ≤ vec_capacity left) }
    requires turns { settings.now.turns ≤ 2 ^ 63 }
    requires named { names_of S.meaning settings.now O.written O.faults crew ≡ record { head = N.head; entries = N.entries; begun = N.begun; failures = N.failures; receivers = N.receivers; leaving = N.leaving; arriving = N.arriving; lane = N.lane; restored = N.restored; opening = N.opening S.meaning } }
    ensures { (images : ℕ → Images) (is : IsCrew S.meaning D.told D.cells O.written images settings.now crew) → HasRun S.meaning D.told D.remembers D.cells D.moment D.left_since D.faults O.written O.faults images settings.now crew is result (record { written = W.written output.old; faults = W.faults output.old; wants = W.wants output.old }) (record { written = W.written output.new; faults = W.faults output.new; wants = W.wants output.new }) }
{
    let Crew {
        client,
        stations,
        heads,
    } = crew;
    let Ok(runners) = places(alloc, stations.len()) else {
        let ClientStation {
            row: _,
            inbox: _,
            sink,
        } = client;
        return Rest {
            members: unseated_all(stations, left),
            client: client_without(sink),
            heads,
            end: CourseEnd::Over,
        };
    };
    match seat_client::<GroupOf<S, N>, S, O>(alloc, settings, client) {
        Ok(seat) => {
            let Seating { runners, left } = seat_all::<S, GroupOf<S, N>, O, D, R>(
                rt,
                alloc,
                stations,
                Seating { runners, left },
            );
            let Ran {
                members,
                client,
                end,
            } = run_seated::<S, GroupOf<S, N>, O, W, D, K, G, R>(
                rt, alloc, settings, seat, runners, left, output, clock, gate,
            );
            Rest {
                members,
                client,
                heads,
                end,
            }
        }
        Err(sink) => {
            runners.destroy_empty();
            Rest {
                members: unseated_all(stations, left),
                client: client_without(sink),
                heads,
                end: CourseEnd::Over,
            }
        }
    }
}

/// Runs a group. Its name is made of what each party begins with.
pub fn run_crew<
    S: Service + Send,
    O: Sink + Send,
    W: Sink,
    D: Disk + Send,
    K: Clock + Send,
    G: Gate + Sync,
    R: Threads + Wait + Sync,
>(
    rt: &R,
    alloc: Global,
    settings: &GroupSettings,
    crew: Crew<S, D, O>,
    left: Vec<MemberEnd<D, O>>,
    output: &mut W,
    clock: &Mutex<K>,
    gate: &G,
) -> Rest<D, O>
    requires crew { (images : ℕ → Images) × IsCrew S.meaning D.told D.cells O.written images settings.now crew }
    requires places { (left.items ≡ []) × (settings.now.members ≤ vec_capacity left) }
    requires turns { settings.now.turns ≤ 2 ^ 63 }
    ensures { (images : ℕ → Images) (is : IsCrew S.meaning D.told D.cells O.written images settings.now crew) → HasRun S.meaning D.told D.remembers D.cells D.moment D.left_since D.faults O.written O.faults images settings.now crew is result (record { written = W.written output.old; faults = W.faults output.old; wants = W.wants output.old }) (record { written = W.written output.new; faults = W.faults output.new; wants = W.wants output.new }) }
{
    run_named::<S, Brand, O, W, D, K, G, R>(rt, alloc, settings, crew, left, output, clock, gate)
}
