//! How the rest of a group's run is played, without threads and without ticks: the members ascending, and
//! the client.
ghost use Rattle.std.specs.Prelude.{◌≡◌, ◌≤◌, ◌⊎◌, ℕ, map, false, None, Some};
ghost use Rattle.std.specs.List.{All};
ghost use Rattle.log_lane.specs.Lane.{lane_taken};
ghost use Rattle.group_parties.specs.Origins.{Origin};
ghost use Rattle.store_laws.specs.Stops.{is_installed};
ghost use Rattle.group_ends.specs.Journals.{has_end};
ghost use Rattle.group_client.specs.Amounts.{amounts, asked_in};
ghost use Rattle.durable_store.specs.declared.disks.Disks.{Disks};
ghost use Rattle.group_threads.specs.Desks.{IsDeskOf, IsReady, LogMade, MayWork, WorkMade};
ghost use Rattle.group_parties.specs.Manned.{HasDesk, HasWorked};
ghost use Rattle.group_parties.specs.Plays.{PlayMade};

use check_worker::worker::CheckWorker;
use client_seat::seat::ClientSeat;
use clock_gate::gate::Gate;
use disk_model::disk::Disk;
use group_client::asking::ClientFault;
use group_client::turns::{ClientTurn, Task, client_turn};
use group_seat::seat::{GroupCell, GroupSeat};
use group_threads::bearer::{HomeOf, MemberOf, Numbered};
use group_threads::cell::MemberCell;
use group_threads::desk::{Desk, MemberEnds, Workers, desk_of, workers_of};
use group_threads::members::Runner;
use log_worker::home::Home;
use log_worker::worker::LogWorker;
use node_course::group_life::GroupLife;
use node_endings::ending::{LoopEnd, end_of_work};
use node_seat::turns::Turn;
use smart_base::name::MemberId;
use smart_io::stream::Sink;
use smart_service::service::Service;
use std::alloc::Global;
use std::marker::Brand;
use std::sync::Wait;
use std::sync::atomic::AtomicBool;
use store_plan::stops::InstallsStop;

/// What became of a round of a member.
#[derive(Clone, Copy, Debug, PartialEq, Eq)]
pub enum Round {
    /// Something happened.
    Played,
    /// Nothing was left to happen.
    Still,
    /// Nothing more happens to the member.
    Over,
}

/// Why the play ended.
#[derive(Clone, Copy, Debug, PartialEq, Eq)]
pub enum PlayEnd {
    /// All replies were accepted.
    Done,
    /// In a whole round nothing happened.
    Still,
    /// Nothing more happens to a member.
    Over,
    /// The client does not go on.
    GaveUp(ClientFault),
}

/// What became of two rounds, the one after the other.
fn both(first: Round, second: Round) -> Round
    ensures { result ≡ Round.Still → (first ≡ Round.Still) × (second ≡ Round.Still) }
{
    if first == Round::Over || second == Round::Over {
        return Round::Over;
    }
    if first == Round::Played || second == Round::Played {
        return Round::Played;
    }
    Round::Still
}

/// What became of a turn, as of a round.
fn round_of(turn: Turn) -> Round
    ensures still { result ≡ Round.Still → turn ≡ Turn.Nothing }
{
    match turn {
        Turn::Done => Round::Played,
        // The lane has room again once the log has made a round.
        Turn::NoRoom => Round::Played,
        Turn::Nothing => Round::Still,
        Turn::Over => Round::Over,
    }
}

/// One turn of each kind of a member's seat: what the lane tells, the batch that waits, the next arrival,
/// the next message that leaves.
fn play_seat<S: Service, P: GroupLife<S>, O: Sink, R: Wait>(
    rt: &R,
    seat: &mut GroupSeat<S, P, O>,
) -> Round
    ensures number { seat.new.inner.journal.number ≡ seat.old.inner.journal.number }
    ensures still { result ≡ Round.Still → seat.new.inner.journal.events.items ≡ seat.old.inner.journal.events.items }
{
    let told = round_of(seat.catch_up(rt));
    let delivered = round_of(seat.deliver(rt));
    let took = round_of(seat.take(rt));
    let left = round_of(seat.let_go(rt));
    both(both(told, delivered), both(took, left))
}

/// What a round leaves of a member's desk.
struct PlayedDesk<D: Disk> {
    desk: Desk<D>,
    ends: MemberEnds,
    round: Round,
}

/// One round of the worker of checkpoints, as how a loop would have ended. `true`: it handed a snapshot
/// over.
#[tactic(auto, using(node_endings::proofs::Ends::last_up))]
fn check_once<S: Service, P: GroupLife<S>, M: Numbered, O: Sink, G: Gate, R: Wait>(
    node: &mut MemberCell<'_, S, P, M, O, G, R>,
    checker: &mut CheckWorker,
) -> (LoopEnd, bool)
    ensures rises { checker.old.last ≤ checker.new.last }
    ensures cause { result.0 ≡ LoopEnd.Failed → ⊥ }
{
    match checker.round(node) {
        Ok(place) => (LoopEnd::Over, place != 0),
        Err(_) => (LoopEnd::NoMemory, false),
    }
}

/// One round of the worker of the log, as how a loop would have ended.
fn log_once<S: Service, P: GroupLife<S>, M: Numbered, O: Sink, D: Disk, H: Home, G: Gate, R: Wait>(
    rt: &R,
    node: &mut MemberCell<'_, S, P, M, O, G, R>,
    log: &mut LogWorker<D, H>,
) -> LoopEnd
    requires work { MayWork D.told D.cells log.old.faulty log.old.store }
    ensures made { LogMade D.told D.remembers D.cells D.moment D.left_since is_installed D.faults S.meaning (P.opening M.number) H.restored result log.new.faulty (lane_taken log.old.lane) (lane_taken log.new.lane) log.old.store log.new.store }
{
    match log.round::<MemberCell<'_, S, P, M, O, G, R>, InstallsStop, R>(rt, node) {
        Ok(_) => LoopEnd::Over,
        Err(fault) => end_of_work(fault),
    }
}

/// What became of one round of a member's workers.
struct WorkRound {
    logged: LoopEnd,
    checked: LoopEnd,
    /// Whether a snapshot was handed over.
    handed: bool,
}

/// One round of the worker of checkpoints, and one of that of the log.
fn work_once<S: Service, P: GroupLife<S>, M: Numbered, O: Sink, D: Disk, H: Home, G: Gate, R: Wait>(
    rt: &R,
    cell: &GroupCell<S, P, O>,
    gate: &G,
    name: &MemberOf<M>,
    ended: &AtomicBool,
    log: &mut LogWorker<D, H>,
    checker: &mut CheckWorker,
) -> WorkRound
    requires work { MayWork D.told D.cells log.old.faulty log.old.store }
    ensures made { LogMade D.told D.remembers D.cells D.moment D.left_since is_installed D.faults S.meaning (P.opening M.number) H.restored result.logged log.new.faulty (lane_taken log.old.lane) (lane_taken log.new.lane) log.old.store log.new.store }
    ensures rises { checker.old.last ≤ checker.new.last }
    ensures checked { result.checked ≡ LoopEnd.Failed → ⊥ }
{
    let mut node: MemberCell<'_, S, P, M, O, G, R> = MemberCell {
        rt,
        cell,
        gate,
        name,
        ended,
    };
    let (checked, handed) = check_once(&mut node, checker);
    let logged = log_once::<S, P, M, O, D, H, G, R>(rt, &mut node, log);
    WorkRound {
        logged,
        checked,
        handed,
    }
}

/// What became of a round of a member: of its workers, and of its seat.
fn round_by(work: &WorkRound, seated: Round) -> Round
    ensures over { result ≡ Round.Over ⊎ (work.now.logged ≡ LoopEnd.Over) }
{
    if work.checked != LoopEnd::Over || work.logged != LoopEnd::Over {
        return Round::Over;
    }
    if work.handed {
        return both(Round::Played, seated);
    }
    seated
}

/// One round of the member that this name has: of the worker of checkpoints, of that of the log, and of the
/// seat.
fn play_as<S: Service, P: GroupLife<S>, M: Numbered, O: Sink, D: Disk, G: Gate, R: Wait>(
    rt: &R,
    alloc: Global,
    cell: &GroupCell<S, P, O>,
    gate: &G,
    member: &MemberId,
    ended: &AtomicBool,
    desk: Desk<D>,
) -> PlayedDesk<D>
    requires number { member.now ≡ M.number }
    requires desk { IsDeskOf (P.lane M.number) (P.restored M.number) desk }
    requires work { MayWork D.told D.cells desk.faulty desk.store }
    ensures made { WorkMade D.told D.remembers D.cells D.moment D.left_since is_installed D.faults S.meaning (P.opening M.number) (P.lane M.number) (P.restored M.number) result.ends desk result.desk }
    ensures over { result.round ≡ Round.Over ⊎ (result.desk.faulty ≡ false) }
{
    let name: MemberOf<M> = MemberOf::new(*member);
    let Workers {
        mut log,
        mut checker,
    } = workers_of::<D, HomeOf<S, P, M>>(desk);
    let work = work_once::<S, P, M, O, D, HomeOf<S, P, M>, G, R>(
        rt,
        cell,
        gate,
        &name,
        ended,
        &mut log,
        &mut checker,
    );
    let seated = play_seat(rt, &mut cell.lock(rt));
    let round = round_by(&work, seated);
    let WorkRound {
        logged,
        checked,
        handed: _,
    } = work;
    PlayedDesk {
        desk: desk_of(alloc, log, checker),
        ends: MemberEnds {
            delivered: LoopEnd::Over,
            sent: LoopEnd::Over,
            logged,
            checked,
        },
        round,
    }
}

/// One round of a member, at the name of its number.
fn play_at<S: Service, P: GroupLife<S>, O: Sink, D: Disk, G: Gate, R: Wait>(
    rt: &R,
    alloc: Global,
    cell: &GroupCell<S, P, O>,
    gate: &G,
    member: &MemberId,
    ended: &AtomicBool,
    desk: Desk<D>,
) -> PlayedDesk<D>
    requires desk { IsDeskOf (P.lane member.now) (P.restored member.now) desk }
    requires work { MayWork D.told D.cells desk.faulty desk.store }
    ensures made { WorkMade D.told D.remembers D.cells D.moment D.left_since is_installed D.faults S.meaning (P.opening member.now) (P.lane member.now) (P.restored member.now) result.ends desk result.desk }
    ensures over { result.round ≡ Round.Over ⊎ (result.desk.faulty ≡ false) }
{
    play_as::<S, P, Brand, O, D, G, R>(rt, alloc, cell, gate, member, ended, desk)
}

/// Puts a desk where none is.
fn put_back<D: Disk>(place: &mut Option<Desk<D>>, desk: Desk<D>)
    requires { place.old ≡ None }
    ensures { place.new ≡ Some desk }
{
    match place.replace(desk) {
        None => {}
        Some(_) => unreachable!(),
    }
}

/// One round of a member.
fn play_member<S: Service, P: GroupLife<S>, O: Sink, D: Disk, G: Gate, R: Wait>(
    rt: &R,
    alloc: Global,
    gate: &G,
    ended: &AtomicBool,
    runner: &mut Runner<S, P, O, D>,
) -> Round
    requires ready { IsReady D.told D.cells (P.lane runner.old.member) (P.restored runner.old.member) runner.old.desk }
    ensures since { (origin : Origin) → HasDesk D.told D.remembers D.cells D.moment D.left_since S.meaning origin (P.lane runner.old.member) (P.opening runner.old.member) (P.restored runner.old.member) runner.old.desk → HasDesk D.told D.remembers D.cells D.moment D.left_since S.meaning origin (P.lane runner.old.member) (P.opening runner.old.member) (P.restored runner.old.member) runner.new.desk }
    ensures worked { (begun : Disks D) → HasWorked D.faults begun runner.old.ends runner.old.desk → HasWorked D.faults begun runner.new.ends runner.new.desk }
    ensures same { runner.new.member ≡ runner.old.member }
    ensures again { result ≡ Round.Over ⊎ IsReady D.told D.cells (P.lane runner.new.member) (P.restored runner.new.member) runner.new.desk }
{
    let Some(desk) = runner.desk.take() else {
        return Round::Over;
    };
    let PlayedDesk { desk, ends, round } = play_at::<S, P, O, D, G, R>(
        rt,
        alloc,
        &runner.cell,
        gate,
        &runner.member,
        ended,
        desk,
    );
    put_back(&mut runner.desk, desk);
    runner.ends = ends;
    round
}

/// One round of each member, ascending, until one is over. Says whether anything happened.
fn play_members<S: Service, P: GroupLife<S>, O: Sink, D: Disk, G: Gate, R: Wait>(
    rt: &R,
    alloc: Global,
    gate: &G,
    ended: &AtomicBool,
    runners: &mut Vec<Runner<S, P, O, D>>,
) -> Round
    requires ready { All (λ r. IsReady D.told D.cells (P.lane r.member) (P.restored r.member) r.desk) runners.old.items }
    ensures since { (origins : ℕ → Origin) → All (λ r. HasDesk D.told D.remembers D.cells D.moment D.left_since S.meaning (origins r.member) (P.lane r.member) (P.opening r.member) (P.restored r.member) r.desk) runners.old.items → All (λ r. HasDesk D.told D.remembers D.cells D.moment D.left_since S.meaning (origins r.member) (P.lane r.member) (P.opening r.member) (P.restored r.member) r.desk) runners.new.items }
    ensures worked { (begun : ℕ → Disks D) → All (λ r. HasWorked D.faults (begun r.member) r.ends r.desk) runners.old.items → All (λ r. HasWorked D.faults (begun r.member) r.ends r.desk) runners.new.items }
    ensures same { map (λ r. r.member) runners.new.items ≡ map (λ r. r.member) runners.old.items }
    ensures again { (result ≡ Round.Over) ⊎ All (λ r. IsReady D.told D.cells (P.lane r.member) (P.restored r.member) r.desk) runners.new.items }
{
    let mut all = Round::Still;
    for index in 0..runners.len() {
        let round = play_member(rt, alloc, gate, ended, &mut runners[index]);
        if round == Round::Over {
            return Round::Over;
        }
        all = both(all, round);
    }
    all
}

/// Plays in rounds, the members ascending and then the client, without ticks, until all replies are
/// accepted, until nothing happens in a whole round, or until something fails.
pub fn play_on<S: Service, P: GroupLife<S>, O: Sink, W: Sink, D: Disk, G: Gate, R: Wait>(
    rt: &R,
    alloc: Global,
    gate: &G,
    task: &Task,
    client: &mut ClientSeat<P, O>,
    output: &mut W,
    runners: &mut Vec<Runner<S, P, O, D>>,
) -> PlayEnd
    requires ready { All (λ r. IsReady D.told D.cells (P.lane r.member) (P.restored r.member) r.desk) runners.old.items }
    requires whole { client.old.over ≡ false }
    requires played { client.old.pending ≡ None }
    requires open { has_end client.old.journal.events.items ≡ false }
    requires asked { asked_in client.old.journal.events.items ≡ amounts client.old.client.last }
    requires few { client.old.client.last ≤ task.now.asks }
    ensures since { (origins : ℕ → Origin) → All (λ r. HasDesk D.told D.remembers D.cells D.moment D.left_since S.meaning (origins r.member) (P.lane r.member) (P.opening r.member) (P.restored r.member) r.desk) runners.old.items → All (λ r. HasDesk D.told D.remembers D.cells D.moment D.left_since S.meaning (origins r.member) (P.lane r.member) (P.opening r.member) (P.restored r.member) r.desk) runners.new.items }
    ensures worked { (begun : ℕ → Disks D) → All (λ r. HasWorked D.faults (begun r.member) r.ends r.desk) runners.old.items → All (λ r. HasWorked D.faults (begun r.member) r.ends r.desk) runners.new.items }
    ensures same { map (λ r. r.member) runners.new.items ≡ map (λ r. r.member) runners.old.items }
    // What the play leaves of the client.
    ensures made { PlayMade (P.head 0) task.now.asks result client.old.journal.events.items client.new.journal.events.items client.new.client client.new.over client.new.pending client.new.journal.failed (record { written = W.written output.old; faults = W.faults output.old; wants = W.wants output.old }) (record { written = W.written output.new; faults = W.faults output.new; wants = W.wants output.new }) }
{
    let ended = AtomicBool::new(false);
    for _ in rt.forever() {
        let round = play_members(rt, alloc, gate, &ended, runners);
        if round == Round::Over {
            return PlayEnd::Over;
        }
        match client_turn(rt, alloc, task.asks, client, output) {
            Ok(ClientTurn::Done) => return PlayEnd::Done,
            Ok(ClientTurn::Nothing) => {
                if round == Round::Still {
                    return PlayEnd::Still;
                }
            }
            Ok(_) => {}
            Err(fault) => return PlayEnd::GaveUp(fault),
        }
    }
    unreachable!()
}
