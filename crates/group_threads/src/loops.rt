//! The four loops of a member. Each ends once nothing more happens to the member, or once all loops of the
//! group are to end.
ghost use Rattle.std.specs.Prelude.{◌≡◌, ◌≤◌, false};
ghost use Rattle.log_lane.specs.Lane.{lane_taken};
ghost use Rattle.node_endings.specs.Loops.{gave_up};
ghost use Rattle.group_threads.specs.Desks.{MayWork, LogMade};

use crate::bearer::{MemberOf, Numbered};
use crate::cell::MemberCell;
use check_worker::worker::CheckWorker;
use clock_gate::clock::Clock;
use clock_gate::gate::Gate;
use disk_model::disk::Disk;
use group_seat::seat::GroupCell;
use log_worker::home::Home;
use log_worker::worker::LogWorker;
use node_course::group_life::GroupLife;
use node_endings::ending::{LoopEnd, end_of_work};
use node_ends::waits::Pulse;
use node_seat::turns::Turn;
use smart_io::stream::Sink;
use smart_service::service::Service;
use std::sync::atomic::AtomicBool;
use std::sync::{Mutex, Wait};
use std::thread;
use store_plan::stops::Stops;

/// Steps the core: what the lane tells, the batch that waits, a tick that is due, the next arrival.
pub fn deliver_loop<S: Service, P: GroupLife<S>, M: Numbered, O: Sink, K: Clock, G: Gate, R: Wait>(
    rt: &R,
    cell: &GroupCell<S, P, O>,
    gate: &G,
    name: &MemberOf<M>,
    ended: &AtomicBool,
    clock: &Mutex<K>,
) -> LoopEnd
    ensures { gave_up result ≡ false }
{
    let node: MemberCell<'_, S, P, M, O, G, R> = MemberCell {
        rt,
        cell,
        gate,
        name,
        ended,
    };
    let mut pulse = Pulse {
        last: clock.lock(rt).now(),
    };
    for _ in rt.forever() {
        if !node.step_on(&mut pulse, clock) {
            return LoopEnd::Over;
        }
    }
    unreachable!()
}

/// Lets messages go onto the links.
pub fn send_loop<S: Service, P: GroupLife<S>, M: Numbered, O: Sink, G: Gate, R: Wait>(
    rt: &R,
    cell: &GroupCell<S, P, O>,
    gate: &G,
    name: &MemberOf<M>,
    ended: &AtomicBool,
) -> LoopEnd
    ensures { gave_up result ≡ false }
{
    let node: MemberCell<'_, S, P, M, O, G, R> = MemberCell {
        rt,
        cell,
        gate,
        name,
        ended,
    };
    for _ in rt.forever() {
        if node.is_over() {
            return LoopEnd::Over;
        }
        match node.let_go() {
            Turn::Over => {
                node.end_all();
                return LoopEnd::Over;
            }
            Turn::Done => {}
            Turn::NoRoom | Turn::Nothing => thread::yield_now(),
        }
    }
    unreachable!()
}

/// Makes the rounds of the worker of the log.
pub fn log_loop<
    S: Service,
    P: GroupLife<S>,
    M: Numbered,
    O: Sink,
    D: Disk,
    E: Stops,
    H: Home,
    G: Gate,
    R: Wait,
>(
    rt: &R,
    cell: &GroupCell<S, P, O>,
    gate: &G,
    name: &MemberOf<M>,
    ended: &AtomicBool,
    worker: &mut LogWorker<D, H>,
) -> LoopEnd
    requires work { MayWork D.told D.cells worker.old.faulty worker.old.store }
    ensures made { LogMade D.told D.remembers D.cells D.moment D.left_since E.stops D.faults S.meaning (P.opening M.number) H.restored result worker.new.faulty (lane_taken worker.old.lane) (lane_taken worker.new.lane) worker.old.store worker.new.store }
{
    let mut node: MemberCell<'_, S, P, M, O, G, R> = MemberCell {
        rt,
        cell,
        gate,
        name,
        ended,
    };
    for _ in rt.forever() {
        if node.is_over() {
            return LoopEnd::Over;
        }
        if let Err(fault) = worker.round::<MemberCell<'_, S, P, M, O, G, R>, E, R>(rt, &mut node) {
            node.stop();
            return end_of_work(fault);
        }
        thread::yield_now();
    }
    unreachable!()
}

/// Makes a round of the worker of checkpoints, if a later snapshot is wanted than the last one. A round
/// copies the snapshot, so it is made for a later one alone. Says whether there was memory for it.
#[tactic(auto, using(crate::proofs::Ends::last_up))]
fn check_once<S: Service, P: GroupLife<S>, M: Numbered, O: Sink, G: Gate, R: Wait>(
    node: &mut MemberCell<'_, S, P, M, O, G, R>,
    checker: &mut CheckWorker,
) -> bool
    ensures { checker.old.last ≤ checker.new.last }
{
    if node.place_wanted() <= checker.last() {
        return true;
    }
    match checker.round(node) {
        Ok(_) => true,
        Err(_) => {
            node.stop();
            false
        }
    }
}

/// Makes the rounds of the worker of checkpoints.
pub fn check_loop<S: Service, P: GroupLife<S>, M: Numbered, O: Sink, G: Gate, R: Wait>(
    rt: &R,
    cell: &GroupCell<S, P, O>,
    gate: &G,
    name: &MemberOf<M>,
    ended: &AtomicBool,
    checker: &mut CheckWorker,
) -> LoopEnd
    ensures rises { checker.old.last ≤ checker.new.last }
    ensures cause { result ≡ LoopEnd.Failed → ⊥ }
{
    let mut node: MemberCell<'_, S, P, M, O, G, R> = MemberCell {
        rt,
        cell,
        gate,
        name,
        ended,
    };
    for _ in rt.forever() {
        if node.is_over() {
            return LoopEnd::Over;
        }
        if !check_once(&mut node, checker) {
            return LoopEnd::NoMemory;
        }
        thread::yield_now();
    }
    unreachable!()
}
