//! How the loops of one member run, each in a thread of its own, and are joined.
ghost use Rattle.std.specs.Prelude.{◌≡◌, ◌≤◌, false};
ghost use Rattle.std.specs.Thread.{IsSync};
ghost use denote.Param.Send.{IsSend};
ghost use Rattle.log_lane.specs.Lane.{lane_taken};
ghost use Rattle.node_endings.specs.Loops.{gave_up};
ghost use Rattle.group_threads.specs.Desks.{IsDeskOf, MayWork, LogMade, WorkMade};

use crate::bearer::{HomeOf, MemberOf, Numbered};
use crate::desk::{Desk, MemberEnds, Workers, desk_of, workers_of};
use crate::loops::{check_loop, deliver_loop, log_loop, send_loop};
use check_worker::worker::CheckWorker;
use clock_gate::clock::Clock;
use clock_gate::gate::Gate;
use disk_model::disk::Disk;
use group_seat::seat::GroupCell;
use log_worker::home::Home;
use log_worker::worker::LogWorker;
use node_course::group_life::GroupLife;
use node_endings::ending::LoopEnd;
use smart_base::name::MemberId;
use smart_io::stream::Sink;
use smart_service::service::Service;
use std::marker::Brand;
use std::sync::atomic::AtomicBool;
use std::sync::{Mutex, Wait};
use std::thread::{Threads, join, join_mut};
use store_plan::stops::Stops;

/// Why the loops ended that step the core and let messages leave.
struct CoreEnds {
    delivered: LoopEnd,
    sent: LoopEnd,
}

/// Why the loops ended that work on the log.
struct WorkEnds {
    logged: LoopEnd,
    checked: LoopEnd,
}

/// Steps the core in one thread, and lets messages leave in this one.
fn step_and_send<
    S: Service + Send,
    P: GroupLife<S> + Send,
    M: Numbered + Sync,
    O: Sink + Send,
    K: Clock + Send,
    G: Gate + Sync,
    R: Threads + Wait + Sync,
>(
    rt: &R,
    cell: &GroupCell<S, P, O>,
    gate: &G,
    name: &MemberOf<M>,
    ended: &AtomicBool,
    clock: &Mutex<K>,
) -> CoreEnds
    ensures { (gave_up result.delivered ≡ false) × (gave_up result.sent ≡ false) }
{
    let (delivered, sent) = join(
        rt,
        || deliver_loop::<S, P, M, O, K, G, R>(rt, cell, gate, name, ended, clock),
        || send_loop::<S, P, M, O, G, R>(rt, cell, gate, name, ended),
    );
    CoreEnds { delivered, sent }
}

/// Makes the rounds of both workers, those of the log in this thread.
fn log_and_check<
    S: Service + Send,
    P: GroupLife<S> + Send,
    M: Numbered + Sync,
    O: Sink + Send,
    D: Disk,
    E: Stops,
    H: Home,
    G: Gate + Sync,
    R: Threads + Wait + Sync,
>(
    rt: &R,
    cell: &GroupCell<S, P, O>,
    gate: &G,
    name: &MemberOf<M>,
    ended: &AtomicBool,
    worker: &mut LogWorker<D, H>,
    checker: &mut CheckWorker,
) -> WorkEnds
    requires work { MayWork D.told D.cells worker.old.faulty worker.old.store }
    ensures made { LogMade D.told D.remembers D.cells D.moment D.left_since E.stops D.faults S.meaning (P.opening M.number) H.restored result.logged worker.new.faulty (lane_taken worker.old.lane) (lane_taken worker.new.lane) worker.old.store worker.new.store }
    ensures rises { checker.old.last ≤ checker.new.last }
    ensures no_disk { result.checked ≡ LoopEnd.Failed → ⊥ }
{
    let (checked, logged) = join_mut(
        rt,
        &mut || check_loop::<S, P, M, O, G, R>(rt, cell, gate, name, ended, checker),
        &mut || -> LoopEnd
            requires { MayWork D.told D.cells worker.now.faulty worker.now.store }
        { log_loop::<S, P, M, O, D, E, H, G, R>(rt, cell, gate, name, ended, worker) },
    );
    WorkEnds { logged, checked }
}

/// Runs the four loops of a member, each in a thread, until all have ended.
fn run_loops<
    S: Service + Send,
    P: GroupLife<S> + Send,
    M: Numbered + Sync,
    O: Sink + Send,
    D: Disk,
    E: Stops,
    H: Home,
    K: Clock + Send,
    G: Gate + Sync,
    R: Threads + Wait + Sync,
>(
    rt: &R,
    cell: &GroupCell<S, P, O>,
    gate: &G,
    name: &MemberOf<M>,
    ended: &AtomicBool,
    clock: &Mutex<K>,
    worker: &mut LogWorker<D, H>,
    checker: &mut CheckWorker,
) -> MemberEnds
    requires work { MayWork D.told D.cells worker.old.faulty worker.old.store }
    ensures made { LogMade D.told D.remembers D.cells D.moment D.left_since E.stops D.faults S.meaning (P.opening M.number) H.restored result.logged worker.new.faulty (lane_taken worker.old.lane) (lane_taken worker.new.lane) worker.old.store worker.new.store }
    ensures rises { checker.old.last ≤ checker.new.last }
    ensures checked { result.checked ≡ LoopEnd.Failed → ⊥ }
    ensures others { (gave_up result.delivered ≡ false) × (gave_up result.sent ≡ false) }
{
    let (core, work) = join_mut(
        rt,
        &mut || -> CoreEnds
            requires { IsSend S.row × (IsSend P.row × (IsSync M.row × (IsSend O.row × IsSend K.row))) }
        { step_and_send::<S, P, M, O, K, G, R>(rt, cell, gate, name, ended, clock) },
        &mut || -> WorkEnds
            requires { IsSend S.row × (IsSend P.row × (IsSync M.row × (IsSend O.row × MayWork D.told D.cells worker.now.faulty worker.now.store))) }
        {
            log_and_check::<S, P, M, O, D, E, H, G, R>(rt, cell, gate, name, ended, worker, checker)
        },
    );
    let CoreEnds { delivered, sent } = core;
    let WorkEnds { logged, checked } = work;
    MemberEnds {
        delivered,
        sent,
        logged,
        checked,
    }
}

/// What the workers of a member leave, and why its loops ended.
pub struct Worked<D: Disk> {
    pub desk: Desk<D>,
    pub ends: MemberEnds,
}

/// Runs the four loops of the member that this name has.
fn work_as<
    S: Service + Send,
    P: GroupLife<S> + Send,
    M: Numbered + Sync,
    O: Sink + Send,
    D: Disk,
    E: Stops,
    K: Clock + Send,
    G: Gate + Sync,
    R: Threads + Wait + Sync,
>(
    rt: &R,
    cell: &GroupCell<S, P, O>,
    gate: &G,
    member: &MemberId,
    ended: &AtomicBool,
    clock: &Mutex<K>,
    desk: Desk<D>,
) -> Worked<D>
    requires number { member.now ≡ M.number }
    requires desk { IsDeskOf (P.lane M.number) (P.restored M.number) desk }
    requires work { MayWork D.told D.cells desk.faulty desk.store }
    ensures { WorkMade D.told D.remembers D.cells D.moment D.left_since E.stops D.faults S.meaning (P.opening M.number) (P.lane M.number) (P.restored M.number) result.ends desk result.desk }
{
    let alloc = desk.alloc;
    let name: MemberOf<M> = MemberOf::new(*member);
    let Workers {
        mut log,
        mut checker,
    } = workers_of::<D, HomeOf<S, P, M>>(desk);
    let ends = run_loops::<S, P, M, O, D, E, HomeOf<S, P, M>, K, G, R>(
        rt,
        cell,
        gate,
        &name,
        ended,
        clock,
        &mut log,
        &mut checker,
    );
    Worked {
        desk: desk_of(alloc, log, checker),
        ends,
    }
}

/// Runs the four loops of a member over its desk, each in a thread, until all have ended. The worker of the
/// log bears a name of its own, that of the member's number.
pub fn work<
    S: Service + Send,
    P: GroupLife<S> + Send,
    O: Sink + Send,
    D: Disk,
    E: Stops,
    K: Clock + Send,
    G: Gate + Sync,
    R: Threads + Wait + Sync,
>(
    rt: &R,
    cell: &GroupCell<S, P, O>,
    gate: &G,
    member: &MemberId,
    ended: &AtomicBool,
    clock: &Mutex<K>,
    desk: Desk<D>,
) -> Worked<D>
    requires desk { IsDeskOf (P.lane member.now) (P.restored member.now) desk }
    requires work { MayWork D.told D.cells desk.faulty desk.store }
    ensures { WorkMade D.told D.remembers D.cells D.moment D.left_since E.stops D.faults S.meaning (P.opening member.now) (P.lane member.now) (P.restored member.now) result.ends desk result.desk }
{
    work_as::<S, P, Brand, O, D, E, K, G, R>(rt, cell, gate, member, ended, clock, desk)
}
