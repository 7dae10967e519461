//! How the loops of a node run, each in a thread of its own, and are joined.
ghost use Rattle.std.specs.Prelude.{◌≡◌, ◌≤◌, ◌-◌, ◌+◌, ◌^◌, ℕ, false, min, length, not};
ghost use Rattle.std.specs.Io.KnownBytes.{IsAtEnd};
ghost use denote.Param.Send.{IsSend};
ghost use Rattle.faults.specs.Counts.{Rose};
ghost use Rattle.durable_store.specs.Disks.{NoneFell, DiskRose};
ghost use Rattle.durable_store.specs.Stores.{state_of, Stands};
ghost use Rattle.log_lane.specs.Lane.{lane_taken, lane_raised};
ghost use Rattle.group_links.specs.Link.{in_link, out_link};
ghost use Rattle.node_ends.specs.Intakes.{Reads, IsDone, IsCutOff};
ghost use Rattle.node_ends.specs.Outlets.{Writes};
ghost use Rattle.node_endings.specs.Loops.{gave_up, loses};
ghost use Rattle.node_endings.specs.Rounds.{RoundsOf};
ghost use Rattle.node_threads.specs.Works.{MayWork, ReadMade, WorkMade, WriteMade};

use check_worker::worker::CheckWorker;
use clock_gate::clock::Clock;
use clock_gate::gate::Gate;
use disk_model::disk::Disk;
use log_worker::home::Home;
use log_worker::worker::LogWorker;
use node_endings::ending::{Ends, LoopEnd};
use node_ends::intake::Intake;
use node_ends::outlet::Outlet;
use node_loops::loops::{check_loop, deliver_loop, log_loop, receive_loop, send_loop};
use node_seat::place::Place;
use node_seat::seat::NodeCell;
use smart_base::name::MemberId;
use smart_io::stream::{Sink, Source};
use smart_service::service::Service;
use std::sync::Wait;
use std::sync::atomic::AtomicBool;
use std::thread::{Threads, join_mut};
use store_plan::stops::Stops;

/// Why the loops ended that read the input and step the core.
struct InEnds {
    received: LoopEnd,
    delivered: LoopEnd,
}

/// Why the loops ended that work on the log.
struct WorkEnds {
    logged: LoopEnd,
    checked: LoopEnd,
}

/// Why the loops ended that let messages leave and work on the log.
struct OutEnds {
    sent: LoopEnd,
    work: WorkEnds,
}

/// Reads the input in one thread, and steps the core in this one.
fn read_and_step<
    S: Service + Send,
    P: Place<S> + Send,
    O: Sink + Send,
    I: Source + Send,
    K: Clock,
    G: Gate + Sync,
    R: Threads + Wait + Sync,
>(
    rt: &R,
    cell: &NodeCell<S, P, O>,
    gate: &G,
    member: &MemberId,
    quiet: &AtomicBool,
    input: &mut I,
    intake: &mut Intake,
    clock: &mut K,
) -> InEnds
    ensures made { ReadMade (I.left input.old) (I.left input.new) (I.faults input.old) (I.faults input.new) result.received intake.old intake.new }
    ensures delivered { gave_up result.delivered ≡ false }
{
    let (received, delivered) = join_mut(
        rt,
        &mut || receive_loop(rt, cell, gate, member, quiet, input, intake),
        &mut || deliver_loop(rt, cell, gate, member, quiet, clock),
    );
    InEnds {
        received,
        delivered,
    }
}

/// Makes the rounds of both workers, those of the log in this thread.
fn log_and_check<
    S: Service + Send,
    P: Place<S> + Send,
    O: Sink + Send,
    D: Disk,
    E: Stops,
    H: Home,
    G: Gate + Sync,
    R: Threads + Wait + Sync,
>(
    rt: &R,
    cell: &NodeCell<S, P, O>,
    gate: &G,
    member: &MemberId,
    quiet: &AtomicBool,
    worker: &mut LogWorker<D, H>,
    checker: &mut CheckWorker,
) -> WorkEnds
    requires work { MayWork D.told D.cells worker.old.faulty worker.old.store }
    ensures made { WorkMade D.faults H.restored result.logged worker.new.faulty (lane_taken worker.new.lane) (lane_raised worker.new.lane) worker.old.store worker.new.store }
    ensures rounds { RoundsOf D.told D.remembers D.cells D.moment D.left_since E.stops S.meaning P.opening H.restored worker.new.faulty (lane_taken worker.old.lane) (lane_taken worker.new.lane) worker.old.store worker.new.store }
    ensures rises { checker.old.last ≤ checker.new.last }
    ensures no_disk { result.checked ≡ LoopEnd.Failed → ⊥ }
{
    let (checked, logged) = join_mut(
        rt,
        &mut || check_loop(rt, cell, gate, member, quiet, checker),
        &mut || log_loop::<S, P, O, D, E, H, G, R>(rt, cell, gate, member, quiet, worker),
    );
    WorkEnds { logged, checked }
}

/// Lets messages leave in one thread, beside the workers.
fn send_and_work<
    S: Service + Send,
    P: Place<S> + Send,
    O: Sink + Send,
    W: Sink + Send,
    D: Disk,
    E: Stops,
    H: Home,
    G: Gate + Sync,
    R: Threads + Wait + Sync,
>(
    rt: &R,
    cell: &NodeCell<S, P, O>,
    gate: &G,
    member: &MemberId,
    quiet: &AtomicBool,
    output: &mut W,
    outlet: &mut Outlet,
    worker: &mut LogWorker<D, H>,
    checker: &mut CheckWorker,
) -> OutEnds
    requires work { MayWork D.told D.cells worker.old.faulty worker.old.store }
    ensures written { WriteMade (W.written output.old) (W.written output.new) (W.faults output.old) (W.faults output.new) result.sent outlet.old outlet.new }
    ensures made { WorkMade D.faults H.restored result.work.logged worker.new.faulty (lane_taken worker.new.lane) (lane_raised worker.new.lane) worker.old.store worker.new.store }
    ensures rounds { RoundsOf D.told D.remembers D.cells D.moment D.left_since E.stops S.meaning P.opening H.restored worker.new.faulty (lane_taken worker.old.lane) (lane_taken worker.new.lane) worker.old.store worker.new.store }
    ensures checked { result.work.checked ≡ LoopEnd.Failed → ⊥ }
{
    let (sent, work) = join_mut(
        rt,
        &mut || send_loop(rt, cell, gate, member, quiet, output, outlet),
        &mut || -> WorkEnds
            requires { IsSend S.row × (IsSend P.row × (IsSend O.row × MayWork D.told D.cells worker.now.faulty worker.now.store)) }
        { log_and_check::<S, P, O, D, E, H, G, R>(rt, cell, gate, member, quiet, worker, checker) },
    );
    OutEnds { sent, work }
}

/// Runs all five loops until they have ended: those at the input in one thread, the others in this one.
fn join_all<
    S: Service + Send,
    P: Place<S> + Send,
    O: Sink + Send,
    I: Source + Send,
    K: Clock + Send,
    W: Sink + Send,
    D: Disk,
    E: Stops,
    H: Home,
    G: Gate + Sync,
    R: Threads + Wait + Sync,
>(
    rt: &R,
    cell: &NodeCell<S, P, O>,
    gate: &G,
    member: &MemberId,
    quiet: &AtomicBool,
    input: &mut I,
    intake: &mut Intake,
    clock: &mut K,
    output: &mut W,
    outlet: &mut Outlet,
    worker: &mut LogWorker<D, H>,
    checker: &mut CheckWorker,
) -> Ends
    requires work { MayWork D.told D.cells worker.old.faulty worker.old.store }
    ensures read { ReadMade (I.left input.old) (I.left input.new) (I.faults input.old) (I.faults input.new) result.received intake.old intake.new }
    ensures delivered { gave_up result.delivered ≡ false }
    ensures written { WriteMade (W.written output.old) (W.written output.new) (W.faults output.old) (W.faults output.new) result.sent outlet.old outlet.new }
    ensures made { WorkMade D.faults H.restored result.logged worker.new.faulty (lane_taken worker.new.lane) (lane_raised worker.new.lane) worker.old.store worker.new.store }
    ensures rounds { RoundsOf D.told D.remembers D.cells D.moment D.left_since E.stops S.meaning P.opening H.restored worker.new.faulty (lane_taken worker.old.lane) (lane_taken worker.new.lane) worker.old.store worker.new.store }
    ensures checked { result.checked ≡ LoopEnd.Failed → ⊥ }
{
    let (came, left) = join_mut(
        rt,
        &mut || -> InEnds
            requires { IsSend S.row × (IsSend P.row × (IsSend O.row × IsSend I.row)) }
        {
            read_and_step::<S, P, O, I, K, G, R>(
                rt, cell, gate, member, quiet, input, intake, clock,
            )
        },
        &mut || -> OutEnds
            requires { IsSend S.row × (IsSend P.row × (IsSend O.row × (IsSend W.row × MayWork D.told D.cells worker.now.faulty worker.now.store))) }
        {
            send_and_work::<S, P, O, W, D, E, H, G, R>(
                rt, cell, gate, member, quiet, output, outlet, worker, checker,
            )
        },
    );
    let InEnds {
        received,
        delivered,
    } = came;
    let OutEnds { sent, work } = left;
    let WorkEnds { logged, checked } = work;
    Ends {
        received,
        delivered,
        sent,
        logged,
        checked,
    }
}

/// Runs the five loops of a node, each in a thread, until all have ended.
pub fn run_loops<
    S: Service + Send,
    P: Place<S> + Send,
    O: Sink + Send,
    I: Source + Send,
    K: Clock + Send,
    W: Sink + Send,
    D: Disk,
    E: Stops,
    H: Home,
    G: Gate + Sync,
    R: Threads + Wait + Sync,
>(
    rt: &R,
    cell: &NodeCell<S, P, O>,
    gate: &G,
    member: &MemberId,
    quiet: &AtomicBool,
    input: &mut I,
    intake: &mut Intake,
    clock: &mut K,
    output: &mut W,
    outlet: &mut Outlet,
    worker: &mut LogWorker<D, H>,
    checker: &mut CheckWorker,
) -> Ends
    requires whole { worker.old.faulty ≡ false }
    requires sound { D.told → Stands (state_of D.cells worker.old.store) }
    ensures links { (in_link intake.new.link ≡ in_link intake.old.link) × (out_link outlet.new.link ≡ out_link outlet.old.link) }
    ensures reads { Reads (I.left input.old) (I.left input.new) (loses result.received) intake.old intake.new }
    ensures whole { result.received ≡ LoopEnd.Done → IsAtEnd (I.left input.new) × IsDone intake.new }
    ensures form { (frame : ℕ) → result.received ≡ LoopEnd.Form frame → (frame ≡ min (intake.new.count + 1) (2 ^ 64 - 1)) × IsCutOff (I.left input.new) intake.new }
    ensures received { result.received ≡ LoopEnd.Failed → Rose (I.faults input.old) (I.faults input.new) }
    ensures delivered { gave_up result.delivered ≡ false }
    ensures wrote { Writes (W.written output.old) (W.written output.new) (not (gave_up result.sent)) outlet.old outlet.new }
    ensures sent { result.sent ≡ LoopEnd.Failed → Rose (W.faults output.old) (W.faults output.new) }
    ensures rose { worker.old.store.plan.firm ≤ worker.new.store.plan.firm }
    ensures raised { result.logged ≡ LoopEnd.Done → min (worker.new.store.plan.firm - H.restored) (length (lane_taken worker.new.lane)) ≤ lane_raised worker.new.lane }
    ensures well { result.logged ≡ LoopEnd.Done → worker.new.faulty ≡ false }
    ensures logged { result.logged ≡ LoopEnd.Failed → DiskRose D.faults worker.old.store.disks worker.new.store.disks }
    // The worker is the one before, after some rounds.
    ensures rounds { RoundsOf D.told D.remembers D.cells D.moment D.left_since E.stops S.meaning P.opening H.restored worker.new.faulty (lane_taken worker.old.lane) (lane_taken worker.new.lane) worker.old.store worker.new.store }
    ensures checked { result.checked ≡ LoopEnd.Failed → ⊥ }
    ensures later { (I.faults input.old ≤ I.faults input.new) × ((W.faults output.old ≤ W.faults output.new) × NoneFell D.faults worker.old.store.disks worker.new.store.disks) }
{
    join_all::<S, P, O, I, K, W, D, E, H, G, R>(
        rt, cell, gate, member, quiet, input, intake, clock, output, outlet, worker, checker,
    )
}
