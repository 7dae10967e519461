//! The five loops of a node. Each ends once nothing more happens to the node, or once it has done all that
//! was due at the end of the input.
ghost use Rattle.std.specs.Prelude.{◌≡◌, ◌≤◌, ◌-◌, false, min, length, not};
ghost use Rattle.std.specs.Io.KnownBytes.{IsAtEnd};
ghost use Rattle.faults.specs.Counts.{Rose};
ghost use Rattle.durable_store.specs.Disks.{NoneFell};
ghost use Rattle.durable_store.specs.Stores.{state_of, Stands};
ghost use Rattle.log_lane.specs.Lane.{lane_taken, lane_raised};
ghost use Rattle.group_links.specs.Link.{in_link, out_link, link_taken, link_heard_put};
ghost use Rattle.queue_ends.specs.Rule.{IsFront};
ghost use Rattle.node_ends.specs.Intakes.{Reads, IsDone};
ghost use Rattle.node_ends.specs.Outlets.{Writes};
ghost use Rattle.node_endings.specs.Loops.{gave_up, loses, FailsByDisk, EndsByForm};
ghost use Rattle.node_endings.specs.Rounds.{RoundsOf};

use crate::cell::CellOf;
use crate::steps::both;
use check_worker::worker::CheckWorker;
use clock_gate::clock::Clock;
use clock_gate::gate::Gate;
use disk_model::disk::Disk;
use log_worker::home::Home;
use log_worker::worker::LogWorker;
use node_endings::ending::{LoopEnd, end_of_input, end_of_output, end_of_work};
use node_ends::intake::{InputEnd, Intake};
use node_ends::outlet::Outlet;
use node_ends::waits::Pulse;
use node_ends::watch::Watch;
use node_seat::place::Place;
use node_seat::seat::NodeCell;
use node_seat::turns::Turn;
use smart_base::name::MemberId;
use smart_io::stream::{Sink, Source};
use smart_service::service::Service;
use std::sync::Wait;
use std::sync::atomic::{AtomicBool, Ordering};
use std::thread;
use store_plan::stops::Stops;

/// Reads an input, and puts its messages on the link to the seat.
pub fn receive_loop<S: Service, P: Place<S>, O: Sink, I: Source, G: Gate, R: Wait>(
    rt: &R,
    cell: &NodeCell<S, P, O>,
    gate: &G,
    member: &MemberId,
    quiet: &AtomicBool,
    input: &mut I,
    intake: &mut Intake,
) -> LoopEnd
    ensures link { in_link intake.new.link ≡ in_link intake.old.link }
    ensures reads { Reads (I.left input.old) (I.left input.new) (loses result) intake.old intake.new }
    ensures whole { result ≡ LoopEnd.Done → IsAtEnd (I.left input.new) × IsDone intake.new }
    ensures form { EndsByForm result (I.left input.new) intake.new }
    ensures cause { result ≡ LoopEnd.Failed → Rose (I.faults input.old) (I.faults input.new) }
    ensures later { I.faults input.old ≤ I.faults input.new }
{
    let mut node = CellOf {
        rt,
        cell,
        gate,
        member: *member,
        quiet,
    };
    let end = intake.take_all(rt, &mut node, input);
    match end {
        Some(InputEnd::Whole) => node.close(),
        Some(_) => node.stop(),
        None => {}
    }
    end_of_input(end)
}

/// Steps a core until the input is at its end and each message of it was played. Says whether that came
/// before the end of the node.
fn play_all<S: Service, P: Place<S>, O: Sink, K: Clock, G: Gate, R: Wait>(
    node: &CellOf<'_, S, P, O, G, R>,
    clock: &mut K,
) -> bool {
    let mut pulse = Pulse::begin(clock);
    for _ in node.rt.forever() {
        let is_closing = node.is_closing();
        let first = node.advance();
        let next = node.listen(&mut pulse, clock);
        match both(first, next) {
            Turn::Over => return false,
            Turn::Done => {}
            Turn::NoRoom | Turn::Nothing => thread::yield_now(),
        }
        if is_closing && next == Turn::Nothing {
            return true;
        }
    }
    unreachable!()
}

/// Steps a core until all its entries are firm and no batch waits. Says whether that came before the end
/// of the node.
fn play_rest<S: Service, P: Place<S>, O: Sink, G: Gate, R: Wait>(
    node: &CellOf<'_, S, P, O, G, R>,
) -> bool {
    for _ in node.rt.forever() {
        match node.advance() {
            Turn::Over => return false,
            Turn::Done => {}
            Turn::NoRoom => thread::yield_now(),
            Turn::Nothing => {
                if node.rests() {
                    return true;
                }
                thread::yield_now();
            }
        }
    }
    unreachable!()
}

/// Steps the core: what the lane tells, the batch that waits, a tick that is due, the next arrival. Says
/// when all is done that was due at the end of the input.
pub fn deliver_loop<S: Service, P: Place<S>, O: Sink, K: Clock, G: Gate, R: Wait>(
    rt: &R,
    cell: &NodeCell<S, P, O>,
    gate: &G,
    member: &MemberId,
    quiet: &AtomicBool,
    clock: &mut K,
) -> LoopEnd
    ensures ends { gave_up result ≡ false }
{
    let node = CellOf {
        rt,
        cell,
        gate,
        member: *member,
        quiet,
    };
    if !play_all(&node, clock) || !play_rest(&node) {
        return LoopEnd::Over;
    }
    quiet.store(true, Ordering::SeqCst);
    LoopEnd::Done
}

/// Lets messages go, and writes them as frames.
pub fn send_loop<S: Service, P: Place<S>, O: Sink, W: Sink, G: Gate, R: Wait>(
    rt: &R,
    cell: &NodeCell<S, P, O>,
    gate: &G,
    member: &MemberId,
    quiet: &AtomicBool,
    output: &mut W,
    outlet: &mut Outlet,
) -> LoopEnd
    ensures link { out_link outlet.new.link ≡ out_link outlet.old.link }
    ensures heard { link_heard_put outlet.new.link ≡ link_heard_put outlet.old.link }
    ensures wrote { Writes (W.written output.old) (W.written output.new) (not (gave_up result)) outlet.old outlet.new }
    ensures nothing { gave_up result ≡ false → IsFront (link_heard_put outlet.old.link) (link_taken outlet.new.link) }
    ensures cause { result ≡ LoopEnd.Failed → Rose (W.faults output.old) (W.faults output.new) }
    ensures later { W.faults output.old ≤ W.faults output.new }
{
    let mut node = CellOf {
        rt,
        cell,
        gate,
        member: *member,
        quiet,
    };
    match outlet.give_all(rt, &mut node, output) {
        Ok(()) => {
            if node.is_over() {
                LoopEnd::Over
            } else {
                LoopEnd::Done
            }
        }
        Err(end) => {
            node.stop();
            end_of_output(end)
        }
    }
}

/// Makes the rounds of the worker of the log.
pub fn log_loop<S: Service, P: Place<S>, O: Sink, D: Disk, E: Stops, H: Home, G: Gate, R: Wait>(
    rt: &R,
    cell: &NodeCell<S, P, O>,
    gate: &G,
    member: &MemberId,
    quiet: &AtomicBool,
    worker: &mut LogWorker<D, H>,
) -> LoopEnd
    requires whole { worker.old.faulty ≡ false }
    requires sound { D.told → Stands (state_of D.cells worker.old.store) }
    ensures rose { worker.old.store.plan.firm ≤ worker.new.store.plan.firm }
    // All that is firm and was taken is said to be stored.
    ensures raised { result ≡ LoopEnd.Done → min (worker.new.store.plan.firm - H.restored) (length (lane_taken worker.new.lane)) ≤ lane_raised worker.new.lane }
    // A loop is done only after a round that went well.
    ensures well { result ≡ LoopEnd.Done → worker.new.faulty ≡ false }
    ensures cause { FailsByDisk result D.faults worker.old.store.disks worker.new.store.disks }
    ensures later { NoneFell D.faults worker.old.store.disks worker.new.store.disks }
    // The worker is the one before, after some rounds.
    ensures rounds { RoundsOf D.told D.remembers D.cells D.moment D.left_since E.stops S.meaning P.opening H.restored worker.new.faulty (lane_taken worker.old.lane) (lane_taken worker.new.lane) worker.old.store worker.new.store }
{
    let mut node = CellOf {
        rt,
        cell,
        gate,
        member: *member,
        quiet,
    };
    for _ in rt.forever() {
        let is_last_round = node.is_quiet();
        if node.is_over() {
            return LoopEnd::Over;
        }
        if let Err(fault) = worker.round::<CellOf<'_, S, P, O, G, R>, E, R>(rt, &mut node) {
            node.stop();
            return end_of_work(fault);
        }
        if is_last_round {
            return LoopEnd::Done;
        }
        thread::yield_now();
    }
    unreachable!()
}

/// Makes a round of the worker of checkpoints, if a later snapshot is wanted than the last one. A round
/// copies the snapshot, so it is made for a later one alone. Says whether there was memory for it.
#[tactic(auto, using(node_endings::proofs::Ends::last_up))]
fn check_once<S: Service, P: Place<S>, O: Sink, G: Gate, R: Wait>(
    node: &mut CellOf<'_, S, P, O, G, R>,
    checker: &mut CheckWorker,
) -> bool
    ensures { checker.old.last ≤ checker.new.last }
{
    if node.place_wanted() <= checker.last() {
        return true;
    }
    match checker.round(node) {
        Ok(_) => true,
        Err(_) => {
            node.stop();
            false
        }
    }
}

/// Makes the rounds of the worker of checkpoints.
pub fn check_loop<S: Service, P: Place<S>, O: Sink, G: Gate, R: Wait>(
    rt: &R,
    cell: &NodeCell<S, P, O>,
    gate: &G,
    member: &MemberId,
    quiet: &AtomicBool,
    checker: &mut CheckWorker,
) -> LoopEnd
    ensures rises { checker.old.last ≤ checker.new.last }
    ensures cause { result ≡ LoopEnd.Failed → ⊥ }
{
    let mut node = CellOf {
        rt,
        cell,
        gate,
        member: *member,
        quiet,
    };
    for _ in rt.forever() {
        let is_last = node.is_quiet();
        if node.is_over() {
            return LoopEnd::Over;
        }
        if !check_once(&mut node, checker) {
            return LoopEnd::NoMemory;
        }
        if is_last {
            return LoopEnd::Done;
        }
        thread::yield_now();
    }
    unreachable!()
}
