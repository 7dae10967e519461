//! How a whole group runs: the loops of all members, and that of the client beside them.
ghost use Rattle.std.specs.Prelude.{◌≡◌, ◌≤◌, ◌<◌, ℕ, slice_index_or, vec_len, false, None};
ghost use Rattle.std.specs.List.{All};
ghost use Rattle.std.specs.Fork.{AcceptsEach, ChangesEach};
ghost use Rattle.std.specs.Thread.{IsSync};
ghost use denote.Param.Send.{IsSend};
ghost use Rattle.group_ends.specs.Journals.{has_end};
ghost use Rattle.group_ends.specs.Ports.{heard_puts};
ghost use Rattle.group_client.specs.Amounts.{amounts, asked_in};
ghost use Rattle.group_client.specs.Loops.{LoopMade};
ghost use Rattle.group_threads.specs.Desks.{IsReady, IsLeft};

use crate::members::{Members, Runner, run_member};
use client_seat::seat::ClientSeat;
use clock_gate::clock::Clock;
use clock_gate::gate::Gate;
use disk_model::disk::Disk;
use group_client::turns::{ClientEnd, Task, client_loop};
use group_ends::owner::Owner;
use node_course::group_life::GroupLife;
use smart_io::stream::Sink;
use smart_service::service::Service;
use std::alloc::Global;
use std::sync::atomic::AtomicBool;
use std::sync::{Mutex, Wait};
use std::thread;
use std::thread::{Threads, join_mut};
use store_plan::stops::Stops;

/// Makes the turns of the client. The allocator comes by reference, as closures that are joined capture
/// references alone.
fn ask_all<Q: Owner, V: Sink, W: Sink, R: Wait>(
    rt: &R,
    alloc: &Global,
    ended: &AtomicBool,
    task: &Task,
    client: &mut ClientSeat<Q, V>,
    output: &mut W,
) -> ClientEnd
    requires whole { client.old.over ≡ false }
    requires played { client.old.pending ≡ None }
    requires open { has_end client.old.journal.events.items ≡ false }
    requires asked { asked_in client.old.journal.events.items ≡ amounts client.old.client.last }
    requires few { client.old.client.last ≤ task.now.asks }
    // What the client's loop leaves.
    ensures made { LoopMade (Q.head 0) task.now.asks task.now.turns result client.old.journal.events.items client.new.journal.events.items client.new.client client.new.over client.new.pending client.new.idle client.new.journal.failed (record { written = W.written output.old; faults = W.faults output.old; wants = W.wants output.old }) (record { written = W.written output.new; faults = W.faults output.new; wants = W.wants output.new }) }
    ensures heard { heard_puts client.new.inbox.links.items ≡ heard_puts client.old.inbox.links.items }
{
    client_loop(rt, *alloc, ended, task, client, output)
}

/// Runs each of several, all in threads of their own, until all have ended.
fn run_each<T: Send, F: Fn(usize, &mut T) + Sync, R: Threads + Sync>(
    rt: &R,
    run: &F,
    runners: &mut Vec<T>,
)
    requires accepts { AcceptsEach F.Fn run.now runners.old.items }
    ensures each { ChangesEach F.Fn run.now runners.old.items runners.new.items }
    ensures many { vec_len runners.new ≡ vec_len runners.old }
{
    let threads = runners.len().max(1);
    thread::for_each_mut(rt, runners.as_mut_slice(), threads, run);
}

/// Runs each of several, all in threads of their own, and the client's loop in this one, until all have
/// ended. What runs is of one type parameter, since closures that are joined borrow of no type with more
/// than two. It stands in a list, since nothing is known of what such a closure leaves in a slice.
fn run_beside<
    T: Send,
    F: Fn(usize, &mut T) + Sync,
    Q: Owner,
    V: Sink,
    W: Sink,
    R: Threads + Wait + Sync,
>(
    rt: &R,
    alloc: &Global,
    ended: &AtomicBool,
    task: &Task,
    client: &mut ClientSeat<Q, V>,
    output: &mut W,
    run: &F,
    runners: &mut Vec<T>,
) -> ClientEnd
    requires accepts { AcceptsEach F.Fn run.now runners.old.items }
    requires whole { client.old.over ≡ false }
    requires played { client.old.pending ≡ None }
    requires open { has_end client.old.journal.events.items ≡ false }
    requires asked { asked_in client.old.journal.events.items ≡ amounts client.old.client.last }
    requires few { client.old.client.last ≤ task.now.asks }
    ensures each { ChangesEach F.Fn run.now runners.old.items runners.new.items }
    ensures many { vec_len runners.new ≡ vec_len runners.old }
    // What the client's loop leaves.
    ensures made { LoopMade (Q.head 0) task.now.asks task.now.turns result client.old.journal.events.items client.new.journal.events.items client.new.client client.new.over client.new.pending client.new.idle client.new.journal.failed (record { written = W.written output.old; faults = W.faults output.old; wants = W.wants output.old }) (record { written = W.written output.new; faults = W.faults output.new; wants = W.wants output.new }) }
    ensures heard { heard_puts client.new.inbox.links.items ≡ heard_puts client.old.inbox.links.items }
{
    let ((), end) = join_mut(
        rt,
        &mut ||
            requires { IsSync R.row × (IsSync F.row × (IsSend T.row × AcceptsEach F.Fn run.now runners.now.items)) }
            ensures { ChangesEach F.Fn run.entry.now runners.entry.now.items runners.exit.now.items × (vec_len runners.exit.now ≡ vec_len runners.entry.now) }
        { run_each(rt, run, runners) },
        &mut || ask_all(rt, alloc, ended, task, client, output),
    );
    end
}

/// Runs the loops of all members, each in a thread, and that of the client in this one, until all have
/// ended. A lock has the clock, which all members ask. `ended` tells whether they are to end. The client's
/// seat may bear another name than those of the members.
pub fn run_group<
    S: Service + Send,
    P: GroupLife<S> + Send,
    O: Sink + Send,
    Q: Owner,
    V: Sink,
    W: Sink,
    D: Disk + Send,
    E: Stops + Send,
    K: Clock + Send,
    G: Gate + Sync,
    R: Threads + Wait + Sync,
>(
    rt: &R,
    alloc: &Global,
    gate: &G,
    ended: &AtomicBool,
    clock: &Mutex<K>,
    task: &Task,
    client: &mut ClientSeat<Q, V>,
    output: &mut W,
    members: &mut Members<S, P, O, D>,
) -> ClientEnd
    requires ready { All (λ r. IsReady D.told D.cells (P.lane r.member) (P.restored r.member) r.desk) members.old.runners.items }
    requires whole { client.old.over ≡ false }
    requires played { client.old.pending ≡ None }
    requires open { has_end client.old.journal.events.items ≡ false }
    requires asked { asked_in client.old.journal.events.items ≡ amounts client.old.client.last }
    requires few { client.old.client.last ≤ task.now.asks }
    ensures many { vec_len members.new.runners ≡ vec_len members.old.runners }
    ensures left { (i : ℕ) (d : _) → i < vec_len members.old.runners → let old = slice_index_or members.old.runners.items i d in let new = slice_index_or members.new.runners.items i d in IsLeft D.told D.remembers D.cells D.moment D.left_since E.stops D.faults S.meaning (P.opening old.member) (P.lane old.member) (P.restored old.member) new.ends old.desk new.desk }
    ensures same { (i : ℕ) (d : _) → i < vec_len members.old.runners → (slice_index_or members.new.runners.items i d).member ≡ (slice_index_or members.old.runners.items i d).member }
    // What the client's loop leaves.
    ensures made { LoopMade (Q.head 0) task.now.asks task.now.turns result client.old.journal.events.items client.new.journal.events.items client.new.client client.new.over client.new.pending client.new.idle client.new.journal.failed (record { written = W.written output.old; faults = W.faults output.old; wants = W.wants output.old }) (record { written = W.written output.new; faults = W.faults output.new; wants = W.wants output.new }) }
    ensures heard { heard_puts client.new.inbox.links.items ≡ heard_puts client.old.inbox.links.items }
{
    run_beside(
        rt,
        alloc,
        ended,
        task,
        client,
        output,
        &|_index: usize, runner: &mut Runner<S, P, O, D>|
            requires { IsReady D.told D.cells (P.lane runner.now.member) (P.restored runner.now.member) runner.now.desk }
            ensures { IsLeft D.told D.remembers D.cells D.moment D.left_since E.stops D.faults S.meaning (P.opening runner.entry.now.member) (P.lane runner.entry.now.member) (P.restored runner.entry.now.member) runner.exit.now.ends runner.entry.now.desk runner.exit.now.desk × (runner.exit.now.member ≡ runner.entry.now.member) }
        { run_member::<S, P, O, D, E, K, G, R>(rt, gate, ended, clock, runner) },
        &mut members.runners,
    )
}
