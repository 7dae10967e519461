//! How the parties of a group run from their seats to their ends.
ghost use Rattle.std.specs.Prelude.{◌≡◌, ◌≤◌, ◌^◌, [], ℕ, map, false, true, None};
ghost use Rattle.std.specs.List.{All};
ghost use Rattle.group_ends.specs.Journals.{has_end};
ghost use Rattle.durable_store.specs.declared.disks.Disks.{Disks};
ghost use Rattle.group_threads.specs.Desks.{IsReady};
ghost use Rattle.group_parties.specs.Courses.{end_of_play, is_cut_off, CourseMade};
ghost use Rattle.group_parties.specs.Manned.{HasDesk, HasWorked, IsWholeDesk};
ghost use Rattle.group_parties.specs.Origins.{Origin};

use crate::playing::{PlayEnd, play_on};
use client_seat::seat::ClientSeat;
use clock_gate::clock::Clock;
use clock_gate::gate::Gate;
use disk_model::disk::Disk;
use group_client::asking::ClientFault;
use group_client::turns::{ClientEnd, Task};
use group_threads::group::run_group;
use group_threads::members::{Members, Runner};
use node_course::group_life::GroupLife;
use smart_io::stream::Sink;
use smart_service::service::Service;
use std::alloc::Global;
use std::sync::atomic::AtomicBool;
use std::sync::{Mutex, Wait};
use std::thread::Threads;
use store_plan::stops::InstallsStop;

/// How the parties of a group have come to their end.
#[derive(Clone, Copy, Debug, PartialEq, Eq)]
pub enum CourseEnd {
    /// All replies were accepted.
    Done,
    /// The polls since one request were spent, and then nothing was left to happen.
    Still,
    /// Nothing more happens to a member.
    Over,
    /// The client does not go on.
    GaveUp(ClientFault),
}

/// The end of a play as one of a course.
fn course_of(end: PlayEnd) -> CourseEnd
    ensures { result ≡ end_of_play end }
{
    match end {
        PlayEnd::Done => CourseEnd::Done,
        PlayEnd::Still => CourseEnd::Still,
        PlayEnd::Over => CourseEnd::Over,
        PlayEnd::GaveUp(fault) => CourseEnd::GaveUp(fault),
    }
}

/// Whether all members have a desk at which no round has failed.
fn are_whole<S: Service, P: GroupLife<S>, O: Sink, D: Disk>(runners: &[Runner<S, P, O, D>]) -> bool
    ensures { result ≡ true → All (λ r. IsWholeDesk r.desk) runners.now }
{
    for runner in runners {
        match &runner.desk {
            Some(desk) => {
                if desk.faulty {
                    return false;
                }
            }
            None => return false,
        }
    }
    true
}

/// Runs the loops of all parties, and plays the rest if the polls since one request are spent.
pub fn run_parties<
    S: Service + Send,
    P: GroupLife<S> + Send,
    O: Sink + Send,
    W: Sink,
    D: Disk + Send,
    K: Clock + Send,
    G: Gate + Sync,
    R: Threads + Wait + Sync,
>(
    rt: &R,
    alloc: Global,
    gate: &G,
    clock: &Mutex<K>,
    task: &Task,
    client: &mut ClientSeat<P, O>,
    output: &mut W,
    members: &mut Members<S, P, O, D>,
) -> CourseEnd
    requires ready { All (λ r. IsReady D.told D.cells (P.lane r.member) (P.restored r.member) r.desk) members.old.runners.items }
    requires fresh { (client.old.over ≡ false) × ((client.old.pending ≡ None) × ((client.old.journal.events.items ≡ []) × (client.old.client.last ≡ 0))) }
    requires turns { task.now.turns ≤ 2 ^ 63 }
    ensures since { (origins : ℕ → Origin) → All (λ r. HasDesk D.told D.remembers D.cells D.moment D.left_since S.meaning (origins r.member) (P.lane r.member) (P.opening r.member) (P.restored r.member) r.desk) members.old.runners.items → All (λ r. HasDesk D.told D.remembers D.cells D.moment D.left_since S.meaning (origins r.member) (P.lane r.member) (P.opening r.member) (P.restored r.member) r.desk) members.new.runners.items }
    ensures worked { (begun : ℕ → Disks D) → All (λ r. HasWorked D.faults (begun r.member) r.ends r.desk) members.old.runners.items → All (λ r. HasWorked D.faults (begun r.member) r.ends r.desk) members.new.runners.items }
    ensures same { map (λ r. r.member) members.new.runners.items ≡ map (λ r. r.member) members.old.runners.items }
    ensures going { is_cut_off result ≡ false → client.new.over ≡ false }
    ensures open { has_end client.new.journal.events.items ≡ false }
    ensures trail { result ≡ CourseEnd.GaveUp ClientFault.Trail → client.new.journal.failed ≡ true }
    // What the run leaves of the client.
    ensures made { CourseMade (P.head 0) task.now.asks task.now.turns result client.new.client client.new.journal.events.items (record { written = W.written output.old; faults = W.faults output.old; wants = W.wants output.old }) (record { written = W.written output.new; faults = W.faults output.new; wants = W.wants output.new }) }
{
    let flag = AtomicBool::new(false);
    let ended = &flag;
    let end = run_group::<S, P, O, P, O, W, D, InstallsStop, K, G, R>(
        rt, &alloc, gate, ended, clock, task, client, output, members,
    );
    match end {
        ClientEnd::Done => CourseEnd::Done,
        ClientEnd::Over => CourseEnd::Over,
        ClientEnd::GaveUp(fault) => CourseEnd::GaveUp(fault),
        ClientEnd::Spent => {
            if client.tell_polls().is_err() {
                return CourseEnd::GaveUp(ClientFault::NoMemory);
            }
            if !are_whole::<S, P, O, D>(members.runners.as_slice()) {
                return CourseEnd::Over;
            }
            course_of(play_on(rt, alloc, gate, task, client, output, &mut members.runners))
        }
    }
}
