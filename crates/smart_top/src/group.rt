//! The command `group`: which group its words name, and the status of its run.
ghost use Rattle.std.specs.Prelude.{◌≡◌, IfOk};
ghost use Rattle.faults.specs.Counts.{Rose};
ghost use Rattle.app_count.specs.Counts.{counting};
ghost use Rattle.command_words.specs.Ranges.{FitsGroupRun};
ghost use Rattle.member_opening.specs.Devices.{images_at};
ghost use Rattle.smart_top.specs.Groups.{AllHaveMeaning, GroupAgreed, GroupEnded, IsNamed, IsPlayed, status_by};

use crate::audit::kind_of;
use crate::node::first_view;
use clock_gate::clock::Clock;
use clock_gate::gate::Gate;
use command_words::node_words::GroupWords;
use disk_model::room::DiskRoom;
use group_opening::settings::GroupSettings;
use group_run::run::run_group;
use group_run::status::GroupStatus;
use node_rooms::trails::TrailRoom;
use script_play::status::Status;
use smart_base::sequence::Bytes;
use smart_io::stream::Sink;
use std::alloc::{AllocError, Global};
use std::sync::Wait;
use std::thread::Threads;

/// The client of a group.
const CLIENT: u16 = 1;

/// Which group words name. Error: want of memory.
#[tactic(auto, using(crate::proofs::Grouping::numbered))]
fn settings_of(alloc: Global, words: GroupWords) -> Result<GroupSettings, AllocError>
    requires { FitsGroupRun words }
    ensures { IfOk result (IsNamed words) }
{
    let GroupWords {
        group,
        period,
        turns,
        asks,
        dir,
    } = words;
    Ok(GroupSettings {
        members: u16::from(group.members),
        faulty: group.faulty,
        dir,
        secret: Bytes::from_slice(alloc, b"world")?,
        view: first_view(alloc, group)?,
        period,
        asks,
        turns,
    })
}

/// The status of the program, by that of the group.
fn status_by(status: &GroupStatus) -> Status
    ensures { result ≡ status_by status.now }
{
    match status {
        GroupStatus::Ok => Status::Ok,
        GroupStatus::Store { entry } => Status::Store { entry: *entry },
        GroupStatus::WriteFault => Status::WriteFault,
        GroupStatus::TrailFault => Status::TrailFault,
        GroupStatus::DiskFault => Status::DiskFault,
        GroupStatus::Differs(difference) => Status::Differs {
            kind: kind_of(&difference.found),
            member: difference.member,
            event: difference.event,
        },
        GroupStatus::GaveUp { polls } => Status::GaveUp {
            client: CLIENT,
            polls: *polls,
        },
        GroupStatus::NoMemory => Status::NoMemory,
    }
}

/// Runs the group that words name: its members and one client in threads, over the service that counts.
pub fn group<
    O: Sink,
    M: DiskRoom,
    T: TrailRoom,
    K: Clock + Send,
    G: Gate + Sync,
    R: Threads + Wait + Sync,
>(
    rt: &R,
    alloc: Global,
    words: GroupWords,
    output: &mut O,
    room: &mut M,
    clock: &mut K,
    trails: &mut T,
    gate: &G,
) -> Status
where
    M::Disk: Send,
    T::Sink: Send,
    requires { FitsGroupRun words }
    ensures ended { GroupEnded words (λ settings. record { meaning = counting; settings = settings; disk = M.Disk; told = M.Disk.told; remembers = M.Disk.remembers; cells = M.Disk.cells; moment = M.Disk.moment; left_since = M.Disk.left_since; images = λ member. images_at (M.cells room.old) settings.dir member; written_before = O.written output.old; written_after = O.written output.new; wants_before = O.wants output.old; wants_after = O.wants output.new; sink = T.Sink; text_of = T.Sink.written; room = record { before = M.cells room.old; after = M.cells room.new; taken_before = M.taken room.old; taken_after = M.taken room.new }; trails = record { before = T.kept trails.old; after = T.kept trails.new; taken_before = T.taken trails.old; taken_after = T.taken trails.new } }) (O.written output.old) (O.written output.new) result }
    ensures complete { M.Disk.told → AllHaveMeaning words (images_at (M.cells room.old)) → (Rose (O.faults output.old) (O.faults output.new) → ⊥) → (Rose (T.faults trails.old) (T.faults trails.new) → ⊥) → (Rose (M.faults room.old) (M.faults room.new) → ⊥) → IsPlayed result }
    ensures fresh { result ≡ Status.Ok → GroupAgreed words (λ settings. record { meaning = counting; settings = settings; disk = M.Disk; told = M.Disk.told; remembers = M.Disk.remembers; cells = M.Disk.cells; moment = M.Disk.moment; left_since = M.Disk.left_since; images = λ member. images_at (M.cells room.old) settings.dir member; written_before = O.written output.old; written_after = O.written output.new; wants_before = O.wants output.old; wants_after = O.wants output.new; sink = T.Sink; text_of = T.Sink.written; room = record { before = M.cells room.old; after = M.cells room.new; taken_before = M.taken room.old; taken_after = M.taken room.new }; trails = record { before = T.kept trails.old; after = T.kept trails.new; taken_before = T.taken trails.old; taken_after = T.taken trails.new } }) }
    ensures write { result ≡ Status.WriteFault → Rose (O.faults output.old) (O.faults output.new) }
    ensures trail { result ≡ Status.TrailFault → Rose (T.faults trails.old) (T.faults trails.new) }
    ensures disk { result ≡ Status.DiskFault → Rose (M.faults room.old) (M.faults room.new) }
    ensures words { result ≡ Status.Words → ⊥ }
    ensures read { result ≡ Status.ReadFault → ⊥ }
{
    match settings_of(alloc, words) {
        Ok(settings) => {
            let status = run_group(rt, alloc, &settings, output, room, clock, trails, gate);
            status_by(&status)
        }
        Err(_) => Status::NoMemory,
    }
}
