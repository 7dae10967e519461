//! The command `node`: what its words name, and the status of its run.
ghost use Rattle.std.specs.Prelude.{◌≡◌, ◌≤◌, ◌⊎◌, IfOk};
ghost use Rattle.faults.specs.Counts.{Rose};
ghost use Rattle.app_kv.specs.Snapshots.{keeping};
ghost use Rattle.world_rules.specs.Scripts.{members_from};
ghost use Rattle.command_words.specs.Ranges.{FitsGroup, FitsNode};
ghost use Rattle.member_opening.specs.Devices.{images_at};
ghost use Rattle.smart_top.specs.Nodes.{HaveMeaning, IsFrames, NodeEnd, first_view, settings_of, status_by};

use app_kv::KeyValueStore;
use clock_gate::clock::Clock;
use clock_gate::gate::Gate;
use command_words::node_words::{GroupSize, NodeWords};
use disk_model::room::DiskRoom;
use member_opening::settings::Settings;
use node_rooms::trails::TrailRoom;
use node_run::member::run_member;
use node_run::status::NodeStatus;
use script_play::status::Status;
use smart_base::name::MemberId;
use smart_base::number::ViewNo;
use smart_base::sequence::Sequence;
use smart_base::view::View;
use smart_io::stream::{Sink, Source};
use std::alloc::{AllocError, Global};
use std::sync::Wait;
use std::thread::Threads;
use trail::opening::App;
use world_rules::line::Kind;

/// Members 1 to count. Error: want of memory.
#[tactic(auto, using(world_script::proofs::Members::members_more, world_script::proofs::Members::members_none))]
fn first_members(alloc: Global, count: u16) -> Result<Sequence<MemberId>, AllocError>
    requires { count ≤ 31 }
    ensures { IfOk result (λ members. members ≡ members_from 1 count) }
{
    let mut members = Sequence::new(alloc);
    for i in 0..count {
        members.push(MemberId::new(i + 1))?;
    }
    Ok(members)
}

/// The first view of a group. Error: want of memory.
#[tactic(auto, using(world_script::proofs::Members::first_view))]
pub(crate) fn first_view(alloc: Global, group: GroupSize) -> Result<View, AllocError>
    requires { FitsGroup group }
    ensures { IfOk result (λ view. view ≡ first_view group) }
{
    let members = first_members(alloc, u16::from(group.members))?;
    Ok(View::new(ViewNo::new(0), 1, group.faulty, members))
}

/// Which node words name. Error: want of memory.
fn settings_of(alloc: Global, words: NodeWords) -> Result<Settings, AllocError>
    requires { FitsNode words }
    ensures { IfOk result (λ settings. settings ≡ settings_of words) }
{
    let NodeWords {
        id,
        dir,
        secret,
        group,
        period,
    } = words;
    Ok(Settings {
        member: MemberId::new(id),
        dir,
        secret,
        view: first_view(alloc, group)?,
        period,
        app: App::Kv,
    })
}

/// The status of the program, by that of the node.
fn status_by(status: NodeStatus) -> Status
    ensures { result ≡ status_by status }
{
    match status {
        NodeStatus::Ok => Status::Ok,
        NodeStatus::Form { frame } => Status::Script {
            line: frame,
            kind: Kind::Form,
        },
        NodeStatus::Store { entry } => Status::Store { entry },
        NodeStatus::ReadFault => Status::ReadFault,
        NodeStatus::WriteFault => Status::WriteFault,
        NodeStatus::TrailFault => Status::TrailFault,
        NodeStatus::DiskFault => Status::DiskFault,
        NodeStatus::NoMemory => Status::NoMemory,
    }
}

/// Runs the node that words name, over values by keys.
pub fn node<
    I: Source + Send,
    O: Sink + Send,
    M: DiskRoom,
    T: TrailRoom,
    K: Clock + Send,
    G: Gate + Sync,
    R: Threads + Wait + Sync,
>(
    rt: &R,
    alloc: Global,
    words: NodeWords,
    input: &mut I,
    output: &mut O,
    room: &mut M,
    clock: &mut K,
    trails: &mut T,
    gate: &G,
) -> Status
where
    M::Disk: Send,
    T::Sink: Send,
    requires { FitsNode words }
    ensures ended { NodeEnd (record { meaning = keeping; settings = settings_of words; disk = M.Disk; told = M.Disk.told; remembers = M.Disk.remembers; cells = M.Disk.cells; moment = M.Disk.moment; left_since = M.Disk.left_since; images = images_at (M.cells room.old) words.dir words.id; left_before = I.left input.old; left_after = I.left input.new; written_before = O.written output.old; written_after = O.written output.new; sink = T.Sink; text_of = T.Sink.written; trails = record { before = T.kept trails.old; after = T.kept trails.new; taken_before = T.taken trails.old; taken_after = T.taken trails.new } }) (record { before = M.cells room.old; after = M.cells room.new; taken_before = M.taken room.old; taken_after = M.taken room.new }) result }
    ensures read { result ≡ Status.ReadFault → Rose (I.faults input.old) (I.faults input.new) }
    ensures write { result ≡ Status.WriteFault → Rose (O.faults output.old) (O.faults output.new) }
    ensures trail { result ≡ Status.TrailFault → Rose (T.faults trails.old) (T.faults trails.new) }
    ensures disk { result ≡ Status.DiskFault → Rose (M.faults room.old) (M.faults room.new) }
    ensures words { result ≡ Status.Words → ⊥ }
    ensures complete { IsFrames (I.left input.old) → M.Disk.told → HaveMeaning words (images_at (M.cells room.old) words.dir words.id) → (Rose (I.faults input.old) (I.faults input.new) → ⊥) → (Rose (O.faults output.old) (O.faults output.new) → ⊥) → (Rose (T.faults trails.old) (T.faults trails.new) → ⊥) → (Rose (M.faults room.old) (M.faults room.new) → ⊥) → (result ≡ Status.Ok) ⊎ (result ≡ Status.NoMemory) }
{
    match settings_of(alloc, words) {
        Ok(settings) => {
            let status = run_member::<KeyValueStore, M, T, I, O, K, G, R>(
                rt, alloc, &settings, input, output, room, clock, trails, gate,
            );
            status_by(status)
        }
        Err(_) => Status::NoMemory,
    }
}
