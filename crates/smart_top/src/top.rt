//! The top call.
ghost use Rattle.std.specs.Prelude.{◌≡◌, ◌<◌, ◌≤◌, ◌++◌, ◌⊎◌, length, Some, List, ℕ, IsTrue, IsErrOf, IfErr, IfOk, Option, None, [], true, false, map, string_bytes};
ghost use Rattle.std.specs.Io.KnownBytes.{IsAtEnd};
ghost use Rattle.faults.specs.Counts.{Rose};
ghost use Rattle.script_play.specs.Apps.{core_courses, node_courses};
ghost use Rattle.script_play.specs.Readings.{script_lines, whole_lines};
ghost use Rattle.smart_top.specs.Feeds.{HasTaken, GoesOn, GoesOnBehind, halt_end};
ghost use Rattle.smart_top.specs.Runs.{IsLeft, RunEnd};
ghost use Rattle.smart_top.specs.Loads.{load_read, LoadEnd};
ghost use Rattle.smart_top.specs.Nodes.{HaveMeaning, IsFrames, NodeEnd, settings_of};
ghost use Rattle.app_kv.specs.Snapshots.{keeping};
ghost use Rattle.member_opening.specs.Devices.{images_at};
ghost use Rattle.smart_top.specs.Audits.{AuditEnd, IsTrails, IsJudged};
ghost use Rattle.command_words.specs.Commands.{command_of};
ghost use Rattle.command_words.specs.Ranges.{FitsCommand};
ghost use Rattle.command_words.specs.declared.node_words.GroupWords.{GroupWords};
ghost use Rattle.command_words.specs.declared.node_words.NodeWords.{NodeWords};
ghost use Rattle.app_count.specs.Counts.{counting};
ghost use Rattle.smart_top.specs.Groups.{AllHaveMeaning, GroupAgreed, GroupEnded, IsPlayed};

use crate::audit::audit;
use crate::group::group;
use crate::load::load;
use crate::node::node;
use crate::reader::{Halt, Reader, end_line, feed, write_lines};
use crate::report::report;
use clock_gate::clock::Clock;
use clock_gate::gate::Gate;
use command_words::command::{Command, NoCommand, read_words};
use disk_model::room::DiskRoom;
use faults::Fault;
use node_rooms::trails::TrailRoom;
use script_play::script::{Script, script_end};
use script_play::status::Status;
use smart_base::sequence::Sequence;
use smart_io::stream::{Sink, Source, write_all};
use std::alloc::Global;
use std::mem::forget;
use std::sync::Wait;
use std::thread::Threads;

/// The number of bytes that are read at a time.
const PIECE: usize = 4096;

/// More reads than any input takes, as a script has fewer bytes.
const READS: u64 = 1 << 37;

fn halt_end(script: &Script, halt: Halt) -> Status
    ensures { result ≡ halt_end script.now halt }
{
    match halt {
        Halt::Refused => script_end(script),
        Halt::WriteFault => Status::WriteFault,
        Halt::SinkMemory | Halt::NoMemory => Status::NoMemory,
    }
}

/// Ends a script whose lines were all taken: the end is told and written.
fn close<O: Sink>(reader: &Reader, output: &mut O) -> Status
    ensures ended { (bytes input : List ℕ) (left left' written : Option (List ℕ)) (wants : ℕ) → script_lines input ≡ whole_lines [] bytes → IsLeft left input → IsAtEnd left'
        → HasTaken core_courses bytes written (O.written output.old) reader.now.line reader.now.script → wants ≤ O.wants output.old
        → RunEnd left left' written (O.written output.new) wants (O.wants output.new) result }
    ensures read { result ≡ Status.ReadFault → ⊥ }
    ensures write { result ≡ Status.WriteFault → Rose (O.faults output.old) (O.faults output.new) }
    ensures later { O.faults output.old ≤ O.faults output.new }
{
    let told = match reader.script.last_told() {
        Err(_) => return Status::NoMemory,
        Ok(told) => told,
    };
    match write_lines(reader.alloc, output, told.as_slice()) {
        Err(halt) => halt_end(&reader.script, halt),
        Ok(()) => script_end(&reader.script),
    }
}

/// Ends a script at the end of its input. The last line may lack its line feed.
fn finish<O: Sink>(reader: &mut Reader, output: &mut O) -> Status
    requires { reader.old.script.refused ≡ None }
    ensures ended { (bytes : List ℕ) (left left' written : Option (List ℕ)) (wants : ℕ) → IsLeft left bytes → IsAtEnd left'
        → HasTaken core_courses bytes written (O.written output.old) reader.old.line reader.old.script → wants ≤ O.wants output.old
        → RunEnd left left' written (O.written output.new) wants (O.wants output.new) result }
    ensures read { result ≡ Status.ReadFault → ⊥ }
    ensures write { result ≡ Status.WriteFault → Rose (O.faults output.old) (O.faults output.new) }
{
    if reader.line.is_empty() {
        return close(reader, output);
    }
    if let Err(halt) = end_line(reader, output) {
        return halt_end(&reader.script, halt);
    }
    close(reader, output)
}

/// Reads a piece of the input and takes its bytes. Answers whether there was a piece; if there was
/// none, the input has ended.
fn take_piece<I: Source, O: Sink>(
    reader: &mut Reader,
    input: &mut I,
    output: &mut O,
    buffer: &mut [u8],
) -> Result<bool, Status>
    requires room { 0 < length buffer.old }
    requires going { reader.old.script.refused ≡ None }
    ensures more { IfOk result (λ more. more ≡ true → reader.new.script.refused ≡ None × ((bytes : List ℕ) (left written : Option (List ℕ)) → GoesOn core_courses bytes left (I.left input.old) written (O.written output.old) reader.old.line reader.old.script → GoesOnBehind core_courses bytes left (I.left input.new) written (O.written output.new) reader.new.line reader.new.script)) }
    ensures none { IfOk result (λ more. more ≡ false → IsAtEnd (I.left input.new) × (reader.new ≡ reader.old) × (output.new ≡ output.old) × ((bytes : List ℕ) (left written : Option (List ℕ)) → GoesOn core_courses bytes left (I.left input.old) written (O.written output.old) reader.old.line reader.old.script → GoesOn core_courses bytes left (I.left input.new) written (O.written output.new) reader.new.line reader.new.script)) }
    ensures ended { IfErr result (λ status. (bytes : List ℕ) (left written : Option (List ℕ)) (wants : ℕ) → GoesOn core_courses bytes left (I.left input.old) written (O.written output.old) reader.old.line reader.old.script → wants ≤ O.wants output.old → RunEnd left (I.left input.new) written (O.written output.new) wants (O.wants output.new) status) }
    ensures read { IsErrOf result Status.ReadFault → Rose (I.faults input.old) (I.faults input.new) }
    ensures write { IsErrOf result Status.WriteFault → Rose (O.faults output.old) (O.faults output.new) }
    ensures later { (I.faults input.old ≤ I.faults input.new) × (O.faults output.old ≤ O.faults output.new) × (O.wants output.old ≤ O.wants output.new) }
{
    let count = match input.read(buffer) {
        Ok(count) => count,
        Err(Fault::Failed) => return Err(Status::ReadFault),
        Err(Fault::NoMemory) => return Err(Status::NoMemory),
    };
    if count == 0 {
        return Ok(false);
    }
    let (piece, _) = buffer.split_at(count);
    match feed(reader, output, piece) {
        Ok(()) => Ok(true),
        Err(halt) => Err(halt_end(&reader.script, halt)),
    }
}

/// Plays the script of an input over the service that its header names. Writes the transcript of each
/// line when the line is played. Neither the input nor the transcript is kept. The memory of the play is
/// left to the end of the process, which a run's status is for.
pub fn play_script<I: Source, O: Sink>(alloc: Global, input: &mut I, output: &mut O) -> Status
    ensures ended { RunEnd (I.left input.old) (I.left input.new) (O.written output.old) (O.written output.new) (O.wants output.old) (O.wants output.new) result }
    ensures read { result ≡ Status.ReadFault → Rose (I.faults input.old) (I.faults input.new) }
    ensures write { result ≡ Status.WriteFault → Rose (O.faults output.old) (O.faults output.new) }
{
    let mut reader = Reader {
        alloc,
        script: Script::new(alloc),
        line: Sequence::new(alloc),
    };
    let mut buffer = [0u8; PIECE];
    for _ in 0..READS {
        match take_piece(&mut reader, input, output, &mut buffer) {
            Ok(true) => {}
            Ok(false) => {
                let status = finish(&mut reader, output);
                forget(reader);
                return status;
            }
            Err(status) => {
                forget(reader);
                return status;
            }
        }
    }
    unreachable!()
}

/// Does what a command says.
fn obey<
    I: Source + Send,
    O: Sink + Send,
    M: DiskRoom,
    K: Clock + Send,
    T: TrailRoom,
    G: Gate + Sync,
    H: Threads + Wait + Sync,
>(
    rt: &H,
    alloc: Global,
    command: Command,
    input: &mut I,
    output: &mut O,
    room: &mut M,
    clock: &mut K,
    trails: &mut T,
    gate: &G,
) -> Status
where
    M::Disk: Send,
    T::Sink: Send,
    requires { FitsCommand command }
    ensures words { result ≡ Status.Words → ⊥ }
    ensures ended { command ≡ Command.World → RunEnd (I.left input.old) (I.left input.new) (O.written output.old) (O.written output.new) (O.wants output.old) (O.wants output.new) result }
    ensures load { (n : ℕ) → command ≡ Command.Load n → (input.new ≡ input.old) × LoadEnd n (O.written output.old) (O.written output.new) (O.wants output.old) (O.wants output.new) result }
    ensures complete { (n : ℕ) → command ≡ Command.Load n → (load_read node_courses n).refused ≡ None → (Rose (O.faults output.old) (O.faults output.new) → ⊥) → (result ≡ Status.Ok) ⊎ (result ≡ Status.NoMemory) }
    ensures node { (n : NodeWords) → command ≡ Command.Node n → NodeEnd (record { meaning = keeping; settings = settings_of n; disk = M.Disk; told = M.Disk.told; remembers = M.Disk.remembers; cells = M.Disk.cells; moment = M.Disk.moment; left_since = M.Disk.left_since; images = images_at (M.cells room.old) n.dir n.id; left_before = I.left input.old; left_after = I.left input.new; written_before = O.written output.old; written_after = O.written output.new; sink = T.Sink; text_of = T.Sink.written; trails = record { before = T.kept trails.old; after = T.kept trails.new; taken_before = T.taken trails.old; taken_after = T.taken trails.new } }) (record { before = M.cells room.old; after = M.cells room.new; taken_before = M.taken room.old; taken_after = M.taken room.new }) result }
    ensures complete_node { (n : NodeWords) → command ≡ Command.Node n → IsFrames (I.left input.old) → M.Disk.told → HaveMeaning n (images_at (M.cells room.old) n.dir n.id) → (Rose (I.faults input.old) (I.faults input.new) → ⊥) → (Rose (O.faults output.old) (O.faults output.new) → ⊥) → (Rose (T.faults trails.old) (T.faults trails.new) → ⊥) → (Rose (M.faults room.old) (M.faults room.new) → ⊥) → (result ≡ Status.Ok) ⊎ (result ≡ Status.NoMemory) }
    ensures group { (g : GroupWords) → command ≡ Command.Group g → (input.new ≡ input.old) × GroupEnded g (λ settings. record { meaning = counting; settings = settings; disk = M.Disk; told = M.Disk.told; remembers = M.Disk.remembers; cells = M.Disk.cells; moment = M.Disk.moment; left_since = M.Disk.left_since; images = λ member. images_at (M.cells room.old) settings.dir member; written_before = O.written output.old; written_after = O.written output.new; wants_before = O.wants output.old; wants_after = O.wants output.new; sink = T.Sink; text_of = T.Sink.written; room = record { before = M.cells room.old; after = M.cells room.new; taken_before = M.taken room.old; taken_after = M.taken room.new }; trails = record { before = T.kept trails.old; after = T.kept trails.new; taken_before = T.taken trails.old; taken_after = T.taken trails.new } }) (O.written output.old) (O.written output.new) result }
    ensures complete_group { (g : GroupWords) → command ≡ Command.Group g → M.Disk.told → AllHaveMeaning g (images_at (M.cells room.old)) → (Rose (O.faults output.old) (O.faults output.new) → ⊥) → (Rose (T.faults trails.old) (T.faults trails.new) → ⊥) → (Rose (M.faults room.old) (M.faults room.new) → ⊥) → IsPlayed result }
    ensures fresh { (g : GroupWords) → command ≡ Command.Group g → result ≡ Status.Ok → GroupAgreed g (λ settings. record { meaning = counting; settings = settings; disk = M.Disk; told = M.Disk.told; remembers = M.Disk.remembers; cells = M.Disk.cells; moment = M.Disk.moment; left_since = M.Disk.left_since; images = λ member. images_at (M.cells room.old) settings.dir member; written_before = O.written output.old; written_after = O.written output.new; wants_before = O.wants output.old; wants_after = O.wants output.new; sink = T.Sink; text_of = T.Sink.written; room = record { before = M.cells room.old; after = M.cells room.new; taken_before = M.taken room.old; taken_after = M.taken room.new }; trails = record { before = T.kept trails.old; after = T.kept trails.new; taken_before = T.taken trails.old; taken_after = T.taken trails.new } }) }
    ensures apart { ((n : NodeWords) → command ≡ Command.Node n → ⊥) → ((g : GroupWords) → command ≡ Command.Group g → ⊥) → (room.new ≡ room.old) × ((clock.new ≡ clock.old) × (trails.new ≡ trails.old)) }
    ensures audit { command ≡ Command.Audit → AuditEnd (I.left input.old) (I.left input.new) (O.written output.old) (O.written output.new) (O.wants output.old) (O.wants output.new) result }
    ensures complete_audit { command ≡ Command.Audit → IsTrails (I.left input.old) → (Rose (I.faults input.old) (I.faults input.new) → ⊥) → (Rose (O.faults output.old) (O.faults output.new) → ⊥) → IsJudged result }
    ensures read { result ≡ Status.ReadFault → Rose (I.faults input.old) (I.faults input.new) }
    ensures write { result ≡ Status.WriteFault → Rose (O.faults output.old) (O.faults output.new) }
    ensures trail { result ≡ Status.TrailFault → Rose (T.faults trails.old) (T.faults trails.new) }
    ensures disk { result ≡ Status.DiskFault → Rose (M.faults room.old) (M.faults room.new) }
{
    match command {
        Command::World => play_script(alloc, input, output),
        Command::Load { count } => load(alloc, count, output),
        Command::Node(words) => node(rt, alloc, words, input, output, room, clock, trails, gate),
        Command::Group(words) => group(rt, alloc, words, output, room, clock, trails, gate),
        Command::Audit => audit(alloc, input, output),
    }
}

/// Runs the program. `world` reads a script from the input and writes its transcript to the output.
/// `load N` plays the script of a load of N asks and writes the totals of its play. `audit` reads trails
/// from the input, and writes whether they are coherent, or their first difference from what the rules of
/// their members make. `node` runs one member of a group: frames that are read arrive at its node, and
/// what that sends is written as frames. `group` runs a whole group and one client in threads. It writes a
/// line for each reply that the client accepts, and audits the trails of all.
/// For each status other than `Ok` a line is written to `errors`; a failure there changes nothing.
/// Before it stands what the parser shows of words that ask for help or for the version, or of none.
///
/// A script may deliver messages in any order, lose them and repeat them. It may let time pass at any
/// member, change the regency, and change the members and f by requests of the view manager
/// (reconfiguration: BFT-SMaRt, DSN 2014). It may declare up to f members of each view faulty and any
/// clients rogue. It may crash any members, or all at once, between any two device calls, also within
/// a switch to a checkpoint. A crash may leave any image that the model of disks allows. Whatever
/// script is played:
///
/// - The members deliver fronts of one list of batches (state machine replication). The list only
///   grows. The view in force at a place, its members and f, follows from the list before it.
/// - Each reply that a client accepts is the service's answer at its request's one place in that
///   list, or tells the view manager what its change came to. It names the view in force there, and a
///   quorum of a view of that number gave it. If the client is not rogue, that place is later than
///   every place that it knew when it asked.
/// - Whatever crashes leave of the devices, each member restarts from a front of that list: from its
///   newest checkpoint and the log after it. Neither is damaged. Of what was firm each entry is left,
///   or a checkpoint or a greater promise that stands for it.
/// - The place of each accepted reply is kept: whatever crashes leave of all devices at once, more
///   than f correct members of the view in force there restore it or a later one.
///
/// The premises are checked. A crash with another image ends the play. A forged statement, a
/// collision of digests, and one faulty member of a view too many end it too.
#[tactic(auto, using(crate::proofs::Ending::unread_run, crate::proofs::Loading::unread_load, crate::proofs::Auditing::unread_audit, crate::proofs::Noding::unread_node))]
pub fn run<
    H: Threads + Wait + Sync,
    I: Source + Send,
    O: Sink + Send,
    E: Sink,
    M: DiskRoom,
    K: Clock + Send,
    T: TrailRoom,
    G: Gate + Sync,
>(
    rt: &H,
    alloc: Global,
    words: &[String],
    input: &mut I,
    output: &mut O,
    errors: &mut E,
    room: &mut M,
    clock: &mut K,
    trails: &mut T,
    gate: &G,
) -> Status
where
    M::Disk: Send,
    T::Sink: Send,
    // The status `Words`: the words are no command. Words that are none end otherwise only for want of memory.
    ensures words { result ≡ Status.Words → command_of (map string_bytes words.now) ≡ None }
    ensures none { command_of (map string_bytes words.now) ≡ None → (result ≡ Status.Words) ⊎ (result ≡ Status.NoMemory) }
    // Nothing is read or written then.
    ensures untouched { command_of (map string_bytes words.now) ≡ None → (input.new ≡ input.old) × (output.new ≡ output.old) }
    // What `world` has read and written, by the status. One list holds of it, with crashes or without.
    ensures ended { command_of (map string_bytes words.now) ≡ Some Command.World → RunEnd (I.left input.old) (I.left input.new) (O.written output.old) (O.written output.new) (O.wants output.old) (O.wants output.new) result }
    // What `load` has written, by the status: the totals of the play of its script. It reads nothing.
    ensures load { (n : ℕ) → command_of (map string_bytes words.now) ≡ Some (Command.Load n) → (input.new ≡ input.old) × LoadEnd n (O.written output.old) (O.written output.new) (O.wants output.old) (O.wants output.new) result }
    // `load` is complete: if no line of its script is refused and the output does not fail, it ends well, or for want of memory.
    ensures complete { (n : ℕ) → command_of (map string_bytes words.now) ≡ Some (Command.Load n) → (load_read node_courses n).refused ≡ None → (Rose (O.faults output.old) (O.faults output.new) → ⊥) → (result ≡ Status.Ok) ⊎ (result ≡ Status.NoMemory) }
    // What `node` has read, written and kept, by the status. Its rooms keep all other disks and trails as they were.
    ensures node { (n : NodeWords) → command_of (map string_bytes words.now) ≡ Some (Command.Node n) → NodeEnd (record { meaning = keeping; settings = settings_of n; disk = M.Disk; told = M.Disk.told; remembers = M.Disk.remembers; cells = M.Disk.cells; moment = M.Disk.moment; left_since = M.Disk.left_since; images = images_at (M.cells room.old) n.dir n.id; left_before = I.left input.old; left_after = I.left input.new; written_before = O.written output.old; written_after = O.written output.new; sink = T.Sink; text_of = T.Sink.written; trails = record { before = T.kept trails.old; after = T.kept trails.new; taken_before = T.taken trails.old; taken_after = T.taken trails.new } }) (record { before = M.cells room.old; after = M.cells room.new; taken_before = M.taken room.old; taken_after = M.taken room.new }) result }
    // `node` is complete: if source and disks tell what they hold, the input is whole frames, the devices hold nothing without meaning, and nothing fails, it ends well, or for want of memory.
    ensures complete_node { (n : NodeWords) → command_of (map string_bytes words.now) ≡ Some (Command.Node n) → IsFrames (I.left input.old) → M.Disk.told → HaveMeaning n (images_at (M.cells room.old) n.dir n.id) → (Rose (I.faults input.old) (I.faults input.new) → ⊥) → (Rose (O.faults output.old) (O.faults output.new) → ⊥) → (Rose (T.faults trails.old) (T.faults trails.new) → ⊥) → (Rose (M.faults room.old) (M.faults room.new) → ⊥) → (result ≡ Status.Ok) ⊎ (result ≡ Status.NoMemory) }
    // What `group` has written and kept, by the status. It reads nothing. In its rooms all that is of others is as it was.
    ensures group { (g : GroupWords) → command_of (map string_bytes words.now) ≡ Some (Command.Group g) → (input.new ≡ input.old) × GroupEnded g (λ settings. record { meaning = counting; settings = settings; disk = M.Disk; told = M.Disk.told; remembers = M.Disk.remembers; cells = M.Disk.cells; moment = M.Disk.moment; left_since = M.Disk.left_since; images = λ member. images_at (M.cells room.old) settings.dir member; written_before = O.written output.old; written_after = O.written output.new; wants_before = O.wants output.old; wants_after = O.wants output.new; sink = T.Sink; text_of = T.Sink.written; room = record { before = M.cells room.old; after = M.cells room.new; taken_before = M.taken room.old; taken_after = M.taken room.new }; trails = record { before = T.kept trails.old; after = T.kept trails.new; taken_before = T.taken trails.old; taken_after = T.taken trails.new } }) (O.written output.old) (O.written output.new) result }
    // `group` is complete. Let disks tell what they hold, those of its members hold nothing without meaning, and nothing fail. It then ends well, with a difference of its trails, because it gave up, or for want of memory.
    ensures complete_group { (g : GroupWords) → command_of (map string_bytes words.now) ≡ Some (Command.Group g) → M.Disk.told → AllHaveMeaning g (images_at (M.cells room.old)) → (Rose (O.faults output.old) (O.faults output.new) → ⊥) → (Rose (T.faults trails.old) (T.faults trails.new) → ⊥) → (Rose (M.faults room.old) (M.faults room.new) → ⊥) → IsPlayed result }
    // Once it has ended well, its trails are whole and coherent. If they begin with the empty replica, they deliver one list, and each line of a reply is the answer on it.
    ensures fresh { (g : GroupWords) → command_of (map string_bytes words.now) ≡ Some (Command.Group g) → result ≡ Status.Ok → GroupAgreed g (λ settings. record { meaning = counting; settings = settings; disk = M.Disk; told = M.Disk.told; remembers = M.Disk.remembers; cells = M.Disk.cells; moment = M.Disk.moment; left_since = M.Disk.left_since; images = λ member. images_at (M.cells room.old) settings.dir member; written_before = O.written output.old; written_after = O.written output.new; wants_before = O.wants output.old; wants_after = O.wants output.new; sink = T.Sink; text_of = T.Sink.written; room = record { before = M.cells room.old; after = M.cells room.new; taken_before = M.taken room.old; taken_after = M.taken room.new }; trails = record { before = T.kept trails.old; after = T.kept trails.new; taken_before = T.taken trails.old; taken_after = T.taken trails.new } }) }
    // No other command touches the rooms or the clock.
    ensures apart { ((n : NodeWords) → command_of (map string_bytes words.now) ≡ Some (Command.Node n) → ⊥) → ((g : GroupWords) → command_of (map string_bytes words.now) ≡ Some (Command.Group g) → ⊥) → (room.new ≡ room.old) × ((clock.new ≡ clock.old) × (trails.new ≡ trails.old)) }
    // What `audit` has read and written, by the status: the line that tells what it finds in the trails of its whole input.
    ensures audit { command_of (map string_bytes words.now) ≡ Some Command.Audit → AuditEnd (I.left input.old) (I.left input.new) (O.written output.old) (O.written output.new) (O.wants output.old) (O.wants output.new) result }
    // `audit` is complete: if the source tells its bytes, these are trails, and nothing fails, it ends with its verdict, or for want of memory.
    ensures complete_audit { command_of (map string_bytes words.now) ≡ Some Command.Audit → IsTrails (I.left input.old) → (Rose (I.faults input.old) (I.faults input.new) → ⊥) → (Rose (O.faults output.old) (O.faults output.new) → ⊥) → IsJudged result }
    // A fault of input or output: its count rose.
    ensures read { result ≡ Status.ReadFault → Rose (I.faults input.old) (I.faults input.new) }
    ensures write { result ≡ Status.WriteFault → Rose (O.faults output.old) (O.faults output.new) }
    // A fault of a trail or of a device: the count of its room rose.
    ensures trail { result ≡ Status.TrailFault → Rose (T.faults trails.old) (T.faults trails.new) }
    ensures disk { result ≡ Status.DiskFault → Rose (M.faults room.old) (M.faults room.new) }
{
    match read_words(alloc, words) {
        Ok(command) => {
            let status = obey(rt, alloc, command, input, output, room, clock, trails, gate);
            report(alloc, errors, status);
            status
        }
        Err(NoCommand::Shown(text)) => {
            let _ = write_all(errors, text.as_bytes());
            report(alloc, errors, Status::Words);
            Status::Words
        }
        Err(NoCommand::Wrong) => {
            report(alloc, errors, Status::Words);
            Status::Words
        }
        Err(NoCommand::NoMemory) => {
            report(alloc, errors, Status::NoMemory);
            Status::NoMemory
        }
    }
}
