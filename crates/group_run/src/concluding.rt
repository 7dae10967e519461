//! How the run of a group concludes: all goes back to its rooms, and the trails are audited.
ghost use Rattle.std.specs.Prelude.{Bool, ◌≡◌, ◌≤◌, ◌<◌, ◌+◌, ◌-◌, ◌^◌, ◌⊎◌, ℕ, List, [], length, map, Option, None, Some, true, false, slice_index_or, vec_len, IfSome};
ghost use Rattle.std.specs.Io.KnownBytes.{Appends};
ghost use Rattle.faults.specs.Counts.{Rose};
ghost use Rattle.app_count.specs.Counts.{counting};
ghost use Rattle.app_count.specs.declared.Count.{Count};
ghost use Rattle.audit_rules.specs.Audits.{CanBegin};
ghost use Rattle.disk_model.specs.Cells.{Cells};
ghost use Rattle.smart_base.specs.Lists.{Each};
ghost use Rattle.store_laws.specs.Restored.{Images};
ghost use Rattle.group_client.specs.Loops.{Output};
ghost use Rattle.group_wires.specs.Wires.{AreLinked, HaveCome, all_takings, row_links, row_puts};
ghost use Rattle.group_wires.specs.declared.row.Row.{Row};
ghost use Rattle.group_run.specs.Concluded.{AreGathered, IsAudited, IsConcluded};
ghost use Rattle.group_parties.specs.Crews.{IsCrew};
ghost use Rattle.group_run.specs.Ends.{GroupEnd};
ghost use Rattle.group_run.specs.Lines.{group_line};
ghost use Rattle.group_parties.specs.Rests.{HasRun, WasRun};
ghost use Rattle.group_opening.specs.Rooms.{IsReturned};
ghost use Rattle.group_opening.specs.Runs.{client_head, RoomBefore};
ghost use Rattle.audit_rules.specs.declared.recorded.Recorded.{Recorded};
ghost use Rattle.group_run.specs.Statuses.{failed_status};
ghost use Rattle.group_parties.specs.declared.crew.Crew.{Crew};
ghost use Rattle.group_parties.specs.declared.running.CourseEnd.{CourseEnd};
ghost use Rattle.group_run.specs.declared.status.Failures.{Failures};
ghost use Rattle.group_run.specs.declared.status.GroupStatus.{GroupStatus};

use crate::closing::{failures_of, give_back};
use crate::judging::{Judged, judge};
use crate::lines::write_coherent;
use crate::parties::{Trails, lives_of, trails_of};
use crate::status::{
    Failures, GroupStatus, audited_status, failed_status, line_status, quiet_status,
};
use audit_rules::recorded::Recorded;
use disk_model::disk::Disk;
use disk_model::room::DiskRoom;
use group_client::asking::ClientFault;
use group_opening::settings::GroupSettings;
use group_parties::course::Rest;
use group_parties::crew::Headed;
use group_parties::ending::{ClientLeft, MemberEnd};
use group_parties::running::CourseEnd;
use group_wires::rejoining::rejoin_all;
use node_rooms::trails::TrailRoom;
use smart_io::stream::Sink;
use std::alloc::Global;
use trail::opening::TrailOpening;

/// Gathers the trails of all parties and the ends of their links. `None`: a party has not lived, or memory ran
/// out.
fn gather<D: Disk, O: Sink>(
    alloc: Global,
    head: TrailOpening,
    heads: Vec<Headed>,
    members: &mut Vec<MemberEnd<D, O>>,
    client: &mut ClientLeft<O>,
) -> Option<Trails>
    requires { vec_len heads ≡ vec_len members.old }
    ensures many { vec_len members.new ≡ vec_len members.old }
    ensures same { (i : ℕ) (d : _) → i < vec_len members.old → let old = slice_index_or members.old.items i d in let new = slice_index_or members.new.items i d in (new.member ≡ old.member) × ((new.sink ≡ old.sink) × ((new.failed ≡ old.failed) × ((new.store ≡ old.store) × (new.worn ≡ old.worn)))) }
    ensures client { client.new.sink ≡ client.old.sink }
    ensures trails { IfSome result (AreGathered head heads.items client.old.lived (map (λ m. m.lived) members.old.items)) }
{
    match lives_of(alloc, members, client) {
        Ok(Some(lives)) => match trails_of(alloc, head, heads, lives) {
            Ok(trails) => Some(trails),
            Err(_) => None,
        },
        Ok(None) | Err(_) => None,
    }
}

/// Whether memory ran out while a group ran, or the polls of its client are not known.
fn has_wanted(whole: bool, end: CourseEnd, polls: u64) -> bool
    ensures { result ≡ false → (whole ≡ true) × (polls < 2 ^ 64 - 1) }
{
    if !whole {
        return true;
    }
    end == CourseEnd::Over || polls == u64::MAX
}

/// Whether nothing is left to happen to a group whose client has no reply.
fn is_still(end: CourseEnd, quiet: bool) -> bool
    ensures { result ≡ true → (end ≡ CourseEnd.Still) × (quiet ≡ true) }
{
    if !quiet {
        return false;
    }
    end == CourseEnd::Still
}

/// Whether all replies were accepted.
fn is_done(end: CourseEnd) -> bool
    ensures { result ≡ true → end ≡ CourseEnd.Done }
{
    end == CourseEnd::Done
}

/// The status of a group by its trails alone.
fn audited(
    alloc: Global,
    recorded: &[Recorded],
    whole: bool,
    end: CourseEnd,
    polls: u64,
) -> GroupStatus
    requires { Each CanBegin recorded.now }
    ensures { IsAudited recorded.now whole end polls result }
{
    if let CourseEnd::GaveUp(_) = end {
        return GroupStatus::NoMemory;
    }
    let Ok(Judged { verdict, quiet }) = judge(alloc, recorded) else {
        return GroupStatus::NoMemory;
    };
    let wanted = has_wanted(whole, end, polls);
    let done = is_done(end);
    let still = is_still(end, quiet);
    audited_status(verdict, quiet_status(wanted, done, still, polls))
}

/// Writes the last line, if all went well. Any other status stays as it is.
fn end_line<W: Sink>(status: GroupStatus, output: &mut W) -> GroupStatus
    ensures { (recorded : List Recorded) (whole : Bool) (failures : Failures) (end : CourseEnd) (polls : ℕ) (found : GroupStatus) → IsAudited recorded whole end polls found → status ≡ failed_status failures found → IsConcluded recorded whole failures end polls result (record { written = W.written output.old; faults = W.faults output.old; wants = W.wants output.old }) (record { written = W.written output.new; faults = W.faults output.new; wants = W.wants output.new }) }
{
    match status {
        GroupStatus::Ok => match write_coherent(output) {
            Ok(()) => GroupStatus::Ok,
            Err(fault) => line_status(fault),
        },
        other => other,
    }
}

/// The status of a group that has lived, by its trails. Where nothing has failed, and it ended well, the last
/// line is written.
fn lived_status<W: Sink>(
    alloc: Global,
    trails: Trails,
    failures: Failures,
    end: CourseEnd,
    polls: u64,
    output: &mut W,
) -> GroupStatus
    requires begin { Each CanBegin trails.recorded.items }
    requires within { Each (λ (row : Row). length row.ports.items ≤ vec_len trails.inboxes) trails.rows.items }
    requires linked { AreLinked (row_links trails.rows.items) trails.inboxes.items }
    ensures come { HaveCome (row_puts trails.rows.items) (all_takings trails.inboxes.items) }
    ensures concluded { IsConcluded trails.recorded.items trails.whole failures end polls result (record { written = W.written output.old; faults = W.faults output.old; wants = W.wants output.old }) (record { written = W.written output.new; faults = W.faults output.new; wants = W.wants output.new }) }
{
    let Trails {
        recorded,
        rows,
        inboxes,
        whole,
    } = trails;
    rejoin_all(rows, inboxes);
    let found = audited(alloc, recorded.as_slice(), whole, end, polls);
    end_line(failed_status(failures, found), output)
}

/// Ends the run of a group: all goes back to its rooms, and the trails are audited.
pub fn conclude<M: DiskRoom, T: TrailRoom, W: Sink>(
    alloc: Global,
    settings: &GroupSettings,
    head: TrailOpening,
    rest: Rest<M::Disk, T::Sink>,
    output: &mut W,
    room: &mut M,
    trails: &mut T,
) -> GroupStatus
    requires head { head ≡ client_head settings.now }
    requires run { WasRun counting M.Disk.told M.Disk.remembers M.Disk.cells M.Disk.moment M.Disk.left_since M.Disk.faults T.Sink.written T.Sink.faults settings.now (M.taken room.old) (T.taken trails.old) rest (record { written = W.written output.old; faults = W.faults output.old; wants = W.wants output.old }) }
    ensures ended { (images : ℕ → Images) (crew : Crew Count M.Disk T.Sink) (before begun : Output) (disks : RoomBefore Cells) (texts : RoomBefore (Option (List ℕ))) (is : IsCrew counting M.Disk.told M.Disk.cells T.Sink.written images settings.now crew) →
        HasRun counting M.Disk.told M.Disk.remembers M.Disk.cells M.Disk.moment M.Disk.left_since M.Disk.faults T.Sink.written T.Sink.faults images settings.now crew is rest begun (record { written = W.written output.old; faults = W.faults output.old; wants = W.wants output.old }) →
        Appends before.written begun.written (group_line settings.now.members settings.now.faulty) → before.wants ≤ begun.wants →
        GroupEnd (record { meaning = counting; settings = settings.now; disk = M.Disk; told = M.Disk.told; remembers = M.Disk.remembers; cells = M.Disk.cells; moment = M.Disk.moment; left_since = M.Disk.left_since; images = images; written_before = before.written; written_after = W.written output.new; wants_before = before.wants; wants_after = W.wants output.new; sink = T.Sink; text_of = T.Sink.written; room = record { before = disks.kept; after = M.cells room.new; taken_before = disks.taken; taken_after = M.taken room.new }; trails = record { before = texts.kept; after = T.kept trails.new; taken_before = texts.taken; taken_after = T.taken trails.new } }) result }
    ensures write { result ≡ GroupStatus.WriteFault → (rest.end ≡ CourseEnd.GaveUp ClientFault.Output) ⊎ Rose (W.faults output.old) (W.faults output.new) }
    ensures trail { result ≡ GroupStatus.TrailFault → Rose (T.faults trails.old) (T.faults trails.new) }
    ensures disk { result ≡ GroupStatus.DiskFault → Rose (M.faults room.old) (M.faults room.new) }
    ensures store { (entry : ℕ) → result ≡ GroupStatus.Store entry → ⊥ }
    ensures later { (W.faults output.old ≤ W.faults output.new) × (W.wants output.old ≤ W.wants output.new) }
    ensures disks { IsReturned settings.now.dir 1 (settings.now.members + 1) 4 (record { before = M.cells room.old; after = M.cells room.new; taken_before = M.taken room.old; taken_after = M.taken room.new }) }
    ensures sinks { IsReturned settings.now.dir 0 (settings.now.members + 1) 1 (record { before = T.kept trails.old; after = T.kept trails.new; taken_before = T.taken trails.old; taken_after = T.taken trails.new }) }
{
    let Rest {
        members,
        client,
        heads,
        end,
    } = rest;
    let mut members = members;
    let mut client = client;
    let polls = client.polls;
    let failures = failures_of(members.as_slice(), &client, end);
    let gathered = gather(alloc, head, heads, &mut members, &mut client);
    let dir = settings.dir.as_slice();
    give_back(dir, members, client, room, trails);
    match gathered {
        Some(gathered) => lived_status(alloc, gathered, failures, end, polls, output),
        None => failed_status(failures, GroupStatus::NoMemory),
    }
}
