//! How what a group took from its rooms goes back to them.
ghost use Rattle.std.specs.Prelude.{◌≡◌, ◌≤◌, ◌<◌, ◌+◌, ◌⊎◌, ℕ, slice_index_or, length, vec_len, true, Some, IfSome, IsSome};
ghost use Rattle.durable_store.specs.Disks.{DiskRose, cells_of};
ghost use Rattle.faults.specs.Counts.{Rose};
ghost use Rattle.disk_model.specs.Rooms.{address};
ghost use Rattle.member_opening.specs.Devices.{AreHeld, devices_at};
ghost use Rattle.group_parties.specs.Gathered.{AreTaken};
ghost use Rattle.group_opening.specs.Rooms.{IsReturned};

use crate::status::Failures;
use disk_model::disk::Disk;
use disk_model::room::DiskRoom;
use group_client::asking::ClientFault;
use group_parties::ending::{ClientLeft, MemberEnd};
use group_parties::running::CourseEnd;
use member_opening::devices::put_back;
use node_rooms::trails::TrailRoom;
use smart_base::name::MemberId;
use smart_io::stream::Sink;

/// What failed in a course.
pub fn failures_of<D: Disk, O: Sink>(
    members: &[MemberEnd<D, O>],
    client: &ClientLeft<O>,
    end: CourseEnd,
) -> Failures
    ensures output { result.output ≡ true → end ≡ CourseEnd.GaveUp ClientFault.Output }
    ensures output_only { end ≡ CourseEnd.GaveUp ClientFault.Output → result.output ≡ true }
    ensures trail { result.trail ≡ true → (client.now.failed ≡ true) ⊎ ((i : ℕ) × ((i < length members.now) × ((d : _) → (slice_index_or members.now i d).failed ≡ true))) }
    ensures disk { result.disk ≡ true → (i : ℕ) × ((i < length members.now) × ((d : _) → (slice_index_or members.now i d).worn ≡ true)) }
{
    let mut failures = Failures {
        output: end == CourseEnd::GaveUp(ClientFault::Output),
        trail: client.failed,
        disk: false,
    };
    for member in members {
        failures.trail = failures.trail || member.failed;
        failures.disk = failures.disk || member.worn;
    }
    failures
}

/// Keeps the sinks of all trails, and puts the devices of all members back. It takes no memory.
pub fn give_back<M: DiskRoom, T: TrailRoom>(
    dir: &[u8],
    members: Vec<MemberEnd<M::Disk, T::Sink>>,
    client: ClientLeft<T::Sink>,
    room: &mut M,
    trails: &mut T,
)
    requires held { AreTaken (M.taken room.old) M.Disk.faults (T.taken trails.old) dir.now 1 members.items }
    requires client { IsSome (T.taken trails.old (address dir.now 0 0)) }
    ensures later { (M.faults room.old ≤ M.faults room.new) × (T.faults trails.old ≤ T.faults trails.new) }
    ensures disk { (i : ℕ) (e : _) (begun : _) → i < vec_len members → AreHeld (M.taken room.old) M.Disk.faults dir.now (i + 1) begun → DiskRose M.Disk.faults begun (slice_index_or members.items i e).store.disks → Rose (M.faults room.old) (M.faults room.new) }
    ensures trail { (i : ℕ) (e : _) (before : ℕ) → i < vec_len members → T.taken trails.old (address dir.now (i + 1) 0) ≡ Some before → Rose before (T.Sink.faults (slice_index_or members.items i e).sink) → Rose (T.faults trails.old) (T.faults trails.new) }
    ensures client_trail { (before : ℕ) → T.taken trails.old (address dir.now 0 0) ≡ Some before → Rose before (T.Sink.faults client.sink) → Rose (T.faults trails.old) (T.faults trails.new) }
    ensures texts { (i : ℕ) (e : _) → i < vec_len members → IfSome (T.Sink.written (slice_index_or members.items i e).sink) (λ text. T.kept trails.new (address dir.now (i + 1) 0) ≡ Some text) }
    ensures client_text { IfSome (T.Sink.written client.sink) (λ text. T.kept trails.new (address dir.now 0 0) ≡ Some text) }
    ensures devices { (i : ℕ) (e : _) → i < vec_len members → M.Disk.told → devices_at (M.cells room.new) dir.now (i + 1) ≡ cells_of M.Disk.cells (slice_index_or members.items i e).store.disks }
    ensures disks { IsReturned dir.now 1 (vec_len members + 1) 4 (record { before = M.cells room.old; after = M.cells room.new; taken_before = M.taken room.old; taken_after = M.taken room.new }) }
    ensures sinks { IsReturned dir.now 0 (vec_len members + 1) 1 (record { before = T.kept trails.old; after = T.kept trails.new; taken_before = T.taken trails.old; taken_after = T.taken trails.new }) }
{
    let mut members = members;
    while let Some(end) = members.pop() {
        let MemberEnd {
            member,
            sink,
            failed: _,
            store,
            worn: _,
            lived: _,
        } = end;
        put_back(room, dir, member, store.into_disks());
        trails.keep(dir, member, sink);
    }
    members.destroy_empty();
    let ClientLeft {
        sink,
        failed: _,
        lived: _,
        polls: _,
    } = client;
    trails.keep(dir, MemberId::new(0), sink);
}
