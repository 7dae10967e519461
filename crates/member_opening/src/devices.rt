//! The devices of a node, taken from a room and put back.
ghost use Rattle.std.specs.Prelude.{◌≡◌, ◌≢◌, ◌≤◌, ◌+◌, ℕ, IfOk, IsErrOf, OnErr, None};
ghost use Rattle.faults.specs.Counts.{Rose, HasCause};
ghost use Rattle.disk_model.specs.Cells.{settled, Within};
ghost use Rattle.disk_model.specs.Rooms.{address, KeepsOthers};
ghost use Rattle.durable_store.specs.Disks.{AreSettled, DiskRose, cells_of, contents};
ghost use Rattle.durable_store.specs.declared.disks.Disks.{Disks};
ghost use Rattle.member_opening.specs.Devices.{AreAsBefore, AreFree, AreHeld, ArePair, AreWithin, IsFreePair, IsHeld, IsPairAsBefore, IsPairWithin, KeepsBeside, KeepsBesidePair, KeepsDevices, devices_at, images_at};

use disk_model::disk::Disk;
use disk_model::room::DiskRoom;
use durable_store::disks::Disks;
use faults::Fault;
use smart_base::name::MemberId;
use std::alloc::Global;

/// Takes a device, on which nothing is pending then. Errors: those of the room and of the device, which is
/// put back then; want of memory.
fn take_device<R: DiskRoom>(
    alloc: Global,
    room: &mut R,
    dir: &[u8],
    member: MemberId,
    device: u8,
) -> Result<R::Disk, Fault>
    ensures held { IfOk result (λ disk. IsHeld (R.taken room.new (address dir.now member device)) (R.Disk.faults disk)) }
    ensures contents { IfOk result (λ disk. R.Disk.told → R.Disk.cells disk ≡ settled (R.cells room.old (address dir.now member device)).now) }
    ensures free { IfOk result (λ _. R.taken room.old (address dir.now member device) ≡ None) }
    ensures back { OnErr result (R.taken room.new (address dir.now member device) ≡ R.taken room.old (address dir.now member device)) }
    ensures within { IfOk result (λ disk. R.Disk.told → Within (R.Disk.cells disk) (R.cells room.old (address dir.now member device))) }
    ensures torn { OnErr result (R.Disk.told → Within (R.cells room.new (address dir.now member device)) (R.cells room.old (address dir.now member device))) }
    ensures others { KeepsOthers (address dir.now member device) (R.cells room.old) (R.cells room.new) }
    ensures others_taken { KeepsOthers (address dir.now member device) (R.taken room.old) (R.taken room.new) }
    ensures cause { HasCause (R.faults room.old) (R.faults room.new) result }
{
    let mut disk = room.get(alloc, dir, member, device)?;
    match disk.sync() {
        Ok(()) => Ok(disk),
        Err(fault) => {
            room.keep(dir, member, device, disk);
            Err(fault)
        }
    }
}

/// Takes two devices with numbers one after the other. Errors: as at `take_device`; what was taken is put
/// back then.
fn take_pair<R: DiskRoom>(
    alloc: Global,
    room: &mut R,
    dir: &[u8],
    member: MemberId,
    first: u8,
) -> Result<(R::Disk, R::Disk), Fault>
    requires { first ≤ 2 }
    ensures held { IfOk result (λ pair. ArePair (R.taken room.new) R.Disk.faults dir.now member first pair.0 pair.1) }
    ensures contents { IfOk result (λ pair. R.Disk.told → (R.Disk.cells pair.0 ≡ settled (R.cells room.old (address dir.now member first)).now) × (R.Disk.cells pair.1 ≡ settled (R.cells room.old (address dir.now member (first + 1))).now)) }
    ensures free { IfOk result (λ _. IsFreePair (R.taken room.old) dir.now member first) }
    ensures back { OnErr result (IsPairAsBefore (R.taken room.old) (R.taken room.new) dir.now member first) }
    ensures within { IfOk result (λ pair. R.Disk.told → IsPairWithin (R.cells room.old) dir.now member first (R.Disk.cells pair.0) (R.Disk.cells pair.1)) }
    ensures torn { OnErr result (R.Disk.told → IsPairWithin (R.cells room.old) dir.now member first (R.cells room.new (address dir.now member first)) (R.cells room.new (address dir.now member (first + 1)))) }
    ensures others { KeepsDevices dir.now member first (R.cells room.old) (R.cells room.new) }
    ensures others_taken { KeepsDevices dir.now member first (R.taken room.old) (R.taken room.new) }
    ensures beside { KeepsBesidePair dir.now member first (R.cells room.old) (R.cells room.new) }
    ensures beside_taken { KeepsBesidePair dir.now member first (R.taken room.old) (R.taken room.new) }
    ensures cause { HasCause (R.faults room.old) (R.faults room.new) result }
{
    let one = take_device(alloc, room, dir, member, first)?;
    match take_device(alloc, room, dir, member, first + 1) {
        Ok(other) => Ok((one, other)),
        Err(fault) => {
            room.keep(dir, member, first, one);
            Err(fault)
        }
    }
}

/// Takes the four devices of a member from a room. Nothing is pending on them then. Errors: those of the
/// room and of a device; want of memory. What was taken is put back then.
pub fn take_devices<R: DiskRoom>(
    alloc: Global,
    room: &mut R,
    dir: &[u8],
    member: MemberId,
) -> Result<Disks<R::Disk>, Fault>
    ensures held { IfOk result (λ disks. AreHeld (R.taken room.new) R.Disk.faults dir.now member disks) }
    ensures settled { IfOk result (λ disks. R.Disk.told → AreSettled R.Disk.cells disks) }
    ensures contents { IfOk result (λ disks. R.Disk.told → contents R.Disk.cells disks ≡ images_at (R.cells room.old) dir.now member) }
    // None of them was taken. After an error none is taken that was not.
    ensures free { IfOk result (λ _. AreFree (R.taken room.old) dir.now member) }
    ensures back { OnErr result (AreAsBefore (R.taken room.old) (R.taken room.new) dir.now member) }
    // A crash leaves of them nothing but what it might have left before, also after an error.
    ensures within { IfOk result (λ disks. R.Disk.told → AreWithin (cells_of R.Disk.cells disks) (devices_at (R.cells room.old) dir.now member)) }
    ensures torn { OnErr result (R.Disk.told → AreWithin (devices_at (R.cells room.new) dir.now member) (devices_at (R.cells room.old) dir.now member)) }
    // All other disks of the room are as they were.
    ensures beside { KeepsBeside dir.now member (R.cells room.old) (R.cells room.new) }
    ensures beside_taken { KeepsBeside dir.now member (R.taken room.old) (R.taken room.new) }
    ensures cause { HasCause (R.faults room.old) (R.faults room.new) result }
{
    let (even_log, odd_log) = take_pair(alloc, room, dir, member, 0)?;
    match take_pair(alloc, room, dir, member, 2) {
        Ok((even_slot, odd_slot)) => Ok(Disks {
            even_log,
            odd_log,
            even_slot,
            odd_slot,
        }),
        Err(fault) => {
            room.keep(dir, member, 0, even_log);
            room.keep(dir, member, 1, odd_log);
            Err(fault)
        }
    }
}

/// Puts the four devices of a member back into the room from which they were taken. The room counts a
/// failure of a device. It takes no memory.
pub fn put_back<R: DiskRoom>(room: &mut R, dir: &[u8], member: MemberId, disks: Disks<R::Disk>)
    requires { AreHeld (R.taken room.old) R.Disk.faults dir.now member disks }
    ensures contents { R.Disk.told → images_at (R.cells room.new) dir.now member ≡ contents R.Disk.cells disks }
    ensures cells { R.Disk.told → devices_at (R.cells room.new) dir.now member ≡ cells_of R.Disk.cells disks }
    ensures back { AreFree (R.taken room.new) dir.now member }
    // All other disks of the room are as they were.
    ensures beside { KeepsBeside dir.now member (R.cells room.old) (R.cells room.new) }
    ensures beside_taken { KeepsBeside dir.now member (R.taken room.old) (R.taken room.new) }
    ensures later { R.faults room.old ≤ R.faults room.new }
    ensures rose { (before : Disks R.Disk) → AreHeld (R.taken room.old) R.Disk.faults dir.now member before → DiskRose R.Disk.faults before disks → Rose (R.faults room.old) (R.faults room.new) }
{
    let Disks {
        even_log,
        odd_log,
        even_slot,
        odd_slot,
    } = disks;
    room.keep(dir, member, 0, even_log);
    room.keep(dir, member, 1, odd_log);
    room.keep(dir, member, 2, even_slot);
    room.keep(dir, member, 3, odd_slot);
}
