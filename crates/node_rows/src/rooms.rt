//! Rows of rooms over the files of the system, of trails in memory, and of clocks.
ghost use Rattle.std.specs.Prelude.{IsSome};
ghost use Rattle.disk_model.specs.Rooms.{address};
ghost use Rattle.node_rows.specs.Here.{dir_here};

use crate::fault::RowFault;
use crate::words::{bytes_of, word_of};
use clock_gate::clock::{Clock, RealClock, StepClock};
use clock_gate::gate::{Gate, OpenGate, Point};
use disk_model::disk::Disk;
use disk_model::room::DiskRoom;
use faults::Fault;
use node_rooms::disks::FileRoom;
use node_rooms::memory::MemTrails;
use node_rooms::trails::TrailRoom;
use node_rooms::written::FileTrails;
use smart_base::name::MemberId;
use smart_io::stream::{Sink, write_all};
use std::alloc::Global;
use std::fs;

fn fault_of(fault: Fault) -> RowFault {
    match fault {
        Fault::NoMemory => RowFault::NoMemory,
        Fault::Failed => RowFault::Room,
    }
}

/// Whether a room refuses a disk that is taken.
fn is_refused<R: DiskRoom>(room: &mut R, alloc: Global, member: MemberId) -> bool
where
    R::Disk: Drop,
    requires { IsSome (R.taken room.old (address dir_here member 0)) }
    ensures { IsSome (R.taken room.new (address dir_here member 0)) }
{
    match room.get(alloc, b".", member, 0) {
        Ok(_) => false,
        Err(_) => true,
    }
}

/// Writes over a disk.
fn write<D: Disk>(disk: &mut D, bytes: &[u8]) -> Result<(), Fault> {
    disk.cut(0)?;
    disk.write_at(0, bytes)?;
    disk.sync()
}

/// Takes the disk of a room, writes, and puts it back. Then says what it reads when it is taken again.
fn say_disk<R: DiskRoom>(rt: &HostRuntime, room: &mut R, bytes: &[u8]) -> Result<(), RowFault>
where
    R::Disk: Drop,
{
    let alloc = rt.alloc();
    let member = MemberId::new(1);
    let mut disk = room.get(alloc, b".", member, 0).map_err(fault_of)?;
    let refused = is_refused(room, alloc, member);
    let written = write(&mut disk, bytes);
    room.keep(b".", member, 0, disk);
    written.map_err(fault_of)?;
    let mut again = room.get(alloc, b".", member, 0).map_err(fault_of)?;
    let read = again.read(alloc, 0, 100);
    room.keep(b".", member, 0, again);
    let word = word_of(alloc, read.map_err(fault_of)?.as_slice())?;
    println!(rt; "a disk is given once: {refused}; reads {word}")?;
    Ok(())
}

/// Says what a room of disks over the files of a folder gives back.
pub fn say_disks(rt: &HostRuntime, word: &str) -> Result<(), RowFault> {
    let bytes = bytes_of(rt.alloc(), word)?;
    let mut room = FileRoom::new(rt, rt.alloc());
    say_disk(rt, &mut room, bytes.as_slice())?;
    fs::remove_file(rt, "./n1.0")?;
    if room
        .get(rt.alloc(), b"./nowhere", MemberId::new(1), 0)
        .is_err()
    {
        println!(rt; "a folder that is not there has no disk")?;
    }
    Ok(())
}

/// Takes the sink of a room, writes, and puts it back.
fn write_trail<R: TrailRoom>(room: &mut R, alloc: Global, bytes: &[u8]) -> Result<(), RowFault> {
    let member = MemberId::new(1);
    let mut sink = room.get(alloc, b".", member).map_err(fault_of)?;
    let written = write_all(&mut sink, bytes);
    let flushed = sink.flush();
    room.keep(b".", member, sink);
    written.map_err(fault_of)?;
    flushed.map_err(fault_of)
}

/// Says what rooms of trails keep: one in memory, one in memory that fails, and one over files.
pub fn say_trail(rt: &HostRuntime, word: &str) -> Result<(), RowFault> {
    let alloc = rt.alloc();
    let bytes = bytes_of(alloc, word)?;
    let mut memory = MemTrails::new(alloc, 0, 0);
    write_trail(&mut memory, alloc, bytes.as_slice())?;
    if let Some(text) = memory.text(b".", MemberId::new(1)) {
        let word = word_of(alloc, text)?;
        println!(rt; "in memory {word}")?;
    }
    let mut failing = MemTrails::new(alloc, 0, 1);
    let refused = write_trail(&mut failing, alloc, bytes.as_slice()).is_err();
    let faults = failing.faults();
    println!(rt; "refused {refused} with {faults} faults")?;
    let mut files = FileTrails::new(rt, alloc);
    write_trail(&mut files, alloc, bytes.as_slice())?;
    let text = fs::read(rt, "./n1.trail")?;
    let word = word_of(alloc, text.as_slice())?;
    println!(rt; "in a file {word}")?;
    fs::remove_file(rt, "./n1.trail")?;
    Ok(())
}

/// Says what clocks and the open gate tell.
pub fn say_clock(rt: &HostRuntime) -> Result<(), RowFault> {
    let mut steps = StepClock::new(250);
    let (first, second) = (steps.now(), steps.now());
    println!(rt; "steps {first} {second}")?;
    let mut real = RealClock::new(rt);
    let earlier = real.now();
    let goes = earlier <= real.now();
    println!(rt; "the system's clock goes on: {goes}")?;
    let open = OpenGate.at(MemberId::new(1), Point::Delivered { place: 1 });
    println!(rt; "the gate is open: {open}")?;
    Ok(())
}
