//! The rooms in which lives are lived, and what stays in them.
use crate::case::{Case, Trails};
use crate::fault::RowFault;
use crate::life::{Ending, lived, say};
use crate::runs::say_run;
use crate::steps::{Step, member_of, number_of};
use disk_model::memory::MemDisk;
use disk_model::room::{DiskRoom, MemRoom};
use durable_store::reopening::reopen;
use member_opening::devices::take_devices;
use node_rooms::disks::FileRoom;
use node_rooms::memory::MemTrails;
use node_rooms::written::FileTrails;
use smart_base::name::MemberId;
use smart_base::sequence::Bytes;
use std::alloc::{AllocError, Global};
use std::sync::Wait;
use std::thread::Threads;
use std::{fs, io};
use store_laws::job::Kept;

/// The files of a member: its devices, and its trail.
const FILES: [&str; 5] = ["./n1.0", "./n1.1", "./n1.2", "./n1.3", "./n1.trail"];

/// The owner of devices where a row names none.
const OWNER: &str = "1 .";

/// The last event of a trail that has ended.
const END: &[u8] = b"\0\0\0\x01\x08";

/// Whose devices are meant: the number of a member, and its directory.
#[derive(Drop)]
struct Owner<'a> {
    number: u16,
    dir: &'a str,
}

/// The owner that two words are.
fn owner_of(words: &str) -> Result<Owner<'_>, RowFault> {
    let (number, dir) = words.split_once(' ').ok_or(RowFault::Word)?;
    Ok(Owner {
        number: member_of(number)?,
        dir,
    })
}

/// The number of a device that a word is.
fn device_of(word: &str) -> Result<u8, RowFault> {
    match number_of(word)? {
        0 => Ok(0),
        1 => Ok(1),
        2 => Ok(2),
        3 => Ok(3),
        _ => Err(RowFault::Word),
    }
}

/// Says what a store restores.
fn say_kept(rt: &HostRuntime, kept: &Kept) -> Result<(), RowFault> {
    let count = kept.entries.len();
    match &kept.present {
        Some(checkpoint) => {
            let generation = checkpoint.generation;
            let snapshot = hex::encode(rt.alloc(), checkpoint.snapshot.as_slice())?;
            println!(rt; "generation {generation}, {count} entries, snapshot {snapshot}")?;
        }
        None => println!(rt; "no checkpoint, {count} entries")?,
    }
    Ok(())
}

/// Says what the devices of member 1 restore. They are taken then.
fn say_restored_of<M: DiskRoom>(rt: &HostRuntime, room: &mut M) -> Result<(), RowFault>
where
    M::Disk: Drop,
{
    let alloc = rt.alloc();
    let Ok(disks) = take_devices(alloc, room, b".", MemberId::new(1)) else {
        return Err(RowFault::Room);
    };
    match reopen(alloc, disks) {
        Ok((_store, kept)) => say_kept(rt, &kept),
        Err(_) => Err(RowFault::Room),
    }
}

/// The trail that a room keeps of a member, or of the client, which is 0; nothing, if it keeps none.
fn trail_in(
    alloc: Global,
    trails: &MemTrails,
    dir: &[u8],
    number: u16,
) -> Result<Vec<u8>, AllocError> {
    match trails.text(dir, MemberId::new(number)) {
        Some(text) => Vec::from_slice(alloc, text),
        None => Ok(Vec::new(alloc)),
    }
}

/// The trails that a room keeps of the client and of members, one behind the other. Says of each whether it has its
/// end.
fn say_trails(rt: &HostRuntime, trails: &MemTrails, kept: &Trails) -> Result<Vec<u8>, RowFault> {
    let mut all = Vec::new(rt.alloc());
    for number in 0..=kept.members {
        let trail = trail_in(rt.alloc(), trails, kept.dir.as_bytes(), number)?;
        let has_end = trail.as_slice().ends_with(END);
        println!(rt; "trail {number} has its end: {has_end}")?;
        all.extend_from_slice(trail.as_slice())?;
    }
    Ok(all)
}

/// Rooms in memory of devices and of trails.
#[derive(Drop)]
pub struct Rooms {
    disks: MemRoom,
    trails: MemTrails,
}

impl Rooms {
    /// Rooms in which nothing is.
    pub fn new(alloc: Global) -> Rooms {
        Rooms {
            disks: MemRoom::new(alloc),
            trails: MemTrails::new(alloc, 0, 0),
        }
    }

    /// Takes all away, files too.
    pub fn clear(&mut self, rt: &HostRuntime) -> Result<(), RowFault> {
        *self = Rooms::new(rt.alloc());
        for path in FILES {
            match fs::remove_file(rt, path) {
                Err(error) if error.kind() != io::ErrorKind::NotFound => return Err(error.into()),
                _ => {}
            }
        }
        Ok(())
    }

    /// Takes a device in memory, and gives it.
    fn device(
        &mut self,
        alloc: Global,
        owner: &Owner<'_>,
        device: u8,
    ) -> Result<MemDisk, RowFault> {
        let member = MemberId::new(owner.number);
        match self.disks.get(alloc, owner.dir.as_bytes(), member, device) {
            Ok(disk) => Ok(disk),
            Err(_) => Err(RowFault::Room),
        }
    }

    /// Puts a device in memory in the place of another.
    fn put(
        &mut self,
        alloc: Global,
        owner: &Owner<'_>,
        device: u8,
        disk: MemDisk,
    ) -> Result<(), RowFault> {
        let dir = owner.dir.as_bytes();
        let member = MemberId::new(owner.number);
        match self.disks.get(alloc, dir, member, device) {
            Ok(_) => {
                self.disks.keep(dir, member, device, disk);
                Ok(())
            }
            Err(_) => Err(RowFault::Room),
        }
    }

    /// Takes a device in memory: its number, and behind it its owner.
    pub fn take(&mut self, alloc: Global, words: &str) -> Result<(), RowFault> {
        let (device, owner) = words.split_once(' ').unwrap_or((words, OWNER));
        let (device, owner) = (device_of(device)?, owner_of(owner)?);
        self.device(alloc, &owner, device)?;
        Ok(())
    }

    /// Puts an empty device in memory in the place of another: two words are its number, and the number of
    /// its call that fails. Behind them stands its owner.
    pub fn let_fail(&mut self, alloc: Global, words: &str) -> Result<(), RowFault> {
        let (device, rest) = words.split_once(' ').ok_or(RowFault::Word)?;
        let (call, owner) = rest.split_once(' ').unwrap_or((rest, OWNER));
        let mut calls = Vec::new(alloc);
        calls.push(number_of(call)?)?;
        let disk = MemDisk::new(alloc, Bytes::new(alloc), calls)?;
        self.put(alloc, &owner_of(owner)?, device_of(device)?, disk)
    }

    /// Puts the devices in memory of one owner in the place of those of another.
    pub fn move_devices(&mut self, alloc: Global, words: &str) -> Result<(), RowFault> {
        let (from, to) = words.split_once(" to ").ok_or(RowFault::Word)?;
        let (from, to) = (owner_of(from)?, owner_of(to)?);
        for device in 0..4 {
            let disk = self.device(alloc, &from, device)?;
            self.put(alloc, &to, device, disk)?;
        }
        Ok(())
    }

    /// Lets a case play over what is in memory.
    fn ending_in_memory<R: Threads + Wait + Sync>(
        &mut self,
        handle: &R,
        rt: &HostRuntime,
        case: Case,
    ) -> Result<Ending, RowFault> {
        self.trails.refusals = case.refusals;
        self.trails.failing = case.trail;
        lived(handle, rt, case, &mut self.disks, &mut self.trails)
    }

    /// Lets a member live over devices in memory, and says how that ends.
    pub fn live_in_memory<R: Threads + Wait + Sync>(
        &mut self,
        handle: &R,
        rt: &HostRuntime,
        case: Case,
    ) -> Result<(), RowFault> {
        let ending = self.ending_in_memory(handle, rt, case)?;
        let trail = trail_in(rt.alloc(), &self.trails, b".", 1)?;
        say(rt, &ending, trail)
    }

    /// Runs words over devices in memory, and says how that ends. The input may give trails that are kept.
    pub fn run_in_memory<R: Threads + Wait + Sync>(
        &mut self,
        handle: &R,
        rt: &HostRuntime,
        mut case: Case,
    ) -> Result<(), RowFault> {
        if let Some(kept) = case.kept.take() {
            let trails = say_trails(rt, &self.trails, &kept)?;
            case.steps.push(Step::Bytes(trails))?;
        }
        let ending = self.ending_in_memory(handle, rt, case)?;
        say_run(rt, &ending)
    }

    /// Lets a member live over files, and says how that ends.
    pub fn live_in_files<R: Threads + Wait + Sync>(
        &mut self,
        handle: &R,
        rt: &HostRuntime,
        case: Case,
    ) -> Result<(), RowFault> {
        let mut disks = FileRoom::new(rt, rt.alloc());
        let mut trails = FileTrails::new(rt, rt.alloc());
        let ending = lived(handle, rt, case, &mut disks, &mut trails)?;
        let trail = fs::read(rt, "./n1.trail")?;
        say(rt, &ending, trail)
    }

    /// Says what the devices restore that a word names. Those in memory are taken then.
    pub fn say_restored(&mut self, rt: &HostRuntime, word: &str) -> Result<(), RowFault> {
        match word {
            "memory" => say_restored_of(rt, &mut self.disks),
            "files" => say_restored_of(rt, &mut FileRoom::new(rt, rt.alloc())),
            _ => Err(RowFault::Word),
        }
    }

    /// Says the bytes of the files.
    pub fn say_bytes(&self, rt: &HostRuntime) -> Result<(), RowFault> {
        for path in FILES {
            let bytes = fs::read(rt, path)?;
            let word = hex::encode(rt.alloc(), bytes.as_slice())?;
            println!(rt; "{path} {word}")?;
        }
        Ok(())
    }
}
