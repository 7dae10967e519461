//! Disks over files: the edge at which a system is trusted.
ghost use Rattle.std.specs.Prelude.{◌≡◌, ◌≤◌, ℕ, Option, Some, None, []};
ghost use Rattle.disk_model.specs.Cells.{settled};
ghost use Rattle.node_rooms.specs.Shelves.{taken_at};

use crate::memory::has_failed;
use crate::shelves::Shelves;
use disk_files::file::FileDisk;
use disk_model::room::DiskRoom;
use faults::Fault;
use smart_base::name::MemberId;
use std::alloc::{AllocError, Global};
use std::fs::{File, Files, OpenOptions};
use std::{io, str};

/// A room of disks over files: device D of member M is the file `nM.D` of its directory. A file that is
/// not there is made.
#[derive(Drop)]
pub struct FileRoom<'a, R: Files<File = File>> {
    files: &'a R,
    shelves: Shelves,
    faults: u64,
}

impl<'a, R: Files<File = File>> FileRoom<'a, R> {
    ghost use Rattle.std.specs.Prelude.{◌≡◌, ◌≤◌, [], Some, IfOk, OnOk, OnErr};
    ghost use Rattle.faults.specs.Counts.{Rose, HasCause};
    ghost use Rattle.disk_model.specs.Rooms.{address, KeepsOthers};
    ghost use Rattle.node_rooms.specs.Shelves.{taken_at};

    /// A room from which no disk is taken.
    pub fn new(files: &'a R, alloc: Global) -> Self
        ensures shelves { result.shelves.list.items ≡ [] }
        ensures faults { result.faults ≡ 0 }
    {
        FileRoom {
            files,
            shelves: Shelves::new(alloc),
            faults: 0,
        }
    }

    /// Opens a file for an address from which nothing is taken.
    fn lend(
        &mut self,
        alloc: Global,
        dir: &[u8],
        member: MemberId,
        device: u8,
    ) -> Result<FileDisk, Fault>
        ensures taken { IfOk result (λ x. taken_at self.new.shelves.list.items (address dir.now member device) ≡ Some x.faults) }
        ensures others { OnOk result (KeepsOthers (address dir.now member device) (taken_at self.old.shelves.list.items) (taken_at self.new.shelves.list.items)) }
        ensures refused { OnErr result (self.new.shelves.list.items ≡ self.old.shelves.list.items) }
        ensures cause { HasCause self.old.faults self.new.faults result }
    {
        let Ok(dir_text) = str::from_utf8(dir) else {
            return Err(self.fault());
        };
        let Ok(path) = path(alloc, dir_text, member, device) else {
            return Err(Fault::NoMemory);
        };
        let Ok(inner) = open(self.files, path.as_str()) else {
            return Err(self.fault());
        };
        match self.shelves.lend(alloc, dir, member, device, 0) {
            Ok(()) => Ok(FileDisk::new(inner)),
            Err(_) => Err(Fault::NoMemory),
        }
    }

    /// Counts a failure.
    fn fault(&mut self) -> Fault
        ensures shelves { self.new.shelves ≡ self.old.shelves }
        ensures result { result ≡ Fault.Failed }
        ensures rose { Rose self.old.faults self.new.faults }
        ensures later { self.old.faults ≤ self.new.faults }
    {
        self.faults = self.faults.saturating_add(1);
        Fault::Failed
    }
}

/// The path of a device's file. Error: want of memory.
fn path(alloc: Global, dir: &str, member: MemberId, device: u8) -> Result<String, AllocError> {
    let number = member.get();
    format!(in alloc; "{dir}/n{number}.{device}")
}

/// The file of a device.
fn open<R: Files<File = File>>(files: &R, path: &str) -> io::Result<File> {
    OpenOptions::new()
        .read(true)
        .write(true)
        .create(true)
        .open(files, path)
}

impl<'a, R: Files<File = File>> DiskRoom for FileRoom<'a, R> {
    type Disk = FileDisk;

    ghost cells = { λ _ _. settled [] };

    ghost taken = { λ room. taken_at room.shelves.list.items };

    ghost faults = { λ room. room.faults };

    fn get(
        &mut self,
        alloc: Global,
        dir: &[u8],
        member: MemberId,
        device: u8,
    ) -> Result<FileDisk, Fault> {
        match self.shelves.taken(dir, member, device) {
            Some(_) => Err(self.fault()),
            None => self.lend(alloc, dir, member, device),
        }
    }

    fn keep(&mut self, dir: &[u8], member: MemberId, device: u8, disk: FileDisk) {
        let now = disk.faults();
        let before = self.shelves.taken(dir, member, device);
        self.shelves.put_back(dir, member, device, None);
        if has_failed(before, now) {
            self.faults = self.faults.saturating_add(1);
        }
    }
}
