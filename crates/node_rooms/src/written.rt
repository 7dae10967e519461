//! Trails over files: the edge at which a system is trusted.
ghost use Rattle.std.specs.Prelude.{◌≡◌, ◌≤◌, ℕ, Option, Some, None};
ghost use Rattle.node_rooms.specs.Shelves.{taken_at};

use crate::memory::has_failed;
use crate::shelves::Shelves;
use crate::trails::{TrailRoom, TrailSink};
use faults::Fault;
use smart_base::name::MemberId;
use smart_io::standard::StdSink;
use std::alloc::{AllocError, Global};
use std::fs::{File, Files, OpenOptions};
use std::{io, str};

/// A room of trails over files: that of member M is the file `nM.trail` of its directory. A sink that is
/// refused for want of memory may have emptied that file.
#[derive(Drop)]
pub struct FileTrails<'a, R: Files<File = File>> {
    files: &'a R,
    shelves: Shelves,
    faults: u64,
}

impl<'a, R: Files<File = File>> FileTrails<'a, R> {
    ghost use Rattle.std.specs.Prelude.{◌≡◌, ◌≤◌, [], Some, IfOk, OnOk, OnErr};
    ghost use Rattle.faults.specs.Counts.{Rose, HasCause};
    ghost use Rattle.disk_model.specs.Rooms.{address, KeepsOthers};
    ghost use Rattle.node_rooms.specs.Shelves.{taken_at};

    /// A room from which no sink is taken.
    pub fn new(files: &'a R, alloc: Global) -> Self
        ensures shelves { result.shelves.list.items ≡ [] }
        ensures faults { result.faults ≡ 0 }
    {
        FileTrails {
            files,
            shelves: Shelves::new(alloc),
            faults: 0,
        }
    }

    /// Opens a file for an address from which nothing is taken.
    fn lend(&mut self, alloc: Global, dir: &[u8], member: MemberId) -> Result<StdSink<File>, Fault>
        ensures taken { IfOk result (λ x. taken_at self.new.shelves.list.items (address dir.now member 0) ≡ Some x.faults) }
        ensures others { OnOk result (KeepsOthers (address dir.now member 0) (taken_at self.old.shelves.list.items) (taken_at self.new.shelves.list.items)) }
        ensures refused { OnErr result (self.new.shelves.list.items ≡ self.old.shelves.list.items) }
        ensures cause { HasCause self.old.faults self.new.faults result }
    {
        let Ok(dir_text) = str::from_utf8(dir) else {
            return Err(self.fault());
        };
        let Ok(path) = path(alloc, dir_text, member) else {
            return Err(Fault::NoMemory);
        };
        let Ok(inner) = open(self.files, path.as_str()) else {
            return Err(self.fault());
        };
        match self.shelves.lend(alloc, dir, member, 0, 0) {
            Ok(()) => Ok(StdSink { inner, faults: 0 }),
            Err(_) => Err(Fault::NoMemory),
        }
    }

    /// Counts a failure.
    fn fault(&mut self) -> Fault
        ensures shelves { self.new.shelves ≡ self.old.shelves }
        ensures result { result ≡ Fault.Failed }
        ensures rose { Rose self.old.faults self.new.faults }
        ensures later { self.old.faults ≤ self.new.faults }
    {
        self.faults = self.faults.saturating_add(1);
        Fault::Failed
    }
}

/// The path of a member's trail. Error: want of memory.
fn path(alloc: Global, dir: &str, member: MemberId) -> Result<String, AllocError> {
    let number = member.get();
    format!(in alloc; "{dir}/n{number}.trail")
}

/// An empty file for a trail.
fn open<R: Files<File = File>>(files: &R, path: &str) -> io::Result<File> {
    OpenOptions::new()
        .write(true)
        .create(true)
        .truncate(true)
        .open(files, path)
}

impl<'a, R: Files<File = File>> TrailRoom for FileTrails<'a, R> {
    type Sink = StdSink<File>;

    ghost kept = { λ _ _. None };

    ghost taken = { λ room. taken_at room.shelves.list.items };

    ghost faults = { λ room. room.faults };

    fn get(&mut self, alloc: Global, dir: &[u8], member: MemberId) -> Result<StdSink<File>, Fault> {
        match self.shelves.taken(dir, member, 0) {
            Some(_) => Err(self.fault()),
            None => self.lend(alloc, dir, member),
        }
    }

    fn keep(&mut self, dir: &[u8], member: MemberId, sink: StdSink<File>) {
        let now = sink.fault_count();
        let before = self.shelves.taken(dir, member, 0);
        self.shelves.put_back(dir, member, 0, None);
        if has_failed(before, now) {
            self.faults = self.faults.saturating_add(1);
        }
    }
}
