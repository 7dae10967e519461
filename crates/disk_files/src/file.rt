//! A disk over a file. What it holds is not told: its clauses say when it fails, and no more.
ghost use Rattle.std.specs.Prelude.{◌≡◌, ◌≤◌, []};
ghost use Rattle.faults.specs.Counts.{HasCause};
ghost use Rattle.disk_model.specs.Cells.{settled};

use disk_model::disk::Disk;
use disk_model::platter::has_room;
use faults::Fault;
use smart_base::sequence::Bytes;
use std::alloc::{AllocError, Global};
use std::fs::File;
use std::os::unix::fs::FileExt;
use std::{cmp, io};

/// A file that is read and written in place. A `sync` is the system's: it returns once the file's
/// contents and length are stable, if the system and the device below it keep their word.
#[derive(Drop)]
pub struct FileDisk {
    file: File,
    /// How often a call has failed.
    faults: u64,
    /// How often it has wanted memory.
    wants: u64,
}

impl FileDisk {
    ghost use Rattle.std.specs.Prelude.{IsErrOf};
    ghost use Rattle.faults.specs.Counts.{Rose};

    /// The disk over a file that is open for reading and for writing.
    pub fn new(file: File) -> Self
        ensures faults { result.faults ≡ 0 }
        ensures wants { result.wants ≡ 0 }
    {
        FileDisk {
            file,
            faults: 0,
            wants: 0,
        }
    }

    /// The number of failed calls.
    pub fn faults(&self) -> u64
        ensures { result ≡ self.now.faults }
    {
        self.faults
    }

    /// Counts a fault.
    fn fault(&mut self) -> Fault
        ensures rose { Rose self.old.faults self.new.faults }
        ensures later { self.old.faults ≤ self.new.faults }
        ensures wants { self.new.wants ≡ self.old.wants }
        ensures failed { result ≡ Fault.Failed }
    {
        self.faults = self.faults.saturating_add(1);
        Fault::Failed
    }

    /// Counts a want of memory.
    fn want(&mut self) -> Fault
        ensures rose { Rose self.old.wants self.new.wants }
        ensures later { self.old.wants ≤ self.new.wants }
        ensures faults { self.new.faults ≡ self.old.faults }
        ensures wanted { result ≡ Fault.NoMemory }
    {
        self.wants = self.wants.saturating_add(1);
        Fault::NoMemory
    }

    /// What the system answered, where a fault is counted.
    fn answered<T>(&mut self, answer: io::Result<T>) -> Result<T, Fault>
    where
        T: Drop,
        ensures cause { HasCause self.old.faults self.new.faults result }
        ensures no_want { IsErrOf result Fault.NoMemory → ⊥ }
        ensures wants { self.new.wants ≡ self.old.wants }
    {
        match answer {
            Ok(value) => Ok(value),
            Err(_) => Err(self.fault()),
        }
    }
}

fn zeros(alloc: Global, count: usize) -> Result<Vec<u8>, AllocError> {
    vec![in alloc; 0; count]
}

impl Disk for FileDisk {
    ghost told = { ⊥ };

    ghost remembers = { ⊥ };

    ghost cells = { λ _. settled [] };

    ghost moment = { λ _. 0 };

    ghost left_since = { λ _ _ _. Unit {0} };

    ghost faults = { λ disk. disk.faults };

    ghost wants = { λ disk. disk.wants };

    fn len(&mut self) -> Result<u64, Fault> {
        let found = self.file.metadata();
        let metadata = self.answered(found)?;
        Ok(metadata.len())
    }

    fn read(&mut self, alloc: Global, at: u64, count: u64) -> Result<Bytes, Fault> {
        let len = self.len()?;
        let count = cmp::min(count, len.saturating_sub(at));
        let Ok(mut bytes) = zeros(alloc, count as usize) else {
            return Err(self.want());
        };
        let read = self.file.read_exact_at(bytes.as_mut_slice(), at);
        self.answered(read)?;
        Ok(Bytes::from_vec(bytes))
    }

    fn write_at(&mut self, at: u64, bytes: &[u8]) -> Result<(), Fault> {
        if !has_room(at, bytes.len() as u64) {
            return Err(self.fault());
        }
        let written = self.file.write_all_at(bytes, at);
        self.answered(written)
    }

    /// A length past the end changes nothing: the system would lengthen the file.
    fn cut(&mut self, to: u64) -> Result<(), Fault> {
        if self.len()? <= to {
            return Ok(());
        }
        let cut = self.file.set_len(to);
        self.answered(cut)
    }

    fn sync(&mut self) -> Result<(), Fault> {
        let synced = self.file.sync_all();
        self.answered(synced)
    }

    ghost is_sound = { λ _ told. absurd told };

    ghost counts_now = { λ _ _ _ _ _. tt };

    ghost only_now = { λ remembers _ _ _. absurd remembers };
}
