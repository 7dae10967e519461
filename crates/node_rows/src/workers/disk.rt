//! A disk in memory of which no clause tells what it holds.
ghost use Rattle.std.specs.Prelude.{[]};
ghost use Rattle.disk_model.specs.Cells.{settled};

use disk_model::disk::Disk;
use disk_model::memory::MemDisk;
use faults::Fault;
use smart_base::sequence::Bytes;
use std::alloc::Global;

/// A disk in memory of which no clause tells what it holds, as of a disk over a file. So any steps
/// may be played on a store over it.
pub struct TrialDisk {
    pub inner: MemDisk,
    faults: u64,
    wants: u64,
}

/// Let go by one call, so that no function that lets one go carries the whole of it.
impl Drop for TrialDisk {
    fn drop(self) {
        let TrialDisk {
            inner: _,
            faults: _,
            wants: _,
        } = self;
    }
}

impl TrialDisk {
    ghost use Rattle.std.specs.Prelude.{◌≡◌};
    ghost use Rattle.faults.specs.Counts.{HasCause, HasWant};

    /// The same disk, of which nothing is told.
    pub fn over(inner: MemDisk) -> Self {
        TrialDisk {
            inner,
            faults: 0,
            wants: 0,
        }
    }

    /// Counts the fault of a call, if it has one.
    fn counted<T: Drop>(&mut self, answer: Result<T, Fault>) -> Result<T, Fault>
        ensures same { result ≡ answer }
        ensures cause { HasCause self.old.faults self.new.faults result }
        ensures want { HasWant self.old.wants self.new.wants result }
    {
        match answer {
            Ok(value) => Ok(value),
            Err(Fault::Failed) => {
                self.faults = self.faults.saturating_add(1);
                Err(Fault::Failed)
            }
            Err(Fault::NoMemory) => {
                self.wants = self.wants.saturating_add(1);
                Err(Fault::NoMemory)
            }
        }
    }
}

impl Disk for TrialDisk {
    ghost told = { ⊥ };

    ghost remembers = { ⊥ };

    ghost cells = { λ _. settled [] };

    ghost moment = { λ _. 0 };

    ghost left_since = { λ _ _ _. Unit {0} };

    ghost faults = { λ disk. disk.faults };

    ghost wants = { λ disk. disk.wants };

    fn len(&mut self) -> Result<u64, Fault> {
        Ok(self.inner.as_read().len() as u64)
    }

    fn read(&mut self, alloc: Global, at: u64, count: u64) -> Result<Bytes, Fault> {
        let answer = self.inner.read(alloc, at, count);
        self.counted(answer)
    }

    /// A write that begins past the end fails.
    fn write_at(&mut self, at: u64, bytes: &[u8]) -> Result<(), Fault> {
        if (self.inner.as_read().len() as u64) < at {
            return self.counted(Err(Fault::Failed));
        }
        let answer = self.inner.write_at(at, bytes);
        self.counted(answer)
    }

    fn cut(&mut self, to: u64) -> Result<(), Fault> {
        let answer = self.inner.cut(to);
        self.counted(answer)
    }

    fn sync(&mut self) -> Result<(), Fault> {
        let answer = self.inner.sync();
        self.counted(answer)
    }

    ghost is_sound = { λ _ told. absurd told };

    ghost counts_now = { λ _ _ _ _ _. tt };

    ghost only_now = { λ remembers _ _ _. absurd remembers };
}
