//! A disk in memory that writes in place and does not remember. It needs memory for what it holds,
//! and for what undoes the changes since its last sync. It never fails.
ghost use Rattle.std.specs.Prelude.{◌≡◌, ◌≤◌, ◌<◌, ◌+◌, ◌^◌, ℕ, length, IfOk, IfErr};
ghost use Rattle.disk_model.specs.Cells.{IsImage, IsWrong, settled};
ghost use Rattle.disk_model.specs.Memory.{plain_cells};

use crate::disk::Disk;
use crate::image::NotAnImage;
use crate::platter::{Platter, has_room};
use faults::Fault;
use smart_base::sequence::Bytes;
use std::alloc::{AllocError, Global};

pub struct PlainDisk {
    platter: Platter,
    /// The number of wants of memory so far.
    wants: u64,
}

/// Let go by one call, so that no function that lets one go carries the whole of it.
impl Drop for PlainDisk {
    fn drop(self) {
        let PlainDisk {
            platter: _,
            wants: _,
        } = self;
    }
}

impl PlainDisk {
    ghost use Rattle.faults.specs.Counts.{Rose};

    /// A disk with these bytes, all of them sure.
    pub fn new(alloc: Global, bytes: Bytes) -> Self
        ensures { plain_cells result ≡ settled bytes }
    {
        PlainDisk {
            platter: Platter::new(alloc, bytes),
            wants: 0,
        }
    }

    /// The disk that a crash now leaves with these bytes. Error: the bytes are no image of this disk.
    pub fn image(&self, alloc: Global, bytes: Bytes) -> Result<PlainDisk, NotAnImage>
        ensures ok { IfOk result (λ d. IsImage (plain_cells self.now) bytes × (plain_cells d ≡ settled bytes)) }
        ensures not { IfErr result (λ e. IsWrong (plain_cells self.now) bytes e.at) }
    {
        match self.platter.image(alloc, bytes) {
            Ok(platter) => Ok(PlainDisk { platter, wants: 0 }),
            Err(wrong) => Err(wrong),
        }
    }

    /// The greatest length since the last sync, in bytes.
    pub fn greatest(&self) -> u64
        ensures { result ≡ (plain_cells self.now).greatest }
    {
        self.platter.greatest
    }

    /// The bytes that a read gives.
    pub fn as_read(&self) -> &[u8]
        ensures { result.now ≡ (plain_cells self.now).now }
    {
        &self.platter.contents
    }

    /// The bytes that a read gave at the last sync. Error: want of memory.
    pub fn as_synced(&self, alloc: Global) -> Result<Bytes, AllocError>
        ensures { IfOk result (λ bytes. bytes ≡ (plain_cells self.now).sure) }
    {
        self.platter.as_synced(alloc)
    }

    /// Counts a want of memory.
    fn want(&mut self) -> Fault
        ensures platter { self.new.platter ≡ self.old.platter }
        ensures rose { Rose self.old.wants self.new.wants }
        ensures later { self.old.wants ≤ self.new.wants }
        ensures result { result ≡ Fault.NoMemory }
    {
        self.wants = self.wants.saturating_add(1);
        Fault::NoMemory
    }
}

impl Disk for PlainDisk {
    ghost use Rattle.disk_model.specs.Memory.{plain_cells};

    ghost told = { Unit {0} };

    ghost remembers = { ⊥ };

    ghost cells = { plain_cells };

    ghost moment = { λ _. 0 };

    ghost left_since = { λ _ _ _. Unit {0} };

    ghost faults = { λ _. 0 };

    ghost wants = { λ d. d.wants };

    fn len(&mut self) -> Result<u64, Fault> {
        Ok(self.platter.contents.len() as u64)
    }

    fn read(&mut self, alloc: Global, at: u64, count: u64) -> Result<Bytes, Fault> {
        match self.platter.read(alloc, at, count) {
            Ok(bytes) => Ok(bytes),
            Err(_) => Err(self.want()),
        }
    }

    fn write_at(&mut self, at: u64, bytes: &[u8]) -> Result<(), Fault> {
        if !has_room(at, bytes.len() as u64) {
            return Err(self.want());
        }
        match self.platter.write(at, bytes) {
            Ok(()) => Ok(()),
            Err(_) => Err(self.want()),
        }
    }

    fn cut(&mut self, to: u64) -> Result<(), Fault> {
        if self.platter.cut(to).is_err() {
            return Err(self.want());
        }
        Ok(())
    }

    fn sync(&mut self) -> Result<(), Fault> {
        self.platter.settle();
        Ok(())
    }

    ghost is_sound = { λ d _. d.platter.sound };

    ghost counts_now = { λ d t c le image. tt };

    ghost only_now = { λ never. absurd never };
}
