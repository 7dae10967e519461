//! A disk in memory that remembers its first contents and each change. What a crash at any moment
//! might have left is therefore known. The disk fails when it is told to.
ghost use Rattle.std.specs.Prelude.{◌≡◌, ◌≤◌, ◌<◌, ◌+◌, ◌^◌, ℕ, length, IfOk, IfErr, OnOk, OnErr};
ghost use Rattle.disk_model.specs.Cells.{settled};
ghost use Rattle.disk_model.specs.Replay.{replay};
ghost use Rattle.disk_model.specs.Platters.{cells_of};

use crate::disk::Disk;
use crate::image::{ImageFault, NotAnImage};
use crate::platter::{Change, Platter, Range, has_room};
use faults::Fault;
use smart_base::sequence::Bytes;
use std::alloc::{AllocError, Global};

pub struct MemDisk {
    first: Bytes,
    changes: Vec<Change>,
    platter: Platter,
    failing: Vec<u64>,
    made: u64,
    faults: u64,
    wants: u64,
    ghost replayed: { replay changes.items (settled first) ≡ cells_of platter },
}

/// Let go by one call, so that no function that lets one go carries the whole of it.
impl Drop for MemDisk {
    fn drop(self) {
        let MemDisk {
            first: _,
            changes: _,
            platter: _,
            failing: _,
            made: _,
            faults: _,
            wants: _,
        } = self;
    }
}

impl MemDisk {
    ghost use Rattle.std.specs.Prelude.{IsErrOf, []};
    ghost use Rattle.faults.specs.Counts.{Rose};
    ghost use Rattle.disk_model.specs.Cells.{IsImage};
    ghost use Rattle.disk_model.specs.Calls.{Elapses};
    ghost use Rattle.disk_model.specs.Replay.{change_cells, Begins};
    ghost use Rattle.disk_model.specs.Memory.{disk_cells, disk_moment, disk_left, next_number, is_due, Refuses};

    /// A disk with these bytes, all of them sure. Of its calls `write_at`, `cut` and `sync` those of
    /// the numbers in `failing`, from 1, fail. Error: want of memory.
    pub fn new(alloc: Global, bytes: Bytes, failing: Vec<u64>) -> Result<Self, AllocError>
        ensures cells { IfOk result (λ d. disk_cells d ≡ settled bytes) }
        ensures failing { IfOk result (λ d. (d.failing ≡ failing) × (d.made ≡ 0)) }
        ensures faults { IfOk result (λ d. d.faults ≡ 0) }
        ensures wants { IfOk result (λ d. d.wants ≡ 0) }
    {
        let first = Bytes::from_slice(alloc, bytes.as_slice())?;
        Ok(MemDisk {
            first,
            changes: Vec::new(alloc),
            platter: Platter::new(alloc, bytes),
            failing,
            made: 0,
            faults: 0,
            wants: 0,
        })
    }

    /// The disk that a crash now leaves with these bytes; it never fails. Errors: the bytes are no
    /// image of this disk; want of memory.
    pub fn image(&self, alloc: Global, bytes: Bytes) -> Result<MemDisk, ImageFault>
        ensures ok { IfOk result (λ d. IsImage (disk_cells self.now) bytes × (disk_cells d ≡ settled bytes)) }
        ensures never { IfOk result (λ d. d.failing.items ≡ []) }
        ensures faults { IfOk result (λ d. d.faults ≡ 0) }
        ensures wants { IfOk result (λ d. d.wants ≡ 0) }
        ensures not { IfErr result (λ e. Refuses e (disk_cells self.now) bytes) }
    {
        let first = Bytes::from_slice(alloc, bytes.as_slice())?;
        match self.platter.image(alloc, bytes) {
            Ok(platter) => Ok(MemDisk {
                first,
                changes: Vec::new(alloc),
                platter,
                failing: Vec::new(alloc),
                made: 0,
                faults: 0,
                wants: 0,
            }),
            Err(NotAnImage { at }) => Err(ImageFault::NotAnImage { at }),
        }
    }

    /// The bytes that a read gives.
    pub fn as_read(&self) -> &[u8]
        ensures { result.now ≡ (disk_cells self.now).now }
    {
        &self.platter.contents
    }

    /// The bytes that a read gave at the last sync. Error: want of memory.
    pub fn as_synced(&self, alloc: Global) -> Result<Bytes, AllocError>
        ensures { IfOk result (λ bytes. bytes ≡ (disk_cells self.now).sure) }
    {
        self.platter.as_synced(alloc)
    }

    /// The number of failures so far.
    pub fn faults(&self) -> u64
        ensures { result ≡ self.now.faults }
    {
        self.faults
    }

    /// Makes a change and notes it. Error: want of memory; nothing has changed then.
    fn make(&mut self, change: Change) -> Result<(), AllocError>
        requires { Begins change (disk_cells self.old) }
        ensures ok { OnOk result (disk_cells self.new ≡ change_cells change (disk_cells self.old)) }
        ensures err { OnErr result (disk_cells self.new ≡ disk_cells self.old) }
        ensures time { Elapses (disk_moment self.old) (disk_moment self.new) (disk_left self.old) (disk_left self.new) (IsImage (disk_cells self.new)) }
        ensures faults { self.new.faults ≡ self.old.faults }
        ensures wants { self.new.wants ≡ self.old.wants }
        ensures made { self.new.made ≡ self.old.made }
        ensures failing { self.new.failing ≡ self.old.failing }
    {
        self.changes.reserve(1)?;
        self.platter.apply(&change)?;
        self.changes.push_reserved(change);
        Ok(())
    }

    /// Counts a changing call, and tells whether it is to fail.
    fn is_to_fail(&mut self) -> bool
        ensures made { self.new.made ≡ next_number self.old }
        ensures answer { result ≡ is_due self.old }
        ensures failing { self.new.failing ≡ self.old.failing }
        ensures platter { self.new.platter ≡ self.old.platter }
        ensures changes { self.new.changes ≡ self.old.changes }
        ensures first { self.new.first ≡ self.old.first }
        ensures faults { self.new.faults ≡ self.old.faults }
        ensures wants { self.new.wants ≡ self.old.wants }
    {
        self.made = self.made.saturating_add(1);
        self.failing.contains(&self.made)
    }

    /// Counts a failure.
    fn fault(&mut self) -> Fault
        ensures platter { self.new.platter ≡ self.old.platter }
        ensures changes { self.new.changes ≡ self.old.changes }
        ensures first { self.new.first ≡ self.old.first }
        ensures made { self.new.made ≡ self.old.made }
        ensures failing { self.new.failing ≡ self.old.failing }
        ensures wants { self.new.wants ≡ self.old.wants }
        ensures rose { Rose self.old.faults self.new.faults }
        ensures later { self.old.faults ≤ self.new.faults }
        ensures result { result ≡ Fault.Failed }
    {
        self.faults = self.faults.saturating_add(1);
        Fault::Failed
    }

    /// Counts a want of memory.
    fn want(&mut self) -> Fault
        ensures platter { self.new.platter ≡ self.old.platter }
        ensures changes { self.new.changes ≡ self.old.changes }
        ensures first { self.new.first ≡ self.old.first }
        ensures made { self.new.made ≡ self.old.made }
        ensures failing { self.new.failing ≡ self.old.failing }
        ensures faults { self.new.faults ≡ self.old.faults }
        ensures rose { Rose self.old.wants self.new.wants }
        ensures later { self.old.wants ≤ self.new.wants }
        ensures result { result ≡ Fault.NoMemory }
    {
        self.wants = self.wants.saturating_add(1);
        Fault::NoMemory
    }
}

/// A disk whose changing calls fail if and only if they were told to. After a failure a read gives
/// what it did before, and a crash may leave any part of the call.
impl Disk for MemDisk {
    ghost use Rattle.std.specs.Prelude.{IsErrOf, true, false};
    ghost use Rattle.faults.specs.Counts.{HasCause, HasWant};
    ghost use Rattle.disk_model.specs.Cells.{IsImage, Within, written, cut_to};
    ghost use Rattle.disk_model.specs.Calls.{Elapses};
    ghost use Rattle.std.specs.Prelude.{take, drop};
    ghost use Rattle.disk_model.specs.Memory.{disk_cells, disk_moment, disk_left, next_number, is_due};
    ghost use Rattle.disk_model.specs.Replay.{torn_write, torn_cut};
    ghost use Rattle.disk_model.specs.Laws.{counts_now, only_now};

    ghost told = { Unit {0} };

    ghost remembers = { Unit {0} };

    ghost cells = { disk_cells };

    ghost moment = { disk_moment };

    ghost left_since = { disk_left };

    ghost faults = { λ d. d.faults };

    ghost wants = { λ d. d.wants };

    fn len(&mut self) -> Result<u64, Fault>
        ensures length { IfOk result (λ n. n ≡ length (disk_cells self.old).now) }
        ensures same { disk_cells self.new ≡ disk_cells self.old }
        ensures time { Elapses (disk_moment self.old) (disk_moment self.new) (disk_left self.old) (disk_left self.new) (IsImage (disk_cells self.new)) }
        ensures cause { HasCause self.old.faults self.new.faults result }
        ensures want { HasWant self.old.wants self.new.wants result }
        ensures uncounted { self.new ≡ self.old }
    {
        Ok(self.platter.contents.len() as u64)
    }

    fn read(&mut self, alloc: Global, at: u64, count: u64) -> Result<Bytes, Fault>
        ensures bytes { IfOk result (λ bytes. bytes ≡ take count (drop at (disk_cells self.old).now)) }
        ensures same { disk_cells self.new ≡ disk_cells self.old }
        ensures time { Elapses (disk_moment self.old) (disk_moment self.new) (disk_left self.old) (disk_left self.new) (IsImage (disk_cells self.new)) }
        ensures cause { HasCause self.old.faults self.new.faults result }
        ensures want { HasWant self.old.wants self.new.wants result }
        ensures uncounted { self.new ≡ record self.old { wants = self.new.wants } }
        ensures unchanged { OnOk result (self.new ≡ self.old) }
    {
        match self.platter.read(alloc, at, count) {
            Ok(bytes) => Ok(bytes),
            Err(_) => Err(self.want()),
        }
    }

    fn write_at(&mut self, at: u64, bytes: &[u8]) -> Result<(), Fault>
        requires { at ≤ length (disk_cells self.old).now }
        ensures written { OnOk result (disk_cells self.new ≡ written at bytes.now (disk_cells self.old)) }
        ensures torn { Within (disk_cells self.new) (written at bytes.now (disk_cells self.old)) }
        ensures room { OnOk result (at + length bytes.now < 2 ^ 63) }
        ensures time { Elapses (disk_moment self.old) (disk_moment self.new) (disk_left self.old) (disk_left self.new) (IsImage (disk_cells self.new)) }
        ensures cause { HasCause self.old.faults self.new.faults result }
        ensures want { HasWant self.old.wants self.new.wants result }
        ensures failed { IsErrOf result Fault.Failed → disk_cells self.new ≡ torn_write (record { from = at; upto = at + length bytes.now }) (disk_cells self.old) }
        ensures told { IsErrOf result Fault.Failed → is_due self.old ≡ true }
        ensures not_told { OnOk result (is_due self.old ≡ false) }
        ensures made { self.new.made ≡ next_number self.old }
        ensures failing { self.new.failing ≡ self.old.failing }
    {
        let is_to_fail = self.is_to_fail();
        if !has_room(at, bytes.len() as u64) {
            return Err(self.want());
        }
        if is_to_fail {
            let upto = at + bytes.len() as u64;
            return match self.make(Change::TornWrite(Range { from: at, upto })) {
                Ok(()) => Err(self.fault()),
                Err(_) => Err(self.want()),
            };
        }
        let copy = match Bytes::from_slice(*self.changes.allocator(), bytes) {
            Ok(copy) => copy,
            Err(_) => return Err(self.want()),
        };
        match self.make(Change::Wrote(at, copy)) {
            Ok(()) => Ok(()),
            Err(_) => Err(self.want()),
        }
    }

    fn cut(&mut self, to: u64) -> Result<(), Fault>
        ensures cut { OnOk result (disk_cells self.new ≡ cut_to to (disk_cells self.old)) }
        ensures torn { Within (disk_cells self.new) (cut_to to (disk_cells self.old)) }
        ensures time { Elapses (disk_moment self.old) (disk_moment self.new) (disk_left self.old) (disk_left self.new) (IsImage (disk_cells self.new)) }
        ensures cause { HasCause self.old.faults self.new.faults result }
        ensures want { HasWant self.old.wants self.new.wants result }
        ensures failed { IsErrOf result Fault.Failed → disk_cells self.new ≡ torn_cut to (disk_cells self.old) }
        ensures told { IsErrOf result Fault.Failed → is_due self.old ≡ true }
        ensures not_told { OnOk result (is_due self.old ≡ false) }
        ensures made { self.new.made ≡ next_number self.old }
        ensures failing { self.new.failing ≡ self.old.failing }
    {
        if self.is_to_fail() {
            if self.make(Change::TornCut(to)).is_err() {
                return Err(self.want());
            }
            return Err(self.fault());
        }
        if self.make(Change::Cut(to)).is_err() {
            return Err(self.want());
        }
        Ok(())
    }

    fn sync(&mut self) -> Result<(), Fault>
        ensures settled { OnOk result (disk_cells self.new ≡ settled (disk_cells self.old).now) }
        ensures torn { Within (disk_cells self.new) (disk_cells self.old) }
        ensures time { Elapses (disk_moment self.old) (disk_moment self.new) (disk_left self.old) (disk_left self.new) (IsImage (disk_cells self.new)) }
        ensures cause { HasCause self.old.faults self.new.faults result }
        ensures want { HasWant self.old.wants self.new.wants result }
        ensures failed { OnErr result (disk_cells self.new ≡ disk_cells self.old) }
        ensures told { IsErrOf result Fault.Failed → is_due self.old ≡ true }
        ensures not_told { OnOk result (is_due self.old ≡ false) }
        ensures made { self.new.made ≡ next_number self.old }
        ensures failing { self.new.failing ≡ self.old.failing }
    {
        if self.is_to_fail() {
            return Err(self.fault());
        }
        if self.make(Change::Synced).is_err() {
            return Err(self.want());
        }
        Ok(())
    }

    ghost is_sound = { λ d _. d.platter.sound };

    ghost counts_now = { λ d t c le image. counts_now d.first d.changes.items (disk_cells d) t c d.replayed le image };

    ghost only_now = { λ _ d c left. only_now d.first d.changes.items (disk_cells d) c d.replayed left };
}
