//! Rooms, which keep the disks of all members by address.
ghost use Rattle.std.specs.Prelude.{◌≡◌, ◌≤◌, ℕ, Option, Some, None, IfOk, OnOk, OnErr, IsErrOf, IsSome, [], true};
ghost use Rattle.std.specs.List.{position};
ghost use Rattle.faults.specs.Counts.{HasCause, Rose};
ghost use Rattle.disk_model.specs.Cells.{Cells, settled};
ghost use Rattle.disk_model.specs.Rooms.{Address, address, KeepsOthers, is_at, taken_from, refilled, empty_shelf, cells_at, taken_at};

use crate::disk::Disk;
use crate::memory::MemDisk;
use faults::Fault;
use smart_base::equality::same_bytes;
use smart_base::name::MemberId;
use smart_base::sequence::Bytes;
use std::alloc::{AllocError, Global};

/// A room of disks. An address is a directory, a member and the number of one of its devices.
pub trait DiskRoom {
    type Disk: Disk;

    /// The contents of the disk at an address. Nothing is told of a room of files.
    ghost cells: { Self → Address → Cells };

    /// The number of a disk's failures when it was taken, if it is taken.
    ghost taken: { Self → Address → Option ℕ };

    /// The number of failures of the room and of the disks that it gave.
    ghost faults: { Self → ℕ };

    /// Takes the disk of an address; one that was never there holds nothing. Errors: `Failed` if the
    /// disk is taken already or the room fails; want of memory.
    fn get(
        &mut self,
        alloc: Global,
        dir: &[u8],
        member: MemberId,
        device: u8,
    ) -> Result<Self::Disk, Fault>
        ensures disk { IfOk result (λ disk. Self.Disk.told → Self.Disk.cells disk ≡ cells self.old (address dir.now member device)) }
        ensures free { IfOk result (λ disk. taken self.old (address dir.now member device) ≡ None) }
        ensures not_twice { IsSome (taken self.old (address dir.now member device)) → IsErrOf result Fault.Failed }
        ensures taken { IfOk result (λ disk. taken self.new (address dir.now member device) ≡ Some (Self.Disk.faults disk)) }
        ensures refused { OnErr result (cells self.new (address dir.now member device) ≡ cells self.old (address dir.now member device)) }
        ensures refused_taken { OnErr result (taken self.new (address dir.now member device) ≡ taken self.old (address dir.now member device)) }
        ensures others { KeepsOthers (address dir.now member device) (cells self.old) (cells self.new) }
        ensures others_taken { KeepsOthers (address dir.now member device) (taken self.old) (taken self.new) }
        ensures cause { HasCause (faults self.old) (faults self.new) result };

    /// Puts a taken disk back at its address. If the disk has failed since it was taken, the room
    /// counts that, and nothing else. It needs no memory.
    fn keep(&mut self, dir: &[u8], member: MemberId, device: u8, disk: Self::Disk)
        requires { IsSome (taken self.old (address dir.now member device)) }
        ensures disk { Self.Disk.told → cells self.new (address dir.now member device) ≡ Self.Disk.cells disk }
        ensures back { taken self.new (address dir.now member device) ≡ None }
        ensures others { KeepsOthers (address dir.now member device) (cells self.old) (cells self.new) }
        ensures others_taken { KeepsOthers (address dir.now member device) (taken self.old) (taken self.new) }
        ensures later { faults self.old ≤ faults self.new }
        ensures rose { (before : ℕ) → taken self.old (address dir.now member device) ≡ Some before → Rose before (Self.Disk.faults disk) → Rose (faults self.old) (faults self.new) }
        ensures steady { (before : ℕ) → taken self.old (address dir.now member device) ≡ Some before → (Rose before (Self.Disk.faults disk) → ⊥) → faults self.new ≡ faults self.old };
}

/// The shelf of one disk.
#[derive(Drop)]
pub struct Shelf {
    pub dir: Bytes,
    pub member: MemberId,
    pub device: u8,
    /// The disk, unless it is taken.
    pub disk: Option<MemDisk>,
    /// How often the disk had failed as it was taken.
    pub faults: u64,
}

impl Shelf {
    fn is_at(&self, dir: &[u8], member: MemberId, device: u8) -> bool
        ensures { result ≡ is_at (address dir.now member device) self.now }
    {
        same_bytes(self.dir.as_slice(), dir) && self.member == member && self.device == device
    }
}

/// The index of an address's shelf, if there is one.
fn index_at(shelves: &[Shelf], dir: &[u8], member: MemberId, device: u8) -> Option<usize>
    ensures { result ≡ position (is_at (address dir.now member device)) shelves.now }
{
    shelves
        .iter()
        .position(|shelf| shelf.is_at(dir, member, device))
}

/// Takes the disk of a shelf, and notes how often it has failed.
fn take(shelf: &mut Shelf) -> Option<MemDisk>
    ensures disk { result ≡ shelf.old.disk }
    ensures shelf { shelf.new ≡ taken_from shelf.old }
{
    let disk = shelf.disk.take();
    if let Some(disk) = &disk {
        shelf.faults = disk.faults();
    }
    disk
}

/// Puts a disk back, and tells whether it has failed since it was taken.
fn put_back(shelf: &mut Shelf, disk: MemDisk) -> bool
    ensures shelf { shelf.new ≡ refilled disk shelf.old }
    ensures failed { Rose shelf.old.faults disk.faults → result ≡ true }
    ensures rose { result ≡ true → Rose shelf.old.faults disk.faults }
{
    let now = disk.faults();
    shelf.disk = Some(disk);
    shelf.faults < now || now == u64::MAX
}

/// A room in memory. It refuses a disk that is taken, and nothing else.
#[derive(Drop)]
pub struct MemRoom {
    shelves: Vec<Shelf>,
    faults: u64,
}

impl MemRoom {
    ghost use Rattle.std.specs.Prelude.{◌++◌, ◌∷◌};
    ghost use Rattle.disk_model.specs.Memory.{disk_cells};

    /// A room without disks.
    pub fn new(alloc: Global) -> Self
        ensures shelves { result.shelves.items ≡ [] }
        ensures faults { result.faults ≡ 0 }
    {
        MemRoom {
            shelves: Vec::new(alloc),
            faults: 0,
        }
    }

    /// The number of disks that were refused, and of those that came back after a failure.
    pub fn faults(&self) -> u64
        ensures { result ≡ self.now.faults }
    {
        self.faults
    }

    /// Adds a shelf for a disk that was never there, and takes that disk.
    fn open(
        &mut self,
        alloc: Global,
        dir: &[u8],
        member: MemberId,
        device: u8,
    ) -> Result<MemDisk, AllocError>
        ensures shelves { OnOk result (self.new.shelves.items ≡ self.old.shelves.items ++ empty_shelf (address dir.now member device) ∷ []) }
        ensures disk { IfOk result (λ disk. disk_cells disk ≡ settled []) }
        ensures sound { IfOk result (λ disk. disk.faults ≡ 0) }
        ensures err { OnErr result (self.new.shelves.items ≡ self.old.shelves.items) }
        ensures faults { self.new.faults ≡ self.old.faults }
    {
        let disk = MemDisk::new(alloc, Bytes::new(alloc), Vec::new(alloc))?;
        let shelf = Shelf {
            dir: Bytes::from_slice(alloc, dir)?,
            member,
            device,
            disk: None,
            faults: 0,
        };
        self.shelves.push(shelf)?;
        Ok(disk)
    }

    /// Counts a failure.
    fn fault(&mut self) -> Fault
        ensures shelves { self.new.shelves ≡ self.old.shelves }
        ensures result { result ≡ Fault.Failed }
        ensures rose { Rose self.old.faults self.new.faults }
        ensures later { self.old.faults ≤ self.new.faults }
    {
        self.faults = self.faults.saturating_add(1);
        Fault::Failed
    }
}

impl DiskRoom for MemRoom {
    type Disk = MemDisk;

    ghost cells = { λ room. cells_at room.shelves.items };

    ghost taken = { λ room. taken_at room.shelves.items };

    ghost faults = { λ room. room.faults };

    fn get(
        &mut self,
        alloc: Global,
        dir: &[u8],
        member: MemberId,
        device: u8,
    ) -> Result<MemDisk, Fault> {
        match index_at(self.shelves.as_slice(), dir, member, device) {
            None => match self.open(alloc, dir, member, device) {
                Ok(disk) => Ok(disk),
                Err(_) => Err(Fault::NoMemory),
            },
            Some(index) => match take(&mut self.shelves[index]) {
                Some(disk) => Ok(disk),
                None => Err(self.fault()),
            },
        }
    }

    fn keep(&mut self, dir: &[u8], member: MemberId, device: u8, disk: MemDisk) {
        if let Some(index) = index_at(self.shelves.as_slice(), dir, member, device) {
            if put_back(&mut self.shelves[index], disk) {
                self.faults = self.faults.saturating_add(1);
            }
        }
    }
}
