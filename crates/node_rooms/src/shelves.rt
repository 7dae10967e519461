//! The shelves of a room.
ghost use Rattle.std.specs.Prelude.{◌≡◌};
ghost use Rattle.std.specs.List.{position};
ghost use Rattle.disk_model.specs.Rooms.{address};
ghost use Rattle.node_rooms.specs.Shelves.{is_at, with_contents};

use smart_base::equality::same_bytes;
use smart_base::name::MemberId;
use smart_base::sequence::Bytes;
use smart_io::memory::MemSink;
use std::alloc::{AllocError, Global};

/// The shelf of one address.
#[derive(Drop)]
pub struct Shelf {
    pub dir: Bytes,
    pub member: MemberId,
    pub device: u8,
    /// How often the thing had failed when it was taken, if it is taken.
    pub taken: Option<u64>,
    /// The sink that came back, if the room keeps it.
    pub sink: Option<MemSink>,
}

impl Shelf {
    fn is_at(&self, dir: &[u8], member: MemberId, device: u8) -> bool
        ensures { result ≡ is_at (address dir.now member device) self.now }
    {
        same_bytes(self.dir.as_slice(), dir) && self.member == member && self.device == device
    }
}

/// The index of an address's shelf, if there is one.
fn index_at(shelves: &[Shelf], dir: &[u8], member: MemberId, device: u8) -> Option<usize>
    ensures { result ≡ position (is_at (address dir.now member device)) shelves.now }
{
    shelves
        .iter()
        .position(|shelf| shelf.is_at(dir, member, device))
}

/// Puts other contents onto a shelf.
fn refill(shelf: &mut Shelf, taken: Option<u64>, sink: Option<MemSink>)
    ensures { shelf.new ≡ with_contents taken sink shelf.old }
{
    shelf.taken = taken;
    shelf.sink = sink;
}

/// The shelves of a room, of different addresses.
#[derive(Drop)]
pub struct Shelves {
    pub list: Vec<Shelf>,
}

impl Shelves {
    ghost use Rattle.std.specs.Prelude.{◌≡◌, ◌++◌, ◌∷◌, [], None, Some, OnOk, OnErr, IsSome};
    ghost use Rattle.std.specs.Option.{option_copied};
    ghost use Rattle.disk_model.specs.Rooms.{address, KeepsOthers};
    ghost use Rattle.node_rooms.specs.Shelves.{taken_at, sink_at, lent};

    /// No shelves.
    pub fn new(alloc: Global) -> Self
        ensures { result.list.items ≡ [] }
    {
        Shelves {
            list: Vec::new(alloc),
        }
    }

    /// How often a thing had failed when it was taken, if it is taken.
    pub fn taken(&self, dir: &[u8], member: MemberId, device: u8) -> Option<u64>
        ensures { result ≡ taken_at self.now.list.items (address dir.now member device) }
    {
        match index_at(self.list.as_slice(), dir, member, device) {
            None => None,
            Some(index) => self.list[index].taken,
        }
    }

    /// The sink that is kept at an address.
    pub fn sink(&self, dir: &[u8], member: MemberId, device: u8) -> Option<&MemSink>
        ensures { option_copied result ≡ sink_at self.now.list.items (address dir.now member device) }
    {
        match index_at(self.list.as_slice(), dir, member, device) {
            None => None,
            Some(index) => self.list[index].sink.as_ref(),
        }
    }

    /// Adds a shelf from which something is taken. Error: want of memory.
    fn add(
        &mut self,
        alloc: Global,
        dir: &[u8],
        member: MemberId,
        device: u8,
        faults: u64,
    ) -> Result<(), AllocError>
        ensures list { OnOk result (self.new.list.items ≡ self.old.list.items ++ lent (address dir.now member device) faults ∷ []) }
        ensures err { OnErr result (self.new.list.items ≡ self.old.list.items) }
    {
        let shelf = Shelf {
            dir: Bytes::from_slice(alloc, dir)?,
            member,
            device,
            taken: Some(faults),
            sink: None,
        };
        self.list.push(shelf)?;
        Ok(())
    }

    /// Notes that a thing is taken, which has failed so often. Nothing is kept there then. Error: want of
    /// memory.
    pub fn lend(
        &mut self,
        alloc: Global,
        dir: &[u8],
        member: MemberId,
        device: u8,
        faults: u64,
    ) -> Result<(), AllocError>
        ensures taken { OnOk result (taken_at self.new.list.items (address dir.now member device) ≡ Some faults) }
        ensures others { OnOk result (KeepsOthers (address dir.now member device) (taken_at self.old.list.items) (taken_at self.new.list.items)) }
        ensures other_sinks { OnOk result (KeepsOthers (address dir.now member device) (sink_at self.old.list.items) (sink_at self.new.list.items)) }
        ensures err { OnErr result (self.new.list.items ≡ self.old.list.items) }
    {
        match index_at(self.list.as_slice(), dir, member, device) {
            None => self.add(alloc, dir, member, device, faults),
            Some(index) => {
                refill(&mut self.list[index], Some(faults), None);
                Ok(())
            }
        }
    }

    /// Notes that a taken thing came back, and keeps the sink that it is given. It takes no memory.
    pub fn put_back(&mut self, dir: &[u8], member: MemberId, device: u8, sink: Option<MemSink>)
        requires { IsSome (taken_at self.old.list.items (address dir.now member device)) }
        ensures taken { taken_at self.new.list.items (address dir.now member device) ≡ None }
        ensures sink { sink_at self.new.list.items (address dir.now member device) ≡ sink }
        ensures others { KeepsOthers (address dir.now member device) (taken_at self.old.list.items) (taken_at self.new.list.items) }
        ensures other_sinks { KeepsOthers (address dir.now member device) (sink_at self.old.list.items) (sink_at self.new.list.items) }
    {
        if let Some(index) = index_at(self.list.as_slice(), dir, member, device) {
            refill(&mut self.list[index], None, sink);
        }
    }
}
