//! The contents of a disk in memory. They are changed in place, and what undoes the changes since the
//! last sync is kept.
ghost use Rattle.std.specs.Prelude.{◌≡◌, ◌≤◌, ◌<◌, ◌+◌, ◌++◌, ◌∷◌, ◌^◌, [], ℕ, length, take, drop, min, max, IfOk, IfErr, OnOk, OnErr, IfSome, IsNone, IsTrue, ◌↔◌};
ghost use Rattle.disk_model.specs.Cells.{IsSound, put, covers};
ghost use Rattle.disk_model.specs.Undo.{undone, all_undone};

use crate::image::NotAnImage;
use smart_base::sequence::Bytes;
use std::alloc::{AllocError, Global};

/// More bytes than any disk has.
const LIMIT: u64 = 1 << 63;

/// The indices from one up to another.
#[derive(Clone, Copy, Debug, PartialEq, Eq)]
pub struct Range {
    pub from: u64,
    pub upto: u64,
}

/// A change of a disk in memory by a call.
#[derive(Drop)]
pub enum Change {
    /// These bytes were written from an index on.
    Wrote(u64, Bytes),
    /// The contents were cut to a length.
    Cut(u64),
    /// All of the contents were made sure.
    Synced,
    /// A write into a range failed.
    TornWrite(Range),
    /// A cut to a length failed.
    TornCut(u64),
}

/// What undoes a change: the earlier length, and the bytes that were at an index.
#[derive(Drop)]
pub struct Undo {
    pub at: u64,
    pub bytes: Bytes,
    pub length: u64,
}

/// The contents: what a read gives, and what is not yet sure.
pub struct Platter {
    pub contents: Vec<u8>,
    pub undo: Vec<Undo>,
    pub shortest: u64,
    pub greatest: u64,
    pub touched: Vec<Range>,
    ghost sound: { IsSound (record { now = contents.items; sure = all_undone undo.items contents.items; shortest = shortest; greatest = greatest; touched = touched.items }) },
}

/// Let go by one call, so that no function that lets one go carries the whole of it.
impl Drop for Platter {
    fn drop(self) {
        let Platter {
            contents: _,
            undo: _,
            shortest: _,
            greatest: _,
            touched: _,
        } = self;
    }
}

impl Platter {
    ghost use Rattle.disk_model.specs.Cells.{IsImage, IsWrong, settled, written, cut_to};
    ghost use Rattle.disk_model.specs.Replay.{torn_write, torn_cut, change_cells, Begins};
    ghost use Rattle.disk_model.specs.Platters.{cells_of};

    /// Contents with these bytes, all of them sure.
    pub fn new(alloc: Global, bytes: Bytes) -> Self
        ensures { cells_of result ≡ settled bytes }
    {
        let contents = bytes.into_vec();
        let length = contents.len() as u64;
        Platter {
            contents,
            undo: Vec::new(alloc),
            shortest: length,
            greatest: length,
            touched: Vec::new(alloc),
        }
    }

    /// The bytes from an index on: `count` bytes, or fewer if the contents end before. Error: want of
    /// memory.
    pub fn read(&self, alloc: Global, at: u64, count: u64) -> Result<Bytes, AllocError>
        ensures { IfOk result (λ bytes. bytes ≡ take count (drop at self.now.contents.items)) }
    {
        part(alloc, &self.contents, at, count)
    }

    /// Makes a change. Error: want of memory; nothing has changed then.
    pub fn apply(&mut self, change: &Change) -> Result<(), AllocError>
        requires { Begins change.now (cells_of self.old) }
        ensures ok { OnOk result (cells_of self.new ≡ change_cells change.now (cells_of self.old)) }
        ensures err { OnErr result (cells_of self.new ≡ cells_of self.old) }
    {
        match change {
            Change::Wrote(at, bytes) => self.write(*at, bytes.as_slice())?,
            Change::Cut(to) => self.cut(*to)?,
            Change::Synced => self.settle(),
            Change::TornWrite(range) => self.touch(*range)?,
            Change::TornCut(to) => self.shorten(*to),
        }
        Ok(())
    }

    /// Writes over the contents, and past their end. Error: want of memory; nothing has changed then.
    pub fn write(&mut self, at: u64, bytes: &[u8]) -> Result<(), AllocError>
        requires { at ≤ length self.old.contents.items }
        ensures ok { OnOk result (cells_of self.new ≡ written at bytes.now (cells_of self.old)) }
        ensures err { OnErr result (cells_of self.new ≡ cells_of self.old) }
    {
        let alloc = *self.contents.allocator();
        let length = self.contents.len() as u64;
        let upto = at + bytes.len() as u64;
        let bytes_before = part(alloc, &self.contents, at, bytes.len() as u64)?;
        self.undo.reserve(1)?;
        self.touched.reserve(1)?;
        overwrite(&mut self.contents, at as usize, bytes)?;
        self.undo.push_reserved(Undo {
            at,
            bytes: bytes_before,
            length,
        });
        self.touched.push_reserved(Range { from: at, upto });
        self.greatest = self.greatest.max(upto);
        Ok(())
    }

    /// Cuts to a length. Error: want of memory; nothing has changed then.
    pub fn cut(&mut self, to: u64) -> Result<(), AllocError>
        ensures ok { OnOk result (cells_of self.new ≡ cut_to to (cells_of self.old)) }
        ensures err { OnErr result (cells_of self.new ≡ cells_of self.old) }
    {
        let alloc = *self.contents.allocator();
        let length = self.contents.len() as u64;
        let bytes = part(alloc, &self.contents, to, length)?;
        self.undo.reserve(1)?;
        self.contents.truncate(to.min(length) as usize);
        self.undo.push_reserved(Undo {
            at: to,
            bytes,
            length: to,
        });
        self.shortest = self.shortest.min(to);
        Ok(())
    }

    /// Notes that a write into this range failed, of which nothing is done yet.
    fn touch(&mut self, range: Range) -> Result<(), AllocError>
        ensures ok { OnOk result (cells_of self.new ≡ torn_write range (cells_of self.old)) }
        ensures err { OnErr result (cells_of self.new ≡ cells_of self.old) }
    {
        self.touched.reserve(1)?;
        self.touched.push_reserved(range);
        self.greatest = self.greatest.max(range.upto);
        Ok(())
    }

    /// Notes that a cut to this length failed, of which nothing is done yet.
    fn shorten(&mut self, to: u64)
        ensures { cells_of self.new ≡ torn_cut to (cells_of self.old) }
    {
        self.shortest = self.shortest.min(to);
    }

    /// Makes all of the contents sure.
    pub fn settle(&mut self)
        ensures { cells_of self.new ≡ settled (cells_of self.old).now }
    {
        self.undo.clear();
        self.touched.clear();
        self.shortest = self.contents.len() as u64;
        self.greatest = self.shortest;
    }

    /// The bytes at the last sync. Error: want of memory.
    pub fn as_synced(&self, alloc: Global) -> Result<Bytes, AllocError>
        ensures { IfOk result (λ bytes. bytes ≡ (cells_of self.now).sure) }
    {
        let mut bytes = self.contents.to_vec(alloc)?;
        let mut left = self.undo.len();
        while 0 < left {
            left -= 1;
            undo_one(&mut bytes, &self.undo[left])?;
        }
        Ok(Bytes::from_vec(bytes))
    }

    /// The contents that a crash now leaves with these bytes. Error: the bytes are no image.
    pub fn image(&self, alloc: Global, bytes: Bytes) -> Result<Platter, NotAnImage>
        ensures ok { IfOk result (λ p. IsImage (cells_of self.now) bytes × (cells_of p ≡ settled bytes)) }
        ensures not { IfErr result (λ e. IsWrong (cells_of self.now) bytes e.at) }
    {
        let length = bytes.len() as u64;
        if let Some(at) = self.first_wrong(bytes.as_slice()) {
            return Err(NotAnImage { at });
        }
        if length < self.shortest || length > self.greatest {
            return Err(NotAnImage { at: length });
        }
        Ok(Platter::new(alloc, bytes))
    }

    ghost use Rattle.disk_model.specs.Cells.{IsWrongAt, NoneWrong};

    /// The first byte below the least length that is neither as it was nor in a range, if there is
    /// one.
    fn first_wrong(&self, bytes: &[u8]) -> Option<u64>
        ensures some { IfSome result (λ i. IsWrongAt (cells_of self.now) bytes.now i × NoneWrong (cells_of self.now) bytes.now i) }
        ensures none { IsNone result → NoneWrong (cells_of self.now) bytes.now (length bytes.now) }
    {
        for (i, &byte) in bytes.iter().enumerate() {
            let place = i as u64;
            if place < self.shortest
                && byte != self.contents[i]
                && !is_touched(&self.touched, place)
            {
                return Some(place);
            }
        }
        None
    }
}

fn is_touched(ranges: &[Range], place: u64) -> bool
    ensures { result ≡ covers ranges.now place }
{
    for range in ranges {
        if range.from <= place && place < range.upto {
            return true;
        }
    }
    false
}

/// The bytes from an index on: `count` bytes, or fewer if there are no more. Error: want of memory.
fn part(alloc: Global, bytes: &[u8], at: u64, count: u64) -> Result<Bytes, AllocError>
    ensures { IfOk result (λ part. part ≡ take count (drop at bytes.now)) }
{
    let length = bytes.len() as u64;
    let (_before, rest) = bytes.split_at(at.min(length) as usize);
    let (part, _after) = rest.split_at(count.min(rest.len() as u64) as usize);
    Bytes::from_slice(alloc, part)
}

/// Writes bytes over others from an index on, and past their end. Error: want of memory; nothing has
/// changed then.
fn overwrite(contents: &mut Vec<u8>, at: usize, bytes: &[u8]) -> Result<(), AllocError>
    ensures ok { OnOk result (contents.new.items ≡ put at bytes.now contents.old.items) }
    ensures err { OnErr result (contents.new.items ≡ contents.old.items) }
{
    let at = at.min(contents.len());
    let inside = bytes.len().min(contents.len() - at);
    let (front, rest) = bytes.split_at(inside);
    contents.extend_from_slice(rest)?;
    contents[at..at + inside].copy_from_slice(front);
    Ok(())
}

/// Undoes a change. Error: want of memory.
fn undo_one(contents: &mut Vec<u8>, undo: &Undo) -> Result<(), AllocError>
    ensures { OnOk result (contents.new.items ≡ undone undo.now contents.old.items) }
{
    contents.truncate(undo.length as usize);
    overwrite(contents, undo.at as usize, undo.bytes.as_slice())
}

/// Whether so many bytes from an index on end below 2^63.
pub fn has_room(at: u64, count: u64) -> bool
    ensures { IsTrue result ↔ (at + count < 2 ^ 63) }
{
    at < LIMIT && count < LIMIT - at
}
