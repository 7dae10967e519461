//! A piece of a device's bytes, which moves over the device.
ghost use Rattle.std.specs.Prelude.{◌≡◌, ◌≤◌, ◌<◌, ◌+◌, ◌-◌, List, ℕ, length, IfOk, OnOk, true};
ghost use Rattle.std.specs.Int.{w8, w32, w64};
ghost use Rattle.faults.specs.Counts.{HasCause, HasWant};
ghost use Rattle.log_stream.specs.Windows.{OnlyRead, Shows, Part, IsAt, part_of};

use crate::device::PIECE_BYTES;
use disk_model::disk::Disk;
use faults::Fault;
use smart_base::cursor::Cursor;
use smart_base::sequence::Bytes;
use std::alloc::Global;

/// A piece of a device's bytes, from an index on.
#[derive(Drop)]
pub struct Window {
    piece: Bytes,
    from: u64,
}

impl Window {
    /// A window with no bytes.
    pub fn new(alloc: Global) -> Self
        ensures { (bytes : List ℕ) → Shows bytes result }
    {
        Window {
            piece: Bytes::new(alloc),
            from: 0,
        }
    }

    /// The byte at an index; none at the end. Errors: a failure of the device; want of memory.
    pub fn u8_at<D: Disk>(
        &mut self,
        alloc: Global,
        device: &mut D,
        at: u64,
    ) -> Result<Option<u8>, Fault>
        requires { D.told → Shows (D.cells device.old).now self.old }
        ensures shows { D.told → Shows (D.cells device.new).now self.new }
        ensures number { IfOk result (λ o. D.told → IsAt w8 (D.cells device.old).now at o) }
        ensures still { D.told → OnlyRead D.cells D.moment D.left_since device.old device.new }
        ensures cause { HasCause (D.faults device.old) (D.faults device.new) result }
        ensures want { HasWant (D.wants device.old) (D.wants device.new) result }
    {
        self.show(alloc, device, at, 1)?;
        let mut cut = Cursor::new(self.part(at));
        // That these are bytes is known of the cursor.
        let _all = cut.rest();
        match cut.take_u8() {
            Ok(number) => Ok(Some(number)),
            Err(_) => Ok(None),
        }
    }

    /// The number of 32 bits at an index; none where the bytes end before it does. Errors: a failure of
    /// the device; want of memory.
    pub fn u32_at<D: Disk>(
        &mut self,
        alloc: Global,
        device: &mut D,
        at: u64,
    ) -> Result<Option<u32>, Fault>
        requires { D.told → Shows (D.cells device.old).now self.old }
        ensures shows { D.told → Shows (D.cells device.new).now self.new }
        ensures number { IfOk result (λ o. D.told → IsAt w32 (D.cells device.old).now at o) }
        ensures still { D.told → OnlyRead D.cells D.moment D.left_since device.old device.new }
        ensures cause { HasCause (D.faults device.old) (D.faults device.new) result }
        ensures want { HasWant (D.wants device.old) (D.wants device.new) result }
    {
        self.show(alloc, device, at, 4)?;
        let mut cut = Cursor::new(self.part(at));
        // That these are bytes is known of the cursor.
        let _all = cut.rest();
        match cut.take_u32() {
            Ok(number) => Ok(Some(number)),
            Err(_) => Ok(None),
        }
    }

    /// The number of 64 bits at an index; none where the bytes end before it does. Errors: a failure of
    /// the device; want of memory.
    pub fn u64_at<D: Disk>(
        &mut self,
        alloc: Global,
        device: &mut D,
        at: u64,
    ) -> Result<Option<u64>, Fault>
        requires { D.told → Shows (D.cells device.old).now self.old }
        ensures shows { D.told → Shows (D.cells device.new).now self.new }
        ensures number { IfOk result (λ o. D.told → IsAt w64 (D.cells device.old).now at o) }
        ensures still { D.told → OnlyRead D.cells D.moment D.left_since device.old device.new }
        ensures cause { HasCause (D.faults device.old) (D.faults device.new) result }
        ensures want { HasWant (D.wants device.old) (D.wants device.new) result }
    {
        self.show(alloc, device, at, 8)?;
        let mut cut = Cursor::new(self.part(at));
        // That these are bytes is known of the cursor.
        let _all = cut.rest();
        match cut.take_u64() {
            Ok(number) => Ok(Some(number)),
            Err(_) => Ok(None),
        }
    }

    /// Moves the piece to an index, if it does not hold `count` bytes from there on. The piece before is
    /// let go first. Errors: a failure of the device; want of memory.
    fn show<D: Disk>(
        &mut self,
        alloc: Global,
        device: &mut D,
        at: u64,
        count: u64,
    ) -> Result<(), Fault>
        requires shows { D.told → Shows (D.cells device.old).now self.old }
        requires few { count ≤ 8 }
        ensures shows { D.told → Shows (D.cells device.new).now self.new }
        ensures from { OnOk result (self.new.from ≤ at) }
        ensures upto { OnOk result (at - self.new.from ≤ length self.new.piece) }
        ensures part { OnOk result (D.told → Part (D.cells device.old).now at count (part_of self.new at)) }
        ensures still { D.told → OnlyRead D.cells D.moment D.left_since device.old device.new }
        ensures cause { HasCause (D.faults device.old) (D.faults device.new) result }
        ensures want { HasWant (D.wants device.old) (D.wants device.new) result }
    {
        if self.has(at, count) {
            return Ok(());
        }
        self.piece = Bytes::new(alloc);
        self.from = at;
        let piece = device.read(alloc, at, PIECE_BYTES)?;
        self.piece = piece;
        Ok(())
    }

    /// Whether the piece holds `count` bytes from an index on.
    fn has(&self, at: u64, count: u64) -> bool
        ensures { result ≡ true → (self.now.from ≤ at) × (at - self.now.from + count ≤ length self.now.piece) }
    {
        if at < self.from {
            return false;
        }
        let before = at - self.from;
        let held = self.piece.len() as u64;
        before <= held && count <= held - before
    }

    /// What the piece holds from an index on.
    fn part(&self, at: u64) -> &[u8]
        requires from { self.now.from ≤ at }
        requires upto { at - self.now.from ≤ length self.now.piece }
        ensures { result.now ≡ part_of self.now at }
    {
        let (_before, part) = self.piece.as_slice().split_at((at - self.from) as usize);
        part
    }
}
