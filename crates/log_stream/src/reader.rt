//! A log's entries, one after the other.
ghost use Rattle.std.specs.Prelude.{◌≡◌, ◌≤◌, ◌<◌, ◌+◌, ◌*◌, ◌^◌, true};

use crate::device::{least, length_of};
use crate::group::group_after;
use crate::window::Window;
use disk_model::disk::Disk;
use faults::Fault;
use smart_base::sequence::Bytes;
use std::alloc::Global;

/// The place in a log up to which its entries were given.
#[derive(Drop)]
pub struct LogReader {
    window: Window,
    /// The log's length in bytes.
    length: u64,
    /// The index of the next entry, if one of the present group is left.
    at: u64,
    /// The number of entries of the present group that are left.
    left: u64,
    /// The index at which the groups end that were walked over: that of a gate, if one is there.
    pub end: u64,
    /// The number of entries that were given.
    pub restored: u64,
    /// Whether all entries were given.
    pub ended: bool,
    /// Whether the gate after the groups is not sure to be closed, once all entries were given.
    pub torn: bool,
    ghost counted: { 4 * restored ≤ at },
    ghost room: { at + 4 * left ≤ end },
    ghost inside: { end ≤ length },
    ghost small: { length < 2 ^ 63 },
    ghost over: { ended ≡ true → left ≡ 0 },
}

impl LogReader {
    ghost use Rattle.std.specs.Prelude.{◌≡◌, ◌≤◌, ◌<◌, ◌+◌, ◌*◌, ◌∷◌, [], IfOk, IfSome, IsNone, OnOk, OnErr, true, false};
    ghost use Rattle.faults.specs.Counts.{HasCause, HasWant};
    ghost use Rattle.log_stream.specs.Windows.{OnlyRead};
    ghost use Rattle.log_stream.specs.Stream.{Reads, HasRead, to_come, entries_in};

    /// A reader at the begin of a log. Errors: a failure of the device; want of memory.
    pub fn new<D: Disk>(alloc: Global, device: &mut D) -> Result<Self, Fault>
        ensures reads { IfOk result (λ r. D.told → Reads (D.cells device.new).now r) }
        // All that the log restores is still to come.
        ensures begins { IfOk result (λ r. D.told → to_come (D.cells device.new).now r ≡ entries_in (D.cells device.old).now) }
        ensures restored { IfOk result (λ r. r.restored ≡ 0) }
        ensures ended { IfOk result (λ r. r.ended ≡ false) }
        ensures still { D.told → OnlyRead D.cells D.moment D.left_since device.old device.new }
        ensures cause { HasCause (D.faults device.old) (D.faults device.new) result }
        ensures want { HasWant (D.wants device.old) (D.wants device.new) result }
    {
        let length = length_of(alloc, device)?;
        Ok(LogReader {
            window: Window::new(alloc),
            length,
            at: 0,
            left: 0,
            end: 0,
            restored: 0,
            ended: false,
            torn: true,
        })
    }

    /// The next entry; none exactly at the end. Errors: a failure of the device; want of memory. After
    /// an error the same entry is the next.
    pub fn next<D: Disk>(&mut self, alloc: Global, device: &mut D) -> Result<Option<Bytes>, Fault>
        requires { D.told → Reads (D.cells device.old).now self.old }
        ensures reads { D.told → Reads (D.cells device.new).now self.new }
        ensures entry { IfOk result (λ o. IfSome o (λ entry. D.told → to_come (D.cells device.old).now self.old ≡ entry ∷ to_come (D.cells device.new).now self.new)) }
        ensures nothing { IfOk result (λ o. IsNone o → D.told → to_come (D.cells device.old).now self.old ≡ []) }
        // What the opening of a log finds.
        ensures all { IfOk result (λ o. IsNone o → D.told → HasRead (D.cells device.new).now self.new) }
        ensures some { IfOk result (λ o. IfSome o (λ entry. (self.new.restored ≡ self.old.restored + 1) × (self.new.ended ≡ false))) }
        ensures none { IfOk result (λ o. IsNone o → (self.new.restored ≡ self.old.restored) × (self.new.ended ≡ true)) }
        ensures err { OnErr result ((self.new.restored ≡ self.old.restored) × (self.new.ended ≡ false)) }
        ensures still { D.told → OnlyRead D.cells D.moment D.left_since device.old device.new }
        ensures cause { HasCause (D.faults device.old) (D.faults device.new) result }
        ensures want { HasWant (D.wants device.old) (D.wants device.new) result }
    {
        while self.left == 0 {
            if self.ended {
                return Ok(None);
            }
            self.enter(alloc, device)?;
        }
        let entry = self.give(alloc, device)?;
        Ok(Some(entry))
    }

    /// Walks over the next group and makes it the present one, if one is there. If none is, all entries
    /// were given. Errors: a failure of the device; want of memory.
    fn enter<D: Disk>(&mut self, alloc: Global, device: &mut D) -> Result<(), Fault>
        requires reads { D.told → Reads (D.cells device.old).now self.old }
        requires none_left { self.old.left ≡ 0 }
        requires goes_on { self.old.ended ≡ false }
        ensures reads { D.told → Reads (D.cells device.new).now self.new }
        ensures restored { self.new.restored ≡ self.old.restored }
        ensures length { self.new.length ≡ self.old.length }
        ensures further { self.old.end ≤ self.new.end }
        ensures walked { OnOk result (self.new.ended ≡ false → self.old.end < self.new.end) }
        ensures err { OnErr result (self.new.ended ≡ false) }
        ensures still { D.told → OnlyRead D.cells D.moment D.left_since device.old device.new }
        ensures cause { HasCause (D.faults device.old) (D.faults device.new) result }
        ensures want { HasWant (D.wants device.old) (D.wants device.new) result }
    {
        let Some(gate) = self.window.u8_at(alloc, device, self.end)? else {
            self.ends(true);
            return Ok(());
        };
        if gate != 1 {
            self.ends(gate != 0);
            return Ok(());
        }
        let group = group_after(&mut self.window, alloc, device, self.end, self.length)?;
        let Some(found) = group else {
            self.ends(true);
            return Ok(());
        };
        self.begins(found.0, found.1);
        Ok(())
    }

    /// Says that all entries were given.
    fn ends(&mut self, torn: bool)
        requires { self.old.left ≡ 0 }
        ensures window { self.new.window ≡ self.old.window }
        ensures length { self.new.length ≡ self.old.length }
        ensures at { self.new.at ≡ self.old.at }
        ensures left { self.new.left ≡ self.old.left }
        ensures end { self.new.end ≡ self.old.end }
        ensures restored { self.new.restored ≡ self.old.restored }
        ensures ended { self.new.ended ≡ true }
        ensures torn { self.new.torn ≡ torn }
    {
        self.ended = true;
        self.torn = torn;
    }

    /// Makes the group after the gate the present one.
    fn begins(&mut self, count: u64, to: u64)
        requires none_left { self.old.left ≡ 0 }
        requires goes_on { self.old.ended ≡ false }
        requires room { self.old.end + 17 + 4 * count ≤ to }
        requires upto { to ≤ self.old.length }
        ensures window { self.new.window ≡ self.old.window }
        ensures length { self.new.length ≡ self.old.length }
        ensures at { self.new.at ≡ self.old.end + 17 }
        ensures left { self.new.left ≡ count }
        ensures end { self.new.end ≡ to }
        ensures restored { self.new.restored ≡ self.old.restored }
        ensures ended { self.new.ended ≡ false }
    {
        self.at = self.end + 17;
        self.left = count;
        self.end = to;
    }

    /// Gives the next entry of the present group. Errors: a failure of the device; want of memory.
    fn give<D: Disk>(&mut self, alloc: Global, device: &mut D) -> Result<Bytes, Fault>
        requires reads { D.told → Reads (D.cells device.old).now self.old }
        requires some_left { 0 < self.old.left }
        ensures reads { D.told → Reads (D.cells device.new).now self.new }
        ensures entry { IfOk result (λ entry. D.told → to_come (D.cells device.old).now self.old ≡ entry ∷ to_come (D.cells device.new).now self.new) }
        ensures counts { OnOk result (self.new.restored ≡ self.old.restored + 1) }
        ensures err { OnErr result (self.new.restored ≡ self.old.restored) }
        ensures ended { self.new.ended ≡ self.old.ended }
        ensures still { D.told → OnlyRead D.cells D.moment D.left_since device.old device.new }
        ensures cause { HasCause (D.faults device.old) (D.faults device.new) result }
        ensures want { HasWant (D.wants device.old) (D.wants device.new) result }
    {
        let found = self.window.u32_at(alloc, device, self.at)?;
        // A group that was walked over has room for the entry.
        let room = self.end - self.at - 4 * self.left;
        let size = least(u64::from(found.unwrap_or(0)), room);
        let entry = device.read(alloc, self.at + 4, size)?;
        self.goes(size);
        Ok(entry)
    }

    /// Passes over an entry.
    fn goes(&mut self, size: u64)
        requires some_left { 0 < self.old.left }
        requires room { self.old.at + 4 * self.old.left + size ≤ self.old.end }
        ensures window { self.new.window ≡ self.old.window }
        ensures length { self.new.length ≡ self.old.length }
        ensures at { self.new.at ≡ self.old.at + 4 + size }
        ensures left { self.new.left + 1 ≡ self.old.left }
        ensures end { self.new.end ≡ self.old.end }
        ensures restored { self.new.restored ≡ self.old.restored + 1 }
        ensures ended { self.new.ended ≡ self.old.ended }
        ensures torn { self.new.torn ≡ self.old.torn }
    {
        self.at += 4 + size;
        self.left -= 1;
        self.restored += 1;
    }
}
