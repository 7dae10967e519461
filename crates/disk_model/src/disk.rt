//! The calls of a disk, and what a crash may leave of it.
ghost use Rattle.std.specs.Prelude.{◌≡◌, ◌≤◌, ◌+◌, ◌<◌, ◌^◌, List, ℕ, length, take, drop, IfOk, OnOk};
ghost use Rattle.faults.specs.Counts.{HasCause, HasWant};
ghost use Rattle.disk_model.specs.Cells.{Cells, IsImage, IsSound, Within, written, cut_to, settled};
ghost use Rattle.disk_model.specs.Calls.{Elapses};

use faults::Fault;
use smart_base::sequence::Bytes;
use std::alloc::Global;

/// A disk, whose writes are sure after a sync.
///
/// Between two syncs a crash may leave any length between the least and the greatest since the last
/// sync. It may leave any bytes in the ranges that were written, and past the least length. Other
/// bytes stay.
pub trait Disk {
    /// Whether the disk tells its contents. Each clause on contents has this premise, as nothing is
    /// told of a real file.
    ghost told: { Type 0 };

    /// Whether the disk tells what a crash at an earlier moment might have left.
    ghost remembers: { Type 0 };

    /// The contents: what a read gives, and what is not yet sure.
    ghost cells: { Self → Cells };

    /// The moment: a number that never falls.
    ghost moment: { Self → ℕ };

    /// The bytes that a crash at a moment or later might have left, during a call or between two.
    ghost left_since: { Self → ℕ → List ℕ → Type 0 };

    /// The number of failures so far.
    ghost faults: { Self → ℕ };

    /// The number of wants of memory so far.
    ghost wants: { Self → ℕ };

    /// The length in bytes. Errors: a failure of the disk; want of memory.
    fn len(&mut self) -> Result<u64, Fault>
        ensures length { IfOk result (λ n. told → n ≡ length (cells self.old).now) }
        ensures same { told → cells self.new ≡ cells self.old }
        ensures time { Elapses (moment self.old) (moment self.new) (left_since self.old) (left_since self.new) (IsImage (cells self.new)) }
        ensures cause { HasCause (faults self.old) (faults self.new) result }
        ensures want { HasWant (wants self.old) (wants self.new) result };

    /// The bytes from index `at` on: `count` bytes, or fewer if the contents end before. Errors: a
    /// failure of the disk; want of memory.
    fn read(&mut self, alloc: Global, at: u64, count: u64) -> Result<Bytes, Fault>
        ensures bytes { IfOk result (λ bytes. told → bytes ≡ take count (drop at (cells self.old).now)) }
        ensures same { told → cells self.new ≡ cells self.old }
        ensures time { Elapses (moment self.old) (moment self.new) (left_since self.old) (left_since self.new) (IsImage (cells self.new)) }
        ensures cause { HasCause (faults self.old) (faults self.new) result }
        ensures want { HasWant (wants self.old) (wants self.new) result };

    /// Writes bytes from index `at` on, over the contents and past their end; `at` is at most their
    /// length. Errors: a failure of the disk; want of memory. A call that fails may have done any
    /// part of the write.
    fn write_at(&mut self, at: u64, bytes: &[u8]) -> Result<(), Fault>
        requires { told → at ≤ length (cells self.old).now }
        ensures written { OnOk result (told → cells self.new ≡ written at bytes.now (cells self.old)) }
        ensures torn { told → Within (cells self.new) (written at bytes.now (cells self.old)) }
        ensures room { OnOk result (at + length bytes.now < 2 ^ 63) }
        ensures time { Elapses (moment self.old) (moment self.new) (left_since self.old) (left_since self.new) (IsImage (cells self.new)) }
        ensures cause { HasCause (faults self.old) (faults self.new) result }
        ensures want { HasWant (wants self.old) (wants self.new) result };

    /// Cuts the contents to a length in bytes. Errors: a failure of the disk; want of memory. A call
    /// that fails may have done any part of the cut.
    fn cut(&mut self, to: u64) -> Result<(), Fault>
        ensures cut { OnOk result (told → cells self.new ≡ cut_to to (cells self.old)) }
        ensures torn { told → Within (cells self.new) (cut_to to (cells self.old)) }
        ensures time { Elapses (moment self.old) (moment self.new) (left_since self.old) (left_since self.new) (IsImage (cells self.new)) }
        ensures cause { HasCause (faults self.old) (faults self.new) result }
        ensures want { HasWant (wants self.old) (wants self.new) result };

    /// Makes the contents sure: from then on a crash leaves them. Errors: a failure of the disk; want
    /// of memory. A call that fails makes nothing sure.
    fn sync(&mut self) -> Result<(), Fault>
        ensures settled { OnOk result (told → cells self.new ≡ settled (cells self.old).now) }
        ensures torn { told → Within (cells self.new) (cells self.old) }
        ensures time { Elapses (moment self.old) (moment self.new) (left_since self.old) (left_since self.new) (IsImage (cells self.new)) }
        ensures cause { HasCause (faults self.old) (faults self.new) result }
        ensures want { HasWant (wants self.old) (wants self.new) result };

    /// A crash may leave what a read gives, and what it gave at the last sync.
    ghost is_sound: { (disk : Self) → told → IsSound (cells disk) };

    /// The present moment is one of those since an earlier one.
    ghost counts_now: { (disk : Self) (t : ℕ) (c : List ℕ) → t ≤ moment disk → IsImage (cells disk) c → left_since disk t c };

    /// The present moment is the only one since itself.
    ghost only_now: { remembers → (disk : Self) (c : List ℕ) → left_since disk (moment disk) c → IsImage (cells disk) c };
}

/// The whole contents of a disk. Errors: a failure of the disk; want of memory.
pub fn read_all<D: Disk>(alloc: Global, device: &mut D) -> Result<Bytes, Fault>
    ensures bytes { IfOk result (λ bytes. D.told → bytes ≡ (D.cells device.old).now) }
    ensures same { D.told → D.cells device.new ≡ D.cells device.old }
    ensures time { D.told → Elapses (D.moment device.old) (D.moment device.new) (D.left_since device.old) (D.left_since device.new) (IsImage (D.cells device.new)) }
    ensures cause { HasCause (D.faults device.old) (D.faults device.new) result }
    ensures want { HasWant (D.wants device.old) (D.wants device.new) result }
{
    let length = device.len()?;
    let bytes = device.read(alloc, 0, length)?;
    Ok(bytes)
}
