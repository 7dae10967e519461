//! The walk over a group before any of its entries is given: a group is whole, or it is none.
ghost use Rattle.std.specs.Prelude.{◌≡◌, ◌≤◌, ◌<◌, ◌+◌, ◌*◌, ◌^◌, length, IfOk, IfSome, true};
ghost use Rattle.faults.specs.Counts.{HasCause, HasWant};
ghost use Rattle.log_stream.specs.Windows.{OnlyRead, Shows};
ghost use Rattle.log_stream.specs.Walks.{Walked, GroupFound};

use crate::window::Window;
use disk_model::disk::Disk;
use faults::Fault;
use std::alloc::Global;

/// Whether the bytes from one index up to another are so many entries. Each entry's length is read,
/// and no more of it. Errors: a failure of the device; want of memory.
fn walk<D: Disk>(
    window: &mut Window,
    alloc: Global,
    device: &mut D,
    start: u64,
    count: u64,
    to: u64,
) -> Result<bool, Fault>
    requires order { start ≤ to }
    requires small { to < 2 ^ 63 }
    requires inside { D.told → to ≤ length (D.cells device.old).now }
    requires shows { D.told → Shows (D.cells device.old).now window.old }
    ensures walked { IfOk result (λ whole. D.told → Walked (D.cells device.old).now start to count whole) }
    ensures room { IfOk result (λ whole. whole ≡ true → start + 4 * count ≤ to) }
    ensures shows { D.told → Shows (D.cells device.new).now window.new }
    ensures still { D.told → OnlyRead D.cells D.moment D.left_since device.old device.new }
    ensures cause { HasCause (D.faults device.old) (D.faults device.new) result }
    ensures want { HasWant (D.wants device.old) (D.wants device.new) result }
{
    let mut at = start;
    let mut left = count;
    while left > 0 {
        if to - at < 4 {
            return Ok(false);
        }
        let Some(size) = window.u32_at(alloc, device, at)? else {
            return Ok(false);
        };
        let size = u64::from(size);
        if to - at - 4 < size {
            return Ok(false);
        }
        at += 4 + size;
        left -= 1;
    }
    Ok(at == to)
}

/// The group after the gate at an index: the number of its entries, and the index at which it ends.
/// None where it is not whole. Errors: a failure of the device; want of memory.
pub fn group_after<D: Disk>(
    window: &mut Window,
    alloc: Global,
    device: &mut D,
    gate: u64,
    total: u64,
) -> Result<Option<(u64, u64)>, Fault>
    requires inside { gate ≤ total }
    requires small { total < 2 ^ 63 }
    requires long { D.told → total ≡ length (D.cells device.old).now }
    requires shows { D.told → Shows (D.cells device.old).now window.old }
    ensures found { IfOk result (λ o. D.told → GroupFound (D.cells device.old).now gate o) }
    ensures room { IfOk result (λ o. IfSome o (λ x. gate + 17 + 4 * x.0 ≤ x.1)) }
    ensures upto { IfOk result (λ o. IfSome o (λ x. x.1 ≤ total)) }
    ensures shows { D.told → Shows (D.cells device.new).now window.new }
    ensures still { D.told → OnlyRead D.cells D.moment D.left_since device.old device.new }
    ensures cause { HasCause (D.faults device.old) (D.faults device.new) result }
    ensures want { HasWant (D.wants device.old) (D.wants device.new) result }
{
    let Some(size) = window.u64_at(alloc, device, gate + 1)? else {
        return Ok(None);
    };
    if size < 8 {
        return Ok(None);
    }
    let begin = gate + 9;
    if total.saturating_sub(begin) < size {
        return Ok(None);
    }
    let Some(count) = window.u64_at(alloc, device, begin)? else {
        return Ok(None);
    };
    let to = begin + size;
    if walk(window, alloc, device, begin + 8, count, to)? {
        return Ok(Some((count, to)));
    }
    Ok(None)
}
