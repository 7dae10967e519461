//! A slot in pieces: what stands before its snapshot, and the snapshot.
ghost use Rattle.std.specs.Prelude.{◌≡◌, ◌≤◌, ◌<◌, ◌^◌, length, take, drop, IfOk, IfSome};
ghost use Rattle.faults.specs.Counts.{HasCause, HasWant};
ghost use Rattle.checkpoint_store.specs.Exact.{slot_opened};
ghost use Rattle.log_stream.specs.Windows.{OnlyRead, Shows};
ghost use Rattle.log_stream.specs.Heads.{HeadOf, CountsAfter, job_by, uses_slot};

use crate::device::{length_of, read_bytes};
use crate::window::Window;
use checkpoint_store::job::SlotJob;
use checkpoint_store::reading::is_odd;
use disk_model::disk::Disk;
use faults::Fault;
use smart_base::sequence::Bytes;
use std::alloc::Global;

/// What a slot says before its snapshot is read.
#[derive(Drop)]
pub struct SlotHead {
    /// The job on the slot if it is opened.
    pub job: SlotJob,
    /// The generation of the checkpoint, and its snapshot's length in bytes, if the slot counts.
    pub counts: Option<(u64, u64)>,
}

/// The head of a slot. Errors: a failure of the device; want of memory.
pub fn read_head<D: Disk>(alloc: Global, device: &mut D, odd: bool) -> Result<SlotHead, Fault>
    ensures counts { IfOk result (λ h. D.told → HeadOf odd (D.cells device.old).now h.counts) }
    ensures small { IfOk result (λ h. IfSome h.counts (λ x. x.1 < 2 ^ 32)) }
    ensures job { IfOk result (λ h. D.told → h.job ≡ slot_opened odd (D.cells device.old).now) }
    ensures still { D.told → OnlyRead D.cells D.moment D.left_since device.old device.new }
    ensures cause { HasCause (D.faults device.old) (D.faults device.new) result }
    ensures want { HasWant (D.wants device.old) (D.wants device.new) result }
{
    let total = length_of(alloc, device)?;
    let mut window = Window::new(alloc);
    let Some(gate) = window.u8_at(alloc, device, 0)? else {
        return Ok(SlotHead {
            job: SlotJob::Empty,
            counts: None,
        });
    };
    if gate == 0 {
        return Ok(SlotHead {
            job: SlotJob::Shut,
            counts: None,
        });
    }
    if gate != 1 {
        return Ok(SlotHead {
            job: SlotJob::Torn,
            counts: None,
        });
    }
    let counts = counts_after(&mut window, alloc, device, odd, total)?;
    Ok(SlotHead {
        job: job_of(&counts),
        counts,
    })
}

/// The job on a slot with an open gate.
fn job_of(counts: &Option<(u64, u64)>) -> SlotJob
    ensures { result ≡ job_by counts.now }
{
    match counts {
        Some(_) => SlotJob::Counts,
        None => SlotJob::Torn,
    }
}

/// The generation and the length after an open gate, if the slot counts. Errors: a failure of the
/// device; want of memory.
fn counts_after<D: Disk>(
    window: &mut Window,
    alloc: Global,
    device: &mut D,
    odd: bool,
    total: u64,
) -> Result<Option<(u64, u64)>, Fault>
    requires long { D.told → total ≡ length (D.cells device.old).now }
    requires shows { D.told → Shows (D.cells device.old).now window.old }
    ensures counts { IfOk result (λ o. D.told → CountsAfter odd (D.cells device.old).now o) }
    ensures small { IfOk result (λ o. IfSome o (λ x. x.1 < 2 ^ 32)) }
    ensures still { D.told → OnlyRead D.cells D.moment D.left_since device.old device.new }
    ensures cause { HasCause (D.faults device.old) (D.faults device.new) result }
    ensures want { HasWant (D.wants device.old) (D.wants device.new) result }
{
    let Some(generation) = window.u64_at(alloc, device, 1)? else {
        return Ok(None);
    };
    let Some(size) = window.u32_at(alloc, device, 9)? else {
        return Ok(None);
    };
    let size = u64::from(size);
    if total.saturating_sub(13) < size {
        return Ok(None);
    }
    if uses(odd, generation) {
        return Ok(Some((generation, size)));
    }
    Ok(None)
}

/// Whether a generation uses a slot.
fn uses(odd: bool, generation: u64) -> bool
    ensures { result ≡ uses_slot odd generation }
{
    0 < generation && is_odd(generation) == odd
}

/// The snapshot of a slot that counts. Errors: a failure of the device; want of memory.
pub fn read_snapshot<D: Disk>(alloc: Global, device: &mut D, size: u64) -> Result<Bytes, Fault>
    requires { size < 2 ^ 32 }
    ensures bytes { IfOk result (λ bytes. D.told → bytes ≡ take size (drop 13 (D.cells device.old).now)) }
    ensures still { D.told → OnlyRead D.cells D.moment D.left_since device.old device.new }
    ensures cause { HasCause (D.faults device.old) (D.faults device.new) result }
    ensures wants_later { D.wants device.old ≤ D.wants device.new }
{
    read_bytes(alloc, device, 13, size)
}
