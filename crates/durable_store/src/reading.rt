//! The reading of a store's devices in pieces: of both slots, and of the log of one side.
ghost use Rattle.std.specs.Prelude.{◌≡◌, ◌≤◌, ◌<◌, ◌+◌, ◌^◌, ◌⊎◌, ◌∷◌, [], false, true, nat_lt, IfOk, IfSome, IsNone, OnErr, IsErrOf};
ghost use Rattle.faults.specs.Counts.{Rose, HasCause, HasWant};
ghost use Rattle.checkpoint_store.specs.Slots.{newest};
ghost use Rattle.log_stream.specs.Windows.{OnlyRead};
ghost use Rattle.log_stream.specs.Heads.{HeadOf, with_head};
ghost use Rattle.log_stream.specs.Stream.{Reads, to_come, entries_in};
ghost use Rattle.store_laws.specs.Restored.{slot_gate};
ghost use Rattle.durable_store.specs.Disks.{disk_at, OthersSame};
ghost use Rattle.durable_store.specs.Opens.{gate_by};

use crate::disks::Disks;
use checkpoint_store::job::SlotJob;
use disk_model::disk::Disk;
use faults::Fault;
use log_stream::reader::LogReader;
use log_stream::slot::{read_head, read_snapshot};
use smart_base::sequence::Bytes;
use std::alloc::Global;
use store_form::checkpoint::Checkpoint;
use store_form::ends::LogFault;
use store_laws::job::{Device, Gate};

/// The gates of both slots, and the newest checkpoint that counts. No snapshot but its own is read.
/// Errors: a failure of a device; want of memory.
#[tactic(auto, using(crate::proofs::Opened::slot_gate_is))]
pub fn read_slots<D: Disk>(
    alloc: Global,
    even: &mut D,
    odd: &mut D,
) -> Result<(Gate, Gate, Option<Checkpoint>), Fault>
    ensures gates { IfOk result (λ r. D.told → (r.0 ≡ slot_gate false (D.cells even.old).now) × (r.1 ≡ slot_gate true (D.cells odd.old).now)) }
    ensures found { IfOk result (λ r. D.told → r.2 ≡ newest (D.cells even.old).now (D.cells odd.old).now) }
    ensures even_still { D.told → OnlyRead D.cells D.moment D.left_since even.old even.new }
    ensures odd_still { D.told → OnlyRead D.cells D.moment D.left_since odd.old odd.new }
    ensures later { (D.faults even.old ≤ D.faults even.new) × (D.faults odd.old ≤ D.faults odd.new) }
    ensures wants_later { (D.wants even.old ≤ D.wants even.new) × (D.wants odd.old ≤ D.wants odd.new) }
    ensures cause { IsErrOf result Fault.Failed → Rose (D.faults even.old) (D.faults even.new) ⊎ Rose (D.faults odd.old) (D.faults odd.new) }
{
    let of_even = read_head(alloc, even, false)?;
    let of_odd = read_head(alloc, odd, true)?;
    let found = read_newest(alloc, even, odd, of_even.counts, of_odd.counts)?;
    Ok((gate_of(&of_even.job), gate_of(&of_odd.job), found))
}

/// The gate of a slot on which no job runs.
fn gate_of(job: &SlotJob) -> Gate
    ensures { result ≡ gate_by job.now }
{
    match job {
        SlotJob::Empty => Gate::Absent,
        SlotJob::Torn => Gate::Torn,
        SlotJob::Counts => Gate::Open,
        _ => Gate::Closed,
    }
}

/// The newest checkpoint of two slots whose heads are known. Errors: a failure of a device; want of
/// memory.
fn read_newest<D: Disk>(
    alloc: Global,
    even: &mut D,
    odd: &mut D,
    of_even: Option<(u64, u64)>,
    of_odd: Option<(u64, u64)>,
) -> Result<Option<Checkpoint>, Fault>
    requires even { D.told → HeadOf false (D.cells even.old).now of_even }
    requires odd { D.told → HeadOf true (D.cells odd.old).now of_odd }
    requires small { IfSome of_even (λ x. x.1 < 2 ^ 32) × IfSome of_odd (λ x. x.1 < 2 ^ 32) }
    ensures found { IfOk result (λ found. D.told → found ≡ newest (D.cells even.old).now (D.cells odd.old).now) }
    ensures even_still { D.told → OnlyRead D.cells D.moment D.left_since even.old even.new }
    ensures odd_still { D.told → OnlyRead D.cells D.moment D.left_since odd.old odd.new }
    ensures later { (D.faults even.old ≤ D.faults even.new) × (D.faults odd.old ≤ D.faults odd.new) }
    ensures wants_later { (D.wants even.old ≤ D.wants even.new) × (D.wants odd.old ≤ D.wants odd.new) }
    ensures cause { IsErrOf result Fault.Failed → Rose (D.faults even.old) (D.faults even.new) ⊎ Rose (D.faults odd.old) (D.faults odd.new) }
{
    let Some(one) = of_even else {
        let Some(other) = of_odd else {
            return Ok(None);
        };
        let found = read_checkpoint(alloc, odd, other.0, other.1)?;
        return Ok(Some(found));
    };
    let Some(other) = of_odd else {
        let found = read_checkpoint(alloc, even, one.0, one.1)?;
        return Ok(Some(found));
    };
    if is_less(one.0, other.0) {
        let found = read_checkpoint(alloc, odd, other.0, other.1)?;
        return Ok(Some(found));
    }
    let found = read_checkpoint(alloc, even, one.0, one.1)?;
    Ok(Some(found))
}

/// Whether a number is less than another.
fn is_less(one: u64, other: u64) -> bool
    ensures { result ≡ nat_lt one other }
{
    one < other
}

/// The checkpoint of a slot that counts, with its generation and its snapshot's length. Errors: a
/// failure of the device; want of memory.
fn read_checkpoint<D: Disk>(
    alloc: Global,
    device: &mut D,
    generation: u64,
    size: u64,
) -> Result<Checkpoint, Fault>
    requires { size < 2 ^ 32 }
    ensures found { IfOk result (λ found. D.told → found ≡ with_head (D.cells device.old).now (generation, size)) }
    ensures still { D.told → OnlyRead D.cells D.moment D.left_since device.old device.new }
    ensures cause { HasCause (D.faults device.old) (D.faults device.new) result }
    ensures wants_later { D.wants device.old ≤ D.wants device.new }
{
    let snapshot = read_snapshot(alloc, device, size)?;
    Ok(Checkpoint {
        generation,
        snapshot,
    })
}

/// A reader at the begin of the log of the odd generations, or of the even ones. Errors: a failure of
/// the device; want of memory.
pub fn begin_log<D: Disk>(
    alloc: Global,
    disks: &mut Disks<D>,
    odd: bool,
) -> Result<LogReader, Fault>
    ensures reads { IfOk result (λ r. D.told → Reads (D.cells (disk_at (Device.Log odd) disks.new)).now r) }
    ensures restored { IfOk result (λ r. r.restored ≡ 0) }
    ensures ended { IfOk result (λ r. r.ended ≡ false) }
    ensures others { OthersSame (Device.Log odd) disks.old disks.new }
    ensures still { D.told → OnlyRead D.cells D.moment D.left_since (disk_at (Device.Log odd) disks.old) (disk_at (Device.Log odd) disks.new) }
    ensures cause { HasCause (D.faults (disk_at (Device.Log odd) disks.old)) (D.faults (disk_at (Device.Log odd) disks.new)) result }
    ensures want { HasWant (D.wants (disk_at (Device.Log odd) disks.old)) (D.wants (disk_at (Device.Log odd) disks.new)) result }
{
    match odd {
        true => LogReader::new(alloc, &mut disks.odd_log),
        false => LogReader::new(alloc, &mut disks.even_log),
    }
}

/// The next entry of that log; none exactly at the end. Errors: a failure of the device; want of
/// memory. After an error the same entry is the next.
pub fn read_next<D: Disk>(
    alloc: Global,
    reader: &mut LogReader,
    disks: &mut Disks<D>,
    odd: bool,
) -> Result<Option<Bytes>, Fault>
    requires { D.told → Reads (D.cells (disk_at (Device.Log odd) disks.old)).now reader.old }
    ensures reads { D.told → Reads (D.cells (disk_at (Device.Log odd) disks.new)).now reader.new }
    ensures entry { IfOk result (λ o. IfSome o (λ entry. D.told → to_come (D.cells (disk_at (Device.Log odd) disks.old)).now reader.old
        ≡ entry ∷ to_come (D.cells (disk_at (Device.Log odd) disks.new)).now reader.new)) }
    ensures nothing { IfOk result (λ o. IsNone o → D.told → to_come (D.cells (disk_at (Device.Log odd) disks.old)).now reader.old ≡ []) }
    ensures some { IfOk result (λ o. IfSome o (λ entry. (reader.new.restored ≡ reader.old.restored + 1) × (reader.new.ended ≡ false))) }
    ensures none { IfOk result (λ o. IsNone o → (reader.new.restored ≡ reader.old.restored) × (reader.new.ended ≡ true)) }
    ensures err { OnErr result ((reader.new.restored ≡ reader.old.restored) × (reader.new.ended ≡ false)) }
    ensures others { OthersSame (Device.Log odd) disks.old disks.new }
    ensures still { D.told → OnlyRead D.cells D.moment D.left_since (disk_at (Device.Log odd) disks.old) (disk_at (Device.Log odd) disks.new) }
    ensures cause { HasCause (D.faults (disk_at (Device.Log odd) disks.old)) (D.faults (disk_at (Device.Log odd) disks.new)) result }
    ensures want { HasWant (D.wants (disk_at (Device.Log odd) disks.old)) (D.wants (disk_at (Device.Log odd) disks.new)) result }
{
    match odd {
        true => reader.next(alloc, &mut disks.odd_log),
        false => reader.next(alloc, &mut disks.even_log),
    }
}

/// What the opening of a store answers to a fault of a device.
pub fn answer_of(fault: Fault) -> LogFault
    ensures failed { result ≡ LogFault.Disk false → fault ≡ Fault.Failed }
    ensures open { result ≡ LogFault.Disk true → ⊥ }
{
    match fault {
        Fault::Failed => LogFault::Disk { closed: false },
        Fault::NoMemory => LogFault::NoMemory,
    }
}
