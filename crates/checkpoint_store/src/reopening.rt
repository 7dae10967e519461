//! The opening of slots over what a crash has left.
ghost use Rattle.std.specs.Prelude.{◌≡◌, ◌≤◌, ◌⊎◌, Bool, true, false, IfOk, IfErr, IsErrOf};
ghost use Rattle.faults.specs.Counts.{Rose, HasCause};
ghost use Rattle.disk_model.specs.Cells.{IsImage, settled};
ghost use Rattle.disk_model.specs.Calls.{Elapses};
ghost use Rattle.store_form.specs.declared.checkpoint.Checkpoint.{Checkpoint};
ghost use Rattle.checkpoint_store.specs.Slots.{slot_of, instead_of, newest};
ghost use Rattle.checkpoint_store.specs.SlotJobs.{SlotStands, IsIdle, IsSlotUnderWay};
ghost use Rattle.checkpoint_store.specs.Exact.{slot_opened};

use crate::job::SlotJob;
use crate::reading::{newer, slot_of};
use crate::store::{CheckpointStore, Slot};
use disk_model::disk::{Disk, read_all};
use faults::Fault;
use std::alloc::Global;
use store_form::checkpoint::Checkpoint;
use store_form::ends::{LogFault, State};

/// The bytes of a slot's device, and the job on the slot.
fn open_slot<D: Disk>(
    alloc: Global,
    odd: bool,
    device: &mut D,
) -> Result<(SlotJob, Option<Checkpoint>), Fault>
    // Nothing is pending.
    requires { D.told → D.cells device.old ≡ settled (D.cells device.old).now }
    ensures found { IfOk result (λ r. D.told → r.1 ≡ slot_of odd (D.cells device.old).now) }
    ensures stands { IfOk result (λ r. D.told → (next : Checkpoint)
        → SlotStands odd (D.cells device.new) r.0 next (slot_of odd (D.cells device.old).now) (instead_of odd (D.cells device.old).now)) }
    ensures job { IfOk result (λ r. D.told → r.0 ≡ slot_opened odd (D.cells device.old).now) }
    ensures idle { IfOk result (λ r. IsIdle r.0) }
    ensures same { D.told → D.cells device.new ≡ D.cells device.old }
    ensures time { D.told → Elapses (D.moment device.old) (D.moment device.new) (D.left_since device.old) (D.left_since device.new) (IsImage (D.cells device.new)) }
    ensures cause { HasCause (D.faults device.old) (D.faults device.new) result }
{
    let bytes = read_all(alloc, device)?;
    let found = match slot_of(alloc, odd, bytes.as_slice()) {
        Ok(found) => found,
        Err(_) => return Err(Fault::NoMemory),
    };
    if bytes.is_empty() {
        return Ok((SlotJob::Empty, found));
    }
    if bytes.as_slice()[0] == 0 {
        return Ok((SlotJob::Shut, found));
    }
    if found.is_none() {
        return Ok((SlotJob::Torn, found));
    }
    Ok((SlotJob::Counts, found))
}

/// The jobs on the two slots, the even one first, and the newest checkpoint.
fn open_both<D: Disk>(
    alloc: Global,
    even: &mut D,
    odd: &mut D,
) -> Result<(SlotJob, SlotJob, Option<Checkpoint>), Fault>
    requires even { D.told → D.cells even.old ≡ settled (D.cells even.old).now }
    requires odd { D.told → D.cells odd.old ≡ settled (D.cells odd.old).now }
    ensures found { IfOk result (λ r. D.told → r.2 ≡ newest (D.cells even.old).now (D.cells odd.old).now) }
    ensures even { IfOk result (λ r. D.told → (next : Checkpoint)
        → SlotStands false (D.cells even.new) r.0 next (slot_of false (D.cells even.old).now) (instead_of false (D.cells even.old).now)) }
    ensures odd { IfOk result (λ r. D.told → (next : Checkpoint)
        → SlotStands true (D.cells odd.new) r.1 next (slot_of true (D.cells odd.old).now) (instead_of true (D.cells odd.old).now)) }
    ensures jobs { IfOk result (λ r. D.told → (r.0 ≡ slot_opened false (D.cells even.old).now) × (r.1 ≡ slot_opened true (D.cells odd.old).now)) }
    ensures idle { IfOk result (λ r. IsIdle r.0 × IsIdle r.1) }
    ensures even_same { D.told → D.cells even.new ≡ D.cells even.old }
    ensures odd_same { D.told → D.cells odd.new ≡ D.cells odd.old }
    ensures even_time { D.told → Elapses (D.moment even.old) (D.moment even.new) (D.left_since even.old) (D.left_since even.new) (IsImage (D.cells even.new)) }
    ensures odd_time { D.told → Elapses (D.moment odd.old) (D.moment odd.new) (D.left_since odd.old) (D.left_since odd.new) (IsImage (D.cells odd.new)) }
    ensures even_later { D.faults even.old ≤ D.faults even.new }
    ensures odd_later { D.faults odd.old ≤ D.faults odd.new }
    ensures cause { IsErrOf result Fault.Failed → Rose (D.faults even.old) (D.faults even.new) ⊎ Rose (D.faults odd.old) (D.faults odd.new) }
{
    let (even_job, one) = open_slot(alloc, false, even)?;
    let (odd_job, other) = open_slot(alloc, true, odd)?;
    Ok((even_job, odd_job, newer(one, other)))
}

/// Opens the slots over two devices on which nothing is pending, the even one first. Gives the newest
/// checkpoint that counts; `None` if and only if no slot counts. Errors: a failure of a device; want
/// of memory. The devices come back with the error.
pub fn reopen<D: Disk>(
    alloc: Global,
    even: D,
    odd: D,
) -> Result<(CheckpointStore<D>, Option<Checkpoint>), (LogFault, (D, D))>
    requires even { D.told → D.cells even ≡ settled (D.cells even).now }
    requires odd { D.told → D.cells odd ≡ settled (D.cells odd).now }
    ensures found { IfOk result (λ r. D.told → r.1 ≡ newest (D.cells even).now (D.cells odd).now) }
    // Each slot has what its device holds, and by another gate what a crash may have made of it.
    ensures even { IfOk result (λ r. D.told → (next : Checkpoint)
        → SlotStands false (D.cells r.0.even.device) r.0.even.job next (slot_of false (D.cells even).now) (instead_of false (D.cells even).now)) }
    ensures odd { IfOk result (λ r. D.told → (next : Checkpoint)
        → SlotStands true (D.cells r.0.odd.device) r.0.odd.job next (slot_of true (D.cells odd).now) (instead_of true (D.cells odd).now)) }
    ensures underway { IfOk result (λ r. D.told
        → IsSlotUnderWay false (D.cells r.0.even.device) r.0.even.job × IsSlotUnderWay true (D.cells r.0.odd.device) r.0.odd.job) }
    ensures jobs { IfOk result (λ r. D.told → (r.0.even.job ≡ slot_opened false (D.cells even).now) × (r.0.odd.job ≡ slot_opened true (D.cells odd).now)) }
    ensures idle { IfOk result (λ r. IsIdle r.0.even.job × IsIdle r.0.odd.job) }
    ensures open { IfOk result (λ r. r.0.state ≡ State.Open) }
    ensures same { IfOk result (λ r. D.told → (D.cells r.0.even.device ≡ D.cells even) × (D.cells r.0.odd.device ≡ D.cells odd)) }
    ensures back { IfErr result (λ e. D.told → (D.cells e.1.0 ≡ D.cells even) × (D.cells e.1.1 ≡ D.cells odd)) }
    ensures even_time { IfOk result (λ r. D.told
        → Elapses (D.moment even) (D.moment r.0.even.device) (D.left_since even) (D.left_since r.0.even.device) (IsImage (D.cells r.0.even.device))) }
    ensures odd_time { IfOk result (λ r. D.told
        → Elapses (D.moment odd) (D.moment r.0.odd.device) (D.left_since odd) (D.left_since r.0.odd.device) (IsImage (D.cells r.0.odd.device))) }
    ensures back_even_time { IfErr result (λ e. D.told
        → Elapses (D.moment even) (D.moment e.1.0) (D.left_since even) (D.left_since e.1.0) (IsImage (D.cells e.1.0))) }
    ensures back_odd_time { IfErr result (λ e. D.told
        → Elapses (D.moment odd) (D.moment e.1.1) (D.left_since odd) (D.left_since e.1.1) (IsImage (D.cells e.1.1))) }
    ensures back_later { IfErr result (λ e. (D.faults even ≤ D.faults e.1.0) × (D.faults odd ≤ D.faults e.1.1)) }
    ensures later { IfOk result (λ r. (D.faults even ≤ D.faults r.0.even.device) × (D.faults odd ≤ D.faults r.0.odd.device)) }
    ensures cause { IfErr result (λ e. e.0 ≡ LogFault.Disk false → Rose (D.faults even) (D.faults e.1.0) ⊎ Rose (D.faults odd) (D.faults e.1.1)) }
    ensures not_closed { IfErr result (λ e. e.0 ≡ LogFault.Disk true → ⊥) }
{
    let mut even = even;
    let mut odd = odd;
    match open_both(alloc, &mut even, &mut odd) {
        Ok((even_job, odd_job, found)) => Ok((
            CheckpointStore {
                even: Slot {
                    device: even,
                    job: even_job,
                },
                odd: Slot {
                    device: odd,
                    job: odd_job,
                },
                state: State::Open,
            },
            found,
        )),
        Err(Fault::Failed) => Err((LogFault::Disk { closed: false }, (even, odd))),
        Err(Fault::NoMemory) => Err((LogFault::NoMemory, (even, odd))),
    }
}
