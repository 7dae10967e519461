//! Rows of rounds of the workers of a log and of checkpoints, over a lane, a store in memory and a seat
//! in memory.
ghost use Rattle.std.specs.Prelude.{◌≡◌, ◌≤◌, ◌^◌, [], None, IfOk};

mod cell;
mod disk;
mod held;
mod rounds;
mod steps;

use crate::fault::RowFault;
use crate::workers::cell::{MemCell, Snapshot};
use crate::workers::disk::TrialDisk;
use crate::workers::rounds::play;
use crate::workers::steps::steps_of;
use disk_model::memory::MemDisk;
use durable_store::disks::Disks;
use durable_store::reopening::reopen;
use durable_store::store::Store;
use log_lane::ends::lane;
use smart_base::sequence::Bytes;
use std::alloc::{AllocError, Global};
use std::sync::Wait;
use store_form::ends::State;

/// The number of entries that the lane holds.
const CAPACITY: usize = 4;

/// An empty disk that fails at these calls.
fn empty(alloc: Global, failing: &[u64]) -> Result<TrialDisk, AllocError> {
    let failing = Vec::from_slice(alloc, failing)?;
    Ok(TrialDisk::over(MemDisk::new(alloc, Bytes::new(alloc), failing)?))
}

/// Four empty disks, the first of which fails at one call.
fn disks(alloc: Global, failing: u64) -> Result<Disks<TrialDisk>, AllocError> {
    Ok(Disks {
        even_log: empty(alloc, &[failing])?,
        odd_log: empty(alloc, &[])?,
        even_slot: empty(alloc, &[])?,
        odd_slot: empty(alloc, &[])?,
    })
}

/// A store over empty disks, the first of which fails at one call.
fn fresh(alloc: Global, failing: u64) -> Result<Store<TrialDisk>, RowFault>
    ensures restored { IfOk result (λ store. (store.plan.restored ≤ 2 ^ 63) × (store.plan.restored ≤ store.plan.firm)) }
    ensures rests { IfOk result (λ store. (store.plan.running ≡ []) × ((store.plan.asked ≡ None) × (store.state ≡ State.Open))) }
{
    match reopen(alloc, disks(alloc, failing)?) {
        Ok((store, kept)) => {
            // That there are fewer than 2^63 of them is known of the list.
            let _restored = kept.entries.len();
            Ok(store)
        }
        Err(_) => Err(RowFault::Room),
    }
}

/// A seat that wants a switch to the snapshot of place 2. The tail of that place ends with the third
/// entry.
fn seat(alloc: Global) -> Result<MemCell, AllocError> {
    let bytes = Bytes::from_slice(alloc, b"state")?;
    Ok(MemCell {
        wanted: Snapshot::new(2, bytes),
        handed: None,
        made: 3,
        told: 0,
    })
}

/// Says what some steps leave, over a store of which the first disk fails at this call.
fn say_steps<R: Wait>(
    handle: &R,
    rt: &HostRuntime,
    failing: u64,
    words: &str,
) -> Result<(), RowFault> {
    let alloc = rt.alloc();
    let steps = steps_of(alloc, words)?;
    let (inward, outward) = lane(alloc, CAPACITY)?;
    let store = fresh(alloc, failing)?;
    let cell = seat(alloc)?;
    let said = play(
        handle,
        alloc,
        inward,
        outward,
        store,
        cell,
        steps.as_slice(),
    )?;
    print!(rt; "{said}")?;
    Ok(())
}

/// Says what the steps of a row leave. Before them stands the number of the call of the first disk that
/// fails, 0 for none.
pub fn say_rounds<R: Wait>(handle: &R, rt: &HostRuntime, words: &str) -> Result<(), RowFault> {
    let Some((call, steps)) = words.split_once(' ') else {
        return Err(RowFault::Word);
    };
    match call.parse::<u64>() {
        Ok(failing) => say_steps(handle, rt, failing, steps),
        Err(_) => Err(RowFault::Word),
    }
}
