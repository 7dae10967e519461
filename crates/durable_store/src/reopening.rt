//! The opening of a store over what a crash has left.
ghost use Rattle.std.specs.Prelude.{◌≡◌, ◌+◌, ◌++◌, [], None, length, IfOk, IfErr, OnOk, OnErr, IsErrOf, true, false};
ghost use Rattle.store_form.specs.Ends.{Closes};
ghost use Rattle.store_form.specs.declared.checkpoint.Checkpoint.{Checkpoint};
ghost use Rattle.checkpoint_store.specs.Slots.{generation_of};
ghost use Rattle.store_laws.specs.Restored.{log_image, side_of, present_in, restores};
ghost use Rattle.store_laws.specs.States.{store_opened};
ghost use Rattle.store_laws.specs.Lives.{StoreWire};
ghost use Rattle.store_laws.specs.Stands.{IsRead, at_rest, instead, StoreStands, IsOwn};
ghost use Rattle.store_laws.specs.declared.job.Kept.{Kept};
ghost use Rattle.durable_store.specs.Stores.{state_of, Stands};
ghost use Rattle.durable_store.specs.Disks.{contents, AreSettled, AreSame, DiskRose, NoneFell, TimeWent};
ghost use Rattle.durable_store.specs.Streams.{Opens, entries_to_come};

use crate::disks::Disks;
use crate::opening::Opening;
use crate::store::{Store, StoreFault};
use disk_model::disk::Disk;
use smart_base::sequence::{Bytes, Sequence};
use std::alloc::Global;
use store_form::ends::{LogFault, State};
use store_laws::job::Kept;

/// Opens a store over four devices on which nothing is pending. Gives the store and what it restores.
/// Errors: a failure of a device; want of memory. The devices come back with the error.
pub fn reopen<D: Disk>(
    alloc: Global,
    disks: Disks<D>,
) -> Result<(Store<D>, Kept), (StoreFault, Disks<D>)>
    requires { D.told → AreSettled D.cells disks }
    ensures kept { IfOk result (λ r. D.told → r.1 ≡ restores (contents D.cells disks)) }
    // The whole state of the store that is opened over these bytes.
    ensures opened { IfOk result (λ r. D.told → state_of D.cells r.0 ≡ store_opened (contents D.cells disks)) }
    // The log of the present generation is read to its end.
    ensures read { IfOk result (λ r. D.told → IsRead (log_image (side_of (present_in (contents D.cells disks))) (contents D.cells disks))) }
    ensures stands { IfOk result (λ r. D.told → Stands (state_of D.cells r.0)) }
    // What the store stands for: what it restores, and what a 1 at its first torn gate would bring back.
    ensures keeps { IfOk result (λ r. D.told → (next : Checkpoint)
        → StoreStands (state_of D.cells r.0) (at_rest r.1 (instead (store_opened (contents D.cells disks)) (contents D.cells disks)) next)) }
    // The pair that the store stands for: the one that is claimed of the bytes, if only crashes of its own lives changed them.
    ensures lives { IfOk result (λ r. D.told → (kept other : Kept) (next : Checkpoint) → StoreWire (contents D.cells disks) kept other
        → (r.1 ≡ kept) × IsOwn (state_of D.cells r.0) (at_rest kept other next)) }
    // What is known of it without a disk that tells its contents.
    ensures firm { IfOk result (λ r. (r.0.plan.firm ≡ length r.1.entries) × (r.0.plan.restored ≡ length r.1.entries)) }
    ensures waiting { IfOk result (λ r. (r.0.plan.waiting ≡ []) × (r.0.plan.asked ≡ None)) }
    ensures idle { IfOk result (λ r. r.0.plan.running ≡ []) }
    ensures generation { IfOk result (λ r. r.0.plan.generation ≡ generation_of r.1.present) }
    ensures open { IfOk result (λ r. r.0.state ≡ State.Open) }
    ensures same { IfOk result (λ r. D.told → AreSame D.cells disks r.0.disks) }
    ensures back { IfErr result (λ e. D.told → AreSame D.cells disks e.1) }
    ensures time { IfOk result (λ r. D.told → TimeWent D.moment D.left_since D.cells disks r.0.disks) }
    ensures back_time { IfErr result (λ e. D.told → TimeWent D.moment D.left_since D.cells disks e.1) }
    ensures later { IfOk result (λ r. NoneFell D.faults disks r.0.disks) }
    ensures back_later { IfErr result (λ e. NoneFell D.faults disks e.1) }
    ensures wants_later { IfOk result (λ r. NoneFell D.wants disks r.0.disks) }
    ensures back_wants { IfErr result (λ e. NoneFell D.wants disks e.1) }
    ensures cause { IfErr result (λ e. e.0 ≡ LogFault.Disk false → DiskRose D.faults disks e.1) }
    ensures not_closed { IfErr result (λ e. e.0 ≡ LogFault.Disk true → ⊥) }
{
    let mut opening = match Store::reopen_start(alloc, disks) {
        Ok(opening) => opening,
        Err(back) => return Err(back),
    };
    match read_entries(alloc, &mut opening) {
        Ok(entries) => {
            let (store, present) = opening.into_parts(alloc);
            Ok((store, Kept { present, entries }))
        }
        Err(fault) => Err((fault, opening.into_disks())),
    }
}

/// The entries that are still to come, one after the other. Errors: a failure of the log's device; want
/// of memory.
fn read_entries<D: Disk>(
    alloc: Global,
    opening: &mut Opening<D>,
) -> Result<Sequence<Bytes>, StoreFault>
    requires open { opening.old.state ≡ State.Open }
    requires opens { D.told → Opens D.cells opening.old }
    ensures entries { IfOk result (λ entries. D.told → entries ≡ entries_to_come D.cells opening.old) }
    ensures count { IfOk result (λ entries. opening.new.reader.restored ≡ opening.old.reader.restored + length entries) }
    ensures ended { OnOk result (opening.new.reader.ended ≡ true) }
    ensures opens { D.told → Opens D.cells opening.new }
    ensures present { opening.new.present ≡ opening.old.present }
    ensures same { D.told → AreSame D.cells opening.old.disks opening.new.disks }
    ensures time { D.told → TimeWent D.moment D.left_since D.cells opening.old.disks opening.new.disks }
    ensures later { NoneFell D.faults opening.old.disks opening.new.disks }
    ensures wants_later { NoneFell D.wants opening.old.disks opening.new.disks }
    ensures cause { IsErrOf result (LogFault.Disk false) → DiskRose D.faults opening.old.disks opening.new.disks }
    ensures not_closed { IsErrOf result (LogFault.Disk true) → ⊥ }
{
    let mut entries = Sequence::new(alloc);
    while let Some(entry) = opening.next(alloc)? {
        entries.push(entry)?;
    }
    Ok(entries)
}
