//! What a worker asks of its store: a group, or a new generation.
ghost use Rattle.std.specs.Prelude.{◌≡◌, ◌≤◌, ◌<◌, ◌+◌, ◌^◌, min, false, true, length, OnOk, IsErrOf};
ghost use Rattle.store_laws.specs.States.{Devices, greatest, is_due};
ghost use Rattle.store_plan.specs.Fit.{AreEntries};
ghost use Rattle.store_plan.specs.Plans.{state_with};
ghost use Rattle.durable_store.specs.Disks.{NoneFell, DiskRose};
ghost use Rattle.durable_store.specs.Stores.{state_of, Stands};
ghost use Rattle.log_worker.specs.Rounds.{IsAtRest, Gave, Switched};

use disk_model::disk::Disk;
use durable_store::store::{Store, StoreFault};
use smart_base::sequence::{Bytes, Sequence};
use std::alloc::Global;
use store_form::ends::LogFault;
use store_laws::job::Tail;
use store_plan::stops::Stops;

/// The number of firm entries of a store, which is one of 64 bits.
fn firm_of<D: Disk>(store: &Store<D>) -> u64
    ensures value { result ≡ store.now.plan.firm }
    ensures few { store.now.plan.firm ≤ greatest }
{
    store.plan.firm
}

/// Lets a store write entries, and all that wait, up to the first that ends a group. Errors: a failure
/// of a device; want of memory.
pub(crate) fn store_group<D: Disk, E: Stops>(
    alloc: Global,
    store: &mut Store<D>,
    entries: Sequence<Bytes>,
) -> Result<(), StoreFault>
    requires fit { AreEntries entries }
    requires rests { IsAtRest store.old.plan store.old.state }
    requires sound { D.told → Stands (state_of D.cells store.old) }
    // The whole state after the calls that went well, what a crash leaves, and left at any moment.
    ensures ran { Gave D.told D.remembers D.cells D.moment D.left_since E.stops result entries store.old store.new }
    ensures rests { OnOk result (IsAtRest store.new.plan store.new.state) }
    ensures rose { store.old.plan.firm ≤ store.new.plan.firm }
    // Each entry that waited or was given is firm, or waits.
    ensures kept { OnOk result (min (store.old.plan.firm + (length store.old.plan.waiting + length entries)) greatest ≤ store.new.plan.firm + length store.new.plan.waiting) }
    ensures done { OnOk result ((d : Devices) → is_due E.stops (state_with store.new.plan d) ≡ false) }
    ensures stands { OnOk result (D.told → Stands (state_of D.cells store.new)) }
    ensures later { NoneFell D.faults store.old.disks store.new.disks }
    ensures wants_later { NoneFell D.wants store.old.disks store.new.disks }
    ensures cause { IsErrOf result (LogFault.Disk false) → DiskRose D.faults store.old.disks store.new.disks }
    ensures not_closed { IsErrOf result (LogFault.Disk true) → ⊥ }
{
    let _firm = firm_of(store);
    store.append::<E>(alloc, entries)?;
    Ok(())
}

/// Lets a store switch to the next generation, with this snapshot and this tail. Errors: a failure of a
/// device; want of memory.
pub(crate) fn store_generation<D: Disk, E: Stops>(
    alloc: Global,
    store: &mut Store<D>,
    snapshot: Bytes,
    tail: &Tail,
) -> Result<(), StoreFault>
    requires fits { length snapshot < 2 ^ 32 }
    requires tail { AreEntries tail.now.entries }
    requires next { store.old.plan.generation < greatest }
    requires rests { IsAtRest store.old.plan store.old.state }
    requires sound { D.told → Stands (state_of D.cells store.old) }
    ensures ran { Switched D.told D.remembers D.cells D.moment D.left_since E.stops result snapshot tail.now store.old store.new }
    ensures rests { OnOk result (IsAtRest store.new.plan store.new.state) }
    ensures rose { store.old.plan.firm ≤ store.new.plan.firm }
    ensures kept { OnOk result (min (store.old.plan.firm + length store.old.plan.waiting) greatest ≤ store.new.plan.firm + length store.new.plan.waiting) }
    ensures generation { OnOk result (store.new.plan.generation ≡ store.old.plan.generation + 1) }
    ensures stands { OnOk result (D.told → Stands (state_of D.cells store.new)) }
    ensures later { NoneFell D.faults store.old.disks store.new.disks }
    ensures wants_later { NoneFell D.wants store.old.disks store.new.disks }
    ensures cause { IsErrOf result (LogFault.Disk false) → DiskRose D.faults store.old.disks store.new.disks }
    ensures not_closed { IsErrOf result (LogFault.Disk true) → ⊥ }
{
    let _firm = firm_of(store);
    let next = store.generation() + 1;
    store.switch::<E>(alloc, next, snapshot, tail)?;
    Ok(())
}
