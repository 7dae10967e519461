//! The reading of what a slot holds.
ghost use Rattle.std.specs.Prelude.{◌≡◌, ◌≤◌, ◌⊎◌, IfOk, IsErrOf};
ghost use Rattle.faults.specs.Counts.{Rose};
ghost use Rattle.disk_model.specs.Cells.{IsImage};
ghost use Rattle.disk_model.specs.Calls.{Elapses};
ghost use Rattle.checkpoint_store.specs.Slots.{is_odd, uses, slot_of, newer, newest, generation_of};

use disk_model::disk::{Disk, read_all};
use faults::Fault;
use smart_base::cursor::Cursor;
use smart_base::fault::ReadError;
use smart_base::sequence::Bytes;
use std::alloc::{AllocError, Global};
use store_form::checkpoint::{Checkpoint, take_checkpoint};

/// Whether a generation is odd.
pub fn is_odd(generation: u64) -> bool
    ensures { result ≡ is_odd generation }
{
    generation % 2 == 1
}

/// The checkpoint of a slot, if it counts. Error: want of memory.
pub fn slot_of(alloc: Global, odd: bool, bytes: &[u8]) -> Result<Option<Checkpoint>, AllocError>
    ensures { IfOk result (λ found. found ≡ slot_of odd bytes.now) }
{
    if bytes.is_empty() || bytes[0] != 1 {
        return Ok(None);
    }
    let (_gate, inner) = bytes.split_at(1);
    let mut cut = Cursor::new(inner);
    // That these are bytes is known of the cursor.
    let _all = cut.rest();
    match take_checkpoint(alloc, &mut cut) {
        Ok(found) => Ok(counted(odd, found)),
        Err(ReadError::Unread { .. }) => Ok(None),
        Err(ReadError::NoMemory) => Err(AllocError),
    }
}

/// A checkpoint, if its generation uses this slot.
fn counted(odd: bool, found: Checkpoint) -> Option<Checkpoint>
    ensures { result ≡ uses odd found }
{
    if 0 < found.generation && is_odd(found.generation) == odd {
        Some(found)
    } else {
        None
    }
}

/// The generation of a checkpoint; 0 if there is none.
pub fn generation_of(found: &Option<Checkpoint>) -> u64
    ensures { result ≡ generation_of found.now }
{
    match found {
        Some(checkpoint) => checkpoint.generation,
        None => 0,
    }
}

/// The checkpoint of the greater generation.
pub fn newer(one: Option<Checkpoint>, other: Option<Checkpoint>) -> Option<Checkpoint>
    ensures { result ≡ newer one other }
{
    let Some(x) = one else {
        return other;
    };
    let Some(y) = other else {
        return Some(x);
    };
    if x.generation < y.generation {
        Some(y)
    } else {
        Some(x)
    }
}

/// The bytes of two devices. Errors: a failure of a device; want of memory.
pub fn read_pair<D: Disk>(alloc: Global, even: &mut D, odd: &mut D) -> Result<(Bytes, Bytes), Fault>
    ensures bytes { IfOk result (λ r. D.told → (r.0 ≡ (D.cells even.old).now) × (r.1 ≡ (D.cells odd.old).now)) }
    ensures even { D.told → D.cells even.new ≡ D.cells even.old }
    ensures odd { D.told → D.cells odd.new ≡ D.cells odd.old }
    ensures even_time { D.told → Elapses (D.moment even.old) (D.moment even.new) (D.left_since even.old) (D.left_since even.new) (IsImage (D.cells even.new)) }
    ensures odd_time { D.told → Elapses (D.moment odd.old) (D.moment odd.new) (D.left_since odd.old) (D.left_since odd.new) (IsImage (D.cells odd.new)) }
    ensures even_later { D.faults even.old ≤ D.faults even.new }
    ensures odd_later { D.faults odd.old ≤ D.faults odd.new }
    ensures cause { IsErrOf result Fault.Failed → Rose (D.faults even.old) (D.faults even.new) ⊎ Rose (D.faults odd.old) (D.faults odd.new) }
    ensures even_wants_later { D.wants even.old ≤ D.wants even.new }
    ensures odd_wants_later { D.wants odd.old ≤ D.wants odd.new }
    ensures want { IsErrOf result Fault.NoMemory → Rose (D.wants even.old) (D.wants even.new) ⊎ Rose (D.wants odd.old) (D.wants odd.new) }
{
    let of_even = read_all(alloc, even)?;
    let of_odd = read_all(alloc, odd)?;
    Ok((of_even, of_odd))
}

/// The newest checkpoint that counts in the bytes of both slots, if there is one. Error: want of
/// memory.
pub fn newest_of(alloc: Global, even: &[u8], odd: &[u8]) -> Result<Option<Checkpoint>, AllocError>
    ensures { IfOk result (λ found. found ≡ newest even.now odd.now) }
{
    let of_even = slot_of(alloc, false, even)?;
    let of_odd = slot_of(alloc, true, odd)?;
    Ok(newer(of_even, of_odd))
}
