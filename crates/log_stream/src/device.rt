//! The reading of a device in pieces.
ghost use Rattle.std.specs.Prelude.{◌≡◌, ◌≤◌, ◌<◌, ◌+◌, ◌^◌, ◌++◌, length, min, take, drop, IfOk, OnOk, IsErrOf};
ghost use Rattle.faults.specs.Counts.{HasCause, HasWant};
ghost use Rattle.log_stream.specs.Windows.{OnlyRead};

use disk_model::disk::Disk;
use faults::Fault;
use smart_base::sequence::Bytes;
use std::alloc::Global;

/// The most bytes that are read at once, but for an entry.
pub const PIECE_BYTES: u64 = 65_536;

/// The first length that no memory holds.
const TOO_LONG: u64 = 1 << 63;

/// The length of a device in bytes. Errors: a failure of the device; want of memory.
pub fn length_of<D: Disk>(alloc: Global, device: &mut D) -> Result<u64, Fault>
    ensures length { IfOk result (λ n. D.told → n ≡ length (D.cells device.old).now) }
    ensures small { IfOk result (λ n. n < 2 ^ 63) }
    ensures still { D.told → OnlyRead D.cells D.moment D.left_since device.old device.new }
    ensures cause { HasCause (D.faults device.old) (D.faults device.new) result }
    ensures want { HasWant (D.wants device.old) (D.wants device.new) result }
{
    let count = device.len()?;
    if count < TOO_LONG {
        return Ok(count);
    }
    // The device has to say that no memory holds so many bytes.
    let bytes = device.read(alloc, 0, count)?;
    Ok(bytes.len() as u64)
}

/// So many bytes from an index on, or fewer if the contents end before. Errors: a failure of the
/// device; want of memory.
pub fn read_bytes<D: Disk>(
    alloc: Global,
    device: &mut D,
    at: u64,
    count: u64,
) -> Result<Bytes, Fault>
    requires { at + count < 2 ^ 63 }
    ensures bytes { IfOk result (λ bytes. D.told → bytes ≡ take count (drop at (D.cells device.old).now)) }
    ensures still { D.told → OnlyRead D.cells D.moment D.left_since device.old device.new }
    ensures cause { HasCause (D.faults device.old) (D.faults device.new) result }
    ensures wants_later { D.wants device.old ≤ D.wants device.new }
{
    let mut bytes = Vec::new(alloc);
    let mut done = 0;
    while done < count {
        let next = least(PIECE_BYTES, count - done);
        let piece = device.read(alloc, at + done, next)?;
        push_piece(&mut bytes, piece.as_slice())?;
        done += next;
    }
    Ok(Bytes::from_vec(bytes))
}

/// Adds a piece at the end. Error: want of memory.
fn push_piece(bytes: &mut Vec<u8>, piece: &[u8]) -> Result<(), Fault>
    ensures ok { OnOk result (bytes.new.items ≡ bytes.old.items ++ piece.now) }
    ensures not_failed { IsErrOf result Fault.Failed → ⊥ }
{
    match bytes.extend_from_slice(piece) {
        Ok(()) => Ok(()),
        Err(_) => Err(Fault::NoMemory),
    }
}

/// The less of two numbers.
pub fn least(one: u64, other: u64) -> u64
    ensures { result ≡ min one other }
{
    if one < other { one } else { other }
}
