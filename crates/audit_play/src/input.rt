//! An input, read to its end.
ghost use Rattle.std.specs.Prelude.{◌≡◌, ◌<◌, ◌≤◌, ℕ, List, Option, true, false, IfOk, OnErr, IsErrOf, length};
ghost use Rattle.std.specs.Io.KnownBytes.{Consumes, IsAtEnd};
ghost use Rattle.faults.specs.Counts.{Rose};

use faults::Fault;
use smart_io::stream::Source;
use std::alloc::Global;

/// The number of bytes that are read at a time.
const PIECE: usize = 4096;

/// More reads than memory has room for, as each gives a byte or more.
const READS: u64 = 1 << 63;

/// Reads a piece of an input behind the bytes that were read. Answers whether there was a piece; if there
/// was none, the input has ended. Errors: that of the source; want of memory.
fn read_piece<I: Source>(
    input: &mut I,
    bytes: &mut Vec<u8>,
    buffer: &mut [u8],
) -> Result<bool, Fault>
    requires { 0 < length buffer.old }
    ensures more { IfOk result (λ more. (left : Option (List ℕ)) → Consumes left (I.left input.old) bytes.old.items → Consumes left (I.left input.new) bytes.new.items) }
    ensures end { IfOk result (λ more. more ≡ false → IsAtEnd (I.left input.new)) }
    ensures err { OnErr result ((left : Option (List ℕ)) → Consumes left (I.left input.old) bytes.old.items → (read : List ℕ) × Consumes left (I.left input.new) read) }
    ensures cause { IsErrOf result Fault.Failed → Rose (I.faults input.old) (I.faults input.new) }
    ensures later { I.faults input.old ≤ I.faults input.new }
{
    let count = match input.read(buffer) {
        Ok(count) => count,
        Err(fault) => return Err(fault),
    };
    let (piece, _) = buffer.split_at(count);
    if bytes.extend_from_slice(piece).is_err() {
        return Err(Fault::NoMemory);
    }
    Ok(count > 0)
}

/// Reads an input to its end. Errors: that of the source; want of memory.
pub fn read_input<I: Source>(alloc: Global, input: &mut I) -> Result<Vec<u8>, Fault>
    ensures read { IfOk result (λ bytes. Consumes (I.left input.old) (I.left input.new) bytes.items) }
    ensures end { IfOk result (λ bytes. IsAtEnd (I.left input.new)) }
    ensures err { OnErr result ((read : List ℕ) × Consumes (I.left input.old) (I.left input.new) read) }
    ensures cause { IsErrOf result Fault.Failed → Rose (I.faults input.old) (I.faults input.new) }
{
    let mut bytes = Vec::new(alloc);
    let mut buffer = [0u8; PIECE];
    for _ in 0..READS {
        match read_piece(input, &mut bytes, &mut buffer) {
            Ok(true) => {}
            Ok(false) => return Ok(bytes),
            Err(fault) => return Err(fault),
        }
    }
    Err(Fault::NoMemory)
}
