//! The bytes of an input.
ghost use Rattle.std.specs.Prelude.{◌≡◌, ◌<◌, ◌≤◌, ◌++◌, [], List, ℕ, length, true, false, IfOk, IsErrOf};
ghost use Rattle.std.specs.Io.KnownBytes.{Consumes, IsAtEnd};
ghost use Rattle.faults.specs.Counts.{Rose};

use crate::top::Status;
use faults::Fault;
use smart_io::stream::Source;
use std::alloc::Global;

/// How many bytes are read at a time.
const PIECE: usize = 4096;

/// More reads than memory has room for: each gives a byte or more.
const READS: u64 = 1 << 62;

/// Reads a piece behind bytes. Answers whether there was one: the input ends where there was none.
fn read_piece<I: Source>(
    input: &mut I,
    buffer: &mut [u8],
    bytes: &mut Vec<u8>,
) -> Result<bool, Status>
    requires { 0 < length buffer.old }
    ensures more { IfOk result (λ more. more ≡ true → (piece : List ℕ) × Consumes (I.left input.old) (I.left input.new) piece × (bytes.new.items ≡ bytes.old.items ++ piece)) }
    ensures none { IfOk result (λ more. more ≡ false → Consumes (I.left input.old) (I.left input.new) [] × IsAtEnd (I.left input.new) × (bytes.new.items ≡ bytes.old.items)) }
    ensures read { IsErrOf result Status.ReadFault → Rose (I.faults input.old) (I.faults input.new) }
    ensures other { (IsErrOf result Status.Ok → ⊥) × (IsErrOf result Status.Words → ⊥) × (IsErrOf result Status.WriteFault → ⊥) }
    ensures later { I.faults input.old ≤ I.faults input.new }
{
    let count = match input.read(buffer) {
        Ok(count) => count,
        Err(Fault::Failed) => return Err(Status::ReadFault),
        Err(Fault::NoMemory) => return Err(Status::NoMemory),
    };
    if count == 0 {
        return Ok(false);
    }
    let (piece, _) = buffer.split_at(count);
    if bytes.extend_from_slice(piece).is_err() {
        return Err(Status::NoMemory);
    }
    Ok(true)
}

/// All bytes of an input.
pub fn read_all<I: Source>(alloc: Global, input: &mut I) -> Result<Vec<u8>, Status>
    ensures all { IfOk result (λ bytes. Consumes (I.left input.old) (I.left input.new) bytes.items × IsAtEnd (I.left input.new)) }
    ensures read { IsErrOf result Status.ReadFault → Rose (I.faults input.old) (I.faults input.new) }
    ensures other { (IsErrOf result Status.Ok → ⊥) × (IsErrOf result Status.Words → ⊥) × (IsErrOf result Status.WriteFault → ⊥) }
{
    let mut bytes = Vec::new(alloc);
    let mut buffer = [0u8; PIECE];
    for _ in 0..READS {
        match read_piece(input, &mut buffer, &mut bytes) {
            Ok(true) => {}
            Ok(false) => return Ok(bytes),
            Err(status) => return Err(status),
        }
    }
    Err(Status::NoMemory)
}
