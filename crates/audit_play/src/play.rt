//! The audit of an input.
ghost use Rattle.std.specs.Prelude.{◌≡◌, ℕ, List, [], Option, OnOk, OnErr, take};
ghost use Rattle.std.specs.Io.KnownBytes.{Appends, Consumes, IsAtEnd};
ghost use Rattle.faults.specs.Counts.{Rose, HasCause, HasWant};
ghost use Rattle.trail_audit.specs.Faults.{IsFault};
ghost use Rattle.audit_play.specs.Texts.{verdict_text};
ghost use Rattle.audit_play.specs.Ends.{Told, Ended};

use crate::input::read_input;
use crate::status::AuditStatus;
use crate::text::verdict_text;
use audit_rules::recorded::Verdict;
use faults::Fault;
use smart_io::stream::{Sink, Source, write_all};
use std::alloc::Global;
use trail_audit::audit::audit;
use trail_audit::reader::{ReadingFault, read_trails};

/// Writes all bytes, and flushes them.
fn write_whole<O: Sink>(output: &mut O, bytes: &[u8]) -> Result<(), Fault>
    ensures ok { OnOk result (Appends (O.written output.old) (O.written output.new) bytes.now) }
    ensures err { OnErr result ((count : ℕ) × Appends (O.written output.old) (O.written output.new) (take count bytes.now)) }
    ensures cause { HasCause (O.faults output.old) (O.faults output.new) result }
    ensures want { HasWant (O.wants output.old) (O.wants output.new) result }
{
    match write_all(output, bytes) {
        Ok(()) => output.flush(),
        Err(fault) => Err(fault),
    }
}

fn verdict_end(verdict: Verdict) -> AuditStatus
    ensures told { (written now : Option (List ℕ)) (wants wants' : ℕ) → Appends written now (verdict_text verdict) → Told verdict written now wants wants' result }
    ensures write { result ≡ AuditStatus.WriteFault → ⊥ }
{
    match verdict {
        Verdict::Coherent => AuditStatus::Coherent,
        Verdict::Differs(difference) => AuditStatus::Differs(difference),
    }
}

/// Writes the line that tells a verdict.
fn tell<O: Sink>(alloc: Global, output: &mut O, verdict: Verdict) -> AuditStatus
    ensures told { Told verdict (O.written output.old) (O.written output.new) (O.wants output.old) (O.wants output.new) result }
    ensures write { result ≡ AuditStatus.WriteFault → Rose (O.faults output.old) (O.faults output.new) }
{
    let text = match verdict_text(alloc, &verdict) {
        Ok(text) => text,
        Err(_) => return AuditStatus::NoMemory,
    };
    match write_whole(output, text.as_bytes()) {
        Ok(()) => verdict_end(verdict),
        Err(Fault::Failed) => AuditStatus::WriteFault,
        Err(Fault::NoMemory) => AuditStatus::NoMemory,
    }
}

/// The end of the audit of bytes that are no recorded runs.
fn fault_end(fault: ReadingFault) -> AuditStatus
    ensures ended { (bytes : List ℕ) (left left' written now : Option (List ℕ)) (wants wants' : ℕ) → IsFault bytes fault → Consumes left left' bytes → IsAtEnd left' → Appends written now [] → Ended left left' written now wants wants' result }
    ensures read { result ≡ AuditStatus.ReadFault → ⊥ }
    ensures write { result ≡ AuditStatus.WriteFault → ⊥ }
{
    match fault {
        ReadingFault::Empty => AuditStatus::Empty,
        ReadingFault::Form { part } => AuditStatus::Form { part },
        ReadingFault::Limit { part } => AuditStatus::Limit { part },
        ReadingFault::NoMemory => AuditStatus::NoMemory,
    }
}

/// Audits the trails that bytes are, and writes the line that tells what is found.
fn audit_bytes<O: Sink>(alloc: Global, bytes: &[u8], output: &mut O) -> AuditStatus
    ensures ended { (left left' : Option (List ℕ)) → Consumes left left' bytes.now → IsAtEnd left' → Ended left left' (O.written output.old) (O.written output.new) (O.wants output.old) (O.wants output.new) result }
    ensures read { result ≡ AuditStatus.ReadFault → ⊥ }
    ensures write { result ≡ AuditStatus.WriteFault → Rose (O.faults output.old) (O.faults output.new) }
{
    let trails = match read_trails(alloc, bytes) {
        Ok(trails) => trails,
        Err(fault) => return fault_end(fault),
    };
    match audit(alloc, trails.as_slice()) {
        Ok(verdict) => tell(alloc, output, verdict),
        Err(_) => AuditStatus::NoMemory,
    }
}

/// Audits the trails of an input, which stand one after the other, and writes the line that tells what is
/// found. The whole input is read before the audit begins.
pub fn play_audit<I: Source, O: Sink>(alloc: Global, input: &mut I, output: &mut O) -> AuditStatus
    ensures ended { Ended (I.left input.old) (I.left input.new) (O.written output.old) (O.written output.new) (O.wants output.old) (O.wants output.new) result }
    ensures read { result ≡ AuditStatus.ReadFault → Rose (I.faults input.old) (I.faults input.new) }
    ensures write { result ≡ AuditStatus.WriteFault → Rose (O.faults output.old) (O.faults output.new) }
{
    match read_input(alloc, input) {
        Ok(bytes) => audit_bytes(alloc, bytes.as_slice(), output),
        Err(Fault::Failed) => AuditStatus::ReadFault,
        Err(Fault::NoMemory) => AuditStatus::NoMemory,
    }
}
