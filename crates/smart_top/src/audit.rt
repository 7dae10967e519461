//! The audit of an input, as the program ends.
ghost use Rattle.std.specs.Prelude.{◌≡◌};
ghost use Rattle.faults.specs.Counts.{Rose};
ghost use Rattle.smart_top.specs.Audits.{kind_of, status_of, AuditEnd, IsTrails, IsJudged};

use audit_play::play::play_audit;
use audit_play::status::AuditStatus;
use audit_rules::recorded::Found;
use script_play::status::{DifferenceKind, Status};
use smart_io::stream::{Sink, Source};
use std::alloc::Global;
use world_rules::line::Kind;

pub(crate) fn kind_of(found: &Found) -> DifferenceKind
    ensures { result ≡ kind_of found.now }
{
    match found {
        Found::Sent {
            expected: _,
            found: _,
        } => DifferenceKind::Sent,
        Found::Stated(_) => DifferenceKind::Stated,
    }
}

/// The status of the program, by the end of an audit.
fn status_of(end: &AuditStatus) -> Status
    ensures { result ≡ status_of end.now }
{
    match end {
        AuditStatus::Coherent => Status::Ok,
        AuditStatus::Empty => Status::Script {
            line: 1,
            kind: Kind::Empty,
        },
        AuditStatus::Form { part } => Status::Script {
            line: *part,
            kind: Kind::Form,
        },
        AuditStatus::ReadFault => Status::ReadFault,
        AuditStatus::WriteFault => Status::WriteFault,
        AuditStatus::Limit { part } => Status::Limit { line: *part },
        AuditStatus::Differs(difference) => Status::Differs {
            kind: kind_of(&difference.found),
            member: difference.member,
            event: difference.event,
        },
        AuditStatus::NoMemory => Status::NoMemory,
    }
}

/// Audits the trails of an input, and writes the line that tells what is found.
pub fn audit<I: Source, O: Sink>(alloc: Global, input: &mut I, output: &mut O) -> Status
    ensures ended { AuditEnd (I.left input.old) (I.left input.new) (O.written output.old) (O.written output.new) (O.wants output.old) (O.wants output.new) result }
    ensures words { result ≡ Status.Words → ⊥ }
    ensures read { result ≡ Status.ReadFault → Rose (I.faults input.old) (I.faults input.new) }
    ensures write { result ≡ Status.WriteFault → Rose (O.faults output.old) (O.faults output.new) }
    ensures complete { IsTrails (I.left input.old) → (Rose (I.faults input.old) (I.faults input.new) → ⊥) → (Rose (O.faults output.old) (O.faults output.new) → ⊥) → IsJudged result }
{
    let end = play_audit(alloc, input, output);
    status_of(&end)
}
