//! How the trails of a group are judged.
ghost use Rattle.std.specs.Prelude.{◌≡◌, IfOk};
ghost use Rattle.smart_base.specs.Lists.{Each};
ghost use Rattle.audit_rules.specs.Audits.{CanBegin, first_difference, verdict_of};
ghost use Rattle.audit_rules.specs.Quiets.{is_quiet};

use audit_rules::recorded::{Recorded, Verdict};
use std::alloc::{AllocError, Global};
use trail_audit::audit::audit;
use trail_audit::quiet::quiet;

/// What is found of trails.
#[derive(Drop)]
pub struct Judged {
    /// Whether they are coherent, and what differs first.
    pub verdict: Verdict,
    /// Whether nothing is left to be done or to arrive.
    pub quiet: bool,
}

/// Judges trails, whose members could begin as they say. Error: want of memory.
pub fn judge(alloc: Global, trails: &[Recorded]) -> Result<Judged, AllocError>
    requires { Each CanBegin trails.now }
    ensures verdict { IfOk result (λ j. j.verdict ≡ verdict_of (first_difference trails.now)) }
    ensures quiet { IfOk result (λ j. j.quiet ≡ is_quiet trails.now) }
{
    Ok(Judged {
        verdict: audit(alloc, trails)?,
        quiet: quiet(alloc, trails)?,
    })
}
