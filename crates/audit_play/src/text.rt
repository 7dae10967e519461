//! The line that tells what an audit finds.
ghost use Rattle.std.specs.Prelude.{◌≡◌, IfOk, string_bytes};
ghost use Rattle.audit_play.specs.Texts.{kind_number, difference_text, verdict_text};

use audit_rules::recorded::{Difference, Found, Verdict};
use std::alloc::{AllocError, Global};
use std::fmt::Write;

/// The number by which the line names the kind of a difference.
fn kind_number(found: &Found) -> u8
    ensures { result ≡ kind_number found.now }
{
    match found {
        Found::Sent {
            expected: _,
            found: _,
        } => 1,
        Found::Stated(_) => 2,
    }
}

/// The line that tells a difference. Error: want of memory.
fn difference_text(alloc: Global, difference: &Difference) -> Result<String, AllocError>
    ensures { IfOk result (λ text. string_bytes text ≡ difference_text difference.now) }
{
    let kind = kind_number(&difference.found);
    let member = difference.member;
    let event = difference.event;
    let mut text = String::new(alloc);
    write!(&mut text, "differs {kind} n{member} {event}\n")?;
    Ok(text)
}

/// The line that tells a verdict. Error: want of memory.
pub fn verdict_text(alloc: Global, verdict: &Verdict) -> Result<String, AllocError>
    ensures { IfOk result (λ text. string_bytes text ≡ verdict_text verdict.now) }
{
    match verdict {
        Verdict::Coherent => Ok(String::from_str(alloc, "coherent\n")?),
        Verdict::Differs(difference) => difference_text(alloc, difference),
    }
}
