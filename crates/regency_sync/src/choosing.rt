//! The choice of reports.
ghost use Rattle.std.specs.Prelude.{◌≡◌, option_map};
ghost use Rattle.std.specs.Option.{option_copied};
ghost use Rattle.smart_statements.specs.declared.report.LockCertificate.{LockCertificate};
ghost use Rattle.regency_sync.specs.Choices.{greatest_last, lock_behind, greater, greatest_lock, choice};

use crate::choice::Choice;
use smart_base::bytes::Digest32;
use smart_base::number::Place;
use smart_statements::report::{LockCertificate, Report};
use smart_statements::signed::Signed;

fn greatest_last(reports: &[Signed<Report>]) -> Place
    ensures { result ≡ greatest_last reports.now }
{
    let mut last = Place::zero();
    for report in reports {
        if last < report.statement().last {
            last = report.statement().last;
        }
    }
    last
}

fn lock_behind(last: Place, report: &Signed<Report>) -> Option<&LockCertificate>
    ensures { option_copied result ≡ lock_behind last report.now }
{
    if report.statement().last == last {
        report.statement().lock.as_ref()
    } else {
        None
    }
}

fn greater<'a>(
    first: Option<&'a LockCertificate>,
    second: Option<&'a LockCertificate>,
) -> Option<&'a LockCertificate>
    ensures { option_copied result ≡ greater (option_copied first.entry) (option_copied second.entry) }
{
    match (first, second) {
        (None, _) => second,
        (Some(_), None) => first,
        (Some(a), Some(b)) => { if a.regency < b.regency { second } else { first } }
    }
}

fn greatest_lock(last: Place, reports: &[Signed<Report>]) -> Option<&LockCertificate>
    ensures { option_copied result ≡ greatest_lock last reports.now }
{
    let mut found = None;
    for report in reports {
        found = greater(found, lock_behind(last, report));
    }
    found
}

fn bound(last: Place, reports: &[Signed<Report>]) -> Option<Digest32>
    ensures { result ≡ option_map (λ (l : LockCertificate). l.digest) (greatest_lock last reports.now) }
{
    match greatest_lock(last, reports) {
        None => None,
        Some(lock) => Some(lock.digest),
    }
}

/// The choice of reports. The regency begins at the place after the greatest last place that they
/// state. Among their locks for that place the one of the greatest regency binds; of equals the
/// first. That a value which may be decided binds the next leader is Mod-SMaRt's (EDCC 2012); how it
/// is chosen is this project's own rule. It needs no memory.
#[tactic(auto, unfolding(crate::specs::Choices::choice))]
pub fn choice(reports: &[Signed<Report>]) -> Choice
    ensures { result ≡ choice reports.now }
{
    let last = greatest_last(reports);
    Choice {
        base: last.get() + 1,
        bound: bound(last, reports),
    }
}
