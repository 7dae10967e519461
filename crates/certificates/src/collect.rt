//! The checks of reports: of the evidence and the lock in each, and of collects.
ghost use Rattle.std.specs.Prelude.{◌≡◌, ◌↔◌, ◌<◌, true, length};
ghost use Rattle.std.specs.Option.{option_copied};
ghost use Rattle.smart_base.specs.Views.{present};
ghost use Rattle.certificates.specs.Certificates.{passed};
ghost use Rattle.certificates.specs.Collects.{view_holding, view_numbered, is_decided, is_marked, evidence_holds, lock_holds, has_no_false_lock, is_report_of, collect_fault, EvidenceHolds, LockHolds, IsCollect};

use crate::check::{check_marks, check_proof, check_write_cert};
use crate::fault::CertFault;
use crate::list::{Wanted, check_list};
use smart_base::number::{Place, Regency, ViewNo};
use smart_base::view::View;
use smart_keys::ring::Ring;
use smart_statements::report::{DecisionProof, Evidence, LockCertificate, MarkCertificate, Report};
use smart_statements::signed::Signed;
use smart_statements::statement::Slot;
use smart_view::size::collect_size;

/// The greatest place.
const LAST_PLACE: u64 = (1 << 63) - 1;

/// The view that holds a place: the last that starts there or earlier.
pub fn view_holding(views: &[View], place: Place) -> Option<&View>
    ensures { option_copied result ≡ view_holding views.now place }
{
    let mut found = None;
    for view in views {
        if view.start() <= place.get() {
            found = Some(view);
        }
    }
    found
}

fn view_numbered(views: &[View], number: ViewNo) -> Option<&View>
    ensures { option_copied result ≡ view_numbered views.now number }
{
    for view in views {
        if view.number() == number {
            return Some(view);
        }
    }
    None
}

fn present(views: &[View]) -> &View
    requires { 0 < length views.now }
    ensures { result.now ≡ present views.now }
{
    &views[views.len() - 1]
}

fn is_decided(ring: &Ring, views: &[View], last: Place, proof: &DecisionProof) -> bool
    ensures { result ≡ is_decided ring.now views.now last proof.now }
{
    match view_holding(views, last) {
        None => false,
        Some(view) => {
            let slot = Slot {
                view: view.number(),
                place: last,
                regency: proof.regency,
            };
            proof.view == view.number()
                && check_proof(ring, view, slot, proof.digest, proof.accepts.as_slice()).is_ok()
        }
    }
}

fn is_marked(ring: &Ring, views: &[View], last: Place, certificate: &MarkCertificate) -> bool
    ensures { result ≡ is_marked ring.now views.now last certificate.now }
{
    match view_numbered(views, certificate.view) {
        None => false,
        Some(view) => {
            check_marks(
                ring,
                view,
                last,
                certificate.digest,
                certificate.marks.as_slice(),
            )
            .is_ok()
        }
    }
}

/// Whether evidence shows that a place is decided (this project's own rule). Place 0 needs none, and
/// what comes with it is not looked at. A decision proof is of the view that holds the place. Marks
/// are a certificate of any of `views`. It needs no memory.
#[tactic(auto, unfolding(crate::specs::Collects::evidence_holds))]
pub fn check_evidence(ring: &Ring, views: &[View], last: Place, evidence: &Evidence) -> bool
    ensures value { result ≡ evidence_holds ring.now views.now last evidence.now }
    ensures exact { (result ≡ true) ↔ EvidenceHolds ring.now views.now last evidence.now }
{
    if last == Place::zero() {
        return true;
    }
    match evidence {
        Evidence::Nothing => false,
        Evidence::Decided(proof) => is_decided(ring, views, last, proof),
        Evidence::Marked(certificate) => is_marked(ring, views, last, certificate),
    }
}

/// Whether a lock is a write certificate of a view, at the place after the last decided one
/// (Mod-SMaRt, EDCC 2012). Its regency is earlier than the one that it is reported for. There is none
/// after the greatest place. It needs no memory.
#[tactic(auto, unfolding(crate::specs::Collects::lock_holds))]
pub fn check_lock(
    ring: &Ring,
    view: &View,
    last: Place,
    regency: Regency,
    lock: &LockCertificate,
) -> bool
    ensures value { result ≡ lock_holds ring.now view.now last regency lock.now }
    ensures exact { (result ≡ true) ↔ LockHolds ring.now view.now last regency lock.now }
{
    if last.get() == LAST_PLACE {
        return false;
    }
    let slot = Slot {
        view: view.number(),
        place: last.next(),
        regency: lock.regency,
    };
    lock.regency < regency
        && check_write_cert(ring, view, slot, lock.digest, lock.writes.as_slice()).is_ok()
}

/// Whether a lock holds, if there is one. It needs no memory.
pub fn has_no_false_lock(
    ring: &Ring,
    view: &View,
    last: Place,
    regency: Regency,
    lock: &Option<LockCertificate>,
) -> bool
    ensures { result ≡ has_no_false_lock ring.now view.now last regency lock.now }
{
    match lock {
        None => true,
        Some(lock) => check_lock(ring, view, last, regency, lock),
    }
}

/// What a report for a regency of a view has to be; its evidence may be of any of `views`.
#[derive(Drop)]
struct Reporting<'a> {
    view: &'a View,
    views: &'a [View],
    regency: Regency,
}

impl Wanted<Report> for Reporting<'_> {
    ghost is_wanted = { λ secret wanted report. is_report_of secret wanted.view.now wanted.views.now wanted.regency report };

    #[tactic(auto, unfolding(crate::specs::Collects::is_report_of))]
    fn is_met(&self, ring: &Ring, report: &Report) -> bool {
        report.view == self.view.number()
            && report.regency == self.regency
            && check_evidence(ring, self.views, report.last, &report.evidence)
            && has_no_false_lock(ring, self.view, report.last, report.regency, &report.lock)
    }
}

/// Whether reports are a collect, or else their first fault (this project's profile of Mod-SMaRt,
/// EDCC 2012). The reports are of n-f distinct members of the present view, the last of `views`. Each
/// is of this view and regency, and its evidence and its lock hold. If one of these fails, the fault
/// is `Unequal`. It needs no memory.
pub fn check_collect(
    ring: &Ring,
    views: &[View],
    regency: Regency,
    reports: &[Signed<Report>],
) -> Result<(), CertFault>
    requires some { 0 < length views.now }
    ensures fault { result ≡ passed (collect_fault ring.now views.now regency reports.now) }
    ensures exact { (result ≡ Ok tt) ↔ IsCollect ring.now views.now regency reports.now }
{
    let view = present(views);
    let wanted = Reporting {
        view,
        views,
        regency,
    };
    check_list(ring, view, &wanted, collect_size(view), reports)
}
