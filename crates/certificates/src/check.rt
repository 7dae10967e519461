//! The checks of certificates and proofs.
ghost use Rattle.std.specs.Prelude.{◌≡◌, ◌↔◌};
ghost use Rattle.certificates.specs.Certificates.{IsWriteCertificate, IsDecisionProof, IsMarkCertificate, same_ballot, same_mark, votes_fault, marks_fault, passed, write_of, accept_of};

use crate::fault::CertFault;
use crate::list::{Wanted, check_list};
use smart_base::bytes::Digest32;
use smart_base::equality::same_bytes;
use smart_base::number::Place;
use smart_base::view::View;
use smart_keys::ring::Ring;
use smart_statements::equality::{same_kind, same_slot};
use smart_statements::report::Mark;
use smart_statements::signed::Signed;
use smart_statements::statement::{Ballot, Slot, VoteKind};

fn same_ballot(a: &Ballot, b: &Ballot) -> bool
    ensures { result ≡ same_ballot a.now b.now }
{
    same_kind(a.kind, b.kind)
        && same_slot(a.slot, b.slot)
        && same_bytes(a.digest.as_slice(), b.digest.as_slice())
}

fn same_mark(a: &Mark, b: &Mark) -> bool
    ensures { result ≡ same_mark a.now b.now }
{
    a.place == b.place && same_bytes(a.digest.as_slice(), b.digest.as_slice())
}

impl Wanted<Ballot> for Ballot {
    ghost is_wanted = { λ secret wanted ballot. same_ballot ballot wanted };

    fn is_met(&self, _ring: &Ring, ballot: &Ballot) -> bool {
        same_ballot(ballot, self)
    }
}

impl Wanted<Mark> for Mark {
    ghost is_wanted = { λ secret wanted mark. same_mark mark wanted };

    fn is_met(&self, _ring: &Ring, mark: &Mark) -> bool {
        same_mark(mark, self)
    }
}

/// Whether votes are a write certificate, or else their first fault (Mod-SMaRt, EDCC 2012). It needs
/// no memory.
pub fn check_write_cert(
    ring: &Ring,
    view: &View,
    slot: Slot,
    digest: Digest32,
    votes: &[Signed<Ballot>],
) -> Result<(), CertFault>
    ensures fault { result ≡ passed (votes_fault ring.now view.now (write_of slot digest) votes.now) }
    ensures exact { (result ≡ Ok tt) ↔ IsWriteCertificate ring.now view.now slot digest votes.now }
{
    let wanted = Ballot {
        kind: VoteKind::Write,
        slot,
        digest,
    };
    check_list(ring, view, &wanted, view.quorum(), votes)
}

/// Whether votes are a decision proof, or else their first fault (Mod-SMaRt, EDCC 2012). It needs no
/// memory.
pub fn check_proof(
    ring: &Ring,
    view: &View,
    slot: Slot,
    digest: Digest32,
    votes: &[Signed<Ballot>],
) -> Result<(), CertFault>
    ensures fault { result ≡ passed (votes_fault ring.now view.now (accept_of slot digest) votes.now) }
    ensures exact { (result ≡ Ok tt) ↔ IsDecisionProof ring.now view.now slot digest votes.now }
{
    let wanted = Ballot {
        kind: VoteKind::Accept,
        slot,
        digest,
    };
    check_list(ring, view, &wanted, view.quorum(), votes)
}

/// Whether more than f members of a view marked this digest at this place, or else the first fault
/// (Dura-SMaRt, USENIX ATC 2013). It needs no memory.
pub fn check_marks(
    ring: &Ring,
    view: &View,
    place: Place,
    digest: Digest32,
    marks: &[Signed<Mark>],
) -> Result<(), CertFault>
    ensures fault { result ≡ passed (marks_fault ring.now view.now place digest marks.now) }
    ensures exact { (result ≡ Ok tt) ↔ IsMarkCertificate ring.now view.now place digest marks.now }
{
    let wanted = Mark { place, digest };
    check_list(ring, view, &wanted, view.f() as usize + 1, marks)
}
