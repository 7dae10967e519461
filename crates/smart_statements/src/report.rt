//! The report of a member to a new leader.
ghost use Rattle.std.specs.Prelude.{◌≡◌, ◌++◌, OnOk, OnErr};
ghost use Rattle.smart_base.specs.Cuts.{Gives, Takes};
ghost use Rattle.smart_base.specs.Spelling.{Extends};
ghost use Rattle.smart_statements.specs.Reports.{FitsMark, marks, decision_proof, decision_proof_at, mark_certificate, mark_certificate_at, evidence, evidence_kind_at, decided_at, marked_at, evidence_body_at, evidence_at, lock_certificate, lock_certificate_at, last_at, FitsReport, reports};
ghost use Rattle.smart_statements.specs.ReportLaws.{mark_law, report_law};
ghost use Rattle.smart_statements.specs.SignedLists.{optional, optional_at};

use crate::optional::{duplicate_optional, take_flag};
use crate::signed::{MEMBER, Statement, within_limit};
use crate::signed_list::SignedList;
use crate::statement::{Ballot, VoteKind};
use smart_base::bytes::Digest32;
use smart_base::cursor::Cursor;
use smart_base::duplicate::Duplicate;
use smart_base::fault::{ReadError, Unread};
use smart_base::field::{put_u8, put_u32, put_u64, take_count, take_digest, take_kind};
use smart_base::number::{Place, Regency, ViewNo};
use std::alloc::{AllocError, Global};

/// A mark: the digest of a member's snapshot after a place (Dura-SMaRt, USENIX ATC 2013; the
/// signature is this project's own).
#[derive(Drop)]
pub struct Mark {
    pub place: Place,
    pub digest: Digest32,
}

/// A decision proof: a quorum's ACCEPTs for a digest, in a view and a regency (Mod-SMaRt, EDCC 2012).
pub struct DecisionProof {
    pub view: ViewNo,
    pub regency: Regency,
    pub digest: Digest32,
    pub accepts: SignedList<Ballot>,
}

/// Let go by one call, so that no function that lets one go carries the whole of it.
impl Drop for DecisionProof {
    fn drop(self) {
        let DecisionProof {
            view: _,
            regency: _,
            digest: _,
            accepts: _,
        } = self;
    }
}

/// A certificate of marks: more than f members of a view have marked one digest.
pub struct MarkCertificate {
    pub view: ViewNo,
    pub digest: Digest32,
    pub marks: SignedList<Mark>,
}

/// Let go by one call, so that no function that lets one go carries the whole of it.
impl Drop for MarkCertificate {
    fn drop(self) {
        let MarkCertificate {
            view: _,
            digest: _,
            marks: _,
        } = self;
    }
}

/// A lock: a quorum's WRITEs for a digest in a regency, after which a member accepted its batch there
/// (Mod-SMaRt, EDCC 2012).
pub struct LockCertificate {
    pub regency: Regency,
    pub digest: Digest32,
    pub writes: SignedList<Ballot>,
}

/// Let go by one call, so that no function that lets one go carries the whole of it.
impl Drop for LockCertificate {
    fn drop(self) {
        let LockCertificate {
            regency: _,
            digest: _,
            writes: _,
        } = self;
    }
}

/// Evidence that a place is decided.
#[derive(Drop)]
pub enum Evidence {
    /// No evidence, for last place 0.
    Nothing,
    /// A decision proof.
    Decided(DecisionProof),
    /// Marks of replicas that have executed the place.
    Marked(MarkCertificate),
}

/// A report for a regency of a view (STOPDATA of Mod-SMaRt, EDCC 2012). It has the last place that
/// the member has decided, 0 before the first, with evidence. Its lock, if there is one, is the
/// accept of the greatest regency at the next place.
pub struct Report {
    pub view: ViewNo,
    pub regency: Regency,
    pub last: Place,
    pub evidence: Evidence,
    pub lock: Option<LockCertificate>,
}

/// Let go by one call, so that no function that lets one go carries the whole of it.
impl Drop for Report {
    fn drop(self) {
        let Report {
            view: _,
            regency: _,
            last: _,
            evidence: _,
            lock: _,
        } = self;
    }
}

impl Statement for Mark {
    ghost form = { marks };

    ghost fits = { λ signer. FitsMark };

    ghost agree = { mark_law };

    fn kind() -> u8 {
        MEMBER
    }

    #[tactic(auto, unfolding(crate::specs::Reports::mark_at))]
    fn read(_alloc: Global, _signer: u16, cut: &mut Cursor<'_>) -> Result<Mark, ReadError> {
        take_kind(cut, 7)?;
        let place = Place::new(take_count(cut)?);
        let digest = take_digest(cut)?;
        Ok(Mark { place, digest })
    }

    #[tactic(auto, using(crate::specs::ReportLaws::mark_small))]
    fn put(&self, out: &mut Vec<u8>) -> Result<(), AllocError> {
        let place = self.place.get();
        put_u8(out, 7)?;
        put_u64(out, place)?;
        out.extend_from_slice(self.digest.as_slice())?;
        Ok(())
    }
}

impl DecisionProof {
    #[tactic(auto, unfolding(crate::specs::Reports::decision_proof_at))]
    fn read(alloc: Global, cut: &mut Cursor<'_>) -> Result<DecisionProof, ReadError>
        ensures { Gives result cut.new (decision_proof_at cut.old) }
    {
        let view = ViewNo::new(cut.take_u32()?);
        let regency = Regency::new(cut.take_u32()?);
        let digest = take_digest(cut)?;
        let accepts = SignedList::<Ballot>::read_votes(alloc, VoteKind::Accept, cut)?;
        Ok(DecisionProof {
            view,
            regency,
            digest,
            accepts,
        })
    }

    fn put(&self, out: &mut Vec<u8>) -> Result<(), AllocError>
        ensures text { OnOk result (out.new.items ≡ out.old.items ++ decision_proof self.now) }
        ensures err { OnErr result (Extends out.old.items out.new.items) }
    {
        let (view, regency) = (self.view.get(), self.regency.get());
        put_u32(out, view)?;
        put_u32(out, regency)?;
        out.extend_from_slice(self.digest.as_slice())?;
        self.accepts.put(out)?;
        Ok(())
    }
}

impl MarkCertificate {
    #[tactic(auto, unfolding(crate::specs::Reports::mark_certificate_at))]
    fn read(alloc: Global, cut: &mut Cursor<'_>) -> Result<MarkCertificate, ReadError>
        ensures { Gives result cut.new (mark_certificate_at cut.old) }
    {
        let view = ViewNo::new(cut.take_u32()?);
        let digest = take_digest(cut)?;
        let marks = SignedList::<Mark>::read(alloc, cut)?;
        Ok(MarkCertificate {
            view,
            digest,
            marks,
        })
    }

    fn put(&self, out: &mut Vec<u8>) -> Result<(), AllocError>
        ensures text { OnOk result (out.new.items ≡ out.old.items ++ mark_certificate self.now) }
        ensures err { OnErr result (Extends out.old.items out.new.items) }
    {
        let view = self.view.get();
        put_u32(out, view)?;
        out.extend_from_slice(self.digest.as_slice())?;
        self.marks.put(out)?;
        Ok(())
    }
}

impl LockCertificate {
    #[tactic(auto, unfolding(crate::specs::Reports::lock_certificate_at))]
    fn read(alloc: Global, cut: &mut Cursor<'_>) -> Result<LockCertificate, ReadError>
        ensures { Gives result cut.new (lock_certificate_at cut.old) }
    {
        let regency = Regency::new(cut.take_u32()?);
        let digest = take_digest(cut)?;
        let writes = SignedList::<Ballot>::read_votes(alloc, VoteKind::Write, cut)?;
        Ok(LockCertificate {
            regency,
            digest,
            writes,
        })
    }

    fn put(&self, out: &mut Vec<u8>) -> Result<(), AllocError>
        ensures text { OnOk result (out.new.items ≡ out.old.items ++ lock_certificate self.now) }
        ensures err { OnErr result (Extends out.old.items out.new.items) }
    {
        let regency = self.regency.get();
        put_u32(out, regency)?;
        out.extend_from_slice(self.digest.as_slice())?;
        self.writes.put(out)?;
        Ok(())
    }
}

/// Reads the kind of evidence; only last place 0 needs none.
#[tactic(auto, unfolding(smart_base::specs::Cuts::ranged))]
fn take_evidence_kind(cut: &mut Cursor<'_>, last: Place) -> Result<u8, Unread>
    ensures { Takes result cut.new (evidence_kind_at last cut.old) }
{
    let at = cut.at();
    let found = cut.take_u8()?;
    if found == 0 && last.get() == 0 || found == 1 || found == 2 {
        Ok(found)
    } else {
        Err(Unread { at })
    }
}

impl Evidence {
    #[tactic(auto, unfolding(crate::specs::Reports::decided_at))]
    fn read_decided(alloc: Global, cut: &mut Cursor<'_>) -> Result<Evidence, ReadError>
        ensures { Gives result cut.new (decided_at cut.old) }
    {
        Ok(Evidence::Decided(DecisionProof::read(alloc, cut)?))
    }

    #[tactic(auto, unfolding(crate::specs::Reports::marked_at))]
    fn read_marked(alloc: Global, cut: &mut Cursor<'_>) -> Result<Evidence, ReadError>
        ensures { Gives result cut.new (marked_at cut.old) }
    {
        Ok(Evidence::Marked(MarkCertificate::read(alloc, cut)?))
    }

    #[tactic(auto, unfolding(crate::specs::Reports::evidence_body_at))]
    fn read_body(alloc: Global, kind: u8, cut: &mut Cursor<'_>) -> Result<Evidence, ReadError>
        ensures { Gives result cut.new (evidence_body_at kind cut.old) }
    {
        match kind {
            0 => Ok(Evidence::Nothing),
            1 => Evidence::read_decided(alloc, cut),
            _ => Evidence::read_marked(alloc, cut),
        }
    }

    #[tactic(auto, unfolding(crate::specs::Reports::evidence_at))]
    fn read(alloc: Global, last: Place, cut: &mut Cursor<'_>) -> Result<Evidence, ReadError>
        ensures { Gives result cut.new (evidence_at last cut.old) }
    {
        let kind = take_evidence_kind(cut, last)?;
        let evidence = Evidence::read_body(alloc, kind, cut)?;
        Ok(evidence)
    }

    fn put(&self, out: &mut Vec<u8>) -> Result<(), AllocError>
        ensures text { OnOk result (out.new.items ≡ out.old.items ++ evidence self.now) }
        ensures err { OnErr result (Extends out.old.items out.new.items) }
    {
        match self {
            Evidence::Nothing => {
                put_u8(out, 0)?;
            }
            Evidence::Decided(proof) => {
                put_u8(out, 1)?;
                proof.put(out)?;
            }
            Evidence::Marked(certificate) => {
                put_u8(out, 2)?;
                certificate.put(out)?;
            }
        }
        Ok(())
    }
}

/// Reads a last place: 0, or a place.
#[tactic(auto, unfolding(smart_base::specs::Cuts::ranged))]
fn take_last(cut: &mut Cursor<'_>) -> Result<Place, Unread>
    ensures { Takes result cut.new (last_at cut.old) }
{
    let at = cut.at();
    let found = cut.take_u64()?;
    if found < 1 << 63 {
        Ok(Place::new(found))
    } else {
        Err(Unread { at })
    }
}

#[tactic(auto, unfolding(crate::specs::SignedLists::optional_at, crate::specs::SignedLists::some_at))]
fn read_lock(alloc: Global, cut: &mut Cursor<'_>) -> Result<Option<LockCertificate>, ReadError>
    ensures { Gives result cut.new (optional_at lock_certificate_at cut.old) }
{
    if take_flag(cut)? == 0 {
        return Ok(None);
    }
    Ok(Some(LockCertificate::read(alloc, cut)?))
}

fn put_lock(out: &mut Vec<u8>, lock: &Option<LockCertificate>) -> Result<(), AllocError>
    ensures text { OnOk result (out.new.items ≡ out.old.items ++ optional lock_certificate lock.now) }
    ensures err { OnErr result (Extends out.old.items out.new.items) }
{
    match lock {
        None => {
            put_u8(out, 0)?;
        }
        Some(certificate) => {
            put_u8(out, 1)?;
            certificate.put(out)?;
        }
    }
    Ok(())
}

impl Statement for Report {
    ghost form = { reports };

    ghost fits = { λ signer. FitsReport };

    ghost agree = { report_law };

    fn kind() -> u8 {
        MEMBER
    }

    #[tactic(auto, unfolding(crate::specs::Reports::report_at))]
    fn read(alloc: Global, _signer: u16, cut: &mut Cursor<'_>) -> Result<Report, ReadError> {
        take_kind(cut, 5)?;
        let view = ViewNo::new(cut.take_u32()?);
        let regency = Regency::new(cut.take_u32()?);
        let last = take_last(cut)?;
        let evidence = Evidence::read(alloc, last, cut)?;
        let lock = read_lock(alloc, cut)?;
        Ok(Report {
            view,
            regency,
            last,
            evidence,
            lock,
        })
    }

    fn put(&self, out: &mut Vec<u8>) -> Result<(), AllocError> {
        let (view, regency, last) = (self.view.get(), self.regency.get(), self.last.get());
        let before = out.len();
        put_u8(out, 5)?;
        put_u32(out, view)?;
        put_u32(out, regency)?;
        put_u64(out, last)?;
        self.evidence.put(out)?;
        put_lock(out, &self.lock)?;
        within_limit(out, before)?;
        Ok(())
    }
}

impl Duplicate for Mark {
    fn duplicate(&self, _alloc: Global) -> Result<Mark, AllocError> {
        Ok(Mark {
            place: self.place,
            digest: self.digest,
        })
    }
}

impl Duplicate for DecisionProof {
    fn duplicate(&self, alloc: Global) -> Result<DecisionProof, AllocError> {
        Ok(DecisionProof {
            view: self.view,
            regency: self.regency,
            digest: self.digest,
            accepts: self.accepts.duplicate(alloc)?,
        })
    }
}

impl Duplicate for MarkCertificate {
    fn duplicate(&self, alloc: Global) -> Result<MarkCertificate, AllocError> {
        Ok(MarkCertificate {
            view: self.view,
            digest: self.digest,
            marks: self.marks.duplicate(alloc)?,
        })
    }
}

impl Duplicate for LockCertificate {
    fn duplicate(&self, alloc: Global) -> Result<LockCertificate, AllocError> {
        Ok(LockCertificate {
            regency: self.regency,
            digest: self.digest,
            writes: self.writes.duplicate(alloc)?,
        })
    }
}

impl Duplicate for Evidence {
    fn duplicate(&self, alloc: Global) -> Result<Evidence, AllocError> {
        match self {
            Evidence::Nothing => Ok(Evidence::Nothing),
            Evidence::Decided(proof) => Ok(Evidence::Decided(proof.duplicate(alloc)?)),
            Evidence::Marked(certificate) => Ok(Evidence::Marked(certificate.duplicate(alloc)?)),
        }
    }
}

impl Duplicate for Report {
    fn duplicate(&self, alloc: Global) -> Result<Report, AllocError> {
        Ok(Report {
            view: self.view,
            regency: self.regency,
            last: self.last,
            evidence: self.evidence.duplicate(alloc)?,
            lock: duplicate_optional(alloc, &self.lock)?,
        })
    }
}
