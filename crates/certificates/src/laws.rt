//! Laws of certificates.
ghost use Rattle.std.specs.Prelude.{◌≡◌, ◌↔◌, ℕ, List, None};
ghost use Rattle.smart_base.specs.Views.{View};
ghost use Rattle.smart_statements.specs.Forms.{SignedBy};
ghost use Rattle.smart_statements.specs.declared.statement.Ballot.{Ballot};
ghost use Rattle.smart_statements.specs.declared.report.Mark.{Mark};
ghost use Rattle.smart_statements.specs.declared.report.Report.{Report};
ghost use Rattle.certificates.specs.Certificates.{IsCertificate, IsMarkCertificate, votes_fault, marks_fault};
ghost use Rattle.certificates.specs.Collects.{IsCollect, collect_fault};

/// Votes have no fault if and only if they are a certificate. So it is with marks and mark
/// certificates, and with reports and collects.
pub fn lists_without_a_fault_are_certificates()
    ensures votes { (secret : List ℕ) (v : View) (wanted : Ballot) (votes : List (SignedBy Ballot)) → (votes_fault secret v wanted votes ≡ None) ↔ IsCertificate secret v wanted votes }
    ensures marks { (secret : List ℕ) (v : View) (place : ℕ) (digest : List ℕ) (marks : List (SignedBy Mark)) → (marks_fault secret v place digest marks ≡ None) ↔ IsMarkCertificate secret v place digest marks }
    ensures collects { (secret : List ℕ) (views : List View) (regency : ℕ) (reports : List (SignedBy Report)) → (collect_fault secret views regency reports ≡ None) ↔ IsCollect secret views regency reports }
{}
