//! Laws of plans, of what comes of them, and of parts.
ghost use Rattle.std.specs.Prelude.{◌≡◌, ◌<◌, ℕ, true, List, [], length, IsSome, Ok, Err};
ghost use Rattle.smart_base.specs.Cuts.{IsBytes};
ghost use Rattle.smart_base.specs.Lists.{Each};
ghost use Rattle.smart_base.specs.Views.{View, is_view};
ghost use Rattle.smart_statements.specs.Forms.{SignedBy};
ghost use Rattle.smart_statements.specs.Reports.{marks};
ghost use Rattle.smart_statements.specs.declared.report.Mark.{Mark};
ghost use Rattle.smart_service.specs.declared.replica.Replica.{Replica};
ghost use Rattle.replica_rules.specs.Seals.{is_verified};
ghost use Rattle.certificates.specs.Certificates.{IsMarkCertificate};
ghost use Rattle.state_marks.specs.Tables.{AreEnough};
ghost use Rattle.snapshot_form.specs.Replicas.{FitsReplica};
ghost use Rattle.snapshot_form.specs.Snapshots.{pieces, snapshot_text};
ghost use Rattle.transfer_form.specs.declared.transfer.StateOffer.{StateOffer};
ghost use Rattle.transfer_form.specs.declared.transfer.StatePart.{StatePart};
ghost use Rattle.state_transfer.specs.Fetches.{pieces_of, is_wanted, part_fault, kept_unless, are_all_there, part_at, joined_of, finished, IsFinished, KeepsWanted};
ghost use Rattle.state_transfer.specs.Plans.{is_offered, usable, all_marks, planned, IsPlan, IsNotYet};
ghost use Rattle.state_transfer.specs.Seeds.{seed, HasAll};
ghost use Rattle.state_transfer.specs.declared.fetch.Fetch.{Fetch};
ghost use Rattle.state_transfer.specs.declared.choice.NotYet.{NotYet};
ghost use Rattle.state_transfer.specs.declared.choice.Plan.{Plan};

use smart_service::service::Service;

/// A plan takes the greatest offered place past the asker's that enough members of the view marked
/// alike, and the lowest such digest there. If there is no plan, no such place has enough equal marks.
/// The asker is then told the most of them, and how many a plan needs.
pub fn a_plan_takes_the_greatest_place()
    ensures some { (offers : List StateOffer) (kept : List (SignedBy Mark)) (place : ℕ) (v : View) (p : Plan) → is_view v ≡ true →
        planned offers kept place v ≡ Ok p → IsPlan offers kept place v p }
    ensures none { (offers : List StateOffer) (kept : List (SignedBy Mark)) (place : ℕ) (v : View) (n : NotYet) (k : ℕ) (digest : List ℕ) → is_view v ≡ true →
        planned offers kept place v ≡ Err n → is_offered offers place k ≡ true → AreEnough v (all_marks offers kept) k digest → ⊥ }
    ensures numbers { (offers : List StateOffer) (kept : List (SignedBy Mark)) (place : ℕ) (v : View) (n : NotYet) → is_view v ≡ true →
        planned offers kept place v ≡ Err n → IsNotYet v (usable offers kept place) n }
{}

/// A plan rests on a certificate of marks, if all marks that the asker has verify.
pub fn a_plan_rests_on_marks()
    ensures { (secret : List ℕ) (offers : List StateOffer) (kept : List (SignedBy Mark)) (place : ℕ) (v : View) (p : Plan) → is_view v ≡ true →
        Each (λ m. is_verified marks secret m ≡ true) (all_marks offers kept) → planned offers kept place v ≡ Ok p →
        IsMarkCertificate secret v p.place p.digest p.marks }
{}

/// What comes of a plan is the replica that it certifies: the snapshot of the replica is what was
/// joined, and has the plan's digest.
pub fn what_is_finished_is_certified<S: Service>()
    ensures { (f : Fetch) (r : Replica S) → IsBytes (joined_of f) → finished S.meaning f ≡ Ok r → IsFinished S.valid S.meaning f r }
{}

/// A replica comes back from the parts of its snapshot, in whatever order they came.
pub fn a_snapshot_comes_back<S: Service>()
    ensures { (f : Fetch) (r : Replica S) → FitsReplica S.valid r → HasAll r.place (snapshot_text S.meaning r) f → finished S.meaning f ≡ Ok r }
{}

/// A plan wants each part that a seeder gives of a snapshot of its place and length.
pub fn what_a_seeder_gives_is_wanted()
    ensures { (plan : Plan) (snapshot : List ℕ) (i : ℕ) → plan.size ≡ length snapshot → i < pieces snapshot → is_wanted plan (seed plan.place snapshot i) ≡ true }
{}

/// What is kept for a plan is wanted, and no number is there twice. So none lacks where as many parts
/// are there as the plan has.
pub fn a_whole_fetch_lacks_no_part()
    ensures begun { (plan : Plan) → KeepsWanted (record { plan = plan; parts = [] }) }
    ensures kept { (f : Fetch) (part : StatePart) → KeepsWanted f → KeepsWanted (kept_unless (part_fault f part) f part) }
    ensures whole { (f : Fetch) (i : ℕ) → KeepsWanted f → are_all_there f ≡ true → i < pieces_of f.plan.size → IsSome (part_at f.parts i) }
{}
