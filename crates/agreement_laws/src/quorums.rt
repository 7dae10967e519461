//! Quorums share members.
ghost use Rattle.std.specs.Prelude.{◌≡◌, ◌≤◌, ℕ, Bool, true, length, filter};
ghost use Rattle.smart_base.specs.Views.{View, weight_of, quorum};
ghost use Rattle.smart_view.specs.Sizes.{collect_size};
ghost use Rattle.agreement_laws.specs.Law.{IsCorrect, FewFaulty};

/// Two quorums of a view share a correct member, if at most f members are faulty. A quorum and n-f
/// members do too.
pub fn quorums_meet()
    ensures quorums { (p q faulty : ℕ → Bool) (view : View) → length (filter faulty view.members) ≤ view.f →
        quorum view ≤ weight_of view (filter p view.members) → quorum view ≤ weight_of view (filter q view.members) →
        (member : ℕ) × IsCorrect view faulty member × (p member ≡ true) × (q member ≡ true) }
    ensures collect { (p q faulty : ℕ → Bool) (view : View) → FewFaulty view faulty →
        quorum view ≤ weight_of view (filter p view.members) → collect_size view ≤ length (filter q view.members) →
        (member : ℕ) × IsCorrect view faulty member × (p member ≡ true) × (q member ≡ true) }
{}

/// A quorum of a view has a correct member, if at most f members are faulty.
pub fn a_quorum_has_a_correct_member()
    ensures { (p faulty : ℕ → Bool) (view : View) → length (filter faulty view.members) ≤ view.f →
        quorum view ≤ weight_of view (filter p view.members) →
        (member : ℕ) × IsCorrect view faulty member × (p member ≡ true) }
{}
