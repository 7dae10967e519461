//! Laws of views, of their sizes and of the faults of parts.
ghost use Rattle.std.specs.Prelude.{◌≡◌, ℕ, ◌+◌, ◌*◌, ◌<◌, ◌≤◌, ◌⊎◌, List, true, false, length, slice_index, MatchOption, Some};
ghost use Rattle.smart_base.specs.Lists.{Each, Distinct};
ghost use Rattle.smart_base.specs.Views.{View, is_view, quorum, is_member};
ghost use Rattle.smart_base.specs.declared.limits.TheConstants.{FAULTY};
ghost use Rattle.smart_view.specs.Making.{fault_of};
ghost use Rattle.smart_view.specs.Sizes.{collect_size, stop_size, index_of};
ghost use Rattle.smart_view.specs.declared.fault.ViewFault.{ViewFault};
ghost use Rattle.smart_view.specs.declared.fault.ViewFault.TheVariants.{TooFew, TooMany};

/// Two quorums share more than f members, and therefore one that is not faulty.
pub fn quorums_share_more_than_f()
    ensures { (v : View) → is_view v ≡ true → length v.members + v.f < 2 * quorum v }
{}

/// n-f members are a quorum.
pub fn a_quorum_answers()
    ensures { (v : View) → is_view v ≡ true → quorum v ≤ collect_size v }
{}

/// A quorum has at least the 2f+1 members that end a regency, of which more than f are not faulty.
pub fn a_quorum_is_enough_to_stop()
    ensures many { (v : View) → is_view v ≡ true → stop_size v ≤ quorum v }
    ensures honest { (v : View) → is_view v ≡ true → v.f + (v.f + 1) ≤ stop_size v }
{}

/// The members of a view are distinct numbers from 1 to 65,535.
pub fn members_have_names_of_their_own()
    ensures distinct { (v : View) → is_view v ≡ true → Distinct v.members }
    ensures names { (v : View) → is_view v ≡ true → Each (λ m. (1 ≤ m) × (m ≤ 65535)) v.members }
{}

/// An index is one at which the member stands. There is none if and only if it is no member.
pub fn an_index_is_the_place_of_a_member()
    ensures { (v : View) (m : ℕ) → MatchOption (index_of v m) (is_member v m ≡ false) (λ i. (i < length v.members) × (slice_index v.members i ≡ m)) }
{}

/// If more than 10 members may be faulty, the members are too few or too many.
pub fn no_view_bears_more_than_10_faults()
    ensures { (number : ℕ) (members : List ℕ) (f : ℕ) → FAULTY < f → (fault_of number members f ≡ Some TooFew) ⊎ (fault_of number members f ≡ Some TooMany) }
{}
