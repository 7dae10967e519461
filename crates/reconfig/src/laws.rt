//! Laws of changes, of what they come to, and of lists of views. They speak of the definitions alone.
ghost use Rattle.std.specs.Prelude.{◌≡◌, ℕ, ◌+◌, ◌<◌, ◌≤◌, ◌^◌, true, List, [], ◌∷◌, ◌++◌, length, Ok, Err};
ghost use Rattle.smart_base.specs.Cuts.{IsBytes};
ghost use Rattle.smart_base.specs.Lists.{Each};
ghost use Rattle.smart_base.specs.Views.{View, is_view, present};
ghost use Rattle.smart_base.specs.declared.limits.TheConstants.{PAYLOAD_BYTES, VIEWS};
ghost use Rattle.smart_view.specs.Making.{sorted, view_of};
ghost use Rattle.smart_view.specs.declared.fault.ViewFault.{ViewFault};
ghost use Rattle.smart_view.specs.declared.fault.ViewFault.TheVariants.{Spent};
ghost use Rattle.reconfig.specs.declared.change.Change.{Change};
ghost use Rattle.reconfig.specs.Changes.{change_text, FitsChange, change_of};
ghost use Rattle.reconfig.specs.Applied.{applied, Has, IsFirst};
ghost use Rattle.reconfig.specs.declared.outcome.Outcome.TheVariants.{Begins};
ghost use Rattle.reconfig.specs.Outcomes.{outcome_made, outcome_of, reply_of, Cause};

/// A change has one spelling: its operation is read as the change, what is read as a change is its
/// operation, and no two changes share one.
pub fn a_change_has_one_spelling()
    ensures read { (c : Change) → FitsChange c → change_of (change_text c) ≡ Ok c }
    ensures alone { (op : List ℕ) (c : Change) → IsBytes op → change_of op ≡ Ok c → FitsChange c × (op ≡ change_text c) }
    ensures apart { (c d : Change) → FitsChange c → FitsChange d → change_text c ≡ change_text d → c ≡ d }
{}

/// A change is refused for its first fault. If it has a first fault it is refused, and else it begins
/// a view.
pub fn a_change_is_refused_for_its_first_fault()
    ensures cause { (v : View) (start : ℕ) (c : Change) (fault : ViewFault) → applied v start c ≡ Err fault → IsFirst fault v c }
    ensures refused { (v : View) (start : ℕ) (c : Change) (fault : ViewFault) → IsFirst fault v c → applied v start c ≡ Err fault }
    ensures without { (v : View) (start : ℕ) (c : Change) (w : View) → applied v start c ≡ Ok w → (fault : ViewFault) → Has fault v c → ⊥ }
    ensures begins { (v : View) (start : ℕ) (c : Change) → ((fault : ViewFault) → Has fault v c → ⊥) → applied v start c ≡ Ok (view_of (v.number + 1) start c.members c.f) }
{}

/// The view that a change begins is a valid one. It has the next number and the change's parts.
pub fn a_change_begins_the_next_view()
    ensures valid { (v : View) (start : ℕ) (c : Change) (w : View) → FitsChange c → 1 ≤ start → start ≤ 2 ^ 63 → applied v start c ≡ Ok w → is_view w ≡ true }
    ensures number { (v : View) (start : ℕ) (c : Change) (w : View) → applied v start c ≡ Ok w → w.number ≡ v.number + 1 }
    ensures start { (v : View) (start : ℕ) (c : Change) (w : View) → applied v start c ≡ Ok w → w.start ≡ start }
    ensures faulty { (v : View) (start : ℕ) (c : Change) (w : View) → applied v start c ≡ Ok w → w.f ≡ c.f }
    ensures members { (v : View) (start : ℕ) (c : Change) (w : View) → applied v start c ≡ Ok w → w.members ≡ sorted c.members }
{}

/// The view that begins is a valid one, whatever the operation is.
pub fn a_view_that_begins_is_valid()
    ensures { (views : List View) (op : List ℕ) (place : ℕ) (view : View) → place < 2 ^ 63 → outcome_of views op place ≡ Begins view → is_view view ≡ true }
{}

/// If views are numbered from 0, they still are behind one that a change begins. They are spent if and
/// only if there are 1,024.
pub fn views_are_numbered_from_0()
    ensures next { (views : List View) (start : ℕ) (c : Change) (w : View) → (present views).number + 1 ≡ length views → applied (present views) start c ≡ Ok w
        → (present (views ++ w ∷ [])).number + 1 ≡ length (views ++ w ∷ []) }
    ensures spent { (views : List View) (c : Change) → (present views).number + 1 ≡ length views → VIEWS ≤ length views → Has Spent (present views) c }
    ensures left { (views : List View) (c : Change) → (present views).number + 1 ≡ length views → Has Spent (present views) c → VIEWS ≤ length views }
{}

/// Each outcome has its cause. A view begins for an operation that asks for a change without a fault.
/// A change is refused for its first fault. An operation is no change if no change is spelled so.
pub fn each_outcome_has_its_cause()
    ensures { (views : List View) (op : List ℕ) (place : ℕ) → IsBytes op → Cause views op place (outcome_of views op place) }
{}

/// Each change is read from its operation, and comes to the view that it begins or to its first fault.
pub fn each_change_is_read()
    ensures { (views : List View) (c : Change) (place : ℕ) → FitsChange c → outcome_of views (change_text c) place ≡ outcome_made (applied (present views) (place + 1) c) }
{}

/// The reply is short, and each of its bytes prints.
pub fn replies_are_brief_and_print()
    ensures brief { (views : List View) (op : List ℕ) (place : ℕ) → length (reply_of (outcome_of views op place)) ≤ PAYLOAD_BYTES }
    ensures print { (views : List View) (op : List ℕ) (place : ℕ) → Each (λ byte. (32 ≤ byte) × (byte ≤ 126)) (reply_of (outcome_of views op place)) }
{}
