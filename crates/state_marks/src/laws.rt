//! Laws of the places of checkpoints, of tables and of what is certified. They speak of the
//! definitions alone.
ghost use Rattle.std.specs.Prelude.{◌≡◌, ◌↔◌, ℕ, ◌/◌, ◌<◌, ◌≤◌, true, false, List, [], filter, length, Some, None};
ghost use Rattle.smart_base.specs.Views.{View, is_view};
ghost use Rattle.smart_statements.specs.Forms.{SignedBy};
ghost use Rattle.smart_statements.specs.declared.report.Mark.{Mark};
ghost use Rattle.state_marks.specs.Places.{is_checkpoint_of, is_mark, IsCheckpointOfSome, checkpoint_in};
ghost use Rattle.state_marks.specs.Tables.{is_of, noted, IsTable, certified, AreEnough, IsCertified};

/// Where a period has a place for each member at least, each member takes one checkpoint in it, and
/// no two members take theirs after the same place.
pub fn members_take_checkpoints_in_turn()
    ensures own { (v : View) (period count index : ℕ) → 1 ≤ period → index < length v.members →
        is_checkpoint_of v period index (checkpoint_in v period count index) ≡ true }
    ensures within { (v : View) (period count index : ℕ) → 1 ≤ period → index < length v.members →
        checkpoint_in v period count index / period ≡ count }
    ensures only { (v : View) (period index place : ℕ) → 1 ≤ period →
        is_checkpoint_of v period index place ≡ true → place ≡ checkpoint_in v period (place / period) index }
    ensures alone { (v : View) (period first second place : ℕ) → length v.members ≤ period → first < length v.members → second < length v.members →
        is_checkpoint_of v period first place ≡ true → is_checkpoint_of v period second place ≡ true → first ≡ second }
    ensures marked { (v : View) (period place : ℕ) → (is_mark v period place ≡ true) ↔ IsCheckpointOfSome v period place }
{}

/// Whatever marks come, a table keeps at most 64 of a member, of different places. What it keeps of
/// the other members stays.
pub fn a_table_keeps_64_of_each_member()
    ensures none { IsTable [] }
    ensures more { (table : List (SignedBy Mark)) (mark : SignedBy Mark) → IsTable table → IsTable (noted mark table) }
    ensures others { (table : List (SignedBy Mark)) (mark : SignedBy Mark) (member : ℕ) → is_of member mark ≡ false →
        filter (is_of member) (noted mark table) ≡ filter (is_of member) table }
{}

/// What is certified is the greatest place that enough members of a view marked with one digest, and
/// the lowest such digest; nothing is exactly where there is none.
pub fn the_greatest_place_is_certified()
    ensures some { (v : View) (table : List (SignedBy Mark)) (place : ℕ) (digest : List ℕ) → is_view v ≡ true →
        (certified v table ≡ Some (place, digest)) ↔ IsCertified v table place digest }
    ensures none { (v : View) (table : List (SignedBy Mark)) → is_view v ≡ true →
        (certified v table ≡ None) ↔ ((place : ℕ) (digest : List ℕ) → AreEnough v table place digest → ⊥) }
{}
