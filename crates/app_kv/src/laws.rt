//! A law of operations and their texts.
ghost use Rattle.std.specs.Prelude.{◌≡◌, ◌≢◌, ℕ, List};
ghost use Rattle.app_kv.specs.Operations.{Meant, other, operation_of, Spells};

/// A text that spells an operation is read as it, and what is read as an operation spells it.
pub fn an_operation_has_one_spelling()
    ensures read { (text : List ℕ) (meant : Meant) → Spells text meant → operation_of text ≡ meant }
    ensures alone { (text : List ℕ) (meant : Meant) → operation_of text ≡ meant → meant ≢ other → Spells text meant }
{}
