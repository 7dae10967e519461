//! What releases one after another give.
ghost use Rattle.std.specs.Prelude.{◌≡◌, ℕ, List, None, length};
ghost use Rattle.node_rules.specs.declared.node.Held.{Held};
ghost use Rattle.node_rules.specs.Steps.{first_leaving, leaving, staying};
ghost use Rattle.outbox.specs.Releases.{given, left_by, IsLongestFront};

/// Releases until one gives nothing give the longest prefix of messages whose entries are all firm,
/// and leave the rest. There are never more of them than messages.
pub fn release_gives_the_longest_front()
    ensures given { (firm count : ℕ) (held : List Held) → first_leaving firm (left_by firm count held) ≡ None → given firm count held ≡ leaving firm held }
    ensures rest { (firm count : ℕ) (held : List Held) → first_leaving firm (left_by firm count held) ≡ None → left_by firm count held ≡ staying firm held }
    ensures ends { (firm : ℕ) (held : List Held) → first_leaving firm (left_by firm (length held) held) ≡ None }
    ensures longest { (firm : ℕ) (held : List Held) → IsLongestFront firm held (leaving firm held) (staying firm held) }
{}
