//! Whose trails and links these are, as names that a type bears.
use std::marker::Brand;

/// Names what belongs to the parties of a group, each by its number: 0 is the client, and each other number
/// is a member. The name is one for the whole group, so that all seats of members have one type. What a
/// lock gives back is known by its number.
pub trait Owner {
    ghost use Rattle.std.specs.Prelude.{ℕ, List, Option};
    ghost use Rattle.atomic_table.specs.Seated.{TableId};
    ghost use Rattle.node_rules.specs.declared.node.Target.{Target};
    ghost use Rattle.trail.specs.declared.opening.TrailOpening.{TrailOpening};

    /// The head of a party's trail, and the entries that were restored, in their bytes.
    ghost head: { ℕ → TrailOpening };

    ghost entries: { ℕ → List (List ℕ) };

    /// What the sink of the trail told before the head was written.
    ghost begun: { ℕ → Option (List ℕ) };

    /// How often the sink of the trail had failed then.
    ghost failures: { ℕ → ℕ };

    /// Who polls each of the links on which the party sends.
    ghost receivers: { ℕ → List Target };

    ghost leaving: { ℕ → List TableId };

    ghost arriving: { ℕ → List TableId };
}

impl Owner for Brand {
    ghost use Rattle.std.specs.Prelude.{[], None};
    ghost use Rattle.group_ends.specs.Journals.{no_head};

    ghost head = { λ _. no_head };

    ghost entries = { λ _. [] };

    ghost begun = { λ _. None };

    ghost failures = { λ _. 0 };

    ghost receivers = { λ _. [] };

    ghost leaving = { λ _. [] };

    ghost arriving = { λ _. [] };
}
