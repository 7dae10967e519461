//! What all parts of one running member agree on, as names that a type bears.
use group_ends::owner::Owner;
use smart_service::service::Service;
use std::marker::Brand;

/// Names the lanes of a group's members, how many entries each restored, and the nodes with which their
/// lives began, beside their trails and links.
pub trait GroupLife<S>: Owner {
    ghost use Rattle.std.specs.Prelude.{ℕ};
    ghost use Rattle.atomic_table.specs.Seated.{TableId};
    ghost use Rattle.node_rules.specs.Nodes.{Node};

    ghost lane: { ℕ → TableId × TableId };

    ghost restored: { ℕ → ℕ };

    ghost opening: { ℕ → Node S };
}

impl<S: Service> GroupLife<S> for Brand {
    ghost use Rattle.log_worker.specs.Rounds.{no_table};
    ghost use Rattle.node_played.specs.Lives.{nobody};

    ghost lane = { λ _. (no_table, no_table) };

    ghost restored = { λ _. 0 };

    ghost opening = { λ _. nobody S.meaning };
}
