//! Which group the parts of a run belong to, as names that a type bears.
use group_ends::owner::Owner;
use node_course::group_life::GroupLife;
use smart_service::service::Service;
use std::marker::{Brand, PhantomData};

/// Names the parties of a group, each by its number: 0 is the client, and each other number is a member. A
/// member has a lane, the number of its restored entries, and the node with which it began, which may rest
/// on the meaning of the service. Each party has links, and a trail.
pub trait Named<S> {
    ghost use Rattle.std.specs.Prelude.{ℕ, List, Option};
    ghost use Rattle.atomic_table.specs.Seated.{TableId};
    ghost use Rattle.smart_service.specs.Services.{Meaning};
    ghost use Rattle.node_rules.specs.Nodes.{Node};
    ghost use Rattle.node_rules.specs.declared.node.Target.{Target};
    ghost use Rattle.trail.specs.declared.opening.TrailOpening.{TrailOpening};

    ghost head: { ℕ → TrailOpening };

    ghost entries: { ℕ → List (List ℕ) };

    /// What the sink of a trail told before the head was written.
    ghost begun: { ℕ → Option (List ℕ) };

    /// How often the sink of a trail had failed then.
    ghost failures: { ℕ → ℕ };

    ghost receivers: { ℕ → List Target };

    ghost leaving: { ℕ → List TableId };

    ghost arriving: { ℕ → List TableId };

    ghost lane: { ℕ → TableId × TableId };

    ghost restored: { ℕ → ℕ };

    ghost opening: { Meaning S → ℕ → Node S };
}

impl<S> Named<S> for Brand {
    ghost use Rattle.std.specs.Prelude.{[], None};
    ghost use Rattle.log_worker.specs.Rounds.{no_table};
    ghost use Rattle.node_played.specs.Lives.{nobody};
    ghost use Rattle.group_ends.specs.Journals.{no_head};

    ghost head = { λ _. no_head };

    ghost entries = { λ _. [] };

    ghost begun = { λ _. None };

    ghost failures = { λ _. 0 };

    ghost receivers = { λ _. [] };

    ghost leaving = { λ _. [] };

    ghost arriving = { λ _. [] };

    ghost lane = { λ _. (no_table, no_table) };

    ghost restored = { λ _. 0 };

    ghost opening = { λ m _. nobody m };
}

/// The group that a type names, over a service.
pub struct GroupOf<S, N> {
    service: PhantomData<S>,
    name: PhantomData<N>,
}

impl<S: Service, N: Named<S>> Owner for GroupOf<S, N> {
    ghost head = { N.head };

    ghost entries = { N.entries };

    ghost begun = { N.begun };

    ghost failures = { N.failures };

    ghost receivers = { N.receivers };

    ghost leaving = { N.leaving };

    ghost arriving = { N.arriving };
}

impl<S: Service, N: Named<S>> GroupLife<S> for GroupOf<S, N> {
    ghost lane = { N.lane };

    ghost restored = { N.restored };

    ghost opening = { N.opening S.meaning };
}
