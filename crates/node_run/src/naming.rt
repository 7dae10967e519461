//! Which life the parts of a run belong to, as names that a type bears.
use log_worker::home::Home;
use node_played::life::Life;
use node_seat::place::Place;
use smart_service::service::Service;
use std::marker::{Brand, PhantomData};

/// Names a life: its lane and the number of its restored entries, the node with which it began, its links,
/// and with what its trail begins. The node may rest on the meaning of the service.
pub trait Named<S> {
    ghost use Rattle.std.specs.Prelude.{ℕ, List, Option};
    ghost use Rattle.atomic_table.specs.Seated.{TableId};
    ghost use Rattle.smart_service.specs.Services.{Meaning};
    ghost use Rattle.node_rules.specs.Nodes.{Node};
    ghost use Rattle.trail.specs.declared.opening.TrailOpening.{TrailOpening};

    ghost lane: { TableId × TableId };

    ghost restored: { ℕ };

    ghost opening: { Meaning S → Node S };

    ghost arriving: { TableId };

    ghost leaving: { TableId };

    ghost head: { TrailOpening };

    ghost entries: { List (List ℕ) };

    /// What the sink of the trail told before the head was written.
    ghost begun: { Option (List ℕ) };

    /// How often the sink of the trail had failed then.
    ghost failures: { ℕ };
}

impl<S> Named<S> for Brand {
    ghost use Rattle.std.specs.Prelude.{[], None};
    ghost use Rattle.log_worker.specs.Rounds.{no_table};
    ghost use Rattle.node_played.specs.Lives.{nobody};
    ghost use Rattle.node_seat.specs.Seats.{no_head};

    ghost lane = { (no_table, no_table) };

    ghost restored = { 0 };

    ghost opening = { nobody };

    ghost arriving = { no_table };

    ghost leaving = { no_table };

    ghost head = { no_head };

    ghost entries = { [] };

    ghost begun = { None };

    ghost failures = { 0 };
}

/// The place of a seat in the life that a type names, over a service.
pub struct PlaceOf<S, N> {
    service: PhantomData<S>,
    name: PhantomData<N>,
}

impl<S: Service, N: Named<S>> Home for PlaceOf<S, N> {
    ghost lane = { N.lane };

    ghost restored = { N.restored };
}

impl<S: Service, N: Named<S>> Life<S> for PlaceOf<S, N> {
    ghost opening = { N.opening S.meaning };
}

impl<S: Service, N: Named<S>> Place<S> for PlaceOf<S, N> {
    ghost arriving = { N.arriving };

    ghost leaving = { N.leaving };

    ghost head = { N.head };

    ghost entries = { N.entries };

    ghost begun = { N.begun };

    ghost failures = { N.failures };
}
