//! Which links a seat has, and with what its trail begins, as names that a type bears.
use node_played::life::Life;
use smart_service::service::Service;
use std::marker::Brand;

/// Names the links of a seat, the head of its trail and the entries that were restored, in their bytes.
pub trait Place<S>: Life<S> {
    ghost use Rattle.std.specs.Prelude.{ℕ, List, Option};
    ghost use Rattle.atomic_table.specs.Seated.{TableId};
    ghost use Rattle.trail.specs.declared.opening.TrailOpening.{TrailOpening};

    ghost arriving: { TableId };

    ghost leaving: { TableId };

    ghost head: { TrailOpening };

    ghost entries: { List (List ℕ) };

    /// What the sink of the trail told before the head was written.
    ghost begun: { Option (List ℕ) };

    /// How often the sink of the trail had failed then.
    ghost failures: { ℕ };
}

impl<S: Service> Place<S> for Brand {
    ghost use Rattle.std.specs.Prelude.{[], None};
    ghost use Rattle.log_worker.specs.Rounds.{no_table};
    ghost use Rattle.node_seat.specs.Seats.{no_head};

    ghost arriving = { no_table };

    ghost leaving = { no_table };

    ghost head = { no_head };

    ghost entries = { [] };

    ghost begun = { None };

    ghost failures = { 0 };
}
