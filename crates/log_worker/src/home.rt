//! Which lane a worker serves, and how many entries its store restored, as names that a type bears.
use std::marker::Brand;

/// Names the lane of a worker and the number of entries that its store restored. Both ends of the lane
/// bear the same name, in threads of their own.
pub trait Home {
    ghost use Rattle.std.specs.Prelude.{ℕ};
    ghost use Rattle.atomic_table.specs.Seated.{TableId};

    ghost lane: { TableId × TableId };

    ghost restored: { ℕ };
}

impl Home for Brand {
    ghost use Rattle.log_worker.specs.Rounds.{no_table};

    ghost lane = { (no_table, no_table) };

    ghost restored = { 0 };
}
