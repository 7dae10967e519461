//! What holds of the word in any schedule: it is what the one seat that raises it has raised it to.
//! It is the number of entries that the far end has stored.

use atomic_table::{Join, Play, Seat, Split, Table, TableRule};
use std::alloc::Global;

/// Whether a seat raises the word, what it has raised it to or found there, and what it has heard
/// of it. No value of it is made.
pub struct Known {
    pub raises: bool,
    pub found: u64,
    pub heard: u64,
}

/// The rule.
pub struct Raised;

impl TableRule<(), Known, ()> for Raised {
    ghost use Rattle.std.specs.Prelude.{true};
    ghost use Rattle.log_lane.specs.Word.{known, IsRaised};

    ghost holds = { λ _ s. IsRaised s };

    ghost first = { λ _. known true 0 0 };
}

/// The word under the rule.
pub type Word = Table<(), Known, (), Raised, Global>;

/// What a thread reads or raises the word with.
pub type WordSeat = Seat<(), Known>;

/// A seat goes on reading, and a new one raises. Later they are one again.
pub(crate) struct Roles;

impl Split<Known> for Roles {
    ghost use Rattle.log_lane.specs.Word.{reading, raising};

    ghost left = { λ v. reading v.found v.heard };

    ghost right = { λ v. raising v.found v.heard };
}

// What the one has found the other knows by hearsay.
impl Join<Known> for Roles {
    ghost use Rattle.log_lane.specs.Word.{raising, reading};

    ghost both = { λ v w. raising w.found v.found };

    ghost spent = { reading 0 0 };
}

/// A store of a number that is no less.
pub(crate) struct Raises;

impl Play<(), Known> for Raises {
    ghost use Rattle.log_lane.specs.Word.{HasRaised};

    ghost then = { HasRaised };
}

/// A load.
pub(crate) struct Reads;

impl Play<(), Known> for Reads {
    ghost use Rattle.log_lane.specs.Word.{HasRead};

    ghost then = { HasRead };
}

/// A seat tells a new one what it has raised the word to or found there.
pub(crate) struct Tells;

impl Split<Known> for Tells {
    ghost use Rattle.log_lane.specs.Word.{reading};

    ghost left = { λ v. v };

    ghost right = { λ v. reading 0 v.found };
}

/// A seat hears that.
pub(crate) struct Hears;

impl Join<Known> for Hears {
    ghost use Rattle.log_lane.specs.Word.{known, reading};

    ghost both = { λ v w. known v.raises v.found w.heard };

    ghost spent = { reading 0 0 };
}
