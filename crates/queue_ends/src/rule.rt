//! What holds of the queue and its passes in any schedule: what was put is what was taken and then
//! what the queue holds.

use crossbeam_queue::RuledArrayQueue;
use crossbeam_queue::protocol::{Join, Lesson, Outcome, Protocol, Split};
use std::alloc::Global;
use std::collections::LinkedList;

/// What a pass may do, and what it knows was put and was taken. No value of it is made.
pub struct Known<T> {
    pub puts: bool,
    pub takes: bool,
    pub put: LinkedList<T>,
    pub taken: LinkedList<T>,
}

/// The rule.
pub struct InOrder;

impl<T> Protocol<T, Known<T>> for InOrder {
    ghost use Rattle.std.specs.Prelude.{true, []};
    ghost use Rattle.queue_ends.specs.Rule.{known, IsInOrder};

    ghost holds = { IsInOrder };

    ghost first = { known true true [] [] };
}

/// The queue under the rule.
pub type Queue<T> = RuledArrayQueue<T, Known<T>, InOrder, Global>;

/// A pass goes on putting, and a new one takes. Later they are one again.
pub(crate) struct Roles;

impl<T> Split<Known<T>> for Roles {
    ghost use Rattle.queue_ends.specs.Rule.{putting, taking};

    ghost left = { λ v. putting v.put v.taken };

    ghost right = { λ v. taking v.put v.taken };
}

impl<T> Join<Known<T>> for Roles {
    ghost use Rattle.std.specs.Prelude.{true, []};
    ghost use Rattle.queue_ends.specs.Rule.{known, telling};

    ghost both = { λ v w. known true true v.put w.taken };

    ghost spent = { telling [] [] };
}

/// A push.
pub(crate) struct Puts;

impl<T> Outcome<T, Known<T>> for Puts {
    ghost use Rattle.std.specs.Prelude.{◌≡◌, [], ◌∷◌, ◌++◌};
    ghost use Rattle.queue_ends.specs.Rule.{known};

    ghost then = { λ v x w. w ≡ known v.puts v.takes (v.put ++ x ∷ []) v.taken };
}

// Where the queue is full, so many more were put than are known to be taken.
impl<T> Lesson<T, Known<T>> for Puts {
    ghost use Rattle.std.specs.Prelude.{◌≤◌, ◌+◌, length};

    ghost fact = { λ v items. length v.taken + length items ≤ length v.put };
}

/// A pop.
pub(crate) struct Takes;

impl<T> Outcome<T, Known<T>> for Takes {
    ghost use Rattle.std.specs.Prelude.{◌≡◌, [], ◌∷◌, ◌++◌, ◌≤◌, ◌^◌, length};
    ghost use Rattle.queue_ends.specs.Rule.{known};

    ghost then = { λ v x w. (w ≡ known v.puts v.takes v.put (v.taken ++ x ∷ [])) × (length (v.taken ++ x ∷ []) ≤ 2 ^ 62) };
}

// What is known to be put was taken, or is there.
impl<T> Lesson<T, Known<T>> for Takes {
    ghost use Rattle.std.specs.Prelude.{◌++◌};
    ghost use Rattle.queue_ends.specs.Rule.{IsFront};

    ghost fact = { λ v items. IsFront v.put (v.taken ++ items) };
}

/// A pass tells a new one all that it knows.
pub(crate) struct Tells;

impl<T> Split<Known<T>> for Tells {
    ghost use Rattle.queue_ends.specs.Rule.{telling};

    ghost left = { λ v. v };

    ghost right = { λ v. telling v.put v.taken };
}

/// The pass that takes hears what was put.
pub(crate) struct HearsPut;

impl<T> Join<Known<T>> for HearsPut {
    ghost use Rattle.std.specs.Prelude.{[]};
    ghost use Rattle.queue_ends.specs.Rule.{taking, telling};

    ghost both = { λ v w. taking w.put v.taken };

    ghost spent = { telling [] [] };
}

/// The pass that puts hears what was taken.
pub(crate) struct HearsTaken;

impl<T> Join<Known<T>> for HearsTaken {
    ghost use Rattle.std.specs.Prelude.{[]};
    ghost use Rattle.queue_ends.specs.Rule.{putting, telling};

    ghost both = { λ v w. putting v.put w.taken };

    ghost spent = { telling [] [] };
}

// What is known to be taken was put.
impl<T> Lesson<T, Known<T>> for HearsTaken {
    ghost use Rattle.queue_ends.specs.Rule.{IsFront};

    ghost fact = { λ v items. IsFront v.taken v.put };
}

/// What the pass learns that may put and take.
pub(crate) struct Total;

impl<T> Lesson<T, Known<T>> for Total {
    ghost use Rattle.std.specs.Prelude.{◌≡◌, ◌++◌};

    ghost fact = { λ v items. v.put ≡ v.taken ++ items };
}
