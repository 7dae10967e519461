//! Tests of equality.
ghost use Rattle.std.specs.Prelude.{◌≡◌};
ghost use Rattle.smart_statements.specs.Equality.{same_slot, same_kind};

use crate::statement::{Slot, VoteKind};

pub fn same_slot(a: Slot, b: Slot) -> bool
    ensures { result ≡ same_slot a b }
{
    a.view == b.view && a.place == b.place && a.regency == b.regency
}

pub fn same_kind(a: VoteKind, b: VoteKind) -> bool
    ensures { result ≡ same_kind a b }
{
    match (a, b) {
        (VoteKind::Write, VoteKind::Write) | (VoteKind::Accept, VoteKind::Accept) => true,
        (VoteKind::Write, VoteKind::Accept) | (VoteKind::Accept, VoteKind::Write) => false,
    }
}
