//! Values that may be there or not.
ghost use Rattle.std.specs.Prelude.{◌≡◌, IfOk, OnErr};
ghost use Rattle.smart_base.specs.Cuts.{Takes};
ghost use Rattle.smart_statements.specs.SignedLists.{flag_at};

use smart_base::cursor::Cursor;
use smart_base::duplicate::Duplicate;
use smart_base::fault::Unread;
use std::alloc::{AllocError, Global};

/// Reads the byte that tells whether a value is there: 1 or 0.
#[tactic(auto, unfolding(smart_base::specs::Cuts::ranged))]
pub fn take_flag(cut: &mut Cursor<'_>) -> Result<u8, Unread>
    ensures flag { Takes result cut.new (flag_at cut.old) }
    ensures unchanged { OnErr result (cut.new ≡ cut.old) }
{
    let mut ahead = cut.ahead();
    let found = ahead.take_u8()?;
    if found == 0 || found == 1 {
        *cut = ahead;
        Ok(found)
    } else {
        Err(Unread { at: cut.at() })
    }
}

/// A copy of an optional value. Error: want of memory.
pub fn duplicate_optional<T: Duplicate>(
    alloc: Global,
    value: &Option<T>,
) -> Result<Option<T>, AllocError>
    ensures { IfOk result (λ copy. copy ≡ value.now) }
{
    match value {
        None => Ok(None),
        Some(value) => Ok(Some(value.duplicate(alloc)?)),
    }
}
