//! Lists of entries.
ghost use Rattle.std.specs.Prelude.{◌≡◌, ◌++◌, OnOk, OnErr};

use smart_base::sequence::{Bytes, Sequence};
use std::alloc::{AllocError, Global};
use std::mem;

/// Adds entries to others. Error: want of memory; nothing is added then.
pub fn push_all(
    alloc: Global,
    entries: &mut Sequence<Bytes>,
    more: Sequence<Bytes>,
) -> Result<(), AllocError>
    ensures ok { OnOk result (entries.new ≡ entries.old ++ more) }
    ensures err { OnErr result (entries.new ≡ entries.old) }
{
    let mut items = mem::replace(entries, Sequence::new(alloc)).into_vec();
    let mut added = more.into_vec();
    let answer = items.append(&mut added);
    *entries = Sequence::from_vec(items);
    answer
}
