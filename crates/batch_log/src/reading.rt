//! The reading of a log's groups.
ghost use Rattle.std.specs.Prelude.{◌≡◌, ◌++◌, ◌∷◌, List, ℕ, length, IfOk, IfSome, IsNone, None};
ghost use Rattle.store_form.specs.Spelling.{group_text, IsGroup};
ghost use Rattle.batch_log.specs.Log.{log_bytes, AreGroups, first_group};

use smart_base::cursor::Cursor;
use smart_base::fault::ReadError;
use smart_base::sequence::{Bytes, Sequence};
use std::alloc::{AllocError, Global};
use store_form::group::take_group;

/// The entries of a log's groups, in order.
pub type Groups = Sequence<Sequence<Bytes>>;

/// The first group and the bytes after it, if its gate is 1 and it is whole. Error: want of memory.
fn first_group(alloc: Global, bytes: &[u8]) -> Result<Option<(Sequence<Bytes>, &[u8])>, AllocError>
    ensures some { IfOk result (λ o. IfSome o (λ x. (bytes.now ≡ 1 ∷ (group_text x.0 ++ x.1.now)) × IsGroup x.0)) }
    ensures none { IfOk result (λ o. IsNone o → first_group bytes.now ≡ None) }
{
    if bytes.is_empty() || bytes[0] != 1 {
        return Ok(None);
    }
    let (_gate, inner) = bytes.split_at(1);
    let mut cut = Cursor::new(inner);
    // That these are bytes is known of the cursor.
    let _all = cut.rest();
    match take_group(alloc, &mut cut) {
        Ok(entries) => Ok(Some((entries, cut.rest()))),
        Err(ReadError::Unread { .. }) => Ok(None),
        Err(ReadError::NoMemory) => Err(AllocError),
    }
}

/// The groups of a log, and the bytes after them. Error: want of memory.
pub fn groups_of(alloc: Global, bytes: &[u8]) -> Result<(Groups, &[u8]), AllocError>
    ensures parts { IfOk result (λ x. (bytes.now ≡ log_bytes x.0 ++ x.1.now) × AreGroups x.0 × (first_group x.1.now ≡ None)) }
{
    let mut groups = Sequence::new(alloc);
    let mut rest = bytes;
    while let Some((group, after)) = first_group(alloc, rest)? {
        groups.push(group)?;
        rest = after;
    }
    Ok((groups, rest))
}
