//! An index of statements that members have sent.
ghost use Rattle.std.specs.Prelude.{◌≡◌, ◌≤◌, ◌||◌, IfOk, map, vec_len};
ghost use Rattle.std.specs.HashSet.{contains, spare};
ghost use Rattle.std.specs.List.{list_any};
ghost use Rattle.smart_base.specs.declared.party.Party.TheVariants.{Member};
ghost use Rattle.audit_rules.specs.Audits.{same_sealed};
ghost use Rattle.sent_statements.specs.declared.made.Made.{Made};
ghost use Rattle.sent_statements.specs.Indexes.{made_sealed, same_made};

use smart_base::name::MemberId;
use std::alloc::{AllocError, Global};
use std::collections::HashSet;

/// A statement of a member, with its tag.
#[derive(PartialEq, Eq, Hash)]
pub struct Made {
    member: u16,
    text: Vec<u8>,
    tag: Vec<u8>,
}

/// Let go by one call, so that no function that lets one go carries the whole of it.
impl Drop for Made {
    fn drop(self) {
        let Made {
            member: _,
            text: _,
            tag: _,
        } = self;
    }
}

/// The statements that members have sent.
pub type SentIndex = HashSet<Made>;

impl Made {
    /// Copies of a statement's bytes and of its tag. Error: want of memory.
    pub fn new(alloc: Global, member: MemberId, text: &[u8], tag: &[u8]) -> Result<Made, AllocError>
        ensures { IfOk result (λ m. made_sealed m ≡ record { who = Member member; text = text.now; tag = tag.now }) }
    {
        Ok(Made {
            member: member.get(),
            text: Vec::from_slice(alloc, text)?,
            tag: Vec::from_slice(alloc, tag)?,
        })
    }
}

/// Puts statements into an index that has room for them.
fn put_all(index: &mut SentIndex, all: Vec<Made>)
    requires { vec_len all ≤ spare index.old }
    ensures { (m : Made) → contains same_made index.new m ≡ (list_any (λ o. same_made o m) all.items || contains same_made index.old m) }
{
    for made in all {
        let _ = index.insert(made);
    }
}

/// An index of these statements. Error: want of memory.
pub fn index_of(alloc: Global, all: Vec<Made>) -> Result<SentIndex, AllocError>
    ensures { IfOk result (λ index. (m : Made) → contains same_made index m ≡ list_any (same_sealed (made_sealed m)) (map made_sealed all.items)) }
{
    let mut index = HashSet::new(alloc);
    index.reserve(all.len())?;
    put_all(&mut index, all);
    Ok(index)
}
