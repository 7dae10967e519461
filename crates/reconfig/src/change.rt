//! A change of the view.
ghost use Rattle.std.specs.Prelude.{◌≡◌};

use smart_base::duplicate::Duplicate;
use smart_base::name::MemberId;
use smart_base::sequence::Sequence;
use std::alloc::{AllocError, Global};

/// A change of the view: how many members may be faulty from then on, and all members from then on,
/// in any order. The numbers are those that the view manager gave, so they may make no view.
pub struct Change {
    pub f: u8,
    pub members: Sequence<MemberId>,
}

/// Let go by one call, so that no function that lets one go carries the whole of it.
impl Drop for Change {
    fn drop(self) {
        let Change { f: _, members: _ } = self;
    }
}

impl Change {
    /// Its parts: how many may be faulty, and the members. It takes no memory.
    pub fn into_parts(self) -> (u8, Sequence<MemberId>)
        ensures faulty { result.0 ≡ self.f }
        ensures members { result.1 ≡ self.members }
    {
        let Change { f, members } = self;
        (f, members)
    }
}

impl Duplicate for Change {
    fn duplicate(&self, alloc: Global) -> Result<Change, AllocError> {
        Ok(Change {
            f: self.f,
            members: self.members.duplicate(alloc)?,
        })
    }
}
