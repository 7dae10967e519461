//! The reasons for which a node does not begin.
ghost use Rattle.std.specs.Prelude.{◌≡◌};
ghost use Rattle.member_opening.specs.declared.fault.RestoreFault.TheVariants.{NoMemory};

use std::alloc::AllocError;

/// The reason for which a node does not begin from what its store restores.
#[derive(Debug, PartialEq, Eq, Drop)]
pub enum RestoreFault {
    /// The entry of this number, from 1, is damaged, or opens the book of another node. The number is 0 if
    /// the checkpoint's bytes are the snapshot of no replica.
    Entry { entry: u64 },
    /// Memory ran out.
    NoMemory,
}

impl From<AllocError> for RestoreFault {
    ghost from_gives = { λ _ e. e ≡ NoMemory };

    fn from(_e: AllocError) -> RestoreFault {
        RestoreFault::NoMemory
    }
}
