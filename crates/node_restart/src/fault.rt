//! The reasons for which a node does not restart.
ghost use Rattle.std.specs.Prelude.{◌≡◌};
ghost use Rattle.node_restart.specs.declared.fault.ReopenFault.TheVariants.{NoMemory};

use std::alloc::AllocError;

/// The reason for which a node does not restart from what was restored.
#[derive(Debug, PartialEq, Eq, Drop)]
pub enum ReopenFault {
    /// The entry of this number, from 1, is damaged. Its bytes are no entry, it may not stand after
    /// those before it, or its evidence does not hold. The number is 0 if the checkpoint's bytes are
    /// the snapshot of no replica.
    Damaged { entry: u64 },
    /// Want of memory.
    NoMemory,
}

impl From<AllocError> for ReopenFault {
    ghost from_gives = { λ _ e. e ≡ NoMemory };

    fn from(_e: AllocError) -> ReopenFault {
        ReopenFault::NoMemory
    }
}
