//! The reasons for which a member's store was not crashed.
use std::alloc::AllocError;
use world_rules::crash::NotAnImage;

/// The reason for which a store was not crashed.
#[derive(Clone, Copy, Debug, PartialEq, Eq)]
pub enum CrashFault {
    NotAnImage(NotAnImage),
    /// Want of memory.
    NoMemory,
}

impl From<AllocError> for CrashFault {
    ghost use Rattle.std.specs.Prelude.{◌≡◌};
    ghost use Rattle.member_store.specs.declared.crash.CrashFault.TheVariants.{NoMemory};

    ghost from_gives = { λ _ e. e ≡ NoMemory };

    fn from(_e: AllocError) -> Self {
        CrashFault::NoMemory
    }
}
