//! The reasons for which no service was restored.
ghost use Rattle.std.specs.Prelude.{◌≡◌};
ghost use Rattle.smart_service.specs.declared.fault.RestoreError.TheVariants.{NoMemory};

use std::alloc::{AllocError, AllocFailed};

/// The reason for which no service was restored.
#[derive(Debug, Drop)]
pub enum RestoreError {
    /// Want of memory.
    NoMemory,
    /// The bytes are the snapshot of no state.
    BadSnapshot,
}

impl From<AllocError> for RestoreError {
    ghost from_gives = { λ _ e. e ≡ NoMemory };

    fn from(_e: AllocError) -> RestoreError {
        RestoreError::NoMemory
    }
}

impl<T: Drop> From<AllocFailed<T>> for RestoreError {
    ghost from_gives = { λ _ e. e ≡ NoMemory };

    fn from(_e: AllocFailed<T>) -> RestoreError {
        RestoreError::NoMemory
    }
}
