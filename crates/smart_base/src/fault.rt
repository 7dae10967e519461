//! Why nothing was read.
ghost use Rattle.std.specs.Prelude.{◌≡◌};
ghost use Rattle.smart_base.specs.declared.fault.ReadError.TheVariants.{NoMemory, Unread as unread_at};

use std::alloc::{AllocError, AllocFailed};

/// The bytes are no value: `at` is the lowest offset of a field that cannot be read or is out of its
/// range.
#[derive(Clone, Copy, Debug, PartialEq, Eq)]
pub struct Unread {
    pub at: usize,
}

/// Why nothing was read.
#[derive(Debug, Drop)]
pub enum ReadError {
    /// Memory ran out.
    NoMemory,
    /// The bytes are no value: `at` is the lowest offset of a field that cannot be read or is out of
    /// its range, or of a byte left over.
    Unread { at: usize },
}

impl From<AllocError> for ReadError {
    ghost from_gives = { λ _ e. e ≡ NoMemory };

    fn from(_e: AllocError) -> ReadError {
        ReadError::NoMemory
    }
}

impl<T: Drop> From<AllocFailed<T>> for ReadError {
    ghost from_gives = { λ _ e. e ≡ NoMemory };

    fn from(_e: AllocFailed<T>) -> ReadError {
        ReadError::NoMemory
    }
}

impl From<Unread> for ReadError {
    ghost from_gives = { λ unread e. e ≡ unread_at unread.at };

    fn from(unread: Unread) -> ReadError {
        ReadError::Unread { at: unread.at }
    }
}
