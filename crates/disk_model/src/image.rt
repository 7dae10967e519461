//! The reasons for which bytes make no disk.
ghost use Rattle.std.specs.Prelude.{◌≡◌};
ghost use Rattle.disk_model.specs.declared.image.ImageFault.TheVariants.{NoMemory};

use std::alloc::AllocError;

/// Bytes that no crash now leaves. `at` is the first wrong byte, or their length if only that is
/// wrong.
#[derive(Clone, Copy, Debug, PartialEq, Eq)]
pub struct NotAnImage {
    pub at: u64,
}

/// The reason for which bytes make no disk.
#[derive(Clone, Copy, Debug, PartialEq, Eq)]
pub enum ImageFault {
    /// No crash now leaves these bytes. `at` is the first wrong byte, or their length if only that is
    /// wrong.
    NotAnImage { at: u64 },
    /// Want of memory.
    NoMemory,
}

impl From<AllocError> for ImageFault {
    ghost from_gives = { λ _ e. e ≡ NoMemory };

    fn from(_e: AllocError) -> Self {
        ImageFault::NoMemory
    }
}
