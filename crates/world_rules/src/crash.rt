//! What a script says that a crash leaves of a member's devices.
use smart_base::sequence::Bytes;

/// The image that a crash leaves of each device.
#[derive(Clone, Copy, Debug, PartialEq, Eq)]
pub enum Image {
    /// The bytes at its last sync.
    Old,
    /// The bytes that it reads as.
    New,
}

/// A patch: bytes that a crash leaves from an index on, on device 0 to 3.
pub struct Patch {
    pub device: u64,
    pub at: u64,
    pub bytes: Bytes,
}

/// The drop of a patch, in one call. Without it each function that drops one has the whole drop
/// written out.
impl Drop for Patch {
    fn drop(self) {
        let Patch {
            device: _,
            at: _,
            bytes: _,
        } = self;
    }
}

/// Bytes that no crash leaves on a device. `at` is the first wrong byte. If only their length is
/// wrong, it is that length, which may be more than any device has. Of several devices the first is
/// named.
#[derive(Clone, Copy, Debug, PartialEq, Eq)]
pub struct NotAnImage {
    pub device: u64,
    pub at: u128,
}
