//! A member's votes.
/// A member's votes in a slot.
#[derive(Clone, Copy, Debug, PartialEq, Eq)]
pub struct OwnVotes {
    pub wrote: bool,
    pub accepted: bool,
}
