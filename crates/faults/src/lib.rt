//! The reasons for which a source, a sink or a disk did not do what it was asked, and the counts that
//! they keep.
#![tactic(auto)]

/// The reason for which a call to the outside did not do its work.
#[derive(Clone, Copy, Debug, PartialEq, Eq)]
pub enum Fault {
    /// The outside failed. The object that was called counts it.
    Failed,
    /// Want of memory.
    NoMemory,
}
