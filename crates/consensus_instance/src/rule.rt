//! The votes that may be due in an instance.
/// The rules by which a member votes in an instance (Mod-SMaRt, EDCC 2012).
#[derive(Clone, Copy, Debug, PartialEq, Eq)]
pub enum Rule {
    /// The member writes for the proposed batch.
    Write,
    /// The member accepts the batch that a quorum wrote for.
    Accept,
}
