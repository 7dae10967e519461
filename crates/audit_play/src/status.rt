//! How an audit ends.
use audit_rules::recorded::Difference;

/// The end of the audit of an input. Parts are counted from 1.
#[derive(Drop)]
pub enum AuditStatus {
    /// The trails are coherent.
    Coherent,
    /// The input has no part.
    Empty,
    /// This part is lacking or cannot be read, or a member could not begin with it.
    Form { part: u64 },
    /// The input failed.
    ReadFault,
    /// The output failed.
    WriteFault,
    /// This part would be one of more than 2^24.
    Limit { part: u64 },
    /// The trails are not coherent. This is their first difference from what the rules of their members
    /// make.
    Differs(Difference),
    /// Want of memory.
    NoMemory,
}
