//! What `node` and `group` are told.
use smart_base::sequence::Bytes;

/// The number of members of a group, and of those that may be faulty.
#[derive(Clone, Copy, Debug, PartialEq, Eq)]
pub struct GroupSize {
    /// 1 to 31.
    pub members: u8,
    /// 0 to 10; there are more than three times as many members.
    pub faulty: u8,
}

/// What `node` is told: which member it is, where its store and its trail are, and of which group.
#[derive(Drop)]
pub struct NodeWords {
    /// The member's number, from 1. It need not be in the group.
    pub id: u16,
    /// The directory of its store and its trail.
    pub dir: Bytes,
    /// The secret of the group: 1 to 64 bytes.
    pub secret: Bytes,
    pub group: GroupSize,
    /// The number of places in which each member takes one checkpoint: from that of the members to
    /// 1,048,576.
    pub period: u32,
}

/// What `group` is told: of how many members it is, where their stores and all trails are, how much its
/// client asks, and how long it waits for an answer.
#[derive(Drop)]
pub struct GroupWords {
    pub group: GroupSize,
    /// The number of places in which each member takes one checkpoint: from that of the members to
    /// 1,048,576.
    pub period: u32,
    /// The empty polls of the client, since it asked last, behind which the loops end: up to 2^63.
    pub turns: u64,
    /// The number of requests that the client asks, one after the other: up to 10,000.
    pub asks: u32,
    /// The directory of the members' stores and of all trails.
    pub dir: Bytes,
}
