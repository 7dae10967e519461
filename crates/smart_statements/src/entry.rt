//! The events of a member's node.
use smart_base::sequence::Bytes;

/// An event of a member's node.
#[derive(Drop)]
pub enum NodeEvent {
    /// The bytes of a message arrive.
    Arrive(Bytes),
    /// Time passes.
    Tick,
    /// The waiting batch, if there is one, is to be delivered.
    Deliver,
    /// So many entries of this life are firm, which means that no crash loses them.
    Firm(u64),
}
