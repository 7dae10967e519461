//! The events of a trail.
use node_rules::node::Target;
use smart_messages::message::Message;
use smart_statements::entry::NodeEvent;

/// A message, and who is to receive it.
#[derive(Drop)]
pub struct Addressed {
    pub to: Target,
    pub message: Message,
}

/// An event of a trail.
#[derive(Drop)]
pub enum TrailEvent {
    /// An event of the node.
    Happens(NodeEvent),
    /// A message left the node.
    Send(Addressed),
    /// The link to one receiver was full, and dropped the message that was sent last.
    Lost(Addressed),
    /// The client found its links empty so many times since the event before.
    Polls(u64),
    /// The trail is whole.
    End,
}
