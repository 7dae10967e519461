//! Messages that were sent.
use crate::crash::NotAnImage;
use smart_base::name::{ClientId, MemberId};
use smart_base::party::Party;
use smart_base::sequence::{Bytes, Sequence};
use smart_messages::message::Message;

/// The origin of a message.
#[derive(Clone, Copy, Debug, PartialEq, Eq)]
pub enum Origin {
    Node(MemberId),
    Client(ClientId),
    /// The script, in the name of whoever signed it.
    Script,
}

/// The content of what is sent.
#[derive(Drop)]
pub enum Content {
    Message(Message),
    /// Bytes that are no message.
    Raw(Bytes),
}

/// A message that was sent, and its addressees, which were fixed as it left; one that the script
/// injected has none. Messages are numbered from 1, in the order in which they were sent.
pub struct Sent {
    pub origin: Origin,
    pub to: Sequence<Party>,
    pub content: Content,
}

/// The drop of a sent message, in one call. Without it each function that drops one has the whole
/// drop written out.
impl Drop for Sent {
    fn drop(self) {
        let Sent {
            origin: _,
            to: _,
            content: _,
        } = self;
    }
}

/// A premise of a play.
#[derive(Clone, Copy, Debug, PartialEq, Eq)]
pub enum Premise {
    /// At most f members of each view of the list were declared faulty.
    TooManyFaulty,
    /// Nothing is forged. Each statement of an injected message whose tag verifies stands in a
    /// message that its signer has sent, unless that signer is faulty or rogue.
    Forged,
    /// No two different batches or snapshots that were met have one digest.
    Collision,
    /// A crash leaves what the model of disks allows.
    NotAnImage(NotAnImage),
}

/// The reason for which a play ends before its script does.
#[derive(Clone, Copy, Debug, PartialEq, Eq)]
pub enum Ending {
    /// More messages would be sent than have numbers.
    Limit,
    /// A premise does not hold.
    Premise(Premise),
}
