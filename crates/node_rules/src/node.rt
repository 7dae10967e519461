//! What a node tells and sends.
use smart_base::name::{ClientId, MemberId};
use smart_base::number::{Place, ViewNo};
use smart_base::sequence::{Bytes, Sequence};
use smart_messages::message::Message;
use smart_statements::batch::Batch;
use transfer_form::transfer::StateAsk;
use vote_book::entry::{Promise, Start};

/// The first reason for which an arrival is dropped.
#[derive(Clone, Copy, Debug, PartialEq, Eq)]
pub enum Why {
    /// The bytes are no message.
    Unread,
    /// The node is no member of its view.
    NotMember,
    /// The tag is not the one that the signer makes.
    BadTag,
    /// The signer is no member of the view, or no client.
    Stranger,
    /// The view is earlier than the one in force.
    OldView,
    /// The view is later than the one in force.
    NewView,
    /// The place is decided already.
    OldPlace,
    /// The place is too far past the last decided one, or a member that asks for state is not behind.
    FarPlace,
    /// The regency is over; for a STOP, also in force.
    OldRegency,
    /// The regency is later than the next one.
    NewRegency,
    /// A later request of the client was executed.
    OldSeq,
    /// The client's request before this one was not executed.
    FarSeq,
    /// The signer does not lead the regency; or a report came to a node that does not lead it.
    NotLeader,
    /// The batch may not stand at the place, or is not the one that the digest names.
    InvalidBatch,
    /// The ACCEPTs of a DECISION prove nothing, or the evidence or the lock of a report does not hold.
    BadProof,
    /// The regency is bound to another batch at this place.
    Unbound,
    /// No member waits for a reply, and no plan for a part.
    Unasked,
    /// Another one of this kind was kept from this signer; or the regency of a SYNC has begun.
    Repeated,
}

/// The client and the number of a request.
#[derive(Clone, Copy, Debug)]
pub struct Asked {
    pub client: ClientId,
    pub seq: u64,
}

/// What a kept message asks a node for.
#[derive(Clone, Copy)]
pub enum Called {
    /// Nothing.
    Nobody,
    /// The answer to a request.
    Request(Asked),
    /// A member's ask for state.
    State(StateAsk),
    /// An offer came: maybe there is a plan now.
    Offered,
}

/// What calls for the rules of a node.
#[derive(Clone, Copy)]
pub enum Cause {
    /// Bytes came, and ask for this.
    Came(Called),
    /// Time passed.
    Ticked,
    /// The service is to execute the waiting batch.
    Delivering,
    /// Entries became firm.
    Firmed,
}

/// The receivers of a message.
#[derive(Clone, Copy, Debug, PartialEq, Eq)]
pub enum Target {
    /// One member.
    Node(MemberId),
    Client(ClientId),
    /// All members of the sender's view, the sender among them.
    View,
    /// All clients that have asked.
    Clients,
}

/// A message that leaves after the first `needs` entries of its node's book are firm.
#[derive(Drop)]
pub struct Held {
    pub to: Target,
    pub message: Message,
    pub needs: u64,
}

/// A delivered batch, its place, and the number of its executed requests.
#[derive(Drop)]
pub struct Delivery {
    pub place: Place,
    pub batch: Batch,
    pub executed: u64,
}

/// A snapshot that a node took at its own turn, in its bytes. It is firm after the first `needs` entries
/// of the node's book are.
#[derive(Drop)]
pub struct OwnSnapshot {
    pub place: Place,
    pub snapshot: Bytes,
    pub needs: u64,
}

/// The tail of a log: the bytes of the entries that a store keeps beside a checkpoint. `made` is the
/// number of the last of them among the entries that the node made in this life; 0 if that one was
/// restored.
#[derive(Drop)]
pub struct BookTail {
    pub made: u64,
    pub entries: Sequence<Bytes>,
}

/// What restored devices give a node: the snapshot of its newest checkpoint, if there is one, and the
/// entries of the log behind it.
#[derive(Drop)]
pub struct Parts {
    pub snapshot: Option<Bytes>,
    pub entries: Sequence<Bytes>,
}

/// The event that a rule reports in a step.
#[derive(Drop)]
pub enum Fired {
    /// The replica of a plan was installed, of this place.
    Installed(Place),
    /// The parts of a plan made no replica that it certifies.
    Spoiled,
    /// The waiting batch was delivered.
    Delivered(Delivery),
    /// The node marked its replica behind that delivery. This is the snapshot.
    Marked(Bytes),
    /// The node adopted the beginning of a regency.
    Adopted(Start),
    /// The node asked for the next regency, after more than f members did.
    Joined,
    /// The node promised the next regency, and reported its book to the new leader.
    Promised(Promise),
    /// The node, as leader, began its regency with the reports that it collected.
    Led,
    Proposed,
    Wrote,
    Accepted,
    Decided(Place),
    /// Time passed. A node that lags asked for state. Under pressure the leader was given the oldest
    /// request, or the next regency was asked for.
    Timed,
    /// A client that repeated its last request was sent its reply again, a member that asked for state
    /// was given what there is, or an offer made a plan possible.
    Answered,
    /// The view in force has changed. This is the number of the new one.
    Viewed(ViewNo),
}
