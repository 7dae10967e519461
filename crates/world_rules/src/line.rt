//! The lines of a script and of its transcript.
use crate::crash::{Image, Patch};
use crate::message::Origin;
use client_quorum::client::Ignored;
use message_words::words::Summary;
use node_rules::node::Why;
use smart_base::bytes::{Digest32, Payload};
use smart_base::name::{ClientId, MemberId};
use smart_base::number::{Place, Regency, ViewNo};
use smart_base::party::Party;
use smart_base::sequence::{Bytes, Sequence};
use smart_base::view::View;
use smart_statements::statement::{Answer, Slot, VoteKind};

/// The service that a script's header names.
#[derive(Clone, Copy, Debug, PartialEq, Eq)]
pub enum App {
    /// A sum.
    Count,
    /// Values by keys.
    Kv,
}

/// What the header of a script states of its group: the first view, and the period. In so many places
/// each member takes one checkpoint.
pub struct Header {
    pub view: View,
    pub period: u32,
}

/// Let go by one call, so that no function that lets one go carries the whole of it.
impl Drop for Header {
    fn drop(self) {
        let Header { view: _, period: _ } = self;
    }
}

/// A script line after the header.
#[derive(Drop)]
pub enum Line {
    /// An empty line or a comment.
    Nothing,
    /// `ask C OP`: client C asks for the operation.
    Ask {
        client: ClientId,
        op: Payload,
    },
    /// `change F M..`: the view manager, which is client 0, asks for a view with these members, of which F
    /// may be faulty. The operation is the one that asks for it.
    Change {
        op: Payload,
    },
    /// `again C`: client C sends its waiting request again.
    Again {
        client: ClientId,
    },
    /// `told C D`: client D learns the greatest place that client C knows.
    Tell {
        from: ClientId,
        to: ClientId,
    },
    /// `flow M..`: each message goes to those of these members that it is for, or to its client,
    /// until nothing is due. Without members it goes to all.
    Flow {
        members: Sequence<MemberId>,
    },
    /// `give NUM X..`: the message of this number arrives at each of these parties, in order.
    Give {
        number: u64,
        to: Sequence<Party>,
    },
    /// `deliver M..`: each of these members delivers its waiting batch, in order.
    Deliver {
        members: Sequence<MemberId>,
    },
    /// `tick M..`: time passes at each of these members, in order.
    Tick {
        members: Sequence<MemberId>,
    },
    /// `disk M [COUNT]`: the member's store makes COUNT device calls, or fewer if no more are due.
    /// COUNT is 1 if it is not named.
    Disk {
        member: MemberId,
        count: u64,
    },
    /// `crash M old` or `new`, with patches: the member crashes, and this is left of its devices.
    Crash {
        member: MemberId,
        image: Image,
        patches: Sequence<Patch>,
    },
    /// `crash all old` or `new`: each member whose node runs crashes.
    CrashAll {
        image: Image,
    },
    /// `restart M`: the crashed member restarts from what its devices hold.
    Restart {
        member: MemberId,
    },
    /// `restart all`: each crashed member restarts.
    RestartAll,
    /// `settle M`: the member makes its due device calls and delivers, until nothing is due.
    Settle {
        member: MemberId,
    },
    /// `settle all`: each member settles, by number.
    SettleAll,
    /// `show`: the place, view and regency of each member. Of each client that has asked, also the
    /// greatest place that it knows.
    Show,
    /// `node M`: a new node of a member that has none. It knows the view that the group begins with,
    /// and is no member of it. Its devices hold nothing.
    Node {
        member: MemberId,
    },
    /// `faulty M`: the member is faulty from now on, and its node is gone.
    Faulty {
        member: MemberId,
    },
    /// `rogue C`: the client is rogue from now on.
    Rogue {
        client: ClientId,
    },
    /// `inject FORM`: a numbered message that is for nobody.
    Inject(Injection),
}

/// A message that a script makes up, signed by the signer that it names.
#[derive(Drop)]
pub enum Injection {
    /// `ask C SEQ AFTER OP`.
    Ask {
        client: ClientId,
        seq: u64,
        after: u64,
        op: Payload,
    },
    /// `propose S V K R NUM..`: a PROPOSE of the requests of these messages.
    Propose {
        signer: MemberId,
        slot: Slot,
        asks: Sequence<u64>,
    },
    /// `write S V K R NUM` or `accept S V K R NUM`: a vote for the batch of a PROPOSE.
    Vote {
        kind: VoteKind,
        signer: MemberId,
        slot: Slot,
        proposal: u64,
    },
    /// `stop S V R`: a STOP for a regency.
    Stop {
        signer: MemberId,
        view: ViewNo,
        regency: Regency,
    },
    /// `stopdata S V R EV LOCK`: a report. Its last place is 0, or the one that a decision's message
    /// shows. It has no lock, or that of a report's message.
    StopData {
        signer: MemberId,
        view: ViewNo,
        regency: Regency,
        evidence: Option<u64>,
        lock: Option<u64>,
    },
    /// `sync S V R NUM..`: a SYNC with the reports of these messages.
    Sync {
        signer: MemberId,
        view: ViewNo,
        regency: Regency,
        reports: Sequence<u64>,
    },
    /// `reply S V K I C SEQ TEXT`.
    Reply {
        signer: MemberId,
        answer: Answer,
    },
    /// `view S V START F M..`: a VIEWTOLD of this view.
    View {
        signer: MemberId,
        view: View,
    },
    /// `mark S K HEX64`: a MARK of a digest at a place.
    Mark {
        signer: MemberId,
        place: Place,
        digest: Digest32,
    },
    /// `stateask M Q FETCH`: a STATEASK of a member at a place.
    StateAsk {
        member: MemberId,
        place: Place,
        fetch: Place,
    },
    /// `offer M K SIZE NUM..`: a STATEOFFER with the marks of these messages.
    Offer {
        member: MemberId,
        place: Place,
        size: u32,
        marks: Sequence<u64>,
    },
    /// `part K INDEX TOTAL HEX`: a STATEPART with these bytes.
    Part {
        place: Place,
        index: u32,
        total: u32,
        bytes: Bytes,
    },
    /// `raw HEX`: these bytes.
    Raw {
        bytes: Bytes,
    },
}

/// The kind of what is wrong with a script line; if several apply, the first of these.
#[derive(Clone, Copy, Debug, PartialEq, Eq)]
pub enum Kind {
    /// The input ended before the header was whole.
    Empty,
    /// A byte outside 32 to 126.
    Byte,
    /// More than 65,536 bytes.
    Long,
    /// A header line that is not the one that has to be there.
    Header,
    /// An unknown first word, or an unknown form after `inject`.
    Word,
    /// Too few words, or too many; in `inject` also a list that is too short or too long.
    Count,
    /// A word that is not the number that has to be there.
    Number,
    /// Any other wrong word.
    Form,
    /// A message or a member that is not there, a message that is not of that kind, a new node of a
    /// member that has one, or an injection whose batch passes its limit.
    Refer,
}

/// A line of the transcript.
#[derive(Drop)]
pub enum OutLine {
    /// The header: the number of members, how many of them may be faulty, the service, and the
    /// period.
    Group {
        members: u64,
        faulty: u8,
        app: App,
        period: u32,
    },
    /// A message was sent: its number, its sender, and what it is.
    Sent {
        number: u64,
        origin: Origin,
        summary: Summary,
    },
    /// A node decided a place.
    Decided {
        member: MemberId,
        place: Place,
    },
    /// A node took over the replica of a place, which enough members certify.
    Installed {
        member: MemberId,
        place: Place,
    },
    /// A node delivered a place, and executed this number of requests.
    Delivered {
        member: MemberId,
        place: Place,
        executed: u64,
    },
    /// A node's view in force has changed: the number of the new one.
    View {
        member: MemberId,
        view: ViewNo,
    },
    /// A node promised a regency.
    Promised {
        member: MemberId,
        view: ViewNo,
        regency: Regency,
    },
    /// A node takes part in a regency from now on. `base` is the place at which the regency begins.
    /// `bound` tells whether a batch binds there.
    Synced {
        member: MemberId,
        view: ViewNo,
        regency: Regency,
        base: u64,
        bound: bool,
    },
    /// A node dropped an arrival.
    Dropped {
        member: MemberId,
        why: Why,
    },
    /// A client counted a reply: how many members gave it, and how many are needed.
    Counted {
        client: ClientId,
        have: u64,
        need: u64,
    },
    /// A client accepted a reply: its request's number, place and index, and the text.
    Accepted {
        client: ClientId,
        seq: u64,
        place: Place,
        index: u16,
        reply: Payload,
    },
    /// A client counted a statement of a view: how many members of its present view stated it, and how
    /// many are needed.
    Viewed {
        client: ClientId,
        have: u64,
        need: u64,
    },
    /// A client has taken over a view: its number.
    Moved {
        client: ClientId,
        view: ViewNo,
    },
    /// A client ignored a message.
    Ignored {
        client: ClientId,
        why: Ignored,
    },
    /// A client was told to ask while its request of this number waits.
    Busy {
        client: ClientId,
        seq: u64,
    },
    /// A line named a member whose node does not run.
    Absent {
        member: MemberId,
    },
    /// A member crashed.
    Crashed {
        member: MemberId,
    },
    /// A member restarted: its last delivered place, and how many entries its log restored.
    Restarted {
        member: MemberId,
        place: Place,
        entries: u64,
    },
    /// A member that has crashed, and not restarted.
    Down {
        member: MemberId,
    },
    /// A node had nothing to do.
    Idle {
        member: MemberId,
    },
    /// A client had nothing to send, or is rogue.
    IdleClient {
        client: ClientId,
    },
    /// A client was told of a place: the greatest that it knows now.
    Learned {
        client: ClientId,
        place: Place,
    },
    /// A node's last delivered place, its view and its regency.
    Stands {
        member: MemberId,
        place: Place,
        view: ViewNo,
        regency: Regency,
    },
    /// The greatest place that a client knows.
    Seen {
        client: ClientId,
        place: Place,
    },
    /// The input ended: the number of lines read, and of messages sent.
    End {
        lines: u64,
        messages: u64,
    },
}
