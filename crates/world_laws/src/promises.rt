//! Laws of what is sent, and of what it rests on.
ghost use Rattle.std.specs.Prelude.{◌≡◌, ◌++◌, ◌∷◌, [], ℕ, List};
ghost use Rattle.smart_base.specs.Views.{View};
ghost use Rattle.smart_base.specs.declared.party.Party.{Party};
ghost use Rattle.smart_statements.specs.Forms.{SignedBy};
ghost use Rattle.smart_statements.specs.declared.statement.Request.{Request};
ghost use Rattle.smart_statements.specs.declared.statement.Answer.{Answer};
ghost use Rattle.smart_statements.specs.declared.entry.NodeEvent.{NodeEvent};
ghost use Rattle.node_rules.specs.Steps.{opened, outset};
ghost use Rattle.node_rules.specs.Kept.{node_after};
ghost use Rattle.world_rules.specs.Repeats.{repeated};
ghost use Rattle.client_quorum.specs.Clients.{asking};
ghost use Rattle.world_rules.specs.Clients.{heard};
ghost use Rattle.world_rules.specs.Worlds.{course_of, settle_once, begun};
ghost use Rattle.world_rules.specs.Plays.{world_after};
ghost use Rattle.client_quorum.specs.declared.client.Client.{Client};
ghost use Rattle.client_quorum.specs.declared.client.Acceptance.{Acceptance};
ghost use Rattle.client_quorum.specs.declared.client.Heard.TheVariants as hears;
ghost use Rattle.client_quorum.specs.declared.client.Word.{Word};
ghost use Rattle.world_rules.specs.declared.line.Header.{Header};
ghost use Rattle.world_rules.specs.declared.line.Line.{Line};
ghost use Rattle.replica_laws.specs.Sending.{LeavesFirm};
ghost use Rattle.world_laws.specs.Promises.{IsHeader};
ghost use Rattle.world_laws.specs.Sending.{hears_all, replies_in, IsGiven, QuorumsReplied, SentFirm, AllGenuine};
ghost use Rattle.world_laws.specs.Settling.{flow_begins, flow_goes, message_goes, node_goes};

use smart_service::service::Service;

/// A quorum of members has given each reply that a client accepts, each with its own tag. They are of the
/// view that the reply states, one that the client knows. The reply is to the client's request. This
/// holds for whatever replies and statements of views come to the client, in any order.
///
/// In every play that view is one of the list's. The accepted reply of each member of that quorum is
/// among the messages of the play, with the member's tag. A correct member has sent it itself, to that
/// client. A faulty member's reply may stand in a message that a script injected.
pub fn a_quorum_replied<S: Service>()
    ensures client { (c : Client) (q : Request) (ws : List Word) (a : SignedBy Answer) (accepted : Acceptance) →
        heard (hears_all (asking c q) ws) a ≡ hears.Accepted accepted → IsGiven (hears_all (asking c q) ws).views q (replies_in ws ++ a ∷ []) accepted }
    ensures world { (header : Header) (ls : List Line) → IsHeader header → QuorumsReplied (world_after (course_of S.meaning) (begun S.meaning header) ls) }
{}

/// A vote leaves only after its entry is firm. A reply leaves only after firm entries make its place
/// or a later one. A report leaves only after its promise is firm, after the entries that it tells
/// of. A MARK leaves only after the entry of its mark is firm. An offer of state leaves only after the
/// entries of all its marks are firm. A view is told only after firm entries make the place before its
/// first, or a later one. For other messages nothing is claimed. That replies wait for the log is
/// Dura-SMaRt's (USENIX ATC 2013). That votes, reports, marks and views do is this project's own rule.
///
/// Whatever comes to a node that has let nothing go yet, each vote, reply, report, MARK, offer of state
/// and view that would leave it now rests on firm entries. In a play such messages rest on what became
/// firm at their senders, in any life. This holds at each turn of a flow, and while a node settles or
/// takes bytes. What a node or a client has sent names it as its signer, except a client's request
/// that a node passed on to one member. What a script injects is for nobody.
pub fn votes_leave_when_firm<S: Service>()
    ensures node { (secret : List ℕ) (id : ℕ) (view : View) (period : ℕ) (events : List NodeEvent) → LeavesFirm (node_after S.meaning (opened (outset S.meaning secret id view period)) events) }
    ensures first { (header : Header) (ls : List Line) (members : List ℕ) (nodes i k : ℕ) → IsHeader header → SentFirm (repeated (settle_once (course_of S.meaning) i) k (flow_begins S.meaning header ls members nodes)) }
    ensures given { (header : Header) (ls : List Line) (members : List ℕ) (turn : ℕ) (bytes : List ℕ) (tos : List Party) (i k : ℕ) → IsHeader header →
        SentFirm (node_goes S.meaning bytes i k (message_goes S.meaning members bytes tos (flow_goes S.meaning header ls members turn))) }
{}

/// Each message of a play is read from its bytes as itself, by whichever member is given them, if it
/// has at most 1,048,576 bytes. A script's messages are no exception. The bytes of a longer message,
/// and bytes that are no message, are read as none. No message that orders requests is longer. A
/// client takes each reply and each statement of a view as itself, and nothing else as one.
///
/// A node or a client sends messages alone. Of these only a SYNC may be longer than the limit. It is
/// not longer if no report in it bears evidence of a last place that it does not state. Each message
/// bears the tag of its signer over its statement. Each request of a batch in it, and each report in
/// a SYNC, bears its signer's tag too.
pub fn what_is_sent_is_read<S: Service>()
    ensures { (header : Header) (ls : List Line) → IsHeader header → AllGenuine (world_after (course_of S.meaning) (begun S.meaning header) ls) }
{}
