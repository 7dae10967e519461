//! The laws of one node.
ghost use Rattle.std.specs.Prelude.{◌≡◌, ◌<◌, ◌≤◌, ◌↔◌, ◌^◌, ◌-◌, ◌++◌, max, ℕ, true, List, length, take};
ghost use Rattle.smart_base.specs.Lists.{Each};
ghost use Rattle.smart_base.specs.Views.{View, is_view};
ghost use Rattle.smart_statements.specs.Spelling.{IsSigner};
ghost use Rattle.smart_statements.specs.Batches.{Batch};
ghost use Rattle.smart_statements.specs.declared.entry.NodeEvent.{NodeEvent};
ghost use Rattle.smart_service.specs.declared.table.Execution.{Execution};
ghost use Rattle.smart_service.specs.declared.replica.Replica.{Replica};
ghost use Rattle.vote_book.specs.Books.{last_made};
ghost use Rattle.vote_book.specs.Entries.{FitsEntry};
ghost use Rattle.vote_book.specs.declared.entry.LogEntry.{LogEntry};
ghost use Rattle.replica_rules.specs.Replicas.{empty, executions, state, views_after};
ghost use Rattle.replica_rules.specs.Seals.{is_alone};
ghost use Rattle.agreement_laws.specs.Statements.{Statement};
ghost use Rattle.node_rules.specs.Nodes.{Node, ring_of};
ghost use Rattle.node_rules.specs.Steps.{step_of, Outset, outset, opened};
ghost use Rattle.node_rules.specs.Reopening.{decided_of, reopened};
ghost use Rattle.node_rules.specs.Kept.{node_after};
ghost use Rattle.node_laws.specs.Restored.{IsSoundBook};
ghost use Rattle.node_laws.specs.Sound.{IsSound};
ghost use Rattle.replica_laws.specs.Books.{passing, begins, is_installation, AcceptsOnce, DeliversInOrder};
ghost use Rattle.replica_laws.specs.Bases.{base_of, lines_of};
ghost use Rattle.replica_laws.specs.Lines.{HasLine, InOrder, HoldsExecuted, HoldsAmong};
ghost use Rattle.smart_service.specs.Tables.{kept_in};
ghost use Rattle.replica_laws.specs.Sending.{LeavesFirm, HoldsOwn, IsByteEvent, HoldsGenuine};

use smart_service::service::Service;

/// A node accepts at most one batch in a slot, whatever it begins from, and whatever comes in whatever
/// order.
pub fn accepts_once<S: Service>()
    ensures { (o : Outset S) (events : List NodeEvent) → AcceptsOnce (node_after S.meaning (opened o) events).entries }
{}

/// A node's replica is that of its base after the batches that it decided past the base's place, in
/// order, whatever comes. If a batch waits, the replica lacks it. The base is the replica that the node
/// began with, or the one that it took over last.
pub fn delivers_in_order<S: Service>()
    ensures { (o : Outset S) (events : List NodeEvent) → DeliversInOrder S.meaning (base_of S.meaning o.replica (opened o) events) (node_after S.meaning (opened o) events) }
{}

/// A member may restart from each front of its book, if it began with the empty replica and took over
/// none (recovery: Dura-SMaRt, USENIX ATC 2013). Such a front is sound in the views behind what it
/// decides, as `reopened` of node_laws' `a_restart_is_sound` wants it. Those are fewer views than the
/// node knows, or one more, if a batch that makes a view still waits.
///
/// - `opened`, `reopened`: a node that has been opened or reopened delivers in order from the replica that
///   it began with.
/// - `along`: it goes on to do so whatever comes, while its book tells of no installation more. It keeps
///   the place with which it began.
/// - `known`: a node that delivers in order from the state after a list knows the views behind the list
///   and what it has delivered since.
/// - `longer`: a book that makes no place past a list is sound in the views behind the list if and only if
///   it is so in those behind a longer one.
/// - `front`, `restarts`: take a sound node that delivers in order from the empty replica, and whose book
///   tells of no installation. Each front of its book is sound in the views behind what the front decides.
///   So the node after a restart from that front is sound.
pub fn a_member_restarts_from_each_front<S: Service>()
    ensures opened { (o : Outset S) → DeliversInOrder S.meaning o.replica (opened o) }
    ensures reopened { (o : Outset S) (entries : List LogEntry) → DeliversInOrder S.meaning o.replica (reopened S.meaning o entries) }
    ensures along { (base : Replica S) (n : Node S) (events : List NodeEvent) → DeliversInOrder S.meaning base n →
        passing is_installation (node_after S.meaning n events).entries ≤ passing is_installation n.entries →
        DeliversInOrder S.meaning base (node_after S.meaning n events) × (node_after S.meaning n events).opening ≡ n.opening }
    ensures known { (view : View) (list : List Batch) (n : Node S) → DeliversInOrder S.meaning (state S.meaning view list) n →
        n.replica.views ≡ views_after view (list ++ take (n.replica.place - length list) (decided_of (length list) n.entries)) }
    ensures longer { (secret : List ℕ) (stated : List Statement) (view : View) (list more : List Batch) (entries : List LogEntry) → is_view view ≡ true →
        Each (λ b. is_alone b ≡ true) (list ++ more) → length (list ++ more) < 2 ^ 63 → last_made entries ≤ length list →
        (IsSoundBook secret stated (views_after view list) entries ↔ IsSoundBook secret stated (views_after view (list ++ more)) entries) }
    ensures front { (stated : List Statement) (first : View) (n : Node S) (k : ℕ) → IsSound stated first n → DeliversInOrder S.meaning (empty S.meaning first) n → n.opening ≡ 0 →
        passing is_installation n.entries ≡ 0 →
        IsSoundBook (ring_of n) stated (views_after first (decided_of 0 (take k n.entries))) (take k n.entries) }
    ensures restarts { (stated : List Statement) (first : View) (n : Node S) (id period k : ℕ) → IsSound stated first n → DeliversInOrder S.meaning (empty S.meaning first) n → n.opening ≡ 0 →
        passing is_installation n.entries ≡ 0 →
        IsSound stated first (reopened S.meaning (outset S.meaning (ring_of n) id first period) (take k n.entries)) }
{}

/// A client's request of a number is executed at most once, whatever batches are delivered (state
/// machine replication). Executions stand in the order of their places and indices, each once.
pub fn executes_once<S: Service>()
    ensures one { (view : View) (list : List Batch) (a b : Execution) → HasLine (executions S.meaning view list) a → HasLine (executions S.meaning view list) b →
        a.client ≡ b.client → a.seq ≡ b.seq → a ≡ b }
    ensures ordered { (view : View) (list : List Batch) → InOrder (executions S.meaning view list) }
{}

/// Whatever comes, each reply that a node holds tells an execution that the node knows: the reply of
/// that execution, to that client and number, at that place and index, in that view. It knows the
/// executions of what it delivered, and those that the table has of each replica that it began with or
/// took over. So it is of a node that has been opened, and of one that has been reopened, from whatever
/// entries.
///
/// More is said if the node began with the empty replica, and its book tells of no installation. Then
/// each held reply tells an execution of the batches that its book decides, on the empty replica. A
/// reopened node's book may tell of as many installations as the entries that it went on from.
pub fn replies_tell_executions<S: Service>()
    ensures opened { (o : Outset S) (events : List NodeEvent) → HoldsAmong (kept_in o.replica.table ++ lines_of S.meaning (opened o) events) (node_after S.meaning (opened o) events) }
    ensures reopened { (o : Outset S) (entries : List LogEntry) (events : List NodeEvent) →
        let n = reopened S.meaning o entries in HoldsAmong (kept_in n.replica.table ++ lines_of S.meaning n events) (node_after S.meaning n events) }
    ensures alone_opened { (secret : List ℕ) (id : ℕ) (view : View) (period : ℕ) (events : List NodeEvent) →
        passing is_installation (node_after S.meaning (opened (outset S.meaning secret id view period)) events).entries ≡ 0 →
        HoldsExecuted S.meaning view (node_after S.meaning (opened (outset S.meaning secret id view period)) events) }
    ensures alone_reopened { (secret : List ℕ) (id : ℕ) (view : View) (period : ℕ) (entries : List LogEntry) (events : List NodeEvent) →
        passing is_installation (node_after S.meaning (reopened S.meaning (outset S.meaning secret id view period) entries) events).entries ≤ passing is_installation entries →
        HoldsExecuted S.meaning view (node_after S.meaning (reopened S.meaning (outset S.meaning secret id view period) entries) events) }
{}

/// No step begins a regency that the book has begun, whatever the book is: of each regency of a view a
/// step leaves at most as many beginnings as there were, or one where there was none. So a node that has
/// been opened begins each regency once at most, whatever comes. One that has been reopened, from
/// whatever entries, begins none of those that they begin, and each other once at most.
pub fn a_regency_begins_once<S: Service>()
    ensures step { (n : Node S) (event : NodeEvent) (view regency : ℕ) →
        passing (begins view regency) (step_of S.meaning n event).node.entries ≤ max 1 (passing (begins view regency) n.entries) }
    ensures opened { (o : Outset S) (events : List NodeEvent) (number regency : ℕ) →
        passing (begins number regency) (node_after S.meaning (opened o) events).entries ≤ 1 }
    ensures reopened { (o : Outset S) (entries : List LogEntry) (events : List NodeEvent) (number regency : ℕ) →
        passing (begins number regency) (node_after S.meaning (reopened S.meaning o entries) events).entries ≤ max 1 (passing (begins number regency) entries) }
{}

/// A vote leaves only after its entry is firm. A reply leaves only after firm entries make its place
/// or a later one. A report leaves only after its promise is firm, and firm entries before that are
/// what it says. A MARK leaves only after the entry of its mark is firm. An offer of state leaves only
/// after the entries of all its marks are firm. A view is told only after firm entries make the place
/// before its first, or a later one. For other messages nothing is claimed. That replies wait for the
/// log is Dura-SMaRt's (USENIX ATC 2013). That votes, reports, marks and views do is this project's own
/// rule.
///
/// Whatever comes to a node that has let nothing go yet, each vote, report, reply, MARK, offer of state
/// and view that would leave it now rests on firm entries.
pub fn votes_leave_when_firm<S: Service>()
    ensures { (secret : List ℕ) (id : ℕ) (view : View) (period : ℕ) (events : List NodeEvent) → LeavesFirm (node_after S.meaning (opened (outset S.meaning secret id view period)) events) }
{}

/// A message that a node holds names the node as its signer, whatever comes. The exception is a
/// client's request that it passes on to one member. A reply goes to the client that it names, and a
/// report to one member. An offer names the node, and so does each mark in it. A decision and a part go to
/// one member. A view is told to clients.
pub fn holds_its_own<S: Service>()
    ensures { (secret : List ℕ) (id : ℕ) (view : View) (period : ℕ) (events : List NodeEvent) → HoldsOwn id (node_after S.meaning (opened (outset S.meaning secret id view period)) events) }
{}

/// A message that a node holds bears its signer's tag, whatever bytes come. Each request of a batch
/// in it, each report of a SYNC, each ACCEPT of a decision and each mark of an offer bears its signer's
/// tag too. Its bytes are read as itself. A SYNC
/// is read as itself if no report in it with last place 0 bears evidence.
pub fn what_is_held_is_read<S: Service>()
    ensures { (secret : List ℕ) (id : ℕ) (view : View) (period : ℕ) (events : List NodeEvent) → IsSigner 1 id → is_view view ≡ true → Each IsByteEvent events →
        HoldsGenuine (node_after S.meaning (opened (outset S.meaning secret id view period)) events) }
{}

/// An entry of a node's book has a spelling that a disk can hold, whatever bytes come.
pub fn what_is_recorded_has_a_spelling<S: Service>()
    ensures { (secret : List ℕ) (id : ℕ) (view : View) (period : ℕ) (events : List NodeEvent) → IsSigner 1 id → is_view view ≡ true → period < 2 ^ 32 → Each IsByteEvent events →
        Each FitsEntry (node_after S.meaning (opened (outset S.meaning secret id view period)) events).entries }
{}
