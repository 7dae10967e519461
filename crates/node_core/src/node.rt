//! The node of a member, and the messages that leave it.
ghost use Rattle.std.specs.Prelude.{◌≡◌, [], false, length, IfOk, OnOk, OnErr, is_some, option_map};
ghost use Rattle.vote_book.specs.Books.{number_or};
ghost use Rattle.std.specs.Option.{option_copied, option_to_list};
ghost use Rattle.std.specs.Result.{is_err};
ghost use Rattle.book_tail.specs.Tails.{AreTexts};
ghost use Rattle.node_rules.specs.Nodes.{view_of, regency_of};
ghost use Rattle.node_rules.specs.Kept.{core_step};
ghost use Rattle.node_rules.specs.Marks.{wanted};
ghost use Rattle.node_rules.specs.Steps.{first_leaving, after_first, leaving, released, opened, outset};
ghost use Rattle.node_rules.specs.Tails.{tail_of};
ghost use Rattle.node_rules.specs.Transfers.{completed_by};
ghost use Rattle.node_state.specs.Broken.{IsPartly};

use crate::completing::completed_by;
use crate::step::step;
use crate::tail::tail;
use node_opening::reopen::begin;
use node_replica::marks::{place_wanted, wanted};
use node_rules::node::{BookTail, Fired, Held, OwnSnapshot, Why};
use node_state::state::NodeState;
use outbox::outbox::Outbox;
use smart_base::name::MemberId;
use smart_base::number::{Place, Regency};
use smart_base::sequence::{Bytes, Sequence};
use smart_base::view::View;
use smart_keys::ring::Ring;
use smart_service::service::Service;
use smart_statements::batch::Batch;
use smart_statements::entry::NodeEvent;
use std::alloc::{AllocError, Global};
use vote_book::entry::LogEntry;

/// The node of a member, as a core: it keeps only what its rules still need. If want of memory
/// stopped a step half-way, the node is broken: it takes no event any more, and no call makes it
/// whole.
pub struct NodeCore<S> {
    node: NodeState<S>,
    broken: bool,
}

/// Let go by one call, so that no function that lets one go carries the whole of it.
impl<S: Drop> Drop for NodeCore<S> {
    fn drop(self) {
        let NodeCore { node: _, broken: _ } = self;
    }
}

/// The outcome of a step: the rules that fired, in order, and the reason for which an arrival was
/// dropped.
#[derive(Drop)]
pub struct Outcome {
    pub fired: Sequence<Fired>,
    pub dropped: Option<Why>,
}

impl<S: Service> NodeCore<S> {
    /// A new node, whose book has the opening alone. `view` is the group's first view, and `period`
    /// the number of places in which each member takes one checkpoint. Error: want of memory.
    pub fn begin(
        alloc: Global,
        id: MemberId,
        view: View,
        period: u32,
        ring: Ring,
    ) -> Result<Self, AllocError>
        ensures node { IfOk result (λ core. core.node ≡ opened (outset S.meaning ring id view period)) }
        ensures broken { IfOk result (λ core. core.broken ≡ false) }
    {
        let node = begin(alloc, id, view, period, ring)?;
        Ok(NodeCore::whole(node))
    }

    /// The node of a state that no step has stopped.
    pub(crate) fn whole(node: NodeState<S>) -> Self
        ensures node { result.node ≡ node }
        ensures broken { result.broken ≡ false }
    {
        NodeCore {
            node,
            broken: false,
        }
    }

    /// Whether want of memory stopped a step half-way.
    pub fn broken(&self) -> bool
        ensures { result ≡ self.now.broken }
    {
        self.broken
    }

    /// The member's number.
    pub fn id(&self) -> MemberId
        ensures { result ≡ self.now.node.id }
    {
        self.node.id()
    }

    /// The last delivered place; 0 before the first.
    pub fn place(&self) -> Place
        ensures { result ≡ self.now.node.replica.place }
    {
        self.node.place()
    }

    /// The view in force.
    pub fn view(&self) -> &View
        ensures { result.now ≡ view_of self.now.node }
    {
        self.node.view()
    }

    /// The regency in force.
    pub fn regency(&self) -> Regency
        ensures { result ≡ regency_of self.now.node }
    {
        self.node.regency()
    }

    /// The number of entries that were restored when this life began.
    pub fn restored(&self) -> u64
        ensures { result ≡ self.now.node.restored }
    {
        self.node.restored
    }

    /// The number of firm entries, the restored ones among them.
    pub fn firm(&self) -> u64
        ensures { result ≡ self.now.node.firm }
    {
        self.node.firm
    }

    /// The number of entries in the book.
    pub fn made(&self) -> u64
        ensures { result ≡ length self.now.node.entries }
    {
        self.node.made()
    }

    /// Whether a batch is decided and not yet delivered.
    pub fn waits(&self) -> bool
        ensures { result ≡ is_some self.now.node.waiting }
    {
        self.node.waiting.is_some()
    }

    /// The batch that is decided and not yet delivered, if there is one.
    pub fn waiting(&self) -> Option<&Batch>
        ensures { option_copied result ≡ self.now.node.waiting }
    {
        self.node.waiting.as_ref()
    }

    /// The book: the entries in the order in which they were written.
    pub fn book(&self) -> &[LogEntry]
        ensures { result.now ≡ self.now.node.entries }
    {
        self.node.book.pushed()
    }

    /// A copy of the snapshot to which the node wants its store to switch: the last that it took in this
    /// life. `None` if and only if it took none. Error: want of memory.
    pub fn wanted(&self) -> Result<Option<OwnSnapshot>, AllocError>
        ensures { IfOk result (λ own. own ≡ wanted self.now.node) }
    {
        wanted(&self.node)
    }

    /// The place of that snapshot; 0 if it took none.
    pub fn place_wanted(&self) -> Place
        ensures { result ≡ number_or (option_map (λ own. own.place) (wanted self.now.node)) 0 }
    {
        place_wanted(&self.node)
    }

    /// The number of snapshots that the node took in this life.
    pub fn taken(&self) -> u64
        ensures { result ≡ length self.now.node.taken }
    {
        self.node.taken.len() as u64
    }

    /// The tail of the log beside a checkpoint of a place: the bytes of what the store keeps of the book
    /// there. It has the number of its last entry among those that the node made in this life. Error:
    /// want of memory, also for an entry that no log has room for.
    pub fn tail(&self, place: Place) -> Result<BookTail, AllocError>
        ensures tail { IfOk result (λ t. t ≡ tail_of self.now.node place) }
        ensures fit { IfOk result (λ t. AreTexts t.entries) }
    {
        tail(&self.node, place)
    }

    /// The text that an event completes: what the parts of the plan are joined to, if the event brings
    /// the last one. The node stays. Error: want of memory.
    pub fn completed(&mut self, event: &NodeEvent) -> Result<Option<Bytes>, AllocError>
        ensures text { IfOk result (λ text. option_to_list text ≡ completed_by self.old.node event.now) }
        ensures same { self.new ≡ self.old }
    {
        completed_by(&mut self.node, event)
    }

    /// Takes one event, and then makes one pass of the rules. Of what was kept before, only what is
    /// still needed remains. Error: want of memory.
    ///
    /// After want of memory the node is broken. It holds no message, and none leaves it any more. The
    /// number of firm entries is the one before the event, and so are its snapshots: `wanted` answers
    /// as before.
    pub fn step(&mut self, event: &NodeEvent) -> Result<Outcome, AllocError>
        requires { self.old.broken ≡ false }
        ensures node { OnOk result (self.new.node ≡ (core_step S.meaning self.old.node event.now).node) }
        ensures fired { IfOk result (λ o. o.fired ≡ (core_step S.meaning self.old.node event.now).fired) }
        ensures dropped { IfOk result (λ o. o.dropped ≡ (core_step S.meaning self.old.node event.now).dropped) }
        ensures broken { self.new.broken ≡ is_err result }
        ensures err { OnErr result (IsPartly self.old.node.entries self.new.node.entries (core_step S.meaning self.old.node event.now).node.entries) }
        ensures held { OnErr result (self.new.node.held ≡ []) }
        ensures counts { OnErr result ((self.new.node.firm ≡ self.old.node.firm) × (self.new.node.restored ≡ self.old.node.restored)) }
        ensures snapshots { OnErr result (self.new.node.taken ≡ self.old.node.taken) }
    {
        let firm = self.node.firm;
        let restored = self.node.restored;
        match step(&mut self.node, event) {
            Ok(outcome) => Ok(outcome),
            Err(fault) => {
                self.broken = true;
                self.node.firm = firm;
                self.node.restored = restored;
                self.node.held = Outbox::new(self.node.alloc);
                Err(fault)
            }
        }
    }

    /// Takes the first held message out, if its entries are firm.
    pub fn release(&mut self) -> Option<Held>
        ensures held { result ≡ first_leaving self.old.node.firm self.old.node.held }
        ensures node { self.new.node ≡ record self.old.node { held = after_first self.old.node.firm self.old.node.held } }
        ensures broken { self.new.broken ≡ self.old.broken }
    {
        self.node.release()
    }

    /// Takes the held messages out, in order, up to the first whose entries are not firm. Error: want
    /// of memory; none is taken out then. The cost is linear in the held messages.
    pub fn release_all(&mut self) -> Result<Sequence<Held>, AllocError>
        ensures held { IfOk result (λ left. left ≡ leaving self.old.node.firm self.old.node.held) }
        ensures node { OnOk result (self.new.node ≡ released self.old.node) }
        ensures err { OnErr result (self.new.node ≡ self.old.node) }
        ensures broken { self.new.broken ≡ self.old.broken }
    {
        self.node.release_all()
    }
}
