//! The node itself.
ghost use Rattle.std.specs.Prelude.{◌≡◌, true, length, IfOk, OnOk, OnErr};
ghost use Rattle.std.specs.Option.{option_copied};
ghost use Rattle.vote_book.specs.BookReports.{lock_of};
ghost use Rattle.vote_book.specs.Standing.{own_votes};
ghost use Rattle.node_rules.specs.Nodes.{view_of, regency_of, is_begun, decided_place, open_slot, is_free, is_open, synchronizer_of, holding};
ghost use Rattle.node_rules.specs.Votes.{certificate_votes};
ghost use Rattle.node_rules.specs.Steps.{first_leaving, after_first, leaving, released};

use crate::find::start_at;
use crate::seal::MemberKeys;
use consensus_instance::instance::Instance;
use delivery::replica::KeptReplica;
use node_rules::node::{Held, OwnSnapshot, Target};
use outbox::outbox::Outbox;
use regency_sync::synchronizer::Synchronizer;
use request_pool::pool::RequestPool;
use smart_base::bytes::Digest32;
use smart_base::name::MemberId;
use smart_base::number::{Place, Regency};
use smart_base::sequence::Sequence;
use smart_base::view::View;
use smart_messages::message::Message;
use smart_service::service::Service;
use smart_statements::batch::Batch;
use smart_statements::signed_list::SignedList;
use smart_statements::statement::{Ballot, Slot, VoteKind};
use state_marks::table::MarkTable;
use state_transfer::fetch::Fetch;
use std::alloc::{AllocError, Global};
use std::marker::Model;
use transfer_form::transfer::{ProvenBatch, StateOffer};
use vote_book::book::Book;
use vote_book::entry::Accept;
use vote_book::votes::OwnVotes;

/// The state of a node: its replica, what it has heard, its book, and the messages that wait until
/// entries are firm. The crates of its rules change its fields.
pub struct NodeState<S> {
    pub alloc: Global,
    pub keys: MemberKeys,
    /// The number of places in which each member takes one checkpoint; 0 if none does.
    pub period: u32,
    pub replica: KeptReplica<S>,
    pub waiting: Option<Batch>,
    pub pool: RequestPool,
    /// The proposals and votes that were kept, and what the book says of the next place.
    pub instance: Instance,
    /// The STOPs, STOPDATA and SYNCs that were kept, and what the book says of them.
    pub synchronizer: Synchronizer,
    /// Decided batches that others showed.
    pub decisions: Sequence<ProvenBatch>,
    /// What members state of their replicas.
    pub marks: MarkTable,
    /// What others offered since the node asked last.
    pub offers: Sequence<StateOffer>,
    /// The plan that stands, with the parts that came for it.
    pub fetch: Option<Fetch>,
    pub book: Book,
    /// The snapshot of the checkpoint with which this life began, if there was one.
    pub checkpoint: Option<OwnSnapshot>,
    /// The snapshots that the node took in this life, each at its own turn or from others.
    pub taken: Sequence<OwnSnapshot>,
    /// The number of entries that were restored when this life began.
    pub restored: u64,
    pub firm: u64,
    pub held: Outbox,
    pub proposed: Vec<Slot>,
    pub impatient: bool,
    pub behind: bool,
}

/// Let go by one call, so that no function that lets one go carries the whole of it.
impl<S: Drop> Drop for NodeState<S> {
    fn drop(self) {
        let NodeState {
            alloc: _,
            keys: _,
            period: _,
            replica: _,
            waiting: _,
            pool: _,
            instance: _,
            synchronizer: _,
            decisions: _,
            marks: _,
            offers: _,
            fetch: _,
            book: _,
            checkpoint: _,
            taken: _,
            restored: _,
            firm: _,
            held: _,
            proposed: _,
            impatient: _,
            behind: _,
        } = self;
    }
}

impl<S> Model for NodeState<S> {
    ghost use Rattle.smart_base.specs.Views.{present};
    ghost use Rattle.node_rules.specs.Nodes.{Node};
    ghost use Rattle.node_state.specs.Following.{Follows};

    ghost Value = { Node S };

    ghost view = { λ c. record {
      id = c.keys.member;
      secret = c.keys.secret;
      period = c.period;
      replica = c.replica.replica;
      opening = c.book.opening;
      waiting = c.waiting;
      pool = c.pool;
      arrivals = c.instance.arrivals;
      stops = c.synchronizer.stops;
      reports = c.synchronizer.reports;
      syncs = c.synchronizer.syncs;
      decisions = c.decisions;
      marks = c.marks;
      offers = c.offers;
      fetch = c.fetch;
      entries = c.book.entries;
      checkpoint = c.checkpoint;
      taken = c.taken;
      restored = c.restored;
      firm = c.firm;
      held = c.held;
      proposed = c.proposed.items;
      stop_made = c.synchronizer.stop_made;
      sync_made = c.synchronizer.sync_made;
      impatient = c.impatient;
      behind = c.behind;
    } };

    ghost invariant = { λ c. Follows c.keys.member (present c.replica.replica.views) c.replica.replica.place c.waiting c.book.entries c.instance c.synchronizer };
}

impl<S: Service> NodeState<S> {
    pub fn id(&self) -> MemberId
        ensures { result ≡ self.now.id }
    {
        self.keys.member()
    }

    pub fn place(&self) -> Place
        ensures { result ≡ self.now.replica.place }
    {
        self.replica.replica().place
    }

    pub fn view(&self) -> &View
        ensures { result.now ≡ view_of self.now }
    {
        self.replica.replica().views.present()
    }

    /// The number of entries in the book.
    pub fn made(&self) -> u64
        ensures { result ≡ length self.now.entries }
    {
        self.book.pushed().len() as u64
    }

    pub fn release(&mut self) -> Option<Held>
        ensures held { result ≡ first_leaving self.old.firm self.old.held }
        ensures node { self.new ≡ record self.old { held = after_first self.old.firm self.old.held } }
    {
        self.held.release(self.firm)
    }

    pub fn release_all(&mut self) -> Result<Sequence<Held>, AllocError>
        ensures held { IfOk result (λ left. left ≡ leaving self.old.firm self.old.held) }
        ensures node { OnOk result (self.new ≡ released self.old) }
        ensures err { OnErr result (self.new ≡ self.old) }
    {
        self.held.release_all(self.firm)
    }

    /// The regency in force.
    pub fn regency(&self) -> Regency
        ensures { result ≡ regency_of self.now }
    {
        self.instance.regency()
    }

    /// The node's part in a leader change.
    pub fn synchronizer(&self) -> &Synchronizer
        ensures { result.now ≡ synchronizer_of self.now }
    {
        &self.synchronizer
    }

    /// Whether a regency of the view in force has begun, by the book. For the regency in force the
    /// synchronizer tells it.
    #[tactic(auto, using(crate::proofs::Starts::begun_now, crate::proofs::Starts::begun_by))]
    pub fn is_begun(&self, regency: Regency) -> bool
        ensures { result ≡ is_begun self.now regency }
    {
        if regency == self.regency() {
            return self.synchronizer().is_synced();
        }
        start_at(&self.book, self.view(), regency).is_some()
    }

    pub fn lock(&self) -> Option<&Accept>
        ensures { option_copied result ≡ lock_of (view_of self.now).number self.now.entries }
    {
        self.book.lock(self.view().number())
    }

    /// The node's votes at a place in a regency of the view in force.
    pub fn votes_at(&self, place: u64, regency: Regency) -> OwnVotes
        ensures { result ≡ own_votes (record { view = (view_of self.now).number; place = place; regency = regency }) self.now.entries }
    {
        self.book.votes_at(self.view().number(), place, regency)
    }

    /// The last place that is decided, delivered or not.
    pub fn decided_place(&self) -> Place
        ensures { result ≡ decided_place self.now }
    {
        self.instance.decided_place()
    }

    /// Whether no batch waits, and there is a next place.
    pub fn is_free(&self) -> bool
        ensures { result ≡ is_free self.now }
    {
        self.instance.is_free()
    }

    /// Whether the node's slot is open at the next place.
    pub fn is_open(&self) -> bool
        ensures { result ≡ is_open self.now }
    {
        self.instance.is_open()
    }

    /// The slot in which the node takes part.
    pub fn open_slot(&self) -> Slot
        requires { is_free self.now ≡ true }
        ensures { result ≡ open_slot self.now }
    {
        self.instance.open_slot()
    }

    /// A certificate for a digest in a slot: copies of the kept votes of the first members by number
    /// that make a quorum; of all that voted so if they are fewer. Error: want of memory.
    pub fn certificate(
        &self,
        kind: VoteKind,
        slot: &Slot,
        digest: &Digest32,
    ) -> Result<SignedList<Ballot>, AllocError>
        ensures { IfOk result (λ votes. votes ≡ certificate_votes self.now.arrivals (view_of self.now) kind slot.now digest.now) }
    {
        let votes = self.instance.votes(self.alloc, kind, slot, digest)?;
        Ok(votes)
    }

    /// Puts a message into the outbox, until all entries that the book has now are firm. Error: want
    /// of memory.
    pub fn hold(&mut self, to: Target, message: Message) -> Result<(), AllocError>
        ensures node { OnOk result (self.new ≡ holding self.old to message) }
        ensures err { OnErr result (self.new.entries ≡ self.old.entries) }
        ensures snapshots { OnErr result (self.new.taken ≡ self.old.taken) }
    {
        let needs = self.made();
        self.held.hold(to, message, needs)
    }
}
