//! New nodes, and nodes that restart.
ghost use Rattle.std.specs.Prelude.{◌≡◌, ◌≤◌, [], false, None, IfOk, OnOk};
ghost use Rattle.vote_book.specs.Books.{last_made};
ghost use Rattle.node_state.specs.Following.{Follows};
ghost use Rattle.node_opening.specs.Resuming.{opening_of, begun_with, going_on, gone_on};
ghost use Rattle.node_rules.specs.Steps.{opened, outset};

use consensus_instance::instance::Instance;
use delivery::replica::KeptReplica;
use node_restart::restart::Restart;
use node_rules::node::OwnSnapshot;
use node_state::seal::{MemberKeys, taught};
use node_state::state::NodeState;
use node_state::summary::{Summary, summarize};
use outbox::outbox::Outbox;
use regency_sync::synchronizer::Synchronizer;
use request_pool::pool::RequestPool;
use smart_base::duplicate::Duplicate;
use smart_base::name::MemberId;
use smart_base::number::Place;
use smart_base::sequence::Sequence;
use smart_base::view::View;
use smart_keys::ring::Ring;
use smart_service::service::Service;
use state_marks::table::MarkTable;
use std::alloc::{AllocError, Global};
use vote_book::book::Book;
use vote_book::entry::{LogEntry, Opening};

/// A new node, whose book has the opening alone.
pub fn begin<S: Service>(
    alloc: Global,
    id: MemberId,
    view: View,
    period: u32,
    ring: Ring,
) -> Result<NodeState<S>, AllocError>
    ensures { IfOk result (λ node. node ≡ opened (outset S.meaning ring id view period)) }
{
    let ring = taught(ring, view.members())?;
    let instance = Instance::begin(alloc, id, view.duplicate(alloc)?);
    let synchronizer = Synchronizer::begin(alloc, id, view.duplicate(alloc)?);
    let opening = Opening {
        member: id,
        period,
        view: view.duplicate(alloc)?,
    };
    let replica = KeptReplica::empty(alloc, view)?;
    let mut book = Book::begin(alloc, Place::zero());
    book.end_restored();
    book.push(LogEntry::Opened(opening))?;
    Ok(NodeState {
        alloc,
        keys: MemberKeys::new(id, ring),
        period,
        replica,
        waiting: None,
        pool: RequestPool::new(alloc),
        instance,
        synchronizer,
        decisions: Sequence::new(alloc),
        marks: MarkTable::new(alloc),
        offers: Sequence::new(alloc),
        fetch: None,
        book,
        checkpoint: None,
        taken: Sequence::new(alloc),
        restored: 0,
        firm: 0,
        held: Outbox::new(alloc),
        proposed: Vec::new(alloc),
        impatient: false,
        behind: false,
    })
}

/// What a restarted member keeps beside its book. Error: want of memory.
fn summarize_view(
    alloc: Global,
    id: MemberId,
    view: &View,
    place: Place,
    book: &Book,
) -> Result<Summary, AllocError>
    requires { last_made book.now.entries ≤ place }
    ensures follows { IfOk result (λ found. Follows id view.now place None book.now.entries found.instance found.synchronizer) }
    ensures arrivals { IfOk result (λ found. found.instance.arrivals ≡ []) }
    ensures stops { IfOk result (λ found. found.synchronizer.stops ≡ []) }
    ensures reports { IfOk result (λ found. found.synchronizer.reports ≡ []) }
    ensures syncs { IfOk result (λ found. found.synchronizer.syncs ≡ []) }
    ensures stop_made { IfOk result (λ found. found.synchronizer.stop_made ≡ false) }
    ensures sync_made { IfOk result (λ found. found.synchronizer.sync_made ≡ false) }
{
    let own = view.duplicate(alloc)?;
    let other = view.duplicate(alloc)?;
    Ok(summarize(alloc, id, own, other, place, book))
}

/// Opens a book that has no entry. Error: want of memory.
#[tactic(auto, using(crate::proofs::Resuming::begun_some, crate::proofs::Resuming::begun_none, crate::proofs::Resuming::begun_last))]
fn open_if_empty(
    alloc: Global,
    id: MemberId,
    period: u32,
    view: &View,
    book: &mut Book,
) -> Result<(), AllocError>
    ensures entries { OnOk result (book.new.entries ≡ begun_with (opening_of id period view.now) book.old.entries) }
    ensures opening { OnOk result (book.new.opening ≡ book.old.opening) }
    ensures last { OnOk result (last_made book.new.entries ≡ last_made book.old.entries) }
{
    if !book.pushed().is_empty() {
        return Ok(());
    }
    let opening = Opening {
        member: id,
        period,
        view: view.duplicate(alloc)?,
    };
    book.push(LogEntry::Opened(opening))?;
    Ok(())
}

/// The node that goes on over a replica and a book, of which so many entries were restored. Error: want
/// of memory.
fn go_on<S: Service>(
    alloc: Global,
    id: MemberId,
    period: u32,
    ring: Ring,
    replica: KeptReplica<S>,
    book: Book,
    restored: u64,
    checkpoint: Option<OwnSnapshot>,
) -> Result<NodeState<S>, AllocError>
    requires { last_made book.entries ≤ replica.replica.place }
    ensures { IfOk result (λ node. node ≡ going_on ring id period (record { past = book.opening; replica = replica.replica; entries = book.entries }) restored checkpoint) }
{
    let Summary {
        instance,
        synchronizer,
    } = summarize_view(
        alloc,
        id,
        replica.replica().views.present(),
        replica.replica().place,
        &book,
    )?;
    Ok(NodeState {
        alloc,
        keys: MemberKeys::new(id, ring),
        period,
        replica,
        waiting: None,
        pool: RequestPool::new(alloc),
        instance,
        synchronizer,
        decisions: Sequence::new(alloc),
        marks: MarkTable::new(alloc),
        offers: Sequence::new(alloc),
        fetch: None,
        book,
        checkpoint,
        taken: Sequence::new(alloc),
        restored,
        firm: restored,
        held: Outbox::new(alloc),
        proposed: Vec::new(alloc),
        impatient: false,
        behind: true,
    })
}

/// The node after a restart from what was given back. If no entry was, it opens a new book. Error: want
/// of memory.
#[tactic(auto, using(crate::proofs::Resuming::last_within))]
pub fn resume<S: Service>(
    alloc: Global,
    id: MemberId,
    period: u32,
    ring: Ring,
    back: Restart<S>,
    checkpoint: Option<OwnSnapshot>,
) -> Result<NodeState<S>, AllocError>
    ensures { IfOk result (λ node. node ≡ gone_on ring id period back checkpoint) }
{
    let (replica, mut book) = back.finish();
    let restored = book.pushed().len() as u64;
    open_if_empty(
        alloc,
        id,
        period,
        replica.replica().views.present(),
        &mut book,
    )?;
    let node = go_on(alloc, id, period, ring, replica, book, restored, checkpoint)?;
    Ok(node)
}
