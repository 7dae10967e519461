//! The rule that marks.
ghost use Rattle.std.specs.Prelude.{◌≡◌, ◌≤◌, ◌++◌, ◌∷◌, [], IfOk, OnOk, OnErr, option_map};
ghost use Rattle.smart_view.specs.Sizes.{index_of};
ghost use Rattle.snapshot_form.specs.Snapshots.{snapshot_text};
ghost use Rattle.node_rules.specs.Nodes.{recording, holding, signs};
ghost use Rattle.node_rules.specs.Marks.{is_mark_at, is_turn_of, is_own_turn, own_snapshot, takes_snapshot, mark_place, marking, marks_place, marked, wanted};
ghost use Rattle.vote_book.specs.Books.{number_or};
ghost use Rattle.node_state.specs.Broken.{IsPartly};
ghost use Rattle.smart_statements.specs.Reports.{marks};
ghost use Rattle.smart_messages.specs.declared.message.Message.TheVariants as changes;
ghost use Rattle.vote_book.specs.declared.entry.LogEntry.TheVariants as entries;
ghost use Rattle.node_rules.specs.declared.node.Fired.TheVariants as fires;
ghost use Rattle.node_rules.specs.declared.node.Target.TheVariants as targets;

use certificates::collect::view_holding;
use node_rules::node::{Fired, OwnSnapshot, Target};
use node_state::state::NodeState;
use smart_base::duplicate::Duplicate;
use smart_base::name::MemberId;
use smart_base::number::Place;
use smart_base::sequence::{Bytes, Sequence};
use smart_base::view::View;
use smart_messages::message::Message;
use smart_service::service::Service;
use smart_statements::report::Mark;
use smart_view::size::index_of;
use snapshot_form::pieces::digest;
use snapshot_form::writing::to_bytes;
use state_marks::place::{checkpoint_place, is_mark_place};
use std::alloc::AllocError;
use vote_book::entry::LogEntry;

/// Whether the node marks the last delivered place.
fn is_mark_at<S: Service>(node: &NodeState<S>) -> bool
    ensures { result ≡ is_mark_at node.now node.now.replica.place }
{
    match view_holding(node.replica.replica().views.as_slice(), node.place()) {
        None => false,
        Some(view) => 0 < node.period && is_mark_place(view, node.period, node.place()),
    }
}

/// Whether a member of a view takes its checkpoint after a place.
#[tactic(auto, using(crate::proofs::Marking::index_within))]
fn is_turn(view: &View, period: u32, member: MemberId, place: Place) -> bool
    requires { 1 ≤ period }
    ensures { result ≡ is_turn_of view.now period place (index_of view.now member) }
{
    match index_of(view, member) {
        None => false,
        Some(index) => checkpoint_place(view, period, index, place),
    }
}

/// Whether the node takes its checkpoint after the last delivered place.
fn is_own_turn<S: Service>(node: &NodeState<S>) -> bool
    ensures { result ≡ is_own_turn node.now node.now.replica.place }
{
    match view_holding(node.replica.replica().views.as_slice(), node.place()) {
        None => false,
        Some(view) => 0 < node.period && is_turn(view, node.period, node.id(), node.place()),
    }
}

/// The node's signed mark. Error: want of memory.
fn signed_mark<S: Service>(node: &NodeState<S>, mark: &Mark) -> Result<Message, AllocError>
    ensures { IfOk result (λ message. message ≡ changes.Mark (signs node.now marks mark.now)) }
{
    let own = mark.duplicate(node.alloc)?;
    Ok(Message::Mark(node.keys.sealed(node.alloc, own)?))
}

/// Records a mark, and puts it into the outbox. Error: want of memory.
fn state_mark<S: Service>(node: &mut NodeState<S>, mark: Mark) -> Result<(), AllocError>
    ensures node { OnOk result (node.new ≡ holding (recording node.old (entries.Marked mark)) targets.View (changes.Mark (signs node.old marks mark))) }
    ensures err { OnErr result (IsPartly node.old.entries node.new.entries (node.old.entries ++ entries.Marked mark ∷ [])) }
{
    let message = signed_mark(node, &mark)?;
    node.book.push(LogEntry::Marked(mark))?;
    node.hold(Target::View, message)?;
    Ok(())
}

/// Keeps a copy of the node's snapshot. Error: want of memory.
fn keep_snapshot<S: Service>(node: &mut NodeState<S>, snapshot: &Bytes) -> Result<(), AllocError>
    requires { snapshot.now ≡ snapshot_text S.meaning node.old.replica }
    ensures node { OnOk result (node.new ≡ record node.old { taken = node.old.taken ++ own_snapshot S.meaning node.old ∷ [] }) }
    ensures err { OnErr result (node.new.entries ≡ node.old.entries) }
{
    let own = OwnSnapshot {
        place: node.place(),
        snapshot: Bytes::from_slice(node.alloc, snapshot.as_slice())?,
        needs: node.made(),
    };
    node.taken.push(own)?;
    Ok(())
}

/// Keeps a copy of the node's snapshot, if it is its turn. Error: want of memory.
#[tactic(auto, using(crate::proofs::Marking::turn_is, crate::proofs::Marking::no_turn_is))]
fn take_snapshot<S: Service>(node: &mut NodeState<S>, snapshot: &Bytes) -> Result<(), AllocError>
    requires { snapshot.now ≡ snapshot_text S.meaning node.old.replica }
    ensures node { OnOk result (node.new ≡ takes_snapshot S.meaning node.old) }
    ensures err { OnErr result (node.new.entries ≡ node.old.entries) }
{
    if !is_own_turn(node) {
        return Ok(());
    }
    keep_snapshot(node, snapshot)?;
    Ok(())
}

/// Marks the replica, whose snapshot this is. Error: want of memory.
fn mark_place<S: Service>(node: &mut NodeState<S>, snapshot: &Bytes) -> Result<(), AllocError>
    requires { snapshot.now ≡ snapshot_text S.meaning node.old.replica }
    ensures node { OnOk result (node.new ≡ mark_place S.meaning node.old) }
    ensures err { OnErr result (IsPartly node.old.entries node.new.entries (mark_place S.meaning node.old).entries) }
{
    let mark = Mark {
        place: node.place(),
        digest: digest(snapshot.as_slice()),
    };
    state_mark(node, mark)?;
    take_snapshot(node, snapshot)?;
    Ok(())
}

/// Marks the last delivered place, and tells it. Error: want of memory.
fn mark_now<S: Service>(
    node: &mut NodeState<S>,
    fired: &mut Sequence<Fired>,
) -> Result<(), AllocError>
    ensures node { OnOk result (node.new ≡ mark_place S.meaning node.old) }
    ensures fired { OnOk result (fired.new ≡ fired.old ++ fires.Marked (snapshot_text S.meaning node.old.replica) ∷ []) }
    ensures err { OnErr result (IsPartly node.old.entries node.new.entries (mark_place S.meaning node.old).entries) }
{
    let snapshot = to_bytes(node.alloc, node.replica.replica())?;
    mark_place(node, &snapshot)?;
    fired.push(Fired::Marked(snapshot))?;
    Ok(())
}

/// Whether a mark is due: the node has delivered, and the place is one that it marks.
fn marking<S: Service>(node: &NodeState<S>, delivered: bool) -> bool
    ensures { result ≡ marking delivered node.now }
{
    delivered && is_mark_at(node)
}

/// The rule that marks. If the node has delivered, and the place is one after which a member takes its
/// checkpoint, it records and states the digest of its snapshot there. At its own turn it takes its
/// checkpoint (checkpoints in turn: Dura-SMaRt, USENIX ATC 2013). That all mark, and sign it, is this
/// project's own rule. Error: want of memory.
pub fn marks_place<S: Service>(
    node: &mut NodeState<S>,
    delivered: bool,
    fired: &mut Sequence<Fired>,
) -> Result<(), AllocError>
    ensures node { OnOk result (node.new ≡ marks_place S.meaning delivered node.old) }
    ensures fired { OnOk result (fired.new ≡ fired.old ++ marked S.meaning delivered node.old) }
    ensures err { OnErr result (IsPartly node.old.entries node.new.entries (marks_place S.meaning delivered node.old).entries) }
{
    if marking(node, delivered) {
        mark_now(node, fired)?;
    }
    Ok(())
}

/// A copy of the last snapshot that the node took in this life, if it took one. Error: want of memory.
#[tactic(auto, using(crate::proofs::Marking::wanted_is, crate::proofs::Marking::wanted_none))]
pub fn wanted<S: Service>(node: &NodeState<S>) -> Result<Option<OwnSnapshot>, AllocError>
    ensures { IfOk result (λ own. own ≡ wanted node.now) }
{
    match node.taken.as_slice().split_last() {
        None => Ok(None),
        Some((own, _)) => Ok(Some(OwnSnapshot {
            place: own.place,
            snapshot: Bytes::from_slice(node.alloc, own.snapshot.as_slice())?,
            needs: own.needs,
        })),
    }
}

/// The place of the last snapshot that the node took in this life; 0 if it took none.
#[tactic(auto, using(crate::proofs::Marking::wanted_place_is, crate::proofs::Marking::wanted_place_none))]
pub fn place_wanted<S: Service>(node: &NodeState<S>) -> Place
    ensures { result ≡ number_or (option_map (λ own. own.place) (wanted node.now)) 0 }
{
    match node.taken.as_slice().split_last() {
        None => Place::zero(),
        Some((own, _)) => own.place,
    }
}
