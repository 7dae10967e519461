//! What a member that asks for state is given: an offer and the decisions of its next places, or the
//! parts of a snapshot.
ghost use Rattle.std.specs.Prelude.{◌≡◌, ◌-◌, ◌<◌, ◌^◌, ◌++◌, nat_lt, length, drop, filter, map, IfOk, OnOk, OnErr};
ghost use Rattle.std.specs.Option.{option_copied, option_to_list};
ghost use Rattle.smart_messages.specs.Messages.{kept_if};
ghost use Rattle.smart_statements.specs.declared.report.Mark.{Mark};
ghost use Rattle.node_rules.specs.Marks.{newest_firm};
ghost use Rattle.smart_statements.specs.Reports.{marks};
ghost use Rattle.transfer_form.specs.declared.transfer.StatePart.{StatePart};
ghost use Rattle.state_transfer.specs.Seeds.{seeds};
ghost use Rattle.node_answers.specs.Answering.{made_past, is_made_past};
ghost use Rattle.node_rules.specs.Nodes.{signs, holding_all};
ghost use Rattle.node_rules.specs.Transfers.{mark_made, marks_past, offered_marks, place_of_snapshot, size_of_snapshot, offer_for, decides_at, decided_at, shown_as, shown_at, shown_after, offers_state, gives_parts, answers_state};
ghost use Rattle.smart_messages.specs.declared.message.Message.TheVariants as changes;
ghost use Rattle.node_rules.specs.declared.node.Target.TheVariants as targets;

use node_rules::node::{OwnSnapshot, Target};
use node_state::snapshots::{firm_at, newest_firm};
use node_state::state::NodeState;
use smart_base::duplicate::Duplicate;
use smart_base::limits::MARKS;
use smart_base::name::MemberId;
use smart_base::number::Place;
use smart_base::sequence::Sequence;
use smart_messages::message::Message;
use smart_service::service::Service;
use smart_statements::report::Mark;
use smart_statements::signed_list::SignedList;
use state_transfer::seed::seeds;
use std::alloc::{AllocError, Global};
use transfer_form::transfer::{ProvenBatch, StateAsk, StateOffer, StatePart};
use vote_book::entry::{Decision, LogEntry};

/// The places past its own of which a member that asks is shown the decisions.
const SHOWN: u64 = 8;

/// The mark that an entry is, if it is one.
fn mark_in(entry: &LogEntry) -> Option<&Mark>
    ensures { option_copied result ≡ mark_made entry.now }
{
    match entry {
        LogEntry::Marked(mark) => Some(mark),
        LogEntry::Opened(_)
        | LogEntry::Wrote(_)
        | LogEntry::Accepted(_)
        | LogEntry::Promised(_)
        | LogEntry::Synced(_)
        | LogEntry::Decided(_)
        | LogEntry::Installed(_) => None,
    }
}

/// The mark that an entry is, if it is one of a place past this one.
fn mark_past(entry: &LogEntry, place: Place) -> Option<&Mark>
    ensures { option_copied result ≡ kept_if (λ (m : Mark). nat_lt place m.place) (mark_made entry.now) }
{
    match mark_in(entry) {
        None => None,
        Some(mark) => if place < mark.place { Some(mark) } else { None },
    }
}

/// Whether an entry is a mark of a place past this one.
fn is_made_past(entry: &LogEntry, place: Place) -> bool
    ensures { result ≡ is_made_past place entry.now }
{
    mark_past(entry, place).is_some()
}

fn count_made(entries: &[LogEntry], place: Place) -> usize
    ensures { result ≡ length (filter (is_made_past place) entries.now) }
{
    entries
        .iter()
        .filter(|entry| is_made_past(entry, place))
        .count()
}

/// How many marks of places past this one a book has.
fn count_past(entries: &[LogEntry], place: Place) -> usize
    ensures { result ≡ length (marks_past place entries.now) }
{
    count_made(entries, place)
}

/// Adds a copy of the mark that an entry is, if it is one of a place past this one. So many first ones
/// are left out. How many are still to be left out is given. Error: want of memory.
#[tactic(auto, using(crate::proofs::Answering::drop_none, crate::proofs::Answering::drop_one))]
fn add_mark(
    alloc: Global,
    found: &mut Sequence<Mark>,
    entry: &LogEntry,
    place: Place,
    skipped: usize,
) -> Result<usize, AllocError>
    ensures found { OnOk result (found.new ≡ found.old ++ drop skipped (option_to_list (made_past place entry.now))) }
    ensures rest { IfOk result (λ rest. rest ≡ skipped - length (option_to_list (made_past place entry.now))) }
{
    match mark_past(entry, place) {
        None => Ok(skipped),
        Some(mark) => {
            if 0 < skipped {
                Ok(skipped - 1)
            } else {
                found.push(mark.duplicate(alloc)?)?;
                Ok(0)
            }
        }
    }
}

/// Copies of a book's marks of places past this one, without so many first ones. Error: want of memory.
#[tactic(auto, using(crate::proofs::Answering::drop_none, crate::proofs::Answering::marks_on))]
fn last_marks(
    alloc: Global,
    entries: &[LogEntry],
    place: Place,
    skipped: usize,
) -> Result<Sequence<Mark>, AllocError>
    ensures { IfOk result (λ found. found ≡ drop skipped (marks_past place entries.now)) }
{
    let mut found = Sequence::new(alloc);
    let mut left = skipped;
    for entry in entries {
        left = add_mark(alloc, &mut found, entry, place, left)?;
    }
    Ok(found)
}

/// Marks, signed anew. Error: want of memory.
fn signed_marks<S: Service>(
    node: &NodeState<S>,
    own: Sequence<Mark>,
) -> Result<SignedList<Mark>, AllocError>
    requires { length own < 2 ^ 16 }
    ensures { IfOk result (λ list. list ≡ map (λ (m : Mark). signs node.now marks m) own) }
{
    let mut list = SignedList::new(node.alloc);
    for mark in own.into_vec() {
        list.push(node.keys.sealed(node.alloc, mark)?)?;
    }
    Ok(list)
}

/// The node's last 64 marks of places past this one, signed anew. Error: want of memory.
fn offered_marks<S: Service>(
    node: &NodeState<S>,
    place: Place,
) -> Result<SignedList<Mark>, AllocError>
    ensures { IfOk result (λ list. list ≡ offered_marks node.now place) }
{
    let entries = node.book.pushed();
    let skipped = count_past(entries, place).saturating_sub(MARKS);
    let own = last_marks(node.alloc, entries, place, skipped)?;
    signed_marks(node, own)
}

/// The place of a snapshot, and its length; 0 and 0 without one. Error: it is longer than a message can
/// say.
fn size_of(own: Option<&OwnSnapshot>) -> Result<(Place, u32), AllocError>
    ensures place { IfOk result (λ found. found.0 ≡ place_of_snapshot (option_copied own.entry)) }
    ensures size { IfOk result (λ found. found.1 ≡ size_of_snapshot (option_copied own.entry)) }
{
    match own {
        None => Ok((Place::zero(), 0)),
        Some(own) => {
            let len = own.snapshot.len();
            if len < 1 << 32 {
                Ok((own.place, len as u32))
            } else {
                Err(AllocError)
            }
        }
    }
}

/// The offer to a member at a place. Error: want of memory.
#[tactic(auto, unfolding(node_rules::specs::Transfers::offer_for))]
fn offer_for<S: Service>(node: &NodeState<S>, asked: Place) -> Result<StateOffer, AllocError>
    ensures { IfOk result (λ offer. offer ≡ offer_for node.now asked) }
{
    let (place, size) = size_of(newest_firm(node))?;
    Ok(StateOffer {
        member: node.id(),
        place,
        size,
        marks: offered_marks(node, asked)?,
    })
}

/// The decision of a place that an entry is, if it is one.
fn decides_at(place: u64, entry: &LogEntry) -> Option<&Decision>
    ensures { option_copied result ≡ decides_at place entry.now }
{
    match entry {
        LogEntry::Decided(decision) => if decision.slot.place.get() == place {
            Some(decision)
        } else {
            None
        },
        LogEntry::Opened(_)
        | LogEntry::Wrote(_)
        | LogEntry::Accepted(_)
        | LogEntry::Promised(_)
        | LogEntry::Synced(_)
        | LogEntry::Installed(_)
        | LogEntry::Marked(_) => None,
    }
}

/// The first decision of a place in a book.
fn decided_at(place: u64, entries: &[LogEntry]) -> Option<&Decision>
    ensures { option_copied result ≡ decided_at place entries.now }
{
    for entry in entries {
        let found = decides_at(place, entry);
        if found.is_some() {
            return found;
        }
    }
    None
}

/// A decision as it is shown to others. Error: want of memory.
fn shown_as(alloc: Global, decision: &Decision) -> Result<Message, AllocError>
    ensures { IfOk result (λ m. m ≡ changes.Decision (shown_as decision.now)) }
{
    Ok(Message::Decision(ProvenBatch {
        place: decision.slot.place,
        batch: decision.batch.duplicate(alloc)?,
        accepts: decision.accepts.duplicate(alloc)?,
    }))
}

/// Shows a member the decision of a place, if the place is past the offered snapshot's and delivered, and
/// the book has it. Error: want of memory.
fn show_at<S: Service>(
    node: &mut NodeState<S>,
    member: MemberId,
    offered: Place,
    place: u64,
) -> Result<(), AllocError>
    requires { offered ≡ place_of_snapshot (newest_firm node.old) }
    ensures node { OnOk result (node.new ≡ holding_all node.old (targets.Node member) (option_to_list (shown_at node.old place))) }
    ensures err { OnErr result (node.new.entries ≡ node.old.entries) }
    ensures snapshots { OnErr result (node.new.taken ≡ node.old.taken) }
{
    if place <= offered.get() || node.place().get() < place {
        return Ok(());
    }
    let Some(decision) = decided_at(place, node.book.pushed()) else {
        return Ok(());
    };
    let shown = shown_as(node.alloc, decision)?;
    node.hold(Target::Node(member), shown)
}

/// Shows a member the decisions of its next eight places. Error: want of memory.
fn show_after<S: Service>(
    node: &mut NodeState<S>,
    member: MemberId,
    offered: Place,
    asked: Place,
) -> Result<(), AllocError>
    requires { offered ≡ place_of_snapshot (newest_firm node.old) }
    ensures node { OnOk result (node.new ≡ holding_all node.old (targets.Node member) (shown_after node.old asked)) }
    ensures err { OnErr result (node.new.entries ≡ node.old.entries) }
    ensures snapshots { OnErr result (node.new.taken ≡ node.old.taken) }
{
    for count in 0..SHOWN {
        show_at(node, member, offered, asked.get() + 1 + count)?;
    }
    Ok(())
}

/// Offers state to a member that asks, and shows it the decisions of its next eight places. Error: want
/// of memory.
#[tactic(auto, unfolding(node_rules::specs::Transfers::offers_state))]
fn offers_state<S: Service>(node: &mut NodeState<S>, ask: StateAsk) -> Result<(), AllocError>
    ensures node { OnOk result (node.new ≡ offers_state node.old ask) }
    ensures err { OnErr result (node.new.entries ≡ node.old.entries) }
    ensures snapshots { OnErr result (node.new.taken ≡ node.old.taken) }
{
    let offer = offer_for(node, ask.place)?;
    let offered = offer.place;
    node.hold(Target::Node(ask.member), Message::StateOffer(offer))?;
    show_after(node, ask.member, offered, ask.place)
}

/// The parts of a snapshot. Errors: want of memory; the snapshot is longer than its parts can say.
fn parts_of(alloc: Global, own: &OwnSnapshot) -> Result<Sequence<StatePart>, AllocError>
    ensures { IfOk result (λ parts. parts ≡ seeds own.now.place own.now.snapshot) }
{
    if own.snapshot.len() >= 1 << 32 {
        return Err(AllocError);
    }
    seeds(alloc, own.place, own.snapshot.as_slice())
}

/// Puts the parts of a snapshot into the outbox. Error: want of memory.
fn hold_parts<S: Service>(
    node: &mut NodeState<S>,
    member: MemberId,
    parts: Sequence<StatePart>,
) -> Result<(), AllocError>
    ensures node { OnOk result (node.new ≡ holding_all node.old (targets.Node member) (map (λ (p : StatePart). changes.StatePart p) parts)) }
    ensures err { OnErr result (node.new.entries ≡ node.old.entries) }
    ensures snapshots { OnErr result (node.new.taken ≡ node.old.taken) }
{
    for part in parts.into_vec() {
        node.hold(Target::Node(member), Message::StatePart(part))?;
    }
    Ok(())
}

/// Gives a member the parts of a snapshot. Error: want of memory.
#[tactic(auto, unfolding(node_rules::specs::Transfers::gives_parts))]
fn gives_parts<S: Service>(node: &mut NodeState<S>, ask: StateAsk) -> Result<(), AllocError>
    ensures node { OnOk result (node.new ≡ gives_parts node.old ask) }
    ensures err { OnErr result (node.new.entries ≡ node.old.entries) }
    ensures snapshots { OnErr result (node.new.taken ≡ node.old.taken) }
{
    let Some(own) = firm_at(node, ask.fetch) else {
        return Ok(());
    };
    let parts = parts_of(node.alloc, own)?;
    hold_parts(node, ask.member, parts)
}

/// Answers a member that asks for state. Error: want of memory.
#[tactic(auto, unfolding(node_rules::specs::Transfers::answers_state))]
pub fn answers_state<S: Service>(node: &mut NodeState<S>, ask: StateAsk) -> Result<(), AllocError>
    ensures node { OnOk result (node.new ≡ answers_state node.old ask) }
    ensures err { OnErr result (node.new.entries ≡ node.old.entries) }
    ensures snapshots { OnErr result (node.new.taken ≡ node.old.taken) }
{
    if ask.fetch == Place::zero() {
        offers_state(node, ask)
    } else {
        gives_parts(node, ask)
    }
}
