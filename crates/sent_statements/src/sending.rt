//! The statements that members have made with the messages that they sent.
ghost use Rattle.std.specs.Prelude.{◌≡◌, ◌++◌, ◌∷◌, [], IfOk, OnOk, map, filter};
ghost use Rattle.std.specs.HashSet.{contains};
ghost use Rattle.std.specs.List.{flat_map};
ghost use Rattle.smart_messages.specs.Messages.{sealed};
ghost use Rattle.trail.specs.declared.event.Addressed.{Addressed};
ghost use Rattle.trail_rules.specs.Replays.{sent_by, sends};
ghost use Rattle.audit_rules.specs.Audits.{is_of, is_by, made_with, made_by, has_sent};
ghost use Rattle.sent_statements.specs.Indexes.{made_sealed, same_made, IsIndex};

use crate::made::{Made, SentIndex, index_of};
use audit_rules::recorded::Recorded;
use smart_base::name::MemberId;
use smart_base::party::Party;
use smart_messages::message::Message;
use smart_statements::signed::{Signed, Statement};
use std::alloc::{AllocError, Global};
use trail::event::TrailEvent;

fn is_of(member: u16, party: Party) -> bool
    ensures { result ≡ is_of member party }
{
    match party {
        Party::Member(id) => id.get() == member,
        Party::Client(_) => false,
    }
}

/// Adds a statement, if the member has signed it.
#[tactic(auto, using(crate::proofs::Makings::own_is, crate::proofs::Makings::other_is))]
fn keep<S: Statement>(
    alloc: Global,
    member: u16,
    signed: &Signed<S>,
    found: &mut Vec<Made>,
) -> Result<(), AllocError>
    ensures { OnOk result (map made_sealed found.new.items ≡ map made_sealed found.old.items ++ filter (is_by member) (sealed S.form signed.now ∷ [])) }
{
    if is_of(member, signed.party()) {
        let id = MemberId::new(member);
        found.push(Made::new(alloc, id, signed.bytes(), signed.tag().as_slice())?)?;
    }
    Ok(())
}

/// Adds those of several statements that the member has signed.
fn keep_each<S: Statement>(
    alloc: Global,
    member: u16,
    items: &[Signed<S>],
    found: &mut Vec<Made>,
) -> Result<(), AllocError>
    ensures { OnOk result (map made_sealed found.new.items ≡ map made_sealed found.old.items ++ filter (is_by member) (map (sealed S.form) items.now)) }
{
    for item in items {
        keep(alloc, member, item, found)?;
    }
    Ok(())
}

/// Adds the statements that a member makes with a message that it sends.
#[tactic(auto, using(smart_messages::proofs::Walks::marked_are))]
fn keep_own(
    alloc: Global,
    member: u16,
    message: &Message,
    found: &mut Vec<Made>,
) -> Result<(), AllocError>
    ensures { OnOk result (map made_sealed found.new.items ≡ map made_sealed found.old.items ++ made_with member message.now) }
{
    match message {
        Message::Ask(request) => keep(alloc, member, request, found),
        Message::Propose(proposed) => keep(alloc, member, &proposed.head, found),
        Message::Vote(ballot) => keep(alloc, member, ballot, found),
        Message::Stop(stop) => keep(alloc, member, stop, found),
        Message::StopData(reported) => keep(alloc, member, &reported.head, found),
        Message::Sync(sync) => keep(alloc, member, sync, found),
        Message::Reply(answer) => keep(alloc, member, answer, found),
        Message::Mark(mark) => keep(alloc, member, mark, found),
        Message::StateOffer(offer) => {
            keep_each(alloc, member, offer.marks.as_slice(), found)?;
            Ok(())
        }
        Message::ViewTold(info) => keep(alloc, member, info, found),
        Message::Decision(_) | Message::StateAsk(_) | Message::StatePart(_) => Ok(()),
    }
}

/// Adds the statements that a member makes by an event of its trail.
fn keep_sent(
    alloc: Global,
    member: u16,
    event: &TrailEvent,
    found: &mut Vec<Made>,
) -> Result<(), AllocError>
    ensures { OnOk result (map made_sealed found.new.items ≡ map made_sealed found.old.items ++ flat_map (λ (a : Addressed). made_with member a.message) (sent_by event.now)) }
{
    match event {
        TrailEvent::Send(addressed) => {
            keep_own(alloc, member, &addressed.message, found)?;
            Ok(())
        }
        TrailEvent::Happens(_) | TrailEvent::Lost(_) | TrailEvent::Polls(_) | TrailEvent::End => {
            Ok(())
        }
    }
}

/// Adds the statements that a member makes by the events of its trail.
fn keep_all_sent(
    alloc: Global,
    member: u16,
    events: &[TrailEvent],
    found: &mut Vec<Made>,
) -> Result<(), AllocError>
    ensures { OnOk result (map made_sealed found.new.items ≡ map made_sealed found.old.items ++ flat_map (λ (a : Addressed). made_with member a.message) (sends events.now)) }
{
    for event in events {
        keep_sent(alloc, member, event, found)?;
    }
    Ok(())
}

/// Adds the statements that a trail's member has made.
fn keep_trail(alloc: Global, trail: &Recorded, found: &mut Vec<Made>) -> Result<(), AllocError>
    ensures { OnOk result (map made_sealed found.new.items ≡ map made_sealed found.old.items ++ made_by trail.now) }
{
    let events = trail.events.as_slice();
    keep_all_sent(alloc, trail.opening.member, events, found)
}

/// Adds the statements that the members of trails have made.
fn keep_trails(alloc: Global, trails: &[Recorded], found: &mut Vec<Made>) -> Result<(), AllocError>
    ensures { OnOk result (map made_sealed found.new.items ≡ map made_sealed found.old.items ++ flat_map made_by trails.now) }
{
    for trail in trails {
        keep_trail(alloc, trail, found)?;
    }
    Ok(())
}

/// An index of the statements that members have sent by their trails. Error: want of memory.
pub fn sent_index(alloc: Global, trails: &[Recorded]) -> Result<SentIndex, AllocError>
    ensures { IfOk result (λ index. IsIndex (contains same_made index) (has_sent trails.now)) }
{
    let mut found = Vec::new(alloc);
    keep_trails(alloc, trails, &mut found)?;
    let index = index_of(alloc, found)?;
    Ok(index)
}
