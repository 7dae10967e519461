//! What a member looks up in what it keeps.
ghost use Rattle.std.specs.Prelude.{◌≡◌, ◌<◌, ◌^◌, IfOk, filter, filter_map, length, option_map};
ghost use Rattle.std.specs.List.{list_any};
ghost use Rattle.std.specs.Option.{option_copied};
ghost use Rattle.node_rules.specs.Votes.{casts, is_vote, has_vote, has_quorum, certificate, is_named, name_of};
ghost use Rattle.node_rules.specs.Arrivals.{is_same_proposal, is_same_vote};
ghost use Rattle.node_rules.specs.Votes.{vote_for, first_vote, certificate_votes, proposed_in, proposed_for, named_in, accepted_in};

use smart_base::bytes::Digest32;
use smart_base::duplicate::Duplicate;
use smart_base::equality::same_bytes;
use smart_base::name::MemberId;
use smart_base::number::Regency;
use smart_base::sequence::Sequence;
use smart_base::view::View;
use smart_messages::message::{Message, Proposed, proposal_in, vote_in};
use smart_statements::equality::{same_kind, same_slot};
use smart_statements::signed::Signed;
use smart_statements::signed_list::SignedList;
use smart_statements::statement::{Ballot, Slot, VoteKind};
use std::alloc::{AllocError, Global};

/// Whether a ballot is a member's vote of a kind for a slot and a digest.
fn casts(
    kind: VoteKind,
    member: MemberId,
    slot: &Slot,
    digest: &Digest32,
    ballot: &Signed<Ballot>,
) -> bool
    ensures { result ≡ casts kind member slot.now digest.now ballot.now }
{
    let statement = ballot.statement();
    same_kind(statement.kind, kind)
        && ballot.signer() == member.get()
        && same_slot(statement.slot, *slot)
        && same_bytes(statement.digest.as_slice(), digest.as_slice())
}

fn is_vote(
    kind: VoteKind,
    member: MemberId,
    slot: &Slot,
    digest: &Digest32,
    message: &Message,
) -> bool
    ensures { result ≡ is_vote kind member slot.now digest.now message.now }
{
    match vote_in(message) {
        None => false,
        Some(ballot) => casts(kind, member, slot, digest, ballot),
    }
}

fn has_vote(
    arrivals: &[Message],
    kind: VoteKind,
    slot: &Slot,
    digest: &Digest32,
    member: MemberId,
) -> bool
    ensures { result ≡ has_vote arrivals.now kind slot.now digest.now member }
{
    arrivals
        .iter()
        .any(|message| is_vote(kind, member, slot, digest, message))
}

fn count_voters(
    arrivals: &[Message],
    members: &[MemberId],
    kind: VoteKind,
    slot: &Slot,
    digest: &Digest32,
) -> usize
    ensures { result ≡ length (filter (λ member. list_any (is_vote kind member slot.now digest.now) arrivals.now) members.now) }
{
    let mut count = 0;
    for member in members {
        if has_vote(arrivals, kind, slot, digest, *member) {
            count += 1;
        }
    }
    count
}

/// Whether a quorum's votes of a kind for a slot and a digest were kept.
pub fn has_quorum(
    arrivals: &[Message],
    view: &View,
    kind: VoteKind,
    slot: &Slot,
    digest: &Digest32,
) -> bool
    ensures { result ≡ has_quorum arrivals.now view.now kind slot.now digest.now }
{
    view.quorum() <= count_voters(arrivals, view.members(), kind, slot, digest)
}

fn voters(
    alloc: Global,
    arrivals: &[Message],
    members: &[MemberId],
    kind: VoteKind,
    slot: &Slot,
    digest: &Digest32,
) -> Result<Sequence<MemberId>, AllocError>
    ensures { IfOk result (λ found. found ≡ filter (λ member. list_any (is_vote kind member slot.now digest.now) arrivals.now) members.now) }
{
    let mut found = Sequence::new(alloc);
    for member in members {
        if has_vote(arrivals, kind, slot, digest, *member) {
            found.push(*member)?;
        }
    }
    Ok(found)
}

/// The first members by number that make a quorum of kept votes.
fn certificate(
    alloc: Global,
    arrivals: &[Message],
    view: &View,
    kind: VoteKind,
    slot: &Slot,
    digest: &Digest32,
) -> Result<Sequence<MemberId>, AllocError>
    ensures value { IfOk result (λ members. members ≡ certificate arrivals.now view.now kind slot.now digest.now) }
    ensures few { IfOk result (λ members. length members < 2 ^ 16) }
{
    let all = view.members();
    let mut members = voters(alloc, arrivals, all, kind, slot, digest)?;
    members.truncate(view.quorum());
    Ok(members)
}

/// The vote of a member, of a kind for a slot and a digest, that a message is, if it is one.
fn vote_for<'a>(
    kind: VoteKind,
    slot: &Slot,
    digest: &Digest32,
    member: MemberId,
    message: &'a Message,
) -> Option<&'a Signed<Ballot>>
    ensures { option_copied result ≡ vote_for kind slot.now digest.now member message.now }
{
    match vote_in(message) {
        None => None,
        Some(ballot) => {
            if casts(kind, member, slot, digest, ballot) {
                Some(ballot)
            } else {
                None
            }
        }
    }
}

/// The first kept vote of a member.
fn first_vote<'a>(
    arrivals: &'a [Message],
    kind: VoteKind,
    slot: &Slot,
    digest: &Digest32,
    member: MemberId,
) -> Option<&'a Signed<Ballot>>
    ensures { option_copied result ≡ first_vote arrivals.now kind slot.now digest.now member }
{
    for message in arrivals {
        let found = vote_for(kind, slot, digest, member, message);
        if found.is_some() {
            return found;
        }
    }
    None
}

/// Copies of the first votes of some members. Error: want of memory.
fn votes_by(
    alloc: Global,
    arrivals: &[Message],
    members: &[MemberId],
    kind: VoteKind,
    slot: &Slot,
    digest: &Digest32,
) -> Result<SignedList<Ballot>, AllocError>
    requires { length members.now < 2 ^ 16 }
    ensures { IfOk result (λ votes. votes ≡ filter_map (first_vote arrivals.now kind slot.now digest.now) members.now) }
{
    let mut votes = SignedList::new(alloc);
    for member in members {
        match first_vote(arrivals, kind, slot, digest, *member) {
            None => {}
            Some(vote) => votes.push(vote.duplicate(alloc)?)?,
        }
    }
    Ok(votes)
}

/// A certificate: copies of the votes of the first members by number that make a quorum; of all that
/// voted so if they are fewer. Error: want of memory.
pub fn certificate_votes(
    alloc: Global,
    arrivals: &[Message],
    view: &View,
    kind: VoteKind,
    slot: &Slot,
    digest: &Digest32,
) -> Result<SignedList<Ballot>, AllocError>
    ensures { IfOk result (λ votes. votes ≡ certificate_votes arrivals.now view.now kind slot.now digest.now) }
{
    let members = certificate(alloc, arrivals, view, kind, slot, digest)?;
    votes_by(alloc, arrivals, members.as_slice(), kind, slot, digest)
}

/// The proposal for a slot that a message is, if it is one.
fn proposed_in<'a>(slot: &Slot, message: &'a Message) -> Option<&'a Proposed>
    ensures { option_copied result ≡ proposed_in slot.now message.now }
{
    match proposal_in(message) {
        None => None,
        Some(proposed) => {
            if same_slot(proposed.head.statement().slot, *slot) {
                Some(proposed)
            } else {
                None
            }
        }
    }
}

/// The first kept proposal for a slot.
pub fn proposed_for<'a>(arrivals: &'a [Message], slot: &Slot) -> Option<&'a Proposed>
    ensures { option_copied result ≡ proposed_for arrivals.now slot.now }
{
    for message in arrivals {
        let found = proposed_in(slot, message);
        if found.is_some() {
            return found;
        }
    }
    None
}

/// Whether a proposal is for a slot's place in its view, in a given regency or a later one.
fn is_named(slot: &Slot, regency: Regency, proposed: &Proposed) -> bool
    ensures { result ≡ is_named slot.now.view slot.now.place regency proposed.now }
{
    let other = proposed.head.statement().slot;
    other.view == slot.view && other.place == slot.place && regency <= other.regency
}

/// The proposal for a slot's place in its view, in a given regency or a later one, that a message is,
/// if it is one.
fn named_in<'a>(slot: &Slot, regency: Regency, message: &'a Message) -> Option<&'a Proposed>
    ensures { option_map name_of (option_copied result) ≡ named_in slot.now.view slot.now.place regency message.now }
{
    match proposal_in(message) {
        None => None,
        Some(proposed) => {
            if is_named(slot, regency, proposed) {
                Some(proposed)
            } else {
                None
            }
        }
    }
}

/// The first proposal whose batch a quorum accepted in a slot. It is for the slot's place in its
/// view, in a given regency or a later one.
pub fn accepted_proposal<'a>(
    arrivals: &'a [Message],
    view: &View,
    regency: Regency,
    slot: &Slot,
) -> Option<&'a Proposed>
    ensures { option_map name_of (option_copied result) ≡ accepted_in view.now slot.now arrivals.now (filter_map (named_in slot.now.view slot.now.place regency) arrivals.now) }
{
    for message in arrivals {
        if let Some(proposed) = named_in(slot, regency, message) {
            let digest = &proposed.head.statement().digest;
            if has_quorum(arrivals, view, VoteKind::Accept, slot, digest) {
                return Some(proposed);
            }
        }
    }
    None
}

fn is_same_proposal(proposed: &Proposed, message: &Message) -> bool
    ensures { result ≡ is_same_proposal proposed.now message.now }
{
    match proposal_in(message) {
        None => false,
        Some(other) => {
            other.head.signer() == proposed.head.signer()
                && same_slot(other.head.statement().slot, proposed.head.statement().slot)
        }
    }
}

/// Whether the signer's proposal for the slot was kept before.
pub fn repeats_proposal(arrivals: &[Message], proposed: &Proposed) -> bool
    ensures { result ≡ list_any (is_same_proposal proposed.now) arrivals.now }
{
    arrivals
        .iter()
        .any(|message| is_same_proposal(proposed, message))
}

fn is_same_vote(ballot: &Signed<Ballot>, message: &Message) -> bool
    ensures { result ≡ is_same_vote ballot.now message.now }
{
    match vote_in(message) {
        None => false,
        Some(other) => {
            same_kind(other.statement().kind, ballot.statement().kind)
                && other.signer() == ballot.signer()
                && same_slot(other.statement().slot, ballot.statement().slot)
        }
    }
}

/// Whether the signer's vote of this kind for the slot was kept before.
pub fn repeats_vote(arrivals: &[Message], ballot: &Signed<Ballot>) -> bool
    ensures { result ≡ list_any (is_same_vote ballot.now) arrivals.now }
{
    arrivals.iter().any(|message| is_same_vote(ballot, message))
}
