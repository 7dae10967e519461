//! The statements that came and were not sent.
ghost use Rattle.std.specs.Prelude.{◌≡◌, Bool, IfOk};
ghost use Rattle.std.specs.HashSet.{contains};
ghost use Rattle.smart_messages.specs.Messages.{decoded};
ghost use Rattle.smart_messages.specs.declared.message.Sealed.{Sealed};
ghost use Rattle.audit_rules.specs.Audits.{is_unsent, first_of, sealed_in, stated_found, came_found};
ghost use Rattle.sent_statements.specs.Indexes.{same_made, IsIndex};

use crate::made::{Made, SentIndex};
use audit_rules::recorded::Found;
use smart_base::fault::ReadError;
use smart_base::keys::Verifier;
use smart_base::name::MemberId;
use smart_base::party::Party;
use smart_base::sequence::Sequence;
use smart_keys::ring::Ring;
use smart_messages::codec::decode;
use smart_messages::message::{Sealed, statements_in};
use smart_statements::entry::NodeEvent;
use std::alloc::{AllocError, Global};

/// Whether a member has sent a statement.
fn is_sent(
    alloc: Global,
    index: &SentIndex,
    member: MemberId,
    item: &Sealed,
) -> Result<bool, AllocError>
    requires { item.now.who ≡ Party.Member member }
    ensures { (sent : Sealed → Bool) → IsIndex (contains same_made index.now) sent → IfOk result (λ is. is ≡ sent item.now) }
{
    let made = Made::new(alloc, member, item.text.as_slice(), item.tag.as_slice())?;
    Ok(index.contains(&made))
}

/// Whether a statement is a member's, with the tag that the member makes, and was not sent.
fn is_unsent(
    alloc: Global,
    index: &SentIndex,
    ring: &Ring,
    item: &Sealed,
) -> Result<bool, AllocError>
    ensures { (sent : Sealed → Bool) → IsIndex (contains same_made index.now) sent → IfOk result (λ is. is ≡ is_unsent sent ring.now item.now) }
{
    let Party::Member(member) = item.who else {
        return Ok(false);
    };
    let known = is_sent(alloc, index, member, item)?;
    Ok(!known && ring.verifies(item.who, item.text.as_slice(), item.tag.as_slice()))
}

/// The first of several statements that was not sent. Error: want of memory.
fn first_unsent(
    alloc: Global,
    index: &SentIndex,
    ring: &Ring,
    items: Vec<Sealed>,
) -> Result<Option<Sealed>, AllocError>
    ensures { (sent : Sealed → Bool) → IsIndex (contains same_made index.now) sent → IfOk result (λ first. first ≡ first_of (is_unsent sent ring.now) items.items) }
{
    for item in items {
        if is_unsent(alloc, index, ring, &item)? {
            return Ok(Some(item));
        }
    }
    Ok(None)
}

/// The statements that stand in bytes, at any depth and with any tags. Error: want of memory.
fn sealed_in(alloc: Global, bytes: &[u8]) -> Result<Sequence<Sealed>, AllocError>
    ensures { IfOk result (λ items. items ≡ sealed_in (decoded bytes.now)) }
{
    match decode(alloc, bytes) {
        Ok(message) => statements_in(alloc, &message),
        Err(ReadError::Unread { at: _ }) => Ok(Sequence::new(alloc)),
        Err(ReadError::NoMemory) => Err(AllocError),
    }
}

/// What bytes that came state, and was not sent. Error: want of memory.
fn stated_found(
    alloc: Global,
    index: &SentIndex,
    ring: &Ring,
    bytes: &[u8],
) -> Result<Option<Found>, AllocError>
    ensures { (sent : Sealed → Bool) → IsIndex (contains same_made index.now) sent → IfOk result (λ found. found ≡ stated_found sent ring.now bytes.now) }
{
    let items = sealed_in(alloc, bytes)?;
    match first_unsent(alloc, index, ring, items.into_vec())? {
        Some(item) => Ok(Some(Found::Stated(item))),
        None => Ok(None),
    }
}

/// What came by an event, and was not sent. Error: want of memory.
pub fn came_found(
    alloc: Global,
    index: &SentIndex,
    ring: &Ring,
    event: &NodeEvent,
) -> Result<Option<Found>, AllocError>
    ensures { (sent : Sealed → Bool) → IsIndex (contains same_made index.now) sent → IfOk result (λ found. found ≡ came_found sent ring.now event.now) }
{
    match event {
        NodeEvent::Arrive(bytes) => stated_found(alloc, index, ring, bytes.as_slice()),
        NodeEvent::Tick | NodeEvent::Deliver | NodeEvent::Firm(_) => Ok(None),
    }
}
