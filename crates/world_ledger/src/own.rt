//! The statements in a message that its sender has signed.
ghost use Rattle.std.specs.Prelude.{◌≡◌, ◌++◌, IfOk, OnOk, map, filter};
ghost use Rattle.smart_messages.specs.Messages.{sealed};
ghost use Rattle.world_rules.specs.Secrets.{group_secret};
ghost use Rattle.world_rules.specs.Premises.{claims, claims_in, is_from};
ghost use Rattle.world_ledger.specs.Claims.{claims_of, claims_by};
ghost use Rattle.world_ledger.specs.Statements.{claim_of, is_own};

use crate::stated::Stated;
use smart_base::keys::Verifier;
use smart_base::party::Party;
use smart_keys::ring::Ring;
use smart_messages::message::{Message, Sealed, statements_in};
use smart_statements::signed::{Signed, Statement};
use std::alloc::{AllocError, Global};
use world_rules::message::{Content, Origin, Sent};

fn is_from(party: Party, origin: &Origin) -> bool
    ensures { result ≡ is_from party origin.now }
{
    match party {
        Party::Member(member) => match *origin {
            Origin::Node(id) => member == id,
            Origin::Client(_) | Origin::Script => false,
        },
        Party::Client(client) => match *origin {
            Origin::Client(id) => client == id,
            Origin::Node(_) | Origin::Script => false,
        },
    }
}

/// Adds a statement, if its sender has signed it. No other's tag is checked.
#[tactic(auto, using(crate::proofs::ClaimLaws::own_is, crate::proofs::ClaimLaws::other_is, crate::proofs::ClaimLaws::untagged_is))]
fn keep<S: Statement>(
    alloc: Global,
    ring: &Ring,
    origin: &Origin,
    signed: &Signed<S>,
    found: &mut Vec<Stated>,
) -> Result<(), AllocError>
    requires { ring.now ≡ group_secret }
    ensures { OnOk result (map claim_of found.new.items ≡ map claim_of found.old.items ++ filter (is_own origin.now) (claims_of (sealed S.form signed.now))) }
{
    if is_from(signed.party(), origin) && signed.verifies(ring) {
        found.push(Stated::new(alloc, signed.party(), signed.bytes())?)?;
    }
    Ok(())
}

/// Adds a statement of several, if its sender has signed it. No other's tag is checked.
#[tactic(auto, using(crate::proofs::ClaimLaws::own_is, crate::proofs::ClaimLaws::other_is, crate::proofs::ClaimLaws::untagged_is))]
fn keep_item(
    alloc: Global,
    ring: &Ring,
    origin: &Origin,
    item: &Sealed,
    found: &mut Vec<Stated>,
) -> Result<(), AllocError>
    requires { ring.now ≡ group_secret }
    ensures { OnOk result (map claim_of found.new.items ≡ map claim_of found.old.items ++ filter (is_own origin.now) (claims_of item.now)) }
{
    if is_from(item.who, origin)
        && ring.verifies(item.who, item.text.as_slice(), item.tag.as_slice())
    {
        found.push(Stated::new(alloc, item.who, item.text.as_slice())?)?;
    }
    Ok(())
}

/// Adds those of several statements that their sender has signed.
fn keep_each(
    alloc: Global,
    ring: &Ring,
    origin: &Origin,
    items: &[Sealed],
    found: &mut Vec<Stated>,
) -> Result<(), AllocError>
    requires { ring.now ≡ group_secret }
    ensures { OnOk result (map claim_of found.new.items ≡ map claim_of found.old.items ++ filter (is_own origin.now) (claims_by items.now)) }
{
    for item in items {
        keep_item(alloc, ring, origin, item, found)?;
    }
    Ok(())
}

/// Adds the statements in a message, at any depth, that its sender has signed.
fn keep_within(
    alloc: Global,
    ring: &Ring,
    origin: &Origin,
    message: &Message,
    found: &mut Vec<Stated>,
) -> Result<(), AllocError>
    requires { ring.now ≡ group_secret }
    ensures { OnOk result (map claim_of found.new.items ≡ map claim_of found.old.items ++ filter (is_own origin.now) (claims_in message.now)) }
{
    let items = statements_in(alloc, message)?;
    keep_each(alloc, ring, origin, items.as_slice(), found)?;
    Ok(())
}

/// Adds the statements in a message, at any depth, that its sender has signed. One that stands alone
/// is not copied first.
fn keep_in(
    alloc: Global,
    ring: &Ring,
    origin: &Origin,
    message: &Message,
    found: &mut Vec<Stated>,
) -> Result<(), AllocError>
    requires { ring.now ≡ group_secret }
    ensures { OnOk result (map claim_of found.new.items ≡ map claim_of found.old.items ++ filter (is_own origin.now) (claims_in message.now)) }
{
    match message {
        Message::Ask(request) => keep(alloc, ring, origin, request, found),
        Message::Vote(ballot) => keep(alloc, ring, origin, ballot, found),
        Message::Reply(answer) => keep(alloc, ring, origin, answer, found),
        Message::ViewTold(info) => keep(alloc, ring, origin, info, found),
        Message::Propose(_)
        | Message::Stop(_)
        | Message::StopData(_)
        | Message::Sync(_)
        | Message::Decision(_)
        | Message::Mark(_)
        | Message::StateAsk(_)
        | Message::StateOffer(_)
        | Message::StatePart(_) => keep_within(alloc, ring, origin, message, found),
    }
}

/// The statements in a message that its sender has signed, at any depth.
pub fn own_statements(alloc: Global, ring: &Ring, sent: &Sent) -> Result<Vec<Stated>, AllocError>
    requires { ring.now ≡ group_secret }
    ensures { IfOk result (λ own. map claim_of own.items ≡ filter (is_own sent.now.origin) (claims sent.now.content)) }
{
    let mut own = Vec::new(alloc);
    if let Content::Message(message) = &sent.content {
        keep_in(alloc, ring, &sent.origin, message, &mut own)?;
    }
    Ok(own)
}
