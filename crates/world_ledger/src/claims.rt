//! The statements in a message whose tags verify, at any depth.
ghost use Rattle.std.specs.Prelude.{◌≡◌, ◌++◌, IfOk, OnOk, map};
ghost use Rattle.world_rules.specs.Secrets.{group_secret};
ghost use Rattle.world_rules.specs.Premises.{claims, claims_in};
ghost use Rattle.world_ledger.specs.Claims.{claims_of, claims_by};
ghost use Rattle.world_ledger.specs.Statements.{claim_of};

use crate::stated::Stated;
use smart_base::keys::Verifier;
use smart_keys::ring::Ring;
use smart_messages::message::{Message, Sealed, statements_in};
use std::alloc::{AllocError, Global};
use world_rules::message::Content;

/// Adds a statement, if its tag verifies.
fn keep(
    alloc: Global,
    ring: &Ring,
    item: &Sealed,
    found: &mut Vec<Stated>,
) -> Result<(), AllocError>
    requires { ring.now ≡ group_secret }
    ensures { OnOk result (map claim_of found.new.items ≡ map claim_of found.old.items ++ claims_of item.now) }
{
    if ring.verifies(item.who, item.text.as_slice(), item.tag.as_slice()) {
        found.push(Stated::new(alloc, item.who, item.text.as_slice())?)?;
    }
    Ok(())
}

/// Adds those of several statements whose tags verify.
fn keep_each(
    alloc: Global,
    ring: &Ring,
    items: &[Sealed],
    found: &mut Vec<Stated>,
) -> Result<(), AllocError>
    requires { ring.now ≡ group_secret }
    ensures { OnOk result (map claim_of found.new.items ≡ map claim_of found.old.items ++ claims_by items.now) }
{
    for item in items {
        keep(alloc, ring, item, found)?;
    }
    Ok(())
}

/// The statements in a message whose tags verify.
fn claims_in(
    alloc: Global,
    ring: &Ring,
    message: &Message,
    found: &mut Vec<Stated>,
) -> Result<(), AllocError>
    requires { ring.now ≡ group_secret }
    ensures { OnOk result (map claim_of found.new.items ≡ map claim_of found.old.items ++ claims_in message.now) }
{
    let items = statements_in(alloc, message)?;
    keep_each(alloc, ring, items.as_slice(), found)?;
    Ok(())
}

/// The statements in a content whose tags verify, at any depth.
pub fn claims(alloc: Global, ring: &Ring, content: &Content) -> Result<Vec<Stated>, AllocError>
    requires { ring.now ≡ group_secret }
    ensures { IfOk result (λ found. map claim_of found.items ≡ claims content.now) }
{
    let mut found = Vec::new(alloc);
    if let Content::Message(message) = content {
        claims_in(alloc, ring, message, &mut found)?;
    }
    Ok(found)
}
