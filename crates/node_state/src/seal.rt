//! What a member signs and checks, and the digests of batches.
ghost use Rattle.std.specs.Prelude.{◌≡◌, ℕ, List, IfErr, IfOk, length};
ghost use Rattle.std.specs.List.{list_any, list_all};
ghost use Rattle.smart_base.specs.Spelling.{member_kind};
ghost use Rattle.smart_base.specs.declared.keys.SignRefused.TheVariants.{NoMemory};
ghost use Rattle.smart_keys.specs.Keys.{hmac};
ghost use Rattle.smart_statements.specs.Forms.{Form};
ghost use Rattle.smart_statements.specs.Batches.{batch_text};
ghost use Rattle.replica_rules.specs.Seals.{signed, is_verified, digest_of, request_fits, is_managers, fits};
ghost use Rattle.node_rules.specs.Arrivals.{is_batch_for};

use smart_base::bytes::{Digest32, Tag};
use smart_base::equality::same_bytes;
use smart_base::keys::{Digester, SignRefused, Signer};
use smart_base::limits::BATCH_BYTES;
use smart_base::name::MemberId;
use smart_base::party::Party;
use smart_keys::hash::Sha;
use smart_keys::ring::{Ring, Sealer};
use smart_statements::batch::Batch;
use smart_statements::signed::{Signed, Statement};
use smart_statements::statement::Request;
use std::alloc::{AllocError, Global};
use std::marker::Model;

/// A sealer that is lent for one tag, and stays as it is.
#[derive(Drop)]
struct LentSealer<'a> {
    sealer: &'a Sealer,
}

impl<'a> Model for LentSealer<'a> {
    ghost use Rattle.std.specs.Prelude.{List, ℕ};

    ghost Value = { List ℕ };

    ghost view = { λ l. l.sealer.now };
}

impl<'a> Signer for LentSealer<'a> {
    ghost use Rattle.std.specs.Prelude.{◌≡◌};
    ghost use Rattle.smart_base.specs.declared.keys.SignRefused.TheVariants.{NoMemory};
    ghost use Rattle.smart_keys.specs.Keys.{hmac};

    ghost makes = { λ key bytes tag. tag ≡ hmac key bytes };

    ghost refuses = { λ key why. why ≡ NoMemory };

    /// The tag over bytes. The key stays as it is. Error: want of memory.
    fn sign(&mut self, alloc: Global, bytes: &[u8]) -> Result<Tag, SignRefused>
        ensures made { IfOk result (λ tag. tag ≡ hmac self.old bytes.now) }
        ensures refused { IfErr result (λ why. why ≡ NoMemory) }
        ensures later { (text tag : List ℕ) → tag ≡ hmac self.new text → tag ≡ hmac self.old text }
        ensures kept { self.new ≡ self.old }
    {
        Ok(self.sealer.seal(alloc, bytes)?)
    }
}

/// A sealer refuses for want of memory alone.
fn no_memory(_why: SignRefused) -> AllocError
    requires { _why ≡ NoMemory }
{
    AllocError
}

/// A ring that has learnt the keys of members, so that their tags cost less from then on. Error: want
/// of memory.
pub fn taught(mut ring: Ring, members: &[MemberId]) -> Result<Ring, AllocError>
    ensures { IfOk result (λ taught. taught ≡ ring) }
{
    ring.learn_members(members)?;
    Ok(ring)
}

/// The keys of a member: one that checks all tags, and one that makes its own, which is made once.
pub struct MemberKeys {
    member: MemberId,
    ring: Ring,
    sealer: Sealer,
}

/// Let go by one call, so that no function that lets one go carries the whole of it.
impl Drop for MemberKeys {
    fn drop(self) {
        let MemberKeys {
            member: _,
            ring: _,
            sealer: _,
        } = self;
    }
}

impl Model for MemberKeys {
    ghost use Rattle.std.specs.Prelude.{◌≡◌};
    ghost use Rattle.smart_base.specs.declared.party.Party.TheVariants.{Member};
    ghost use Rattle.smart_keys.specs.Keys.{key_of};
    ghost use Rattle.node_state.specs.Keyrings.{Keyring};

    ghost Value = { Keyring };

    ghost view = { λ k. record { member = k.member; secret = k.ring } };

    ghost invariant = { λ k. k.sealer ≡ key_of k.ring (Member k.member) };
}

impl MemberKeys {
    pub fn new(member: MemberId, ring: Ring) -> Self
        ensures { result ≡ record { member = member; secret = ring } }
    {
        let sealer = ring.sealer(Party::Member(member));
        MemberKeys {
            member,
            ring,
            sealer,
        }
    }

    /// Learns the key of a party, so that its tags cost less from then on. Error: want of memory.
    pub fn learn(&mut self, who: Party) -> Result<(), AllocError>
        ensures { self.new ≡ self.old }
    {
        self.ring.learn(who)
    }

    /// Checks a request's tag, and keeps it if it is the signer's, so that it is not made again. Error:
    /// want of memory.
    pub fn check(&mut self, alloc: Global, request: &Signed<Request>) -> Result<(), AllocError>
        ensures { self.new ≡ self.old }
    {
        self.ring.check(
            alloc,
            request.party(),
            request.bytes(),
            request.tag().as_slice(),
        )
    }

    /// The member whose keys these are.
    pub fn member(&self) -> MemberId
        ensures { result ≡ self.now.member }
    {
        self.member
    }

    /// The key that checks all tags.
    pub fn ring(&self) -> &Ring
        ensures { result.now ≡ self.now.secret }
    {
        &self.ring
    }

    /// A statement with the member's signature. Error: want of memory.
    #[tactic(auto, unfolding(smart_keys::specs::Keys::tag_of))]
    pub fn sealed<S: Statement>(&self, alloc: Global, statement: S) -> Result<Signed<S>, AllocError>
        requires { Form.kind S.form ≡ member_kind }
        ensures { IfOk result (λ s. s ≡ signed S.form self.now.secret self.now.member statement) }
    {
        let mut sealer = LentSealer {
            sealer: &self.sealer,
        };
        match Signed::seal(alloc, &mut sealer, self.member.get(), statement) {
            Ok(sealed) => Ok(sealed),
            Err(why) => Err(no_memory(why)),
        }
    }
}

/// Whether the tag is the one that the signer makes.
pub fn is_verified<S: Statement>(ring: &Ring, signed: &Signed<S>) -> bool
    ensures { result ≡ is_verified S.form ring.now signed.now }
{
    signed.verifies(ring)
}
