//! Tags under a secret that the parties share.
ghost use Rattle.std.specs.Prelude.{◌≡◌, IfOk, IfErr, IfSome};
ghost use Rattle.smart_base.specs.Lists.{same_bytes};
ghost use Rattle.smart_base.specs.declared.keys.SignRefused.TheVariants.{NoMemory};
ghost use Rattle.smart_keys.specs.Keys.{hmac, party_bytes, key_of};
ghost use Rattle.smart_keys.specs.Known.{is_client, is_kept};

use crate::checked::Checked;
use crate::hash::hmac;
use crate::keyed::KeyedHash;
use crate::known::KnownKeys;
use smart_base::bytes::{Digest32, Tag};
use smart_base::duplicate::Duplicate;
use smart_base::keys::{SignRefused, Signer, Verifier};
use smart_base::limits::LAST_CLIENT;
use smart_base::name::MemberId;
use smart_base::party::Party;
use smart_base::sequence::Bytes;
use std::alloc::{AllocError, Global};
use std::collections::HashMap;
use std::marker::Model;

fn party_bytes(who: Party) -> [u8; 3]
    ensures { result ≡ party_bytes who }
{
    let (kind, number) = match who {
        Party::Member(member) => (1, member.get()),
        Party::Client(client) => (2, client.get()),
    };
    let [high, low] = number.to_be_bytes();
    [kind, high, low]
}

/// Every byte is looked at, wherever the first difference is.
fn same_bytes(a: &[u8], b: &[u8]) -> bool
    ensures { result ≡ same_bytes a.now b.now }
{
    if a.len() != b.len() {
        return false;
    }
    let mut same = true;
    for (i, byte) in a.iter().enumerate() {
        same &= *byte == b[i];
    }
    same
}

/// What makes the tags of one party. It holds the party's key and not the secret, so that it makes
/// no other party's.
pub struct Sealer {
    hash: KeyedHash,
}

/// Let go by one call, so that no function that lets one go carries the whole of it.
impl Drop for Sealer {
    fn drop(self) {
        let Sealer { hash: _ } = self;
    }
}

impl Model for Sealer {
    ghost use Rattle.std.specs.Prelude.{List, ℕ};

    ghost Value = { List ℕ };

    ghost view = { λ s. s.hash };
}

impl Sealer {
    /// The tag over bytes.
    pub fn seal(&self, alloc: Global, bytes: &[u8]) -> Result<Tag, AllocError>
        ensures { IfOk result (λ tag. tag ≡ hmac self.now bytes.now) }
    {
        let tag = self.hash.tag(bytes);
        Ok(Tag::new(Bytes::from_slice(alloc, tag.as_slice())?))
    }
}

impl Signer for Sealer {
    ghost use Rattle.std.specs.Prelude.{◌≡◌};
    ghost use Rattle.smart_base.specs.declared.keys.SignRefused.TheVariants.{NoMemory};
    ghost use Rattle.smart_keys.specs.Keys.{hmac};

    ghost makes = { λ key bytes tag. tag ≡ hmac key bytes };

    ghost refuses = { λ key why. why ≡ NoMemory };

    /// The tag over bytes. Only memory can be wanting, and the key stays.
    fn sign(&mut self, alloc: Global, bytes: &[u8]) -> Result<Tag, SignRefused>
        ensures made { IfOk result (λ tag. tag ≡ hmac self.old bytes.now) }
        ensures refused { IfErr result (λ why. why ≡ NoMemory) }
        ensures kept { self.new ≡ self.old }
    {
        Ok(self.seal(alloc, bytes)?)
    }
}

/// The tags that were checked, by the bytes of their parties: of each client the last.
type CheckedTags = HashMap<[u8; 3], Checked>;

/// What tells the tags of all parties: it holds the secret. Keys that it has learnt are kept, begun, so
/// that a tag of such a party costs less. Tags that it has checked are kept, so that they are not made
/// again.
pub struct Ring {
    secret: Bytes,
    known: KnownKeys,
    checked: CheckedTags,
}

/// Let go by one call, so that no function that lets one go carries the whole of it.
impl Drop for Ring {
    fn drop(self) {
        let Ring {
            secret: _,
            known: _,
            checked: _,
        } = self;
    }
}

impl Model for Ring {
    ghost use Rattle.std.specs.Prelude.{List, ℕ};

    ghost Value = { List ℕ };

    ghost use Rattle.std.specs.Prelude.{nat_eq};
    ghost use Rattle.std.specs.Cmp.Lexicographic.{pointwise};
    ghost use Rattle.std.specs.HashMap.{get};
    ghost use Rattle.smart_keys.specs.Known.{AreKeysOf, AreTagsOf};

    ghost view = { λ r. r.secret };

    // The known keys and the checked tags are made from the secret.
    ghost invariant = { λ r. AreKeysOf r.secret r.known × AreTagsOf r.secret (get (pointwise nat_eq) r.checked) };
}

/// Whether a party is one of the clients that there are: those of a number from 1 to 1,024.
fn is_client(who: &Party) -> bool
    ensures { result ≡ is_client who.now }
{
    match who {
        Party::Member(_) => false,
        Party::Client(client) => {
            let number = client.get();
            1 <= number && number <= LAST_CLIENT
        }
    }
}

/// Whether a ring keeps the key of a party: those of members, and of the clients that there are.
fn is_kept(who: &Party) -> bool
    ensures { result ≡ is_kept who.now }
{
    match who {
        Party::Member(_) => true,
        Party::Client(_) => is_client(who),
    }
}

impl Ring {
    /// A ring that has learnt no key. It takes no memory.
    pub fn from_secret(secret: Bytes) -> Self
        ensures { result ≡ secret }
    {
        let bytes = secret.into_vec();
        let alloc = *bytes.allocator();
        Ring {
            secret: Bytes::from_vec(bytes),
            known: KnownKeys::new(alloc),
            checked: HashMap::new(alloc),
        }
    }

    /// The key of the party of these bytes, if it is known.
    fn known(&self, name: &[u8; 3]) -> Option<&KeyedHash>
        ensures { IfSome result (λ hash. hash.now ≡ hmac self.now name.now) }
    {
        match self.known.find(name) {
            None => None,
            Some(hash) => Some(hash),
        }
    }

    /// The key of the party of these bytes, begun. It takes no memory.
    fn begun(&self, name: &[u8; 3]) -> KeyedHash
        ensures { result ≡ hmac self.now name.now }
    {
        match self.known(name) {
            None => KeyedHash::new(hmac(self.secret.as_slice(), name)),
            Some(hash) => hash.again(),
        }
    }

    /// The tag of the party of these bytes over a text, made from its key. It takes no memory.
    fn made_tag(&self, name: &[u8; 3], text: &[u8]) -> Digest32
        ensures { result ≡ hmac (hmac self.now name.now) text.now }
    {
        match self.known(name) {
            None => hmac(hmac(self.secret.as_slice(), name).as_slice(), text),
            Some(hash) => hash.tag(text),
        }
    }

    /// The tag of the party of these bytes over a text, if it was checked and is kept.
    fn kept_tag(&self, name: &[u8; 3], text: &[u8]) -> Option<Digest32>
        ensures { IfSome result (λ tag. tag ≡ hmac (hmac self.now name.now) text.now) }
    {
        match self.checked.get(name) {
            None => None,
            Some(checked) => checked.tag_of(name, text),
        }
    }

    /// The tag of the party of these bytes over a text. It takes no memory.
    fn tag(&self, name: &[u8; 3], text: &[u8]) -> Digest32
        ensures { result ≡ hmac (hmac self.now name.now) text.now }
    {
        match self.kept_tag(name, text) {
            None => self.made_tag(name, text),
            Some(tag) => tag,
        }
    }

    /// Checks a tag of a client of a number from 1 to 1,024, and keeps it with its text if it is the one
    /// that the client makes, in place of the client's last. No other party's is looked at, nor one over
    /// a text whose tag is kept. What the ring tells stays. Error: want of memory.
    pub fn check(
        &mut self,
        alloc: Global,
        who: Party,
        text: &[u8],
        tag: &[u8],
    ) -> Result<(), AllocError>
        ensures { self.new ≡ self.old }
    {
        if !is_client(&who) {
            return Ok(());
        }
        let name = party_bytes(who);
        if self.kept_tag(&name, text).is_some() {
            return Ok(());
        }
        let right = self.made_tag(&name, text);
        if !same_bytes(right.as_slice(), tag) {
            return Ok(());
        }
        let checked = Checked::new(name, Bytes::from_slice(alloc, text)?, right);
        self.checked.insert(name, checked)?;
        Ok(())
    }

    /// What makes the tags of a party.
    #[tactic(auto, unfolding(crate::specs::Keys::key_of))]
    pub fn sealer(&self, who: Party) -> Sealer
        ensures { result ≡ key_of self.now who }
    {
        Sealer {
            hash: self.begun(&party_bytes(who)),
        }
    }

    /// Learns the key of a member, or of a client of a number from 1 to 1,024, so that its tags cost
    /// less from then on. What the ring tells stays. Error: want of memory.
    pub fn learn(&mut self, who: Party) -> Result<(), AllocError>
        ensures { self.new ≡ self.old }
    {
        if !is_kept(&who) {
            return Ok(());
        }
        self.learn_key(party_bytes(who))
    }

    /// Learns the key of the party of these bytes, unless it is known. Error: want of memory.
    fn learn_key(&mut self, name: [u8; 3]) -> Result<(), AllocError>
        ensures { self.new ≡ self.old }
    {
        if self.known(&name).is_some() {
            return Ok(());
        }
        let hash = KeyedHash::new(hmac(self.secret.as_slice(), &name));
        self.known.put(name, hash)?;
        Ok(())
    }

    /// Learns the keys of members. What the ring tells stays. Error: want of memory.
    pub fn learn_members(&mut self, members: &[MemberId]) -> Result<(), AllocError>
        ensures { self.new ≡ self.old }
    {
        for member in members {
            self.learn(Party::Member(*member))?;
        }
        Ok(())
    }
}

impl Duplicate for Ring {
    /// A copy, which has learnt the same keys and has checked no tag. Error: want of memory.
    fn duplicate(&self, alloc: Global) -> Result<Ring, AllocError> {
        Ok(Ring {
            secret: Bytes::from_slice(alloc, self.secret.as_slice())?,
            known: self.known.duplicate(alloc)?,
            checked: HashMap::new(alloc),
        })
    }
}

impl Verifier for Ring {
    ghost use Rattle.smart_keys.specs.Keys.{is_tag};

    ghost verified = { is_tag };

    #[tactic(auto, unfolding(crate::specs::Keys::is_tag, crate::specs::Keys::tag_of, crate::specs::Keys::key_of))]
    fn verifies(&self, who: Party, bytes: &[u8], tag: &[u8]) -> bool {
        same_bytes(self.tag(&party_bytes(who), bytes).as_slice(), tag)
    }
}
