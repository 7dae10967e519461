//! Keyed digests that are begun once for each key.
ghost use Rattle.std.specs.Prelude.{◌≡◌, ◌++◌, ℕ, List};
ghost use Rattle.sha2.specs.Hashers.{Holds256};
ghost use Rattle.smart_keys.specs.Keys.{digest, hmac};

use crate::hash::{INNER_PAD, OUTER_PAD, block_of, masked};
use sha2::{Digest, Sha256};
use smart_base::bytes::Digest32;
use smart_base::duplicate::Duplicate;
use std::alloc::{AllocError, Global};
use std::marker::Model;

/// The state of SHA-256 after some bytes.
fn begun(bytes: &[u8]) -> Sha256
    ensures { Holds256 result bytes.now }
{
    let mut state = Sha256::new();
    state.update(bytes);
    state
}

/// A state once more. It takes no memory.
fn again(state: &Sha256) -> Sha256
    ensures { result ≡ state.now }
{
    state.clone().unwrap()
}

/// The digest of a text whose first bytes a state has taken.
#[tactic(auto, unfolding(crate::specs::Keys::digest))]
fn ended(state: &Sha256, text: &[u8]) -> [u8; 32]
    ensures { (front : List ℕ) → Holds256 state.now front → result ≡ digest (front ++ text.now) }
{
    let mut taken = again(state);
    taken.update(text);
    taken.finalize()
}

/// The keyed digest of a key, begun: what the blocks of the key leave is kept, so that a text costs
/// its own blocks alone.
pub struct KeyedHash {
    key: Digest32,
    /// The state after the inner block of the key.
    inner: Sha256,
    /// The state after the outer block of the key.
    outer: Sha256,
}

/// Let go by one call, so that no function that lets one go carries the whole of it.
impl Drop for KeyedHash {
    fn drop(self) {
        let KeyedHash {
            key: _,
            inner: _,
            outer: _,
        } = self;
    }
}

impl Model for KeyedHash {
    ghost use Rattle.std.specs.Prelude.{List, ℕ};
    ghost use Rattle.smart_keys.specs.Begun.{IsBegun};

    ghost Value = { List ℕ };

    ghost view = { λ h. h.key };

    // The states are those with which the key's digests begin.
    ghost invariant = { λ h. IsBegun h.key h.inner h.outer };
}

impl KeyedHash {
    pub fn new(key: Digest32) -> Self
        ensures { result ≡ key }
    {
        let block = block_of(key.as_slice());
        KeyedHash {
            key,
            inner: begun(&masked(INNER_PAD, &block)),
            outer: begun(&masked(OUTER_PAD, &block)),
        }
    }

    /// The same once more. It takes no memory.
    pub fn again(&self) -> Self
        ensures { result ≡ self.now }
    {
        KeyedHash {
            key: self.key,
            inner: again(&self.inner),
            outer: again(&self.outer),
        }
    }

    /// What the key makes of a text. It takes no memory.
    pub fn tag(&self, text: &[u8]) -> Digest32
        ensures { result ≡ hmac self.now text.now }
    {
        let inner = ended(&self.inner, text);
        Digest32::new(ended(&self.outer, &inner))
    }
}

impl Duplicate for KeyedHash {
    fn duplicate(&self, _alloc: Global) -> Result<KeyedHash, AllocError> {
        Ok(self.again())
    }
}
