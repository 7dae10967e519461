//! The digest and the keyed digest.
ghost use Rattle.std.specs.Prelude.{◌≡◌, ◌≤◌, ◌++◌, length};
ghost use Rattle.smart_keys.specs.Keys.{digest, zero_filled, block_of, masked, hmac};

use sha2::{Digest, Sha256};
use smart_base::bytes::Digest32;
use smart_base::keys::Digester;

/// How many bytes SHA-256 takes at a time.
const BLOCK: usize = 64;

/// Combined with the key before the text.
pub(crate) const INNER_PAD: u8 = 0x36;

/// Combined with the key before the inner digest.
pub(crate) const OUTER_PAD: u8 = 0x5c;

/// SHA-256.
#[derive(Drop)]
pub struct Sha;

impl Digester for Sha {
    ghost use Rattle.smart_keys.specs.Keys.{digest};

    ghost digested = { digest };

    #[tactic(auto, unfolding(crate::specs::Keys::digest))]
    fn digest(bytes: &[u8]) -> Digest32 {
        Digest32::new(Sha256::digest(bytes))
    }
}

#[tactic(auto, unfolding(crate::specs::Keys::digest))]
fn digest_of_two(first: &[u8], second: &[u8]) -> [u8; 32]
    ensures { result ≡ digest (first.now ++ second.now) }
{
    let mut hasher = Sha256::new();
    hasher.update(first);
    hasher.update(second);
    hasher.finalize()
}

fn zero_filled(bytes: &[u8]) -> [u8; BLOCK]
    requires { length bytes.now ≤ 64 }
    ensures { result ≡ zero_filled bytes.now }
{
    let mut block = [0; BLOCK];
    for (i, byte) in bytes.iter().enumerate() {
        block[i] = *byte;
    }
    block
}

pub(crate) fn block_of(key: &[u8]) -> [u8; BLOCK]
    ensures { result ≡ block_of key.now }
{
    if key.len() <= BLOCK {
        zero_filled(key)
    } else {
        zero_filled(Sha::digest(key).as_slice())
    }
}

pub(crate) fn masked(pad: u8, block: &[u8; BLOCK]) -> [u8; BLOCK]
    ensures { result ≡ masked pad block.now }
{
    let mut out = [0; BLOCK];
    for (i, byte) in block.iter().enumerate() {
        out[i] = *byte ^ pad;
    }
    out
}

/// What a key makes of a text. It takes no memory.
#[tactic(auto, unfolding(crate::specs::Keys::hmac))]
pub fn hmac(key: &[u8], text: &[u8]) -> Digest32
    ensures { result ≡ hmac key.now text.now }
{
    let block = block_of(key);
    let inner = digest_of_two(&masked(INNER_PAD, &block), text);
    Digest32::new(digest_of_two(&masked(OUTER_PAD, &block), &inner))
}
