//! A snapshot's digest, and its pieces.
ghost use Rattle.std.specs.Prelude.{◌≡◌, ◌+◌, ◌/◌, length, option_copied};
ghost use Rattle.smart_keys.specs.Keys.{digest};
ghost use Rattle.snapshot_form.specs.Snapshots.{piece, pieces};

use smart_base::bytes::Digest32;
use smart_base::keys::Digester;
use smart_base::limits::PIECE_BYTES;
use smart_keys::hash::Sha;

/// The digest of a snapshot.
pub fn digest(bytes: &[u8]) -> Digest32
    ensures { result ≡ digest bytes.now }
{
    Sha::digest(bytes)
}

/// How many pieces a snapshot has.
pub fn pieces(bytes: &[u8]) -> usize
    ensures { result ≡ pieces bytes.now }
{
    (bytes.len() + (PIECE_BYTES - 1)) / PIECE_BYTES
}

/// The piece of this number, from 0, if there is one.
pub fn piece<'a>(bytes: &'a [u8], i: u32) -> Option<&'a [u8]>
    ensures { option_copied result ≡ piece bytes.now i }
{
    let start = PIECE_BYTES * i as usize;
    if bytes.len() <= start {
        return None;
    }
    let (_before, rest) = bytes.split_at(start);
    if rest.len() <= PIECE_BYTES {
        return Some(rest);
    }
    let (front, _behind) = rest.split_at(PIECE_BYTES);
    Some(front)
}
