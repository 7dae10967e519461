//! The parts that a member gives of its snapshot.
ghost use Rattle.std.specs.Prelude.{◌≡◌, ◌<◌, ◌≤◌, ◌^◌, length, IfOk};
ghost use Rattle.smart_base.specs.declared.limits.TheConstants.{PIECE_BYTES};
ghost use Rattle.snapshot_form.specs.Snapshots.{piece, pieces, piece_bytes};
ghost use Rattle.state_transfer.specs.Seeds.{seed, seeds};

use smart_base::number::Place;
use smart_base::sequence::{Bytes, Sequence};
use snapshot_form::pieces::{piece, pieces};
use std::alloc::{AllocError, Global};
use transfer_form::transfer::{Piece, StatePart};

/// A copy of the piece of a number; no bytes if there is none. Error: want of memory.
#[tactic(auto, using(crate::proofs::Joined::piece_short))]
fn piece_copied(alloc: Global, snapshot: &[u8], index: u32) -> Result<Bytes, AllocError>
    ensures bytes { IfOk result (λ bytes. bytes ≡ piece_bytes (piece snapshot.now index)) }
    ensures short { IfOk result (λ bytes. length bytes ≤ PIECE_BYTES) }
{
    match piece(snapshot, index) {
        None => Ok(Bytes::new(alloc)),
        Some(bytes) => Ok(Bytes::from_slice(alloc, bytes)?),
    }
}

/// The part of a number. Error: want of memory.
fn seed(
    alloc: Global,
    place: Place,
    snapshot: &[u8],
    index: u32,
    total: u32,
) -> Result<StatePart, AllocError>
    requires { total ≡ pieces snapshot.now }
    ensures { IfOk result (λ part. part ≡ seed place snapshot.now index) }
{
    let bytes = Piece::new(piece_copied(alloc, snapshot, index)?);
    Ok(StatePart {
        place,
        index,
        total,
        bytes,
    })
}

/// How many pieces a snapshot has.
fn total_of(snapshot: &[u8]) -> u32
    requires { length snapshot.now < 2 ^ 32 }
    ensures { result ≡ pieces snapshot.now }
{
    pieces(snapshot) as u32
}

/// The parts of the snapshot after a place, in order. Error: want of memory.
#[tactic(auto, unfolding(crate::specs::Seeds::seeds), using(crate::proofs::Joined::seeds_more))]
pub fn seeds(
    alloc: Global,
    place: Place,
    snapshot: &[u8],
) -> Result<Sequence<StatePart>, AllocError>
    requires { length snapshot.now < 2 ^ 32 }
    ensures { IfOk result (λ parts. parts ≡ seeds place snapshot.now) }
{
    let mut parts = Sequence::new(alloc);
    let total = total_of(snapshot);
    for index in 0..total {
        parts.push(seed(alloc, place, snapshot, index, total)?)?;
    }
    Ok(parts)
}
