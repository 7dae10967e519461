//! What members exchange so that one takes over another's replica.
ghost use Rattle.std.specs.Prelude.{◌≡◌, ◌≤◌, length};
ghost use Rattle.smart_base.specs.declared.limits.TheConstants.{PIECE_BYTES};

use smart_base::duplicate::Duplicate;
use smart_base::name::MemberId;
use smart_base::number::Place;
use smart_base::sequence::Bytes;
use smart_statements::batch::Batch;
use smart_statements::report::Mark;
use smart_statements::signed_list::SignedList;
use smart_statements::statement::Ballot;
use std::alloc::{AllocError, Global};
use std::marker::Model;

/// A member's ask for others' state. It has the member's last delivered place. If `fetch` is not 0,
/// it asks for the parts of the snapshot of that place.
#[derive(Clone, Copy)]
pub struct StateAsk {
    pub member: MemberId,
    pub place: Place,
    pub fetch: Place,
}

/// An offer: the place and the number of bytes of the newest snapshot that a member has firm, and
/// marks of its own. Place and size are 0 if it has none. It bears no tag.
pub struct StateOffer {
    pub member: MemberId,
    pub place: Place,
    pub size: u32,
    pub marks: SignedList<Mark>,
}

/// Let go by one call, so that no function that lets one go carries the whole of it.
impl Drop for StateOffer {
    fn drop(self) {
        let StateOffer {
            member: _,
            place: _,
            size: _,
            marks: _,
        } = self;
    }
}

/// A piece of a snapshot: at most 65,536 bytes.
pub struct Piece {
    bytes: Bytes,
}

/// Let go by one call, so that no function that lets one go carries the whole of it.
impl Drop for Piece {
    fn drop(self) {
        let Piece { bytes: _ } = self;
    }
}

impl Model for Piece {
    ghost use Rattle.std.specs.Prelude.{List, ℕ, length, ◌≤◌};
    ghost use Rattle.smart_base.specs.declared.limits.TheConstants.{PIECE_BYTES};

    ghost Value = { List ℕ };

    ghost view = { λ p. p.bytes };

    ghost invariant = { λ p. length p.bytes ≤ PIECE_BYTES };
}

impl Piece {
    pub fn new(bytes: Bytes) -> Self
        requires { length bytes ≤ PIECE_BYTES }
        ensures { result ≡ bytes }
    {
        Piece { bytes }
    }

    pub fn as_slice(&self) -> &[u8]
        ensures value { result.now ≡ self.now }
        ensures short { length result.now ≤ PIECE_BYTES }
    {
        self.bytes.as_slice()
    }
}

/// A part: the piece of a number, from 0, of the snapshot after a place, and how many pieces that
/// snapshot has. It bears no tag.
pub struct StatePart {
    pub place: Place,
    pub index: u32,
    pub total: u32,
    pub bytes: Piece,
}

/// Let go by one call, so that no function that lets one go carries the whole of it.
impl Drop for StatePart {
    fn drop(self) {
        let StatePart {
            place: _,
            index: _,
            total: _,
            bytes: _,
        } = self;
    }
}

/// The batch that was decided at a place, with the ACCEPTs that prove it.
pub struct ProvenBatch {
    pub place: Place,
    pub batch: Batch,
    pub accepts: SignedList<Ballot>,
}

/// Let go by one call, so that no function that lets one go carries the whole of it.
impl Drop for ProvenBatch {
    fn drop(self) {
        let ProvenBatch {
            place: _,
            batch: _,
            accepts: _,
        } = self;
    }
}

impl Duplicate for StateAsk {
    fn duplicate(&self, _alloc: Global) -> Result<StateAsk, AllocError> {
        Ok(*self)
    }
}

impl Duplicate for StateOffer {
    fn duplicate(&self, alloc: Global) -> Result<StateOffer, AllocError> {
        Ok(StateOffer {
            member: self.member,
            place: self.place,
            size: self.size,
            marks: self.marks.duplicate(alloc)?,
        })
    }
}

impl Duplicate for Piece {
    fn duplicate(&self, alloc: Global) -> Result<Piece, AllocError> {
        Ok(Piece {
            bytes: Bytes::from_slice(alloc, self.bytes.as_slice())?,
        })
    }
}

impl Duplicate for StatePart {
    fn duplicate(&self, alloc: Global) -> Result<StatePart, AllocError> {
        Ok(StatePart {
            place: self.place,
            index: self.index,
            total: self.total,
            bytes: self.bytes.duplicate(alloc)?,
        })
    }
}

impl Duplicate for ProvenBatch {
    fn duplicate(&self, alloc: Global) -> Result<ProvenBatch, AllocError> {
        Ok(ProvenBatch {
            place: self.place,
            batch: self.batch.duplicate(alloc)?,
            accepts: self.accepts.duplicate(alloc)?,
        })
    }
}
