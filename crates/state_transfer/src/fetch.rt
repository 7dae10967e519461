//! A plan with the parts that came for it, and the replica that they make.
ghost use Rattle.std.specs.Prelude.{◌≡◌, ◌++◌, [], IfOk, OnOk, OnErr};
ghost use Rattle.std.specs.List.{list_any};
ghost use Rattle.std.specs.Option.{option_copied};
ghost use Rattle.snapshot_form.specs.Replicas.{FitsReplica};
ghost use Rattle.snapshot_form.specs.Snapshots.{restored, snapshot_text};
ghost use Rattle.state_transfer.specs.Fetches.{pieces_of, length_of, is_wanted, is_numbered, part_fault, kept_unless, answer_of, are_all_there, joined_if, completed, part_at, bytes_in, joined, joined_of, formed, finished, Finishes};
ghost use Rattle.state_transfer.specs.declared.fetch.FinishError.TheVariants.{NoMemory};

use crate::choice::Plan;
use smart_base::bytes::Digest32;
use smart_base::equality::same_bytes;
use smart_base::limits::PIECE_BYTES;
use smart_base::number::Place;
use smart_base::sequence::{Bytes, Sequence};
use smart_service::fault::RestoreError;
use smart_service::replica::Replica;
use smart_service::service::Service;
use snapshot_form::pieces::digest;
use snapshot_form::reading::from_bytes;
use std::alloc::{AllocError, Global};
use transfer_form::transfer::StatePart;

/// A plan, and the parts that were kept for it, in the order in which they came.
pub struct Fetch {
    pub plan: Plan,
    pub parts: Sequence<StatePart>,
}

/// Let go by one call, so that no function that lets one go carries the whole of it.
impl Drop for Fetch {
    fn drop(self) {
        let Fetch { plan: _, parts: _ } = self;
    }
}

/// Why a part is ignored.
#[derive(Clone, Copy, Debug, PartialEq, Eq)]
pub enum Ignored {
    /// The plan does not want it: it is of another place, number or length.
    Unasked,
    /// A part of its number is there.
    Repeated,
}

/// What became of a part.
#[derive(Clone, Copy, Debug, PartialEq, Eq)]
pub enum Accepted {
    Kept,
    Ignored(Ignored),
}

/// Why parts make no replica.
#[derive(Clone, Copy, Debug, PartialEq, Eq)]
pub enum Spoiled {
    /// What was joined has this digest, which is not the plan's.
    Digest { found: Digest32 },
    /// What was joined is the snapshot of no replica of the plan's place.
    Form,
}

/// Why no replica comes of a plan.
#[derive(Debug, Drop)]
pub enum FinishError {
    /// Want of memory.
    NoMemory,
    /// The parts make none.
    Spoiled(Spoiled),
}

impl From<AllocError> for FinishError {
    ghost from_gives = { λ _ e. e ≡ NoMemory };

    fn from(_e: AllocError) -> FinishError {
        FinishError::NoMemory
    }
}

/// How many pieces a snapshot of so many bytes has.
fn pieces_of(size: u32) -> usize
    ensures { result ≡ pieces_of size }
{
    (size as usize + (PIECE_BYTES - 1)) / PIECE_BYTES
}

/// The length of its piece of a number, if there is one.
fn length_of(size: u32, index: u32) -> usize
    ensures { result ≡ length_of size index }
{
    let rest = (size as usize).saturating_sub(PIECE_BYTES * index as usize);
    if rest < PIECE_BYTES {
        rest
    } else {
        PIECE_BYTES
    }
}

/// Whether a plan wants a part.
#[tactic(auto, unfolding(crate::specs::Fetches::is_wanted))]
fn is_wanted(plan: &Plan, part: &StatePart) -> bool
    ensures { result ≡ is_wanted plan.now part.now }
{
    part.place == plan.place
        && part.total as usize == pieces_of(plan.size)
        && part.index < part.total
        && part.bytes.as_slice().len() == length_of(plan.size, part.index)
}

/// Whether a part of a number is there.
fn is_there(parts: &[StatePart], index: u32) -> bool
    ensures { result ≡ list_any (is_numbered index) parts.now }
{
    parts.iter().any(|part| part.index == index)
}

fn part_at(parts: &[StatePart], index: usize) -> Option<&StatePart>
    ensures { option_copied result ≡ part_at parts.now index }
{
    parts.iter().find(|part| part.index as usize == index)
}

/// Adds the bytes of the part of a number, if it is there. Error: want of memory.
fn put_part(out: &mut Vec<u8>, parts: &[StatePart], index: usize) -> Result<(), AllocError>
    ensures { OnOk result (out.new.items ≡ out.old.items ++ bytes_in (part_at parts.now index)) }
{
    match part_at(parts, index) {
        None => Ok(()),
        Some(part) => {
            out.extend_from_slice(part.bytes.as_slice())?;
            Ok(())
        }
    }
}

/// The first parts by number, one after the other. Room for `size` bytes is made at once. Error: want
/// of memory.
#[tactic(auto, using(crate::proofs::Joined::joined_more))]
fn join(alloc: Global, parts: &[StatePart], count: usize, size: usize) -> Result<Bytes, AllocError>
    ensures { IfOk result (λ bytes. bytes ≡ joined parts.now count) }
{
    let mut out = Vec::with_capacity(alloc, size)?;
    for index in 0..count {
        put_part(&mut out, parts, index)?;
    }
    Ok(Bytes::from_vec(out))
}

/// The replica of a place whose snapshot the bytes are, if they are one.
fn formed<S: Service>(
    alloc: Global,
    place: Place,
    snapshot: &[u8],
) -> Result<Replica<S>, FinishError>
    ensures exact { Finishes result (formed place (restored S.meaning snapshot.now)) }
    ensures place { IfOk result (λ r. r.place ≡ place) }
    ensures found { IfOk result (λ r. FitsReplica S.valid r × (snapshot.now ≡ snapshot_text S.meaning r)) }
{
    match from_bytes::<S>(alloc, snapshot) {
        Ok(replica) => {
            if replica.place == place {
                Ok(replica)
            } else {
                Err(FinishError::Spoiled(Spoiled::Form))
            }
        }
        Err(RestoreError::NoMemory) => Err(FinishError::NoMemory),
        Err(RestoreError::BadSnapshot) => Err(FinishError::Spoiled(Spoiled::Form)),
    }
}

impl Fetch {
    /// A plan for which no part came yet. It takes no memory.
    pub fn begin(alloc: Global, plan: Plan) -> Self
        ensures { result ≡ record { plan = plan; parts = [] } }
    {
        Fetch {
            plan,
            parts: Sequence::new(alloc),
        }
    }

    /// Why a part is ignored, if it is. It takes no memory.
    #[tactic(auto, unfolding(crate::specs::Fetches::part_fault))]
    pub fn part_fault(&self, part: &StatePart) -> Option<Ignored>
        ensures { result ≡ part_fault self.now part.now }
    {
        if !is_wanted(&self.plan, part) {
            Some(Ignored::Unasked)
        } else if is_there(self.parts.as_slice(), part.index) {
            Some(Ignored::Repeated)
        } else {
            None
        }
    }

    /// Keeps a part that the plan wants and that is not there, and ignores any other. Error: want of
    /// memory.
    pub fn accept_part(&mut self, part: StatePart) -> Result<Accepted, AllocError>
        ensures answer { IfOk result (λ answer. answer ≡ answer_of (part_fault self.old part)) }
        ensures parts { OnOk result (self.new ≡ kept_unless (part_fault self.old part) self.old part) }
        ensures err { OnErr result (self.new ≡ self.old) }
    {
        match self.part_fault(&part) {
            Some(why) => Ok(Accepted::Ignored(why)),
            None => {
                self.parts.push(part)?;
                Ok(Accepted::Kept)
            }
        }
    }

    /// Whether as many parts are there as the plan has. It takes no memory.
    pub fn are_all_there(&self) -> bool
        ensures { result ≡ are_all_there self.now }
    {
        pieces_of(self.plan.size) <= self.parts.len()
    }

    /// All parts, one after the other, if they are there. Error: want of memory.
    fn join_if(&self, alloc: Global) -> Result<Option<Bytes>, AllocError>
        ensures { IfOk result (λ bytes. bytes ≡ joined_if self.now) }
    {
        if self.are_all_there() {
            Ok(Some(self.join(alloc)?))
        } else {
            Ok(None)
        }
    }

    /// What the parts and one more are joined to, if the plan wants that one and then has all. The parts
    /// stay. Error: want of memory.
    #[tactic(auto, unfolding(crate::specs::Fetches::completed), using(crate::proofs::Joined::parts_before))]
    pub fn completed(&mut self, alloc: Global, part: StatePart) -> Result<Option<Bytes>, AllocError>
        ensures text { IfOk result (λ text. text ≡ completed self.old part) }
        ensures same { self.new ≡ self.old }
    {
        let count = self.parts.len();
        if let Accepted::Ignored(_) = self.accept_part(part)? {
            return Ok(None);
        }
        let text = self.join_if(alloc);
        self.parts.truncate(count);
        text
    }

    /// All parts, one after the other. Error: want of memory.
    #[tactic(auto, unfolding(crate::specs::Fetches::joined_of))]
    pub fn join(&self, alloc: Global) -> Result<Bytes, AllocError>
        ensures { IfOk result (λ bytes. bytes ≡ joined_of self.now) }
    {
        let size = self.plan.size;
        join(alloc, self.parts.as_slice(), pieces_of(size), size as usize)
    }

    /// The replica that the joined parts make. They have to have the digest of the plan, and to be the
    /// snapshot of a replica of its place. Errors: they have not, or are not; want of memory.
    #[tactic(auto, unfolding(crate::specs::Fetches::finished))]
    pub fn finish<S: Service>(
        &self,
        alloc: Global,
        joined: &[u8],
    ) -> Result<Replica<S>, FinishError>
        requires { joined.now ≡ joined_of self.now }
        ensures exact { Finishes result (finished S.meaning self.now) }
        // What is given is of the plan's place, and has what was joined as its snapshot.
        ensures place { IfOk result (λ r. r.place ≡ self.now.plan.place) }
        ensures found { IfOk result (λ r. FitsReplica S.valid r × (joined.now ≡ snapshot_text S.meaning r)) }
    {
        let found = digest(joined);
        if !same_bytes(found.as_slice(), self.plan.digest.as_slice()) {
            return Err(FinishError::Spoiled(Spoiled::Digest { found }));
        }
        formed(alloc, self.plan.place, joined)
    }
}
