//! The taking over of a replica whose state has so many MiB, for `bench/transfer.sh`: the plan, the
//! parts as they come, what they are joined to, and the replica.
use crate::done::Stopped;
use crate::snapshot_head::HEAD;
use crate::text::Text;
use crate::wanted::count_of;
use smart_base::cursor::Cursor;
use smart_base::fault::ReadError;
use smart_base::field::put_u32;
use smart_base::name::MemberId;
use smart_base::number::Place;
use smart_base::party::Party;
use smart_base::sequence::{Bytes, Sequence};
use smart_base::view::View;
use smart_base::view_bytes::read_view;
use smart_keys::ring::Ring;
use smart_statements::report::Mark;
use smart_statements::signed::Signed;
use smart_statements::signed_list::SignedList;
use snapshot_form::pieces::digest;
use state_transfer::choice::{Plan, PlanError};
use state_transfer::fetch::{Fetch, FinishError};
use state_transfer::plan::plan;
use state_transfer::seed::seeds;
use std::alloc::{AllocError, Global};
use std::mem::drop;
use transfer_form::transfer::{StateOffer, StatePart};

/// The most MiB of a state.
const MOST: u64 = 11;

/// A replica that was taken over: how many bytes it was joined of, of how many parts, and how many bytes
/// its state has.
#[derive(Clone, Copy, Debug)]
pub struct TakenOver {
    pub bytes: usize,
    pub parts: usize,
    pub state: usize,
}

/// What stands before the state of a replica, with room for a state of so many bytes.
fn headed(alloc: Global, size: u32) -> Result<Vec<u8>, AllocError> {
    let mut out = Vec::with_capacity(alloc, HEAD.len() + 4 + size as usize)?;
    out.extend_from_slice(&HEAD)?;
    put_u32(&mut out, size)?;
    Ok(out)
}

/// The snapshot of a replica whose state has so many bytes.
fn snapshot(alloc: Global, size: u32) -> Result<Bytes, AllocError> {
    let mut out = headed(alloc, size)?;
    for number in 0..size {
        out.push((number % 251) as u8)?;
    }
    Ok(Bytes::from_vec(out))
}

/// The view of the replica.
fn view(alloc: Global) -> Result<View, ReadError> {
    read_view(alloc, &mut Cursor::new(&HEAD[10..33]))
}

/// A member's mark of a snapshot at place 1.
fn mark(alloc: Global, ring: &Ring, member: u16, snapshot: &[u8]) -> Result<Signed<Mark>, Stopped> {
    let mark = Mark {
        place: Place::new(1),
        digest: digest(snapshot),
    };
    let mut sealer = ring.sealer(Party::Member(MemberId::new(member)));
    Ok(Signed::seal(alloc, &mut sealer, member, mark)?)
}

/// The offer of a snapshot of so many bytes, without marks.
fn offers(alloc: Global, size: u32) -> Result<Vec<StateOffer>, AllocError> {
    let mut offers = Vec::new(alloc);
    offers.push(StateOffer {
        member: MemberId::new(2),
        place: Place::new(1),
        size,
        marks: SignedList::new(alloc),
    })?;
    Ok(offers)
}

/// Adds a mark.
fn keep(kept: &mut Vec<Signed<Mark>>, mark: Signed<Mark>) -> Result<(), AllocError> {
    kept.push(mark)?;
    Ok(())
}

/// The plan for a snapshot that members 2 and 3 marked, and member 2 offers.
fn planned(alloc: Global, snapshot: &[u8]) -> Result<Plan, Stopped> {
    let Ok(size) = u32::try_from(snapshot.len()) else {
        return Err(Stopped::Words);
    };
    let ring = Ring::from_secret(Bytes::from_slice(alloc, b"bench")?);
    let mut kept = Vec::new(alloc);
    for member in 2..4 {
        let mark = mark(alloc, &ring, member, snapshot)?;
        keep(&mut kept, mark)?;
    }
    let offers = offers(alloc, size)?;
    let view = view(alloc)?;
    match plan(
        alloc,
        offers.as_slice(),
        kept.as_slice(),
        Place::new(0),
        &view,
    ) {
        Ok(plan) => Ok(plan),
        Err(PlanError::NotYet(_)) => Err(Stopped::Snapshot),
        Err(PlanError::NoMemory) => Err(Stopped::NoMemory),
    }
}

/// The parts that come for a plan.
fn parts(alloc: Global, snapshot: &[u8]) -> Result<Sequence<StatePart>, Stopped> {
    if snapshot.len() >= 1 << 32 {
        return Err(Stopped::Words);
    }
    Ok(seeds(alloc, Place::new(1), snapshot)?)
}

/// A plan with all of its parts. The snapshot that they were taken of is let go.
fn fetched(alloc: Global, size: u32) -> Result<Fetch, Stopped> {
    let snapshot = snapshot(alloc, size)?;
    let mut fetch = Fetch::begin(alloc, planned(alloc, snapshot.as_slice())?);
    let parts = parts(alloc, snapshot.as_slice())?;
    drop(snapshot);
    for part in parts.into_vec() {
        fetch.accept_part(part)?;
    }
    Ok(fetch)
}

/// Takes over a replica whose state has so many bytes.
fn take_over(alloc: Global, size: u32) -> Result<TakenOver, Stopped> {
    let fetch = fetched(alloc, size)?;
    let joined = fetch.join(alloc)?;
    match fetch.finish::<Text>(alloc, joined.as_slice()) {
        Ok(replica) => Ok(TakenOver {
            bytes: joined.len(),
            parts: fetch.parts.len(),
            state: replica.service.bytes.len(),
        }),
        Err(FinishError::Spoiled(_)) => Err(Stopped::Snapshot),
        Err(FinishError::NoMemory) => Err(Stopped::NoMemory),
    }
}

/// Takes over a replica whose state has so many MiB.
pub fn transfer(alloc: Global, words: &str) -> Result<TakenOver, Stopped> {
    let mib = count_of(words)?;
    if mib <= MOST {
        take_over(alloc, (mib * 1_048_576) as u32)
    } else {
        Err(Stopped::Words)
    }
}
