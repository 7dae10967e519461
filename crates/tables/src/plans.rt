//! What a member that lags takes over.
use crate::fault::{RowFault, fault_of};
use crate::proofs_of::{ring, view_of};
use smart_base::cursor::Cursor;
use smart_base::number::Place;
use smart_keys::ring::Ring;
use smart_statements::report::Mark;
use smart_statements::signed_list::SignedList;
use state_transfer::choice::{NotYet, Plan, PlanError};
use state_transfer::plan::{plan, verified};
use std::alloc::Global;
use std::io::Write;
use transfer_form::transfer::StateOffer;

/// The place of eight bytes.
fn place_of(bytes: &[u8]) -> Result<Place, RowFault> {
    let number = Cursor::new(bytes).take_u64().or(Err(RowFault::Word))?;
    if number >> 63 == 0 {
        Ok(Place::new(number))
    } else {
        Err(RowFault::Word)
    }
}

/// The offer of bytes, without the marks whose tags do not verify.
fn offer_of(alloc: Global, ring: &Ring, bytes: &[u8]) -> Result<StateOffer, RowFault> {
    match StateOffer::read(alloc, &mut Cursor::new(bytes)) {
        Ok(offer) => Ok(verified(alloc, ring, &offer)?),
        Err(error) => Err(fault_of(error)),
    }
}

fn offers_of(alloc: Global, ring: &Ring, heads: &[Vec<u8>]) -> Result<Vec<StateOffer>, RowFault> {
    let mut offers = Vec::new(alloc);
    for bytes in heads {
        offers.push(offer_of(alloc, ring, bytes.as_slice())?)?;
    }
    Ok(offers)
}

fn marks_of(alloc: Global, bytes: &[u8]) -> Result<SignedList<Mark>, RowFault> {
    match SignedList::<Mark>::read(alloc, &mut Cursor::new(bytes)) {
        Ok(marks) => Ok(marks),
        Err(error) => Err(fault_of(error)),
    }
}

/// A plan: its place, its seeder and the size that it states, how many marks it has, and the first byte
/// of its digest.
fn told_plan(alloc: Global, plan: &Plan) -> Result<String, RowFault> {
    let (place, seeder, size) = (plan.place.get(), plan.seeder.get(), plan.size);
    let (marks, letter) = (plan.marks.len(), plan.digest.get()[0]);
    Ok(format!(in alloc; "{place}/{seeder}/{size}/{marks}/{letter:02x}")?)
}

/// The most equal marks, and how many a plan needs.
fn told_not_yet(alloc: Global, why: NotYet) -> Result<String, RowFault> {
    let NotYet { agreeing, need } = why;
    Ok(format!(in alloc; "{agreeing}:{need}")?)
}

fn told(alloc: Global, planned: Result<Plan, PlanError>) -> Result<String, RowFault> {
    match planned {
        Ok(plan) => told_plan(alloc, &plan),
        Err(PlanError::NotYet(why)) => told_not_yet(alloc, why),
        Err(PlanError::NoMemory) => Err(RowFault::NoMemory),
    }
}

/// What a member takes over, by a view, its place, its offers, and the marks that it kept.
pub fn told_of_plan(alloc: Global, heads: &[Vec<u8>], bytes: &[u8]) -> Result<String, RowFault> {
    let (view, heads) = heads.split_first().ok_or(RowFault::Word)?;
    let (place, heads) = heads.split_first().ok_or(RowFault::Word)?;
    let view = view_of(alloc, view.as_slice())?;
    let place = place_of(place.as_slice())?;
    let ring = ring(alloc)?;
    let offers = offers_of(alloc, &ring, heads)?;
    let marks = marks_of(alloc, bytes)?;
    told(
        alloc,
        plan(alloc, offers.as_slice(), marks.as_slice(), place, &view),
    )
}
