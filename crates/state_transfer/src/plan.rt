//! Which snapshot a member that lags takes over, and from whom.
ghost use Rattle.std.specs.Prelude.{◌≡◌, ◌==◌, ◌<◌, ◌^◌, ◌++◌, length, take, filter, filter_map, IfOk, OnOk};
ghost use Rattle.std.specs.List.{list_any};
ghost use Rattle.std.specs.Option.{option_copied};
ghost use Rattle.transfer_form.specs.declared.transfer.StateOffer.{StateOffer};
ghost use Rattle.smart_statements.specs.Reports.{marks};
ghost use Rattle.replica_rules.specs.Seals.{is_verified};
ghost use Rattle.state_transfer.specs.Plans.{verified_offer, is_offered, counts, usable, greater, most, not_yet, first_mark, certificate, goes_before, lower, seeder_of, mark_of, seeded, planned, Plans};

use crate::choice::{NotYet, Plan, PlanError, Seeder};
use smart_base::bytes::Digest32;
use smart_base::duplicate::Duplicate;
use smart_base::name::MemberId;
use smart_base::number::{Place, ViewNo};
use smart_base::sequence::Sequence;
use smart_base::view::View;
use smart_keys::ring::Ring;
use smart_statements::report::Mark;
use smart_statements::signed::Signed;
use smart_statements::signed_list::SignedList;
use state_marks::counting::{certified, count_markers, is_mark_of};
use std::alloc::{AllocError, Global};
use transfer_form::transfer::StateOffer;

/// Copies of the marks whose tags verify. Error: want of memory.
fn verified_marks(
    alloc: Global,
    ring: &Ring,
    stated: &[Signed<Mark>],
) -> Result<SignedList<Mark>, AllocError>
    requires { length stated.now < 2 ^ 16 }
    ensures { IfOk result (λ list. list ≡ filter (is_verified marks ring.now) stated.now) }
{
    let mut found = Sequence::new(alloc);
    for mark in stated {
        if mark.verifies(ring) {
            found.push(mark.duplicate(alloc)?)?;
        }
    }
    Ok(SignedList::from_list(found))
}

/// An offer without the marks whose tags do not verify. Error: want of memory.
pub fn verified(alloc: Global, ring: &Ring, offer: &StateOffer) -> Result<StateOffer, AllocError>
    ensures { IfOk result (λ kept. kept ≡ verified_offer ring.now offer.now) }
{
    Ok(StateOffer {
        member: offer.member,
        place: offer.place,
        size: offer.size,
        marks: verified_marks(alloc, ring, offer.marks.as_slice())?,
    })
}

/// Whether some offer has a place.
fn has_offer(offers: &[StateOffer], offered: Place) -> bool
    ensures { result ≡ list_any (λ (o : StateOffer). o.place == offered) offers.now }
{
    offers.iter().any(|offer| offer.place == offered)
}

/// Whether some offer has a place past the asker's.
fn is_offered(offers: &[StateOffer], place: Place, offered: Place) -> bool
    ensures { result ≡ is_offered offers.now place offered }
{
    place < offered && has_offer(offers, offered)
}

/// Adds copies of the marks that count. Error: want of memory.
fn add_usable(
    alloc: Global,
    found: &mut Sequence<Signed<Mark>>,
    stated: &[Signed<Mark>],
    offers: &[StateOffer],
    place: Place,
) -> Result<(), AllocError>
    ensures { OnOk result (found.new ≡ found.old ++ filter (counts offers.now place) stated.now) }
{
    for mark in stated {
        if is_offered(offers, place, mark.statement().place) {
            found.push(mark.duplicate(alloc)?)?;
        }
    }
    Ok(())
}

/// Copies of the marks that count: first those that the asker kept, then those in its offers. Error:
/// want of memory.
#[tactic(auto, unfolding(crate::specs::Plans::usable))]
fn usable(
    alloc: Global,
    offers: &[StateOffer],
    kept: &[Signed<Mark>],
    place: Place,
) -> Result<Sequence<Signed<Mark>>, AllocError>
    ensures { IfOk result (λ found. found ≡ usable offers.now kept.now place) }
{
    let mut found = Sequence::new(alloc);
    add_usable(alloc, &mut found, kept, offers, place)?;
    for offer in offers {
        add_usable(alloc, &mut found, offer.marks.as_slice(), offers, place)?;
    }
    Ok(found)
}

fn greater(found: usize, count: usize) -> usize
    ensures { result ≡ greater found count }
{
    if found < count { count } else { found }
}

/// How many members of a view marked the same, at most.
#[tactic(auto, unfolding(crate::specs::Plans::most))]
fn most(view: &View, table: &[Signed<Mark>]) -> usize
    ensures { result ≡ most view.now table.now }
{
    let mut found = 0;
    for mark in table {
        found = greater(found, count_markers(view, table, mark.statement()));
    }
    found
}

fn not_yet(view: &View, table: &[Signed<Mark>]) -> NotYet
    ensures { result ≡ not_yet view.now table.now }
{
    NotYet {
        agreeing: most(view, table),
        need: view.f() as usize + 1,
    }
}

/// A member's first mark of a digest at a place.
fn first_mark<'a>(
    table: &'a [Signed<Mark>],
    wanted: &Mark,
    member: MemberId,
) -> Option<&'a Signed<Mark>>
    ensures { option_copied result ≡ first_mark table.now wanted.now member }
{
    table.iter().find(|mark| is_mark_of(wanted, member, mark))
}

/// Copies of the first marks of the first `size` members that have one. Error: want of memory.
fn first_marks(
    alloc: Global,
    table: &[Signed<Mark>],
    members: &[MemberId],
    wanted: &Mark,
    size: usize,
) -> Result<SignedList<Mark>, AllocError>
    requires { size < 2 ^ 16 }
    ensures { IfOk result (λ list. list ≡ take size (filter_map (first_mark table.now wanted.now) members.now)) }
{
    let mut items = Sequence::new(alloc);
    for member in members {
        if items.len() == size {
            break;
        }
        if let Some(mark) = first_mark(table, wanted, *member) {
            items.push(mark.duplicate(alloc)?)?;
        }
    }
    Ok(SignedList::from_list(items))
}

/// Copies of the marks of the first members by number, one more than may be faulty. Error: want of
/// memory.
#[tactic(auto, unfolding(crate::specs::Plans::certificate))]
fn certificate(
    alloc: Global,
    view: &View,
    table: &[Signed<Mark>],
    wanted: &Mark,
) -> Result<SignedList<Mark>, AllocError>
    ensures { IfOk result (λ list. list ≡ certificate view.now table.now wanted.now) }
{
    first_marks(alloc, table, view.members(), wanted, view.f() as usize + 1)
}

/// Whether an offer is of a place, and of a lower member than the one found.
fn goes_before(place: Place, found: &Option<Seeder>, offer: &StateOffer) -> bool
    ensures { result ≡ goes_before place found.now offer.now }
{
    match found {
        None => offer.place == place,
        Some(seeder) => offer.place == place && offer.member < seeder.member,
    }
}

fn lower(place: Place, found: Option<Seeder>, offer: &StateOffer) -> Option<Seeder>
    ensures { result ≡ lower place found offer.now }
{
    if goes_before(place, &found, offer) {
        Some(Seeder {
            member: offer.member,
            size: offer.size,
        })
    } else {
        found
    }
}

/// The lowest member that offers a place, with the size that it states.
#[tactic(auto, unfolding(crate::specs::Plans::seeder_of))]
fn seeder_of(place: Place, offers: &[StateOffer]) -> Option<Seeder>
    ensures { result ≡ seeder_of place offers.now }
{
    let mut found = None;
    for offer in offers {
        found = lower(place, found, offer);
    }
    found
}

/// The plan for a certified mark, by its seeder. Error: there is none; want of memory.
fn seeded(
    alloc: Global,
    view: &View,
    table: &[Signed<Mark>],
    mark: &Mark,
    seeder: Option<Seeder>,
) -> Result<Plan, PlanError>
    ensures { Plans result (seeded view.now table.now (mark.now.place, mark.now.digest) seeder) }
{
    match seeder {
        None => Err(PlanError::NotYet(not_yet(view, table))),
        Some(seeder) => Ok(Plan {
            place: mark.place,
            digest: mark.digest,
            view: view.number(),
            marks: certificate(alloc, view, table, mark)?,
            seeder: seeder.member,
            size: seeder.size,
        }),
    }
}

/// The plan of a member at a place, by its offers, the marks that it kept and its newest view. The tags
/// of all marks have been checked. A place past its own counts that some offer has. The plan takes the
/// greatest that more members than may be faulty marked alike, and of two digests there the lower. The
/// lowest member that offers it is its seeder. Errors: no such place has enough equal marks; want of
/// memory.
#[tactic(auto, unfolding(crate::specs::Plans::planned))]
pub fn plan(
    alloc: Global,
    offers: &[StateOffer],
    kept: &[Signed<Mark>],
    place: Place,
    view: &View,
) -> Result<Plan, PlanError>
    ensures { Plans result (planned offers.now kept.now place view.now) }
{
    let table = usable(alloc, offers, kept, place)?;
    match certified(view, table.as_slice()) {
        None => Err(PlanError::NotYet(not_yet(view, table.as_slice()))),
        Some((place, digest)) => {
            let mark = Mark { place, digest };
            seeded(
                alloc,
                view,
                table.as_slice(),
                &mark,
                seeder_of(place, offers),
            )
        }
    }
}
