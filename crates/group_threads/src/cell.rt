//! The seat of a member under its lock, as the workers and the loops see it.
ghost use Rattle.std.specs.Prelude.{◌≡◌, ◌<◌, ◌^◌, length, IfOk, IfSome, Some};
ghost use Rattle.node_endings.specs.Rounds.{IsReplicaOf};
ghost use Rattle.node_played.specs.Lives.{IsTailOf, IsWantedOf};
ghost use Rattle.store_plan.specs.Fit.{AreEntries};

use crate::bearer::{MemberOf, Numbered};
use clock_gate::gate::{Gate, Point};
use durable_store::cell::CoreCell;
use group_seat::seat::{GroupCell, GroupSeat};
use group_seat::snapshot::Snapshot;
use node_course::group_life::GroupLife;
use node_ends::waits::wait_at;
use node_rules::node::OwnSnapshot;
use node_seat::turns::Turn;
use smart_base::sequence::Bytes;
use smart_io::stream::Sink;
use smart_service::service::Service;
use std::alloc::{AllocError, Global};
use std::sync::Wait;
use std::sync::atomic::{AtomicBool, Ordering};
use store_laws::job::Tail;

/// The seat of a member that threads share. Each call takes the lock, does one thing, and lets it go.
/// `before_write` takes no lock, and asks the gate. What is known of a seat that a lock gives is known by
/// its number, so each call that relies on it tests the number first.
#[derive(Drop)]
pub struct MemberCell<'a, S: Service, P: GroupLife<S>, M: Numbered, O: Sink, G: Gate, R: Wait> {
    pub rt: &'a R,
    pub cell: &'a GroupCell<S, P, O>,
    pub gate: &'a G,
    pub name: &'a MemberOf<M>,
    /// Whether all loops of the group are to end.
    pub ended: &'a AtomicBool,
}

impl<'a, S: Service, P: GroupLife<S>, M: Numbered, O: Sink, G: Gate, R: Wait> MemberCell<
    'a,
    S,
    P,
    M,
    O,
    G,
    R,
> {
    /// Lets nothing more happen to the member, and all loops of the group end.
    pub(crate) fn stop(&self) {
        self.cell.lock(self.rt).stop();
        self.end_all();
    }

    /// The place of the last snapshot for which the core wants a switch; 0 without one.
    pub(crate) fn place_wanted(&self) -> u64 {
        self.cell.lock(self.rt).inner.place_wanted()
    }

    /// Whether nothing more happens to the member, or all loops of the group are to end.
    pub(crate) fn is_over(&self) -> bool {
        self.ended.load(Ordering::SeqCst) || self.cell.lock(self.rt).is_over()
    }

    /// Lets all loops of the group end.
    pub(crate) fn end_all(&self) {
        self.ended.store(true, Ordering::SeqCst);
    }

    /// Lets the next message that leaves go onto its links, if one does.
    pub(crate) fn let_go(&self) -> Turn {
        self.cell.lock(self.rt).let_go(self.rt)
    }
}

/// A snapshot that a seat wants, if the seat is that of this member. Error: want of memory.
fn wanted_of<S: Service, P: GroupLife<S>, M: Numbered, O: Sink>(
    seat: &GroupSeat<S, P, O>,
    name: &MemberOf<M>,
) -> Result<Option<OwnSnapshot>, AllocError>
    ensures { IfOk result (λ found. IfSome found (λ own. IsWantedOf S.meaning (P.opening M.number) own.place own.snapshot)) }
{
    if seat.number() != name.number() {
        return Err(AllocError);
    }
    seat.inner.wanted()
}

/// The tail of a seat's log beside a checkpoint of a place, if the seat is that of this member. Error: want
/// of memory.
fn tail_of<S: Service, P: GroupLife<S>, M: Numbered, O: Sink>(
    seat: &GroupSeat<S, P, O>,
    name: &MemberOf<M>,
    place: u64,
) -> Result<Tail, AllocError>
    ensures of_place { IfOk result (λ tail. IsTailOf S.meaning (P.opening M.number) place tail) }
    ensures fit { IfOk result (λ tail. AreEntries tail.entries) }
{
    if seat.number() != name.number() {
        return Err(AllocError);
    }
    seat.inner.tail(place)
}

/// A snapshot of this member, with these bytes. It takes no memory.
fn snapshot_of<S: Service, P: GroupLife<S>, M: Numbered>(
    name: &MemberOf<M>,
    place: u64,
    bytes: Bytes,
) -> Snapshot<S, P>
    requires replica { IsReplicaOf S.meaning (P.opening M.number) place bytes }
    requires fits { length bytes < 2 ^ 32 }
{
    Snapshot::of(name.number(), place, bytes)
}

/// Hands a snapshot over to a seat, if it is one of the seat's member.
fn hand_to<S: Service, P: GroupLife<S>, O: Sink>(
    seat: &mut GroupSeat<S, P, O>,
    snapshot: Snapshot<S, P>,
)
    ensures handed { snapshot.number ≡ seat.old.inner.journal.number → seat.new.handed ≡ Some snapshot }
    ensures same { (seat.new.over ≡ seat.old.over) × (seat.new.inner ≡ seat.old.inner) }
{
    if snapshot.number != seat.number() {
        return;
    }
    seat.hand(snapshot);
}

/// The place and the bytes of a snapshot, if it is one of this member.
fn pair_of<S: Service, P: GroupLife<S>, M: Numbered>(
    name: &MemberOf<M>,
    snapshot: Snapshot<S, P>,
) -> Option<(u64, Bytes)>
    ensures replica { IfSome result (λ x. IsReplicaOf S.meaning (P.opening M.number) x.0 x.1) }
    ensures fits { IfSome result (λ x. length x.1 < 2 ^ 32) }
{
    if snapshot.number != name.number() {
        return None;
    }
    Some(snapshot.into_pair())
}

/// A snapshot that the member wanted as the bytes of a replica, with the replica's place. Error: want of
/// memory.
fn checked_pair<S: Service, P: GroupLife<S>, M: Numbered>(
    alloc: Global,
    name: &MemberOf<M>,
    wanted: Option<OwnSnapshot>,
) -> Result<Option<(u64, Bytes)>, AllocError>
    requires { IfSome wanted (λ own. IsWantedOf S.meaning (P.opening M.number) own.place own.snapshot) }
    ensures replica { IfOk result (λ found. IfSome found (λ x. IsReplicaOf S.meaning (P.opening M.number) x.0 x.1)) }
    ensures fits { IfOk result (λ found. IfSome found (λ x. length x.1 < 2 ^ 32)) }
{
    let Some(own) = wanted else {
        return Ok(None);
    };
    let OwnSnapshot {
        place,
        snapshot,
        needs: _,
    } = own;
    match Snapshot::<S, P>::checked(alloc, name.number(), place.get(), snapshot)? {
        Some(snapshot) => Ok(pair_of(name, snapshot)),
        None => Ok(None),
    }
}

impl<'a, S: Service, P: GroupLife<S>, M: Numbered, O: Sink, G: Gate, R: Wait> CoreCell
    for MemberCell<'a, S, P, M, O, G, R> {
    ghost use Rattle.std.specs.Prelude.{[], None};
    ghost use Rattle.node_played.specs.Lives.{IsTailOf};
    ghost use Rattle.node_endings.specs.Rounds.{IsReplicaOf};

    ghost alone = { ⊥ };

    ghost is_replica = { λ place bytes. IsReplicaOf S.meaning (P.opening M.number) place bytes };

    ghost wants = { λ _. None };

    ghost hands = { λ _. None };

    ghost is_tail = { λ place tail. IsTailOf S.meaning (P.opening M.number) place tail };

    ghost tails = { λ _ _. record { made = 0; entries = [] } };

    /// The bytes are read once more, outside of the lock, to show that they are a replica's.
    fn wanted(&mut self, alloc: Global) -> Result<Option<(u64, Bytes)>, AllocError> {
        let wanted = wanted_of(&self.cell.lock(self.rt), self.name)?;
        checked_pair::<S, P, M>(alloc, self.name, wanted)
    }

    fn hand(&mut self, place: u64, snapshot: Bytes) {
        let snapshot = snapshot_of::<S, P, M>(self.name, place, snapshot);
        hand_to(&mut self.cell.lock(self.rt), snapshot);
    }

    fn handed(&mut self) -> Option<(u64, Bytes)> {
        let snapshot = self.cell.lock(self.rt).take_handed()?;
        pair_of(self.name, snapshot)
    }

    fn tail(&mut self, _alloc: Global, place: u64) -> Result<Tail, AllocError> {
        tail_of(&self.cell.lock(self.rt), self.name, place)
    }

    fn before_write(&mut self, decided: u64) {
        wait_at(self.gate, self.name.member, Point::BeforeWrite { decided });
    }
}
