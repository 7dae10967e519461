//! The seat of a node under its lock, as the workers and the loops see it.
ghost use Rattle.std.specs.Prelude.{◌<◌, ◌^◌, length, IfOk, IfSome};
ghost use Rattle.node_played.specs.Lives.{IsWantedOf};
ghost use Rattle.node_endings.specs.Rounds.{IsReplicaOf};

use clock_gate::gate::{Gate, Point};
use durable_store::cell::CoreCell;
use node_ends::waits::wait_at;
use node_ends::watch::{Going, Watch};
use node_rules::node::OwnSnapshot;
use node_seat::place::Place;
use node_seat::seat::NodeCell;
use node_seat::snapshot::Snapshot;
use node_seat::turns::Turn;
use smart_base::name::MemberId;
use smart_base::sequence::Bytes;
use smart_io::stream::Sink;
use smart_service::service::Service;
use std::alloc::{AllocError, Global};
use std::sync::Wait;
use std::sync::atomic::{AtomicBool, Ordering};
use store_laws::job::Tail;

/// The seat of a node that threads share. Each call takes the lock, does one thing, and lets it go.
/// `before_write` takes no lock, and asks the gate.
#[derive(Drop)]
pub struct CellOf<'a, S: Service, P: Place<S>, O: Sink, G: Gate, R: Wait> {
    pub rt: &'a R,
    pub cell: &'a NodeCell<S, P, O>,
    pub gate: &'a G,
    pub member: MemberId,
    /// Whether the input is at its end, and the core has done all that was due.
    pub quiet: &'a AtomicBool,
}

impl<'a, S: Service, P: Place<S>, O: Sink, G: Gate, R: Wait> CellOf<'a, S, P, O, G, R> {
    /// Lets nothing more happen to the node.
    pub(crate) fn stop(&self) {
        self.cell.lock(self.rt).stop();
    }

    /// Notes that the input is at its end.
    pub(crate) fn close(&self) {
        self.cell.lock(self.rt).close();
    }

    /// Whether the input is at its end.
    pub(crate) fn is_closing(&self) -> bool {
        self.cell.lock(self.rt).is_closing()
    }

    /// The place of the last snapshot for which the core wants a switch; 0 without one.
    pub(crate) fn place_wanted(&self) -> u64 {
        self.cell.lock(self.rt).inner.place_wanted()
    }

    /// Whether the core has done all that was due.
    pub(crate) fn is_quiet(&self) -> bool {
        self.quiet.load(Ordering::SeqCst)
    }
}

/// What is to be done after a turn of the seat that may have let a message go.
fn going_of(turn: Turn, is_last: bool) -> Going {
    match turn {
        Turn::Done | Turn::NoRoom => Going::More,
        Turn::Nothing => { if is_last { Going::Last } else { Going::Nothing } }
        Turn::Over => Going::Last,
    }
}

impl<'a, S: Service, P: Place<S>, O: Sink, G: Gate, R: Wait> Watch for CellOf<'a, S, P, O, G, R> {
    fn is_over(&mut self) -> bool {
        self.cell.lock(self.rt).is_over()
    }

    /// The core is asked first whether it is quiet: what it held then leaves now.
    fn let_go(&mut self) -> Going {
        let is_last = self.is_quiet();
        let turn = self.cell.lock(self.rt).let_go(self.rt);
        going_of(turn, is_last)
    }
}

/// A snapshot that the node wanted as the bytes of a replica, with the replica's place. Error: want of
/// memory.
fn checked_pair<S: Service, P: Place<S>>(
    alloc: Global,
    wanted: Option<OwnSnapshot>,
) -> Result<Option<(u64, Bytes)>, AllocError>
    requires { IfSome wanted (λ own. IsWantedOf S.meaning P.opening own.place own.snapshot) }
    ensures replica { IfOk result (λ found. IfSome found (λ x. IsReplicaOf S.meaning P.opening x.0 x.1)) }
    ensures fits { IfOk result (λ found. IfSome found (λ x. length x.1 < 2 ^ 32)) }
{
    let Some(own) = wanted else {
        return Ok(None);
    };
    let OwnSnapshot {
        place,
        snapshot,
        needs: _,
    } = own;
    match Snapshot::<S, P>::checked(alloc, place.get(), snapshot)? {
        Some(snapshot) => Ok(Some(snapshot.into_pair())),
        None => Ok(None),
    }
}

/// The place and the bytes of a snapshot.
fn pair_of<S: Service, P: Place<S>>(snapshot: Option<Snapshot<S, P>>) -> Option<(u64, Bytes)>
    ensures replica { IfSome result (λ x. IsReplicaOf S.meaning P.opening x.0 x.1) }
    ensures fits { IfSome result (λ x. length x.1 < 2 ^ 32) }
{
    match snapshot {
        Some(snapshot) => Some(snapshot.into_pair()),
        None => None,
    }
}

impl<'a, S: Service, P: Place<S>, O: Sink, G: Gate, R: Wait> CoreCell
    for CellOf<'a, S, P, O, G, R> {
    ghost use Rattle.std.specs.Prelude.{[], None};
    ghost use Rattle.node_played.specs.Lives.{IsTailOf};
    ghost use Rattle.node_endings.specs.Rounds.{IsReplicaOf};

    ghost alone = { ⊥ };

    ghost is_replica = { λ place bytes. IsReplicaOf S.meaning P.opening place bytes };

    ghost wants = { λ _. None };

    ghost hands = { λ _. None };

    ghost is_tail = { λ place tail. IsTailOf S.meaning P.opening place tail };

    ghost tails = { λ _ _. record { made = 0; entries = [] } };

    /// The bytes are read once more, outside of the lock, to show that they are a replica's.
    fn wanted(&mut self, alloc: Global) -> Result<Option<(u64, Bytes)>, AllocError> {
        let wanted = self.cell.lock(self.rt).inner.wanted()?;
        checked_pair::<S, P>(alloc, wanted)
    }

    fn hand(&mut self, place: u64, snapshot: Bytes) {
        self.cell.lock(self.rt).hand(Snapshot::of(place, snapshot));
    }

    fn handed(&mut self) -> Option<(u64, Bytes)> {
        let snapshot = self.cell.lock(self.rt).take_handed();
        pair_of(snapshot)
    }

    fn tail(&mut self, _alloc: Global, place: u64) -> Result<Tail, AllocError> {
        self.cell.lock(self.rt).inner.tail(place)
    }

    fn before_write(&mut self, decided: u64) {
        wait_at(self.gate, self.member, Point::BeforeWrite { decided });
    }
}
