//! How the trail of a node is closed that has done all that was due.
ghost use Rattle.std.specs.Prelude.{◌≡◌, ◌++◌, ◌∷◌, [], false, true};
ghost use Rattle.node_endings.specs.Settled.{EndsSettled};

use node_seat::place::Place;
use node_seat::seat::Seat;
use smart_io::stream::Sink;
use smart_service::service::Service;
use std::sync::Wait;

/// Closes the trail of a node, if nothing is left to do: no batch waits, all entries are firm, and no
/// message is held. Says whether it did. It did not if something is left, if the
/// trail has an end, or if the seat is over then.
pub fn settle<S: Service, P: Place<S>, O: Sink, R: Wait>(rt: &R, seat: &mut Seat<S, P, O>) -> bool
    ensures settled { result ≡ true → (seat.new.over ≡ false) × EndsSettled S.meaning P.opening seat.new.inner.trail.items }
{
    if seat.is_over() {
        return false;
    }
    if seat.inner.has_ended() {
        return false;
    }
    if seat.inner.waits() {
        return false;
    }
    if !seat.inner.is_firm() {
        return false;
    }
    let Ok(false) = seat.send(rt) else {
        return false;
    };
    match seat.end() {
        Ok(()) => true,
        Err(_) => false,
    }
}
