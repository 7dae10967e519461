//! The delivery of the batch that waits at a seat.
ghost use Rattle.std.specs.Prelude.{◌≡◌, ◌<◌, ◌++◌, ◌∷◌, [], false, true, is_some};
ghost use Rattle.log_lane.specs.Lane.{lane_room};
ghost use Rattle.group_links.specs.Link.{link_heard_put};
ghost use Rattle.node_rules.specs.Kept.{core_step};
ghost use Rattle.smart_statements.specs.declared.entry.NodeEvent.TheVariants.{Deliver};
ghost use Rattle.trail.specs.declared.event.TrailEvent.TheVariants.{Happens};
ghost use Rattle.trail_rules.specs.Replays.{core_steps, replay};
ghost use Rattle.node_played.specs.Lives.{has_end};
ghost use Rattle.node_endings.specs.Delivered.{place_fired, place_told, is_played};

use node_core::node::Outcome;
use node_rules::node::Fired;
use node_seat::place::Place;
use node_seat::seat::Seat;
use node_seat::turns::Turn;
use smart_io::stream::Sink;
use smart_service::service::Service;
use smart_statements::entry::NodeEvent;
use std::sync::Wait;

/// What became of a batch that may wait.
#[derive(Clone, Copy, Debug, PartialEq, Eq)]
pub enum Delivering {
    /// It was delivered, and had this place.
    Delivered { place: u64 },
    /// The event was played, and delivered none.
    Played,
    /// No event was played.
    Not(Turn),
}

/// The place of the batch that a step delivered, if it delivered one.
fn place_delivered(fired: &[Fired]) -> Option<u64>
    ensures { result ≡ place_fired fired.now }
{
    for rule in fired {
        if let Fired::Delivered(delivery) = rule {
            return Some(delivery.place.get());
        }
    }
    None
}

/// What a step that may have delivered a batch tells.
fn told_by(outcome: &Outcome) -> Delivering
    ensures played { is_played result ≡ true }
    ensures place { place_told result ≡ place_fired outcome.now.fired }
{
    match place_delivered(outcome.fired.as_slice()) {
        Some(place) => Delivering::Delivered { place },
        None => Delivering::Played,
    }
}

/// Lets the service execute the batch that waits, if one does, and tells its place.
pub fn deliver_next<S: Service, P: Place<S>, O: Sink, R: Wait>(
    rt: &R,
    seat: &mut Seat<S, P, O>,
) -> Delivering
    ensures done { is_played result ≡ true → seat.new.inner.trail.items ≡ seat.old.inner.trail.items ++ Happens Deliver ∷ [] }
    ensures place { is_played result ≡ true → place_told result ≡ place_fired (core_step S.meaning (replay (core_steps S.meaning) P.opening seat.old.inner.trail.items) Deliver).fired }
    ensures not_done { result ≡ Delivering.Not Turn.Done → ⊥ }
    ensures nothing { result ≡ Delivering.Not Turn.Nothing → (seat.new.inner.trail.items ≡ seat.old.inner.trail.items) × (is_some (replay (core_steps S.meaning) P.opening seat.old.inner.trail.items).waiting ≡ false) }
    ensures no_room { result ≡ Delivering.Not Turn.NoRoom → seat.new.inner.trail.items ≡ seat.old.inner.trail.items }
    ensures full { result ≡ Delivering.Not Turn.NoRoom → lane_room seat.new.inner.lane < 8 }
    ensures over { result ≡ Delivering.Not Turn.Over → seat.new.over ≡ true }
    ensures whole { seat.new.over ≡ true → result ≡ Delivering.Not Turn.Over }
    ensures stays { seat.old.over ≡ true → seat.new.inner.trail.items ≡ seat.old.inner.trail.items }
    ensures ended { has_end seat.old.inner.trail.items ≡ true → (result ≡ Delivering.Not Turn.Over) × (seat.new.inner.trail.items ≡ seat.old.inner.trail.items) }
    ensures heard { link_heard_put seat.new.from ≡ link_heard_put seat.old.from }
    ensures handed { seat.new.handed ≡ seat.old.handed }
    ensures cut { (seat.old.over ≡ true → seat.new.cut ≡ seat.old.cut) × (has_end seat.old.inner.trail.items ≡ true → seat.new.cut ≡ seat.old.cut) }
{
    if !seat.goes_on() {
        return Delivering::Not(Turn::Over);
    }
    if !seat.inner.waits() {
        return Delivering::Not(Turn::Nothing);
    }
    seat.look();
    if !seat.inner.has_room() {
        return Delivering::Not(Turn::NoRoom);
    }
    match seat.event(rt, NodeEvent::Deliver) {
        Ok(outcome) => told_by(&outcome),
        Err(_) => Delivering::Not(Turn::Over),
    }
}
