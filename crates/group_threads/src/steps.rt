//! How the core of a member steps: what the lane tells, the batch that waits, a tick, the next arrival.
ghost use Rattle.std.specs.Prelude.{◌≡◌, ◌<◌, ◌++◌, ◌∷◌, [], false, true, is_some};
ghost use Rattle.log_lane.specs.Lane.{lane_room};
ghost use Rattle.node_rules.specs.Kept.{core_step};
ghost use Rattle.smart_statements.specs.declared.entry.NodeEvent.TheVariants.{Deliver};
ghost use Rattle.trail.specs.declared.event.TrailEvent.TheVariants.{Happens};
ghost use Rattle.trail_rules.specs.Replays.{core_steps, replay};
ghost use Rattle.group_ends.specs.Journals.{has_end};
ghost use Rattle.group_ends.specs.Ports.{heard_puts};
ghost use Rattle.node_endings.specs.Delivered.{place_fired, place_told, is_played};

use crate::bearer::Numbered;
use crate::cell::MemberCell;
use clock_gate::clock::Clock;
use clock_gate::gate::{Gate, Point};
use group_seat::seat::GroupSeat;
use node_core::node::Outcome;
use node_course::group_life::GroupLife;
use node_endings::delivering::Delivering;
use node_ends::waits::{Pulse, wait_at};
use node_rules::node::Fired;
use node_seat::turns::Turn;
use smart_io::stream::Sink;
use smart_service::service::Service;
use smart_statements::entry::NodeEvent;
use std::sync::{Mutex, Wait};
use std::thread;

/// The place of the batch that a step delivered, if it delivered one.
fn place_delivered(fired: &[Fired]) -> Option<u64>
    ensures { result ≡ place_fired fired.now }
{
    for rule in fired {
        if let Fired::Delivered(delivery) = rule {
            return Some(delivery.place.get());
        }
    }
    None
}

/// What a step that may have delivered a batch tells.
fn told_by(outcome: &Outcome) -> Delivering
    ensures played { is_played result ≡ true }
    ensures place { place_told result ≡ place_fired outcome.now.fired }
{
    match place_delivered(outcome.fired.as_slice()) {
        Some(place) => Delivering::Delivered { place },
        None => Delivering::Played,
    }
}

/// Lets the service execute the batch that waits, if one does, and tells its place.
pub fn deliver_next<S: Service, P: GroupLife<S>, O: Sink, R: Wait>(
    rt: &R,
    seat: &mut GroupSeat<S, P, O>,
) -> Delivering
    ensures done { is_played result ≡ true → seat.new.inner.journal.events.items ≡ seat.old.inner.journal.events.items ++ Happens Deliver ∷ [] }
    ensures place { is_played result ≡ true → place_told result ≡ place_fired (core_step S.meaning (replay (core_steps S.meaning) (P.opening seat.old.inner.journal.number) seat.old.inner.journal.events.items) Deliver).fired }
    ensures not_done { result ≡ Delivering.Not Turn.Done → ⊥ }
    ensures nothing { result ≡ Delivering.Not Turn.Nothing → (seat.new.inner.journal.events.items ≡ seat.old.inner.journal.events.items) × (is_some (replay (core_steps S.meaning) (P.opening seat.old.inner.journal.number) seat.old.inner.journal.events.items).waiting ≡ false) }
    ensures no_room { result ≡ Delivering.Not Turn.NoRoom → seat.new.inner.journal.events.items ≡ seat.old.inner.journal.events.items }
    ensures full { result ≡ Delivering.Not Turn.NoRoom → lane_room seat.new.inner.lane < 8 }
    ensures over { result ≡ Delivering.Not Turn.Over → seat.new.over ≡ true }
    ensures whole { seat.new.over ≡ true → result ≡ Delivering.Not Turn.Over }
    ensures stays { seat.old.over ≡ true → seat.new.inner.journal.events.items ≡ seat.old.inner.journal.events.items }
    ensures ended { has_end seat.old.inner.journal.events.items ≡ true → (result ≡ Delivering.Not Turn.Over) × (seat.new.inner.journal.events.items ≡ seat.old.inner.journal.events.items) }
    ensures number { seat.new.inner.journal.number ≡ seat.old.inner.journal.number }
    ensures heard { heard_puts seat.new.inbox.links.items ≡ heard_puts seat.old.inbox.links.items }
    ensures handed { seat.new.handed ≡ seat.old.handed }
    ensures cut { (seat.old.over ≡ true → seat.new.cut ≡ seat.old.cut) × (has_end seat.old.inner.journal.events.items ≡ true → seat.new.cut ≡ seat.old.cut) }
{
    if !seat.goes_on() {
        return Delivering::Not(Turn::Over);
    }
    if !seat.inner.waits() {
        return Delivering::Not(Turn::Nothing);
    }
    seat.look();
    if !seat.inner.has_room() {
        return Delivering::Not(Turn::NoRoom);
    }
    match seat.event(rt, NodeEvent::Deliver) {
        Ok(outcome) => told_by(&outcome),
        Err(_) => Delivering::Not(Turn::Over),
    }
}

/// What became of two turns, the one after the other.
fn both(first: Turn, second: Turn) -> Turn {
    if first == Turn::Over || second == Turn::Over {
        return Turn::Over;
    }
    if first == Turn::Done || second == Turn::Done {
        return Turn::Done;
    }
    if first == Turn::NoRoom || second == Turn::NoRoom {
        return Turn::NoRoom;
    }
    Turn::Nothing
}

impl<'a, S: Service, P: GroupLife<S>, M: Numbered, O: Sink, G: Gate, R: Wait> MemberCell<
    'a,
    S,
    P,
    M,
    O,
    G,
    R,
> {
    /// Tells the core how many entries are firm, if the lane tells more than it knows.
    fn catch_up(&self) -> Turn {
        self.cell.lock(self.rt).catch_up(self.rt)
    }

    /// Lets the service execute the batch that waits, if one does. The gate is asked behind it, without
    /// the lock.
    fn deliver(&self) -> Turn {
        let delivering = deliver_next(self.rt, &mut self.cell.lock(self.rt));
        match delivering {
            Delivering::Delivered { place } => {
                wait_at(self.gate, self.name.member, Point::Delivered { place });
                Turn::Done
            }
            Delivering::Played => Turn::Done,
            Delivering::Not(turn) => turn,
        }
    }

    /// Lets time pass, if a tick is due. Says whether the lane had room for it.
    fn tick<K: Clock>(&self, pulse: &mut Pulse, clock: &Mutex<K>) -> Turn {
        let now = clock.lock(self.rt).now();
        if !pulse.is_due(now) {
            return Turn::Done;
        }
        let turn = self.cell.lock(self.rt).tick(self.rt);
        if turn == Turn::Done {
            pulse.note(now);
        }
        turn
    }

    /// Plays the next message that arrived, if one did.
    fn take(&self) -> Turn {
        self.cell.lock(self.rt).take(self.rt)
    }

    /// Plays what comes from within: what the lane tells, and the batch that waits.
    fn advance(&self) -> Turn {
        let told = self.catch_up();
        both(told, self.deliver())
    }

    /// Plays what comes from without: a tick that is due, and then the next arrival. Says what became of
    /// the arrival, unless the tick was not played.
    fn listen<K: Clock>(&self, pulse: &mut Pulse, clock: &Mutex<K>) -> Turn {
        match self.tick(pulse, clock) {
            Turn::Done => self.take(),
            other => other,
        }
    }

    /// Plays what comes from within and from without. Says whether the core goes on.
    pub(crate) fn step_on<K: Clock>(&self, pulse: &mut Pulse, clock: &Mutex<K>) -> bool {
        if self.is_over() {
            return false;
        }
        let first = self.advance();
        let next = self.listen(pulse, clock);
        match both(first, next) {
            Turn::Over => {
                self.end_all();
                false
            }
            Turn::Done => true,
            Turn::NoRoom | Turn::Nothing => {
                thread::yield_now();
                true
            }
        }
    }
}
