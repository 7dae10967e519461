//! How the core of a node steps: what the lane tells, the batch that waits, a tick, the next arrival.

use crate::cell::CellOf;
use clock_gate::clock::Clock;
use clock_gate::gate::{Gate, Point};
use node_endings::delivering::{Delivering, deliver_next};
use node_ends::waits::{Pulse, wait_at};
use node_seat::place::Place;
use node_seat::seat::Seat;
use node_seat::turns::Turn;
use smart_io::stream::Sink;
use smart_service::service::Service;
use std::sync::Wait;

/// Whether no batch waits, and the core knows that all its entries are firm.
fn rests<S: Service, P: Place<S>, O: Sink>(seat: &Seat<S, P, O>) -> bool {
    !seat.inner.waits() && seat.inner.is_firm()
}

/// What became of two turns, the one after the other.
pub(crate) fn both(first: Turn, second: Turn) -> Turn {
    if first == Turn::Over || second == Turn::Over {
        return Turn::Over;
    }
    if first == Turn::Done || second == Turn::Done {
        return Turn::Done;
    }
    if first == Turn::NoRoom || second == Turn::NoRoom {
        return Turn::NoRoom;
    }
    Turn::Nothing
}

impl<'a, S: Service, P: Place<S>, O: Sink, G: Gate, R: Wait> CellOf<'a, S, P, O, G, R> {
    /// Whether no batch waits, and the core knows that all its entries are firm.
    pub(crate) fn rests(&self) -> bool {
        rests(&self.cell.lock(self.rt))
    }

    /// Tells the core how many entries are firm, if the lane tells more than it knows.
    fn catch_up(&self) -> Turn {
        self.cell.lock(self.rt).catch_up(self.rt)
    }

    /// Lets the service execute the batch that waits, if one does. The gate is asked behind it, without
    /// the lock.
    fn deliver(&self) -> Turn {
        let delivering = deliver_next(self.rt, &mut self.cell.lock(self.rt));
        match delivering {
            Delivering::Delivered { place } => {
                wait_at(self.gate, self.member, Point::Delivered { place });
                Turn::Done
            }
            Delivering::Played => Turn::Done,
            Delivering::Not(turn) => turn,
        }
    }

    /// Lets time pass, if a tick is due. Says whether the lane had room for it.
    fn tick<K: Clock>(&self, pulse: &mut Pulse, clock: &mut K) -> Turn {
        let now = clock.now();
        if !pulse.is_due(now) {
            return Turn::Done;
        }
        let turn = self.cell.lock(self.rt).tick(self.rt);
        if turn == Turn::Done {
            pulse.note(now);
        }
        turn
    }

    /// Plays the next message that arrived, if one did.
    fn take(&self) -> Turn {
        self.cell.lock(self.rt).take(self.rt)
    }

    /// Plays what comes from within: what the lane tells, and the batch that waits.
    pub(crate) fn advance(&self) -> Turn {
        let told = self.catch_up();
        both(told, self.deliver())
    }

    /// Plays what comes from without: a tick that is due, and then the next arrival. Says what became of
    /// the arrival, unless the tick was not played.
    pub(crate) fn listen<K: Clock>(&self, pulse: &mut Pulse, clock: &mut K) -> Turn {
        match self.tick(pulse, clock) {
            Turn::Done => self.take(),
            other => other,
        }
    }
}
