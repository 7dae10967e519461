//! What a loop waits for.
ghost use Rattle.std.specs.Prelude.{◌≡◌, ◌+◌, nat_le};

use clock_gate::clock::Clock;
use clock_gate::gate::{ASKS, Gate, Point};
use smart_base::name::MemberId;
use std::thread;

/// The milliseconds from one tick to the next.
pub const TICK: u64 = 1_000;

/// Asks a gate until it lets a member's worker go on, but no more than `ASKS` times.
pub fn wait_at<G: Gate>(gate: &G, member: MemberId, point: Point) {
    for _ in 0..ASKS {
        if gate.at(member, point) {
            return;
        }
        thread::yield_now();
    }
}

/// When a node's last tick was.
#[derive(Clone, Copy, Debug)]
pub struct Pulse {
    pub last: u64,
}

impl Pulse {
    /// A node whose first tick comes so many milliseconds from now.
    pub fn begin<K: Clock>(clock: &mut K) -> Pulse {
        Pulse { last: clock.now() }
    }

    /// Whether a tick is due.
    pub fn is_due(&self, now: u64) -> bool
        ensures { result ≡ nat_le (self.now.last + TICK) now }
    {
        self.last <= now && now - self.last >= TICK
    }

    /// Notes a tick.
    pub fn note(&mut self, now: u64)
        ensures { self.new.last ≡ now }
    {
        self.last = now;
    }
}
