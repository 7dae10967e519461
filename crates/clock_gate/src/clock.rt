//! Clocks.
ghost use Rattle.std.specs.Prelude.{◌≡◌, ◌+◌, ◌^◌, ◌-◌, min};

use std::rt::Clock as SystemClock;
use std::time::Instant;

/// A clock. It tells milliseconds, and cannot fail.
pub trait Clock {
    /// The milliseconds since some moment. It may stand still.
    fn now(&mut self) -> u64;
}

/// A clock in memory: each look at it is so many milliseconds after the one before.
#[derive(Clone, Copy, Debug)]
pub struct StepClock {
    /// What the next look tells.
    pub next: u64,
    pub step: u64,
}

impl StepClock {
    /// A clock that tells 0 first.
    pub fn new(step: u64) -> Self
        ensures { (result.next ≡ 0) × (result.step ≡ step) }
    {
        StepClock { next: 0, step }
    }
}

impl Clock for StepClock {
    fn now(&mut self) -> u64
        ensures told { result ≡ self.old.next }
        ensures next { self.new.next ≡ min (self.old.next + self.old.step) (2 ^ 64 - 1) }
        ensures step { self.new.step ≡ self.old.step }
    {
        let now = self.next;
        self.next = now.saturating_add(self.step);
        now
    }
}

/// The clock of the system, from the moment at which it was made. If the system tells no time, it
/// stands still.
#[derive(Drop)]
pub struct RealClock<'a, R: SystemClock> {
    system: &'a R,
    first: Option<Instant>,
    last: u64,
}

impl<'a, R: SystemClock> RealClock<'a, R> {
    pub fn new(system: &'a R) -> Self {
        RealClock {
            system,
            first: Instant::now(system).ok(),
            last: 0,
        }
    }
}

impl<'a, R: SystemClock> Clock for RealClock<'a, R> {
    fn now(&mut self) -> u64 {
        if let Some(first) = self.first {
            if let Ok(elapsed) = first.elapsed(self.system) {
                let seconds = elapsed.as_secs().saturating_mul(1000);
                self.last = seconds.saturating_add(elapsed.subsec_millis() as u64);
            }
        }
        self.last
    }
}
