//! What the ends of a life, its gate and its workers tell each other.
use std::sync::atomic::{AtomicBool, AtomicU64, Ordering};
use std::thread;
use std::time::{Clock, Duration};

/// The longest wait, in milliseconds.
pub const MOST: u32 = 10_000;

/// What has happened in a life, or in a run of a group.
#[derive(Drop)]
pub struct Signs {
    /// The place that was delivered last.
    pub delivered: AtomicU64,
    /// The number of frames that were written.
    pub written: AtomicU64,
    /// The milliseconds that have passed.
    pub time: AtomicU64,
    /// How often the clock was looked at.
    pub looks: AtomicU64,
    /// How often a gate has held a worker.
    pub held: AtomicU64,
    /// Whether a group that decides a place was about to be written.
    pub writing: AtomicBool,
    /// Whether the gate is open for the groups.
    pub open: AtomicBool,
    /// The place behind whose delivery the gate is closed; 0, if it is open.
    pub stays: AtomicU64,
    /// The members that have delivered the batch behind which a gate of a group holds them, as bits.
    pub deliverers: AtomicU64,
    /// The members that were about to write a decision, as bits.
    pub writers: AtomicU64,
    /// Whether the input waits for a failure of the output.
    pub reading: AtomicBool,
    /// Whether the output has failed.
    pub failed: AtomicBool,
    /// Whether the input has waited in vain.
    pub in_vain: AtomicBool,
}

/// Nothing has happened. Whether the gate is open for the groups is stated, and the place behind whose delivery
/// it is closed.
pub fn no_signs(is_open: bool, stays: u64) -> Signs {
    Signs {
        delivered: AtomicU64::new(0),
        written: AtomicU64::new(0),
        time: AtomicU64::new(0),
        looks: AtomicU64::new(0),
        held: AtomicU64::new(0),
        writing: AtomicBool::new(false),
        open: AtomicBool::new(is_open),
        stays: AtomicU64::new(stays),
        deliverers: AtomicU64::new(0),
        writers: AtomicU64::new(0),
        reading: AtomicBool::new(false),
        failed: AtomicBool::new(false),
        in_vain: AtomicBool::new(false),
    }
}

/// Sleeps a millisecond.
pub fn sleep<C: Clock>(clock: &C) {
    thread::sleep(clock, Duration::from_millis(1));
}

/// Waits until something has happened, but no longer than `MOST`.
pub fn wait_until<C: Clock>(clock: &C, sign: &AtomicBool) {
    for _ in 0..MOST {
        if sign.load(Ordering::SeqCst) {
            return;
        }
        sleep(clock);
    }
}
