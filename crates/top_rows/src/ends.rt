//! The input, the output and the clock of a life.
ghost use Rattle.std.specs.Prelude.{None};

use crate::course::Course;
use crate::signs::{Signs, wait_until};
use clock_gate::clock::Clock;
use faults::Fault;
use smart_io::memory::{MemSink, MemSource};
use smart_io::stream::{Sink, Source};
use std::sync::atomic::Ordering;

/// An input in memory that takes its course. No clause tells its bytes.
#[derive(Drop)]
pub struct TrialSource<'a> {
    /// The bytes that have come by the course.
    pub inner: MemSource,
    pub course: Course<'a>,
}

impl<'a> TrialSource<'a> {
    ghost use Rattle.std.specs.Prelude.{◌≡◌};

    /// Takes what comes next by the course, if all bytes were read.
    fn refill(&mut self)
        ensures { self.new.inner.faults ≡ self.old.inner.faults }
    {
        if self.inner.at < self.inner.bytes.len() {
            return;
        }
        if let Some(bytes) = self.course.next() {
            self.inner.bytes = bytes;
            self.inner.at = 0;
        }
    }
}

impl<'a> Source for TrialSource<'a> {
    ghost left = { λ _. None };

    ghost faults = { λ s. s.inner.faults };

    ghost wants = { λ _. 0 };

    fn read(&mut self, piece: &mut [u8]) -> Result<usize, Fault> {
        self.refill();
        self.inner.read(piece)
    }
}

/// A clock that tells the time that has passed by the course of the input.
#[derive(Drop)]
pub struct TrialClock<'a> {
    pub signs: &'a Signs,
}

impl<'a> Clock for TrialClock<'a> {
    fn now(&mut self) -> u64 {
        let now = self.signs.time.load(Ordering::SeqCst);
        self.signs.looks.fetch_add(1, Ordering::SeqCst);
        now
    }
}

/// An output in memory that may fail only once the input waits for that. It counts the frames.
#[derive(Drop)]
pub struct TrialSink<'a> {
    pub inner: MemSink,
    pub waits: bool,
    pub signs: &'a Signs,
    pub rt: &'a HostRuntime,
}

impl<'a> Sink for TrialSink<'a> {
    ghost written = { λ _. None };

    ghost faults = { λ s. s.inner.faults };

    ghost wants = { λ s. s.inner.wants };

    fn write(&mut self, piece: &[u8]) -> Result<usize, Fault> {
        if self.waits {
            wait_until(self.rt, &self.signs.reading);
        }
        let answer = self.inner.write(piece);
        if answer.is_err() {
            self.signs.failed.store(true, Ordering::SeqCst);
        }
        answer
    }

    /// A member lets each frame go on by itself.
    fn flush(&mut self) -> Result<(), Fault> {
        let answer = self.inner.flush();
        if answer.is_ok() {
            self.signs.written.fetch_add(1, Ordering::SeqCst);
        }
        answer
    }
}
