//! Sources and sinks in memory, for tests and for callers that hold their bytes.
ghost use Rattle.std.specs.Prelude.{◌≡◌, ◌==◌, ◌+◌, ◌-◌, ◌^◌, min, Some, drop};
ghost use Rattle.std.specs.List.{list_any};

use crate::stream::{Sink, Source};
use faults::Fault;

/// Bytes to be read.
#[derive(Drop)]
pub struct MemSource {
    pub bytes: Vec<u8>,
    /// How many of them were read.
    pub at: usize,
    /// The numbers of the calls, counted from 1, that are to fail.
    pub failing: Vec<u64>,
    pub calls: u64,
    pub faults: u64,
}

impl MemSource {
    /// A source of these bytes that fails at these calls.
    pub fn new(bytes: Vec<u8>, failing: Vec<u64>) -> Self
        ensures { result ≡ record { bytes = bytes; at = 0; failing = failing; calls = 0; faults = 0 } }
    {
        MemSource {
            bytes,
            at: 0,
            failing,
            calls: 0,
            faults: 0,
        }
    }
}

impl Source for MemSource {
    ghost left = { λ s. Some (drop s.at s.bytes.items) };

    ghost faults = { λ s. s.faults };

    ghost wants = { λ s. 0 };

    fn read(&mut self, piece: &mut [u8]) -> Result<usize, Fault> {
        self.calls = self.calls.saturating_add(1);
        if self.failing.contains(&self.calls) {
            self.faults = self.faults.saturating_add(1);
            return Err(Fault::Failed);
        }
        if self.at >= self.bytes.len() {
            return Ok(0);
        }
        let (_, rest) = self.bytes.as_slice().split_at(self.at);
        let count = piece.len().min(rest.len());
        let (front, _) = rest.split_at(count);
        piece[..count].copy_from_slice(front);
        self.at += count;
        Ok(count)
    }
}

/// Bytes that were written.
#[derive(Drop)]
pub struct MemSink {
    pub bytes: Vec<u8>,
    /// The numbers of the calls, counted from 1, that are to fail.
    pub failing: Vec<u64>,
    pub calls: u64,
    pub faults: u64,
    pub wants: u64,
}

impl MemSink {
    /// A sink behind these bytes that fails at these calls.
    pub fn new(bytes: Vec<u8>, failing: Vec<u64>) -> Self
        ensures { result ≡ record { bytes = bytes; failing = failing; calls = 0; faults = 0; wants = 0 } }
    {
        MemSink {
            bytes,
            failing,
            calls: 0,
            faults: 0,
            wants: 0,
        }
    }

    /// Counts a call, and tells whether it is to fail.
    fn is_failing(&mut self) -> bool
        ensures call { self.new ≡ record self.old { calls = min (self.old.calls + 1) (2 ^ 64 - 1) } }
        ensures answer { result ≡ list_any (λ call. call == self.new.calls) self.old.failing.items }
    {
        self.calls = self.calls.saturating_add(1);
        self.failing.contains(&self.calls)
    }
}

impl Sink for MemSink {
    ghost written = { λ s. Some s.bytes.items };

    ghost faults = { λ s. s.faults };

    ghost wants = { λ s. s.wants };

    fn write(&mut self, piece: &[u8]) -> Result<usize, Fault> {
        if self.is_failing() {
            self.faults = self.faults.saturating_add(1);
            return Err(Fault::Failed);
        }
        if self.bytes.extend_from_slice(piece).is_err() {
            self.wants = self.wants.saturating_add(1);
            return Err(Fault::NoMemory);
        }
        Ok(piece.len())
    }

    fn flush(&mut self) -> Result<(), Fault> {
        if self.is_failing() {
            self.faults = self.faults.saturating_add(1);
            return Err(Fault::Failed);
        }
        Ok(())
    }
}
