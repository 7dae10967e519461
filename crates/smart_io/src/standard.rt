//! Sources and sinks over std's readers and writers, with counts of what failed.
ghost use Rattle.std.specs.Prelude.{◌≡◌};

use crate::stream::{Sink, Source};
use faults::Fault;
use std::io::{Read, Write};

/// A source over a reader. It tells what the reader tells.
#[derive(Drop)]
pub struct StdSource<R> {
    pub inner: R,
    pub faults: u64,
}

impl<R: Read> Source for StdSource<R> {
    ghost left = { λ s. R.remaining s.inner };

    ghost faults = { λ s. s.faults };

    ghost wants = { λ s. 0 };

    fn read(&mut self, piece: &mut [u8]) -> Result<usize, Fault> {
        match self.inner.read(piece) {
            Ok(count) => Ok(count),
            Err(_) => {
                self.faults = self.faults.saturating_add(1);
                Err(Fault::Failed)
            }
        }
    }
}

/// A sink over a writer. It tells what the writer tells.
#[derive(Drop)]
pub struct StdSink<W> {
    pub inner: W,
    pub faults: u64,
}

impl<W: Write> Sink for StdSink<W> {
    ghost written = { λ s. W.contents s.inner };

    ghost faults = { λ s. s.faults };

    ghost wants = { λ s. 0 };

    fn write(&mut self, piece: &[u8]) -> Result<usize, Fault> {
        match self.inner.write(piece) {
            Ok(count) => {
                if count == 0 && !piece.is_empty() {
                    self.faults = self.faults.saturating_add(1);
                }
                Ok(count)
            }
            Err(_) => {
                self.faults = self.faults.saturating_add(1);
                Err(Fault::Failed)
            }
        }
    }

    fn flush(&mut self) -> Result<(), Fault> {
        match self.inner.flush() {
            Ok(()) => Ok(()),
            Err(_) => {
                self.faults = self.faults.saturating_add(1);
                Err(Fault::Failed)
            }
        }
    }
}
