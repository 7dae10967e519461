//! Sources and sinks of bytes.
ghost use Rattle.std.specs.Prelude.{◌≡◌, ◌≤◌, ◌<◌, List, ℕ, IfOk, OnOk, OnErr, Option, take, length};
ghost use Rattle.std.specs.Io.{ReadsAtMost, WritesAtMost};
ghost use Rattle.std.specs.Io.KnownBytes.{ReadConsumes, WriteAppends, Appends, Keeps};
ghost use Rattle.faults.specs.Counts.{Rose, HasCause, HasWant};

use faults::Fault;

/// A source of bytes.
pub trait Source {
    /// What is left, where the source tells.
    ghost left: { Self → Option (List ℕ) };

    /// How often it has failed.
    ghost faults: { Self → ℕ };

    /// How often it has wanted memory.
    ghost wants: { Self → ℕ };

    /// Reads into a piece and gives the number of bytes read. 0 for a piece that is not empty is
    /// the end of the input. A read that fails consumes nothing.
    fn read(&mut self, piece: &mut [u8]) -> Result<usize, Fault>
        ensures bound { ReadsAtMost result piece.new }
        ensures bytes { ReadConsumes (left self.old) (left self.new) result piece.new }
        ensures cause { HasCause (faults self.old) (faults self.new) result }
        ensures want { HasWant (wants self.old) (wants self.new) result };
}

/// A sink of bytes.
pub trait Sink {
    /// What was written, where the sink tells.
    ghost written: { Self → Option (List ℕ) };

    /// How often it has failed.
    ghost faults: { Self → ℕ };

    /// How often it has wanted memory.
    ghost wants: { Self → ℕ };

    /// Writes of a piece and gives the number of bytes written. 0 for a piece that is not empty is
    /// a fault. A write that fails writes nothing.
    fn write(&mut self, piece: &[u8]) -> Result<usize, Fault>
        ensures bound { WritesAtMost result piece.now }
        ensures bytes { WriteAppends (written self.old) (written self.new) result piece.now }
        ensures stalled { IfOk result (λ n. n ≡ 0 → 0 < length piece.now → Rose (faults self.old) (faults self.new)) }
        ensures cause { HasCause (faults self.old) (faults self.new) result }
        ensures want { HasWant (wants self.old) (wants self.new) result };

    /// Lets all that was written go on.
    fn flush(&mut self) -> Result<(), Fault>
        ensures bytes { Keeps (written self.old) (written self.new) }
        ensures cause { HasCause (faults self.old) (faults self.new) result }
        ensures want { HasWant (wants self.old) (wants self.new) result };
}

/// Writes all bytes, in as many pieces as the sink takes. After an `Err` the first of them are
/// written.
pub fn write_all<O: Sink>(sink: &mut O, bytes: &[u8]) -> Result<(), Fault>
    ensures ok { OnOk result (Appends (O.written sink.old) (O.written sink.new) bytes.now) }
    ensures err { OnErr result ((count : ℕ) × Appends (O.written sink.old) (O.written sink.new) (take count bytes.now)) }
    ensures cause { HasCause (O.faults sink.old) (O.faults sink.new) result }
    ensures want { HasWant (O.wants sink.old) (O.wants sink.new) result }
{
    let mut done = 0;
    while done < bytes.len() {
        let (_, rest) = bytes.split_at(done);
        let count = sink.write(rest)?;
        if count == 0 {
            return Err(Fault::Failed);
        }
        done += count;
    }
    Ok(())
}
