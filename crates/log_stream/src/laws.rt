//! The law of a log that is read as a stream. It speaks of definitions alone.
ghost use Rattle.std.specs.Prelude.{◌≡◌, List, ℕ, true};
ghost use Rattle.log_stream.specs.Stream.{Reads, HasRead};
ghost use Rattle.log_stream.specs.declared.reader.LogReader.{LogReader};

/// A reader that has given all entries knows what the opening of the log finds.
pub fn what_is_read_at_the_end()
    ensures { (bytes : List ℕ) (reader : LogReader) → Reads bytes reader → reader.ended ≡ true → HasRead bytes reader }
{}
