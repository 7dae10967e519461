//! The parts of bytes, read one after the other.
ghost use Rattle.std.specs.Prelude.{◌≡◌, ◌^◌, ℕ, [], None, Some, true, length, IfOk};
ghost use Rattle.audit_rules.specs.Readings.{unread, parts_read};
ghost use Rattle.trail_reading.specs.Takings.{HasNext, IsRead};

use crate::taking::take_part;
use audit_rules::recorded::{PARTS, Reading};
use smart_base::cursor::Cursor;
use smart_base::sequence::Sequence;
use std::alloc::{AllocError, Global};

/// Why the reading of parts stopped.
#[derive(Clone, Copy, Debug, PartialEq, Eq)]
pub enum Stop {
    /// No byte is left.
    Done,
    /// The next part cannot be read.
    Unreadable,
    /// One more part would be more than 2^24.
    Limit,
}

/// Trails as far as their parts could be read, and the number of these parts.
#[derive(Drop)]
pub struct PartsRead {
    pub reading: Reading,
    pub count: u64,
    pub stop: Stop,
}

/// Takes the next part of bytes. Answers whether it could be read; if not, the reading stays. Error: want
/// of memory.
#[tactic(auto, unfolding(audit_rules::specs::Readings::next_part, smart_base::specs::Cuts::contents))]
fn take_next(alloc: Global, reading: &mut Reading, cut: &mut Cursor<'_>) -> Result<bool, AllocError>
    ensures { IfOk result (λ taken. HasNext taken (record { reading = reading.old; cut = cut.old }) (record { reading = reading.new; cut = cut.new })) }
{
    match cut.take_bytes() {
        Ok(field) => take_part(alloc, reading, field.rest()),
        Err(_) => Ok(false),
    }
}

/// Reads the parts of bytes, up to the first that cannot be read, and no more than 2^24. Error: want of
/// memory.
pub fn read_parts(alloc: Global, bytes: &[u8]) -> Result<PartsRead, AllocError>
    ensures { IfOk result (λ read. IsRead bytes.now read) }
{
    let mut reading = Reading {
        trails: Sequence::new(alloc),
        begun: None,
    };
    let mut cut = Cursor::new(bytes);
    for count in 0..PARTS {
        if cut.is_done() {
            return Ok(PartsRead {
                reading,
                count,
                stop: Stop::Done,
            });
        }
        if !take_next(alloc, &mut reading, &mut cut)? {
            return Ok(PartsRead {
                reading,
                count,
                stop: Stop::Unreadable,
            });
        }
    }
    let stop = if cut.is_done() {
        Stop::Done
    } else {
        Stop::Limit
    };
    Ok(PartsRead {
        reading,
        count: PARTS,
        stop,
    })
}
