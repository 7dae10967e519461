//! How recorded runs are read from bytes.
ghost use Rattle.std.specs.Prelude.{◌≡◌, IfOk, IfErr};
ghost use Rattle.audit_rules.specs.Readings.{AreRead, all_begun};
ghost use Rattle.trail_audit.specs.Faults.{IsFault, IsWhole, IsWhy};

use crate::damage::{damaged_part, sum};
use audit_rules::recorded::{Reading, Recorded};
use smart_base::sequence::Sequence;
use std::alloc::{AllocError, Global};
use std::mem;
use trail_reading::parts::{PartsRead, Stop, read_parts};

/// Why bytes are no recorded runs. Parts are counted from 1.
#[derive(Clone, Copy, Debug, PartialEq, Eq)]
pub enum ReadingFault {
    /// There is no part.
    Empty,
    /// This part is lacking or cannot be read, or a member could not begin with it.
    Form { part: u64 },
    /// This part would be one of more than 2^24.
    Limit { part: u64 },
    /// Memory ran out.
    NoMemory,
}

impl From<AllocError> for ReadingFault {
    ghost use Rattle.std.specs.Prelude.{◌≡◌};
    ghost use Rattle.trail_audit.specs.declared.reader.ReadingFault.TheVariants.{NoMemory};

    ghost from_gives = { λ _ e. e ≡ NoMemory };

    fn from(_: AllocError) -> ReadingFault {
        ReadingFault::NoMemory
    }
}

/// All trails of a reading, the one that has begun among them. Error: want of memory.
fn all_begun(alloc: Global, reading: &mut Reading) -> Result<Sequence<Recorded>, AllocError>
    ensures { IfOk result (λ trails. trails ≡ all_begun reading.old) }
{
    let mut trails = mem::replace(&mut reading.trails, Sequence::new(alloc));
    match reading.begun.take() {
        None => Ok(trails),
        Some(trail) => {
            trails.push(trail)?;
            Ok(trails)
        }
    }
}

/// What becomes of parts that were read, none of which is damaged. Error: want of memory, also for 2^64
/// parts.
fn undamaged(
    trails: Sequence<Recorded>,
    lacks: bool,
    count: u64,
    stop: Stop,
) -> Result<Sequence<Recorded>, ReadingFault>
    ensures read { IfOk result (λ read. (read ≡ trails) × IsWhole lacks count stop) }
    ensures fault { IfErr result (IsWhy lacks count stop) }
{
    let next = sum(count, 1)?;
    match stop {
        Stop::Unreadable => Err(ReadingFault::Form { part: next }),
        Stop::Limit => Err(ReadingFault::Limit { part: next }),
        Stop::Done => {
            if count == 0 {
                return Err(ReadingFault::Empty);
            }
            if lacks {
                return Err(ReadingFault::Form { part: next });
            }
            Ok(trails)
        }
    }
}

/// Reads recorded runs: trails one after the other, each of them whole, of members that could begin so.
/// No number has two. Errors: no part; the number of the first part that is lacking or cannot be read, or
/// with which a member could not begin; more than 2^24 parts; want of memory.
pub fn read_trails(alloc: Global, bytes: &[u8]) -> Result<Sequence<Recorded>, ReadingFault>
    ensures read { IfOk result (AreRead bytes.now) }
    ensures fault { IfErr result (IsFault bytes.now) }
{
    let read = read_parts(alloc, bytes)?;
    let PartsRead {
        mut reading,
        count,
        stop,
    } = read;
    let lacks = reading.begun.is_some();
    let trails = all_begun(alloc, &mut reading)?;
    let damage = damaged_part(alloc, trails.as_slice())?;
    match damage {
        None => {}
        Some(part) => return Err(ReadingFault::Form { part }),
    }
    match undamaged(trails, lacks, count, stop) {
        Ok(whole) => Ok(whole),
        Err(fault) => Err(fault),
    }
}
