//! How one more part of trails is taken.
ghost use Rattle.std.specs.Prelude.{◌≡◌, ◌++◌, ◌∷◌, [], Some, IfOk, OnOk};
ghost use Rattle.trail.specs.Events.{event_decoded};
ghost use Rattle.trail.specs.Openings.{opening_decoded};
ghost use Rattle.audit_rules.specs.Readings.{is_known, beginning, opening_taken, entry_taken, may_happen, is_end, with_event, event_added, event_taken, next_taken, takes};
ghost use Rattle.trail_reading.specs.Takings.{HasTaken};

use audit_rules::recorded::{Reading, Recorded};
use smart_base::fault::ReadError;
use smart_base::sequence::{Bytes, Sequence};
use smart_statements::entry::NodeEvent;
use std::alloc::{AllocError, Global};
use trail::event::TrailEvent;
use trail::event_bytes::decode_event;
use trail::opening::TrailOpening;
use trail::opening_bytes::decode_opening;

fn is_known(trails: &[Recorded], member: u16) -> bool
    ensures { result ≡ is_known trails.now member }
{
    trails.iter().any(|trail| trail.opening.member == member)
}

fn beginning(alloc: Global, opening: TrailOpening) -> Recorded
    ensures { result ≡ beginning opening }
{
    Recorded {
        opening,
        entries: Sequence::new(alloc),
        events: Sequence::new(alloc),
    }
}

/// Begins a trail, unless its number has one.
fn begin(alloc: Global, reading: &mut Reading, opening: TrailOpening) -> bool
    ensures { HasTaken result (opening_taken reading.old (Ok opening)) reading.old reading.new }
{
    if is_known(reading.trails.as_slice(), opening.member) {
        return false;
    }
    reading.begun = Some(beginning(alloc, opening));
    true
}

fn take_opening(alloc: Global, reading: &mut Reading, bytes: &[u8]) -> Result<bool, AllocError>
    ensures { IfOk result (λ taken. HasTaken taken (opening_taken reading.old (opening_decoded bytes.now)) reading.old reading.new) }
{
    match decode_opening(alloc, bytes) {
        Ok(opening) => Ok(begin(alloc, reading, opening)),
        Err(ReadError::Unread { at: _ }) => Ok(false),
        Err(ReadError::NoMemory) => Err(AllocError),
    }
}

/// Takes an entry of a trail that has begun.
fn take_entry(
    alloc: Global,
    reading: &mut Reading,
    trail: Recorded,
    bytes: &[u8],
) -> Result<bool, AllocError>
    ensures { IfOk result (λ taken. HasTaken taken (entry_taken reading.old trail bytes.now) (record reading.old { begun = Some trail }) reading.new) }
{
    let mut trail = trail;
    if trail.opening.member == 0 {
        reading.begun = Some(trail);
        return Ok(false);
    }
    trail.entries.push(Bytes::from_slice(alloc, bytes)?)?;
    reading.begun = Some(trail);
    Ok(true)
}

/// Whether a client's trail may have an event.
fn may_happen(event: &TrailEvent) -> bool
    ensures { result ≡ may_happen event.now }
{
    match event {
        TrailEvent::Happens(NodeEvent::Arrive(_)) => true,
        TrailEvent::Happens(NodeEvent::Tick) => false,
        TrailEvent::Happens(NodeEvent::Deliver) => false,
        TrailEvent::Happens(NodeEvent::Firm(_)) => false,
        TrailEvent::Send(_) => true,
        TrailEvent::Lost(_) => true,
        TrailEvent::Polls(_) => true,
        TrailEvent::End => true,
    }
}

fn is_end(event: &TrailEvent) -> bool
    ensures { result ≡ is_end event.now }
{
    match event {
        TrailEvent::Happens(_) => false,
        TrailEvent::Send(_) => false,
        TrailEvent::Lost(_) => false,
        TrailEvent::Polls(_) => false,
        TrailEvent::End => true,
    }
}

/// Adds an event to a trail that has begun. Error: want of memory.
fn add_event(reading: &mut Reading, trail: Recorded, event: TrailEvent) -> Result<(), AllocError>
    ensures { OnOk result (reading.new ≡ event_added reading.old trail event) }
{
    let mut trail = trail;
    let end = is_end(&event);
    trail.events.push(event)?;
    if end {
        reading.trails.push(trail)?;
        reading.begun = None;
    } else {
        reading.begun = Some(trail);
    }
    Ok(())
}

/// Takes an event that was read, of a trail that has begun.
fn take_read(reading: &mut Reading, trail: Recorded, event: TrailEvent) -> Result<bool, AllocError>
    ensures { IfOk result (λ taken. HasTaken taken (event_taken reading.old trail (Ok event)) (record reading.old { begun = Some trail }) reading.new) }
{
    if trail.opening.member == 0 && !may_happen(&event) {
        reading.begun = Some(trail);
        return Ok(false);
    }
    add_event(reading, trail, event)?;
    Ok(true)
}

/// Takes an event of a trail that has begun.
fn take_event(
    alloc: Global,
    reading: &mut Reading,
    trail: Recorded,
    bytes: &[u8],
) -> Result<bool, AllocError>
    ensures { IfOk result (λ taken. HasTaken taken (event_taken reading.old trail (event_decoded bytes.now)) (record reading.old { begun = Some trail }) reading.new) }
{
    match decode_event(alloc, bytes) {
        Ok(event) => take_read(reading, trail, event),
        Err(ReadError::Unread { at: _ }) => {
            reading.begun = Some(trail);
            Ok(false)
        }
        Err(ReadError::NoMemory) => Err(AllocError),
    }
}

/// Takes a part of a trail that has begun.
fn take_next(
    alloc: Global,
    reading: &mut Reading,
    trail: Recorded,
    bytes: &[u8],
) -> Result<bool, AllocError>
    ensures { IfOk result (λ taken. HasTaken taken (next_taken reading.old trail bytes.now) (record reading.old { begun = Some trail }) reading.new) }
{
    if (trail.entries.len() as u64) < trail.opening.entries {
        take_entry(alloc, reading, trail, bytes)
    } else {
        take_event(alloc, reading, trail, bytes)
    }
}

/// Takes one more part. Answers whether it could be read; if not, the reading stays. Error: want of
/// memory.
#[tactic(auto, unfolding(audit_rules::specs::Readings::takes))]
pub fn take_part(alloc: Global, reading: &mut Reading, bytes: &[u8]) -> Result<bool, AllocError>
    ensures { IfOk result (λ taken. HasTaken taken (takes reading.old bytes.now) reading.old reading.new) }
{
    match reading.begun.take() {
        None => take_opening(alloc, reading, bytes),
        Some(trail) => take_next(alloc, reading, trail, bytes),
    }
}
