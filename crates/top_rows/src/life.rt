//! A life, and what is said of it.
use crate::case::Case;
use crate::course::Course;
use crate::ends::{TrialClock, TrialSink, TrialSource};
use crate::fault::RowFault;
use crate::gates::{TrialGate, has_given_up, have_all_written};
use crate::signs::{MOST, no_signs};
use disk_model::room::DiskRoom;
use frame_stream::stream::Frames;
use node_rooms::trails::TrailRoom;
use script_play::status::Status;
use smart_io::memory::{MemSink, MemSource};
use smart_top::audit::audit;
use smart_top::top::run;
use std::alloc::{AllocError, Global};
use std::sync::Wait;
use std::sync::atomic::Ordering;
use std::thread::Threads;

/// What a life answers, writes and says.
#[derive(Drop)]
pub struct Ending {
    pub status: Status,
    pub written: Vec<u8>,
    pub said: Vec<u8>,
    /// The place that was delivered last.
    pub delivered: u64,
    /// Whether a gate was to hold, and whether it has given up.
    pub holds: bool,
    pub gave_up: bool,
    /// Whether it was to hold the member behind a delivery.
    pub stays: bool,
    /// Whether all members were about to write, where a gate waits for that.
    pub all_wrote: Option<bool>,
    /// Whether the input has waited in vain.
    pub in_vain: bool,
    /// The trails of others that are audited behind the member's own.
    pub others: Vec<u8>,
}

/// A list of one number.
fn only(alloc: Global, number: u64) -> Result<Vec<u64>, AllocError> {
    let mut numbers = Vec::new(alloc);
    numbers.push(number)?;
    Ok(numbers)
}

/// Lets a member live in rooms. `handle` starts its threads.
pub fn lived<R: Threads + Wait + Sync, M: DiskRoom, T: TrailRoom>(
    handle: &R,
    rt: &HostRuntime,
    case: Case,
    room: &mut M,
    trails: &mut T,
) -> Result<Ending, RowFault>
where
    M::Disk: Send,
    T::Sink: Send,
{
    let alloc = rt.alloc();
    let holds = case.is_held();
    let stays = case.stays > 0;
    let rule = case.rule;
    let signs = no_signs(!case.holds, case.stays);
    let mut input = TrialSource {
        inner: MemSource::new(Vec::new(alloc), only(alloc, case.read)?),
        course: Course {
            alloc,
            steps: case.steps,
            frames: 0,
            patience: MOST,
            signs: &signs,
            rt,
        },
    };
    let mut output = TrialSink {
        inner: MemSink::new(Vec::new(alloc), only(alloc, case.write)?),
        waits: case.waits,
        signs: &signs,
        rt,
    };
    let mut clock = TrialClock { signs: &signs };
    let mut errors = MemSink::new(Vec::new(alloc), Vec::new(alloc));
    let gate = TrialGate {
        rule,
        signs: &signs,
        rt,
    };
    let status = run(
        handle,
        alloc,
        case.words.as_slice(),
        &mut input,
        &mut output,
        &mut errors,
        room,
        &mut clock,
        trails,
        &gate,
    );
    Ok(Ending {
        status,
        written: output.inner.bytes,
        said: errors.bytes,
        delivered: signs.delivered.load(Ordering::SeqCst),
        holds,
        gave_up: has_given_up(&signs),
        stays,
        all_wrote: have_all_written(rule, &signs),
        in_vain: signs.in_vain.load(Ordering::SeqCst),
        others: case.others,
    })
}

/// Says the frames that a member wrote.
fn say_frames(rt: &HostRuntime, written: &[u8]) -> Result<(), RowFault> {
    let alloc = rt.alloc();
    let mut frames = Frames::new(alloc);
    if frames.feed(written).is_err() {
        return Err(RowFault::NoMemory);
    }
    for _ in 0..written.len() {
        let Some(frame) = frames.next() else {
            break;
        };
        let word = hex::encode(alloc, frame.as_slice())?;
        println!(rt; "frame {word}")?;
    }
    Ok(())
}

/// Says what an audit tells of a trail, and of those of others behind it.
fn say_audit(rt: &HostRuntime, trail: Vec<u8>, others: &[u8]) -> Result<(), RowFault> {
    let alloc = rt.alloc();
    let mut trails = trail;
    trails.extend_from_slice(others)?;
    let mut input = MemSource::new(trails, Vec::new(alloc));
    let mut output = MemSink::new(Vec::new(alloc), Vec::new(alloc));
    audit(alloc, &mut input, &mut output);
    let told = output.bytes.as_slice().trim_ascii_end().escape_ascii();
    println!(rt; "trail {told}")?;
    Ok(())
}

/// The number of ticks in a trail.
fn ticks_in(alloc: Global, trail: &[u8]) -> Result<u64, RowFault> {
    let mut parts = Frames::new(alloc);
    if parts.feed(trail).is_err() {
        return Err(RowFault::NoMemory);
    }
    let mut ticks: u64 = 0;
    for _ in 0..trail.len() {
        let Some(part) = parts.next() else {
            break;
        };
        if part.as_slice() == b"\x02".as_slice() {
            ticks = ticks.saturating_add(1);
        }
    }
    Ok(ticks)
}

/// Says the number of ticks in a trail, if it has one.
fn say_ticks(rt: &HostRuntime, trail: &[u8]) -> Result<(), RowFault> {
    let ticks = ticks_in(rt.alloc(), trail)?;
    if ticks > 0 {
        println!(rt; "ticks {ticks}")?;
    }
    Ok(())
}

/// The number of messages that came before the first tick in a trail. The life has restored no entry.
fn arrivals_in(alloc: Global, trail: &[u8]) -> Result<u64, RowFault> {
    let mut parts = Frames::new(alloc);
    if parts.feed(trail).is_err() {
        return Err(RowFault::NoMemory);
    }
    let mut arrivals: u64 = 0;
    for _ in 0..trail.len() {
        let Some(part) = parts.next() else {
            break;
        };
        match part.as_slice().get(0) {
            Some(1) => arrivals = arrivals.saturating_add(1),
            Some(2) => break,
            _ => {}
        }
    }
    Ok(arrivals)
}

/// Says how many messages came before the first tick in a trail.
fn say_arrivals(rt: &HostRuntime, trail: &[u8]) -> Result<(), RowFault> {
    let arrivals = arrivals_in(rt.alloc(), trail)?;
    println!(rt; "messages before the first tick {arrivals}")?;
    Ok(())
}

/// Says whether a gate that was to hold gave up, and whether the input waited in vain.
pub fn say_waits(rt: &HostRuntime, ending: &Ending) -> Result<(), RowFault> {
    if ending.holds {
        let gave_up = ending.gave_up;
        println!(rt; "the gate gave up: {gave_up}")?;
    }
    if ending.in_vain {
        println!(rt; "the input waited in vain")?;
    }
    Ok(())
}

/// Says how a life has ended. What it has written is said only if it has done all.
pub fn say(rt: &HostRuntime, ending: &Ending, trail: Vec<u8>) -> Result<(), RowFault> {
    let code = ending.status.code();
    let said = ending.said.as_slice().trim_ascii_end().escape_ascii();
    println!(rt; "status {code} {said}")?;
    let delivered = ending.delivered;
    println!(rt; "delivered {delivered}")?;
    say_waits(rt, ending)?;
    if ending.status == Status::Ok {
        say_frames(rt, ending.written.as_slice())?;
        say_ticks(rt, trail.as_slice())?;
        if ending.stays {
            say_arrivals(rt, trail.as_slice())?;
        }
        say_audit(rt, trail, ending.others.as_slice())?;
    }
    Ok(())
}
