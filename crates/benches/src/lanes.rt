//! Numbers from one thread to another, through a lane or through the kit's plain queue, for
//! `bench/lane.sh`.

ghost use Rattle.std.specs.Prelude.{◌≡◌, ◌≤◌};
ghost use Rattle.log_lane.specs.Lane.{in_lane, out_lane, lane_room};

use crate::done::{Done, Stopped};
use crate::wanted::count_of;
use crossbeam_queue::ArrayQueue;
use log_lane::ends::{lane, rejoin};
use log_lane::inward::LaneIn;
use log_lane::outward::LaneOut;
use std::alloc::Global;
use std::sync::Wait;
use std::thread::{self, Threads};

/// How many numbers are on the way at most.
const CAPACITY: usize = 1024;

/// How many numbers are taken from the lane before they are said to be stored.
const GROUP: u64 = 64;

/// Waits until the lane has room.
fn wait_for_room<R: Wait>(rt: &R, inward: &mut LaneIn<u64>)
    ensures lane { in_lane inward.new ≡ in_lane inward.old }
    ensures room { 1 ≤ lane_room inward.new }
{
    for _ in rt.forever() {
        if inward.room() >= 1 {
            return;
        }
        inward.firm();
        if inward.room() == 0 {
            thread::yield_now();
        }
    }
    unreachable!()
}

/// Puts the numbers below `count` on the lane.
fn put_numbers<R: Wait>(rt: &R, inward: LaneIn<u64>, count: u64) -> LaneIn<u64>
    ensures { in_lane result ≡ in_lane inward }
{
    let mut inward = inward;
    for number in 0..count {
        wait_for_room(rt, &mut inward);
        inward.put(rt, number);
    }
    inward
}

/// Says that all numbers taken are stored.
fn raise_all(outward: &mut LaneOut<u64>)
    ensures { out_lane outward.new ≡ out_lane outward.old }
{
    let taken = outward.taken();
    outward.raise(taken);
}

/// Takes so many numbers from the lane.
fn take_numbers<R: Wait>(rt: &R, outward: LaneOut<u64>, count: u64) -> (LaneOut<u64>, Done)
    ensures { out_lane result.0 ≡ out_lane outward }
{
    let mut outward = outward;
    let mut arrived = Done::nothing();
    for _ in rt.forever() {
        if arrived.amount >= count {
            break;
        }
        match outward.take(rt) {
            Some(number) => {
                arrived = arrived.with(1, number);
                if arrived.amount % GROUP == 0 {
                    raise_all(&mut outward);
                }
            }
            None => {
                raise_all(&mut outward);
                thread::yield_now();
            }
        }
    }
    raise_all(&mut outward);
    (outward, arrived)
}

/// Carries so many numbers through a lane.
pub fn by_lane<R: Threads + Wait + Sync>(
    rt: &R,
    alloc: Global,
    words: &str,
) -> Result<Done, Stopped> {
    let count = count_of(words)?;
    let (inward, outward) = lane(alloc, CAPACITY)?;
    let (inward, (outward, arrived)) = thread::join(
        rt,
        move || -> LaneIn<u64>
            ensures { in_lane result ≡ in_lane inward }
        { put_numbers(rt, inward, count) },
        move || -> (LaneOut<u64>, Done)
            ensures { out_lane result.0 ≡ out_lane outward }
        { take_numbers(rt, outward, count) },
    );
    let end = rejoin(inward, outward);
    Ok(Done {
        amount: end.firm,
        sum: arrived.sum,
    })
}

/// Pushes a number, and again while the queue is full.
fn push<R: Wait>(rt: &R, queue: &ArrayQueue<u64>, number: u64) {
    for _ in rt.forever() {
        if queue.push(rt, number).is_ok() {
            return;
        }
        thread::yield_now();
    }
}

/// Pushes the numbers below `count`.
fn push_numbers<R: Wait>(rt: &R, queue: &ArrayQueue<u64>, count: u64) {
    for number in 0..count {
        push(rt, queue, number);
    }
}

/// Pops so many numbers.
fn pop_numbers<R: Wait>(rt: &R, queue: &ArrayQueue<u64>, count: u64) -> Done {
    let mut arrived = Done::nothing();
    for _ in rt.forever() {
        if arrived.amount >= count {
            break;
        }
        match queue.pop(rt) {
            Some(number) => arrived = arrived.with(1, number),
            None => thread::yield_now(),
        }
    }
    arrived
}

/// Carries so many numbers through a plain queue.
pub fn by_queue<R: Threads + Wait + Sync>(
    rt: &R,
    alloc: Global,
    words: &str,
) -> Result<Done, Stopped> {
    let count = count_of(words)?;
    let queue = ArrayQueue::new(alloc, CAPACITY)?;
    let (_, arrived) = thread::join(
        rt,
        || push_numbers(rt, &queue, count),
        || pop_numbers(rt, &queue, count),
    );
    Ok(arrived)
}
