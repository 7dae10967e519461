//! A lane, in one thread and between two.
ghost use Rattle.std.specs.Prelude.{◌≡◌, []};
ghost use Rattle.log_lane.specs.Lane.{lane_put, lane_read, lane_capacity, lane_taken, lane_raised, lane_heard_put, in_lane, out_lane};

use log_lane::ends::{LaneEnd, lane, rejoin};
use log_lane::inward::LaneIn;
use log_lane::outward::LaneOut;
use std::alloc::Global;
use std::process::Abort;
use std::sync::Wait;
use std::thread;
use std::thread::Threads;

/// The ends of a new lane.
fn ends(rt: &impl Abort, alloc: Global, capacity: usize) -> (LaneIn<u32>, LaneOut<u32>)
    ensures lane { in_lane result.0 ≡ out_lane result.1 }
    ensures inward { (lane_put result.0 ≡ []) × (lane_read result.0 ≡ 0) × (lane_capacity result.0 ≡ capacity) }
    ensures outward { (lane_taken result.1 ≡ []) × (lane_raised result.1 ≡ 0) × (lane_heard_put result.1 ≡ []) }
{
    lane(alloc, capacity).expect(rt, "there is memory")
}

/// Puts the numbers below `count`, as fast as they are stored.
fn put_all<R: Wait>(rt: &R, inward: LaneIn<u32>, count: u32) -> LaneIn<u32>
    ensures { in_lane result ≡ in_lane inward }
{
    let mut inward = inward;
    let mut next = 0;
    for _ in rt.forever() {
        if next >= count {
            break;
        }
        if inward.room() == 0 {
            inward.firm();
            thread::yield_now();
        } else {
            inward.put(rt, next);
            next += 1;
        }
    }
    inward
}

/// Takes so many entries, and stores each. The second result is how many came in their turn.
fn store_all<R: Wait>(rt: &R, outward: LaneOut<u32>, count: u64) -> (LaneOut<u32>, u32)
    ensures { out_lane result.0 ≡ out_lane outward }
{
    let mut outward = outward;
    let mut next: u32 = 0;
    for _ in rt.forever() {
        let taken = outward.taken();
        outward.raise(taken);
        if taken >= count {
            break;
        }
        match outward.take(rt) {
            Some(entry) if entry == next => next = next.wrapping_add(1),
            Some(_) => {}
            None => thread::yield_now(),
        }
    }
    (outward, next)
}

/// How many of the numbers below `count` went in their turn from one thread to another.
fn carried<R: Threads + Wait + Abort + Sync>(rt: &R, alloc: Global, count: u32) -> (u32, LaneEnd) {
    let (inward, outward) = ends(rt, alloc, 3);
    let (inward, (outward, in_turn)) = thread::join(
        rt,
        move || -> LaneIn<u32>
            ensures { in_lane result ≡ in_lane inward }
        { put_all(rt, inward, count) },
        move || -> (LaneOut<u32>, u32)
            ensures { out_lane result.0 ≡ out_lane outward }
        { store_all(rt, outward, u64::from(count)) },
    );
    (in_turn, rejoin(inward, outward))
}

#[test]
fn entries_arrive_in_order_and_are_stored(rt: HostRuntime) {
    let (in_turn, end) = carried(&rt, rt.alloc(), 5000);
    assert!(rt; in_turn == 5000);
    assert!(rt; [end.put, end.taken, end.firm] == [5000, 5000, 5000]);
}

#[test]
fn room_comes_back_when_entries_are_stored(rt: HostRuntime) {
    let (mut inward, mut outward) = ends(&rt, rt.alloc(), 2);
    inward.put(&rt, 5);
    inward.put(&rt, 6);
    let entry = outward.take(&rt);
    assert!(rt; entry == Some(5));
    let before = [inward.firm(), inward.room()];
    outward.raise(1);
    let behind = [inward.firm(), inward.room()];
    let end = rejoin(inward, outward);
    assert!(rt; before == [0, 0]);
    assert!(rt; behind == [1, 1]);
    assert!(rt; end.firm == 1);
}

#[test]
fn each_end_of_a_lane_hears_the_other(rt: HostRuntime) {
    let (mut inward, mut outward) = ends(&rt, rt.alloc(), 2);
    let told = inward.tell();
    outward.hear(told);
    outward.compare();
    let told = outward.tell();
    inward.hear(told);
    assert!(rt; rejoin(inward, outward).put == 0);
}
