//! A link, in one thread and between two.
ghost use Rattle.std.specs.Prelude.{◌≡◌, []};
ghost use Rattle.group_links.specs.Link.{link_put, link_taken, link_heard_put, in_link, out_link};

use group_links::ends::{LinkEnd, link, rejoin};
use group_links::inward::{LinkIn, Sending};
use group_links::outward::LinkOut;
use std::alloc::Global;
use std::process::Abort;
use std::sync::Wait;
use std::thread;
use std::thread::Threads;

/// The ends of a new link.
fn ends(rt: &impl Abort, alloc: Global, capacity: usize) -> (LinkIn<u32>, LinkOut<u32>)
    ensures link { in_link result.0 ≡ out_link result.1 }
    ensures inward { link_put result.0 ≡ [] }
    ensures outward { (link_taken result.1 ≡ []) × (link_heard_put result.1 ≡ []) }
{
    link(alloc, capacity).expect(rt, "there is memory")
}

/// Sends the numbers below `count`, each again while the link is full.
fn send_all<R: Wait>(rt: &R, inward: LinkIn<u32>, count: u32) -> LinkIn<u32>
    ensures { in_link result ≡ in_link inward }
{
    let mut inward = inward;
    let mut next = 0;
    for _ in rt.forever() {
        if next >= count {
            break;
        }
        match inward.send(rt, next) {
            Sending::Sent => next += 1,
            Sending::Dropped { message: _ } => thread::yield_now(),
        }
    }
    inward
}

/// Polls until so many messages came. The second result is how many came in their turn.
fn poll_all<R: Wait>(rt: &R, outward: LinkOut<u32>, count: u32) -> (LinkOut<u32>, u32)
    ensures { out_link result.0 ≡ out_link outward }
{
    let mut outward = outward;
    let mut came: u32 = 0;
    let mut next: u32 = 0;
    for _ in rt.forever() {
        if came >= count {
            break;
        }
        match outward.poll(rt) {
            Some(message) => {
                came = came.wrapping_add(1);
                next = next.wrapping_add(u32::from(message == next));
            }
            None => thread::yield_now(),
        }
    }
    (outward, next)
}

/// How many of the numbers below `count` came in their turn from one thread to another.
fn carried<R: Threads + Wait + Abort + Sync>(rt: &R, alloc: Global, count: u32) -> (u32, LinkEnd) {
    let (inward, outward) = ends(rt, alloc, 3);
    let (inward, (outward, in_turn)) = thread::join(
        rt,
        move || -> LinkIn<u32>
            ensures { in_link result ≡ in_link inward }
        { send_all(rt, inward, count) },
        move || -> (LinkOut<u32>, u32)
            ensures { out_link result.0 ≡ out_link outward }
        { poll_all(rt, outward, count) },
    );
    (in_turn, rejoin(inward, outward))
}

#[test]
fn messages_arrive_in_order(rt: HostRuntime) {
    let (in_turn, end) = carried(&rt, rt.alloc(), 2000);
    assert!(rt; in_turn == 2000);
    assert!(rt; [end.put, end.taken] == [2000, 2000]);
}

/// Whether a message is sent.
fn sends<R: Wait>(rt: &R, inward: &mut LinkIn<u32>, message: u32) -> bool
    ensures { in_link inward.new ≡ in_link inward.old }
{
    match inward.send(rt, message) {
        Sending::Sent => true,
        Sending::Dropped { message: _ } => false,
    }
}

#[test]
fn a_full_link_drops(rt: HostRuntime) {
    let (mut inward, mut outward) = ends(&rt, rt.alloc(), 1);
    let sent = [sends(&rt, &mut inward, 3), sends(&rt, &mut inward, 4)];
    let came = [outward.poll(&rt), outward.poll(&rt)];
    let is_sent = sends(&rt, &mut inward, 5);
    let end = rejoin(inward, outward);
    assert!(rt; sent == [true, false]);
    assert!(rt; came == [Some(3), None]);
    assert!(rt; is_sent);
    assert!(rt; [end.put, end.taken] == [2, 1]);
}

#[test]
fn each_end_of_a_link_hears_the_other(rt: HostRuntime) {
    let (mut inward, mut outward) = ends(&rt, rt.alloc(), 1);
    let told = inward.tell();
    outward.hear(told);
    outward.compare();
    let told = outward.tell();
    inward.hear(told);
    assert!(rt; rejoin(inward, outward).put == 0);
}
