//! A group of four members that replicates the lock.
use app_lock::Lock;
use client_quorum::client::Acceptance;
use smart_base::limits::PERIOD;
use smart_base::name::MemberId;
use smart_base::view::View;
use std::alloc::Global;
use std::process::Abort;
use world_core::world::World;
use world_rules::line::Header;
use world_script::reading::read_line;

/// Members 1 to 4, of which one may be faulty.
fn group(alloc: Global) -> Option<View> {
    let members = [
        MemberId::new(1),
        MemberId::new(2),
        MemberId::new(3),
        MemberId::new(4),
    ];
    View::checked(0, 1, 1, Vec::from_array(alloc, members).ok()?)
}

/// Plays a line of a script, and says whether it was played.
fn is_played(alloc: Global, world: &mut World<Lock>, text: &str) -> bool {
    match read_line(alloc, text.as_bytes()) {
        Ok(line) => !world.over() && world.play(line).is_ok(),
        Err(_) => false,
    }
}

/// Plays lines of a script, and says whether each was played.
fn are_played(alloc: Global, world: &mut World<Lock>, lines: &[&str]) -> bool {
    for text in lines {
        if !is_played(alloc, world, text) {
            return false;
        }
    }
    true
}

/// Whether two clients were told that this name holds the lock.
fn both_are_told(accepted: &[Acceptance], name: &[u8]) -> bool {
    accepted.len() == 2 && accepted.iter().all(|told| told.reply.as_slice() == name)
}

#[test]
fn four_members_replicate_a_lock(rt: HostRuntime) {
    let alloc = rt.alloc();
    let view = group(alloc).expect(&rt, "a view");
    let header = Header {
        view,
        period: PERIOD,
    };
    let mut world = World::begin(alloc, header).expect(&rt, "there is memory");
    let lines = ["ask 1 take ann", "flow", "ask 2 take bob", "flow"];
    assert!(rt; are_played(alloc, &mut world, &lines));
    assert!(rt; both_are_told(world.accepted(), b"ann"));
}
