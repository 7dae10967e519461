//! What the lock replies, and its snapshots.
use app_lock::Lock;
use smart_service::service::Service;
use std::alloc::Global;
use std::process::Abort;

/// Whether the lock gives these replies to these operations.
fn replies(alloc: Global, lock: &mut Lock, turns: &[(&str, &str)]) -> bool {
    for (op, want) in turns {
        match lock.run(alloc, op.as_bytes()) {
            Ok(reply) if reply.as_slice() == want.as_bytes() => {}
            _ => return false,
        }
    }
    true
}

/// Whether the lock has this snapshot.
fn stands_as(alloc: Global, lock: &Lock, want: &[u8]) -> bool {
    match lock.snapshot(alloc) {
        Ok(snapshot) => snapshot.as_slice() == want,
        Err(_) => false,
    }
}

/// Whether what is read of these bytes is a lock that this name holds.
fn is_read_as(alloc: Global, bytes: &[u8], name: &str) -> bool {
    match Lock::restore(alloc, bytes) {
        Ok(mut lock) => replies(alloc, &mut lock, &[("who", name)]),
        Err(_) => false,
    }
}

/// Operations in order, and the replies.
const TURNS: [(&str, &str); 7] = [
    ("who", "-"),
    ("take ann", "ann"),
    ("take bob", "ann"),
    ("free bob", "ann"),
    ("free ann", "-"),
    ("take Ann", "-"),
    ("take bob", "bob"),
];

#[test]
fn a_lock_is_held_until_freed_and_its_snapshot_is_read_back(rt: HostRuntime) {
    let alloc = rt.alloc();
    let mut lock = Lock::first(alloc).expect(&rt, "there is memory");
    assert!(rt; replies(alloc, &mut lock, &TURNS));
    assert!(rt; stands_as(alloc, &lock, b"bob"));
    assert!(rt; is_read_as(alloc, b"bob", "bob"));
    assert!(rt; !is_read_as(alloc, b"Bob", "-"));
}
