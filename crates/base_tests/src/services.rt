//! What the services reply, and the bytes of their snapshots.
use app_count::Count;
use app_kv::KeyValueStore;
use smart_service::fault::RestoreError;
use smart_service::service::Service;
use std::alloc::Global;
use std::process::Abort;

/// Whether the service gives these replies to these operations.
fn replies<S: Service>(alloc: Global, service: &mut S, turns: &[(&str, &str)]) -> bool {
    for (op, reply) in turns {
        match service.run(alloc, op.as_bytes()) {
            Ok(told) if told.as_slice() == reply.as_bytes() => {}
            _ => return false,
        }
    }
    true
}

/// Whether the service has this snapshot.
fn stands_as<S: Service>(alloc: Global, service: &S, want: &[u8]) -> bool {
    match service.snapshot(alloc) {
        Ok(snapshot) => snapshot.as_slice() == want,
        Err(_) => false,
    }
}

/// Whether the service has this snapshot, and the one that it makes has it too.
fn comes_back<S: Service>(alloc: Global, service: &S, want: &[u8]) -> bool {
    match S::restore(alloc, want) {
        Ok(restored) => stands_as(alloc, service, want) && stands_as(alloc, &restored, want),
        Err(_) => false,
    }
}

/// Whether bytes are refused because they are no snapshot.
fn is_refused<S: Service>(alloc: Global, bytes: &[u8]) -> bool {
    matches!(S::restore(alloc, bytes), Err(RestoreError::BadSnapshot))
}

/// Operations on a count and its replies, and the snapshot behind them.
const SUMS: [(&str, &str); 4] = [("5", "5"), ("253", "258"), ("07", "?"), ("0", "258")];

const SUM: [u8; 8] = *b"\0\0\0\0\0\0\x01\x02";

/// The greatest sum stays.
const MOST: [(&str, &str); 1] = [("18446744073709551615", "18446744073709551615")];

#[test]
fn a_count_replies_its_sum_and_comes_back(rt: HostRuntime) {
    let alloc = rt.alloc();
    let mut count = Count::first(alloc).expect(&rt, "there is memory");
    assert!(rt; replies(alloc, &mut count, &SUMS));
    assert!(rt; comes_back(alloc, &count, &SUM));
    assert!(rt; replies(alloc, &mut count, &MOST));
    assert!(rt; is_refused::<Count>(alloc, b"0000007"));
}

/// Operations on a key-value store and its replies, and the snapshot behind them.
const TURNS: [(&str, &str); 12] = [
    ("get b", "none"),
    ("put b 2", "new"),
    ("put c 3 and 4", "new"),
    ("put a  1", "new"),
    ("get a", "= 1"),
    ("get c", "=3 and 4"),
    ("put b 5", "old"),
    ("del c", "gone"),
    ("del c", "none"),
    ("get b", "=5"),
    ("Put a 2", "?"),
    ("get a ", "?"),
];

const PAIRS: [u8; 23] = *b"\0\x02\0\0\0\x01a\0\0\0\x02 1\0\0\0\x01b\0\0\0\x015";

#[test]
fn keys_are_put_told_and_taken_out(rt: HostRuntime) {
    let mut store = KeyValueStore::first(rt.alloc()).expect(&rt, "there is memory");
    assert!(rt; replies(rt.alloc(), &mut store, &TURNS));
    assert!(rt; comes_back(rt.alloc(), &store, &PAIRS));
}

#[test]
fn what_is_no_snapshot_of_a_store_is_refused(rt: HostRuntime) {
    // No entry, an entry left over, no value, and keys that descend.
    let none = b"\0\x01";
    let over = b"\0\0\0\0\0\x01a\0\0\0\x011";
    let empty = b"\0\x01\0\0\0\x01a\0\0\0\0";
    let descend = b"\0\x02\0\0\0\x01b\0\0\0\x011\0\0\0\x01a\0\0\0\x012";
    assert!(rt; is_refused::<KeyValueStore>(rt.alloc(), none));
    assert!(rt; is_refused::<KeyValueStore>(rt.alloc(), over));
    assert!(rt; is_refused::<KeyValueStore>(rt.alloc(), empty));
    assert!(rt; is_refused::<KeyValueStore>(rt.alloc(), descend));
}

/// Puts a value at each of the first 4,096 numbers.
fn fill(rt: &impl Abort, alloc: Global, store: &mut KeyValueStore) {
    for i in 0..4096u32 {
        let op = format!(in alloc; "put {i} 1").expect(rt, "there is memory");
        let _told = store
            .run(alloc, op.as_bytes())
            .expect(rt, "there is memory");
    }
}

/// Operations on a store of 4,096 keys and its replies.
const FULL: [(&str, &str); 3] = [("put x 1", "full"), ("put 17 2", "old"), ("get 17", "=2")];

#[test]
fn no_key_is_new_where_4096_stand(rt: HostRuntime) {
    let mut store = KeyValueStore::first(rt.alloc()).expect(&rt, "there is memory");
    fill(&rt, rt.alloc(), &mut store);
    assert!(rt; replies(rt.alloc(), &mut store, &FULL));
}
