//! The bytes of a snapshot, and that no front of them is one.
use app_count::Count;
use smart_base::name::ClientId;
use smart_service::fault::RestoreError;
use smart_service::replica::Replica;
use snapshot_form::reading::from_bytes;
use snapshot_form::writing::to_bytes;
use std::alloc::Global;

/// A replica at place 1: view 0 from place 1 on, of members 1 to 4, of which 1 may be faulty; client
/// 1's request 1, executed at place 1 with the reply 5; and a sum of 5.
const SNAPSHOT: [u8; 76] =
    *b"\0\0\0\0\0\0\0\x01\0\x01\0\0\0\0\0\0\0\0\0\0\0\x01\x01\0\x04\0\x01\0\x02\0\x03\0\x04\0\x01\0\x01\0\0\0\0\0\0\0\x01\0\0\0\0\0\0\0\x01\0\0\0\0\0\0\0\0\0\x015\0\0\0\x08\0\0\0\0\0\0\0\x05";

/// Whether a replica has all that the snapshot says.
fn is_told(replica: &Replica<Count>) -> bool {
    let views = replica.views.as_slice();
    let of_view = views.len() == 1 && replica.views.present().members().len() == 4;
    match replica.table.kept_reply(ClientId::new(1), 1) {
        Some(line) => {
            let at = line.place.get() == 1 && line.index == 0 && line.view.get() == 0;
            let executed = line.seq == 1 && line.reply.as_slice() == b"5".as_slice();
            replica.service.sum == 5 && replica.place.get() == 1 && of_view && at && executed
        }
        None => false,
    }
}

/// Whether a replica has these bytes as its snapshot, and all that they say.
fn comes_back(alloc: Global, bytes: &[u8]) -> bool {
    match from_bytes::<Count>(alloc, bytes) {
        Ok(replica) => match to_bytes(alloc, &replica) {
            Ok(again) => is_told(&replica) && again.as_slice() == bytes,
            Err(_) => false,
        },
        Err(_) => false,
    }
}

/// Whether bytes are refused because they are no snapshot.
fn is_refused(alloc: Global, bytes: &[u8]) -> bool {
    matches!(
        from_bytes::<Count>(alloc, bytes),
        Err(RestoreError::BadSnapshot)
    )
}

#[test]
fn a_snapshot_comes_back_byte_by_byte(rt: HostRuntime) {
    assert!(rt; comes_back(rt.alloc(), &SNAPSHOT));
}

#[test]
fn no_proper_prefix_is_a_snapshot(rt: HostRuntime) {
    for count in 0..76 {
        assert!(rt; is_refused(rt.alloc(), &SNAPSHOT[..count]));
    }
}
