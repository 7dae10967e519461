//! How much a batch holds.
ghost use Rattle.std.specs.Prelude.{◌≤◌};

use crate::kit::{client, ring, sealed};
use request_pool::pool::RequestPool;
use smart_base::bytes::Payload;
use smart_base::name::ClientId;
use smart_base::number::Place;
use smart_statements::signed::Signed;
use smart_statements::statement::Request;
use std::alloc::Global;
use std::process::Abort;

/// A client's first request, with an operation of so many bytes.
fn request(rt: &impl Abort, alloc: Global, number: u16, len: usize) -> Signed<Request>
    requires { len ≤ 4096 }
{
    let mut op = Vec::new(alloc);
    op.resize(len, 7).expect(rt, "there is memory");
    let request = Request {
        client: ClientId::new(number),
        seq: 1,
        after: 0,
        op: Payload::from_slice(alloc, op.as_slice()).expect(rt, "there is memory"),
    };
    sealed(rt, alloc, client(number), number, request)
}

/// A pool of 62 requests of 4,160 bytes, one of 4,064, one of an operation of so many, and another.
fn pool(rt: &impl Abort, alloc: Global, len: usize) -> RequestPool
    requires { len ≤ 4096 }
{
    let ring = ring(rt, alloc);
    let mut pool = RequestPool::new(alloc);
    for below in 0..65u16 {
        let len = match below {
            0..=61 => 4096,
            62 => 4000,
            63 => len,
            _ => 0,
        };
        let request = request(rt, alloc, below.wrapping_add(1), len);
        pool.offer(&ring, request, 0).expect(rt, "there is memory");
    }
    pool
}

/// Whether so many of these requests are gathered, and are so many bytes.
fn gathers(rt: &impl Abort, alloc: Global, len: usize, count: usize, bytes: usize) -> bool
    requires { len ≤ 4096 }
{
    let pool = pool(rt, alloc, len);
    let gathered = pool.gather(Place::new(1)).expect(rt, "there is memory");
    let batch = gathered.expect(rt, "a batch");
    let text = batch.text(alloc).expect(rt, "there is memory");
    batch.len() == count && text.len() == bytes
}

/// What stands behind the first that would pass the limit is not looked at.
#[test]
fn a_batch_has_64_requests_and_262_144_bytes_at_most(rt: HostRuntime) {
    assert!(rt; gathers(&rt, rt.alloc(), 94, 64, 262_144));
    assert!(rt; gathers(&rt, rt.alloc(), 95, 63, 261_986));
}
