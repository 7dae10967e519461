//! What the tests share: the keys and the view of a group of four, and what is stated there.
use smart_base::bytes::Payload;
use smart_base::name::{ClientId, MemberId};
use smart_base::party::Party;
use smart_base::sequence::Bytes;
use smart_base::view::View;
use smart_keys::ring::Ring;
use smart_statements::signed::{Signed, Statement};
use smart_statements::statement::Request;
use std::alloc::Global;
use std::process::Abort;

pub fn ring(rt: &impl Abort, alloc: Global) -> Ring {
    Ring::from_secret(Bytes::from_slice(alloc, b"world").expect(rt, "there is memory"))
}

/// The first view of the members 1 to 4, of which one may be faulty.
pub fn view(rt: &impl Abort, alloc: Global) -> View {
    let mut members = Vec::new(alloc);
    for member in 1..5 {
        members
            .push(MemberId::new(member))
            .expect(rt, "there is memory");
    }
    View::checked(0, 1, 1, members).expect(rt, "a view")
}

/// A statement of a signer with the tag that another makes, or the signer itself.
pub fn sealed<S: Statement>(
    rt: &impl Abort,
    alloc: Global,
    sealer: Party,
    signer: u16,
    statement: S,
) -> Signed<S> {
    let mut key = ring(rt, alloc).sealer(sealer);
    let sealed = Signed::seal(alloc, &mut key, signer, statement);
    sealed.ok().expect(rt, "there is memory")
}

pub fn member(number: u16) -> Party {
    Party::Member(MemberId::new(number))
}

pub fn client(number: u16) -> Party {
    Party::Client(ClientId::new(number))
}

/// A client's request of a number, which knew no place, with an operation of one byte.
pub fn request(rt: &impl Abort, alloc: Global, number: u16, seq: u64, op: u8) -> Signed<Request> {
    let request = Request {
        client: ClientId::new(number),
        seq,
        after: 0,
        op: Payload::from_slice(alloc, &[op]).expect(rt, "there is memory"),
    };
    sealed(rt, alloc, client(number), number, request)
}
