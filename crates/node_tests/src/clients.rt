//! What a client makes of replies.
use crate::kit::{member, request, ring, sealed, view};
use client_quorum::client::{Client, Heard, Ignored};
use smart_base::bytes::Payload;
use smart_base::name::{ClientId, MemberId};
use smart_base::number::{Place, ViewNo};
use smart_base::view::View;
use smart_messages::codec::encode;
use smart_messages::message::Message;
use smart_messages::regency::ViewInfo;
use smart_statements::statement::Answer;
use std::alloc::Global;
use std::process::Abort;

/// A client whose first request waits.
fn asking(rt: &impl Abort, alloc: Global) -> Client {
    let ring = ring(rt, alloc);
    let op = Payload::from_slice(alloc, b"+").expect(rt, "there is memory");
    let mut client = Client::new(alloc, view(rt, alloc), ClientId::new(5)).expect(
        rt,
        "there is memory",
    );
    assert!(rt; client.last() == 0);
    let asked = client.ask(alloc, &ring, &op).ok().expect(rt, "it asks");
    assert!(rt; asked.verifies(&ring) && asked.signer() == 5);
    client
}

/// A member's reply to that request, stating a view.
fn reply(rt: &impl Abort, alloc: Global, number: u16, view: u32) -> Message {
    let answer = Answer {
        view: ViewNo::new(view),
        place: Place::new(7),
        index: 2,
        client: ClientId::new(5),
        seq: 1,
        reply: Payload::from_slice(alloc, b"a").expect(rt, "there is memory"),
    };
    Message::Reply(sealed(rt, alloc, member(number), number, answer))
}

/// A member's statement of a view of the members 1 to 5.
fn info(rt: &impl Abort, alloc: Global, number: u16, view: u32) -> Message {
    let mut members = Vec::new(alloc);
    for member in 1..6 {
        members
            .push(MemberId::new(member))
            .expect(rt, "there is memory");
    }
    let view = View::checked(view, 8, 1, members).expect(rt, "a view");
    Message::ViewTold(sealed(rt, alloc, member(number), number, ViewInfo { view }))
}

/// How many gave a reply or stated a view, 99 where it is accepted or taken over; or why it is ignored.
fn told(heard: &Heard) -> Result<u64, Ignored> {
    match heard {
        Heard::Counted { have, .. } | Heard::Viewed { have, .. } => Ok(*have),
        Heard::Accepted(_) | Heard::Moved(_) => Ok(99),
        Heard::Ignored(why) => Err(*why),
    }
}

/// How many gave the reply that a message's bytes spell, as `told` says.
fn hears(
    rt: &impl Abort,
    alloc: Global,
    client: &mut Client,
    message: &Message,
) -> Result<u64, Ignored> {
    let bytes = encode(alloc, message).expect(rt, "there is memory");
    let heard = client.hear(alloc, &ring(rt, alloc), bytes.as_slice());
    told(&heard.expect(rt, "there is memory"))
}

#[test]
fn bytes_are_heard_as_the_reply_that_they_spell(rt: HostRuntime) {
    let alloc = rt.alloc();
    let mut client = asking(&rt, alloc);
    let other = Message::Ask(request(&rt, alloc, 5, 1, b'+'));
    let heard = hears(&rt, alloc, &mut client, &other);
    assert!(rt; heard == Err(Ignored::Unread));
    for (number, want) in [(1, 1), (2, 2), (3, 99)] {
        let heard = hears(&rt, alloc, &mut client, &reply(&rt, alloc, number, 0));
        assert!(rt; heard == Ok(want));
    }
    assert!(rt; client.seen().get() == 7);
}

#[test]
fn a_view_is_taken_over_on_two_words(rt: HostRuntime) {
    let alloc = rt.alloc();
    let mut client = asking(&rt, alloc);
    let early = hears(&rt, alloc, &mut client, &reply(&rt, alloc, 1, 1));
    assert!(rt; early == Err(Ignored::UnknownView));
    for (number, view, want) in [
        (5, 1, Err(Ignored::Stranger)),
        (1, 0, Err(Ignored::OldView)),
        (1, 1, Ok(1)),
        (1, 1, Err(Ignored::Repeated)),
        (2, 1, Ok(99)),
        (3, 1, Err(Ignored::OldView)),
    ] {
        let heard = hears(&rt, alloc, &mut client, &info(&rt, alloc, number, view));
        assert!(rt; heard == want);
    }
    let late = hears(&rt, alloc, &mut client, &reply(&rt, alloc, 5, 1));
    assert!(rt; late == Ok(1));
}
