//! A recorded run, and how it may differ from what the rules of its members make.
use smart_base::sequence::{Bytes, Sequence};
use smart_messages::message::Sealed;
use trail::event::{Addressed, TrailEvent};
use trail::opening::TrailOpening;

/// The most parts of trails that one audit reads.
pub const PARTS: u64 = 1 << 24;

/// The trail of a member, or of a client.
pub struct Recorded {
    pub opening: TrailOpening,
    /// The entries with which the member began, in their bytes.
    pub entries: Sequence<Bytes>,
    pub events: Sequence<TrailEvent>,
}

/// Let go by one call, so that no function that lets one go carries the whole of it.
impl Drop for Recorded {
    fn drop(self) {
        let Recorded {
            opening: _,
            entries: _,
            events: _,
        } = self;
    }
}

/// Trails as far as they were read: those that are whole, and the one that has begun.
pub struct Reading {
    pub trails: Sequence<Recorded>,
    pub begun: Option<Recorded>,
}

/// Let go by one call, so that no function that lets one go carries the whole of it.
impl Drop for Reading {
    fn drop(self) {
        let Reading {
            trails: _,
            begun: _,
        } = self;
    }
}

/// What stands in a trail and has no right to.
#[derive(Drop)]
pub enum Found {
    /// A message was sent that is not the next one that leaves: what leaves next, if anything does, and
    /// what was sent.
    Sent {
        expected: Option<Addressed>,
        found: Addressed,
    },
    /// A statement of a member came that the member has not sent.
    Stated(Sealed),
}

/// The first difference of recorded runs from what the rules of their members make: the number in the
/// trail's opening, and the event's number in that trail, from 1.
#[derive(Drop)]
pub struct Difference {
    pub member: u16,
    pub event: u64,
    pub found: Found,
}

/// What an audit finds.
#[derive(Drop)]
pub enum Verdict {
    /// Each member sent what its rules make it send, and nothing came that was not sent.
    Coherent,
    Differs(Difference),
}
