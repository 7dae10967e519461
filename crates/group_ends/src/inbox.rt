//! The ends of links that a party polls.
ghost use Rattle.std.specs.Prelude.{◌≡◌, ◌<◌, [], None, IfSome, get_or, slice_set, vec_len};
ghost use Rattle.smart_base.specs.Lists.{Each};
ghost use Rattle.queue_ends.specs.Ends.{told_put, told_queue};
ghost use Rattle.group_ends.specs.Ports.{inbox_links, heard_and_taken, heard_puts, takings, IsEmptied, IsTaken};

use group_links::outward::LinkOut;
use queue_ends::told::Told;
use smart_base::sequence::Bytes;
use std::sync::Wait;

/// A message that was taken from a link, and the link's index.
#[derive(Drop)]
struct Taken {
    bytes: Bytes,
    index: usize,
}

/// The ends of links that a party polls in turn.
#[derive(Drop)]
pub struct Inbox {
    pub links: Vec<LinkOut<Bytes>>,
    /// The index of the link that is polled first.
    pub next: usize,
}

/// Polls one of several links. `None`: it was empty at one moment of the call.
fn poll_at<R: Wait>(rt: &R, links: &mut Vec<LinkOut<Bytes>>, index: usize) -> Option<Bytes>
    requires { index < vec_len links.old }
    ensures links { (inbox_links links.new.items ≡ inbox_links links.old.items) × (vec_len links.new ≡ vec_len links.old) }
    ensures none { result ≡ None → heard_and_taken links.new.items ≡ heard_and_taken links.old.items }
    ensures empty { result ≡ None → IsEmptied (get_or (heard_and_taken links.old.items) index ([], [])) }
    ensures some { IfSome result (λ bytes. IsTaken bytes (takings links.old.items) (takings links.new.items)) }
    ensures heard { heard_puts links.new.items ≡ heard_puts links.old.items }
{
    links[index].poll(rt)
}

/// Hears what was put on one of several links.
fn hear_at(links: &mut Vec<LinkOut<Bytes>>, index: usize, told: Told<Bytes>)
    requires within { index < vec_len links.old }
    requires link { told_queue told ≡ get_or (inbox_links links.old.items) index (told_queue told) }
    ensures heard { heard_puts links.new.items ≡ slice_set (heard_puts links.old.items) index (told_put told) }
    ensures same { (inbox_links links.new.items ≡ inbox_links links.old.items) × (takings links.new.items ≡ takings links.old.items) }
{
    links[index].hear(told);
}

/// Polls links in order, those before the first one left out. `None`: each of the others was empty at a
/// moment of its own.
fn poll_from<R: Wait>(rt: &R, links: &mut Vec<LinkOut<Bytes>>, first: usize) -> Option<Taken>
    ensures links { inbox_links links.new.items ≡ inbox_links links.old.items }
    ensures none { result ≡ None → heard_and_taken links.new.items ≡ heard_and_taken links.old.items }
    ensures empty { result ≡ None → first ≡ 0 → Each IsEmptied (heard_and_taken links.old.items) }
    ensures some { IfSome result (λ t. IsTaken t.bytes (takings links.old.items) (takings links.new.items)) }
    ensures heard { heard_puts links.new.items ≡ heard_puts links.old.items }
{
    for index in first..links.len() {
        if let Some(bytes) = poll_at(rt, links, index) {
            return Some(Taken { bytes, index });
        }
    }
    None
}

/// Polls links in order from the first one on, and then all of them. `None`: each was empty at a moment of
/// its own.
fn poll_in_turn<R: Wait>(rt: &R, links: &mut Vec<LinkOut<Bytes>>, first: usize) -> Option<Taken>
    ensures links { inbox_links links.new.items ≡ inbox_links links.old.items }
    ensures none { result ≡ None → heard_and_taken links.new.items ≡ heard_and_taken links.old.items }
    ensures empty { result ≡ None → Each IsEmptied (heard_and_taken links.old.items) }
    ensures some { IfSome result (λ t. IsTaken t.bytes (takings links.old.items) (takings links.new.items)) }
    ensures heard { heard_puts links.new.items ≡ heard_puts links.old.items }
{
    match poll_from(rt, links, first) {
        Some(taken) => Some(taken),
        None => poll_from(rt, links, 0),
    }
}

impl Inbox {
    ghost use Rattle.std.specs.Prelude.{◌≡◌, ◌<◌, None, IfSome, get_or, slice_set, vec_len};
    ghost use Rattle.smart_base.specs.Lists.{Each};
    ghost use Rattle.queue_ends.specs.Ends.{told_put, told_queue};
    ghost use Rattle.group_ends.specs.Ports.{inbox_links, heard_and_taken, heard_puts, takings, IsEmptied, IsTaken};

    /// Ends of links, which are polled in this order.
    pub fn new(links: Vec<LinkOut<Bytes>>) -> Inbox
        ensures { result.links ≡ links }
    {
        Inbox { links, next: 0 }
    }

    /// Takes a message from one of the links, in turn. `None`: each of them was empty at a moment of its
    /// own.
    pub fn take<R: Wait>(&mut self, rt: &R) -> Option<Bytes>
        ensures links { inbox_links self.new.links.items ≡ inbox_links self.old.links.items }
        ensures none { result ≡ None → takings self.new.links.items ≡ takings self.old.links.items }
        ensures empty { result ≡ None → Each IsEmptied (heard_and_taken self.old.links.items) }
        ensures some { IfSome result (λ bytes. IsTaken bytes (takings self.old.links.items) (takings self.new.links.items)) }
        ensures heard { heard_puts self.new.links.items ≡ heard_puts self.old.links.items }
    {
        let first = self.next;
        let taken = poll_in_turn(rt, &mut self.links, first)?;
        self.next = taken.index.saturating_add(1);
        let Taken { bytes, index: _ } = taken;
        Some(bytes)
    }

    /// Hears what was put on the link at an index.
    pub fn hear(&mut self, index: usize, told: Told<Bytes>)
        requires within { index < vec_len self.old.links }
        requires link { told_queue told ≡ get_or (inbox_links self.old.links.items) index (told_queue told) }
        ensures heard { heard_puts self.new.links.items ≡ slice_set (heard_puts self.old.links.items) index (told_put told) }
        ensures same { (inbox_links self.new.links.items ≡ inbox_links self.old.links.items) × (takings self.new.links.items ≡ takings self.old.links.items) }
    {
        hear_at(&mut self.links, index, told);
    }

    /// The ends of its links.
    pub fn into_links(self) -> Vec<LinkOut<Bytes>>
        ensures { result ≡ self.links }
    {
        let Inbox { links, next: _ } = self;
        links
    }
}
