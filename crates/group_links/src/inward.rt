//! The end that sends.
ghost use Rattle.std.specs.Prelude.{◌≤◌, length};
ghost use Rattle.queue_ends.specs.Ends.{put_list, put_capacity, heard_taken};

use queue_ends::put_end::PutEnd;
use queue_ends::told::Told;
use std::sync::Wait;

/// The greatest number of messages that a link ever carries.
const MOST: u64 = 1 << 62;

/// What became of a message.
#[derive(Drop)]
pub enum Sending<T> {
    Sent,
    /// The link was full, and the message comes back.
    Dropped { message: T },
}

/// The end that sends. It can move to another thread.
#[derive(Drop)]
pub struct LinkIn<T> {
    pub(crate) items: PutEnd<T>,
    pub(crate) capacity: u64,
    pub ghost holds: { capacity ≤ put_capacity items },
    pub ghost has_heard: { length (heard_taken items) ≤ length (put_list items) },
}

impl<T: Drop> LinkIn<T> {
    ghost use Rattle.std.specs.Prelude.{◌≡◌};
    ghost use Rattle.queue_ends.specs.Rule.{IsFront};
    ghost use Rattle.queue_ends.specs.Ends.{told_queue, told_put, told_taken};
    ghost use Rattle.group_links.specs.Link.{link_put, link_heard_taken, link_capacity, in_link, IsSent};

    /// Puts a message on the link, or drops it, only where the link was full at one moment of the
    /// call or has carried 2^62 messages.
    pub fn send<R: Wait>(&mut self, rt: &R, message: T) -> Sending<T>
        ensures link { (in_link self.new ≡ in_link self.old) × (link_capacity self.new ≡ link_capacity self.old) }
        ensures put { IsSent self.old message result self.new }
        ensures heard { link_heard_taken self.new ≡ link_heard_taken self.old }
    {
        if self.capacity == 0 || self.items.count() >= MOST {
            return Sending::Dropped { message };
        }
        match self.items.put(rt, message) {
            Ok(()) => Sending::Sent,
            Err(message) => Sending::Dropped { message },
        }
    }

    /// Tells what was put so far.
    pub fn tell(&mut self) -> Told<T>
        ensures link { (in_link self.new ≡ in_link self.old) × (link_capacity self.new ≡ link_capacity self.old) × (told_queue result ≡ in_link self.old) }
        ensures told { told_put result ≡ link_put self.old }
        ensures same { (link_put self.new ≡ link_put self.old) × (link_heard_taken self.new ≡ link_heard_taken self.old) }
    {
        self.items.tell()
    }

    /// Hears what was taken. That is a front of what was put.
    pub fn hear(&mut self, told: Told<T>)
        requires { told_queue told ≡ in_link self.old }
        ensures link { (in_link self.new ≡ in_link self.old) × (link_capacity self.new ≡ link_capacity self.old) }
        ensures heard { link_heard_taken self.new ≡ told_taken told }
        ensures same { link_put self.new ≡ link_put self.old }
        ensures front { IsFront (link_heard_taken self.new) (link_put self.new) }
    {
        self.items.hear(told);
    }
}
