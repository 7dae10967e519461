//! The ends of links on which a party sends.
ghost use Rattle.std.specs.Prelude.{◌≡◌, ℕ};
ghost use Rattle.group_links.specs.Link.{link_capacity};
ghost use Rattle.group_ends.specs.Carried.{is_for};
ghost use Rattle.node_rules.specs.declared.node.Target.TheVariants.{Node, Client, View, Clients};

use group_links::inward::{LinkIn, Sending};
use node_rules::node::Target;
use queue_ends::told::Told;
use smart_base::name::MemberId;
use smart_base::sequence::Bytes;
use std::alloc::{AllocError, Global};
use std::sync::Wait;

/// How many messages may wait on a link.
pub const LINK: usize = 1024;

/// The end of a link on which a party sends, and who polls the other end.
#[derive(Drop)]
pub struct Port {
    pub end: Target,
    pub link: LinkIn<Bytes>,
    pub ghost small: { link_capacity link ≡ 1024 },
}

/// Whether this is the end of the link to a member.
fn is_member(end: Target, member: MemberId) -> bool
    ensures { result ≡ is_for (Node member) end }
{
    match end {
        Target::Node(other) => member.get() == other.get(),
        Target::Client(_) | Target::View | Target::Clients => false,
    }
}

/// Whether this is the end of the link to the client.
fn is_client(end: Target) -> bool
    ensures one { (id : ℕ) → result ≡ is_for (Client id) end }
    ensures all { result ≡ is_for Clients end }
{
    match end {
        Target::Node(_) | Target::View | Target::Clients => false,
        Target::Client(_) => true,
    }
}

/// Whether this is the end of the link to some member.
fn is_of_view(end: Target) -> bool
    ensures { result ≡ is_for View end }
{
    match end {
        Target::Node(_) => true,
        Target::Client(_) | Target::View | Target::Clients => false,
    }
}

/// Whether the end of a link is to hear a message for this receiver.
pub fn is_for(to: Target, end: Target) -> bool
    ensures { result ≡ is_for to end }
{
    match to {
        Target::Node(member) => is_member(end, member),
        Target::Client(_) => is_client(end),
        Target::View => is_of_view(end),
        Target::Clients => is_client(end),
    }
}

impl Port {
    ghost use Rattle.std.specs.Prelude.{◌≡◌, IfOk, OnErr};
    ghost use Rattle.group_links.specs.Link.{link_capacity, link_put, in_link};
    ghost use Rattle.queue_ends.specs.Ends.{told_put, told_queue};
    ghost use Rattle.group_ends.specs.Ports.{IsOffered};

    /// An end of a link.
    pub fn new(end: Target, link: LinkIn<Bytes>) -> Port
        requires { link_capacity link ≡ 1024 }
        ensures { (result.end ≡ end) × (result.link ≡ link) }
    {
        Port { end, link }
    }

    /// Puts a copy of a message on the link, if the link's end is to hear it. Says whether the link
    /// dropped it. Error: want of memory; nothing was put.
    pub fn offer<R: Wait>(
        &mut self,
        rt: &R,
        alloc: Global,
        to: &Target,
        text: &Bytes,
    ) -> Result<bool, AllocError>
        ensures ok { IfOk result (λ dropped. IsOffered to.now text.now self.old dropped self.new) }
        ensures err { OnErr result (self.new ≡ self.old) }
    {
        if !is_for(*to, self.end) {
            return Ok(false);
        }
        let copy = Bytes::from_slice(alloc, text.as_slice())?;
        match self.link.send(rt, copy) {
            Sending::Sent => Ok(false),
            Sending::Dropped { message: _ } => Ok(true),
        }
    }

    /// Tells what was put on the link so far.
    pub fn tell(&mut self) -> Told<Bytes>
        ensures told { (told_queue result ≡ in_link self.old.link) × (told_put result ≡ link_put self.old.link) }
        ensures same { (self.new.end ≡ self.old.end) × ((in_link self.new.link ≡ in_link self.old.link) × (link_put self.new.link ≡ link_put self.old.link)) }
    {
        self.link.tell()
    }
}
