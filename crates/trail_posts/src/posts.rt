//! Messages to one receiver each.
ghost use Rattle.std.specs.Prelude.{◌≡◌, ◌++◌, ◌∷◌, [], IfOk, OnOk, map};
ghost use Rattle.std.specs.List.{flat_map};
ghost use Rattle.audit_rules.specs.Quiets.{posts, sent_at, lost_at, client_sent, dropped, came};
ghost use Rattle.trail_posts.specs.Counting.{post_of, to_each, arrived_at};

use audit_rules::recorded::Recorded;
use node_rules::node::Target;
use smart_base::name::MemberId;
use smart_base::view::View;
use smart_messages::codec::encode;
use smart_statements::entry::NodeEvent;
use std::alloc::{AllocError, Global};
use trail::event::{Addressed, TrailEvent};

/// A message to one receiver: the number of the receiver's trail, and the message in its bytes.
#[derive(PartialEq, Eq, Hash)]
pub struct Posted {
    pub to: u16,
    pub text: Vec<u8>,
}

/// Let go by one call, so that no function that lets one go carries the whole of it.
impl Drop for Posted {
    fn drop(self) {
        let Posted { to: _, text: _ } = self;
    }
}

impl Posted {
    /// Copies of a message's bytes, to a receiver. Error: want of memory.
    pub fn new(alloc: Global, to: u16, text: &[u8]) -> Result<Posted, AllocError>
        ensures { IfOk result (λ p. post_of p ≡ record { to = to; text = text.now }) }
    {
        Ok(Posted {
            to,
            text: Vec::from_slice(alloc, text)?,
        })
    }

    /// A copy. Error: want of memory.
    pub fn copy(&self, alloc: Global) -> Result<Posted, AllocError>
        ensures { IfOk result (λ p. post_of p ≡ post_of self.now) }
    {
        Posted::new(alloc, self.to, self.text.as_slice())
    }
}

/// Adds a message for one receiver.
fn add(alloc: Global, to: u16, text: &[u8], found: &mut Vec<Posted>) -> Result<(), AllocError>
    ensures { OnOk result (map post_of found.new.items ≡ map post_of found.old.items ++ record { to = to; text = text.now } ∷ []) }
{
    found.push(Posted::new(alloc, to, text)?)?;
    Ok(())
}

/// Adds a message for each of several members.
fn add_each(
    alloc: Global,
    members: &[MemberId],
    text: &[u8],
    found: &mut Vec<Posted>,
) -> Result<(), AllocError>
    ensures { OnOk result (map post_of found.new.items ≡ map post_of found.old.items ++ to_each text.now members.now) }
{
    for member in members {
        add(alloc, member.get(), text, found)?;
    }
    Ok(())
}

/// Adds a message for each of its receivers, of whom there are these members of a view.
fn add_posts(
    alloc: Global,
    members: &[MemberId],
    addressed: &Addressed,
    found: &mut Vec<Posted>,
) -> Result<(), AllocError>
    ensures { OnOk result (map post_of found.new.items ≡ map post_of found.old.items ++ posts members.now addressed.now) }
{
    let text = encode(alloc, &addressed.message)?;
    match addressed.to {
        Target::Node(member) => add(alloc, member.get(), text.as_slice(), found),
        Target::Client(_) => add(alloc, 0, text.as_slice(), found),
        Target::View => add_each(alloc, members, text.as_slice(), found),
        Target::Clients => add(alloc, 0, text.as_slice(), found),
    }
}

/// Adds what an event sends, where a view has these members. Error: want of memory.
pub fn add_sent(
    alloc: Global,
    members: &[MemberId],
    event: &TrailEvent,
    found: &mut Vec<Posted>,
) -> Result<(), AllocError>
    ensures { OnOk result (map post_of found.new.items ≡ map post_of found.old.items ++ sent_at members.now event.now) }
{
    match event {
        TrailEvent::Send(addressed) => add_posts(alloc, members, addressed, found),
        TrailEvent::Happens(_) | TrailEvent::Lost(_) | TrailEvent::Polls(_) | TrailEvent::End => {
            Ok(())
        }
    }
}

/// Adds what a client has sent, which stays in its first view. Error: want of memory.
pub fn add_client_sent(
    alloc: Global,
    view: &View,
    events: &[TrailEvent],
    found: &mut Vec<Posted>,
) -> Result<(), AllocError>
    ensures { OnOk result (map post_of found.new.items ≡ map post_of found.old.items ++ client_sent view.now events.now) }
{
    for event in events {
        add_sent(alloc, view.members(), event, found)?;
    }
    Ok(())
}

/// Adds what an event tells to be dropped by a link.
fn add_lost(alloc: Global, event: &TrailEvent, found: &mut Vec<Posted>) -> Result<(), AllocError>
    ensures { OnOk result (map post_of found.new.items ≡ map post_of found.old.items ++ lost_at event.now) }
{
    match event {
        TrailEvent::Lost(addressed) => add_posts(alloc, &[], addressed, found),
        TrailEvent::Happens(_) | TrailEvent::Send(_) | TrailEvent::Polls(_) | TrailEvent::End => {
            Ok(())
        }
    }
}

/// Adds what links dropped of what was sent by a trail.
fn add_dropped(alloc: Global, trail: &Recorded, found: &mut Vec<Posted>) -> Result<(), AllocError>
    ensures { OnOk result (map post_of found.new.items ≡ map post_of found.old.items ++ dropped trail.now) }
{
    let events = trail.events.as_slice();
    for event in events {
        add_lost(alloc, event, found)?;
    }
    Ok(())
}

/// What links dropped of what was sent by trails. Error: want of memory.
pub fn all_dropped(alloc: Global, trails: &[Recorded]) -> Result<Vec<Posted>, AllocError>
    ensures { IfOk result (λ found. map post_of found.items ≡ flat_map dropped trails.now) }
{
    let mut found = Vec::new(alloc);
    for trail in trails {
        add_dropped(alloc, trail, &mut found)?;
    }
    Ok(found)
}

/// Adds what came to a trail's owner by an event.
fn add_arrived(
    alloc: Global,
    to: u16,
    event: &TrailEvent,
    found: &mut Vec<Posted>,
) -> Result<(), AllocError>
    ensures { OnOk result (map post_of found.new.items ≡ map post_of found.old.items ++ arrived_at to event.now) }
{
    match event {
        TrailEvent::Happens(NodeEvent::Arrive(bytes)) => add(alloc, to, bytes.as_slice(), found),
        TrailEvent::Happens(NodeEvent::Tick | NodeEvent::Deliver | NodeEvent::Firm(_))
        | TrailEvent::Send(_)
        | TrailEvent::Lost(_)
        | TrailEvent::Polls(_)
        | TrailEvent::End => Ok(()),
    }
}

/// Adds what came to a trail's owner.
fn add_came(alloc: Global, trail: &Recorded, found: &mut Vec<Posted>) -> Result<(), AllocError>
    ensures { OnOk result (map post_of found.new.items ≡ map post_of found.old.items ++ came trail.now) }
{
    let events = trail.events.as_slice();
    for event in events {
        add_arrived(alloc, trail.opening.member, event, found)?;
    }
    Ok(())
}

/// What came to the owners of trails. Error: want of memory.
pub fn all_came(alloc: Global, trails: &[Recorded]) -> Result<Vec<Posted>, AllocError>
    ensures { IfOk result (λ found. map post_of found.items ≡ flat_map came trails.now) }
{
    let mut found = Vec::new(alloc);
    for trail in trails {
        add_came(alloc, trail, &mut found)?;
    }
    Ok(found)
}
