//! How a message is offered to several links, which Losts tell of it, and how what was put is told.
ghost use Rattle.std.specs.Prelude.{◌≡◌, ◌<◌, ◌++◌, [], false, get_or, vec_len, IfOk, OnOk, OnErr};
ghost use Rattle.queue_ends.specs.Ends.{told_put, told_queue};
ghost use Rattle.group_ends.specs.Ports.{ends, port_links, puts, lost_if, losts, IsOfferedAt, AreOffered, AreWithin};
ghost use Rattle.trail.specs.declared.event.TrailEvent.TheVariants.{Lost};

use crate::port::Port;
use node_rules::node::Target;
use queue_ends::told::Told;
use smart_base::duplicate::Duplicate;
use smart_base::sequence::Bytes;
use std::alloc::{AllocError, Global};
use std::sync::Wait;
use trail::event::{Addressed, TrailEvent};

/// Offers a message to one of several links. Says whether the link dropped it. Error: want of memory;
/// nothing was put.
fn offer_at<R: Wait>(
    rt: &R,
    alloc: Global,
    ports: &mut Vec<Port>,
    index: usize,
    to: &Target,
    text: &Bytes,
) -> Result<bool, AllocError>
    requires { index < vec_len ports.old }
    ensures ok { IfOk result (λ dropped. IsOfferedAt to.now text.now ports.old.items index dropped ports.new.items) }
    ensures err { OnErr result (ports.new.items ≡ ports.old.items) }
    ensures many { vec_len ports.new ≡ vec_len ports.old }
{
    ports[index].offer(rt, alloc, to, text)
}

/// Offers a message to each of several links. Says of each whether it dropped the message. Error: want of
/// memory; some of the links have it then.
pub fn offer_all<R: Wait>(
    rt: &R,
    alloc: Global,
    ports: &mut Vec<Port>,
    to: &Target,
    text: &Bytes,
) -> Result<Vec<bool>, AllocError>
    ensures ok { IfOk result (λ dropped. AreOffered to.now text.now ports.old.items dropped.items ports.new.items) }
    ensures err { OnErr result (AreWithin to.now text.now ports.old.items ports.new.items) }
{
    let mut dropped = Vec::with_capacity(alloc, ports.len())?;
    for index in 0..ports.len() {
        let is_dropped = offer_at(rt, alloc, ports, index, to, text)?;
        dropped.push(is_dropped)?;
    }
    Ok(dropped)
}

/// Tells what was put so far on one of several links.
pub fn tell_at(ports: &mut Vec<Port>, index: usize) -> Told<Bytes>
    requires { index < vec_len ports.old }
    ensures link { told_queue result ≡ get_or (port_links ports.old.items) index (told_queue result) }
    ensures told { told_put result ≡ get_or (puts ports.old.items) index [] }
    ensures same { (ends ports.new.items ≡ ends ports.old.items) × ((port_links ports.new.items ≡ port_links ports.old.items) × (puts ports.new.items ≡ puts ports.old.items)) }
{
    ports[index].tell()
}

/// The Lost of a message that the link to an end has dropped. Error: want of memory.
fn lost_of(alloc: Global, sent: &Addressed, end: Target) -> Result<TrailEvent, AllocError>
    ensures { IfOk result (λ lost. lost ≡ Lost (record { to = end; message = sent.now.message })) }
{
    let message = sent.message.duplicate(alloc)?;
    Ok(TrailEvent::Lost(Addressed { to: end, message }))
}

/// Whether the flag at an index is set; those behind the last one are not.
fn is_set(flags: &[bool], index: usize) -> bool
    ensures { result ≡ get_or flags.now index false }
{
    if index < flags.len() {
        flags[index]
    } else {
        false
    }
}

/// Adds the Lost of a message on its way to an end, if the link dropped it. Error: want of memory.
fn push_lost(
    alloc: Global,
    events: &mut Vec<TrailEvent>,
    sent: &Addressed,
    end: Target,
    is_dropped: bool,
) -> Result<(), AllocError>
    ensures { OnOk result (events.new.items ≡ events.old.items ++ lost_if is_dropped sent.now end) }
{
    if !is_dropped {
        return Ok(());
    }
    events.push(lost_of(alloc, sent, end)?)?;
    Ok(())
}

/// The Losts of a message, one for each link that dropped it. Error: want of memory.
pub fn losts_of(
    alloc: Global,
    sent: &Addressed,
    ports: &[Port],
    dropped: &[bool],
) -> Result<Vec<TrailEvent>, AllocError>
    ensures { IfOk result (λ v. v.items ≡ losts sent.now (ends ports.now) dropped.now) }
{
    let mut events = Vec::new(alloc);
    for (index, port) in ports.iter().enumerate() {
        push_lost(alloc, &mut events, sent, port.end, is_set(dropped, index))?;
    }
    Ok(events)
}
