//! The bytes of a trail's events, and how events are read.
ghost use Rattle.std.specs.Prelude.{◌≡◌, ◌++◌, [], ℕ, List, IfOk, OnOk, OnErr, Ok};
ghost use Rattle.smart_base.specs.Cuts.{Cut, GivesAll, Takes};
ghost use Rattle.smart_base.specs.Spelling.{Extends};
ghost use Rattle.trail.specs.Events.{target_kind, target_id, is_one, addressed_text, is_target, is_id, target_of, target_kind_at, target_id_at, message_left, addressed_at, event_kind, event_content, event_text, FitsEvent, is_event_kind, event_kind_at, alone_at, number_left, lost_at, content_at, event_at, event_decoded};

use crate::event::{Addressed, TrailEvent};
use node_rules::node::Target;
use smart_base::cursor::Cursor;
use smart_base::fault::{ReadError, Unread};
use smart_base::field::{copied, put_u8, put_u16, put_u64};
use smart_base::name::{ClientId, MemberId};
use smart_messages::codec::{decode, encode};
use smart_messages::message::Message;
use smart_statements::entry::NodeEvent;
use std::alloc::{AllocError, Global};

/// Whether a byte is the kind of a receiver.
fn is_target(kind: u8) -> bool
    ensures { result ≡ is_target kind }
{
    kind == 1 || kind == 2 || kind == 3 || kind == 4
}

/// Whether a receiver of this kind has this number.
fn is_id(kind: u8, id: u16) -> bool
    ensures { result ≡ is_id kind id }
{
    kind == 1 || kind == 2 || id == 0
}

fn target_of(kind: u8, id: u16) -> Target
    ensures { result ≡ target_of kind id }
{
    if kind == 1 {
        Target::Node(MemberId::new(id))
    } else if kind == 2 {
        Target::Client(ClientId::new(id))
    } else if kind == 3 {
        Target::View
    } else {
        Target::Clients
    }
}

#[tactic(auto, unfolding(smart_base::specs::Cuts::ranged))]
fn take_target_kind(cut: &mut Cursor<'_>) -> Result<u8, Unread>
    ensures { Takes result cut.new (target_kind_at cut.old) }
{
    let at = cut.at();
    let found = cut.take_u8()?;
    if is_target(found) {
        Ok(found)
    } else {
        Err(Unread { at })
    }
}

#[tactic(auto, unfolding(smart_base::specs::Cuts::ranged))]
fn take_id(cut: &mut Cursor<'_>, kind: u8) -> Result<u16, Unread>
    ensures { Takes result cut.new (target_id_at kind cut.old) }
{
    let at = cut.at();
    let found = cut.take_u16()?;
    if is_id(kind, found) {
        Ok(found)
    } else {
        Err(Unread { at })
    }
}

/// Reads the message that is left.
fn read_message(alloc: Global, cut: &Cursor<'_>) -> Result<Message, ReadError>
    ensures { GivesAll result (message_left cut.now) }
{
    match decode(alloc, cut.rest()) {
        Ok(message) => Ok(message),
        Err(ReadError::NoMemory) => Err(ReadError::NoMemory),
        Err(ReadError::Unread { at: _ }) => Err(ReadError::Unread { at: cut.at() }),
    }
}

#[tactic(auto, unfolding(crate::specs::Events::addressed_at))]
fn read_addressed(alloc: Global, cut: &mut Cursor<'_>) -> Result<Addressed, ReadError>
    ensures { GivesAll result (addressed_at cut.old) }
{
    let kind = take_target_kind(cut)?;
    let id = take_id(cut, kind)?;
    let message = read_message(alloc, cut)?;
    Ok(Addressed {
        to: target_of(kind, id),
        message,
    })
}

/// Whether this is one receiver, and neither a view nor all clients.
fn is_one(to: Target) -> bool
    ensures { result ≡ is_one to }
{
    match to {
        Target::Node(_) => true,
        Target::Client(_) => true,
        Target::View => false,
        Target::Clients => false,
    }
}

#[tactic(auto, unfolding(crate::specs::Events::lost_at))]
fn read_lost(alloc: Global, cut: &mut Cursor<'_>) -> Result<TrailEvent, ReadError>
    ensures { GivesAll result (lost_at cut.old) }
{
    let at = cut.at();
    let lost = read_addressed(alloc, cut)?;
    if is_one(lost.to) {
        Ok(TrailEvent::Lost(lost))
    } else {
        Err(ReadError::Unread { at })
    }
}

/// Reads a number that is all that is left.
#[tactic(auto, unfolding(smart_base::specs::Cuts::whole))]
fn read_number(cut: &mut Cursor<'_>) -> Result<u64, ReadError>
    ensures { GivesAll result (number_left cut.old) }
{
    let number = cut.take_u64()?;
    if !cut.is_done() {
        return Err(ReadError::Unread { at: cut.at() });
    }
    Ok(number)
}

/// An event with nothing after its first byte.
#[tactic(auto, unfolding(crate::specs::Events::alone_at))]
fn read_alone(event: TrailEvent, cut: &Cursor<'_>) -> Result<TrailEvent, ReadError>
    ensures { GivesAll result (alone_at event cut.now) }
{
    if cut.is_done() {
        Ok(event)
    } else {
        Err(ReadError::Unread { at: cut.at() })
    }
}

/// Reads what comes after an event's first byte.
#[tactic(auto, unfolding(crate::specs::Events::content_at))]
fn read_content(alloc: Global, kind: u8, cut: &mut Cursor<'_>) -> Result<TrailEvent, ReadError>
    ensures { GivesAll result (content_at kind cut.old) }
{
    match kind {
        1 => Ok(TrailEvent::Happens(NodeEvent::Arrive(copied(alloc, cut)?))),
        2 => read_alone(TrailEvent::Happens(NodeEvent::Tick), cut),
        3 => read_alone(TrailEvent::Happens(NodeEvent::Deliver), cut),
        4 => Ok(TrailEvent::Happens(NodeEvent::Firm(read_number(cut)?))),
        5 => Ok(TrailEvent::Send(read_addressed(alloc, cut)?)),
        6 => read_lost(alloc, cut),
        7 => Ok(TrailEvent::Polls(read_number(cut)?)),
        _ => read_alone(TrailEvent::End, cut),
    }
}

/// Whether a byte is the first of an event.
fn is_event_kind(kind: u8) -> bool
    ensures { result ≡ is_event_kind kind }
{
    kind == 1
        || kind == 2
        || kind == 3
        || kind == 4
        || kind == 5
        || kind == 6
        || kind == 7
        || kind == 8
}

#[tactic(auto, unfolding(smart_base::specs::Cuts::ranged))]
fn take_event_kind(cut: &mut Cursor<'_>) -> Result<u8, Unread>
    ensures { Takes result cut.new (event_kind_at cut.old) }
{
    let at = cut.at();
    let found = cut.take_u8()?;
    if is_event_kind(found) {
        Ok(found)
    } else {
        Err(Unread { at })
    }
}

#[tactic(auto, unfolding(crate::specs::Events::event_at))]
fn read_all(alloc: Global, bytes: &[u8]) -> Result<TrailEvent, ReadError>
    ensures { GivesAll result (event_decoded bytes.now) }
{
    let mut cut = Cursor::new(bytes);
    let kind = take_event_kind(&mut cut)?;
    read_content(alloc, kind, &mut cut)
}

/// The event that these bytes are, all of them. Errors: the offset of the first field that is none, of a
/// message that is none, or of a byte left over; want of memory.
pub fn decode_event(alloc: Global, bytes: &[u8]) -> Result<TrailEvent, ReadError>
    // What is read is spelled so.
    ensures found { IfOk result (λ e. FitsEvent e × (bytes.now ≡ event_text e)) }
    // What is spelled so is read, unless memory runs out.
    ensures only { (e : TrailEvent) → FitsEvent e → bytes.now ≡ event_text e → GivesAll result (Ok e) }
    ensures exact { GivesAll result (event_decoded bytes.now) }
{
    read_all(alloc, bytes)
}

fn target_kind(to: Target) -> u8
    ensures { result ≡ target_kind to }
{
    match to {
        Target::Node(_) => 1,
        Target::Client(_) => 2,
        Target::View => 3,
        Target::Clients => 4,
    }
}

fn target_id(to: Target) -> u16
    ensures { result ≡ target_id to }
{
    match to {
        Target::Node(member) => member.get(),
        Target::Client(client) => client.get(),
        Target::View => 0,
        Target::Clients => 0,
    }
}

/// Adds the bytes of a message and of who receives it. Error: want of memory.
#[tactic(auto, unfolding(crate::specs::Events::addressed_text))]
pub fn put_addressed(
    alloc: Global,
    out: &mut Vec<u8>,
    addressed: &Addressed,
) -> Result<(), AllocError>
    ensures text { OnOk result (out.new.items ≡ out.old.items ++ addressed_text addressed.now) }
    ensures err { OnErr result (Extends out.old.items out.new.items) }
{
    let message = encode(alloc, &addressed.message)?;
    put_u8(out, target_kind(addressed.to))?;
    put_u16(out, target_id(addressed.to))?;
    out.extend_from_slice(message.as_slice())?;
    Ok(())
}

fn event_kind(event: &TrailEvent) -> u8
    ensures { result ≡ event_kind event.now }
{
    match event {
        TrailEvent::Happens(NodeEvent::Arrive(_)) => 1,
        TrailEvent::Happens(NodeEvent::Tick) => 2,
        TrailEvent::Happens(NodeEvent::Deliver) => 3,
        TrailEvent::Happens(NodeEvent::Firm(_)) => 4,
        TrailEvent::Send(_) => 5,
        TrailEvent::Lost(_) => 6,
        TrailEvent::Polls(_) => 7,
        TrailEvent::End => 8,
    }
}

/// Adds the bytes after the first one.
fn put_content(alloc: Global, out: &mut Vec<u8>, event: &TrailEvent) -> Result<(), AllocError>
    ensures text { OnOk result (out.new.items ≡ out.old.items ++ event_content event.now) }
    ensures err { OnErr result (Extends out.old.items out.new.items) }
{
    match event {
        TrailEvent::Happens(NodeEvent::Arrive(bytes)) => {
            out.extend_from_slice(bytes.as_slice())?;
            Ok(())
        }
        TrailEvent::Happens(NodeEvent::Firm(count)) => put_u64(out, *count),
        TrailEvent::Send(addressed) => put_addressed(alloc, out, addressed),
        TrailEvent::Lost(addressed) => put_addressed(alloc, out, addressed),
        TrailEvent::Polls(count) => put_u64(out, *count),
        TrailEvent::Happens(NodeEvent::Tick) => Ok(()),
        TrailEvent::Happens(NodeEvent::Deliver) => Ok(()),
        TrailEvent::End => Ok(()),
    }
}

/// The bytes of an event. Error: want of memory.
#[tactic(auto, unfolding(crate::specs::Events::event_text))]
pub fn encode_event(alloc: Global, event: &TrailEvent) -> Result<Vec<u8>, AllocError>
    ensures { IfOk result (λ v. v.items ≡ event_text event.now) }
{
    let mut out = Vec::new(alloc);
    put_u8(&mut out, event_kind(event))?;
    put_content(alloc, &mut out, event)?;
    Ok(out)
}
