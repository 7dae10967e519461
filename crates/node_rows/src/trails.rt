//! Rows of the bytes of trails.
use crate::fault::RowFault;
use crate::words::bytes_of;
use node_rules::node::Target;
use smart_base::fault::ReadError;
use smart_statements::entry::NodeEvent;
use std::alloc::{AllocError, Global};
use trail::event::{Addressed, TrailEvent};
use trail::event_bytes::{decode_event, encode_event};
use trail::opening::{App, TrailOpening};
use trail::opening_bytes::{decode_opening, encode_opening};

/// The longest secret and snapshot of a row.
const MOST: usize = 1 << 20;

fn told_target(alloc: Global, kind: &str, addressed: &Addressed) -> Result<String, AllocError> {
    match addressed.to {
        Target::Node(member) => {
            let number = member.get();
            format!(in alloc; "{kind} n{number}")
        }
        Target::Client(client) => {
            let number = client.get();
            format!(in alloc; "{kind} c{number}")
        }
        Target::View => format!(in alloc; "{kind} view"),
        Target::Clients => format!(in alloc; "{kind} clients"),
    }
}

fn told(alloc: Global, event: &TrailEvent) -> Result<String, AllocError> {
    match event {
        TrailEvent::Happens(NodeEvent::Arrive(bytes)) => {
            let count = bytes.len();
            format!(in alloc; "arrive {count}")
        }
        TrailEvent::Happens(NodeEvent::Tick) => String::from_str(alloc, "tick"),
        TrailEvent::Happens(NodeEvent::Deliver) => String::from_str(alloc, "deliver"),
        TrailEvent::Happens(NodeEvent::Firm(count)) => format!(in alloc; "firm {count}"),
        TrailEvent::Send(addressed) => told_target(alloc, "send", addressed),
        TrailEvent::Lost(addressed) => told_target(alloc, "lost", addressed),
        TrailEvent::Polls(count) => format!(in alloc; "polls {count}"),
        TrailEvent::End => String::from_str(alloc, "end"),
    }
}

/// Says what these bytes were not read as.
fn say_unread(rt: &HostRuntime, error: ReadError) -> Result<(), RowFault> {
    match error {
        ReadError::NoMemory => Err(RowFault::NoMemory),
        ReadError::Unread { at } => {
            println!(rt; "unread at {at}")?;
            Ok(())
        }
    }
}

/// Says whether bytes are spelled again as they were read.
fn say_again(rt: &HostRuntime, what: &str, spelled: &[u8], bytes: &[u8]) -> Result<(), RowFault> {
    if spelled == bytes {
        println!(rt; "{what}")?;
    } else {
        println!(rt; "{what}, but spelled otherwise")?;
    }
    Ok(())
}

/// Says which event some bytes are.
pub fn say_event(rt: &HostRuntime, word: &str) -> Result<(), RowFault> {
    let alloc = rt.alloc();
    let bytes = bytes_of(alloc, word)?;
    match decode_event(alloc, bytes.as_slice()) {
        Ok(event) => {
            let spelled = encode_event(alloc, &event)?;
            let what = told(alloc, &event)?;
            say_again(rt, what.as_str(), spelled.as_slice(), bytes.as_slice())
        }
        Err(error) => say_unread(rt, error),
    }
}

fn told_opening(alloc: Global, opening: &TrailOpening) -> Result<String, AllocError> {
    let member = opening.member;
    let period = opening.period;
    let members = opening.view.members().len();
    let app = match opening.app {
        App::Count => "count",
        App::Kv => "kv",
    };
    let entries = opening.entries;
    format!(in alloc; "member {member} period {period} of {members} {app} entries {entries}")
}

/// Says which opening some bytes are.
pub fn say_opening(rt: &HostRuntime, word: &str) -> Result<(), RowFault> {
    let alloc = rt.alloc();
    let bytes = bytes_of(alloc, word)?;
    match decode_opening(alloc, bytes.as_slice()) {
        Ok(opening) => {
            if opening.secret.len() > MOST || opening.snapshot.len() > MOST {
                return Err(RowFault::Word);
            }
            let spelled = encode_opening(alloc, &opening)?;
            let what = told_opening(alloc, &opening)?;
            say_again(rt, what.as_str(), spelled.as_slice(), bytes.as_slice())
        }
        Err(error) => say_unread(rt, error),
    }
}
