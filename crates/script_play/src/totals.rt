//! The totals of a play over a sum, and their text.
ghost use Rattle.std.specs.Prelude.{◌≡◌, ◌++◌, IfOk, OnOk, string_bytes};
ghost use Rattle.std.specs.List.{count_by};
ghost use Rattle.replica_rules.specs.Replicas.{state};
ghost use Rattle.app_count.specs.Counts.{counting};
ghost use Rattle.script_play.specs.Totals.{is_ask, has_ask, is_client, is_asked, totals_of, total_line, summary_text};

use app_count::Count;
use delivery::replica::{KeptReplica, deliver};
use smart_base::duplicate::Duplicate;
use smart_base::view::View;
use smart_messages::message::Message;
use smart_statements::batch::Batch;
use std::alloc::{AllocError, Global};
use std::fmt::Write;
use world_core::world::World;
use world_rules::message::{Content, Origin, Sent};

/// What a play over a sum comes to, in numbers.
#[derive(Clone, Copy, Debug, PartialEq, Eq)]
pub struct Totals {
    /// The requests that clients asked.
    pub asks: u64,
    /// The replies that clients accepted.
    pub accepted: u64,
    /// The length of the list of batches.
    pub places: u64,
    /// The sum of the service after the whole list.
    pub sum: u64,
    /// The messages that were sent.
    pub messages: u64,
}

/// Whether an origin is a client.
fn is_client(origin: Origin) -> bool
    ensures { result ≡ is_client origin }
{
    matches!(origin, Origin::Client(_))
}

/// Whether a message is a request.
fn is_ask(message: &Message) -> bool
    ensures { result ≡ is_ask message.now }
{
    matches!(message, Message::Ask(_))
}

/// Whether what was sent is a request.
fn has_ask(content: &Content) -> bool
    ensures { result ≡ has_ask content.now }
{
    match content {
        Content::Message(message) => is_ask(message),
        Content::Raw(_) => false,
    }
}

/// Whether a client asks in a message.
fn is_asked(sent: &Sent) -> bool
    ensures { result ≡ is_asked sent.now }
{
    is_client(sent.origin) && has_ask(&sent.content)
}

/// The number of messages in which a client asks.
fn count_asked(sent: &[Sent]) -> usize
    ensures { result ≡ count_by is_asked sent.now }
{
    let mut count = 0;
    for message in sent {
        if is_asked(message) {
            count += 1;
        }
    }
    count
}

/// The sum of the service after a list of batches, each delivered in turn to a replica of its own.
/// Error: want of memory.
fn state_sum(alloc: Global, view: &View, list: &[Batch]) -> Result<u64, AllocError>
    ensures { IfOk result (λ sum. sum ≡ (state counting view.now list.now).service.sum) }
{
    let mut replica = KeptReplica::<Count>::empty(alloc, view.duplicate(alloc)?)?;
    for batch in list {
        // A list that is longer than places go has no room in any memory.
        if replica.replica().place.get() + 1 >= 1 << 63 {
            return Err(AllocError);
        }
        deliver(alloc, &mut replica, batch)?;
    }
    Ok(replica.replica().service.sum)
}

/// The totals of a play over a sum. Error: want of memory.
pub fn totals_of(alloc: Global, world: &World<Count>) -> Result<Totals, AllocError>
    ensures { IfOk result (λ totals. totals ≡ totals_of world.now) }
{
    let sum = state_sum(alloc, &world.header().view, world.chosen())?;
    Ok(Totals {
        asks: count_asked(world.sent()) as u64,
        accepted: world.accepted().len() as u64,
        places: world.chosen().len() as u64,
        sum,
        messages: world.sent().len() as u64,
    })
}

/// Adds a line of a name and a number.
fn put_line(out: &mut String, name: &str, number: u64) -> Result<(), AllocError>
    ensures { OnOk result (string_bytes out.new ≡ string_bytes out.old ++ total_line name.now number) }
{
    write!(out, "{name} {number}\n")
}

/// The summary of a load. Error: want of memory.
pub fn summary(alloc: Global, count: u32, totals: &Totals) -> Result<String, AllocError>
    ensures { IfOk result (λ text. string_bytes text ≡ summary_text count totals.now) }
{
    let mut out = String::new(alloc);
    put_line(&mut out, "load", count as u64)?;
    put_line(&mut out, "asks", totals.asks)?;
    put_line(&mut out, "accepted", totals.accepted)?;
    put_line(&mut out, "places", totals.places)?;
    put_line(&mut out, "sum", totals.sum)?;
    put_line(&mut out, "messages", totals.messages)?;
    Ok(out)
}
