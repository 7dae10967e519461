//! How the client of a group asks for an amount, and hears a message.
ghost use Rattle.std.specs.Prelude.{◌≡◌, ◌≤◌, ◌<◌, ◌⊎◌, ◌+◌, ◌^◌, ◌++◌, ◌∷◌, [], List, false, true, None, is_some, IfOk, OnOk, OnErr, IsErrOf};
ghost use Rattle.std.specs.Fmt.{decimal};
ghost use Rattle.faults.specs.Counts.{Rose};
ghost use Rattle.smart_base.specs.Lists.{Each};
ghost use Rattle.client_quorum.specs.declared.client.Acceptance.{Acceptance};
ghost use Rattle.trail.specs.declared.event.TrailEvent.{TrailEvent};
ghost use Rattle.group_ends.specs.Journals.{has_end};
ghost use Rattle.group_ends.specs.Ports.{heard_puts, heard_and_taken, IsEmptied};
ghost use Rattle.group_client.specs.Amounts.{asked_in};
ghost use Rattle.group_client.specs.Lines.{accepted, accepted_by, IsTold, IsToldFirst};

use crate::reply_line::{LineFault, write_reply};
use client_quorum::client::Heard;
use client_seat::seat::ClientSeat;
use faults::Fault;
use group_ends::owner::Owner;
use smart_base::bytes::Payload;
use smart_io::stream::Sink;
use std::alloc::{AllocError, Global};
use std::sync::Wait;

/// Why a client does not go on.
#[derive(Clone, Copy, Debug, PartialEq, Eq)]
pub enum ClientFault {
    /// The sink of its trail has failed.
    Trail,
    /// The sink of the lines has failed.
    Output,
    /// The sink of the lines wants memory.
    OutputMemory,
    /// Memory ran out.
    NoMemory,
}

/// A fault of a seat as one of its client.
fn of_trail(fault: Fault) -> ClientFault
    ensures trail { result ≡ ClientFault.Trail → fault ≡ Fault.Failed }
    ensures output { result ≡ ClientFault.Output → ⊥ }
    ensures want { result ≡ ClientFault.OutputMemory → ⊥ }
{
    match fault {
        Fault::Failed => ClientFault::Trail,
        Fault::NoMemory => ClientFault::NoMemory,
    }
}

/// A fault of a line as one of the client.
fn of_line(fault: LineFault) -> ClientFault
    ensures trail { result ≡ ClientFault.Trail → ⊥ }
    ensures output { result ≡ ClientFault.Output → fault ≡ LineFault.Failed }
    ensures want { result ≡ ClientFault.OutputMemory → fault ≡ LineFault.SinkMemory }
    ensures memory { result ≡ ClientFault.NoMemory → fault ≡ LineFault.NoMemory }
{
    match fault {
        LineFault::Failed => ClientFault::Output,
        LineFault::SinkMemory => ClientFault::OutputMemory,
        LineFault::NoMemory => ClientFault::NoMemory,
    }
}

/// An amount as an operation. Error: want of memory.
fn amount_of(alloc: Global, amount: u64) -> Result<Payload, AllocError>
    ensures { IfOk result (λ op. op ≡ decimal amount) }
{
    let text = amount.to_string(alloc)?;
    Payload::from_slice(alloc, text.as_bytes())
}

/// Notes the polls that found nothing, and asks for the next amount. Errors: a failure of the trail's sink;
/// want of memory. The request may have left for some members then.
fn ask_amount<P: Owner, O: Sink, R: Wait>(
    rt: &R,
    alloc: Global,
    seat: &mut ClientSeat<P, O>,
) -> Result<(), Fault>
    requires whole { seat.old.over ≡ false }
    requires waits { seat.old.client.waiting ≡ None }
    requires open { has_end seat.old.journal.events.items ≡ false }
    requires few { seat.old.client.last < 2 ^ 32 }
    ensures going { OnOk result ((seat.new.over ≡ false) × (seat.new.pending ≡ seat.old.pending)) }
    ensures asked { OnOk result (asked_in seat.new.journal.events.items ≡ asked_in seat.old.journal.events.items ++ decimal (seat.old.client.last + 1) ∷ []) }
    ensures client { OnOk result ((seat.new.client.last ≡ seat.old.client.last + 1) × (is_some seat.new.client.waiting ≡ true)) }
    ensures err { OnErr result ((asked_in seat.new.journal.events.items ≡ asked_in seat.old.journal.events.items) ⊎ (asked_in seat.new.journal.events.items ≡ asked_in seat.old.journal.events.items ++ decimal (seat.old.client.last + 1) ∷ [])) }
    ensures same { accepted (P.head 0) seat.new.journal.events.items ≡ accepted (P.head 0) seat.old.journal.events.items }
    ensures open { has_end seat.new.journal.events.items ≡ false }
    ensures behind { (more : List TrailEvent) × (seat.new.journal.events.items ≡ seat.old.journal.events.items ++ more) }
    ensures heard { heard_puts seat.new.inbox.links.items ≡ heard_puts seat.old.inbox.links.items }
    ensures cause { IsErrOf result Fault.Failed → seat.new.journal.failed ≡ true }
{
    seat.tell_polls()?;
    let Ok(op) = amount_of(alloc, seat.asked() + 1) else {
        return Err(Fault::NoMemory);
    };
    seat.ask(rt, &op)
}

/// Asks for the next amount. Errors: a failure of the trail's sink; want of memory. The request may have
/// left for some members then.
pub fn ask_next<P: Owner, O: Sink, R: Wait>(
    rt: &R,
    alloc: Global,
    seat: &mut ClientSeat<P, O>,
) -> Result<(), ClientFault>
    requires whole { seat.old.over ≡ false }
    requires waits { seat.old.client.waiting ≡ None }
    requires open { has_end seat.old.journal.events.items ≡ false }
    requires few { seat.old.client.last < 2 ^ 32 }
    ensures going { OnOk result ((seat.new.over ≡ false) × (seat.new.pending ≡ seat.old.pending)) }
    ensures asked { OnOk result (asked_in seat.new.journal.events.items ≡ asked_in seat.old.journal.events.items ++ decimal (seat.old.client.last + 1) ∷ []) }
    ensures client { OnOk result ((seat.new.client.last ≡ seat.old.client.last + 1) × (is_some seat.new.client.waiting ≡ true)) }
    ensures err { OnErr result ((asked_in seat.new.journal.events.items ≡ asked_in seat.old.journal.events.items) ⊎ (asked_in seat.new.journal.events.items ≡ asked_in seat.old.journal.events.items ++ decimal (seat.old.client.last + 1) ∷ [])) }
    ensures same { accepted (P.head 0) seat.new.journal.events.items ≡ accepted (P.head 0) seat.old.journal.events.items }
    ensures open { has_end seat.new.journal.events.items ≡ false }
    ensures behind { (more : List TrailEvent) × (seat.new.journal.events.items ≡ seat.old.journal.events.items ++ more) }
    ensures heard { heard_puts seat.new.inbox.links.items ≡ heard_puts seat.old.inbox.links.items }
    ensures trail { IsErrOf result ClientFault.Trail → seat.new.journal.failed ≡ true }
    ensures output { (IsErrOf result ClientFault.Output → ⊥) × (IsErrOf result ClientFault.OutputMemory → ⊥) }
{
    match ask_amount(rt, alloc, seat) {
        Ok(()) => Ok(()),
        Err(fault) => Err(of_trail(fault)),
    }
}

/// Notes the polls that found nothing, and plays the message that was taken. Gives what the client made of
/// it. Errors: a failure of the trail's sink; want of memory.
fn play_next<P: Owner, O: Sink>(seat: &mut ClientSeat<P, O>) -> Result<Option<Heard>, Fault>
    requires whole { seat.old.over ≡ false }
    requires open { has_end seat.old.journal.events.items ≡ false }
    ensures going { OnOk result ((seat.new.over ≡ false) × (seat.new.pending ≡ None)) }
    ensures asked { asked_in seat.new.journal.events.items ≡ asked_in seat.old.journal.events.items }
    ensures client { OnOk result (seat.new.client.last ≡ seat.old.client.last) }
    ensures accepted { IfOk result (λ found. accepted (P.head 0) seat.new.journal.events.items ≡ accepted (P.head 0) seat.old.journal.events.items ++ accepted_by found) }
    ensures more { OnErr result ((more : List Acceptance) × (accepted (P.head 0) seat.new.journal.events.items ≡ accepted (P.head 0) seat.old.journal.events.items ++ more)) }
    ensures open { has_end seat.new.journal.events.items ≡ false }
    ensures behind { (more : List TrailEvent) × (seat.new.journal.events.items ≡ seat.old.journal.events.items ++ more) }
    ensures heard { seat.new.inbox ≡ seat.old.inbox }
    ensures cause { IsErrOf result Fault.Failed → seat.new.journal.failed ≡ true }
{
    seat.tell_polls()?;
    seat.play()
}

/// Hears the next message, if one of the links has one, and writes the line of what is accepted by it. Says
/// whether there was a message. `false` only where each link was empty at a moment of its own. Errors: a
/// failure of the trail's sink or of the output; want of memory.
pub fn hear_next<P: Owner, O: Sink, W: Sink, R: Wait>(
    rt: &R,
    alloc: Global,
    seat: &mut ClientSeat<P, O>,
    output: &mut W,
) -> Result<bool, ClientFault>
    requires whole { seat.old.over ≡ false }
    requires played { seat.old.pending ≡ None }
    requires open { has_end seat.old.journal.events.items ≡ false }
    ensures going { OnOk result ((seat.new.over ≡ false) × (seat.new.pending ≡ None)) }
    ensures asked { asked_in seat.new.journal.events.items ≡ asked_in seat.old.journal.events.items }
    ensures client { OnOk result (seat.new.client.last ≡ seat.old.client.last) }
    ensures nothing { IfOk result (λ heard. heard ≡ false → (seat.new.journal.events.items ≡ seat.old.journal.events.items) × (seat.new.client ≡ seat.old.client)) }
    ensures empty { IfOk result (λ heard. heard ≡ false → Each IsEmptied (heard_and_taken seat.old.inbox.links.items)) }
    ensures open { has_end seat.new.journal.events.items ≡ false }
    ensures behind { (more : List TrailEvent) × (seat.new.journal.events.items ≡ seat.old.journal.events.items ++ more) }
    ensures heard { heard_puts seat.new.inbox.links.items ≡ heard_puts seat.old.inbox.links.items }
    ensures told { OnOk result (IsTold (accepted (P.head 0) seat.old.journal.events.items) (accepted (P.head 0) seat.new.journal.events.items) (W.written output.old) (W.written output.new)) }
    ensures told_first { OnErr result (IsToldFirst (accepted (P.head 0) seat.old.journal.events.items) (accepted (P.head 0) seat.new.journal.events.items) (W.written output.old) (W.written output.new)) }
    ensures none { IsErrOf result ClientFault.NoMemory → W.written output.new ≡ W.written output.old }
    ensures trail { IsErrOf result ClientFault.Trail → (seat.new.journal.failed ≡ true) × (W.written output.new ≡ W.written output.old) }
    ensures failed { IsErrOf result ClientFault.Output → Rose (W.faults output.old) (W.faults output.new) }
    ensures want { IsErrOf result ClientFault.OutputMemory → Rose (W.wants output.old) (W.wants output.new) }
    ensures later { (W.faults output.old ≤ W.faults output.new) × (W.wants output.old ≤ W.wants output.new) }
{
    if !seat.poll(rt) {
        return Ok(false);
    }
    match play_next(seat) {
        Ok(Some(heard)) => match write_reply(alloc, output, &heard) {
            Ok(()) => Ok(true),
            Err(fault) => Err(of_line(fault)),
        },
        Ok(None) => Ok(true),
        Err(fault) => Err(of_trail(fault)),
    }
}
