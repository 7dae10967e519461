//! The turns of a group's client, and its loop.
ghost use Rattle.std.specs.Prelude.{◌≡◌, ◌≤◌, ◌+◌, ◌-◌, ◌^◌, ◌++◌, List, min, false, true, Ok, None, is_some, OnOk, OnErr, IsErrOf};
ghost use Rattle.faults.specs.Counts.{Rose};
ghost use Rattle.smart_base.specs.Lists.{Each};
ghost use Rattle.trail.specs.declared.event.TrailEvent.{TrailEvent};
ghost use Rattle.client_seat.specs.Asks.{polls_since};
ghost use Rattle.group_ends.specs.Journals.{has_end};
ghost use Rattle.group_ends.specs.Ports.{heard_puts, heard_and_taken, IsEmptied};
ghost use Rattle.group_client.specs.Amounts.{amounts, asked_in, AsksUpTo};
ghost use Rattle.group_client.specs.Ends.{gave_up, is_line_cut};
ghost use Rattle.group_client.specs.Lines.{accepted, IsTold, IsToldFirst, IsToldWhole};

use crate::asking::{ClientFault, ask_next, hear_next};
use client_seat::seat::ClientSeat;
use group_ends::owner::Owner;
use smart_io::stream::Sink;
use std::alloc::Global;
use std::sync::Wait;
use std::sync::atomic::{AtomicBool, Ordering};
use std::thread;

/// What the client of a group is to do.
#[derive(Clone, Copy, Debug)]
pub struct Task {
    /// How many amounts it asks for, one after the other.
    pub asks: u32,
    /// How many polls since one request may find nothing.
    pub turns: u64,
}

/// What became of a turn of the client.
#[derive(Clone, Copy, Debug, PartialEq, Eq)]
pub enum ClientTurn {
    /// No request waits, and all were asked.
    Done,
    /// It asked for its next amount.
    Asked,
    /// It heard a message.
    Heard,
    /// Each of its links was empty.
    Nothing,
}

/// Why the loop of the client ended.
#[derive(Clone, Copy, Debug, PartialEq, Eq)]
pub enum ClientEnd {
    /// All replies were accepted.
    Done,
    /// The polls since its last request are spent.
    Spent,
    /// All loops of the group are to end.
    Over,
    /// The client does not go on.
    GaveUp(ClientFault),
}

/// One turn: the client asks for its next amount, if it waits for no reply, and hears a message otherwise.
/// Errors: a failure of the trail's sink or of the output; want of memory.
pub fn client_turn<P: Owner, O: Sink, W: Sink, R: Wait>(
    rt: &R,
    alloc: Global,
    asks: u32,
    seat: &mut ClientSeat<P, O>,
    output: &mut W,
) -> Result<ClientTurn, ClientFault>
    requires whole { seat.old.over ≡ false }
    requires played { seat.old.pending ≡ None }
    requires open { has_end seat.old.journal.events.items ≡ false }
    requires asked { asked_in seat.old.journal.events.items ≡ amounts seat.old.client.last }
    requires few { seat.old.client.last ≤ asks }
    ensures going { OnOk result ((seat.new.over ≡ false) × (seat.new.pending ≡ None)) }
    ensures asked { OnOk result (asked_in seat.new.journal.events.items ≡ amounts seat.new.client.last) }
    ensures few { OnOk result (seat.new.client.last ≤ asks) }
    ensures err { OnErr result (AsksUpTo asks seat.new.journal.events.items) }
    ensures done { result ≡ Ok ClientTurn.Done → (seat.new.journal.events.items ≡ seat.old.journal.events.items) × ((seat.new.client.waiting ≡ None) × (seat.new.client.last ≡ asks)) }
    ensures nothing { result ≡ Ok ClientTurn.Nothing → (seat.new.journal.events.items ≡ seat.old.journal.events.items) × (is_some seat.new.client.waiting ≡ true) }
    ensures empty { result ≡ Ok ClientTurn.Nothing → Each IsEmptied (heard_and_taken seat.old.inbox.links.items) }
    ensures open { has_end seat.new.journal.events.items ≡ false }
    ensures behind { (more : List TrailEvent) × (seat.new.journal.events.items ≡ seat.old.journal.events.items ++ more) }
    ensures heard { heard_puts seat.new.inbox.links.items ≡ heard_puts seat.old.inbox.links.items }
    ensures told { OnOk result (IsTold (accepted (P.head 0) seat.old.journal.events.items) (accepted (P.head 0) seat.new.journal.events.items) (W.written output.old) (W.written output.new)) }
    ensures told_first { OnErr result (IsToldFirst (accepted (P.head 0) seat.old.journal.events.items) (accepted (P.head 0) seat.new.journal.events.items) (W.written output.old) (W.written output.new)) }
    ensures none { IsErrOf result ClientFault.NoMemory → W.written output.new ≡ W.written output.old }
    ensures trail { IsErrOf result ClientFault.Trail → (seat.new.journal.failed ≡ true) × (W.written output.new ≡ W.written output.old) }
    ensures failed { IsErrOf result ClientFault.Output → Rose (W.faults output.old) (W.faults output.new) }
    ensures want { IsErrOf result ClientFault.OutputMemory → Rose (W.wants output.old) (W.wants output.new) }
    ensures later { (W.faults output.old ≤ W.faults output.new) × (W.wants output.old ≤ W.wants output.new) }
{
    if seat.waits() {
        return match hear_next(rt, alloc, seat, output) {
            Ok(true) => Ok(ClientTurn::Heard),
            Ok(false) => Ok(ClientTurn::Nothing),
            Err(fault) => Err(fault),
        };
    }
    if seat.asked() >= u64::from(asks) {
        return Ok(ClientTurn::Done);
    }
    match ask_next(rt, alloc, seat) {
        Ok(()) => Ok(ClientTurn::Asked),
        Err(fault) => Err(fault),
    }
}

/// Whether a request waits, and the polls since it was asked are spent.
fn is_spent<P: Owner, O: Sink>(seat: &ClientSeat<P, O>, turns: u64) -> bool
    ensures { result ≡ true → (is_some seat.now.client.waiting ≡ true) × (turns ≤ min (polls_since 0 seat.now.journal.events.items + seat.now.idle) (2 ^ 64 - 1)) }
{
    seat.waits() && seat.polls() >= turns
}

/// Makes turns of the client until all replies are accepted, the polls since one request are spent, or all
/// loops of the group are to end. Those end with it.
pub fn client_loop<P: Owner, O: Sink, W: Sink, R: Wait>(
    rt: &R,
    alloc: Global,
    ended: &AtomicBool,
    task: &Task,
    seat: &mut ClientSeat<P, O>,
    output: &mut W,
) -> ClientEnd
    requires whole { seat.old.over ≡ false }
    requires played { seat.old.pending ≡ None }
    requires open { has_end seat.old.journal.events.items ≡ false }
    requires asked { asked_in seat.old.journal.events.items ≡ amounts seat.old.client.last }
    requires few { seat.old.client.last ≤ task.now.asks }
    ensures going { gave_up result ≡ false → (seat.new.over ≡ false) × (seat.new.pending ≡ None) }
    ensures asked { gave_up result ≡ false → (asked_in seat.new.journal.events.items ≡ amounts seat.new.client.last) × (seat.new.client.last ≤ task.now.asks) }
    ensures up_to { AsksUpTo task.now.asks seat.new.journal.events.items }
    ensures done { result ≡ ClientEnd.Done → (seat.new.client.waiting ≡ None) × (seat.new.client.last ≡ task.now.asks) }
    ensures spent { result ≡ ClientEnd.Spent → (is_some seat.new.client.waiting ≡ true) × (task.now.turns ≤ min (polls_since 0 seat.new.journal.events.items + seat.new.idle) (2 ^ 64 - 1)) }
    ensures open { has_end seat.new.journal.events.items ≡ false }
    ensures heard { heard_puts seat.new.inbox.links.items ≡ heard_puts seat.old.inbox.links.items }
    ensures told { gave_up result ≡ false → IsTold (accepted (P.head 0) seat.old.journal.events.items) (accepted (P.head 0) seat.new.journal.events.items) (W.written output.old) (W.written output.new) }
    ensures told_first { IsToldFirst (accepted (P.head 0) seat.old.journal.events.items) (accepted (P.head 0) seat.new.journal.events.items) (W.written output.old) (W.written output.new) }
    // They are whole lines, unless the output has failed or wants memory.
    ensures lines { is_line_cut result ≡ false → IsToldWhole (accepted (P.head 0) seat.old.journal.events.items) (accepted (P.head 0) seat.new.journal.events.items) (W.written output.old) (W.written output.new) }
    ensures trail { result ≡ ClientEnd.GaveUp ClientFault.Trail → seat.new.journal.failed ≡ true }
    ensures failed { result ≡ ClientEnd.GaveUp ClientFault.Output → Rose (W.faults output.old) (W.faults output.new) }
    ensures want { result ≡ ClientEnd.GaveUp ClientFault.OutputMemory → Rose (W.wants output.old) (W.wants output.new) }
    ensures later { (W.faults output.old ≤ W.faults output.new) × (W.wants output.old ≤ W.wants output.new) }
{
    for _ in rt.forever() {
        if ended.load(Ordering::SeqCst) {
            return ClientEnd::Over;
        }
        if is_spent(seat, task.turns) {
            ended.store(true, Ordering::SeqCst);
            return ClientEnd::Spent;
        }
        match client_turn(rt, alloc, task.asks, seat, output) {
            Ok(ClientTurn::Done) => {
                ended.store(true, Ordering::SeqCst);
                return ClientEnd::Done;
            }
            Ok(ClientTurn::Nothing) => thread::yield_now(),
            Ok(_) => {}
            Err(fault) => {
                ended.store(true, Ordering::SeqCst);
                return ClientEnd::GaveUp(fault);
            }
        }
    }
    unreachable!()
}
