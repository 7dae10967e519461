//! The seat of a client.
ghost use Rattle.std.specs.Prelude.{◌≡◌, ◌-◌, ◌^◌, [], min, false, true};
ghost use Rattle.smart_base.specs.Lists.{Each};
ghost use Rattle.client_quorum.specs.Clients.{fresh};
ghost use Rattle.group_ends.specs.Carried.{DropsLate};
ghost use Rattle.group_ends.specs.Facts.{HasCome, pending_prop, apart_prop, carries_prop, first_prop, late_prop};
ghost use Rattle.group_ends.specs.Ports.{ends, port_links, inbox_links, AreApart, Carries, CarriesFirst};
ghost use Rattle.client_seat.specs.Asks.{client_of, to_all, Asks, asks_prop, polls_since};

use client_quorum::client::{Client, Heard};
use faults::Fault;
use group_ends::inbox::Inbox;
use group_ends::journal::{Journal, JournalParts};
use group_ends::owner::Owner;
use group_ends::port::Port;
use group_ends::posting::{Parcel, post};
use group_ends::sending::tell_at;
use group_links::outward::LinkOut;
use node_rules::node::Target;
use queue_ends::told::Told;
use smart_base::bytes::Payload;
use smart_base::sequence::Bytes;
use smart_io::stream::Sink;
use smart_keys::ring::Ring;
use smart_messages::message::Message;
use smart_statements::entry::NodeEvent;
use smart_statements::signed::Signed;
use smart_statements::statement::Request;
use std::alloc::Global;
use std::sync::Wait;
use trail::event::{Addressed, TrailEvent};

/// The number of a group's client.
pub const CLIENT: u16 = 1;

/// A client with its trail and its links. The client is the one that its trail makes. The trail sends the
/// requests that the client asked, one each. What arrived by it, and a message that is not played yet, is
/// what was taken from the links. What was put on each link is what the trail sends to its end without a
/// Lost. A seat is over once a call has failed: then each link has a front of that.
pub struct ClientSeat<P: Owner, O: Sink> {
    pub(crate) alloc: Global,
    pub(crate) client: Client,
    pub(crate) ring: Ring,
    pub(crate) journal: Journal<P, O>,
    pub(crate) ports: Vec<Port>,
    pub(crate) inbox: Inbox,
    /// A message that was taken from a link and is not played yet.
    pub(crate) pending: Option<Bytes>,
    /// How many polls in a row found nothing since the last event.
    pub(crate) idle: u64,
    /// How many more the trail tells since the last message was sent.
    pub(crate) told: u64,
    /// Whether a call has failed.
    pub(crate) over: bool,
    pub ghost number: { journal.number ≡ 0 },
    pub ghost whole: { over ≡ false → journal.whole ≡ true },
    pub ghost head: { ((P.head 0).member ≡ 0) × (((P.head 0).entries ≡ 0) × (P.entries 0 ≡ [])) },
    pub ghost group: { ring ≡ (P.head 0).secret },
    pub ghost kept: { over ≡ false → client ≡ client_of (P.head 0).secret (fresh (P.head 0).view 1) journal.events.items },
    pub ghost asks: { Asks (P.head 0).secret (fresh (P.head 0).view 1) journal.events.items } by { asks_prop (P.head 0).secret (fresh (P.head 0).view 1) journal.events.items },
    pub ghost came: { HasCome journal.events.items pending inbox.links.items } by { pending_prop journal.events.items pending inbox.links.items },
    pub ghost left: { Each (CarriesFirst journal.events.items) ports.items } by { first_prop journal.events.items ports.items },
    pub ghost all_left: { over ≡ false → Each (Carries journal.events.items) ports.items } by { carries_prop over journal.events.items ports.items },
    pub ghost late: { DropsLate (ends ports.items) [] journal.events.items } by { late_prop (ends ports.items) [] journal.events.items },
    pub ghost apart: { AreApart (ends ports.items) } by { apart_prop (ends ports.items) },
    pub ghost named: { (ends ports.items ≡ P.receivers 0) × (port_links ports.items ≡ P.leaving 0) × (inbox_links inbox.links.items ≡ P.arriving 0) },
    pub ghost polled: { told ≡ min (polls_since 0 journal.events.items) (2 ^ 64 - 1) },
}

/// What is left of a seat.
pub struct ClientParts<O: Sink> {
    pub client: Client,
    pub journal: JournalParts<O>,
    pub ports: Vec<Port>,
    pub links: Vec<LinkOut<Bytes>>,
    /// A message that was taken from a link and was not played.
    pub pending: Option<Bytes>,
    pub over: bool,
}

/// Let go by one call, so that no function that lets one go carries the whole of it.
impl<P: Owner, O: Sink + Drop> Drop for ClientSeat<P, O> {
    fn drop(self) {
        let ClientSeat {
            alloc: _,
            client: _,
            ring: _,
            journal: _,
            ports: _,
            inbox: _,
            pending: _,
            idle: _,
            told: _,
            over: _,
        } = self;
    }
}

/// A request, to all members.
fn ask_of(request: Signed<Request>) -> Addressed
    ensures { result ≡ to_all request }
{
    Addressed {
        to: Target::View,
        message: Message::Ask(request),
    }
}

impl<P: Owner, O: Sink> ClientSeat<P, O> {
    ghost use Rattle.std.specs.Prelude.{◌≡◌, ◌≤◌, ◌<◌, ◌+◌, ◌-◌, ◌^◌, ◌++◌, ◌∷◌, ◌⊎◌, [], ℕ, List, length, get_or, slice_set, min, false, true, None, Some, is_some, if◌then◌else◌, IfOk, OnOk, OnErr, IsErrOf, MatchOption};
    ghost use Rattle.std.specs.Io.KnownBytes.{Appends};
    ghost use Rattle.faults.specs.Counts.{Rose};
    ghost use Rattle.smart_base.specs.Lists.{Each};
    ghost use Rattle.smart_statements.specs.declared.entry.NodeEvent.TheVariants.{Arrive};
    ghost use Rattle.client_quorum.specs.Clients.{fresh, request_of, asking};
    ghost use Rattle.client_quorum.specs.Readings.{heard_bytes};
    ghost use Rattle.trail.specs.Trails.{trail_text};
    ghost use Rattle.trail.specs.declared.event.TrailEvent.TheVariants.{Happens, End};
    ghost use Rattle.queue_ends.specs.Ends.{told_put, told_queue};
    ghost use Rattle.queue_ends.specs.Rule.{IsFront};
    ghost use Rattle.group_ends.specs.Carried.{DropsLate};
    ghost use Rattle.group_ends.specs.Facts.{HasCome};
    ghost use Rattle.group_ends.specs.Journals.{HasFront, has_end, IsEndLast};
    ghost use Rattle.group_ends.specs.Ports.{ends, port_links, inbox_links, takings, heard_puts, heard_and_taken, AreApart, Carries, CarriesFirst, IsPosted, IsEmptied};
    ghost use Rattle.client_seat.specs.Asks.{carried_at, client_of, ask_by, Asks, polls_since, told_polls};

    /// A client that has not asked and knows the group's first view, over the client's journal of nothing, links
    /// on which nothing was put, and links from which nothing was taken. The head of its trail is a client's: it
    /// has number 0, and nothing was restored.
    pub fn new(
        alloc: Global,
        ring: Ring,
        client: Client,
        journal: Journal<P, O>,
        ports: Vec<Port>,
        inbox: Inbox,
    ) -> ClientSeat<P, O>
        requires head { ((P.head 0).member ≡ 0) × (((P.head 0).entries ≡ 0) × (P.entries 0 ≡ [])) }
        requires group { (ring ≡ (P.head 0).secret) × (client ≡ fresh (P.head 0).view 1) }
        requires journal { (journal.number ≡ 0) × (journal.events.items ≡ []) × (journal.whole ≡ true) }
        requires ports { AreApart (ends ports.items) × Each (Carries []) ports.items }
        requires inbox { Each (λ taken. taken ≡ []) (takings inbox.links.items) }
        requires named { (ends ports.items ≡ P.receivers 0) × (port_links ports.items ≡ P.leaving 0) × (inbox_links inbox.links.items ≡ P.arriving 0) }
        ensures events { (result.journal ≡ journal) × (result.over ≡ false) }
        ensures client { (result.client ≡ client) × (result.pending ≡ None) × (result.idle ≡ 0) }
    {
        ClientSeat {
            alloc,
            client,
            ring,
            journal,
            ports,
            inbox,
            pending: None,
            idle: 0,
            told: 0,
            over: false,
        }
    }

    /// Whether a call has failed.
    pub fn is_over(&self) -> bool
        ensures { result ≡ self.now.over }
    {
        self.over
    }

    /// Whether an event may be played: no call has failed, and the trail has not ended.
    pub fn goes_on(&self) -> bool
        ensures goes { result ≡ true → (self.now.over ≡ false) × (has_end self.now.journal.events.items ≡ false) }
        ensures only { self.now.over ≡ false → has_end self.now.journal.events.items ≡ false → result ≡ true }
    {
        !self.over && !self.journal.has_ended()
    }

    /// Whether a request waits for its reply.
    pub fn waits(&self) -> bool
        ensures { result ≡ is_some self.now.client.waiting }
    {
        self.client.waiting().is_some()
    }

    /// The number of the last request; 0 if the client has not asked.
    pub fn asked(&self) -> u64
        ensures { result ≡ self.now.client.last }
    {
        self.client.last()
    }

    /// How many polls found nothing since the last message was sent, at most 2^64 - 1: those that the trail
    /// tells, and those that it does not tell yet.
    pub fn polls(&self) -> u64
        ensures { result ≡ min (polls_since 0 self.now.journal.events.items + self.now.idle) (2 ^ 64 - 1) }
    {
        self.told.saturating_add(self.idle)
    }

    /// Hears what was put on the link at an index, of those that are polled.
    pub fn hear(&mut self, index: usize, told: Told<Bytes>)
        requires within { index < length (P.arriving 0) }
        requires link { told_queue told ≡ get_or (P.arriving 0) index (told_queue told) }
        ensures heard { heard_puts self.new.inbox.links.items ≡ slice_set (heard_puts self.old.inbox.links.items) index (told_put told) }
        ensures taken { takings self.new.inbox.links.items ≡ takings self.old.inbox.links.items }
        ensures same { (self.new.journal ≡ self.old.journal) × ((self.new.over ≡ self.old.over) × (self.new.client ≡ self.old.client)) }
        ensures polled { (self.new.pending ≡ self.old.pending) × (self.new.idle ≡ self.old.idle) }
    {
        self.inbox.hear(index, told);
    }

    /// Tells what was put so far on the link at an index, of those on which the client sends: what the trail
    /// sends to its end without a Lost. Once a call has failed it may be a front of that.
    pub fn tell(&mut self, index: usize) -> Told<Bytes>
        requires within { index < length (P.receivers 0) }
        ensures link { told_queue result ≡ get_or (P.leaving 0) index (told_queue result) }
        ensures told { self.old.over ≡ false → told_put result ≡ carried_at (P.receivers 0) index self.old.journal.events.items }
        ensures first { IsFront (told_put result) (carried_at (P.receivers 0) index self.old.journal.events.items) }
        ensures heard { self.new.inbox ≡ self.old.inbox }
        ensures same { (self.new.journal ≡ self.old.journal) × ((self.new.over ≡ self.old.over) × (self.new.client ≡ self.old.client)) }
        ensures polled { (self.new.pending ≡ self.old.pending) × (self.new.idle ≡ self.old.idle) }
    {
        tell_at(&mut self.ports, index)
    }

    /// Polls links in turn until one has a message, and says whether one has. It is to be played next.
    /// `false`: each was empty at a moment of its own, so that all was taken that was heard to be put on it.
    /// The poll is counted.
    pub fn poll<R: Wait>(&mut self, rt: &R) -> bool
        requires whole { self.old.over ≡ false }
        requires played { self.old.pending ≡ None }
        ensures same { (self.new.journal.events.items ≡ self.old.journal.events.items) × (self.new.over ≡ false) × (self.new.client ≡ self.old.client) }
        ensures found { result ≡ is_some self.new.pending }
        ensures empty { result ≡ false → Each IsEmptied (heard_and_taken self.old.inbox.links.items) }
        ensures heard { heard_puts self.new.inbox.links.items ≡ heard_puts self.old.inbox.links.items }
        ensures idle { self.new.idle ≡ (if result then self.old.idle else min (self.old.idle + 1) (2 ^ 64 - 1)) }
    {
        match self.inbox.take(rt) {
            Some(bytes) => {
                self.pending = Some(bytes);
                true
            }
            None => {
                self.idle = self.idle.saturating_add(1);
                false
            }
        }
    }

    /// Notes the polls in a row that found nothing, if there were any. Errors: a failure of the trail's
    /// sink; want of memory. The seat is over then.
    pub fn tell_polls(&mut self) -> Result<(), Fault>
        requires whole { self.old.over ≡ false }
        requires going { has_end self.old.journal.events.items ≡ false }
        ensures events { self.new.journal.events.items ≡ self.old.journal.events.items ++ told_polls self.old.idle }
        ensures ok { OnOk result (self.new.over ≡ false) }
        ensures going { has_end self.new.journal.events.items ≡ false }
        ensures same { (self.new.client ≡ self.old.client) × ((self.new.pending ≡ self.old.pending) × (self.new.idle ≡ 0)) }
        ensures err { OnErr result (self.new.over ≡ true) }
        ensures heard { self.new.inbox ≡ self.old.inbox }
        ensures cause { IsErrOf result Fault.Failed → (self.new.journal.failed ≡ true) × Rose (O.faults self.old.journal.sink) (O.faults self.new.journal.sink) }
    {
        if self.idle == 0 {
            return Ok(());
        }
        let count = self.idle;
        self.over = true;
        self.told = self.told.saturating_add(count);
        self.idle = 0;
        self.journal.note(TrailEvent::Polls(count))?;
        self.over = false;
        Ok(())
    }

    /// Plays the message that was taken from a link, and says what the client made of it. `None`: there is
    /// none. Errors: as at `tell_polls`. The message has arrived by the trail then, or nothing has happened.
    pub fn play(&mut self) -> Result<Option<Heard>, Fault>
        requires whole { self.old.over ≡ false }
        requires told { self.old.idle ≡ 0 }
        requires going { has_end self.old.journal.events.items ≡ false }
        ensures ok { IfOk result (λ found. MatchOption found
            ((self.old.pending ≡ None) × (self.new.journal.events.items ≡ self.old.journal.events.items))
            (λ heard. (bytes : List ℕ) × (self.old.pending ≡ Some bytes) × (heard ≡ heard_bytes (P.head 0).secret self.old.client bytes) × (self.new.journal.events.items ≡ self.old.journal.events.items ++ Happens (Arrive bytes) ∷ []))) }
        ensures played { OnOk result ((self.new.pending ≡ None) × (self.new.over ≡ false)) }
        ensures idle { self.new.idle ≡ 0 }
        ensures going { has_end self.new.journal.events.items ≡ false }
        ensures over { OnErr result (self.new.over ≡ true) }
        ensures err { OnErr result ((self.new.journal.events.items ≡ self.old.journal.events.items) ⊎ ((bytes : List ℕ) × (self.old.pending ≡ Some bytes) × (self.new.journal.events.items ≡ self.old.journal.events.items ++ Happens (Arrive bytes) ∷ []))) }
        ensures heard { self.new.inbox ≡ self.old.inbox }
        ensures cause { IsErrOf result Fault.Failed → (self.new.journal.failed ≡ true) × Rose (O.faults self.old.journal.sink) (O.faults self.new.journal.sink) }
    {
        let Some(bytes) = self.pending.take() else {
            return Ok(None);
        };
        self.over = true;
        let Ok(heard) = self.client.hear(self.alloc, &self.ring, bytes.as_slice()) else {
            self.pending = Some(bytes);
            return Err(Fault::NoMemory);
        };
        let arrived = TrailEvent::Happens(NodeEvent::Arrive(bytes));
        self.journal.note(arrived)?;
        self.over = false;
        Ok(Some(heard))
    }

    /// Asks for an operation: the client's next request leaves for all members. Errors: as at
    /// `tell_polls`.
    pub fn ask<R: Wait>(&mut self, rt: &R, op: &Payload) -> Result<(), Fault>
        requires whole { self.old.over ≡ false }
        requires waits { self.old.client.waiting ≡ None }
        requires told { self.old.idle ≡ 0 }
        requires going { has_end self.old.journal.events.items ≡ false }
        requires few { self.old.client.last + 1 < 2 ^ 63 }
        ensures ok { OnOk result (IsPosted (ask_by (P.head 0).secret self.old.client op.now) (P.receivers 0) self.old.journal.events.items self.new.journal.events.items) }
        ensures client { OnOk result (self.new.client ≡ asking self.old.client (request_of self.old.client op.now)) }
        ensures whole { OnOk result (self.new.over ≡ false) }
        ensures same { (self.new.pending ≡ self.old.pending) × (self.new.idle ≡ 0) }
        ensures going { has_end self.new.journal.events.items ≡ false }
        ensures err { OnErr result ((self.new.over ≡ true) × ((self.new.journal.events.items ≡ self.old.journal.events.items) ⊎ IsPosted (ask_by (P.head 0).secret self.old.client op.now) (P.receivers 0) self.old.journal.events.items self.new.journal.events.items)) }
        ensures heard { self.new.inbox ≡ self.old.inbox }
        ensures cause { IsErrOf result Fault.Failed → (self.new.journal.failed ≡ true) × Rose (O.faults self.old.journal.sink) (O.faults self.new.journal.sink) }
    {
        self.over = true;
        let Ok(request) = self.client.ask(self.alloc, &self.ring, op) else {
            return Err(Fault::NoMemory);
        };
        let Ok(parcel) = Parcel::of(self.alloc, ask_of(request)) else {
            return Err(Fault::NoMemory);
        };
        self.told = 0;
        post(rt, self.alloc, &mut self.journal, &mut self.ports, parcel)?;
        self.over = false;
        Ok(())
    }

    /// Notes that the trail is whole. No event is played behind it. Errors: as at `tell_polls`.
    pub fn end(&mut self) -> Result<(), Fault>
        requires whole { self.old.over ≡ false }
        requires told { self.old.idle ≡ 0 }
        requires going { has_end self.old.journal.events.items ≡ false }
        ensures events { self.new.journal.events.items ≡ self.old.journal.events.items ++ End ∷ [] }
        ensures same { (self.new.client ≡ self.old.client) × (self.new.pending ≡ self.old.pending) × (self.new.idle ≡ 0) }
        ensures ok { OnOk result (self.new.over ≡ false) }
        ensures err { OnErr result (self.new.over ≡ true) }
        ensures heard { self.new.inbox ≡ self.old.inbox }
        ensures cause { IsErrOf result Fault.Failed → (self.new.journal.failed ≡ true) × Rose (O.faults self.old.journal.sink) (O.faults self.new.journal.sink) }
    {
        self.over = true;
        self.journal.note(TrailEvent::End)?;
        self.over = false;
        Ok(())
    }

    /// What is left of the seat: all its facts on its trail.
    pub fn into_parts(self) -> ClientParts<O>
        ensures events { (result.journal.events ≡ self.journal.events) × (result.journal.number ≡ 0) }
        ensures over { (result.over ≡ self.over) × (result.client ≡ self.client) × (result.pending ≡ self.pending) }
        ensures client { result.over ≡ false → result.client ≡ client_of (P.head 0).secret (fresh (P.head 0).view 1) result.journal.events.items }
        ensures asks { Asks (P.head 0).secret (fresh (P.head 0).view 1) result.journal.events.items }
        ensures came { HasCome result.journal.events.items result.pending result.links.items }
        ensures left { Each (CarriesFirst result.journal.events.items) result.ports.items }
        ensures all_left { result.over ≡ false → Each (Carries result.journal.events.items) result.ports.items }
        ensures late { DropsLate (ends result.ports.items) [] result.journal.events.items }
        ensures named { (ends result.ports.items ≡ P.receivers 0) × (port_links result.ports.items ≡ P.leaving 0) × (inbox_links result.links.items ≡ P.arriving 0) }
        ensures text { HasFront (P.begun 0) (O.written result.journal.sink) (trail_text (P.head 0) (P.entries 0) result.journal.events.items) }
        ensures all_text { result.over ≡ false → Appends (P.begun 0) (O.written result.journal.sink) (trail_text (P.head 0) (P.entries 0) result.journal.events.items) }
        ensures cause { result.journal.failed ≡ true → Rose (P.failures 0) (O.faults result.journal.sink) }
        ensures later { P.failures 0 ≤ O.faults result.journal.sink }
        ensures end_last { IsEndLast result.journal.events.items }
        ensures head { ((P.head 0).member ≡ 0) × (((P.head 0).entries ≡ 0) × (P.entries 0 ≡ [])) }
    {
        let ClientSeat {
            alloc: _,
            client,
            ring: _,
            journal,
            ports,
            inbox,
            pending,
            idle: _,
            told: _,
            over,
        } = self;
        ClientParts {
            client,
            journal: journal.into_parts(),
            ports,
            links: inbox.into_links(),
            pending,
            over,
        }
    }
}
