//! The seat: a core with its trail and lane, the ends of two links, and the sink of the trail.
ghost use Rattle.std.specs.Prelude.{◌≡◌, ◌≤◌, false, true};
ghost use Rattle.std.specs.Io.KnownBytes.{Appends};
ghost use Rattle.faults.specs.Counts.{Rose};
ghost use Rattle.group_links.specs.Link.{link_put, link_taken, in_link, out_link};
ghost use Rattle.trail.specs.Trails.{trail_text};
ghost use Rattle.trail_rules.specs.Replays.{arrivals};
ghost use Rattle.node_seat.specs.Seats.{payloads, IsFirst, HasWrittenFirst, whole_prop, first_prop};

use crate::place::Place;
use crate::snapshot::Snapshot;
use crate::writing::{put_on, write_part};
use group_links::inward::LinkIn;
use group_links::outward::LinkOut;
use log_lane::stored::Stored;
use log_worker::text::EntryText;
use node_core::node::Outcome;
use node_played::played::{Happened, Played, SeatEnd, Sent};
use queue_ends::told::Told;
use smart_base::sequence::Bytes;
use smart_io::stream::Sink;
use smart_service::service::Service;
use smart_statements::entry::NodeEvent;
use std::marker::PhantomData;
use std::sync::{Mutex, Wait};

/// The seat of a running node. What was put on the link of what leaves is what the trail sends, and
/// what was taken from the other is what arrived by the trail. A sink that tells its bytes has the text
/// of the trail. A seat is over once a call has failed or it was stopped. Once a call has failed, the
/// arrivals are a front of what was taken, what was put is one of what the trail sends, and the sink has
/// one of the text.
pub struct Seat<S: Service, P: Place<S>, O: Sink> {
    pub inner: Played<S, P>,
    pub(crate) from: LinkOut<Bytes>,
    pub(crate) to: LinkIn<Bytes>,
    pub(crate) sink: O,
    /// Whether nothing more happens to the node.
    pub over: bool,
    /// Whether the input is at its end.
    pub closing: bool,
    /// Whether the sink of the trail has failed.
    pub failed: bool,
    /// Whether a call has failed.
    pub(crate) cut: bool,
    pub(crate) handed: Option<Snapshot<S, P>>,
    of: PhantomData<P>,
    pub ghost whole: { over ≡ false → inner.stuck ≡ false },
    pub ghost uncut: { over ≡ false → cut ≡ false },
    pub ghost came: { IsFirst (arrivals inner.trail.items) (link_taken from) },
    pub ghost all_came: { cut ≡ false → link_taken from ≡ arrivals inner.trail.items },
    pub ghost left: { IsFirst (link_put to) (payloads inner.trail.items) },
    pub ghost all_left: { cut ≡ false → link_put to ≡ payloads inner.trail.items },
    pub ghost text: { HasWrittenFirst P.begun (O.written sink) (trail_text P.head P.entries inner.trail.items) } by { first_prop P.begun (O.written sink) (trail_text P.head P.entries inner.trail.items) },
    pub ghost all_text: { cut ≡ false → Appends P.begun (O.written sink) (trail_text P.head P.entries inner.trail.items) } by { whole_prop cut P.begun (O.written sink) (trail_text P.head P.entries inner.trail.items) },
    pub ghost named: { (out_link from ≡ P.arriving) × (in_link to ≡ P.leaving) },
    pub ghost later: { P.failures ≤ O.faults sink },
    pub ghost cause: { failed ≡ true → Rose P.failures (O.faults sink) },
}

/// What is left of a seat.
pub struct SeatParts<S: Service, P: Place<S>, O: Sink> {
    pub inner: Played<S, P>,
    pub from: LinkOut<Bytes>,
    pub to: LinkIn<Bytes>,
    pub sink: O,
    pub over: bool,
    pub failed: bool,
    /// Whether a call has failed.
    pub cut: bool,
}

/// The seat that threads share.
pub type NodeCell<S, P, O> = Mutex<Seat<S, P, O>>;

/// Let go by one call, so that no function that lets one go carries the whole of it.
impl<S: Service, P: Place<S>, O: Sink + Drop> Drop for Seat<S, P, O> {
    fn drop(self) {
        let Seat {
            inner: _,
            from: _,
            to: _,
            sink: _,
            over: _,
            closing: _,
            failed: _,
            cut: _,
            handed: _,
            of: _,
        } = self;
    }
}

impl<S: Service, P: Place<S>, O: Sink> Seat<S, P, O> {
    ghost use Rattle.std.specs.Prelude.{◌≡◌, ◌≤◌, ◌+◌, ◌++◌, ◌∷◌, [], List, ℕ, false, true, length, Some, None, IfOk, OnOk, OnErr, IsErrOf, IsTrue, MatchBool};
    ghost use Rattle.std.specs.Io.KnownBytes.{Appends};
    ghost use Rattle.faults.specs.Counts.{Rose};
    ghost use Rattle.log_lane.specs.Lane.{lane_read, lane_heard, lane_room, stored_lane, told_stored};
    ghost use Rattle.queue_ends.specs.Ends.{told_put, told_queue};
    ghost use Rattle.group_links.specs.Link.{link_put, link_taken, link_heard_put, in_link, out_link};
    ghost use Rattle.node_rules.specs.Kept.{core_step};
    ghost use Rattle.node_rules.specs.Steps.{first_leaving};
    ghost use Rattle.trail.specs.Trails.{trail_text};
    ghost use Rattle.trail.specs.declared.event.Addressed.{Addressed};
    ghost use Rattle.trail.specs.declared.event.TrailEvent.TheVariants.{Happens, Send, End};
    ghost use Rattle.trail_rules.specs.Replays.{core_steps, replay, arrivals};
    ghost use Rattle.smart_statements.specs.declared.entry.NodeEvent.TheVariants.{Arrive};
    ghost use Rattle.node_played.specs.Lives.{IsRead, has_end};
    ghost use Rattle.node_seat.specs.Seats.{IsOwn, IsFirst, HasWrittenFirst, payloads};

    /// A seat over a core at its opening, a link from which nothing was taken, one on which nothing was
    /// put, and a sink that has the head of the trail.
    pub fn new(
        inner: Played<S, P>,
        from: LinkOut<Bytes>,
        to: LinkIn<Bytes>,
        sink: O,
    ) -> Seat<S, P, O>
        requires inner { (inner.trail.items ≡ []) × (inner.stuck ≡ false) }
        requires from { (out_link from ≡ P.arriving) × (link_taken from ≡ []) }
        requires to { (in_link to ≡ P.leaving) × (link_put to ≡ []) }
        requires sink { Appends P.begun (O.written sink) (trail_text P.head P.entries []) }
        requires later { P.failures ≤ O.faults sink }
        ensures { (result.inner.trail.items ≡ []) × (result.over ≡ false) }
    {
        Seat {
            inner,
            from,
            to,
            sink,
            over: false,
            closing: false,
            failed: false,
            cut: false,
            handed: None,
            of: PhantomData,
        }
    }

    /// Whether nothing more happens to the node.
    pub fn is_over(&self) -> bool
        ensures { result ≡ self.now.over }
    {
        self.over
    }

    /// Lets nothing more happen to the node.
    pub fn stop(&mut self)
        ensures over { (self.new.over ≡ true) × (self.new.inner.trail.items ≡ self.old.inner.trail.items) }
        ensures handed { self.new.handed ≡ self.old.handed }
        ensures cut { self.new.cut ≡ self.old.cut }
    {
        self.over = true;
    }

    /// Whether an event may be played. A seat whose trail has ended is over after it.
    pub fn goes_on(&mut self) -> bool
        ensures goes { result ≡ true → (self.old.over ≡ false) × ((self.new.over ≡ false) × (has_end self.new.inner.trail.items ≡ false)) }
        ensures over { result ≡ false → self.new.over ≡ true }
        ensures only { self.old.over ≡ false → has_end self.old.inner.trail.items ≡ false → result ≡ true }
        ensures same { self.new.inner ≡ self.old.inner }
        ensures heard { link_heard_put self.new.from ≡ link_heard_put self.old.from }
        ensures handed { self.new.handed ≡ self.old.handed }
        ensures cut { self.new.cut ≡ self.old.cut }
    {
        if self.inner.has_ended() {
            self.over = true;
        }
        !self.over
    }

    /// Whether the input is at its end.
    pub fn is_closing(&self) -> bool
        ensures { result ≡ self.now.closing }
    {
        self.closing
    }

    /// Notes that the input is at its end.
    pub fn close(&mut self)
        ensures same { (self.new.over ≡ self.old.over) × (self.new.inner.trail.items ≡ self.old.inner.trail.items) }
        ensures closing { self.new.closing ≡ true }
        ensures handed { self.new.handed ≡ self.old.handed }
        ensures cut { self.new.cut ≡ self.old.cut }
    {
        self.closing = true;
    }

    /// Takes what was handed over last.
    pub fn take_handed(&mut self) -> Option<Snapshot<S, P>>
        ensures handed { result ≡ self.old.handed }
        ensures emptied { self.new.handed ≡ None }
        ensures same { (self.new.over ≡ self.old.over) × (self.new.inner.trail.items ≡ self.old.inner.trail.items) }
        ensures cut { self.new.cut ≡ self.old.cut }
    {
        self.handed.take()
    }

    /// Hands a snapshot over, in the place of what was handed before.
    pub fn hand(&mut self, snapshot: Snapshot<S, P>)
        ensures handed { self.new.handed ≡ Some snapshot }
        ensures same { (self.new.over ≡ self.old.over) × (self.new.inner.trail.items ≡ self.old.inner.trail.items) }
        ensures cut { self.new.cut ≡ self.old.cut }
    {
        self.handed = Some(snapshot);
    }

    /// Hears what was put on the link from which messages arrive.
    pub fn hear(&mut self, told: Told<Bytes>)
        requires { told_queue told ≡ P.arriving }
        ensures heard { link_heard_put self.new.from ≡ told_put told }
        ensures same { (self.new.over ≡ self.old.over) × (self.new.inner.trail.items ≡ self.old.inner.trail.items) }
        ensures handed { self.new.handed ≡ self.old.handed }
        ensures cut { self.new.cut ≡ self.old.cut }
    {
        self.from.hear(told);
    }

    /// Hears how many entries of this life were stored.
    pub fn hear_stored(&mut self, stored: Stored<EntryText>)
        requires { stored_lane stored ≡ P.lane }
        ensures stored { lane_heard self.new.inner.lane ≡ told_stored stored }
        ensures same { (self.new.over ≡ self.old.over) × (self.new.inner.trail.items ≡ self.old.inner.trail.items) }
        ensures heard { link_heard_put self.new.from ≡ link_heard_put self.old.from }
        ensures handed { self.new.handed ≡ self.old.handed }
        ensures cut { self.new.cut ≡ self.old.cut }
    {
        self.inner.hear(stored);
    }

    /// Reads how many entries of this life are firm. They are no fewer than were heard to be stored.
    pub fn look(&mut self) -> u64
        ensures read { result ≡ lane_read self.new.inner.lane }
        ensures stored { lane_heard self.old.inner.lane ≤ result }
        ensures same { (self.new.over ≡ self.old.over) × (self.new.inner.trail.items ≡ self.old.inner.trail.items) }
        ensures heard { link_heard_put self.new.from ≡ link_heard_put self.old.from }
        ensures handed { self.new.handed ≡ self.old.handed }
        ensures cut { self.new.cut ≡ self.old.cut }
    {
        self.inner.look()
    }

    /// Plays an event that is no arrival, and writes it into the trail. Errors: a failure of the trail's
    /// sink; want of memory. The seat is over then.
    pub fn event<R: Wait>(&mut self, rt: &R, event: NodeEvent) -> Result<Outcome, SeatEnd>
        requires over { self.old.over ≡ false }
        requires going { has_end self.old.inner.trail.items ≡ false }
        requires room { 8 ≤ lane_room self.old.inner.lane }
        requires own { IsOwn event }
        requires read { IsRead (lane_read self.old.inner.lane) event }
        ensures ok { OnOk result ((self.new.inner.trail.items ≡ self.old.inner.trail.items ++ Happens event ∷ []) × (self.new.over ≡ false)) }
        ensures read { lane_read self.new.inner.lane ≡ lane_read self.old.inner.lane }
        ensures fired { IfOk result (λ outcome. outcome.fired ≡ (core_step S.meaning (replay (core_steps S.meaning) P.opening self.old.inner.trail.items) event).fired) }
        ensures err { OnErr result (self.new.over ≡ true) }
        ensures cause { IsErrOf result SeatEnd.TrailFault → (self.new.failed ≡ true) × Rose (O.faults self.old.sink) (O.faults self.new.sink) }
        ensures heard { link_heard_put self.new.from ≡ link_heard_put self.old.from }
        ensures handed { self.new.handed ≡ self.old.handed }
    {
        self.over = true;
        self.cut = true;
        let Happened { outcome, text } = self.inner.event(rt, event)?;
        write_part(&mut self.sink, &mut self.failed, text.as_slice())?;
        self.over = false;
        self.cut = false;
        Ok(outcome)
    }

    /// Plays the next message that arrived, and says whether there was one. `false` only where the link had
    /// none at one moment of the call, so that all has arrived that was heard to be put. Errors: as at
    /// `event`.
    pub fn arrive<R: Wait>(&mut self, rt: &R) -> Result<bool, SeatEnd>
        requires over { self.old.over ≡ false }
        requires going { has_end self.old.inner.trail.items ≡ false }
        requires room { 8 ≤ lane_room self.old.inner.lane }
        ensures ok { IfOk result (λ came. MatchBool came ((bytes : List ℕ) × (self.new.inner.trail.items ≡ self.old.inner.trail.items ++ Happens (Arrive bytes) ∷ [])) (self.new.inner.trail.items ≡ self.old.inner.trail.items)) }
        ensures nothing { IfOk result (λ came. came ≡ false → IsFirst (link_heard_put self.old.from) (arrivals self.old.inner.trail.items)) }
        ensures heard { link_heard_put self.new.from ≡ link_heard_put self.old.from }
        ensures whole { OnOk result (self.new.over ≡ false) }
        ensures err { OnErr result (self.new.over ≡ true) }
        ensures cause { IsErrOf result SeatEnd.TrailFault → (self.new.failed ≡ true) × Rose (O.faults self.old.sink) (O.faults self.new.sink) }
        ensures handed { self.new.handed ≡ self.old.handed }
    {
        let Some(bytes) = self.from.poll(rt) else {
            return Ok(false);
        };
        self.over = true;
        self.cut = true;
        let Happened { outcome: _, text } = self.inner.event(rt, NodeEvent::Arrive(bytes))?;
        write_part(&mut self.sink, &mut self.failed, text.as_slice())?;
        self.over = false;
        self.cut = false;
        Ok(true)
    }

    /// Sends the next message that leaves, and says whether there was one. `false` if and only if nothing
    /// is held or the first message waits for its entries. Errors: as at `event`.
    pub fn send<R: Wait>(&mut self, rt: &R) -> Result<bool, SeatEnd>
        requires over { self.old.over ≡ false }
        requires going { has_end self.old.inner.trail.items ≡ false }
        ensures ok { IfOk result (λ left. MatchBool left ((a : Addressed) × (self.new.inner.trail.items ≡ self.old.inner.trail.items ++ Send a ∷ []))
            ((self.new.inner.trail.items ≡ self.old.inner.trail.items) × (first_leaving (replay (core_steps S.meaning) P.opening self.old.inner.trail.items).firm (replay (core_steps S.meaning) P.opening self.old.inner.trail.items).held ≡ None))) }
        ensures whole { OnOk result (self.new.over ≡ false) }
        ensures err { OnErr result (self.new.over ≡ true) }
        ensures cause { IsErrOf result SeatEnd.TrailFault → (self.new.failed ≡ true) × Rose (O.faults self.old.sink) (O.faults self.new.sink) }
        ensures heard { link_heard_put self.new.from ≡ link_heard_put self.old.from }
        ensures handed { self.new.handed ≡ self.old.handed }
    {
        self.over = true;
        self.cut = true;
        let Some(sent) = self.inner.send()? else {
            self.over = false;
            self.cut = false;
            return Ok(false);
        };
        let Sent { text, payload } = sent;
        write_part(&mut self.sink, &mut self.failed, text.as_slice())?;
        put_on(rt, &mut self.to, payload);
        self.over = false;
        self.cut = false;
        Ok(true)
    }

    /// Notes that the trail is whole. Errors: as at `event`.
    pub fn end(&mut self) -> Result<(), SeatEnd>
        requires over { self.old.over ≡ false }
        requires going { has_end self.old.inner.trail.items ≡ false }
        ensures ok { OnOk result ((self.new.inner.trail.items ≡ self.old.inner.trail.items ++ End ∷ []) × (self.new.over ≡ false)) }
        ensures err { OnErr result (self.new.over ≡ true) }
        ensures cause { IsErrOf result SeatEnd.TrailFault → (self.new.failed ≡ true) × Rose (O.faults self.old.sink) (O.faults self.new.sink) }
        ensures heard { link_heard_put self.new.from ≡ link_heard_put self.old.from }
        ensures handed { self.new.handed ≡ self.old.handed }
    {
        self.over = true;
        self.cut = true;
        let text = self.inner.end()?;
        write_part(&mut self.sink, &mut self.failed, text.as_slice())?;
        self.over = false;
        self.cut = false;
        Ok(())
    }

    /// What is left of a seat: its core with trail and lane, the ends of its links, and the sink of its
    /// trail.
    pub fn into_parts(self) -> SeatParts<S, P, O>
        ensures inner { (result.inner ≡ self.inner) × (result.over ≡ self.over) }
        ensures whole { result.over ≡ false → result.inner.stuck ≡ false }
        ensures from { (out_link result.from ≡ P.arriving) × IsFirst (arrivals result.inner.trail.items) (link_taken result.from) }
        ensures to { (in_link result.to ≡ P.leaving) × IsFirst (link_put result.to) (payloads result.inner.trail.items) }
        ensures text { HasWrittenFirst P.begun (O.written result.sink) (trail_text P.head P.entries result.inner.trail.items) }
        ensures all { result.cut ≡ false → (link_taken result.from ≡ arrivals result.inner.trail.items) × ((link_put result.to ≡ payloads result.inner.trail.items) × Appends P.begun (O.written result.sink) (trail_text P.head P.entries result.inner.trail.items)) }
        ensures failed { result.failed ≡ true → Rose P.failures (O.faults result.sink) }
        ensures noted { result.failed ≡ self.failed }
        ensures cut { (result.cut ≡ self.cut) × (result.over ≡ false → result.cut ≡ false) }
        ensures later { P.failures ≤ O.faults result.sink }
    {
        let Seat {
            inner,
            from,
            to,
            sink,
            over,
            closing: _,
            failed,
            cut,
            handed: _,
            of: _,
        } = self;
        SeatParts {
            inner,
            from,
            to,
            sink,
            over,
            failed,
            cut,
        }
    }
}
