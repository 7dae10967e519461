//! The seat of a member in a group: its core with the trail of all that happened to it, and its links.
ghost use Rattle.std.specs.Prelude.{◌≡◌, ◌≤◌, [], ℕ, List, None, false, true, IfSome};
ghost use Rattle.std.proofs.Props.{props};
ghost use Rattle.smart_base.specs.Lists.{Each};
ghost use Rattle.trail_rules.specs.Replays.{arrivals};
ghost use Rattle.group_ends.specs.Carried.{DropsLate, times};
ghost use Rattle.group_ends.specs.Facts.{HasCome, HasComeAtMost, come_prop, most_prop, apart_prop, carries_prop, first_prop, late_prop};
ghost use Rattle.group_ends.specs.Ports.{ends, port_links, inbox_links, AreApart, Carries, CarriesFirst};

use crate::snapshot::Snapshot;
use faults::Fault;
use group_ends::inbox::Inbox;
use group_ends::port::Port;
use group_ends::sending::tell_at;
use group_links::outward::LinkOut;
use log_lane::stored::Stored;
use log_worker::text::EntryText;
use node_core::node::Outcome;
use node_course::course::{Course, CourseParts};
use node_course::group_life::GroupLife;
use queue_ends::told::Told;
use smart_base::sequence::Bytes;
use smart_io::stream::Sink;
use smart_service::service::Service;
use smart_statements::entry::NodeEvent;
use std::sync::{Mutex, Wait};

/// The seat of a member in a group. What arrived by the trail is what was taken from the links. What was
/// put on each link is what the trail sends to its end without a Lost. A link drops a message only if it
/// has carried 1,024. A seat is over once a call has failed or it was stopped. Once a call has failed, no
/// more arrived than was taken, and each link has a front of what the trail sends.
/// A snapshot that is handed over is one of its member.
pub struct GroupSeat<S: Service, P: GroupLife<S>, O: Sink> {
    pub inner: Course<S, P, O>,
    pub(crate) ports: Vec<Port>,
    pub(crate) inbox: Inbox,
    /// Whether nothing more happens to the member.
    pub over: bool,
    /// Whether a call has failed.
    pub(crate) cut: bool,
    pub(crate) handed: Option<Snapshot<S, P>>,
    pub ghost uncut: { over ≡ false → cut ≡ false },
    pub ghost whole: { cut ≡ false → (inner.stuck ≡ false) × (inner.journal.whole ≡ true) },
    pub ghost came: { HasComeAtMost inner.journal.events.items inbox.links.items } by { most_prop inner.journal.events.items inbox.links.items },
    pub ghost all_came: { cut ≡ false → HasCome inner.journal.events.items None inbox.links.items } by { come_prop cut inner.journal.events.items None inbox.links.items },
    pub ghost left: { Each (CarriesFirst inner.journal.events.items) ports.items } by { first_prop inner.journal.events.items ports.items },
    pub ghost all_left: { cut ≡ false → Each (Carries inner.journal.events.items) ports.items } by { carries_prop cut inner.journal.events.items ports.items },
    pub ghost late: { DropsLate (ends ports.items) [] inner.journal.events.items } by { late_prop (ends ports.items) [] inner.journal.events.items },
    pub ghost apart: { AreApart (ends ports.items) } by { apart_prop (ends ports.items) },
    pub ghost named: { (ends ports.items ≡ P.receivers inner.journal.number) × ((port_links ports.items ≡ P.leaving inner.journal.number) × (inbox_links inbox.links.items ≡ P.arriving inner.journal.number)) },
    pub ghost own: { IfSome handed (λ s. s.number ≡ inner.journal.number) } by { Prim.hlevel props },
}

/// What is left of a seat.
pub struct GroupSeatParts<S: Service, O: Sink> {
    pub course: CourseParts<S, O>,
    pub ports: Vec<Port>,
    pub links: Vec<LinkOut<Bytes>>,
    pub over: bool,
    /// Whether a call has failed.
    pub cut: bool,
}

/// The seat that threads share.
pub type GroupCell<S, P, O> = Mutex<GroupSeat<S, P, O>>;

/// Let go by one call, so that no function that lets one go carries the whole of it.
impl<S: Service, P: GroupLife<S>, O: Sink + Drop> Drop for GroupSeat<S, P, O> {
    fn drop(self) {
        let GroupSeat {
            inner: _,
            ports: _,
            inbox: _,
            over: _,
            cut: _,
            handed: _,
        } = self;
    }
}

impl<S: Service, P: GroupLife<S>, O: Sink> GroupSeat<S, P, O> {
    ghost use Rattle.std.specs.Prelude.{◌≡◌, ◌≤◌, ◌<◌, ◌+◌, ◌++◌, ◌∷◌, [], List, ℕ, false, true, length, get_or, slice_set, None, Some, IfOk, IfSome, OnOk, OnErr, IsErrOf, MatchBool};
    ghost use Rattle.std.specs.Io.KnownBytes.{Appends};
    ghost use Rattle.faults.specs.Counts.{Rose};
    ghost use Rattle.smart_base.specs.Lists.{Each};
    ghost use Rattle.log_lane.specs.Lane.{lane_put, lane_read, lane_heard, lane_room, in_lane, stored_lane, told_stored};
    ghost use Rattle.node_rules.specs.Kept.{core_step};
    ghost use Rattle.node_rules.specs.Steps.{first_leaving};
    ghost use Rattle.smart_statements.specs.declared.entry.NodeEvent.TheVariants.{Arrive};
    ghost use Rattle.trail.specs.Trails.{trail_text};
    ghost use Rattle.trail.specs.declared.event.Addressed.{Addressed};
    ghost use Rattle.trail.specs.declared.event.TrailEvent.TheVariants.{Happens, End};
    ghost use Rattle.trail_rules.specs.Replays.{core_steps, replay, needed, Released};
    ghost use Rattle.queue_ends.specs.Ends.{told_put, told_queue};
    ghost use Rattle.queue_ends.specs.Rule.{IsFront};
    ghost use Rattle.node_rules.specs.declared.node.Target.TheVariants.{View};
    ghost use Rattle.group_ends.specs.Carried.{carried, DropsLate};
    ghost use Rattle.group_ends.specs.Facts.{HasCome, HasComeAtMost};
    ghost use Rattle.group_ends.specs.Journals.{HasFront, has_end, IsEndLast};
    ghost use Rattle.group_ends.specs.Ports.{ends, port_links, inbox_links, takings, heard_puts, heard_and_taken, IsEmptied, AreApart, Carries, CarriesFirst, IsPosted};
    ghost use Rattle.node_played.specs.Lives.{made_texts, IsRead};
    ghost use Rattle.node_seat.specs.Seats.{IsOwn};

    /// A seat over a core at its opening, links on which nothing was put, and links from which nothing was
    /// taken.
    pub fn new(inner: Course<S, P, O>, ports: Vec<Port>, inbox: Inbox) -> GroupSeat<S, P, O>
        requires inner { (inner.journal.events.items ≡ []) × ((inner.stuck ≡ false) × (inner.journal.whole ≡ true)) }
        requires ports { AreApart (ends ports.items) × Each (Carries []) ports.items }
        requires inbox { Each (λ taken. taken ≡ []) (takings inbox.links.items) }
        requires named { (ends ports.items ≡ P.receivers inner.journal.number) × ((port_links ports.items ≡ P.leaving inner.journal.number) × (inbox_links inbox.links.items ≡ P.arriving inner.journal.number)) }
        ensures parts { (result.inner ≡ inner) × ((result.ports ≡ ports) × (result.inbox ≡ inbox)) }
        ensures going { (result.over ≡ false) × (result.handed ≡ None) }
    {
        GroupSeat {
            inner,
            ports,
            inbox,
            over: false,
            cut: false,
            handed: None,
        }
    }

    /// The number of the member.
    pub fn number(&self) -> u16
        ensures { result ≡ self.now.inner.journal.number }
    {
        self.inner.number()
    }

    /// Whether nothing more happens to the member.
    pub fn is_over(&self) -> bool
        ensures { result ≡ self.now.over }
    {
        self.over
    }

    /// Lets nothing more happen to the member.
    pub fn stop(&mut self)
        ensures over { self.new.over ≡ true }
        ensures same { self.new.inner ≡ self.old.inner }
        ensures heard { heard_puts self.new.inbox.links.items ≡ heard_puts self.old.inbox.links.items }
        ensures handed { self.new.handed ≡ self.old.handed }
        ensures cut { self.new.cut ≡ self.old.cut }
    {
        self.over = true;
    }

    /// Whether an event may be played. A seat whose trail has ended is over after it.
    pub fn goes_on(&mut self) -> bool
        ensures goes { result ≡ true → (self.old.over ≡ false) × ((self.new.over ≡ false) × (has_end self.new.inner.journal.events.items ≡ false)) }
        ensures over { result ≡ false → self.new.over ≡ true }
        ensures only { self.old.over ≡ false → has_end self.old.inner.journal.events.items ≡ false → result ≡ true }
        ensures same { self.new.inner ≡ self.old.inner }
        ensures heard { heard_puts self.new.inbox.links.items ≡ heard_puts self.old.inbox.links.items }
        ensures inbox { self.new.inbox ≡ self.old.inbox }
        ensures handed { self.new.handed ≡ self.old.handed }
        ensures cut { self.new.cut ≡ self.old.cut }
    {
        if self.inner.has_ended() {
            self.over = true;
        }
        !self.over
    }

    /// Takes what was handed over last. It is a snapshot of this member.
    pub fn take_handed(&mut self) -> Option<Snapshot<S, P>>
        ensures handed { result ≡ self.old.handed }
        ensures own { IfSome result (λ s. s.number ≡ self.old.inner.journal.number) }
        ensures emptied { self.new.handed ≡ None }
        ensures same { (self.new.over ≡ self.old.over) × (self.new.inner ≡ self.old.inner) }
        ensures heard { heard_puts self.new.inbox.links.items ≡ heard_puts self.old.inbox.links.items }
        ensures cut { self.new.cut ≡ self.old.cut }
    {
        self.handed.take()
    }

    /// Hands a snapshot of this member over, in the place of what was handed before.
    pub fn hand(&mut self, snapshot: Snapshot<S, P>)
        requires own { snapshot.number ≡ self.old.inner.journal.number }
        ensures handed { self.new.handed ≡ Some snapshot }
        ensures same { (self.new.over ≡ self.old.over) × (self.new.inner ≡ self.old.inner) }
        ensures heard { heard_puts self.new.inbox.links.items ≡ heard_puts self.old.inbox.links.items }
        ensures cut { self.new.cut ≡ self.old.cut }
    {
        self.handed = Some(snapshot);
    }

    /// Hears what was put on the link at an index, of those that are polled.
    pub fn hear(&mut self, index: usize, told: Told<Bytes>)
        requires within { index < length (P.arriving self.old.inner.journal.number) }
        requires link { told_queue told ≡ get_or (P.arriving self.old.inner.journal.number) index (told_queue told) }
        ensures heard { heard_puts self.new.inbox.links.items ≡ slice_set (heard_puts self.old.inbox.links.items) index (told_put told) }
        ensures taken { takings self.new.inbox.links.items ≡ takings self.old.inbox.links.items }
        ensures same { (self.new.over ≡ self.old.over) × (self.new.inner ≡ self.old.inner) }
        ensures handed { self.new.handed ≡ self.old.handed }
        ensures cut { self.new.cut ≡ self.old.cut }
    {
        self.inbox.hear(index, told);
    }

    /// Tells what was put so far on the link at an index, of those on which the member sends: what the trail
    /// sends to its end without a Lost. Once a call has failed it may be a front of that.
    pub fn tell(&mut self, index: usize) -> Told<Bytes>
        requires { index < length (P.receivers self.old.inner.journal.number) }
        ensures link { told_queue result ≡ get_or (P.leaving self.old.inner.journal.number) index (told_queue result) }
        ensures told { self.old.cut ≡ false → told_put result ≡ carried (get_or (P.receivers self.old.inner.journal.number) index View) self.old.inner.journal.events.items }
        ensures first { IsFront (told_put result) (carried (get_or (P.receivers self.old.inner.journal.number) index View) self.old.inner.journal.events.items) }
        ensures same { (self.new.over ≡ self.old.over) × (self.new.inner ≡ self.old.inner) }
        ensures heard { heard_puts self.new.inbox.links.items ≡ heard_puts self.old.inbox.links.items }
        ensures handed { self.new.handed ≡ self.old.handed }
        ensures cut { self.new.cut ≡ self.old.cut }
    {
        tell_at(&mut self.ports, index)
    }

    /// Hears how many entries of this life were stored.
    pub fn hear_stored(&mut self, stored: Stored<EntryText>)
        requires { stored_lane stored ≡ P.lane self.old.inner.journal.number }
        ensures stored { lane_heard self.new.inner.lane ≡ told_stored stored }
        ensures same { (self.new.over ≡ self.old.over) × (self.new.inner.journal ≡ self.old.inner.journal) }
        ensures heard { heard_puts self.new.inbox.links.items ≡ heard_puts self.old.inbox.links.items }
        ensures handed { self.new.handed ≡ self.old.handed }
        ensures cut { self.new.cut ≡ self.old.cut }
    {
        self.inner.hear(stored);
    }

    /// Reads how many entries of this life are firm. They are no fewer than were heard to be stored.
    pub fn look(&mut self) -> u64
        ensures read { result ≡ lane_read self.new.inner.lane }
        ensures stored { lane_heard self.old.inner.lane ≤ result }
        ensures same { (self.new.over ≡ self.old.over) × (self.new.inner.journal ≡ self.old.inner.journal) }
        ensures heard { heard_puts self.new.inbox.links.items ≡ heard_puts self.old.inbox.links.items }
        ensures inbox { self.new.inbox ≡ self.old.inbox }
        ensures handed { self.new.handed ≡ self.old.handed }
        ensures cut { self.new.cut ≡ self.old.cut }
    {
        self.inner.look()
    }

    /// Plays an event that is no arrival, and notes it in the trail. Errors: a failure of the trail's sink;
    /// want of memory. The seat is over then.
    pub fn event<R: Wait>(&mut self, rt: &R, event: NodeEvent) -> Result<Outcome, Fault>
        requires over { self.old.over ≡ false }
        requires going { has_end self.old.inner.journal.events.items ≡ false }
        requires room { 8 ≤ lane_room self.old.inner.lane }
        requires own { IsOwn event }
        requires read { IsRead (lane_read self.old.inner.lane) event }
        ensures ok { OnOk result ((self.new.inner.journal.events.items ≡ self.old.inner.journal.events.items ++ Happens event ∷ []) × (self.new.over ≡ false)) }
        ensures read { lane_read self.new.inner.lane ≡ lane_read self.old.inner.lane }
        ensures fired { IfOk result (λ outcome. outcome.fired ≡ (core_step S.meaning (replay (core_steps S.meaning) (P.opening self.old.inner.journal.number) self.old.inner.journal.events.items) event).fired) }
        ensures err { OnErr result (self.new.over ≡ true) }
        ensures cause { IsErrOf result Fault.Failed → (self.new.inner.journal.failed ≡ true) × Rose (O.faults self.old.inner.journal.sink) (O.faults self.new.inner.journal.sink) }
        ensures number { self.new.inner.journal.number ≡ self.old.inner.journal.number }
        ensures heard { heard_puts self.new.inbox.links.items ≡ heard_puts self.old.inbox.links.items }
        ensures handed { self.new.handed ≡ self.old.handed }
    {
        self.over = true;
        self.cut = true;
        let outcome = self.inner.event(rt, event)?;
        self.cut = false;
        self.over = false;
        Ok(outcome)
    }

    /// Plays a message that one of the links has, in turn, and says whether there was one. `false` only where
    /// each link was empty at a moment of its own. Errors: as at `event`.
    pub fn arrive<R: Wait>(&mut self, rt: &R) -> Result<bool, Fault>
        requires over { self.old.over ≡ false }
        requires going { has_end self.old.inner.journal.events.items ≡ false }
        requires room { 8 ≤ lane_room self.old.inner.lane }
        ensures ok { IfOk result (λ came. MatchBool came ((bytes : List ℕ) × (self.new.inner.journal.events.items ≡ self.old.inner.journal.events.items ++ Happens (Arrive bytes) ∷ [])) (self.new.inner.journal.events.items ≡ self.old.inner.journal.events.items)) }
        ensures nothing { IfOk result (λ came. came ≡ false → Each IsEmptied (heard_and_taken self.old.inbox.links.items)) }
        ensures whole { OnOk result (self.new.over ≡ false) }
        ensures err { OnErr result (self.new.over ≡ true) }
        ensures cause { IsErrOf result Fault.Failed → (self.new.inner.journal.failed ≡ true) × Rose (O.faults self.old.inner.journal.sink) (O.faults self.new.inner.journal.sink) }
        ensures number { self.new.inner.journal.number ≡ self.old.inner.journal.number }
        ensures heard { heard_puts self.new.inbox.links.items ≡ heard_puts self.old.inbox.links.items }
        ensures handed { self.new.handed ≡ self.old.handed }
    {
        let Some(bytes) = self.inbox.take(rt) else {
            return Ok(false);
        };
        self.over = true;
        self.cut = true;
        self.inner.event(rt, NodeEvent::Arrive(bytes))?;
        self.cut = false;
        self.over = false;
        Ok(true)
    }

    /// Sends the next message that leaves, and says whether there was one. `false` if and only if nothing
    /// is held or the first message waits for its entries. Errors: as at `event`.
    pub fn send<R: Wait>(&mut self, rt: &R) -> Result<bool, Fault>
        requires over { self.old.over ≡ false }
        requires going { has_end self.old.inner.journal.events.items ≡ false }
        ensures ok { IfOk result (λ left. MatchBool left ((a : Addressed) × IsPosted a (ends self.old.ports.items) self.old.inner.journal.events.items self.new.inner.journal.events.items)
            ((self.new.inner.journal.events.items ≡ self.old.inner.journal.events.items) × (first_leaving (replay (core_steps S.meaning) (P.opening self.old.inner.journal.number) self.old.inner.journal.events.items).firm (replay (core_steps S.meaning) (P.opening self.old.inner.journal.number) self.old.inner.journal.events.items).held ≡ None))) }
        ensures whole { OnOk result (self.new.over ≡ false) }
        ensures err { OnErr result (self.new.over ≡ true) }
        ensures cause { IsErrOf result Fault.Failed → (self.new.inner.journal.failed ≡ true) × Rose (O.faults self.old.inner.journal.sink) (O.faults self.new.inner.journal.sink) }
        ensures number { self.new.inner.journal.number ≡ self.old.inner.journal.number }
        ensures heard { heard_puts self.new.inbox.links.items ≡ heard_puts self.old.inbox.links.items }
        ensures handed { self.new.handed ≡ self.old.handed }
    {
        self.over = true;
        self.cut = true;
        let left = self.inner.send(rt, &mut self.ports)?;
        self.cut = false;
        self.over = false;
        Ok(left)
    }

    /// Notes that the trail is whole. Errors: as at `event`.
    pub fn end(&mut self) -> Result<(), Fault>
        requires over { self.old.over ≡ false }
        requires going { has_end self.old.inner.journal.events.items ≡ false }
        ensures ok { OnOk result ((self.new.inner.journal.events.items ≡ self.old.inner.journal.events.items ++ End ∷ []) × (self.new.over ≡ false)) }
        ensures err { OnErr result (self.new.over ≡ true) }
        ensures cause { IsErrOf result Fault.Failed → (self.new.inner.journal.failed ≡ true) × Rose (O.faults self.old.inner.journal.sink) (O.faults self.new.inner.journal.sink) }
        ensures number { self.new.inner.journal.number ≡ self.old.inner.journal.number }
        ensures heard { heard_puts self.new.inbox.links.items ≡ heard_puts self.old.inbox.links.items }
        ensures handed { self.new.handed ≡ self.old.handed }
    {
        self.over = true;
        self.cut = true;
        self.inner.end()?;
        self.cut = false;
        self.over = false;
        Ok(())
    }

    /// The core with its trail, the links, and whether the seat is over.
    pub fn into_parts(self) -> GroupSeatParts<S, O>
        ensures events { (result.course.journal.events ≡ self.inner.journal.events) × ((result.course.journal.number ≡ self.inner.journal.number) × (result.over ≡ self.over)) }
        ensures cut { (result.cut ≡ self.cut) × (result.over ≡ false → result.cut ≡ false) }
        ensures whole { result.cut ≡ false → result.course.stuck ≡ false }
        ensures kept { result.course.stuck ≡ false → (result.course.core.broken ≡ false) × (result.course.core.node ≡ replay (core_steps S.meaning) (P.opening self.inner.journal.number) result.course.journal.events.items) }
        ensures lane { (in_lane result.course.lane ≡ (P.lane self.inner.journal.number)) × (lane_put result.course.lane ≡ made_texts (P.restored self.inner.journal.number) (replay (core_steps S.meaning) (P.opening self.inner.journal.number) result.course.journal.events.items).entries) }
        ensures firm { (replay (core_steps S.meaning) (P.opening self.inner.journal.number) result.course.journal.events.items).firm ≤ (P.restored self.inner.journal.number) + lane_read result.course.lane }
        ensures needs { needed (core_steps S.meaning) (P.opening self.inner.journal.number) result.course.journal.events.items ≤ (P.restored self.inner.journal.number) + lane_read result.course.lane }
        ensures released { Released (core_steps S.meaning) (P.opening self.inner.journal.number) result.course.journal.events.items }
        ensures end_last { IsEndLast result.course.journal.events.items }
        ensures came { HasComeAtMost result.course.journal.events.items result.links.items }
        ensures all_came { result.cut ≡ false → HasCome result.course.journal.events.items None result.links.items }
        ensures left { Each (CarriesFirst result.course.journal.events.items) result.ports.items }
        ensures all_left { result.cut ≡ false → Each (Carries result.course.journal.events.items) result.ports.items }
        ensures late { DropsLate (ends result.ports.items) [] result.course.journal.events.items }
        ensures named { (ends result.ports.items ≡ P.receivers self.inner.journal.number) × ((port_links result.ports.items ≡ P.leaving self.inner.journal.number) × (inbox_links result.links.items ≡ P.arriving self.inner.journal.number)) }
        ensures text { HasFront (P.begun self.inner.journal.number) (O.written result.course.journal.sink) (trail_text (P.head self.inner.journal.number) (P.entries self.inner.journal.number) result.course.journal.events.items) }
        ensures all_text { result.cut ≡ false → Appends (P.begun self.inner.journal.number) (O.written result.course.journal.sink) (trail_text (P.head self.inner.journal.number) (P.entries self.inner.journal.number) result.course.journal.events.items) }
        ensures failed { result.course.journal.failed ≡ true → Rose (P.failures self.inner.journal.number) (O.faults result.course.journal.sink) }
        ensures later { P.failures self.inner.journal.number ≤ O.faults result.course.journal.sink }
    {
        let GroupSeat {
            inner,
            ports,
            inbox,
            over,
            cut,
            handed: _,
        } = self;
        GroupSeatParts {
            course: inner.into_parts(),
            ports,
            links: inbox.into_links(),
            over,
            cut,
        }
    }
}
