//! The turns of a member's seat: one thing that may happen, if the lane has room for it.
use crate::seat::GroupSeat;
use node_course::group_life::GroupLife;
use node_seat::turns::Turn;
use smart_io::stream::Sink;
use smart_service::service::Service;
use smart_statements::entry::NodeEvent;
use std::sync::Wait;

impl<S: Service, P: GroupLife<S>, O: Sink> GroupSeat<S, P, O> {
    ghost use Rattle.std.specs.Prelude.{◌≡◌, ◌≤◌, ◌<◌, ◌-◌, ◌++◌, ◌∷◌, [], List, ℕ, false, true, None, is_some};
    ghost use Rattle.smart_base.specs.Lists.{Each};
    ghost use Rattle.log_lane.specs.Lane.{lane_read, lane_heard, lane_room};
    ghost use Rattle.node_rules.specs.Steps.{first_leaving};
    ghost use Rattle.smart_statements.specs.declared.entry.NodeEvent.TheVariants.{Arrive, Tick, Deliver, Firm};
    ghost use Rattle.trail.specs.declared.event.Addressed.{Addressed};
    ghost use Rattle.trail.specs.declared.event.TrailEvent.TheVariants.{Happens};
    ghost use Rattle.trail_rules.specs.Replays.{core_steps, replay};
    ghost use Rattle.group_ends.specs.Journals.{has_end};
    ghost use Rattle.group_ends.specs.Ports.{ends, heard_puts, heard_and_taken, IsEmptied, IsPosted};

    /// Tells the core how many entries are firm by what the lane tells, if those are more than it knows.
    pub fn catch_up<R: Wait>(&mut self, rt: &R) -> Turn
        ensures done { result ≡ Turn.Done → self.new.inner.journal.events.items ≡ self.old.inner.journal.events.items ++ Happens (Firm (lane_read self.new.inner.lane)) ∷ [] }
        ensures more { result ≡ Turn.Done → (replay (core_steps S.meaning) (P.opening self.old.inner.journal.number) self.old.inner.journal.events.items).firm - (P.restored self.old.inner.journal.number) < lane_read self.new.inner.lane }
        ensures stored { result ≡ Turn.Nothing → lane_heard self.old.inner.lane ≤ (replay (core_steps S.meaning) (P.opening self.old.inner.journal.number) self.old.inner.journal.events.items).firm - (P.restored self.old.inner.journal.number) }
        ensures nothing { result ≡ Turn.Nothing → (self.new.inner.journal.events.items ≡ self.old.inner.journal.events.items) × (lane_read self.new.inner.lane ≤ (replay (core_steps S.meaning) (P.opening self.old.inner.journal.number) self.old.inner.journal.events.items).firm - (P.restored self.old.inner.journal.number)) }
        ensures no_room { result ≡ Turn.NoRoom → self.new.inner.journal.events.items ≡ self.old.inner.journal.events.items }
        ensures full { result ≡ Turn.NoRoom → lane_room self.new.inner.lane < 8 }
        ensures over { result ≡ Turn.Over → self.new.over ≡ true }
        ensures whole { self.new.over ≡ true → result ≡ Turn.Over }
        ensures stays { self.old.over ≡ true → self.new.inner.journal.events.items ≡ self.old.inner.journal.events.items }
        ensures ended { has_end self.old.inner.journal.events.items ≡ true → (result ≡ Turn.Over) × (self.new.inner.journal.events.items ≡ self.old.inner.journal.events.items) }
        ensures number { self.new.inner.journal.number ≡ self.old.inner.journal.number }
        ensures heard { heard_puts self.new.inbox.links.items ≡ heard_puts self.old.inbox.links.items }
        ensures handed { self.new.handed ≡ self.old.handed }
        ensures cut { (self.old.over ≡ true → self.new.cut ≡ self.old.cut) × (has_end self.old.inner.journal.events.items ≡ true → self.new.cut ≡ self.old.cut) }
    {
        if !self.goes_on() {
            return Turn::Over;
        }
        let read = self.look();
        if !self.inner.has_room() {
            return Turn::NoRoom;
        }
        if !self.inner.is_told_more(read) {
            return Turn::Nothing;
        }
        match self.event(rt, NodeEvent::Firm(read)) {
            Ok(_) => Turn::Done,
            Err(_) => Turn::Over,
        }
    }

    /// Lets time pass.
    pub fn tick<R: Wait>(&mut self, rt: &R) -> Turn
        ensures done { result ≡ Turn.Done → self.new.inner.journal.events.items ≡ self.old.inner.journal.events.items ++ Happens Tick ∷ [] }
        ensures nothing { result ≡ Turn.Nothing → ⊥ }
        ensures no_room { result ≡ Turn.NoRoom → self.new.inner.journal.events.items ≡ self.old.inner.journal.events.items }
        ensures full { result ≡ Turn.NoRoom → lane_room self.new.inner.lane < 8 }
        ensures over { result ≡ Turn.Over → self.new.over ≡ true }
        ensures whole { self.new.over ≡ true → result ≡ Turn.Over }
        ensures stays { self.old.over ≡ true → self.new.inner.journal.events.items ≡ self.old.inner.journal.events.items }
        ensures ended { has_end self.old.inner.journal.events.items ≡ true → (result ≡ Turn.Over) × (self.new.inner.journal.events.items ≡ self.old.inner.journal.events.items) }
        ensures number { self.new.inner.journal.number ≡ self.old.inner.journal.number }
        ensures heard { heard_puts self.new.inbox.links.items ≡ heard_puts self.old.inbox.links.items }
        ensures handed { self.new.handed ≡ self.old.handed }
        ensures cut { (self.old.over ≡ true → self.new.cut ≡ self.old.cut) × (has_end self.old.inner.journal.events.items ≡ true → self.new.cut ≡ self.old.cut) }
    {
        if !self.goes_on() {
            return Turn::Over;
        }
        self.look();
        if !self.inner.has_room() {
            return Turn::NoRoom;
        }
        match self.event(rt, NodeEvent::Tick) {
            Ok(_) => Turn::Done,
            Err(_) => Turn::Over,
        }
    }

    /// Lets the service execute the batch that waits, if one does.
    pub fn deliver<R: Wait>(&mut self, rt: &R) -> Turn
        ensures done { result ≡ Turn.Done → self.new.inner.journal.events.items ≡ self.old.inner.journal.events.items ++ Happens Deliver ∷ [] }
        ensures nothing { result ≡ Turn.Nothing → (self.new.inner.journal.events.items ≡ self.old.inner.journal.events.items) × (is_some (replay (core_steps S.meaning) (P.opening self.old.inner.journal.number) self.old.inner.journal.events.items).waiting ≡ false) }
        ensures no_room { result ≡ Turn.NoRoom → self.new.inner.journal.events.items ≡ self.old.inner.journal.events.items }
        ensures full { result ≡ Turn.NoRoom → lane_room self.new.inner.lane < 8 }
        ensures over { result ≡ Turn.Over → self.new.over ≡ true }
        ensures whole { self.new.over ≡ true → result ≡ Turn.Over }
        ensures stays { self.old.over ≡ true → self.new.inner.journal.events.items ≡ self.old.inner.journal.events.items }
        ensures ended { has_end self.old.inner.journal.events.items ≡ true → (result ≡ Turn.Over) × (self.new.inner.journal.events.items ≡ self.old.inner.journal.events.items) }
        ensures number { self.new.inner.journal.number ≡ self.old.inner.journal.number }
        ensures heard { heard_puts self.new.inbox.links.items ≡ heard_puts self.old.inbox.links.items }
        ensures handed { self.new.handed ≡ self.old.handed }
        ensures cut { (self.old.over ≡ true → self.new.cut ≡ self.old.cut) × (has_end self.old.inner.journal.events.items ≡ true → self.new.cut ≡ self.old.cut) }
    {
        if !self.goes_on() {
            return Turn::Over;
        }
        if !self.inner.waits() {
            return Turn::Nothing;
        }
        self.look();
        if !self.inner.has_room() {
            return Turn::NoRoom;
        }
        match self.event(rt, NodeEvent::Deliver) {
            Ok(_) => Turn::Done,
            Err(_) => Turn::Over,
        }
    }

    /// Plays the next message that arrived, if one did. `Nothing` only where each link was empty at a moment of
    /// its own.
    pub fn take<R: Wait>(&mut self, rt: &R) -> Turn
        ensures done { result ≡ Turn.Done → (bytes : List ℕ) × (self.new.inner.journal.events.items ≡ self.old.inner.journal.events.items ++ Happens (Arrive bytes) ∷ []) }
        ensures nothing { result ≡ Turn.Nothing → self.new.inner.journal.events.items ≡ self.old.inner.journal.events.items }
        ensures came { result ≡ Turn.Nothing → Each IsEmptied (heard_and_taken self.old.inbox.links.items) }
        ensures no_room { result ≡ Turn.NoRoom → self.new.inner.journal.events.items ≡ self.old.inner.journal.events.items }
        ensures full { result ≡ Turn.NoRoom → lane_room self.new.inner.lane < 8 }
        ensures over { result ≡ Turn.Over → self.new.over ≡ true }
        ensures whole { self.new.over ≡ true → result ≡ Turn.Over }
        ensures stays { self.old.over ≡ true → self.new.inner.journal.events.items ≡ self.old.inner.journal.events.items }
        ensures ended { has_end self.old.inner.journal.events.items ≡ true → (result ≡ Turn.Over) × (self.new.inner.journal.events.items ≡ self.old.inner.journal.events.items) }
        ensures number { self.new.inner.journal.number ≡ self.old.inner.journal.number }
        ensures heard { heard_puts self.new.inbox.links.items ≡ heard_puts self.old.inbox.links.items }
        ensures handed { self.new.handed ≡ self.old.handed }
        ensures cut { (self.old.over ≡ true → self.new.cut ≡ self.old.cut) × (has_end self.old.inner.journal.events.items ≡ true → self.new.cut ≡ self.old.cut) }
    {
        if !self.goes_on() {
            return Turn::Over;
        }
        self.look();
        if !self.inner.has_room() {
            return Turn::NoRoom;
        }
        match self.arrive(rt) {
            Ok(true) => Turn::Done,
            Ok(false) => Turn::Nothing,
            Err(_) => Turn::Over,
        }
    }

    /// Sends the next message that leaves, if one does.
    pub fn let_go<R: Wait>(&mut self, rt: &R) -> Turn
        ensures done { result ≡ Turn.Done → (a : Addressed) × IsPosted a (ends self.old.ports.items) self.old.inner.journal.events.items self.new.inner.journal.events.items }
        ensures nothing { result ≡ Turn.Nothing → (self.new.inner.journal.events.items ≡ self.old.inner.journal.events.items) × (first_leaving (replay (core_steps S.meaning) (P.opening self.old.inner.journal.number) self.old.inner.journal.events.items).firm (replay (core_steps S.meaning) (P.opening self.old.inner.journal.number) self.old.inner.journal.events.items).held ≡ None) }
        ensures no_room { result ≡ Turn.NoRoom → ⊥ }
        ensures over { result ≡ Turn.Over → self.new.over ≡ true }
        ensures whole { self.new.over ≡ true → result ≡ Turn.Over }
        ensures stays { self.old.over ≡ true → self.new.inner.journal.events.items ≡ self.old.inner.journal.events.items }
        ensures ended { has_end self.old.inner.journal.events.items ≡ true → (result ≡ Turn.Over) × (self.new.inner.journal.events.items ≡ self.old.inner.journal.events.items) }
        ensures number { self.new.inner.journal.number ≡ self.old.inner.journal.number }
        ensures heard { heard_puts self.new.inbox.links.items ≡ heard_puts self.old.inbox.links.items }
        ensures handed { self.new.handed ≡ self.old.handed }
        ensures cut { (self.old.over ≡ true → self.new.cut ≡ self.old.cut) × (has_end self.old.inner.journal.events.items ≡ true → self.new.cut ≡ self.old.cut) }
    {
        if !self.goes_on() {
            return Turn::Over;
        }
        match self.send(rt) {
            Ok(true) => Turn::Done,
            Ok(false) => Turn::Nothing,
            Err(_) => Turn::Over,
        }
    }
}
