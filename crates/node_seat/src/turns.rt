//! The turns of a seat: one thing that may happen, if the lane has room for it.
use crate::place::Place;
use crate::seat::Seat;
use smart_io::stream::Sink;
use smart_service::service::Service;
use smart_statements::entry::NodeEvent;
use std::sync::Wait;

/// What became of a turn.
#[derive(Clone, Copy, Debug, PartialEq, Eq)]
pub enum Turn {
    /// It was played.
    Done,
    /// There was nothing to play.
    Nothing,
    /// The lane has no room for the entries of an event.
    NoRoom,
    /// Nothing more happens to the node, as its trail has ended, the seat was over, or the turn failed.
    Over,
}

impl<S: Service, P: Place<S>, O: Sink> Seat<S, P, O> {
    ghost use Rattle.std.specs.Prelude.{◌≡◌, ◌≤◌, ◌<◌, ◌-◌, ◌++◌, ◌∷◌, [], List, ℕ, false, true, None, is_some};
    ghost use Rattle.log_lane.specs.Lane.{lane_read, lane_heard, lane_room};
    ghost use Rattle.group_links.specs.Link.{link_heard_put};
    ghost use Rattle.node_rules.specs.Steps.{first_leaving};
    ghost use Rattle.smart_statements.specs.declared.entry.NodeEvent.TheVariants.{Arrive, Tick, Deliver, Firm};
    ghost use Rattle.trail.specs.declared.event.Addressed.{Addressed};
    ghost use Rattle.trail.specs.declared.event.TrailEvent.TheVariants.{Happens, Send};
    ghost use Rattle.trail_rules.specs.Replays.{core_steps, replay, arrivals};
    ghost use Rattle.node_played.specs.Lives.{has_end};
    ghost use Rattle.node_seat.specs.Seats.{IsFirst};

    /// Tells the core how many entries are firm by what the lane tells, if those are more than it knows.
    pub fn catch_up<R: Wait>(&mut self, rt: &R) -> Turn
        ensures done { result ≡ Turn.Done → self.new.inner.trail.items ≡ self.old.inner.trail.items ++ Happens (Firm (lane_read self.new.inner.lane)) ∷ [] }
        ensures more { result ≡ Turn.Done → (replay (core_steps S.meaning) P.opening self.old.inner.trail.items).firm - P.restored < lane_read self.new.inner.lane }
        ensures nothing { result ≡ Turn.Nothing → (self.new.inner.trail.items ≡ self.old.inner.trail.items) × (lane_read self.new.inner.lane ≤ (replay (core_steps S.meaning) P.opening self.old.inner.trail.items).firm - P.restored) }
        ensures stored { result ≡ Turn.Nothing → lane_heard self.old.inner.lane ≤ (replay (core_steps S.meaning) P.opening self.old.inner.trail.items).firm - P.restored }
        ensures no_room { result ≡ Turn.NoRoom → self.new.inner.trail.items ≡ self.old.inner.trail.items }
        ensures full { result ≡ Turn.NoRoom → lane_room self.new.inner.lane < 8 }
        ensures over { result ≡ Turn.Over → self.new.over ≡ true }
        ensures whole { self.new.over ≡ true → result ≡ Turn.Over }
        ensures stays { self.old.over ≡ true → self.new.inner.trail.items ≡ self.old.inner.trail.items }
        ensures ended { has_end self.old.inner.trail.items ≡ true → (result ≡ Turn.Over) × (self.new.inner.trail.items ≡ self.old.inner.trail.items) }
        ensures heard { link_heard_put self.new.from ≡ link_heard_put self.old.from }
        ensures handed { self.new.handed ≡ self.old.handed }
        ensures cut { (self.old.over ≡ true → self.new.cut ≡ self.old.cut) × (has_end self.old.inner.trail.items ≡ true → self.new.cut ≡ self.old.cut) }
    {
        if !self.goes_on() {
            return Turn::Over;
        }
        let read = self.look();
        if !self.inner.has_room() {
            return Turn::NoRoom;
        }
        if !self.inner.is_told_more(read) {
            return Turn::Nothing;
        }
        match self.event(rt, NodeEvent::Firm(read)) {
            Ok(_) => Turn::Done,
            Err(_) => Turn::Over,
        }
    }

    /// Lets time pass.
    pub fn tick<R: Wait>(&mut self, rt: &R) -> Turn
        ensures done { result ≡ Turn.Done → self.new.inner.trail.items ≡ self.old.inner.trail.items ++ Happens Tick ∷ [] }
        ensures nothing { result ≡ Turn.Nothing → ⊥ }
        ensures no_room { result ≡ Turn.NoRoom → self.new.inner.trail.items ≡ self.old.inner.trail.items }
        ensures full { result ≡ Turn.NoRoom → lane_room self.new.inner.lane < 8 }
        ensures over { result ≡ Turn.Over → self.new.over ≡ true }
        ensures whole { self.new.over ≡ true → result ≡ Turn.Over }
        ensures stays { self.old.over ≡ true → self.new.inner.trail.items ≡ self.old.inner.trail.items }
        ensures ended { has_end self.old.inner.trail.items ≡ true → (result ≡ Turn.Over) × (self.new.inner.trail.items ≡ self.old.inner.trail.items) }
        ensures heard { link_heard_put self.new.from ≡ link_heard_put self.old.from }
        ensures handed { self.new.handed ≡ self.old.handed }
        ensures cut { (self.old.over ≡ true → self.new.cut ≡ self.old.cut) × (has_end self.old.inner.trail.items ≡ true → self.new.cut ≡ self.old.cut) }
    {
        if !self.goes_on() {
            return Turn::Over;
        }
        self.look();
        if !self.inner.has_room() {
            return Turn::NoRoom;
        }
        match self.event(rt, NodeEvent::Tick) {
            Ok(_) => Turn::Done,
            Err(_) => Turn::Over,
        }
    }

    /// Lets the service execute the batch that waits, if one does.
    pub fn deliver<R: Wait>(&mut self, rt: &R) -> Turn
        ensures done { result ≡ Turn.Done → self.new.inner.trail.items ≡ self.old.inner.trail.items ++ Happens Deliver ∷ [] }
        ensures nothing { result ≡ Turn.Nothing → (self.new.inner.trail.items ≡ self.old.inner.trail.items) × (is_some (replay (core_steps S.meaning) P.opening self.old.inner.trail.items).waiting ≡ false) }
        ensures no_room { result ≡ Turn.NoRoom → self.new.inner.trail.items ≡ self.old.inner.trail.items }
        ensures full { result ≡ Turn.NoRoom → lane_room self.new.inner.lane < 8 }
        ensures over { result ≡ Turn.Over → self.new.over ≡ true }
        ensures whole { self.new.over ≡ true → result ≡ Turn.Over }
        ensures stays { self.old.over ≡ true → self.new.inner.trail.items ≡ self.old.inner.trail.items }
        ensures ended { has_end self.old.inner.trail.items ≡ true → (result ≡ Turn.Over) × (self.new.inner.trail.items ≡ self.old.inner.trail.items) }
        ensures heard { link_heard_put self.new.from ≡ link_heard_put self.old.from }
        ensures handed { self.new.handed ≡ self.old.handed }
        ensures cut { (self.old.over ≡ true → self.new.cut ≡ self.old.cut) × (has_end self.old.inner.trail.items ≡ true → self.new.cut ≡ self.old.cut) }
    {
        if !self.goes_on() {
            return Turn::Over;
        }
        if !self.inner.waits() {
            return Turn::Nothing;
        }
        self.look();
        if !self.inner.has_room() {
            return Turn::NoRoom;
        }
        match self.event(rt, NodeEvent::Deliver) {
            Ok(_) => Turn::Done,
            Err(_) => Turn::Over,
        }
    }

    /// Plays the next message that arrived, if one did. `Nothing` only where the link had none at one moment
    /// of the call, so that all has arrived that was heard to be put.
    pub fn take<R: Wait>(&mut self, rt: &R) -> Turn
        ensures done { result ≡ Turn.Done → (bytes : List ℕ) × (self.new.inner.trail.items ≡ self.old.inner.trail.items ++ Happens (Arrive bytes) ∷ []) }
        ensures nothing { result ≡ Turn.Nothing → self.new.inner.trail.items ≡ self.old.inner.trail.items }
        ensures came { result ≡ Turn.Nothing → IsFirst (link_heard_put self.old.from) (arrivals self.old.inner.trail.items) }
        ensures no_room { result ≡ Turn.NoRoom → self.new.inner.trail.items ≡ self.old.inner.trail.items }
        ensures full { result ≡ Turn.NoRoom → lane_room self.new.inner.lane < 8 }
        ensures over { result ≡ Turn.Over → self.new.over ≡ true }
        ensures whole { self.new.over ≡ true → result ≡ Turn.Over }
        ensures stays { self.old.over ≡ true → self.new.inner.trail.items ≡ self.old.inner.trail.items }
        ensures ended { has_end self.old.inner.trail.items ≡ true → (result ≡ Turn.Over) × (self.new.inner.trail.items ≡ self.old.inner.trail.items) }
        ensures heard { link_heard_put self.new.from ≡ link_heard_put self.old.from }
        ensures handed { self.new.handed ≡ self.old.handed }
        ensures cut { (self.old.over ≡ true → self.new.cut ≡ self.old.cut) × (has_end self.old.inner.trail.items ≡ true → self.new.cut ≡ self.old.cut) }
    {
        if !self.goes_on() {
            return Turn::Over;
        }
        self.look();
        if !self.inner.has_room() {
            return Turn::NoRoom;
        }
        match self.arrive(rt) {
            Ok(true) => Turn::Done,
            Ok(false) => Turn::Nothing,
            Err(_) => Turn::Over,
        }
    }

    /// Sends the next message that leaves, if one does.
    pub fn let_go<R: Wait>(&mut self, rt: &R) -> Turn
        ensures done { result ≡ Turn.Done → (a : Addressed) × (self.new.inner.trail.items ≡ self.old.inner.trail.items ++ Send a ∷ []) }
        ensures nothing { result ≡ Turn.Nothing → (self.new.inner.trail.items ≡ self.old.inner.trail.items) × (first_leaving (replay (core_steps S.meaning) P.opening self.old.inner.trail.items).firm (replay (core_steps S.meaning) P.opening self.old.inner.trail.items).held ≡ None) }
        ensures no_room { result ≡ Turn.NoRoom → ⊥ }
        ensures over { result ≡ Turn.Over → self.new.over ≡ true }
        ensures whole { self.new.over ≡ true → result ≡ Turn.Over }
        ensures stays { self.old.over ≡ true → self.new.inner.trail.items ≡ self.old.inner.trail.items }
        ensures ended { has_end self.old.inner.trail.items ≡ true → (result ≡ Turn.Over) × (self.new.inner.trail.items ≡ self.old.inner.trail.items) }
        ensures heard { link_heard_put self.new.from ≡ link_heard_put self.old.from }
        ensures handed { self.new.handed ≡ self.old.handed }
        ensures cut { (self.old.over ≡ true → self.new.cut ≡ self.old.cut) × (has_end self.old.inner.trail.items ≡ true → self.new.cut ≡ self.old.cut) }
    {
        if !self.goes_on() {
            return Turn::Over;
        }
        match self.send(rt) {
            Ok(true) => Turn::Done,
            Ok(false) => Turn::Nothing,
            Err(_) => Turn::Over,
        }
    }
}
