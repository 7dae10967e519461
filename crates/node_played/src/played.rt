//! A core with the trail whose replay it is, and the lane that has its entries.
ghost use Rattle.std.specs.Prelude.{◌≡◌, ◌≤◌, ◌<◌, ◌^◌, ◌+◌, ◌++◌, ◌∷◌, [], false, length, vec_len, vec_capacity, IfOk};
ghost use Rattle.log_lane.specs.Lane.{lane_put, lane_read, in_lane};
ghost use Rattle.node_rules.specs.Nodes.{Node};
ghost use Rattle.trail.specs.Events.{event_text, event_content};
ghost use Rattle.trail_rules.specs.Replays.{core_steps, replay, needed, Released};
ghost use Rattle.node_played.specs.Lives.{made_texts, released_prop, has_end, IsEndLast, end_last_prop};

use crate::life::Life;
use crate::texts::{put_all, texts_behind};
use log_lane::inward::LaneIn;
use log_lane::stored::Stored;
use log_worker::text::EntryText;
use node_core::node::{NodeCore, Outcome};
use node_rules::node::{BookTail, Held, OwnSnapshot};
use smart_base::number::Place;
use smart_base::sequence::Bytes;
use smart_service::service::Service;
use smart_statements::entry::NodeEvent;
use std::alloc::{AllocError, Global};
use std::marker::PhantomData;
use std::sync::Wait;
use store_laws::job::Tail;
use trail::event::{Addressed, TrailEvent};
use trail::event_bytes::encode_event;

/// Why a seat gave up.
#[derive(Clone, Copy, Debug, PartialEq, Eq)]
pub enum SeatEnd {
    /// The sink of the trail has failed.
    TrailFault,
    /// Memory ran out.
    NoMemory,
}

/// What a core tells of an event, and the bytes of the event.
#[derive(Drop)]
pub struct Happened {
    pub outcome: Outcome,
    pub text: Bytes,
}

/// The bytes of an event that sends a message, and the payload of the message's frame.
#[derive(Drop)]
pub struct Sent {
    pub text: Bytes,
    pub payload: Bytes,
}

/// The bytes of an event, fewer than 2^32, and those behind the first: of a Send they are the payload of
/// its frame. Error: want of memory, also for an event with more.
#[tactic(auto, using(crate::proofs::Payloads::behind_kind))]
fn sent_text(alloc: Global, event: &TrailEvent) -> Result<Sent, AllocError>
    ensures text { IfOk result (λ sent. sent.text ≡ event_text event.now) }
    ensures payload { IfOk result (λ sent. sent.payload ≡ event_content event.now) }
    ensures short { IfOk result (λ sent. length sent.text < 2 ^ 32) }
{
    let text = short_text(alloc, event)?;
    let (_, behind) = text.as_slice().split_at(1);
    let payload = Bytes::from_slice(alloc, behind)?;
    Ok(Sent { text, payload })
}

/// The message of a held one, and who receives it.
fn addressed_of(held: Held) -> Addressed
    ensures to { result.to ≡ held.to }
    ensures message { result.message ≡ held.message }
{
    let Held {
        to,
        message,
        needs: _,
    } = held;
    Addressed { to, message }
}

/// Puts an event behind a trail that has room for it.
fn note(trail: &mut Vec<TrailEvent>, event: TrailEvent)
    requires { vec_len trail.old < vec_capacity trail.old }
    ensures { trail.new.items ≡ trail.old.items ++ event ∷ [] }
{
    trail.push_reserved(event);
}

/// The bytes of an event, fewer than 2^32. Error: want of memory, also for an event with more.
fn short_text(alloc: Global, event: &TrailEvent) -> Result<Bytes, AllocError>
    ensures text { IfOk result (λ text. text ≡ event_text event.now) }
    ensures short { IfOk result (λ text. (1 ≤ length text) × (length text < 2 ^ 32)) }
{
    let text = encode_event(alloc, event)?;
    if text.is_empty() || text.len() >= 1 << 32 {
        return Err(AllocError);
    }
    Ok(Bytes::from_vec(text))
}

/// A core that is the replay of a trail, and the end of the lane that has its entries. If want of
/// memory stopped an event half-way, it is stuck: the core may then be another, and no event is played.
/// Once the trail has ended, nothing is added to it.
pub struct Played<S: Service, P: Life<S>> {
    pub(crate) alloc: Global,
    pub(crate) core: NodeCore<S>,
    pub(crate) trail: Vec<TrailEvent>,
    pub(crate) lane: LaneIn<EntryText>,
    pub(crate) stuck: bool,
    pub(crate) ended: bool,
    of: PhantomData<P>,
    pub ghost kept: { stuck ≡ false → (core.broken ≡ false) × (core.node ≡ replay (core_steps S.meaning) P.opening trail.items) },
    pub ghost restored: { (replay (core_steps S.meaning) P.opening trail.items).restored ≡ P.restored },
    pub ghost few: { P.restored ≤ length (replay (core_steps S.meaning) P.opening trail.items).entries },
    pub ghost put: { lane_put lane ≡ made_texts P.restored (replay (core_steps S.meaning) P.opening trail.items).entries },
    pub ghost firm: { (replay (core_steps S.meaning) P.opening trail.items).firm ≤ P.restored + lane_read lane },
    pub ghost needs: { needed (core_steps S.meaning) P.opening trail.items ≤ P.restored + lane_read lane },
    pub ghost released: { Released (core_steps S.meaning) P.opening trail.items } by { released_prop (core_steps S.meaning) P.opening trail.items },
    pub ghost named: { in_lane lane ≡ P.lane },
    pub ghost ends: { ended ≡ has_end trail.items },
    pub ghost end_last: { IsEndLast trail.items } by { end_last_prop trail.items },
}

/// Let go by one call, so that no function that lets one go carries the whole of it.
impl<S: Service, P: Life<S>> Drop for Played<S, P> {
    fn drop(self) {
        let Played {
            alloc: _,
            core: _,
            trail: _,
            lane: _,
            stuck: _,
            ended: _,
            of: _,
        } = self;
    }
}

impl<S: Service, P: Life<S>> Played<S, P> {
    ghost use Rattle.std.specs.Prelude.{◌≡◌, ◌↔◌, ◌≤◌, ◌<◌, ◌^◌, ◌+◌, ◌-◌, ◌++◌, ◌∷◌, [], false, true, length, None, is_some, option_map, IfOk, IfSome, OnOk, OnErr, IsErrOf, IsTrue, MatchOption};
    ghost use Rattle.vote_book.specs.Books.{number_or};
    ghost use Rattle.log_lane.specs.Lane.{lane_put, lane_read, lane_heard, lane_room, in_lane, stored_lane, told_stored};
    ghost use Rattle.node_rules.specs.Kept.{core_step};
    ghost use Rattle.node_rules.specs.Marks.{wanted};
    ghost use Rattle.node_rules.specs.Steps.{first_leaving};
    ghost use Rattle.node_rules.specs.Tails.{tail_of};
    ghost use Rattle.trail.specs.Events.{event_text, addressed_text};
    ghost use Rattle.trail.specs.declared.event.Addressed.{Addressed};
    ghost use Rattle.trail.specs.declared.event.TrailEvent.TheVariants.{Happens, Send, End};
    ghost use Rattle.trail_rules.specs.Replays.{core_steps, replay, needed, Released};
    ghost use Rattle.store_plan.specs.Fit.{AreEntries};
    ghost use Rattle.node_played.specs.Lives.{made_texts, IsRead, IsTailOf, IsWantedOf, has_end, IsEndLast};

    /// A core at its opening, with an unused lane that has room for its first entry. Error: want of
    /// memory.
    pub fn open<R: Wait>(
        rt: &R,
        alloc: Global,
        core: NodeCore<S>,
        lane: LaneIn<EntryText>,
    ) -> Result<Played<S, P>, SeatEnd>
        requires core { (core.node ≡ P.opening) × (core.broken ≡ false) }
        requires opening { (P.opening.restored ≡ P.restored) × (P.opening.firm ≤ P.restored) }
        requires few { (P.restored ≤ length P.opening.entries) × (length P.opening.entries ≤ P.restored + 1) }
        requires lane { (in_lane lane ≡ P.lane) × ((lane_put lane ≡ []) × (1 ≤ lane_room lane)) }
        ensures { IfOk result (λ p. (p.trail.items ≡ []) × (p.stuck ≡ false)) }
    {
        let mut lane = lane;
        let Ok(texts) = texts_behind(alloc, core.book(), core.restored()) else {
            return Err(SeatEnd::NoMemory);
        };
        put_all(rt, &mut lane, texts);
        Ok(Played {
            alloc,
            core,
            trail: Vec::new(alloc),
            lane,
            stuck: false,
            ended: false,
            of: PhantomData,
        })
    }

    /// Whether more may happen to the core.
    pub fn is_whole(&self) -> bool
        ensures { IsTrue result ↔ (self.now.stuck ≡ false) }
    {
        !self.stuck
    }

    /// Whether the trail has ended, so that nothing is added to it.
    pub fn has_ended(&self) -> bool
        ensures { result ≡ has_end self.now.trail.items }
    {
        self.ended
    }

    /// Whether the lane has room for the entries of an event.
    pub fn has_room(&self) -> bool
        ensures room { IsTrue result → 8 ≤ lane_room self.now.lane }
        ensures no_room { result ≡ false → lane_room self.now.lane < 8 }
    {
        self.lane.room() >= 8
    }

    /// Reads how many entries of this life are firm. They are no fewer than were heard to be stored.
    pub fn look(&mut self) -> u64
        ensures read { result ≡ lane_read self.new.lane }
        ensures heard { lane_heard self.old.lane ≤ result }
        ensures same { (self.new.trail ≡ self.old.trail) × ((self.new.core ≡ self.old.core) × (self.new.stuck ≡ self.old.stuck)) }
    {
        self.lane.firm()
    }

    /// Hears how many entries were stored.
    pub fn hear(&mut self, stored: Stored<EntryText>)
        requires { stored_lane stored ≡ P.lane }
        ensures heard { lane_heard self.new.lane ≡ told_stored stored }
        ensures same { (self.new.trail ≡ self.old.trail) × ((self.new.core ≡ self.old.core) × (self.new.stuck ≡ self.old.stuck)) }
    {
        self.lane.hear(stored);
    }

    /// How many entries are firm by what the core was told, those restored among them.
    pub fn firm(&self) -> u64
        ensures { result ≡ self.now.core.node.firm }
    {
        self.core.firm()
    }

    /// Whether the core knows that all its entries are firm.
    pub fn is_firm(&self) -> bool
        ensures { self.now.stuck ≡ false → (IsTrue result ↔ ((replay (core_steps S.meaning) P.opening self.now.trail.items).firm ≡ length (replay (core_steps S.meaning) P.opening self.now.trail.items).entries)) }
    {
        self.core.firm() == self.core.made()
    }

    /// Whether a batch is decided and not yet delivered.
    pub fn waits(&self) -> bool
        ensures { self.now.stuck ≡ false → result ≡ is_some (replay (core_steps S.meaning) P.opening self.now.trail.items).waiting }
    {
        self.core.waits()
    }

    /// Whether the lane tells more firm entries than the core knows.
    pub fn is_told_more(&self, read: u64) -> bool
        ensures more { self.now.stuck ≡ false → IsTrue result → (replay (core_steps S.meaning) P.opening self.now.trail.items).firm - P.restored < read }
        ensures known { self.now.stuck ≡ false → result ≡ false → read ≤ (replay (core_steps S.meaning) P.opening self.now.trail.items).firm - P.restored }
    {
        self.core.firm() - self.core.restored().min(self.core.firm()) < read
    }

    /// A copy of the last snapshot for which the core wants a switch, with its place. `None` if and only
    /// if it wants none. Error: want of memory, also where the core is stuck.
    pub fn wanted(&self) -> Result<Option<OwnSnapshot>, AllocError>
        ensures of_trail { IfOk result (λ own. own ≡ wanted (replay (core_steps S.meaning) P.opening self.now.trail.items)) }
        ensures of_life { IfOk result (λ own. IfSome own (λ s. IsWantedOf S.meaning P.opening s.place s.snapshot)) }
    {
        if self.stuck {
            return Err(AllocError);
        }
        self.core.wanted()
    }

    /// The place of that snapshot; 0 without one.
    pub fn place_wanted(&self) -> u64
        ensures { self.now.stuck ≡ false → result ≡ number_or (option_map (λ own. own.place) (wanted (replay (core_steps S.meaning) P.opening self.now.trail.items))) 0 }
    {
        self.core.place_wanted().get()
    }

    /// The tail of the log beside a checkpoint of a place. Error: want of memory, also where the core is
    /// stuck.
    pub fn tail(&self, place: u64) -> Result<Tail, AllocError>
        ensures of_place { IfOk result (λ tail. IsTailOf S.meaning P.opening place tail) }
        // It is that of the trail so far.
        ensures of_trail { IfOk result (λ tail. (tail.made ≡ (tail_of (replay (core_steps S.meaning) P.opening self.now.trail.items) place).made) × (tail.entries ≡ (tail_of (replay (core_steps S.meaning) P.opening self.now.trail.items) place).entries)) }
        ensures fit { IfOk result (λ tail. AreEntries tail.entries) }
    {
        if self.stuck || place >= 1 << 63 {
            return Err(AllocError);
        }
        let BookTail { made, entries } = self.core.tail(Place::new(place))?;
        Ok(Tail { made, entries })
    }

    /// Plays an event. Gives what the core tells of it, and the bytes of the event. Error: want of memory,
    /// also for an event of 2^32 bytes or more.
    pub fn event<R: Wait>(&mut self, rt: &R, event: NodeEvent) -> Result<Happened, SeatEnd>
        requires whole { self.old.stuck ≡ false }
        requires going { has_end self.old.trail.items ≡ false }
        requires room { 8 ≤ lane_room self.old.lane }
        requires read { IsRead (lane_read self.old.lane) event }
        ensures ok { OnOk result ((self.new.trail.items ≡ self.old.trail.items ++ Happens event ∷ []) × (self.new.stuck ≡ false)) }
        ensures fired { IfOk result (λ h. h.outcome.fired ≡ (core_step S.meaning (replay (core_steps S.meaning) P.opening self.old.trail.items) event).fired) }
        ensures text { IfOk result (λ h. (h.text ≡ event_text (Happens event)) × (length h.text < 2 ^ 32)) }
        ensures err { OnErr result ((self.new.trail.items ≡ self.old.trail.items) × (self.new.stuck ≡ true)) }
        ensures memory { IsErrOf result SeatEnd.TrailFault → ⊥ }
        ensures read { lane_read self.new.lane ≡ lane_read self.old.lane }
    {
        let made = self.core.made();
        if self.trail.reserve(1).is_err() {
            self.stuck = true;
            return Err(SeatEnd::NoMemory);
        }
        self.stuck = true;
        let Ok(outcome) = self.core.step(&event) else {
            return Err(SeatEnd::NoMemory);
        };
        let Ok(texts) = texts_behind(self.alloc, self.core.book(), made) else {
            return Err(SeatEnd::NoMemory);
        };
        let played = TrailEvent::Happens(event);
        let Ok(text) = short_text(self.alloc, &played) else {
            return Err(SeatEnd::NoMemory);
        };
        put_all(rt, &mut self.lane, texts);
        note(&mut self.trail, played);
        self.stuck = false;
        Ok(Happened { outcome, text })
    }

    /// Takes out the next message that leaves, if there is one. Gives the bytes of its event and the
    /// payload of its frame. Error: want of memory, also for an event of 2^32 bytes or more.
    pub fn send(&mut self) -> Result<Option<Sent>, SeatEnd>
        requires whole { self.old.stuck ≡ false }
        requires going { has_end self.old.trail.items ≡ false }
        ensures sent { IfOk result (λ o. MatchOption o
            ((first_leaving (replay (core_steps S.meaning) P.opening self.old.trail.items).firm (replay (core_steps S.meaning) P.opening self.old.trail.items).held ≡ None) × (self.new.trail.items ≡ self.old.trail.items))
            (λ sent. (a : Addressed) × ((sent.text ≡ event_text (Send a)) × ((sent.payload ≡ addressed_text a) × (self.new.trail.items ≡ self.old.trail.items ++ Send a ∷ []))))) }
        ensures short { IfOk result (λ o. IfSome o (λ sent. length sent.text < 2 ^ 32)) }
        ensures whole { OnOk result (self.new.stuck ≡ false) }
        ensures err { OnErr result ((self.new.trail.items ≡ self.old.trail.items) × (self.new.stuck ≡ true)) }
        ensures memory { IsErrOf result SeatEnd.TrailFault → ⊥ }
    {
        if self.trail.reserve(1).is_err() {
            self.stuck = true;
            return Err(SeatEnd::NoMemory);
        }
        self.stuck = true;
        let Some(held) = self.core.release() else {
            self.stuck = false;
            return Ok(None);
        };
        let event = TrailEvent::Send(addressed_of(held));
        let Ok(sent) = sent_text(self.alloc, &event) else {
            return Err(SeatEnd::NoMemory);
        };
        note(&mut self.trail, event);
        self.stuck = false;
        Ok(Some(sent))
    }

    /// Notes that the trail is whole. Gives the bytes of its last event. Error: want of memory.
    pub fn end(&mut self) -> Result<Bytes, SeatEnd>
        requires going { has_end self.old.trail.items ≡ false }
        ensures ok { OnOk result (self.new.trail.items ≡ self.old.trail.items ++ End ∷ []) }
        ensures text { IfOk result (λ text. (text ≡ event_text End) × (length text < 2 ^ 32)) }
        ensures err { OnErr result (self.new.trail.items ≡ self.old.trail.items) }
        ensures memory { IsErrOf result SeatEnd.TrailFault → ⊥ }
        ensures same { self.new.stuck ≡ self.old.stuck }
    {
        if self.trail.reserve(1).is_err() {
            return Err(SeatEnd::NoMemory);
        }
        let event = TrailEvent::End;
        let Ok(text) = short_text(self.alloc, &event) else {
            return Err(SeatEnd::NoMemory);
        };
        note(&mut self.trail, event);
        self.ended = true;
        Ok(text)
    }

    /// The core, its trail, and the end of the lane.
    pub fn into_parts(self) -> (NodeCore<S>, Vec<TrailEvent>, LaneIn<EntryText>)
        ensures kept { self.stuck ≡ false → (result.0.broken ≡ false) × (result.0.node ≡ replay (core_steps S.meaning) P.opening result.1.items) }
        ensures trail { result.1 ≡ self.trail }
        ensures lane { (in_lane result.2 ≡ P.lane) × (lane_put result.2 ≡ made_texts P.restored (replay (core_steps S.meaning) P.opening result.1.items).entries) }
        ensures firm { (replay (core_steps S.meaning) P.opening result.1.items).firm ≤ P.restored + lane_read result.2 }
        ensures needs { needed (core_steps S.meaning) P.opening result.1.items ≤ P.restored + lane_read result.2 }
        ensures released { Released (core_steps S.meaning) P.opening result.1.items }
        ensures end_last { IsEndLast result.1.items }
    {
        let Played {
            alloc: _,
            core,
            trail,
            lane,
            stuck: _,
            ended: _,
            of: _,
        } = self;
        (core, trail, lane)
    }
}
