//! A core with the journal whose trail's replay it is, and the lane that has its entries.
ghost use Rattle.std.specs.Prelude.{◌≡◌, ◌≤◌, ◌+◌, false, length};
ghost use Rattle.log_lane.specs.Lane.{lane_put, lane_read, in_lane};
ghost use Rattle.trail_rules.specs.Replays.{core_steps, replay, needed, Released};
ghost use Rattle.node_played.specs.Lives.{made_texts, released_prop};

use crate::group_life::GroupLife;
use crate::texts::{put_all, texts_behind};
use faults::Fault;
use group_ends::journal::{Journal, JournalParts};
use group_ends::port::Port;
use group_ends::posting::{Parcel, post};
use log_lane::inward::LaneIn;
use log_lane::stored::Stored;
use log_worker::text::EntryText;
use node_core::node::{NodeCore, Outcome};
use node_rules::node::{BookTail, Held, OwnSnapshot};
use smart_base::number::Place;
use smart_io::stream::Sink;
use smart_service::service::Service;
use smart_statements::entry::NodeEvent;
use std::alloc::{AllocError, Global};
use std::marker::PhantomData;
use std::sync::Wait;
use store_laws::job::Tail;
use trail::event::{Addressed, TrailEvent};

/// The message of a held one, and who receives it.
fn addressed_of(held: Held) -> Addressed
    ensures to { result.to ≡ held.to }
    ensures message { result.message ≡ held.message }
{
    let Held {
        to,
        message,
        needs: _,
    } = held;
    Addressed { to, message }
}

/// A core that is the replay of a trail, the journal that has the trail, and the end of the lane that has
/// the core's entries. If want of memory stopped an event half-way, it is stuck: the core may then be
/// another, and no event is played. Once the trail has ended, nothing is added to it.
pub struct Course<S: Service, P: GroupLife<S>, O: Sink> {
    pub(crate) alloc: Global,
    /// The number of the member, which the journal has too.
    pub(crate) number: u16,
    pub(crate) core: NodeCore<S>,
    pub(crate) journal: Journal<P, O>,
    pub(crate) lane: LaneIn<EntryText>,
    pub(crate) stuck: bool,
    of: PhantomData<P>,
    pub ghost numbered: { number ≡ journal.number },
    pub ghost kept: { stuck ≡ false → (core.broken ≡ false) × (core.node ≡ replay (core_steps S.meaning) (P.opening journal.number) journal.events.items) },
    pub ghost restored: { (replay (core_steps S.meaning) (P.opening journal.number) journal.events.items).restored ≡ (P.restored journal.number) },
    pub ghost few: { (P.restored journal.number) ≤ length (replay (core_steps S.meaning) (P.opening journal.number) journal.events.items).entries },
    pub ghost put: { lane_put lane ≡ made_texts (P.restored journal.number) (replay (core_steps S.meaning) (P.opening journal.number) journal.events.items).entries },
    pub ghost firm: { (replay (core_steps S.meaning) (P.opening journal.number) journal.events.items).firm ≤ (P.restored journal.number) + lane_read lane },
    pub ghost needs: { needed (core_steps S.meaning) (P.opening journal.number) journal.events.items ≤ (P.restored journal.number) + lane_read lane },
    pub ghost released: { Released (core_steps S.meaning) (P.opening journal.number) journal.events.items } by { released_prop (core_steps S.meaning) (P.opening journal.number) journal.events.items },
    pub ghost named: { in_lane lane ≡ (P.lane journal.number) },
}

/// What is left of a course.
pub struct CourseParts<S: Service, O: Sink> {
    pub core: NodeCore<S>,
    pub journal: JournalParts<O>,
    pub lane: LaneIn<EntryText>,
    pub stuck: bool,
}

/// Let go by one call, so that no function that lets one go carries the whole of it.
impl<S: Service, P: GroupLife<S>, O: Sink + Drop> Drop for Course<S, P, O> {
    fn drop(self) {
        let Course {
            alloc: _,
            number: _,
            core: _,
            journal: _,
            lane: _,
            stuck: _,
            of: _,
        } = self;
    }
}

impl<S: Service, P: GroupLife<S>, O: Sink> Course<S, P, O> {
    ghost use Rattle.std.specs.Prelude.{◌≡◌, ◌↔◌, ◌≤◌, ◌<◌, ◌^◌, ◌+◌, ◌-◌, ◌++◌, ◌∷◌, [], ℕ, false, true, take, length, None, is_some, option_map, IfOk, IfErr, IfSome, OnOk, OnErr, IsErrOf, IsTrue, MatchBool};
    ghost use Rattle.std.specs.Io.KnownBytes.{Appends};
    ghost use Rattle.faults.specs.Counts.{Rose};
    ghost use Rattle.smart_base.specs.Lists.{Each};
    ghost use Rattle.vote_book.specs.Books.{number_or};
    ghost use Rattle.log_lane.specs.Lane.{lane_put, lane_read, lane_heard, lane_room, in_lane, stored_lane, told_stored};
    ghost use Rattle.node_rules.specs.Kept.{core_step};
    ghost use Rattle.node_rules.specs.Marks.{wanted};
    ghost use Rattle.node_rules.specs.Steps.{first_leaving};
    ghost use Rattle.node_rules.specs.Tails.{tail_of};
    ghost use Rattle.trail.specs.Trails.{trail_text};
    ghost use Rattle.trail.specs.declared.event.Addressed.{Addressed};
    ghost use Rattle.trail.specs.declared.event.TrailEvent.TheVariants.{Happens, End};
    ghost use Rattle.trail_rules.specs.Replays.{core_steps, replay, arrivals, needed, Released};
    ghost use Rattle.store_plan.specs.Fit.{AreEntries};
    ghost use Rattle.group_ends.specs.Carried.{DropsLate};
    ghost use Rattle.group_ends.specs.Journals.{HasFront, has_end, IsEndLast};
    ghost use Rattle.group_ends.specs.Ports.{ends, port_links, AreApart, Carries, CarriesFirst, IsPosted};
    ghost use Rattle.node_played.specs.Lives.{made_texts, IsRead, IsTailOf, IsWantedOf};

    /// A core at its opening, over a journal of nothing, with an unused lane that has room for its first
    /// entry. Error: want of memory; the journal comes back.
    pub fn open<R: Wait>(
        rt: &R,
        alloc: Global,
        number: u16,
        core: NodeCore<S>,
        lane: LaneIn<EntryText>,
        journal: Journal<P, O>,
    ) -> Result<Course<S, P, O>, Journal<P, O>>
        requires number { number ≡ journal.number }
        requires core { (core.node ≡ (P.opening journal.number)) × (core.broken ≡ false) }
        requires opening { ((P.opening journal.number).restored ≡ (P.restored journal.number)) × ((P.opening journal.number).firm ≤ (P.restored journal.number)) }
        requires few { ((P.restored journal.number) ≤ length (P.opening journal.number).entries) × (length (P.opening journal.number).entries ≤ (P.restored journal.number) + 1) }
        requires lane { (in_lane lane ≡ (P.lane journal.number)) × ((lane_put lane ≡ []) × (1 ≤ lane_room lane)) }
        requires journal { journal.events.items ≡ [] }
        ensures ok { IfOk result (λ course. (course.journal ≡ journal) × (course.stuck ≡ false)) }
        ensures back { IfErr result (λ same. same ≡ journal) }
    {
        let mut lane = lane;
        let Ok(texts) = texts_behind(alloc, core.book(), core.restored()) else {
            return Err(journal);
        };
        put_all(rt, &mut lane, texts);
        Ok(Course {
            alloc,
            number,
            core,
            journal,
            lane,
            stuck: false,
            of: PhantomData,
        })
    }

    /// The number of the member.
    pub fn number(&self) -> u16
        ensures { result ≡ self.now.journal.number }
    {
        self.number
    }

    /// Whether more may happen to the core.
    pub fn is_whole(&self) -> bool
        ensures { IsTrue result ↔ (self.now.stuck ≡ false) }
    {
        !self.stuck
    }

    /// Whether the trail has ended, so that nothing is added to it.
    pub fn has_ended(&self) -> bool
        ensures { result ≡ has_end self.now.journal.events.items }
    {
        self.journal.has_ended()
    }

    /// Whether the lane has room for the entries of an event.
    pub fn has_room(&self) -> bool
        ensures room { IsTrue result → 8 ≤ lane_room self.now.lane }
        ensures no_room { result ≡ false → lane_room self.now.lane < 8 }
    {
        self.lane.room() >= 8
    }

    /// Reads how many entries of this life are firm. They are no fewer than were heard to be stored.
    pub fn look(&mut self) -> u64
        ensures read { result ≡ lane_read self.new.lane }
        ensures heard { lane_heard self.old.lane ≤ result }
        ensures same { (self.new.journal ≡ self.old.journal) × ((self.new.core ≡ self.old.core) × (self.new.stuck ≡ self.old.stuck)) }
    {
        self.lane.firm()
    }

    /// Hears how many entries were stored.
    pub fn hear(&mut self, stored: Stored<EntryText>)
        requires { stored_lane stored ≡ P.lane self.old.journal.number }
        ensures heard { lane_heard self.new.lane ≡ told_stored stored }
        ensures same { (self.new.journal ≡ self.old.journal) × ((self.new.core ≡ self.old.core) × (self.new.stuck ≡ self.old.stuck)) }
    {
        self.lane.hear(stored);
    }

    /// How many entries are firm by what the core was told, those restored among them.
    pub fn firm(&self) -> u64
        ensures { result ≡ self.now.core.node.firm }
    {
        self.core.firm()
    }

    /// Whether the core knows that all its entries are firm.
    pub fn is_firm(&self) -> bool
        ensures { self.now.stuck ≡ false → (IsTrue result ↔ ((replay (core_steps S.meaning) (P.opening self.now.journal.number) self.now.journal.events.items).firm ≡ length (replay (core_steps S.meaning) (P.opening self.now.journal.number) self.now.journal.events.items).entries)) }
    {
        self.core.firm() == self.core.made()
    }

    /// Whether a batch is decided and not yet delivered.
    pub fn waits(&self) -> bool
        ensures { self.now.stuck ≡ false → result ≡ is_some (replay (core_steps S.meaning) (P.opening self.now.journal.number) self.now.journal.events.items).waiting }
    {
        self.core.waits()
    }

    /// Whether the lane tells more firm entries than the core knows.
    pub fn is_told_more(&self, read: u64) -> bool
        ensures more { self.now.stuck ≡ false → IsTrue result → (replay (core_steps S.meaning) (P.opening self.now.journal.number) self.now.journal.events.items).firm - (P.restored self.now.journal.number) < read }
        ensures known { self.now.stuck ≡ false → result ≡ false → read ≤ (replay (core_steps S.meaning) (P.opening self.now.journal.number) self.now.journal.events.items).firm - (P.restored self.now.journal.number) }
    {
        self.core.firm() - self.core.restored().min(self.core.firm()) < read
    }

    /// A copy of the last snapshot for which the core wants a switch, with its place. `None` if and only
    /// if it wants none. Error: want of memory, also where the core is stuck.
    pub fn wanted(&self) -> Result<Option<OwnSnapshot>, AllocError>
        ensures of_trail { IfOk result (λ own. own ≡ wanted (replay (core_steps S.meaning) (P.opening self.now.journal.number) self.now.journal.events.items)) }
        ensures of_life { IfOk result (λ own. IfSome own (λ s. IsWantedOf S.meaning (P.opening self.now.journal.number) s.place s.snapshot)) }
    {
        if self.stuck {
            return Err(AllocError);
        }
        self.core.wanted()
    }

    /// The place of that snapshot; 0 without one.
    pub fn place_wanted(&self) -> u64
        ensures { self.now.stuck ≡ false → result ≡ number_or (option_map (λ own. own.place) (wanted (replay (core_steps S.meaning) (P.opening self.now.journal.number) self.now.journal.events.items))) 0 }
    {
        self.core.place_wanted().get()
    }

    /// The tail of the log beside a checkpoint of a place. Error: want of memory, also where the core is
    /// stuck.
    pub fn tail(&self, place: u64) -> Result<Tail, AllocError>
        ensures of_place { IfOk result (λ tail. IsTailOf S.meaning (P.opening self.now.journal.number) place tail) }
        // It is that of the trail so far.
        ensures of_trail { IfOk result (λ tail. (tail.made ≡ (tail_of (replay (core_steps S.meaning) (P.opening self.now.journal.number) self.now.journal.events.items) place).made) × (tail.entries ≡ (tail_of (replay (core_steps S.meaning) (P.opening self.now.journal.number) self.now.journal.events.items) place).entries)) }
        ensures fit { IfOk result (λ tail. AreEntries tail.entries) }
    {
        if self.stuck || place >= 1 << 63 {
            return Err(AllocError);
        }
        let BookTail { made, entries } = self.core.tail(Place::new(place))?;
        Ok(Tail { made, entries })
    }

    /// Plays an event, and notes it. Gives what the core tells of it. Errors: a failure of the trail's sink;
    /// want of memory.
    pub fn event<R: Wait>(&mut self, rt: &R, event: NodeEvent) -> Result<Outcome, Fault>
        requires whole { (self.old.stuck ≡ false) × (self.old.journal.whole ≡ true) }
        requires going { has_end self.old.journal.events.items ≡ false }
        requires room { 8 ≤ lane_room self.old.lane }
        requires read { IsRead (lane_read self.old.lane) event }
        ensures ok { OnOk result (self.new.journal.events.items ≡ self.old.journal.events.items ++ Happens event ∷ []) }
        ensures whole { OnOk result ((self.new.stuck ≡ false) × (self.new.journal.whole ≡ true)) }
        ensures fired { IfOk result (λ o. o.fired ≡ (core_step S.meaning (replay (core_steps S.meaning) (P.opening self.old.journal.number) self.old.journal.events.items) event).fired) }
        // It is noted, or nothing is.
        ensures events { (count : ℕ) × (self.new.journal.events.items ≡ self.old.journal.events.items ++ take count (Happens event ∷ [])) }
        ensures number { self.new.journal.number ≡ self.old.journal.number }
        ensures read { lane_read self.new.lane ≡ lane_read self.old.lane }
        ensures cause { IsErrOf result Fault.Failed → (self.new.journal.failed ≡ true) × Rose (O.faults self.old.journal.sink) (O.faults self.new.journal.sink) }
    {
        let made = self.core.made();
        self.stuck = true;
        let Ok(outcome) = self.core.step(&event) else {
            return Err(Fault::NoMemory);
        };
        let Ok(texts) = texts_behind(self.alloc, self.core.book(), made) else {
            return Err(Fault::NoMemory);
        };
        put_all(rt, &mut self.lane, texts);
        self.stuck = false;
        self.journal.note(TrailEvent::Happens(event))?;
        Ok(outcome)
    }

    /// Lets the next message leave on the links whose ends are to hear it, and says whether there was one.
    /// `false` if and only if nothing is held or the first message waits for its entries. Errors: as at
    /// `event`. Some links have the message then, and others have not.
    pub fn send<R: Wait>(&mut self, rt: &R, ports: &mut Vec<Port>) -> Result<bool, Fault>
        requires whole { (self.old.stuck ≡ false) × (self.old.journal.whole ≡ true) }
        requires going { has_end self.old.journal.events.items ≡ false }
        requires apart { AreApart (ends ports.old.items) }
        requires carries { Each (Carries self.old.journal.events.items) ports.old.items }
        requires late { DropsLate (ends ports.old.items) [] self.old.journal.events.items }
        ensures ports { (ends ports.new.items ≡ ends ports.old.items) × (port_links ports.new.items ≡ port_links ports.old.items) }
        ensures ok { IfOk result (λ left. MatchBool left
            ((a : Addressed) × IsPosted a (ends ports.old.items) self.old.journal.events.items self.new.journal.events.items)
            ((self.new.journal.events.items ≡ self.old.journal.events.items) × (first_leaving (replay (core_steps S.meaning) (P.opening self.old.journal.number) self.old.journal.events.items).firm (replay (core_steps S.meaning) (P.opening self.old.journal.number) self.old.journal.events.items).held ≡ None))) }
        ensures whole { OnOk result ((self.new.stuck ≡ false) × (self.new.journal.whole ≡ true)) }
        ensures carries { OnOk result (Each (Carries self.new.journal.events.items) ports.new.items) }
        ensures first { Each (CarriesFirst self.new.journal.events.items) ports.new.items }
        ensures late { DropsLate (ends ports.new.items) [] self.new.journal.events.items }
        ensures came { arrivals self.new.journal.events.items ≡ arrivals self.old.journal.events.items }
        ensures number { self.new.journal.number ≡ self.old.journal.number }
        ensures cause { IsErrOf result Fault.Failed → (self.new.journal.failed ≡ true) × Rose (O.faults self.old.journal.sink) (O.faults self.new.journal.sink) }
    {
        self.stuck = true;
        let Some(held) = self.core.release() else {
            self.stuck = false;
            return Ok(false);
        };
        let Ok(parcel) = Parcel::of(self.alloc, addressed_of(held)) else {
            return Err(Fault::NoMemory);
        };
        self.stuck = false;
        post(rt, self.alloc, &mut self.journal, ports, parcel)?;
        Ok(true)
    }

    /// Notes that the trail is whole. Errors: as at `event`.
    pub fn end(&mut self) -> Result<(), Fault>
        requires whole { self.old.journal.whole ≡ true }
        requires going { has_end self.old.journal.events.items ≡ false }
        ensures events { self.new.journal.events.items ≡ self.old.journal.events.items ++ End ∷ [] }
        ensures whole { OnOk result (self.new.journal.whole ≡ true) }
        ensures same { self.new.stuck ≡ self.old.stuck }
        ensures number { self.new.journal.number ≡ self.old.journal.number }
        ensures cause { IsErrOf result Fault.Failed → (self.new.journal.failed ≡ true) × Rose (O.faults self.old.journal.sink) (O.faults self.new.journal.sink) }
    {
        self.journal.note(TrailEvent::End)
    }

    /// The core, its trail with the sink, and the end of the lane.
    pub fn into_parts(self) -> CourseParts<S, O>
        ensures kept { self.stuck ≡ false → (result.core.broken ≡ false) × (result.core.node ≡ replay (core_steps S.meaning) (P.opening self.journal.number) result.journal.events.items) }
        ensures events { (result.journal.events ≡ self.journal.events) × ((result.journal.number ≡ self.journal.number) × (result.stuck ≡ self.stuck)) }
        ensures lane { (in_lane result.lane ≡ (P.lane self.journal.number)) × (lane_put result.lane ≡ made_texts (P.restored self.journal.number) (replay (core_steps S.meaning) (P.opening self.journal.number) result.journal.events.items).entries) }
        ensures firm { (replay (core_steps S.meaning) (P.opening self.journal.number) result.journal.events.items).firm ≤ (P.restored self.journal.number) + lane_read result.lane }
        ensures needs { needed (core_steps S.meaning) (P.opening self.journal.number) result.journal.events.items ≤ (P.restored self.journal.number) + lane_read result.lane }
        ensures released { Released (core_steps S.meaning) (P.opening self.journal.number) result.journal.events.items }
        ensures end_last { IsEndLast result.journal.events.items }
        ensures text { HasFront (P.begun self.journal.number) (O.written result.journal.sink) (trail_text (P.head self.journal.number) (P.entries self.journal.number) result.journal.events.items) }
        ensures all_text { result.journal.whole ≡ true → Appends (P.begun self.journal.number) (O.written result.journal.sink) (trail_text (P.head self.journal.number) (P.entries self.journal.number) result.journal.events.items) }
        ensures noted { (result.journal.whole ≡ self.journal.whole) × (result.journal.failed ≡ self.journal.failed) }
        ensures failed { result.journal.failed ≡ true → Rose (P.failures self.journal.number) (O.faults result.journal.sink) }
        ensures later { P.failures self.journal.number ≤ O.faults result.journal.sink }
    {
        let Course {
            alloc: _,
            number: _,
            core,
            journal,
            lane,
            stuck,
            of: _,
        } = self;
        CourseParts {
            core,
            journal: journal.into_parts(),
            lane,
            stuck,
        }
    }
}
