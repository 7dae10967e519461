//! The trail of a party as a list, and the sink that gets its text.
ghost use Rattle.std.specs.Prelude.{◌≡◌, ◌≤◌, ◌<◌, ◌^◌, ◌++◌, ◌∷◌, [], true, length, vec_len, vec_capacity, IfOk, OnOk};
ghost use Rattle.std.specs.Io.KnownBytes.{Appends};
ghost use Rattle.faults.specs.Counts.{Rose};
ghost use Rattle.trail.specs.Events.{event_text};
ghost use Rattle.trail.specs.Trails.{trail_text};
ghost use Rattle.group_ends.specs.Journals.{HasFront, front_prop, whole_prop, is_end, has_end, IsEndLast, end_last_prop};

use crate::owner::Owner;
use crate::text::{short_text, write_part};
use faults::Fault;
use smart_base::sequence::Bytes;
use smart_io::stream::Sink;
use std::alloc::{AllocError, Global};
use std::marker::PhantomData;
use trail::event::TrailEvent;

/// All that happened to a party, and the sink of its trail. A sink that tells its bytes has the text of
/// the trail. After a call has failed it has a front of that. Once the trail has ended, nothing is added to it.
pub struct Journal<P: Owner, O: Sink> {
    pub(crate) alloc: Global,
    /// The number of the party.
    pub(crate) number: u16,
    pub(crate) events: Vec<TrailEvent>,
    pub(crate) sink: O,
    /// Whether the sink has failed.
    pub(crate) failed: bool,
    /// Whether no call has failed.
    pub(crate) whole: bool,
    /// Whether the trail has ended.
    pub(crate) ended: bool,
    of: PhantomData<P>,
    pub ghost room: { whole ≡ true → vec_len events < vec_capacity events },
    pub ghost text: { HasFront (P.begun number) (O.written sink) (trail_text (P.head number) (P.entries number) events.items) } by { front_prop (P.begun number) (O.written sink) (trail_text (P.head number) (P.entries number) events.items) },
    pub ghost all_text: { whole ≡ true → Appends (P.begun number) (O.written sink) (trail_text (P.head number) (P.entries number) events.items) } by { whole_prop whole (P.begun number) (O.written sink) (trail_text (P.head number) (P.entries number) events.items) },
    pub ghost later: { P.failures number ≤ O.faults sink },
    pub ghost cause: { failed ≡ true → Rose (P.failures number) (O.faults sink) },
    pub ghost ends: { ended ≡ has_end events.items },
    pub ghost end_last: { IsEndLast events.items } by { end_last_prop events.items },
}

/// What is left of a journal.
pub struct JournalParts<O: Sink> {
    pub number: u16,
    pub events: Vec<TrailEvent>,
    pub sink: O,
    pub failed: bool,
    pub whole: bool,
}

/// Whether an event says that its trail is whole.
fn is_end(event: &TrailEvent) -> bool
    ensures { result ≡ is_end event.now }
{
    match event {
        TrailEvent::Happens(_) => false,
        TrailEvent::Send(_) => false,
        TrailEvent::Lost(_) => false,
        TrailEvent::Polls(_) => false,
        TrailEvent::End => true,
    }
}

/// Puts an event behind a trail that has room for it, and gives its bytes, fewer than 2^32. Error: want of
/// memory, also for an event with more.
fn push(alloc: Global, events: &mut Vec<TrailEvent>, event: TrailEvent) -> Result<Bytes, AllocError>
    requires { vec_len events.old < vec_capacity events.old }
    ensures events { events.new.items ≡ events.old.items ++ event ∷ [] }
    ensures room { OnOk result (vec_len events.new < vec_capacity events.new) }
    ensures text { IfOk result (λ text. text ≡ event_text event) }
    ensures short { IfOk result (λ text. length text < 2 ^ 32) }
{
    let text = short_text(alloc, &event);
    events.push_reserved(event);
    events.reserve(1)?;
    text
}

/// Let go by one call, so that no function that lets one go carries the whole of it.
impl<P: Owner, O: Sink + Drop> Drop for Journal<P, O> {
    fn drop(self) {
        let Journal {
            alloc: _,
            number: _,
            events: _,
            sink: _,
            failed: _,
            whole: _,
            ended: _,
            of: _,
        } = self;
    }
}

impl<P: Owner, O: Sink> Journal<P, O> {
    ghost use Rattle.std.specs.Prelude.{◌≡◌, ◌≤◌, ◌++◌, ◌∷◌, [], ℕ, true, false, take, IfOk, IfErr, OnOk, OnErr, IsErrOf};
    ghost use Rattle.std.specs.Io.KnownBytes.{Appends};
    ghost use Rattle.faults.specs.Counts.{Rose};
    ghost use Rattle.trail.specs.Trails.{trail_text};
    ghost use Rattle.group_ends.specs.Journals.{HasFront, is_end, has_end, IsEndLast};

    /// A journal of nothing yet, over a sink that has the head of the trail. Error: want of memory; the
    /// sink comes back.
    pub fn new(alloc: Global, number: u16, sink: O) -> Result<Journal<P, O>, O>
        requires sink { Appends (P.begun number) (O.written sink) (trail_text (P.head number) (P.entries number) []) }
        requires later { P.failures number ≤ O.faults sink }
        ensures ok { IfOk result (λ j. (j.number ≡ number) × ((j.events.items ≡ []) × (j.whole ≡ true))) }
        ensures back { IfErr result (λ same. same ≡ sink) }
    {
        let mut events = Vec::new(alloc);
        if events.reserve(1).is_err() {
            return Err(sink);
        }
        Ok(Journal {
            alloc,
            number,
            events,
            sink,
            failed: false,
            whole: true,
            ended: false,
            of: PhantomData,
        })
    }

    /// Whether the trail has ended, so that nothing is added to it.
    pub fn has_ended(&self) -> bool
        ensures { result ≡ has_end self.now.events.items }
    {
        self.ended
    }

    /// Notes an event, and gives its text to the sink. The event is noted in any case. Errors: a failure
    /// of the sink; want of memory.
    pub fn note(&mut self, event: TrailEvent) -> Result<(), Fault>
        requires whole { self.old.whole ≡ true }
        requires going { has_end self.old.events.items ≡ false }
        ensures number { self.new.number ≡ self.old.number }
        ensures events { self.new.events.items ≡ self.old.events.items ++ event ∷ [] }
        ensures ended { has_end self.new.events.items ≡ is_end event }
        ensures whole { OnOk result (self.new.whole ≡ true) }
        ensures later { O.faults self.old.sink ≤ O.faults self.new.sink }
        ensures cause { IsErrOf result Fault.Failed → (self.new.failed ≡ true) × Rose (O.faults self.old.sink) (O.faults self.new.sink) }
    {
        self.whole = false;
        self.ended = is_end(&event);
        let Ok(text) = push(self.alloc, &mut self.events, event) else {
            return Err(Fault::NoMemory);
        };
        write_part(&mut self.sink, &mut self.failed, text.as_slice())?;
        self.whole = true;
        Ok(())
    }

    /// Notes events in order, until a call fails. No End is among them. Errors: as at `note`.
    pub fn note_each(&mut self, events: Vec<TrailEvent>) -> Result<(), Fault>
        requires whole { self.old.whole ≡ true }
        requires going { has_end self.old.events.items ≡ false }
        requires none { has_end events.items ≡ false }
        ensures number { self.new.number ≡ self.old.number }
        ensures ok { OnOk result (self.new.events.items ≡ self.old.events.items ++ events.items) }
        ensures whole { OnOk result (self.new.whole ≡ true) }
        ensures err { OnErr result ((count : ℕ) × (self.new.events.items ≡ self.old.events.items ++ take count events.items)) }
        ensures going { has_end self.new.events.items ≡ false }
        ensures later { O.faults self.old.sink ≤ O.faults self.new.sink }
        ensures cause { IsErrOf result Fault.Failed → (self.new.failed ≡ true) × Rose (O.faults self.old.sink) (O.faults self.new.sink) }
    {
        for event in events {
            self.note(event)?;
        }
        Ok(())
    }

    /// The trail, its sink, whether the sink has failed, and whether no call has failed.
    pub fn into_parts(self) -> JournalParts<O>
        ensures events { (result.number ≡ self.number) × (result.events ≡ self.events) }
        ensures same { (result.failed ≡ self.failed) × (result.whole ≡ self.whole) }
        ensures text { HasFront (P.begun self.number) (O.written result.sink) (trail_text (P.head self.number) (P.entries self.number) result.events.items) }
        ensures all_text { result.whole ≡ true → Appends (P.begun self.number) (O.written result.sink) (trail_text (P.head self.number) (P.entries self.number) result.events.items) }
        ensures later { P.failures self.number ≤ O.faults result.sink }
        ensures cause { result.failed ≡ true → Rose (P.failures self.number) (O.faults result.sink) }
        ensures end_last { IsEndLast result.events.items }
    {
        let Journal {
            alloc: _,
            number,
            events,
            sink,
            failed,
            whole,
            ended: _,
            of: _,
        } = self;
        JournalParts {
            number,
            events,
            sink,
            failed,
            whole,
        }
    }
}
