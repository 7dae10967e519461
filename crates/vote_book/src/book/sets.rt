//! Sets of slots and of places.
ghost use Rattle.std.specs.Prelude.{◌≡◌, ◌||◌, ℕ, nat_eq, [], OnOk, OnErr};
ghost use Rattle.smart_statements.specs.Equality.{same_slot};
ghost use Rattle.vote_book.specs.BookIndex.{has_slot, has_place};
ghost use Rattle.smart_statements.specs.declared.statement.Slot.{Slot};

use indexmap::IndexSet;
use smart_base::number::{Regency, ViewNo};
use smart_statements::statement::Slot;
use std::alloc::{AllocError, Global};
use std::marker::Model;

/// A set of slots, each by its view, place and regency.
pub struct SlotSet {
    slots: IndexSet<(u32, u64, u32)>,
}

/// Let go by one call, so that no function that lets one go carries the whole of it.
impl Drop for SlotSet {
    fn drop(self) {
        let SlotSet { slots: _ } = self;
    }
}

impl Model for SlotSet {
    ghost use Rattle.std.specs.Prelude.{ℕ, List};

    ghost Value = { List (ℕ × ℕ × ℕ) };

    ghost view = { λ s. s.slots.keys };
}

/// A slot as a key of a set.
fn key(slot: &Slot) -> (u32, u64, u32)
    ensures { result ≡ (slot.now.view, slot.now.place, slot.now.regency) }
{
    (slot.view.get(), slot.place.get(), slot.regency.get())
}

impl SlotSet {
    pub fn new(alloc: Global) -> Self
        ensures { result ≡ [] }
    {
        SlotSet {
            slots: IndexSet::new(alloc),
        }
    }

    pub fn has(&self, slot: &Slot) -> bool
        ensures { result ≡ has_slot self.now slot.now }
    {
        self.slots.contains(&key(slot))
    }

    /// Whether the slot of a view, a place and a regency is there. The place may be one past the last.
    pub fn has_at(&self, view: ViewNo, place: u64, regency: Regency) -> bool
        ensures { result ≡ has_slot self.now (record { view = view; place = place; regency = regency }) }
    {
        self.slots.contains(&(view.get(), place, regency.get()))
    }

    pub fn add(&mut self, slot: &Slot) -> Result<(), AllocError>
        ensures ok { OnOk result ((other : Slot) → has_slot self.new other ≡ (has_slot self.old other || same_slot slot.now other)) }
        ensures err { OnErr result (self.new ≡ self.old) }
    {
        self.slots.insert_full(key(slot))?;
        Ok(())
    }
}

/// A set of places.
pub struct PlaceSet {
    places: IndexSet<u64>,
}

/// Let go by one call, so that no function that lets one go carries the whole of it.
impl Drop for PlaceSet {
    fn drop(self) {
        let PlaceSet { places: _ } = self;
    }
}

impl Model for PlaceSet {
    ghost use Rattle.std.specs.Prelude.{ℕ, List};

    ghost Value = { List ℕ };

    ghost view = { λ s. s.places.keys };
}

impl PlaceSet {
    pub fn new(alloc: Global) -> Self
        ensures { result ≡ [] }
    {
        PlaceSet {
            places: IndexSet::new(alloc),
        }
    }

    pub fn has(&self, place: u64) -> bool
        ensures { result ≡ has_place self.now place }
    {
        self.places.contains(&place)
    }

    pub fn add(&mut self, place: u64) -> Result<(), AllocError>
        ensures ok { OnOk result ((other : ℕ) → has_place self.new other ≡ (has_place self.old other || nat_eq other place)) }
        ensures err { OnErr result (self.new ≡ self.old) }
    {
        self.places.insert_full(place)?;
        Ok(())
    }
}
