//! The accepts of places that are not yet made.
ghost use Rattle.std.specs.Prelude.{◌≡◌, ◌++◌, ◌∷◌, [], length, take, filter, slice_get, OnOk, OnErr};
ghost use Rattle.vote_book.specs.BookIndex.{is_open, is_open_for, is_greater, greatest_open};

use smart_base::number::{Place, ViewNo};
use smart_statements::statement::Slot;
use std::alloc::{AllocError, Global};
use std::marker::Model;

/// An accept by the index of its entry.
#[derive(Clone, Copy)]
pub struct OpenAccept {
    pub index: usize,
    pub slot: Slot,
}

/// Accepts, in the order of their entries.
pub struct OpenAccepts {
    list: Vec<OpenAccept>,
}

/// Let go by one call, so that no function that lets one go carries the whole of it.
impl Drop for OpenAccepts {
    fn drop(self) {
        let OpenAccepts { list: _ } = self;
    }
}

impl Model for OpenAccepts {
    ghost use Rattle.std.specs.Prelude.{List};
    ghost use Rattle.vote_book.specs.declared.book.accepts.OpenAccept.{OpenAccept};

    ghost Value = { List OpenAccept };

    ghost view = { λ a. a.list.items };
}

fn is_open(place: Place, accept: &OpenAccept) -> bool
    ensures { result ≡ is_open place accept.now }
{
    place.get() < accept.slot.place.get()
}

impl OpenAccepts {
    pub fn new(alloc: Global) -> Self
        ensures { result ≡ [] }
    {
        OpenAccepts {
            list: Vec::new(alloc),
        }
    }

    pub fn len(&self) -> usize
        ensures { result ≡ length self.now }
    {
        self.list.len()
    }

    /// Adds the accept of a slot by the index of its entry.
    pub fn add(&mut self, index: usize, slot: &Slot) -> Result<(), AllocError>
        ensures ok { OnOk result (self.new ≡ self.old ++ record { index = index; slot = slot.now } ∷ []) }
        ensures err { OnErr result (self.new ≡ self.old) }
    {
        self.list.push(OpenAccept { index, slot: *slot })?;
        Ok(())
    }

    /// Keeps the first ones alone.
    pub fn truncate(&mut self, count: usize)
        ensures { self.new ≡ take count self.old }
    {
        self.list.truncate(count);
    }

    /// Keeps those of places past this one.
    pub fn keep_open(&mut self, place: Place)
        ensures { self.new ≡ filter (is_open place) self.old }
    {
        self.list.retain(|accept| is_open(place, accept));
    }

    /// The first of those of greatest regency for a place of a view.
    pub fn greatest(&self, view: ViewNo, place: u64) -> Option<OpenAccept>
        ensures { result ≡ greatest_open view place self.now }
    {
        let mut greatest = None;
        for accept in self.list.as_slice() {
            if is_for(view, place, accept) && is_greater(&greatest, accept) {
                greatest = Some(OpenAccept {
                    index: accept.index,
                    slot: accept.slot,
                });
            }
        }
        greatest
    }

    /// The one at an index among those for a place of a view.
    pub fn nth(&self, view: ViewNo, place: u64, index: usize) -> Option<OpenAccept>
        ensures { result ≡ slice_get (filter (is_open_for view place) self.now) index }
    {
        let mut left = index;
        for accept in self.list.as_slice() {
            if is_for(view, place, accept) {
                if left == 0 {
                    return Some(OpenAccept {
                        index: accept.index,
                        slot: accept.slot,
                    });
                }
                left -= 1;
            }
        }
        None
    }
}

/// Whether an accept is for a place of a view.
fn is_for(view: ViewNo, place: u64, accept: &OpenAccept) -> bool
    ensures { result ≡ is_open_for view place accept.now }
{
    accept.slot.view == view && accept.slot.place.get() == place
}

/// Whether an accept is of greater regency than the one found so far, if there is one.
fn is_greater(greatest: &Option<OpenAccept>, accept: &OpenAccept) -> bool
    ensures { result ≡ is_greater greatest.now accept.now }
{
    match greatest {
        Some(greatest) => greatest.slot.regency.get() < accept.slot.regency.get(),
        None => true,
    }
}
