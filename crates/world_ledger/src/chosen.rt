//! The chosen list of batches, and the views behind it.
ghost use Rattle.std.specs.Prelude.{◌≡◌, ◌+◌, ◌++◌, [], ◌∷◌, IfOk, OnOk, length};
ghost use Rattle.std.specs.Option.{option_copied};
ghost use Rattle.replica_rules.specs.Replicas.{views_after};
ghost use Rattle.world_rules.specs.Worlds.{chosen_with};

use crate::managed::Managed;
use smart_base::duplicate::Duplicate;
use smart_base::number::Place;
use smart_base::view::View;
use smart_statements::batch::Batch;
use std::alloc::{AllocError, Global};
use std::marker::Model;

/// The view that a group begins with, and the batch that was decided first at each place, from 1. What
/// the view manager's requests make of these is kept, so that nobody walks the list for its views.
pub struct Chosen {
    first: View,
    list: Vec<Batch>,
    made: Managed,
}

/// Let go by one call, so that no function that lets one go carries the whole of it.
impl Drop for Chosen {
    fn drop(self) {
        let Chosen {
            first: _,
            list: _,
            made: _,
        } = self;
    }
}

impl Model for Chosen {
    ghost use Rattle.std.specs.Prelude.{◌≡◌};
    ghost use Rattle.replica_rules.specs.Replicas.{managed};
    ghost use Rattle.world_ledger.specs.Choices.{Choices};

    ghost Value = { Choices };

    ghost view = { λ c. record { first = c.first; list = c.list.items } };

    ghost invariant = { λ c. c.made ≡ managed c.first c.list.items };
}

impl Chosen {
    /// The list before any batch is decided. Error: want of memory.
    pub fn new(alloc: Global, first: View) -> Result<Self, AllocError>
        ensures { IfOk result (λ c. c ≡ record { first = first; list = [] }) }
    {
        let made = Managed::new(alloc, first.duplicate(alloc)?)?;
        Ok(Chosen {
            first,
            list: Vec::new(alloc),
            made,
        })
    }

    /// The view that the group begins with.
    pub fn first(&self) -> &View
        ensures { result.now ≡ self.now.first }
    {
        &self.first
    }

    /// The batches, in the order of their places.
    pub fn as_slice(&self) -> &[Batch]
        ensures { result.now ≡ self.now.list }
    {
        self.list.as_slice()
    }

    /// The views behind the list, the present one last.
    #[tactic(auto, unfolding(replica_rules::specs::Replicas::views_after))]
    pub fn views(&self) -> &[View]
        ensures { result.now ≡ views_after self.now.first self.now.list }
    {
        self.made.views()
    }

    /// Adds a batch at the next place. Without memory the list is unchanged.
    fn push(&mut self, alloc: Global, place: Place, batch: Batch) -> Result<(), AllocError>
        requires { place ≡ length self.old.list + 1 }
        ensures { OnOk result (self.new ≡ record self.old { list = self.old.list ++ batch ∷ [] }) }
    {
        let made = self.made.after(alloc, place, &batch)?;
        self.list.push(batch)?;
        self.made = made;
        Ok(())
    }

    /// Adds a batch that waits at a place, if the list ends before that place. Error: want of memory.
    pub fn choose(
        &mut self,
        alloc: Global,
        place: u64,
        waiting: Option<&Batch>,
    ) -> Result<(), AllocError>
        ensures { OnOk result (self.new ≡ record self.old { list = chosen_with self.old.list place (option_copied waiting.entry) }) }
    {
        if let Some(batch) = waiting {
            if place == self.list.len() as u64 + 1 {
                // So many batches fit no memory.
                if place >= 1 << 63 {
                    return Err(AllocError);
                }
                self.push(alloc, Place::new(place), batch.duplicate(alloc)?)?;
            }
        }
        Ok(())
    }
}
