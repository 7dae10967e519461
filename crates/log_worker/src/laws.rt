//! The laws of the rounds of a worker, over a store that holds its book. They speak of definitions alone.
ghost use Rattle.std.specs.Prelude.{◌≡◌, ◌-◌, ℕ, List, ◌++◌, length, Option, Some, Ok};
ghost use Rattle.store_form.specs.declared.checkpoint.Checkpoint.{Checkpoint};
ghost use Rattle.store_form.specs.declared.ends.State.TheVariants.{Open};
ghost use Rattle.store_laws.specs.Restored.{switched};
ghost use Rattle.store_laws.specs.Stands.{Aim};
ghost use Rattle.store_laws.specs.Tails.{next_of};
ghost use Rattle.store_laws.specs.declared.job.Kept.{Kept};
ghost use Rattle.store_laws.specs.declared.job.Tail.{Tail};
ghost use Rattle.durable_store.specs.BookRuns.{HoldsBook};
ghost use Rattle.durable_store.specs.Stores.{state_of};
ghost use Rattle.durable_store.specs.declared.store.Store.{Store};
ghost use Rattle.log_worker.specs.Rounds.{GroupRounds, Switched};

use disk_model::disk::Disk;
use store_plan::stops::Stops;

/// A store whose disks tell their contents, and that holds its book, holds after rounds the book that
/// they make. A round that writes a group adds what it took. A round that switches begins the book
/// with its tail, and what still waits follows.
pub fn rounds_keep_the_book<D: Disk, E: Stops>()
    // What was restored and what was taken since are the book, over any number of groups.
    ensures taken { (restored : List (List ℕ)) (present : Option Checkpoint) (stake : Kept) (gone n : ℕ) (a : Aim) (taken now : List (List ℕ)) (old new : Store D) → D.told
        → HoldsBook (restored ++ taken) present stake gone (state_of D.cells old) a → GroupRounds D.told D.remembers D.cells D.moment D.left_since E.stops n taken now old new
        → (b : Aim) × HoldsBook (restored ++ now) present stake gone (state_of D.cells new) b }
    ensures switched { (book : List (List ℕ)) (present : Option Checkpoint) (stake : Kept) (gone firm : ℕ) (a : Aim) (snapshot : List ℕ) (tail : Tail) (old new : Store D) → D.told → new.state ≡ Open
        → HoldsBook book present stake gone (state_of D.cells old) a → Switched D.told D.remembers D.cells D.moment D.left_since E.stops (Ok firm) snapshot tail old new
        → (b : Aim) × HoldsBook (tail.entries ++ new.plan.waiting) (Some (next_of old.plan.generation snapshot)) (switched (next_of old.plan.generation snapshot) tail.entries)
        (new.plan.firm - length tail.entries) (state_of D.cells new) b }
{}
