//! The laws of a log over all lives. They speak of definitions alone.
ghost use Rattle.std.specs.Prelude.{◌≡◌, List, ℕ, []};
ghost use Rattle.disk_model.specs.Cells.{Cells, IsImage, settled};
ghost use Rattle.store_form.specs.Spelling.{Group};
ghost use Rattle.batch_log.specs.Log.{restored};
ghost use Rattle.batch_log.specs.Jobs.{Stands, IsIdle, LeavesEither};
ghost use Rattle.batch_log.specs.Wires.{Wire, Next, Wired};
ghost use Rattle.batch_log.specs.declared.job.Job.{Job};

/// A crash between two calls leaves one of the two that the log stands for.
pub fn a_crash_leaves_either()
    ensures { (cells : Cells) (end : ℕ) (job : Job) (g : Group) (gs other : List Group) → Stands cells end job g gs other → LeavesEither cells gs other }
{}

/// A crash leaves a log of its own lives again, if only crashes of its own lives have changed it.
/// What a torn gate may bring back is no more than what this life might have left.
pub fn a_crash_leaves_a_log()
    ensures { (cells : Cells) (end : ℕ) (job : Job) (g : Group) (gs other : List Group) → Stands cells end job g gs other → Wired cells gs
        → (image : List ℕ) → IsImage cells image → Next image gs other }
{}

/// The bytes of a log that only crashes of its own lives have changed restore the groups that are
/// claimed of them.
pub fn a_log_restores()
    ensures { (bytes : List ℕ) (gs other : List Group) → Wire bytes gs other → restored bytes ≡ gs }
{}

/// A log that is opened over those bytes stands for the very pair that is claimed of them. What a
/// torn gate may bring back is what the life before might have left.
pub fn a_log_is_opened_as_it_was()
    ensures { (bytes : List ℕ) (gs other : List Group) → Wire bytes gs other
        → (cells : Cells) (end : ℕ) (job : Job) (g : Group) (kept instead : List Group) → cells ≡ settled bytes → IsIdle job
        → Stands cells end job g kept instead → (kept ≡ gs) × (instead ≡ other) }
{}

/// An empty device is a log of its own lives.
pub fn an_empty_log()
    ensures { Wire [] [] [] }
{}
