//! The laws of a store that is not asked to switch, over any run of calls, and of its opening. They speak
//! of definitions alone.
ghost use Rattle.std.specs.Prelude.{◌≡◌, ◌≤◌, ◌<◌, ◌-◌, ◌⊎◌, ℕ, Bool, false, List, [], ◌++◌, length, Option, Some};
ghost use Rattle.store_form.specs.declared.checkpoint.Checkpoint.{Checkpoint};
ghost use Rattle.checkpoint_store.specs.Slots.{generation_of};
ghost use Rattle.store_laws.specs.Restored.{Images, restores, with, switched};
ghost use Rattle.store_laws.specs.States.{StoreState, greatest, is_due, given, asked, MayLeave, store_opened};
ghost use Rattle.store_laws.specs.Lives.{StoreWire};
ghost use Rattle.store_laws.specs.Runs.{called_times, RunFits, CallLeaves, RunLeaves};
ghost use Rattle.store_laws.specs.Stands.{Aim, at_rest};
ghost use Rattle.store_laws.specs.Tails.{next_of};
ghost use Rattle.store_laws.specs.declared.job.Kept.{Kept};
ghost use Rattle.store_laws.specs.declared.job.Tail.{Tail};
ghost use Rattle.durable_store.specs.BookRuns.{HoldsBook, BookNext, HasFirm, IsFrontOr, firm_then};
ghost use Rattle.durable_store.specs.Runs.{unasks, EndsWithSwitch};
ghost use Rattle.durable_store.specs.Disks.{contents};
ghost use Rattle.durable_store.specs.Streams.{entries_to_come, Gives};
ghost use Rattle.durable_store.specs.declared.opening.Opening.{Opening};

use disk_model::disk::Disk;

/// A store holds its book: what it restored, and what it was given, in order. Any run of calls that
/// go well keeps it so. Once no call is due, each crash restores the book but for what still waits.
/// After a whole switch it holds the book that begins with the tail.
pub fn a_run_keeps_its_book()
    ensures opened { (images : Images) (kept other : Kept) (next : Checkpoint) → StoreWire images kept other → HoldsBook kept.entries kept.present other 0 (store_opened images) (at_rest kept other next) }
    ensures given { (book : List (List ℕ)) (present : Option Checkpoint) (stake : Kept) (gone : ℕ) (s : StoreState) (a : Aim) (entries : List (List ℕ)) → HoldsBook book present stake gone s a
        → HoldsBook (book ++ entries) present stake gone (given entries s) a }
    ensures keeps { (stops : List ℕ → Bool) (tail : Tail) (book : List (List ℕ)) (present : Option Checkpoint) (stake : Kept) (gone n : ℕ) (s : StoreState) (a : Aim) → HoldsBook book present stake gone s a → RunFits stops tail n s
        → (b : Aim) × HoldsBook book present stake gone (called_times stops tail n s) b }
    // What was given becomes firm, and nothing else does.
    ensures firm { (stops : List ℕ → Bool) (tail : Tail) (book : List (List ℕ)) (present : Option Checkpoint) (stake : Kept) (gone n : ℕ) (s : StoreState) (a : Aim) → HoldsBook book present stake gone s a → RunFits stops tail n s
        → firm_then (called_times stops tail n s) ≡ firm_then s }
    ensures done { (stops : List ℕ → Bool) (tail : Tail) (book : List (List ℕ)) (present : Option Checkpoint) (stake : Kept) (gone : ℕ) (s : StoreState) (a : Aim) → HoldsBook book present stake gone s a → is_due stops s ≡ false
        → (images : Images) → MayLeave s.devices images → with (restores images) s.waiting ≡ record { present = present; entries = book } }
    // After a whole switch the book is the tail, and what still waits. Nothing else is at stake. Gone are as many as are firm beyond the number of the tail's entries.
    ensures switched { (stops : List ℕ → Bool) (tail : Tail) (book : List (List ℕ)) (present : Option Checkpoint) (stake : Kept) (gone n : ℕ) (s : StoreState) (a : Aim) (snapshot : List ℕ) → HoldsBook book present stake gone s a
        → RunFits stops tail n (asked snapshot s) → EndsWithSwitch stops tail n (asked snapshot s)
        → (b : Aim) × HoldsBook (tail.entries ++ (called_times stops tail n (asked snapshot s)).waiting) (Some (next_of s.generation snapshot)) (switched (next_of s.generation snapshot) tail.entries)
        ((called_times stops tail n (asked snapshot s)).firm - length tail.entries) (called_times stops tail n (asked snapshot s)) b }
    // What still waits then are the last entries of the book before.
    ensures left { (stops : List ℕ → Bool) (tail : Tail) (book : List (List ℕ)) (present : Option Checkpoint) (stake : Kept) (gone n : ℕ) (s : StoreState) (a : Aim) (snapshot : List ℕ) → HoldsBook book present stake gone s a
        → RunFits stops tail n (asked snapshot s) → EndsWithSwitch stops tail n (asked snapshot s) → s.firm ≤ greatest
        → (front : List (List ℕ)) × (front ++ (called_times stops tail n (asked snapshot s)).waiting ≡ book) }
{}

/// A crash at any moment of a run, whether its last call goes well or fails, leaves bytes with which
/// the next life begins. They restore a front of the book, or what was at stake when the run began.
/// What is restored begins with the firm entries, but for those that are gone, or is of a later
/// generation.
pub fn a_run_leaves_its_book()
    ensures leaves { (stops : List ℕ → Bool) (tail : Tail) (book : List (List ℕ)) (present : Option Checkpoint) (stake : Kept) (gone n : ℕ) (s : StoreState) (a : Aim) → HoldsBook book present stake gone s a → RunFits stops tail n s
        → (images : Images) → RunLeaves stops tail n s images → BookNext book present stake images }
    ensures restores { (book : List (List ℕ)) (present : Option Checkpoint) (stake : Kept) (images : Images) → BookNext book present stake images → IsFrontOr book present stake (restores images) }
    // A crash before the next call, or at a moment of it.
    ensures counted { (stops : List ℕ → Bool) (tail : Tail) (book : List (List ℕ)) (present : Option Checkpoint) (stake : Kept) (gone : ℕ) (s : StoreState) (a : Aim) → HoldsBook book present stake gone s a → s.firm ≤ greatest
        → (images : Images) → CallLeaves stops tail s images → (generation_of present < generation_of (restores images).present) ⊎ HasFirm book present gone s.firm (restores images) }
{}

/// A switch that waits, and does not run yet, changes nothing of the other calls: the store goes on as
/// one that was not asked. So it holds its book all the same.
pub fn a_switch_that_waits_changes_nothing()
    ensures asked { (s : StoreState) (snapshot : List ℕ) → unasks (asked snapshot s) ≡ unasks s }
    ensures same { (stops : List ℕ → Bool) (tail : Tail) (n : ℕ) (s : StoreState) (snapshot : List ℕ) → (called_times stops tail n s).asked ≡ Some snapshot
        → unasks (called_times stops tail n s) ≡ called_times stops tail n (unasks s) }
    ensures fits { (stops : List ℕ → Bool) (tail : Tail) (n : ℕ) (s : StoreState) (snapshot : List ℕ) → (called_times stops tail n s).asked ≡ Some snapshot → RunFits stops tail n s → RunFits stops tail n (unasks s) }
    ensures keeps { (stops : List ℕ → Bool) (tail : Tail) (book : List (List ℕ)) (present : Option Checkpoint) (stake : Kept) (gone n : ℕ) (s : StoreState) (a : Aim) (snapshot : List ℕ) → HoldsBook book present stake gone (unasks s) a → RunFits stops tail n s
        → (called_times stops tail n s).asked ≡ Some snapshot → (b : Aim) × HoldsBook book present stake gone (unasks (called_times stops tail n s)) b }
    // A crash after these calls leaves bytes with which the next life begins.
    ensures leaves { (stops : List ℕ → Bool) (tail : Tail) (book : List (List ℕ)) (present : Option Checkpoint) (stake : Kept) (gone n : ℕ) (s : StoreState) (a : Aim) (snapshot : List ℕ) → HoldsBook book present stake gone (unasks s) a → RunFits stops tail n s
        → (called_times stops tail n s).asked ≡ Some snapshot → (images : Images) → MayLeave (called_times stops tail n s).devices images → BookNext book present stake images }
{}

/// The entries that the opening of a store gives as a stream, one after the other until none is to
/// come, are those that `reopen` gives.
pub fn a_stream_gives_what_is_reopened<D: Disk>()
    ensures all { (entries : List (List ℕ)) (first last : Opening D) → first.reader.restored ≡ 0 → Gives D.cells entries first last → entries_to_come D.cells last ≡ [] → entries ≡ (restores (contents D.cells first.disks)).entries }
    // From any entry on.
    ensures rest { (entries : List (List ℕ)) (first last : Opening D) → Gives D.cells entries first last → entries_to_come D.cells last ≡ [] → entries ≡ entries_to_come D.cells first }
{}
