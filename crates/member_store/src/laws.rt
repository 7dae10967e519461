//! What a member's store has of its node's book, over all its lives.
ghost use Rattle.std.specs.Prelude.{◌≡◌, ◌++◌, ◌∷◌, ◌+◌, ◌≤◌, ◌<◌, ◌-◌, ◌^◌, ◌&&◌, ℕ, max, Bool, true, not, is_some, length, map, if◌then◌else◌, List, [], None, IfSome};
ghost use Rattle.smart_base.specs.Lists.{Each};
ghost use Rattle.store_form.specs.Spelling.{IsEntry};
ghost use Rattle.vote_book.specs.Entries.{FitsEntry, entry_text};
ghost use Rattle.vote_book.specs.declared.entry.LogEntry.{LogEntry};
ghost use Rattle.book_laws.specs.BookCuts.{cut_at};
ghost use Rattle.store_laws.specs.Restored.{Images};
ghost use Rattle.store_laws.specs.States.{StoreState, greatest, MayLeave, due_job, wants_tail, store_called, given, asked, store_opened};
ghost use Rattle.store_laws.specs.Runs.{CallFits};
ghost use Rattle.store_laws.specs.Logs.{counted};
ghost use Rattle.store_laws.specs.declared.job.Kept.{Kept};
ghost use Rattle.store_laws.specs.declared.job.Tail.{Tail};
ghost use Rattle.store_laws.specs.Lives.{no_bytes};
ghost use Rattle.store_laws.specs.Stops.{is_installed};
ghost use Rattle.world_rules.specs.Crashes.{images_left, wrong_images, still_aside};
ghost use Rattle.world_rules.specs.declared.crash.Image.{Image};
ghost use Rattle.world_rules.specs.Fronts.{checkpoint_place};
ghost use Rattle.member_store.specs.Cuts.{asked_place, IsFrontOf, EndsAtInstalls, HoldsWritten, LeavesFront, place_then, GivesTail};

/// The bytes that a script names are bytes that a crash may leave if and only if no byte of them is
/// wrong.
pub fn no_byte_is_wrong()
    ensures may { (s : StoreState) (left : Images) → wrong_images s left ≡ None → MayLeave s.devices left }
    ensures none { (s : StoreState) (left : Images) → MayLeave s.devices left → wrong_images s left ≡ None }
{}

/// A store that may switch holds all that its member has written: a front of it, cut at the place of
/// its checkpoint, and the rest. Empty devices hold an empty book. What is given comes after the book,
/// and a switch that is asked for changes nothing of it. A device call does not either. A tail that it
/// writes has to be the cut of the book's front up to the first entry that installs a later place. Each
/// group has to end before an entry that installs. Thus no installation is firm before a checkpoint of
/// its place or a later one.
pub fn a_store_holds_what_is_written()
    ensures empty { (all : List (List ℕ)) (place : ℕ) → HoldsWritten all (store_opened no_bytes) 0 0 place [] [] }
    ensures given { (all : List (List ℕ)) (s : StoreState) (past top place : ℕ) (book aside entries : List LogEntry) → HoldsWritten all s past top place book aside → length (book ++ entries) ≤ greatest
        → HoldsWritten all (given (map entry_text entries) s) past top place (book ++ entries) aside }
    ensures asked { (all : List (List ℕ)) (s : StoreState) (past top place : ℕ) (book aside : List LogEntry) (snapshot : List ℕ) → HoldsWritten all s past top place book aside
        → HoldsWritten (snapshot ∷ all) (asked snapshot s) past top place book aside }
    ensures called { (all : List (List ℕ)) (stops : List ℕ → Bool) (s : StoreState) (past top place : ℕ) (book aside : List LogEntry) (tail : Tail) → HoldsWritten all s past top place book aside → CallFits stops tail s
        → GivesTail s place book tail → EndsAtInstalls stops → HoldsWritten all (store_called stops tail s) past (max top (place_then stops s place)) (place_then stops s place) book (still_aside (store_called stops tail s) aside) }
    ensures firm { (all : List (List ℕ)) (stops : List ℕ → Bool) (s : StoreState) (past top place : ℕ) (book aside : List LogEntry) (tail : Tail) → HoldsWritten all s past top place book aside
        → s.firm ≤ (store_called stops tail s).firm }
    ensures counted { (all : List (List ℕ)) (s : StoreState) (past top place : ℕ) (book aside : List LogEntry) → HoldsWritten all s past top place book aside → counted s + past ≡ length book }
    // Its place is that of the switch which waited until this call, if one did.
    ensures place { (stops : List ℕ → Bool) (s : StoreState) (place : ℕ) (tail : Tail) → place_then stops s place ≡ (if is_some s.asked && not (is_some (store_called stops tail s).asked) then asked_place s.asked else place) }
{}

/// A crash between two calls leaves a front of one book, cut at the place of a checkpoint, all that is
/// firm among it. What it leaves opens as a store that holds this front. The book is what this life has
/// written, or an earlier one until no gate is torn.
pub fn a_crash_leaves_a_front()
    ensures { (all : List (List ℕ)) (s : StoreState) (past top place : ℕ) (book aside : List LogEntry) (left : Images) → HoldsWritten all s past top place book aside → MayLeave s.devices left → LeavesFront all s past book aside left }
{}

/// How many first entries of a book are kept follows from the lengths: as many are missing as the log
/// is shorter than the cut of the whole book.
pub fn a_front_is_counted()
    ensures { (kept : Kept) (book : List LogEntry) (count : ℕ) → IsFrontOf kept book count → length book - (length (cut_at (checkpoint_place kept.present) book) - length kept.entries) ≡ count }
{}

/// Let the book and the tail be few entries with spellings, and a snapshot that waits be short. Then what
/// the next call writes has a spelling.
pub fn what_is_written_has_a_spelling()
    ensures { (all : List (List ℕ)) (s : StoreState) (past top place : ℕ) (book aside entries : List LogEntry) (tail : Tail) → HoldsWritten all s past top place book aside
        → Each FitsEntry book → length book < 2 ^ 28 → IfSome s.asked IsEntry
        → (wants_tail s ≡ true → tail.entries ≡ map entry_text entries) → Each FitsEntry entries → length entries < 2 ^ 28 → CallFits is_installed tail s }
{}

/// A crash may always leave each device of a store that may switch as it was at its last sync, or as
/// it reads now.
pub fn a_crash_always_leaves_something()
    ensures { (all : List (List ℕ)) (s : StoreState) (past top place : ℕ) (book aside : List LogEntry) (image : Image) → HoldsWritten all s past top place book aside → wrong_images s (images_left image [] s) ≡ None }
{}
