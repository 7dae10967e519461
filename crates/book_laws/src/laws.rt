//! Laws of cuts. They speak of definitions alone. A diary is a member's firm entries of all its lives,
//! a cut of it is the book of a later life.
ghost use Rattle.std.specs.Prelude.{◌≡◌, ◌+◌, ◌<◌, ◌≤◌, ◌++◌, ◌∷◌, [], ◌↔◌, ℕ, List, length, take};
ghost use Rattle.smart_statements.specs.Batches.{Batch};
ghost use Rattle.smart_statements.specs.declared.report.Report.{Report};
ghost use Rattle.vote_book.specs.declared.entry.LogEntry.{LogEntry};
ghost use Rattle.vote_book.specs.declared.entry.LogEntry.TheVariants.{Opened};
ghost use Rattle.vote_book.specs.declared.entry.Opening.{Opening};
ghost use Rattle.vote_book.specs.Books.{last_made, Among, HasMade, Admits, Lawful};
ghost use Rattle.vote_book.specs.BookReports.{last_maker, lock_of, Reports};
ghost use Rattle.vote_book.specs.Tidy.{IsTidy, IsTidyAfter};
ghost use Rattle.book_laws.specs.BookCuts.{from_place, cut_at, IsNoVoteUpTo, InstallUpTo};

/// An entry that the cut of a lawful diary admits may stand after the diary, unless it is a vote for
/// the cut's place or an earlier one.
pub fn what_a_cut_admits_its_diary_admits()
    ensures { (place restored : ℕ) (diary : List LogEntry) (entry : LogEntry) →
        Lawful 0 0 diary → (0 < place → HasMade diary place) → IsNoVoteUpTo place entry →
        Admits place restored (cut_at place diary) entry → Admits 0 0 diary entry }
{}

/// The reports of the cut of a lawful diary are those of the diary. Both have the same last place, the
/// same entry that made it, and the same lock in each view.
pub fn a_cut_reports_as_its_diary()
    ensures last { (place : ℕ) (diary : List LogEntry) → Lawful 0 0 diary → last_made (cut_at place diary) ≡ last_made diary }
    ensures maker { (place : ℕ) (diary : List LogEntry) → Lawful 0 0 diary → last_maker (cut_at place diary) ≡ last_maker diary }
    ensures lock { (place view : ℕ) (diary : List LogEntry) → Lawful 0 0 diary → lock_of view (cut_at place diary) ≡ lock_of view diary }
    ensures report { (digest_of : Batch → List ℕ) (report : Report) (place : ℕ) (diary : List LogEntry) →
        Lawful 0 0 diary → Reports digest_of report (cut_at place diary) ↔ Reports digest_of report diary }
{}

/// The cut of a diary that has made the place gains what the diary gains.
pub fn a_cut_grows_as_its_diary()
    ensures { (place : ℕ) (diary more : List LogEntry) → (0 < place → HasMade diary place) → cut_at place (diary ++ more) ≡ cut_at place diary ++ more }
{}

/// The cut of a cut, at its place or a later one, is that of the lawful and tidy diary. The diary has
/// made the second place.
pub fn a_cut_is_cut_as_its_diary()
    ensures { (first second : ℕ) (diary : List LogEntry) →
        Lawful 0 0 diary → IsTidy diary → first ≤ second → (0 < second → HasMade diary second) →
        cut_at second (cut_at first diary) ≡ cut_at second diary }
{}

/// The cut of a lawful and tidy diary is a lawful book that begins with the replica of the cut's place,
/// if the diary installs no later place. Any number of its entries may be restored.
pub fn a_cut_is_a_lawful_book()
    ensures { (place restored : ℕ) (diary : List LogEntry) →
        Lawful 0 0 diary → IsTidy diary → InstallUpTo place diary → Lawful place restored (cut_at place diary) }
{}

/// The cut of a lawful and tidy diary is tidy, too.
pub fn a_cut_is_a_tidy_book()
    ensures { (place : ℕ) (diary : List LogEntry) → Lawful 0 0 diary → IsTidy diary → IsTidy (cut_at place diary) }
{}

/// An entry that is tidy after the cut of a lawful and tidy diary is tidy after the diary. If the diary
/// has made the place, the entry is no vote for it or an earlier one.
pub fn what_is_tidy_after_a_cut_is_tidy_after_its_diary()
    ensures tidy { (place : ℕ) (diary : List LogEntry) (entry : LogEntry) →
        Lawful 0 0 diary → IsTidy diary → IsTidyAfter (cut_at place diary) entry → IsTidyAfter diary entry }
    ensures vote { (place : ℕ) (diary : List LogEntry) (entry : LogEntry) →
        Lawful 0 0 diary → (0 < place → HasMade diary place) → IsTidyAfter (cut_at place diary) entry → IsNoVoteUpTo place entry }
{}

/// A lawful and tidy diary stays so with all entries with which its cut is a lawful and tidy book. The
/// diary has made the place.
pub fn a_diary_grows_as_its_cut()
    ensures { (place restored : ℕ) (diary more : List LogEntry) →
        Lawful 0 0 diary → IsTidy diary → (0 < place → HasMade diary place) →
        Lawful place restored (cut_at place diary ++ more) → IsTidy (cut_at place diary ++ more) → Lawful 0 0 (diary ++ more) × IsTidy (diary ++ more) }
{}

/// Each entry of a cut is one of its diary. Three at most stand before the one that makes the place. If
/// the diary begins with an opening, the cut begins with it.
pub fn a_cut_is_of_its_diary()
    ensures entries { (place : ℕ) (diary : List LogEntry) (entry : LogEntry) → Among entry (cut_at place diary) → Among entry diary }
    ensures short { (place : ℕ) (diary : List LogEntry) → 0 < place → HasMade diary place → length (cut_at place diary) ≤ length (from_place place diary) + 3 }
    ensures begun { (place : ℕ) (opening : Opening) (rest : List LogEntry) → take 1 (cut_at place (Opened opening ∷ rest)) ≡ Opened opening ∷ [] }
{}
