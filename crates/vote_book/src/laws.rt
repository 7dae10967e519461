//! Laws of books. They speak of definitions alone.
ghost use Rattle.std.specs.Prelude.{◌≡◌, ◌≤◌, ◌+◌, ◌++◌, ◌∷◌, [], ◌↔◌, ℕ, List, Some, None, true};
ghost use Rattle.vote_book.specs.declared.entry.Accept.{Accept};
ghost use Rattle.vote_book.specs.declared.entry.LogEntry.{LogEntry};
ghost use Rattle.vote_book.specs.declared.entry.LogEntry.TheVariants.{Accepted};
ghost use Rattle.vote_book.specs.Books.{Book, begun, pushed, ended, place_made, last_made, Among, HasMade, Admits, Lawful, IsLawful};
ghost use Rattle.vote_book.specs.Admission.{admits, admits_next};
ghost use Rattle.vote_book.specs.Tidy.{IsTidyAfter, IsTidy};
ghost use Rattle.vote_book.specs.BookReports.{last_maker, lock_of, IsGreatestAccept};

/// The test admits an entry if and only if it may stand after the others.
pub fn a_book_admits_what_is_lawful()
    ensures { (opening restored : ℕ) (before : List LogEntry) (entry : LogEntry) → (admits opening restored before entry ≡ true) ↔ Admits opening restored before entry }
{}

/// Entries with one more are lawful if and only if they are lawful and that one may stand after them.
pub fn a_lawful_list_grows_by_what_it_admits()
    ensures { (opening restored : ℕ) (entries : List LogEntry) (entry : LogEntry) →
        Lawful opening restored (entries ++ entry ∷ []) ↔ (Lawful opening restored entries × Admits opening restored entries entry) }
{}

/// A book is lawful if and only if it admitted each entry that was pushed. That no more is restored
/// changes nothing of it.
pub fn a_book_is_lawful_where_it_admitted_all()
    ensures begun { (place : ℕ) → IsLawful (begun place) }
    ensures pushed { (book : Book) (entry : LogEntry) → IsLawful (pushed book entry) ↔ (IsLawful book × (admits_next book entry ≡ true)) }
    ensures ended { (book : Book) → IsLawful (ended book) ↔ IsLawful book }
{}

/// Entries with one more are tidy if and only if they are tidy and that one is tidy after them.
pub fn a_tidy_list_grows_by_what_is_tidy_after_it()
    ensures begun { IsTidy [] }
    ensures grown { (entries : List LogEntry) (entry : LogEntry) → IsTidy (entries ++ entry ∷ []) ↔ (IsTidy entries × IsTidyAfter entries entry) }
{}

/// Prefixes of lawful entries are lawful, and those of tidy ones are tidy.
pub fn fronts_stay_lawful_and_tidy()
    ensures lawful { (opening restored : ℕ) (front rest : List LogEntry) → Lawful opening restored (front ++ rest) → Lawful opening restored front }
    ensures tidy { (front rest : List LogEntry) → IsTidy (front ++ rest) → IsTidy front }
{}

/// The last place is the greatest that entries make. If a place is made, an entry that made the last
/// one is found.
pub fn the_last_place_is_the_greatest_made()
    ensures most { (entries : List LogEntry) (place : ℕ) → HasMade entries place → place ≤ last_made entries }
    ensures made { (entries : List LogEntry) (e : LogEntry) → last_maker entries ≡ Some e → Among e entries × (place_made e ≡ Some (last_made entries)) }
    ensures none { (entries : List LogEntry) (place : ℕ) → last_maker entries ≡ None → HasMade entries place → ⊥ }
{}

/// The lock is an accept of the book for the place after the last, in the greatest regency. There is
/// none only if no accept is for that place.
pub fn a_lock_is_the_greatest_accept()
    ensures some { (view : ℕ) (entries : List LogEntry) (a : Accept) → lock_of view entries ≡ Some a → IsGreatestAccept view (last_made entries + 1) entries a }
    ensures none { (view : ℕ) (entries : List LogEntry) (a : Accept) → lock_of view entries ≡ None → Among (Accepted a) entries → a.slot.view ≡ view → a.slot.place ≡ last_made entries + 1 → ⊥ }
{}
