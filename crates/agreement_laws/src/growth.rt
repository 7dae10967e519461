//! The premises of agreement are kept, event by event.
ghost use Rattle.std.specs.Prelude.{◌≡◌, ℕ, List, [], ◌++◌, Bool, true, false};
ghost use Rattle.smart_base.specs.Lists.{Each};
ghost use Rattle.smart_base.specs.Views.{View};
ghost use Rattle.smart_base.specs.declared.party.Party.TheVariants.{Member};
ghost use Rattle.smart_statements.specs.Batches.{Batch};
ghost use Rattle.vote_book.specs.declared.entry.LogEntry.{LogEntry};
ghost use Rattle.vote_book.specs.Books.{Among, Lawful};
ghost use Rattle.agreement_laws.specs.Fronts.{IsFront};
ghost use Rattle.agreement_laws.specs.Statements.{Statement, signer_of, within, verifies};
ghost use Rattle.agreement_laws.specs.Diaries.{IsShown};
ghost use Rattle.agreement_laws.specs.Certificates.{IsBacked};
ghost use Rattle.agreement_laws.specs.Law.{IsCorrect, FewFaulty, Witnessed};

/// The premises of agreement are kept by whatever a world does, if it keeps what these clauses ask.
pub fn what_is_witnessed_stays_so()
    // As long as nothing has been stated, lawful diaries that rest on nothing are witnessed.
    ensures begun { (secret : List ℕ) (digest_of : Batch → List ℕ) (view : View) (faulty : ℕ → Bool) (diary : ℕ → List LogEntry) →
        FewFaulty view faulty →
        ((member : ℕ) → IsCorrect view faulty member → Lawful 0 0 (diary member)) →
        ((member : ℕ) → IsCorrect view faulty member → Each (IsBacked secret digest_of view []) (diary member)) →
        Witnessed secret digest_of view faulty diary [] }
    // More is stated: what correct members state is shown, and what stands in it is stated.
    ensures stated { (secret : List ℕ) (digest_of : Batch → List ℕ) (view : View) (faulty : ℕ → Bool) (diary : ℕ → List LogEntry) (stated more : List Statement) →
        Witnessed secret digest_of view faulty diary stated →
        ((member : ℕ) → IsCorrect view faulty member → (statement : Statement) → Among statement more → signer_of statement ≡ Member member →
        IsShown digest_of (diary member) statement) →
        ((statement part : Statement) → Among statement more → Among part (within statement) → verifies secret part ≡ true → Among part (stated ++ more)) →
        Witnessed secret digest_of view faulty diary (stated ++ more) }
    // Diaries grow: they are lawful, and what they rest on has been stated.
    ensures grown { (secret : List ℕ) (digest_of : Batch → List ℕ) (view : View) (faulty : ℕ → Bool) (diary longer : ℕ → List LogEntry) (stated : List Statement) →
        Witnessed secret digest_of view faulty diary stated →
        ((member : ℕ) → IsCorrect view faulty member → IsFront (diary member) (longer member)) →
        ((member : ℕ) → IsCorrect view faulty member → Lawful 0 0 (longer member)) →
        ((member : ℕ) → IsCorrect view faulty member → Each (IsBacked secret digest_of view stated) (longer member)) →
        Witnessed secret digest_of view faulty longer stated }
    // Members turn faulty, no more than f.
    ensures faulty { (secret : List ℕ) (digest_of : Batch → List ℕ) (view : View) (faulty more : ℕ → Bool) (diary : ℕ → List LogEntry) (stated : List Statement) →
        Witnessed secret digest_of view faulty diary stated → FewFaulty view more →
        ((member : ℕ) → more member ≡ false → faulty member ≡ false) → Witnessed secret digest_of view more diary stated }
{}
