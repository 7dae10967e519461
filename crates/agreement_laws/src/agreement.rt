//! Agreement: a place has one decision.
ghost use Rattle.std.specs.Prelude.{◌≡◌, ◌≤◌, ℕ, List, [], ◌∷◌, length, Bool, true};
ghost use Rattle.smart_base.specs.Views.{View, is_view};
ghost use Rattle.smart_statements.specs.Forms.{SignedBy};
ghost use Rattle.smart_statements.specs.Batches.{Batch};
ghost use Rattle.smart_statements.specs.declared.statement.Ballot.{Ballot};
ghost use Rattle.smart_statements.specs.declared.statement.VoteKind.TheVariants.{Accept};
ghost use Rattle.vote_book.specs.declared.entry.LogEntry.{LogEntry};
ghost use Rattle.vote_book.specs.Books.{Among};
ghost use Rattle.vote_book.specs.Tidy.{IsTidy};
ghost use Rattle.agreement_laws.specs.Fronts.{IsFront};
ghost use Rattle.agreement_laws.specs.Statements.{Statement, Voted};
ghost use Rattle.agreement_laws.specs.Certificates.{IsWritten, IsDecision};
ghost use Rattle.agreement_laws.specs.Law.{Witnessed};
ghost use Rattle.agreement_laws.specs.Lists.{AllCertified, Exact};
ghost use Rattle.agreement_laws.specs.Example.{four, is_fourth, vote, votes, first_voters, later_voters, all_stated, diary};

/// Agreement (Mod-SMaRt, EDCC 2012): two decisions of one place have one digest, in whatever
/// regencies of the view they are made. Faulty members may state anything.
pub fn one_decision()
    ensures { (secret : List ℕ) (digest_of : Batch → List ℕ) (view : View) (faulty : ℕ → Bool) (diary : ℕ → List LogEntry) (stated : List Statement) →
        Witnessed secret digest_of view faulty diary stated →
        (place regency later : ℕ) (first second : List ℕ) (left right : List (SignedBy Ballot)) →
        IsDecision secret view stated place regency first left → IsDecision secret view stated place later second right → first ≡ second }
{}

/// A decision has a write certificate: a quorum wrote for what a quorum accepted.
pub fn a_decision_was_written()
    ensures { (secret : List ℕ) (digest_of : Batch → List ℕ) (view : View) (faulty : ℕ → Bool) (diary : ℕ → List LogEntry) (stated : List Statement) →
        Witnessed secret digest_of view faulty diary stated →
        (place regency : ℕ) (digest : List ℕ) (accepts : List (SignedBy Ballot)) → IsDecision secret view stated place regency digest accepts →
        (writes : List (SignedBy Ballot)) × IsWritten secret view stated place regency digest writes }
{}

/// A decision binds later regencies: a quorum's WRITEs at its place, in that regency or a later one,
/// are for its digest.
pub fn a_decision_binds_later_regencies()
    ensures { (secret : List ℕ) (digest_of : Batch → List ℕ) (view : View) (faulty : ℕ → Bool) (diary : ℕ → List LogEntry) (stated : List Statement) →
        Witnessed secret digest_of view faulty diary stated →
        (place regency later : ℕ) (digest other : List ℕ) (accepts writes : List (SignedBy Ballot)) →
        IsDecision secret view stated place regency digest accepts → IsWritten secret view stated place later other writes → regency ≤ later → other ≡ digest }
{}

/// One list (Mod-SMaRt, EDCC 2012): of two lists of batches that are decided place by place, the
/// shorter is a front of the longer.
///
/// The view of a place is the one that the batches before it make. In it the diaries witness what has
/// been stated, wherever the two lists begin alike. Batches of one digest are one batch.
pub fn one_list()
    ensures { (secret : List ℕ) (digest_of : Batch → List ℕ) (view_after : List Batch → View) (faulty : ℕ → Bool) (diary : ℕ → List LogEntry) (stated : List Statement)
        (xs ys : List Batch) →
        ((front : List Batch) → IsFront front xs → IsFront front ys → Witnessed secret digest_of (view_after front) faulty diary stated) →
        Exact digest_of xs ys → AllCertified secret digest_of stated view_after [] xs → AllCertified secret digest_of stated view_after [] ys →
        length xs ≤ length ys → IsFront xs ys }
{}

/// The premises of agreement hold for a group in which one of four members is faulty. They hold for
/// any secret, any naming of batches, any batch and any other digest.
///
/// The faulty member votes for both. The batch is decided in the first regency. It is decided again
/// in the next one, which begins with the reports of the other three members. Their diaries are tidy
/// besides.
pub fn regencies_decide()
    ensures group { is_view four ≡ true }
    ensures witnessed { (secret : List ℕ) (digest_of : Batch → List ℕ) (other : List ℕ) (batch : Batch) →
        Witnessed secret digest_of four is_fourth (diary secret (digest_of batch) batch) (all_stated secret (digest_of batch) other batch) }
    ensures tidy { (secret digest : List ℕ) (batch : Batch) (member : ℕ) → IsTidy (diary secret digest batch member) }
    ensures faulty { (secret digest other : List ℕ) (batch : Batch) → (is_fourth 4 ≡ true)
        × Among (Voted (vote secret 0 Accept digest 4)) (all_stated secret digest other batch)
        × Among (Voted (vote secret 0 Accept other 4)) (all_stated secret digest other batch) }
    ensures first { (secret digest other : List ℕ) (batch : Batch) →
        IsDecision secret four (all_stated secret digest other batch) 1 0 digest (votes secret 0 Accept digest first_voters) }
    ensures later { (secret digest other : List ℕ) (batch : Batch) →
        IsDecision secret four (all_stated secret digest other batch) 1 1 digest (votes secret 1 Accept digest later_voters) }
    ensures list { (secret : List ℕ) (digest_of : Batch → List ℕ) (other : List ℕ) (batch : Batch) →
        AllCertified secret digest_of (all_stated secret (digest_of batch) other batch) (λ front. four) [] (batch ∷ []) }
{}
