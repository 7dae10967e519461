//! The laws of one node.
ghost use Rattle.std.specs.Prelude.{◌≡◌, ◌<◌, ◌≤◌, ◌↔◌, ◌⊎◌, ℕ, ◌+◌, ◌-◌, List, [], ◌∷◌, ◌++◌, length, map, Option, None, Some, Ok, true, take, drop};
ghost use Rattle.smart_base.specs.Cuts.{IsBytes};
ghost use Rattle.smart_base.specs.Lists.{Each};
ghost use Rattle.smart_base.specs.Views.{View, is_view};
ghost use Rattle.smart_statements.specs.declared.entry.NodeEvent.{NodeEvent};
ghost use Rattle.smart_service.specs.Services.{Meaning};
ghost use Rattle.vote_book.specs.Books.{Among, HasMade, Lawful, last_made, latest_made};
ghost use Rattle.vote_book.specs.Entries.{entry_text, entry_decoded, FitsEntry};
ghost use Rattle.vote_book.specs.declared.entry.Decision.{Decision};
ghost use Rattle.vote_book.specs.declared.entry.LogEntry.{LogEntry};
ghost use Rattle.vote_book.specs.declared.entry.LogEntry.TheVariants.{Decided};
ghost use Rattle.book_laws.specs.BookCuts.{cut_at, InstallUpTo};
ghost use Rattle.replica_rules.specs.Replicas.{state, after_batches, Managed, managed, views_after};
ghost use Rattle.replica_rules.specs.Seals.{digest_of};
ghost use Rattle.agreement_laws.specs.Fronts.{IsFront};
ghost use Rattle.agreement_laws.specs.Lists.{Certified};
ghost use Rattle.agreement_laws.specs.Diaries.{IsShown};
ghost use Rattle.agreement_laws.specs.Statements.{Statement, signer_of, statements};
ghost use Rattle.node_rules.specs.declared.node.Held.{Held};
ghost use Rattle.node_rules.specs.declared.node.OwnSnapshot.{OwnSnapshot};
ghost use Rattle.smart_statements.specs.Batches.{Batch};
ghost use Rattle.smart_base.specs.declared.party.Party.TheVariants.{Member};
ghost use Rattle.node_rules.specs.Nodes.{Node, greatest_regency, ring_of};
ghost use Rattle.node_rules.specs.Steps.{step_of, released, opened, Outset, outset};
ghost use Rattle.node_rules.specs.Kept.{core_step};
ghost use Rattle.node_rules.specs.Reopening.{reopened, stopped, decided_of, damaged, entries_in, rests};
ghost use Rattle.node_laws.specs.Sound.{AreViews, IsBegun, IsIn, IsSound, IsStatedEvent, AreAmong, place_if, view_for};
ghost use Rattle.node_laws.specs.Restored.{IsSoundBook};
ghost use Rattle.node_laws.specs.Restoring.{AreAlong, AreCertified, AreRested, DecidesInTurn, IsCertifiedIn, IsFirstDamage, outset_behind, resumed_node};
ghost use Rattle.node_rules.specs.Entries.{AddsAtMost};

use smart_service::service::Service;

/// A node stays sound whatever comes to it, if everything that stands in it and verifies has been
/// stated. Its book stays lawful and tidy, and its entries rest on what has been stated. Each
/// statement in a message that it holds has been stated before, or is its own. Its own are shown by
/// the entries that the message waits for. The views of its replica follow each other, from the group's
/// first on.
pub fn a_node_stays_sound<S: Service>()
    ensures first { (secret : List ℕ) (id : ℕ) (view : View) (period : ℕ) → is_view view ≡ true → IsSound [] view (opened (outset S.meaning secret id view period)) }
    ensures step { (stated : List Statement) (first : View) (n : Node S) (event : NodeEvent) → IsSound stated first n → IsStatedEvent (ring_of n) stated event →
        IsSound stated first (step_of S.meaning n event).node }
    ensures released { (stated : List Statement) (first : View) (n : Node S) → IsSound stated first n → IsSound stated first (released n) }
    ensures more { (stated more : List Statement) (first : View) (n : Node S) → AreAmong stated more → IsSound stated first n → IsSound more first n }
{}

/// A member may restart from any prefix of its book (recovery: Dura-SMaRt, USENIX ATC 2013).
///
/// - `book`: the book of a sound node that began with the empty replica is sound by itself, in the node's
///   views.
/// - `front`, `more`: so is each prefix of it, and so it is after more has been stated.
/// - `decided`: a prefix of the book decides a prefix of what the book decides.
/// - `latest`: the last place that the entries make is the latest, too.
/// - `turn`: each decision is of the place behind the last one that is made.
/// - `held`, `certified`: a view of the decision's number holds its place. A quorum of it has accepted the
///   batch there, by what has been stated.
/// - `node`: from any outset the node after a restart has the entries, all restored and firm, the
///   outset's replica after what they decide past its place, and nothing else of the earlier life.
/// - `reopened`: the node after a restart from a sound book that installs nothing is sound, if the book is
///   so in the views behind what it decides. A book that installs has a checkpoint. That each front of a
///   node's own book is so, is the law `a_member_restarts_from_each_front` of replica_laws.
/// - `place`, `count`, `along`: its place is the last one that the entries make. Each place is decided,
///   one after the other, so the entries decide along their own list.
/// - `read`, `undamaged`: the bytes of the entries are read as these entries. None is damaged, if the
///   book is sound in the views behind what it decides.
pub fn a_restart_is_sound<S: Service>()
    ensures book { (stated : List Statement) (first : View) (n : Node S) → IsSound stated first n → n.opening ≡ 0 → IsSoundBook (ring_of n) stated n.replica.views n.entries }
    ensures front { (secret : List ℕ) (stated : List Statement) (views : List View) (entries : List LogEntry) (k : ℕ) → IsSoundBook secret stated views entries →
        IsSoundBook secret stated views (take k entries) }
    ensures decided { (past : ℕ) (entries : List LogEntry) (k : ℕ) → IsFront (decided_of past (take k entries)) (decided_of past entries) }
    ensures more { (secret : List ℕ) (stated more : List Statement) (views : List View) (entries : List LogEntry) → AreAmong stated more → IsSoundBook secret stated views entries →
        IsSoundBook secret more views entries }
    ensures latest { (secret : List ℕ) (stated : List Statement) (views : List View) (entries : List LogEntry) → IsSoundBook secret stated views entries →
        latest_made entries ≡ place_if (last_made entries) }
    ensures turn { (secret : List ℕ) (stated : List Statement) (views : List View) (before : List LogEntry) (d : Decision) (after : List LogEntry) →
        IsSoundBook secret stated views (before ++ Decided d ∷ after) → d.slot.place ≡ last_made before + 1 }
    ensures held { (secret : List ℕ) (stated : List Statement) (views : List View) (entries : List LogEntry) (d : Decision) → IsSoundBook secret stated views entries → Among (Decided d) entries →
        IsIn views d.slot.place d.slot.view }
    ensures certified { (secret : List ℕ) (stated : List Statement) (views : List View) (entries : List LogEntry) (d : Decision) → IsSoundBook secret stated views entries → Among (Decided d) entries →
        (v : View) → view_for views d.slot.place ≡ Some v → Certified secret stated v d.slot.place (digest_of d.batch) }
    ensures node { (o : Outset S) (e : LogEntry) (es : List LogEntry) → reopened S.meaning o (e ∷ es) ≡
        record (stopped o) {
          entries = e ∷ es;
          replica = after_batches S.meaning o.replica (decided_of o.replica.place (e ∷ es));
          restored = length (e ∷ es);
          firm = length (e ∷ es);
        } }
    ensures reopened { (secret : List ℕ) (id : ℕ) (stated : List Statement) (view : View) (period : ℕ) (entries : List LogEntry) → is_view view ≡ true →
        IsSoundBook secret stated (views_after view (decided_of 0 entries)) entries → InstallUpTo 0 entries → IsSound stated view (reopened S.meaning (outset S.meaning secret id view period) entries) }
    ensures place { (secret : List ℕ) (id : ℕ) (stated : List Statement) (view : View) (period : ℕ) (views : List View) (entries : List LogEntry) → IsSoundBook secret stated views entries → InstallUpTo 0 entries →
        (reopened S.meaning (outset S.meaning secret id view period) entries).replica.place ≡ last_made entries }
    ensures count { (secret : List ℕ) (stated : List Statement) (views : List View) (entries : List LogEntry) → IsSoundBook secret stated views entries → InstallUpTo 0 entries →
        last_made entries ≡ length (decided_of 0 entries) }
    ensures along { (secret : List ℕ) (stated : List Statement) (views : List View) (entries : List LogEntry) → IsSoundBook secret stated views entries → InstallUpTo 0 entries →
        AreAlong (decided_of 0 entries) entries }
    ensures read { (entries : List LogEntry) → Each FitsEntry entries → entries_in (map entry_text entries) ≡ entries }
    ensures undamaged { (secret : List ℕ) (stated : List Statement) (view : View) (entries : List LogEntry) → is_view view ≡ true → IsSoundBook secret stated (views_after view (decided_of 0 entries)) entries →
        InstallUpTo 0 entries → Each FitsEntry entries → damaged secret 0 (record { seq = 0; views = view ∷ [] }) (map entry_text entries) ≡ None }
{}

/// A member may restart from a checkpoint and the cut of what it has written, if it has installed no
/// later place (checkpoints: Dura-SMaRt, USENIX ATC 2013; what is kept beside one: this project's own
/// rule). What it has written decides along a list of batches.
///
/// - `read`, `undamaged`: the bytes of a cut's entries are read as these entries, and none is damaged
///   behind the checkpoint's replica.
/// - `promised`: a cut promises the greatest regency of what was written, in each view that no known one is
///   later than.
/// - `decided`: past the checkpoint's place a cut decides what the whole decides there.
/// - `listed`, `count`: that is what the list has past this place, up to the last place that was made.
/// - `placed`: the checkpoint's replica is at its place.
/// - `node`: the node goes on with the state after the list's batches up to the last place that was made.
///   Its book is the cut, all restored and firm, and its own snapshot is the checkpoint.
/// - `reopened`: that node is sound, if what was written is so in the views behind those batches, and
///   these views follow each other.
/// - `written`: what a sound node writes behind the cut is sound behind all that was written.
/// - `shown`: each statement in a message that leaves has been stated, or is the member's own. All that
///   was written, up to the firm entries, shows the latter.
pub fn a_restart_from_a_checkpoint_goes_on<S: Service>()
    ensures read { (place : ℕ) (entries : List LogEntry) → Each FitsEntry entries → entries_in (map entry_text (cut_at place entries)) ≡ cut_at place entries }
    ensures undamaged { (secret : List ℕ) (stated : List Statement) (view : View) (place : ℕ) (batches : List Batch) (entries : List LogEntry) →
        AreViews view (last_made entries) (views_after view (take (last_made entries) batches)) → IsSoundBook secret stated (views_after view (take (last_made entries) batches)) entries →
        (0 < place → HasMade entries place) → InstallUpTo place entries → AreAlong batches entries → Each FitsEntry entries →
        damaged secret place (managed view (take place batches)) (map entry_text (cut_at place entries)) ≡ None }
    ensures promised { (secret : List ℕ) (stated : List Statement) (views : List View) (place number : ℕ) (entries : List LogEntry) → IsSoundBook secret stated views entries →
        ((v : View) → Among v views → v.number ≤ number) → greatest_regency number (cut_at place entries) ≡ greatest_regency number entries }
    ensures decided { (secret : List ℕ) (stated : List Statement) (views : List View) (place : ℕ) (entries : List LogEntry) → IsSoundBook secret stated views entries →
        decided_of place (cut_at place entries) ≡ decided_of place entries }
    ensures listed { (secret : List ℕ) (stated : List Statement) (views : List View) (place : ℕ) (batches : List Batch) (entries : List LogEntry) → IsSoundBook secret stated views entries →
        InstallUpTo place entries → AreAlong batches entries → decided_of place (cut_at place entries) ≡ take (length (decided_of place (cut_at place entries))) (drop place batches) }
    ensures count { (secret : List ℕ) (stated : List Statement) (views : List View) (place : ℕ) (entries : List LogEntry) → IsSoundBook secret stated views entries → (0 < place → HasMade entries place) →
        InstallUpTo place entries → last_made entries ≡ place + length (decided_of place (cut_at place entries)) }
    ensures placed { (view : View) (place : ℕ) (batches : List Batch) (entries : List LogEntry) → (0 < place → HasMade entries place) → AreAlong batches entries →
        (state S.meaning view (take place batches)).place ≡ place }
    ensures node { (secret : List ℕ) (id : ℕ) (stated : List Statement) (view : View) (views : List View) (period place : ℕ) (batches : List Batch) (checkpoint : Option OwnSnapshot) (e : LogEntry) (es : List LogEntry) →
        IsSoundBook secret stated views (e ∷ es) → (0 < place → HasMade (e ∷ es) place) → InstallUpTo place (e ∷ es) → AreAlong batches (e ∷ es) →
        reopened S.meaning (outset_behind S.meaning secret id view period place batches checkpoint) (cut_at place (e ∷ es)) ≡
        resumed_node S.meaning secret id view period place batches checkpoint (e ∷ es) }
    ensures reopened { (secret : List ℕ) (id : ℕ) (stated : List Statement) (view : View) (period place : ℕ) (batches : List Batch) (checkpoint : Option OwnSnapshot) (e : LogEntry) (es : List LogEntry) →
        AreViews view (last_made (e ∷ es)) (views_after view (take (last_made (e ∷ es)) batches)) → IsSoundBook secret stated (views_after view (take (last_made (e ∷ es)) batches)) (e ∷ es) → (0 < place → HasMade (e ∷ es) place) → InstallUpTo place (e ∷ es) → AreAlong batches (e ∷ es) →
        IsSound stated view (reopened S.meaning (outset_behind S.meaning secret id view period place batches checkpoint) (cut_at place (e ∷ es))) }
    ensures written { (stated : List Statement) (first : View) (n : Node S) (diary more : List LogEntry) → IsSound stated first n → IsSoundBook (ring_of n) stated n.replica.views diary →
        n.entries ≡ cut_at n.opening diary ++ more → (0 < n.opening → HasMade diary n.opening) → (diary ≡ [] → ⊥) → IsSoundBook (ring_of n) stated n.replica.views (diary ++ more) }
    ensures shown { (stated : List Statement) (first : View) (n : Node S) (diary more : List LogEntry) (j : ℕ) (h : Held) → IsSound stated first n → IsSoundBook (ring_of n) stated n.replica.views diary →
        n.entries ≡ cut_at n.opening diary ++ more → n.restored ≡ length (cut_at n.opening diary) → (0 < n.opening → HasMade diary n.opening) → (diary ≡ [] → ⊥) →
        Among h n.held → h.needs ≤ n.restored + j →
        Each (λ s. Among s stated ⊎ ((signer_of s ≡ Member n.id) × IsShown digest_of (diary ++ take j more) s)) (statements (ring_of n) h.message) }
{}

/// Restored bytes are undamaged if and only if they are entries from which a member may restart.
///
/// - `decoded`, `read`, `fits`: undamaged bytes are entries, each spelled as found, and disks can
///   hold them.
/// - `begun`, `lawful`: if there are entries, the first is an opening; each may stand after those
///   before it.
/// - `rest`, `certified`, `exact`: an accept has its write certificate and a decision its proof, by a
///   quorum of the view that holds its place. An installation has the marks of more than f members of the
///   view that it names. Both are among the views that the entries before it make.
/// - `turn`, `placed`: past the opening's place the entries decide one place after the other; none
///   decides place 0.
/// - `back`: the bytes of such entries are undamaged.
/// - `first`, `within`: otherwise the number of the first damaged entry is told, from 1; what stands
///   before it is undamaged.
pub fn what_is_undamaged_is_lawful()
    ensures decoded { (secret : List ℕ) (opening : ℕ) (g : Managed) (restored : List (List ℕ)) → damaged secret opening g restored ≡ None →
        map entry_decoded restored ≡ map (λ (e : LogEntry). Ok e) (entries_in restored) }
    ensures read { (secret : List ℕ) (opening : ℕ) (g : Managed) (restored : List (List ℕ)) → Each IsBytes restored → damaged secret opening g restored ≡ None →
        map entry_text (entries_in restored) ≡ restored }
    ensures fits { (secret : List ℕ) (opening : ℕ) (g : Managed) (restored : List (List ℕ)) → Each IsBytes restored → damaged secret opening g restored ≡ None →
        Each FitsEntry (entries_in restored) }
    ensures begun { (secret : List ℕ) (opening : ℕ) (g : Managed) (restored : List (List ℕ)) → damaged secret opening g restored ≡ None →
        (entries_in restored ≡ []) ⊎ IsBegun (entries_in restored) }
    ensures lawful { (secret : List ℕ) (opening : ℕ) (g : Managed) (restored : List (List ℕ)) → damaged secret opening g restored ≡ None →
        Lawful opening (length restored) (entries_in restored) }
    ensures rest { (secret : List ℕ) (opening : ℕ) (g : Managed) (restored : List (List ℕ)) → damaged secret opening g restored ≡ None →
        AreRested secret opening g [] (entries_in restored) }
    ensures certified { (secret : List ℕ) (opening : ℕ) (g : Managed) (restored : List (List ℕ)) → damaged secret opening g restored ≡ None →
        AreCertified secret opening g [] (entries_in restored) }
    ensures exact { (secret : List ℕ) (views : List View) (e : LogEntry) → (rests secret views e ≡ true) ↔ IsCertifiedIn secret views e }
    ensures placed { (secret : List ℕ) (views : List View) (d : Decision) → rests secret views (Decided d) ≡ true → 0 < d.slot.place }
    ensures turn { (secret : List ℕ) (opening : ℕ) (g : Managed) (restored : List (List ℕ)) → damaged secret opening g restored ≡ None →
        DecidesInTurn opening (entries_in restored) }
    ensures back { (secret : List ℕ) (opening : ℕ) (g : Managed) (entries : List LogEntry) → Each FitsEntry entries → (entries ≡ []) ⊎ IsBegun entries → Lawful opening (length entries) entries →
        AreRested secret opening g [] entries → damaged secret opening g (map entry_text entries) ≡ None }
    ensures first { (secret : List ℕ) (opening : ℕ) (g : Managed) (restored : List (List ℕ)) (number : ℕ) →
        (damaged secret opening g restored ≡ Some number) ↔ IsFirstDamage secret opening g restored number }
    ensures within { (secret : List ℕ) (opening : ℕ) (g : Managed) (restored : List (List ℕ)) (number : ℕ) → damaged secret opening g restored ≡ Some number →
        (1 ≤ number) × (number ≤ length restored) × (damaged secret opening g (take (number - 1) restored) ≡ None) }
{}

/// An event adds at most 8 entries to the end of a node's book, and to a core's.
pub fn an_event_makes_few_entries<S: Service>()
    ensures node { (m : Meaning S) (n : Node S) (event : NodeEvent) → AddsAtMost 8 n.entries (step_of m n event).node.entries }
    ensures core { (m : Meaning S) (core : Node S) (event : NodeEvent) → AddsAtMost 8 core.entries (core_step m core event).node.entries }
{}
