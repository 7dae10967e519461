//! Laws of choices, and of a member that drops what it no longer needs.
ghost use Rattle.std.specs.Prelude.{◌≡◌, ℕ, ◌+◌, ◌<◌, ◌≤◌, ◌↔◌, true, List, [], Option, Some, None};
ghost use Rattle.smart_base.specs.Lists.{Each};
ghost use Rattle.smart_base.specs.Views.{View};
ghost use Rattle.smart_statements.specs.Forms.{SignedBy};
ghost use Rattle.smart_statements.specs.Batches.{Batch};
ghost use Rattle.smart_statements.specs.declared.report.Report.{Report};
ghost use Rattle.smart_messages.specs.declared.regency.Stop.{Stop};
ghost use Rattle.smart_messages.specs.declared.regency.Sync.{Sync};
ghost use Rattle.smart_messages.specs.declared.regency.Reported.{Reported};
ghost use Rattle.regency_sync.specs.Choices.{greatest_last, lock_behind, choice, IsBound};
ghost use Rattle.regency_sync.specs.Synchronizers.{Synchronizer, needs_stop, needs_report, needs_sync, repeats_stop, repeats_report, repeats_sync};
ghost use Rattle.regency_sync.specs.Synchronizers.{is_joining, is_promising, collecting, due, batch_of, keeping_stop, keeping_report, keeping_sync};
ghost use Rattle.regency_sync.specs.Synchronizers.{adopted, stopped, promised, led, moved, trimmed, HasNothingOf};

/// A regency begins at the least place, from 1, that is past each last place.
pub fn a_regency_begins_behind_each_last_place()
    ensures above { (reports : List (SignedBy Report)) → Each (λ r. r.statement.last < (choice reports).base) reports }
    ensures least { (reports : List (SignedBy Report)) (place : ℕ) → 1 ≤ place → Each (λ r. r.statement.last < place) reports →
        (choice reports).base ≤ place }
    ensures none { choice [] ≡ record { base = 1; bound = None } }
{}

/// The lock that binds is the first of the greatest regency among those at the place after the
/// greatest last place. If there is none, nothing binds.
pub fn the_greatest_lock_binds()
    ensures base { (reports : List (SignedBy Report)) → (choice reports).base ≡ greatest_last reports + 1 }
    ensures some { (reports : List (SignedBy Report)) (digest : List ℕ) → ((choice reports).bound ≡ Some digest) ↔ IsBound reports digest }
    ensures none { (reports : List (SignedBy Report)) →
        ((choice reports).bound ≡ None) ↔ Each (λ r. lock_behind (greatest_last reports) r ≡ None) reports }
{}

/// What is due depends on what is still needed alone.
pub fn what_is_needed_makes_due()
    ensures join { (view : View) (s : Synchronizer) → is_joining view (trimmed view s) ≡ is_joining view s }
    ensures promise { (view : View) (s : Synchronizer) → is_promising view (trimmed view s) ≡ is_promising view s }
    ensures collect { (view : View) (s : Synchronizer) → collecting view (trimmed view s) ≡ collecting view s }
    ensures first { (view : View) (s : Synchronizer) → due view (trimmed view s) ≡ due view s }
    ensures batch { (view : View) (s : Synchronizer) (digest : List ℕ) → batch_of view (trimmed view s) digest ≡ batch_of view s digest }
{}

/// What is still needed repeats nothing but what is still needed.
pub fn what_is_needed_repeats_what_is_needed()
    ensures stop { (view : View) (s : Synchronizer) (stop : SignedBy Stop) → needs_stop view.number s.regency stop ≡ true →
        repeats_stop (trimmed view s) stop ≡ repeats_stop s stop }
    ensures report { (view : View) (s : Synchronizer) (r : Reported) → needs_report view.number s.regency r ≡ true →
        repeats_report (trimmed view s) r.head ≡ repeats_report s r.head }
    ensures sync { (view : View) (s : Synchronizer) (sync : SignedBy Sync) → needs_sync view.number s.regency sync ≡ true →
        repeats_sync (trimmed view s) sync ≡ repeats_sync s sync }
{}

/// A member that drops what it no longer needs keeps and refuses the same as one that drops nothing.
/// It does the same too, and has what that one needs. The premises are that regencies do not fall,
/// and that nothing of a later view was kept.
pub fn what_is_dropped_is_not_missed()
    ensures stop { (s : Synchronizer) (stop : SignedBy Stop) → keeping_stop stop (trimmed s.view s) ≡ trimmed s.view (keeping_stop stop s) }
    ensures report { (s : Synchronizer) (report : SignedBy Report) (batch : Option Batch) →
        keeping_report report batch (trimmed s.view s) ≡ trimmed s.view (keeping_report report batch s) }
    ensures sync { (s : Synchronizer) (sync : SignedBy Sync) → keeping_sync sync (trimmed s.view s) ≡ trimmed s.view (keeping_sync sync s) }
    ensures stopped { (view : View) (s : Synchronizer) → stopped (trimmed view s) ≡ trimmed view (stopped s) }
    ensures led { (view : View) (s : Synchronizer) → led (trimmed view s) ≡ trimmed view (led s) }
    ensures adopted { (view : View) (s : Synchronizer) (regency : ℕ) → s.regency ≤ regency →
        trimmed view (adopted regency (trimmed view s)) ≡ trimmed view (adopted regency s) }
    ensures promised { (view : View) (s : Synchronizer) → trimmed view (promised (trimmed view s)) ≡ trimmed view (promised s) }
    ensures moved { (old new : View) (s : Synchronizer) → HasNothingOf new.number s → trimmed new (moved new (trimmed old s)) ≡ trimmed new (moved new s) }
{}
