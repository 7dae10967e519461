//! The laws of delivery: batch after batch gives the state of the list, its executions and its
//! answers.
ghost use Rattle.std.specs.Prelude.{◌≡◌, ◌++◌, ℕ, List, [], ◌∷◌, length, Some};
ghost use Rattle.smart_base.specs.Lists.{Each};
ghost use Rattle.smart_base.specs.Views.{View};
ghost use Rattle.smart_statements.specs.Batches.{Batch};
ghost use Rattle.smart_service.specs.Services.{Comes};
ghost use Rattle.smart_service.specs.declared.replica.Replica.{Replica};
ghost use Rattle.replica_rules.specs.Replicas.{empty, state, delivered, executed_lines, executions, answer};

use smart_service::service::Service;

/// Batches delivered one after another, to the replica before any batch, make the state after the
/// list of them. Its place is that of the last one.
pub fn deliveries_make_the_state<S: Service>()
    ensures first { (view : View) → state S.meaning view [] ≡ empty S.meaning view }
    ensures next { (view : View) (list : List Batch) (batch : Batch) → delivered S.meaning (state S.meaning view list) batch ≡ state S.meaning view (list ++ batch ∷ []) }
    ensures place { (view : View) (list : List Batch) → (state S.meaning view list).place ≡ length list }
{}

/// The lines that a delivery gives are those that the batch adds to the list's executions.
pub fn lines_are_the_executions<S: Service>()
    ensures first { (view : View) → executions S.meaning view [] ≡ [] }
    ensures next { (view : View) (list : List Batch) (batch : Batch) → executions S.meaning view list ++ executed_lines S.meaning (state S.meaning view list) batch ≡ executions S.meaning view (list ++ batch ∷ []) }
{}

/// The reply in each line that a delivery gives is the list's answer at the line's place and index.
/// It is each longer list's, too.
pub fn replies_are_the_answers<S: Service>()
    ensures delivered { (view : View) (list : List Batch) (batch : Batch) →
        Each (λ line. answer S.meaning view (list ++ batch ∷ []) line.place line.index ≡ Some line.reply) (executed_lines S.meaning (state S.meaning view list) batch) }
    ensures later { (view : View) (list more : List Batch) (place index : ℕ) (reply : List ℕ) →
        answer S.meaning view list place index ≡ Some reply → answer S.meaning view (list ++ more) place index ≡ Some reply }
{}

/// A valid state of the service stays valid through batches, so the state after each list is valid.
/// Each state that the service reaches is valid, also after it was restored from a snapshot.
pub fn states_are_valid<S: Service>()
    ensures delivered { (r : Replica S) (batch : Batch) → S.valid r.service → S.valid (delivered S.meaning r batch).service }
    ensures state { (view : View) (list : List Batch) → S.valid (state S.meaning view list).service }
    ensures comes { (s : S) → Comes S.meaning s → S.valid s }
{}
