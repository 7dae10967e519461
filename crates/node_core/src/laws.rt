//! The laws of a restart that reads its parts one by one.
ghost use Rattle.std.specs.Prelude.{◌≡◌, ◌++◌, ◌∷◌, [], ℕ, List, true, is_some, option_map, Some};
ghost use Rattle.vote_book.specs.Entries.{entry_decoded};
ghost use Rattle.replica_rules.specs.Replicas.{managed_of};
ghost use Rattle.node_rules.specs.Reopening.{damaged, entries_in, reopened};
ghost use Rattle.node_rules.specs.Steps.{Outset};
ghost use Rattle.node_opening.specs.Resuming.{gone_on};
ghost use Rattle.node_core.specs.Reopeners.{Reopening, taken_after, read_on, IsDamaged, IsAfter};

use smart_service::service::Service;

/// A restart that reads its parts one by one comes to the node after a restart from all of them.
///
/// - `next`: after one more entry that may be restored it has read that, too.
/// - `damaged`: another one is the first damaged entry, and has its number.
/// - `node`: at the end there is the node after a restart from what was read.
pub fn a_restart_reads_part_by_part<S: Service>()
    ensures next { (o : Outset S) (read : List (List ℕ)) (bytes : List ℕ) (r : Reopening S) → IsAfter S.meaning o read r →
        is_some (taken_after S.meaning r.secret r.restart (entry_decoded bytes)) ≡ true → IsAfter S.meaning o (read ++ bytes ∷ []) (read_on S.meaning r bytes) }
    ensures damaged { (o : Outset S) (read : List (List ℕ)) (bytes : List ℕ) (r : Reopening S) (entry : ℕ) → IsAfter S.meaning o read r → IsDamaged S.meaning r bytes entry →
        damaged o.secret o.replica.place (managed_of o.replica) (read ++ bytes ∷ []) ≡ Some entry }
    ensures node { (o : Outset S) (read : List (List ℕ)) (r : Reopening S) → IsAfter S.meaning o read r →
        option_map (λ back. gone_on r.secret r.member r.period back r.checkpoint) r.restart ≡ Some (reopened S.meaning o (entries_in read)) }
{}
