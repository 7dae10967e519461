//! The laws of snapshots.
ghost use Rattle.std.specs.Prelude.{◌≡◌, ◌+◌, ◌^◌, ◌<◌, ◌≤◌, ℕ, true, List, length, Some};
ghost use Rattle.smart_base.specs.Cuts.{IsBytes};
ghost use Rattle.smart_base.specs.Lists.{Each};
ghost use Rattle.smart_base.specs.Views.{View, is_view};
ghost use Rattle.smart_base.specs.declared.limits.TheConstants.{SNAPSHOT_BYTES};
ghost use Rattle.smart_statements.specs.Batches.{Batch};
ghost use Rattle.smart_service.specs.declared.replica.Replica.{Replica};
ghost use Rattle.replica_rules.specs.Replicas.{empty, delivered, state};
ghost use Rattle.snapshot_form.specs.Replicas.{is_first_view, FitsReplica, IsOfClients};
ghost use Rattle.snapshot_form.specs.Snapshots.{restored, snapshot_text, pieces, joined};

use smart_service::service::Service;

/// A replica has one spelling: its snapshot is read as the replica, what is read as a replica is its
/// snapshot, and no two replicas share one.
pub fn a_replica_has_one_spelling<S: Service>()
    ensures read { (r : Replica S) → FitsReplica S.valid r → restored S.meaning (snapshot_text S.meaning r) ≡ Some r }
    ensures alone { (bytes : List ℕ) (r : Replica S) → IsBytes bytes → restored S.meaning bytes ≡ Some r → FitsReplica S.valid r × (bytes ≡ snapshot_text S.meaning r) }
    ensures apart { (r s : Replica S) → FitsReplica S.valid r → FitsReplica S.valid s → snapshot_text S.meaning r ≡ snapshot_text S.meaning s → r ≡ s }
{}

/// A snapshot has at most 16,777,216 bytes.
pub fn a_snapshot_is_short<S: Service>()
    ensures { (r : Replica S) → FitsReplica S.valid r → length (snapshot_text S.meaning r) ≤ SNAPSHOT_BYTES }
{}

/// The pieces of a snapshot, one after the other, are the snapshot.
pub fn pieces_make_the_snapshot()
    ensures { (bytes : List ℕ) → joined bytes (pieces bytes) ≡ bytes }
{}

/// The state of each list has a snapshot. The replica before any batch has one, and a replica that has
/// one still has one behind a batch whose clients there are.
pub fn states_have_snapshots<S: Service>()
    ensures first { (view : View) → is_view view ≡ true → is_first_view view ≡ true → FitsReplica S.valid (empty S.meaning view) }
    ensures delivered { (r : Replica S) (batch : Batch) → FitsReplica S.valid r → r.place + 1 < 2 ^ 63 → IsOfClients batch → FitsReplica S.valid (delivered S.meaning r batch) }
    ensures state { (view : View) (list : List Batch) → is_view view ≡ true → is_first_view view ≡ true → length list < 2 ^ 63 → Each IsOfClients list → FitsReplica S.valid (state S.meaning view list) }
{}
