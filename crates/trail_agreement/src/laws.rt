//! The law of one list over recorded runs.
ghost use Rattle.std.specs.Prelude.{ℕ, Bool, List};
ghost use Rattle.smart_base.specs.Cuts.{IsBytes};
ghost use Rattle.audit_rules.specs.declared.recorded.Recorded.{Recorded};
ghost use Rattle.audit_rules.specs.Coherence.{Coherent, Fresh};
ghost use Rattle.audit_rules.specs.Readings.{AreRead};
ghost use Rattle.trail_agreement.specs.Deliveries.{AreSpelled, FewInEachBy, NoCollisionBy, OneListBy};
ghost use Rattle.trail_agreement.specs.Excuses.{CoherentBut};

/// Recorded runs deliver one list of batches (state machine replication). They are coherent, and begin
/// with the empty replica. It is the law of one decision over diaries, place by place: each member's book
/// is its diary, and a batch may change the view (BFT-SMaRt, DSN 2014).
///
/// *Premises.* The runs have bytes, so what was sent is read as itself, and each member has one trail.
/// No two different batches that members decide have one digest, nor two different snapshots, of a replica
/// that a member marked and of one that a member had. In coherent runs nothing comes of a member that the
/// member has not sent by its own trail. So a member without a trail has stated nothing. `excused` leaves
/// out of that at most f members of each view that the list makes: they may have stated anything. The list
/// is spoken of by what members decide, place by place. A view that was left is one of these.
///
/// *Conclusion.* There is a list of batches, each of them decided by some member at its place. Each batch
/// that a step of a member delivered is the list's at its place. Since the member began or took over a
/// replica, it delivered one batch at each place after that one, in order. So a member that took over none
/// delivered a front of the list. A member's replica is the state of the list up to its place, and its
/// views are those that the list makes.
pub fn recorded_runs_deliver_one_list()
    ensures all { (trails : List Recorded) → AreSpelled trails → Coherent trails → (fresh : Fresh trails) → NoCollisionBy fresh.app trails → OneListBy fresh.app trails }
    ensures excused { (faulty : ℕ → Bool) (trails : List Recorded) → AreSpelled trails → CoherentBut faulty trails → (fresh : Fresh trails) →
        FewInEachBy fresh.app faulty fresh.view trails → NoCollisionBy fresh.app trails → OneListBy fresh.app trails }
{}

/// Recorded runs that are read from bytes have bytes. No number has two, and each member could begin so.
pub fn what_is_read_is_spelled()
    ensures { (bytes : List ℕ) (trails : List Recorded) → IsBytes bytes → AreRead bytes trails → AreSpelled trails }
{}
