//! Laws of audits of inputs. They speak of the definitions alone.
ghost use Rattle.std.specs.Prelude.{◌≡◌, ◌<◌, ◌⊎◌, ◌++◌, ◌∷◌, [], ℕ, List, Option, Some, length};
ghost use Rattle.snapshot_form.specs.Snapshots.{snapshot_text};
ghost use Rattle.replica_rules.specs.Replicas.{empty};
ghost use Rattle.node_rules.specs.Reopening.{damage_of};
ghost use Rattle.node_rules.specs.declared.node.Parts.{Parts};
ghost use Rattle.trail.specs.declared.event.TrailEvent.{TrailEvent};
ghost use Rattle.audit_rules.specs.Audits.{first_node, damage_over};
ghost use Rattle.audit_rules.specs.Readings.{AreRead, StopsAt};
ghost use Rattle.audit_rules.specs.declared.recorded.Recorded.{Recorded};
ghost use Rattle.audit_play.specs.Ends.{Ended};
ghost use Rattle.audit_play.specs.declared.status.AuditStatus.{AuditStatus};
ghost use Rattle.member_opening.specs.Restorings.{node_by};
ghost use Rattle.member_opening.specs.declared.settings.Settings.{Settings};
ghost use Rattle.audit_laws.specs.Completeness.{IsOfTrails, IsOfFront};
ghost use Rattle.audit_laws.specs.Heads.{trail_by};
ghost use Rattle.audit_laws.specs.Written.{AreWritten, texts_of};

use smart_service::service::Service;

/// The texts of trails, one after the other, are read as these trails. Each trail fits its bytes, has so many
/// entries as its opening tells, and ends with its only End. Its member could begin so. No two trails have
/// one number.
pub fn what_is_written_is_read()
    ensures { (trails : List Recorded) → AreWritten trails → AreRead (texts_of trails) trails }
{}

/// An input that is trails is audited: no part of it is told as lacking, as one that cannot be read, or as
/// one too many. The audit ends with its verdict, by a fault, or for want of memory.
pub fn trails_that_can_be_read_are_audited()
    ensures { (left left' written written' : Option (List ℕ)) (wants wants' : ℕ) (input : List ℕ) (trails : List Recorded) (status : AuditStatus) →
        left ≡ Some input → AreRead input trails → Ended left left' written written' wants wants' status → IsOfTrails status }
{}

/// Bytes that are one trail have no proper front that is trails. A front without bytes has no part. Any
/// other one has a part that is lacking or cannot be read, and an audit tells such a part, unless its input
/// fails or memory is wanted.
pub fn a_front_of_a_trail_is_refused()
    ensures stops { (front rest : List ℕ) (trail : Recorded) → AreRead (front ++ rest) (trail ∷ []) → 0 < length rest → (front ≡ []) ⊎ ((part : ℕ) × StopsAt front part) }
    ensures ended { (left left' written written' : Option (List ℕ)) (wants wants' : ℕ) (front rest : List ℕ) (trail : Recorded) (status : AuditStatus) →
        AreRead (front ++ rest) (trail ∷ []) → 0 < length rest → left ≡ Some front → Ended left left' written written' wants wants' status → IsOfFront status }
{}

/// The node with which an audit begins is the one that wrote the head of the trail, whatever parts a store
/// gave it. The same part is damaged. The store has no checkpoint of the empty replica: its trail would have
/// the head of one without a checkpoint.
pub fn an_audit_begins_as_the_node<S: Service>()
    ensures node { (s : Settings) (parts : Parts) (events : List TrailEvent) → (parts.snapshot ≡ Some (snapshot_text S.meaning (empty S.meaning s.view)) → ⊥) →
        first_node S.meaning (trail_by S.meaning s parts events) ≡ node_by S.meaning s parts }
    ensures damage { (s : Settings) (parts : Parts) (events : List TrailEvent) → (parts.snapshot ≡ Some (snapshot_text S.meaning (empty S.meaning s.view)) → ⊥) →
        damage_over S.meaning (trail_by S.meaning s parts events) ≡ damage_of S.meaning s.secret s.view parts }
{}
