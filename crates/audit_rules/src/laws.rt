//! The laws of audits.
ghost use Rattle.std.specs.Prelude.{◌≡◌, ℕ, Bool, List, None};
ghost use Rattle.smart_messages.specs.declared.message.Sealed.{Sealed};
ghost use Rattle.node_rules.specs.Kept.{Stands};
ghost use Rattle.node_rules.specs.Nodes.{Node};
ghost use Rattle.trail.specs.declared.event.TrailEvent.{TrailEvent};
ghost use Rattle.trail.specs.declared.opening.TrailOpening.{TrailOpening};
ghost use Rattle.trail_rules.specs.Replays.{Step, node_step, core_steps, replay, Released};
ghost use Rattle.audit_rules.specs.declared.recorded.Recorded.{Recorded};
ghost use Rattle.audit_rules.specs.Audits.{first_node, member_difference, first_difference};
ghost use Rattle.audit_rules.specs.Coherence.{Coherent, Leaves};
ghost use Rattle.audit_rules.specs.Quiets.{is_at_rest, seems_at_rest, sent_from};

use smart_service::service::Service;

/// Recorded runs are coherent if and only if they have no difference from what the rules of their
/// members make.
pub fn coherent_runs_have_no_difference()
    ensures none { (trails : List Recorded) → first_difference trails ≡ None → Coherent trails }
    ensures back { (trails : List Recorded) → Coherent trails → first_difference trails ≡ None }
{}

/// If each Send of a trail is the next message that leaves its replay, it is so as both are spelled.
pub fn what_is_released_leaves<S: Service>()
    ensures { (step : Step S) (n : Node S) (events : List TrailEvent) → Released step n events → Leaves step n events }
{}

/// A core that stands for a node differs from a trail as the node does. After the trail's events it has
/// sent the same, and is at rest if and only if the node is. The node with which a trail begins is its own
/// core.
pub fn a_core_is_audited_as_its_node<S: Service>()
    ensures first { (t : Recorded) → Stands (first_node S.meaning t) (first_node S.meaning t) }
    ensures difference { (core n : Node S) (sent : Sealed → Bool) (o : TrailOpening) (before : ℕ) (events : List TrailEvent) → Stands core n →
        member_difference (core_steps S.meaning) sent o before core events ≡ member_difference (node_step S.meaning) sent o before n events }
    ensures rest { (core n : Node S) (events : List TrailEvent) → Stands core n →
        is_at_rest (replay (core_steps S.meaning) core events) ≡ is_at_rest (replay (node_step S.meaning) n events) }
    ensures sent { (core n : Node S) (events : List TrailEvent) → Stands core n →
        sent_from (core_steps S.meaning) core events ≡ sent_from (node_step S.meaning) n events }
{}

/// After the last event of its trail a member's node is at rest if and only if its core seems so: no batch
/// waits, all entries are firm, and no message leaves. What a node holds waits for entries that its book
/// has, so none is held then.
pub fn rest_is_seen<S: Service>()
    ensures { (t : Recorded) →
        seems_at_rest (replay (core_steps S.meaning) (first_node S.meaning t) t.events) ≡ is_at_rest (replay (node_step S.meaning) (first_node S.meaning t) t.events) }
{}
