//! How a trail grows, event by event, and what its replay by a core says of its node.
ghost use Rattle.std.specs.Prelude.{◌≡◌, ◌≤◌, ◌++◌, ◌∷◌, [], ℕ, List, max};
ghost use Rattle.node_rules.specs.Kept.{Stands};
ghost use Rattle.node_rules.specs.Nodes.{Node};
ghost use Rattle.trail.specs.declared.event.TrailEvent.{TrailEvent};
ghost use Rattle.trail_rules.specs.Replays.{sent_by, came_by, sends, arrivals, told_firm, last_firm, Step, node_step, core_steps, after, replay, MayCome, Released, need_of, needed};

use smart_service::service::Service;

/// One more event of a trail: what it makes of the replay, and what comes and leaves by it.
pub fn a_trail_grows<S: Service>()
    ensures replay { (step : Step S) (n : Node S) (events : List TrailEvent) (e : TrailEvent) → replay step n (events ++ e ∷ []) ≡ after step (replay step n events) e }
    ensures released { (step : Step S) (n : Node S) (events : List TrailEvent) (e : TrailEvent) → Released step n events → MayCome (replay step n events) e → Released step n (events ++ e ∷ []) }
    ensures back { (step : Step S) (n : Node S) (events : List TrailEvent) (e : TrailEvent) → Released step n (events ++ e ∷ []) → Released step n events × MayCome (replay step n events) e }
    ensures firm { (before : ℕ) (events : List TrailEvent) (e : TrailEvent) → last_firm before (events ++ e ∷ []) ≡ told_firm (last_firm before events) e }
    ensures needed { (step : Step S) (n : Node S) (events : List TrailEvent) (e : TrailEvent) → needed step n (events ++ e ∷ []) ≡ max (needed step n events) (need_of (replay step n events) e) }
    ensures sends { (events : List TrailEvent) (e : TrailEvent) → sends (events ++ e ∷ []) ≡ sends events ++ sent_by e }
    ensures arrivals { (events : List TrailEvent) (e : TrailEvent) → arrivals (events ++ e ∷ []) ≡ arrivals events ++ came_by e }
{}

/// What leaves needed no more entries than are firm then.
pub fn what_leaves_is_firm<S: Service>()
    ensures { (n : Node S) (e : TrailEvent) → need_of n e ≤ n.firm }
{}

/// The replay of a trail by a core stands for that by its node, and both release the same messages.
pub fn a_core_replays_as_its_node<S: Service>()
    ensures replay { (core n : Node S) (events : List TrailEvent) → Stands core n → Stands (replay (core_steps S.meaning) core events) (replay (node_step S.meaning) n events) }
    ensures released { (core n : Node S) (events : List TrailEvent) → Stands core n → Released (core_steps S.meaning) core events → Released (node_step S.meaning) n events }
    ensures back { (core n : Node S) (events : List TrailEvent) → Stands core n → Released (node_step S.meaning) n events → Released (core_steps S.meaning) core events }
{}
