//! What an instance says of the node that has it.
ghost use Rattle.std.specs.Prelude.{◌≡◌, ℕ, None, is_some, option_map};
ghost use Rattle.smart_statements.specs.Forms.{SignedBy};
ghost use Rattle.smart_statements.specs.declared.statement.Ballot.{Ballot};
ghost use Rattle.smart_messages.specs.declared.message.Proposed.{Proposed};
ghost use Rattle.smart_messages.specs.declared.message.Message.TheVariants.{Propose, Vote};
ghost use Rattle.node_rules.specs.Nodes as nodes;
ghost use Rattle.node_rules.specs.Nodes.{Node, view_of, start_of, is_synced};
ghost use Rattle.node_rules.specs.Arrivals as arrivals;
ghost use Rattle.node_rules.specs.Rules.{writing, accepting};
ghost use Rattle.consensus_instance.specs.declared.rule.Rule.TheVariants.{Write, Accept};
ghost use Rattle.consensus_instance.specs.Instances.{Instance, decided_place, is_free, is_open, open_slot, is_bound_to, is_unbound, due_by, with_arrival, keeping_vote, keeping_proposal};
ghost use Rattle.consensus_instance.specs.Nodes.{HasInstance, stated_start};

use smart_service::service::Service;

/// The vote that is due in an instance is the one that is due at each node that has it.
pub fn due_in_an_instance_is_due_at_its_node<S: Service>()
    ensures write { (n : Node S) (i : Instance) → HasInstance n i → due_by Write (view_of n) i ≡ writing n }
    ensures accept { (n : Node S) (i : Instance) → HasInstance n i → due_by Accept (view_of n) i ≡ accepting n }
{}

/// The place, regency and open slot of an instance are those of each node that has it.
pub fn an_instance_stands_where_its_node_does<S: Service>()
    ensures regency { (n : Node S) (i : Instance) → HasInstance n i → i.regency ≡ nodes.regency_of n }
    ensures start { (n : Node S) (i : Instance) → HasInstance n i → i.start ≡ option_map stated_start (start_of n) }
    ensures synced { (n : Node S) (i : Instance) → HasInstance n i → is_some i.start ≡ is_synced n }
    ensures decided_place { (n : Node S) (i : Instance) → HasInstance n i → decided_place i ≡ nodes.decided_place n }
    ensures free { (n : Node S) (i : Instance) → HasInstance n i → is_free i ≡ nodes.is_free n }
    ensures open { (n : Node S) (i : Instance) → HasInstance n i → is_open (view_of n) i ≡ nodes.is_open n }
    ensures open_slot { (n : Node S) (i : Instance) → HasInstance n i → open_slot (view_of n) i ≡ nodes.open_slot n }
    ensures bound { (n : Node S) (i : Instance) (place : ℕ) → HasInstance n i → is_bound_to place i ≡ nodes.bound_at place (start_of n) }
    ensures unbound { (n : Node S) (i : Instance) (p : Proposed) → HasInstance n i → is_unbound p i ≡ arrivals.is_unbound n p }
{}

/// A proposal or vote that a node does not drop is kept by its instance.
pub fn what_a_node_keeps_its_instance_keeps<S: Service>()
    ensures vote { (n : Node S) (i : Instance) (b : SignedBy Ballot) → HasInstance n i → arrivals.why_vote n b ≡ None → keeping_vote b i ≡ with_arrival (Vote b) i }
    ensures proposal { (n : Node S) (i : Instance) (p : Proposed) → HasInstance n i → arrivals.why_propose n p ≡ None → keeping_proposal p i ≡ with_arrival (Propose p) i }
{}
