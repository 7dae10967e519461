//! Laws of what a node keeps.
ghost use Rattle.std.specs.Prelude.{List};
ghost use Rattle.smart_statements.specs.declared.entry.NodeEvent.{NodeEvent};
ghost use Rattle.node_rules.specs.Nodes.{Node};
ghost use Rattle.node_rules.specs.Steps.{Outset, opened};
ghost use Rattle.node_rules.specs.Kept.{Stands, StepStands, core_after, node_after};

use smart_service::service::Service;

/// The step of a core that stands for a node is the node's step.
pub fn a_core_steps_as_its_node<S: Service>()
    ensures { (core n : Node S) (event : NodeEvent) → Stands core n → StepStands S.meaning core n event }
{}

/// A core that has opened its book stands for the node that keeps everything, whatever comes. Both
/// began from one outset, whichever it is.
pub fn a_core_stands_for_its_node<S: Service>()
    ensures { (o : Outset S) (events : List NodeEvent) →
        Stands (core_after S.meaning (opened o) events) (node_after S.meaning (opened o) events) }
{}
