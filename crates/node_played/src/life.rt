//! What all parts of one running node agree on, as names that a type bears.
use log_worker::home::Home;
use smart_service::service::Service;
use std::marker::Brand;

/// Names the node with which a life began, beside its lane and the number of its restored entries.
pub trait Life<S>: Home {
    ghost use Rattle.node_rules.specs.Nodes.{Node};

    ghost opening: { Node S };
}

impl<S: Service> Life<S> for Brand {
    ghost use Rattle.node_played.specs.Lives.{nobody};

    ghost opening = { nobody S.meaning };
}
