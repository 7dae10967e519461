//! The ends of links on which one party sends.
use group_ends::port::Port;

/// The ends of links on which one party sends, in the order of the parties that poll them.
#[derive(Drop)]
pub struct Row {
    pub ports: Vec<Port>,
}
