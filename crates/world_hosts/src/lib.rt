//! A member's host: its node, and the store of what the node writes.
#![tactic(auto)]

pub mod host;
pub mod lives;
