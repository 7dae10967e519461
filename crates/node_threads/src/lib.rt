//! The five loops of one member's node, each in a thread of its own, until all have ended.
#![tactic(auto)]

pub mod running;
