//! The five loops of one member's node, over its seat under a lock.
#![tactic(auto)]

pub mod cell;
pub mod loops;
pub mod steps;
