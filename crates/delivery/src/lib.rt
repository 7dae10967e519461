//! Delivery: the execution of a batch on a member's replica (state machine replication).
#![tactic(auto)]

pub mod delivered;
mod execute;
pub mod laws;
pub mod replica;
pub mod views;
