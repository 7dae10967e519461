//! The worker that hands over the snapshots for which a node wants a switch.
#![tactic(auto)]

pub mod worker;
