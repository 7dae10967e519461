//! Snapshots: a replica in bytes, in one spelling, and the replica that bytes are.
#![tactic(auto)]

pub mod laws;
pub mod pieces;
pub mod reading;
pub mod writing;
