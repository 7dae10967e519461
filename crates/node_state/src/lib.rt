//! The state of a member's node, and what can be read of it.
#![tactic(auto)]

pub mod find;
pub mod seal;
pub mod shown;
pub mod snapshots;
pub mod state;
pub mod summary;
pub mod views;
