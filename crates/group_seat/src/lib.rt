//! The seat of a member in a group: its core with the trail of all that happened to it, and its links to and
//! from all members and the client, which threads share under one lock.
#![tactic(auto)]

pub mod seat;
pub mod snapshot;
pub mod turns;
