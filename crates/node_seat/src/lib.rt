//! The seat of a running node: its core, the trail of all that happened to it, and its ends of the
//! lane and of the links, which threads share under one lock.
#![tactic(auto)]

pub mod place;
pub mod seat;
pub mod snapshot;
pub mod turns;
pub mod writing;
