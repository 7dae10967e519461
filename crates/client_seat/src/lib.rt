//! The seat of a group's client: the client with the trail of all that happened to it, and its links.
#![tactic(auto)]

pub mod seat;
