//! The client: what it asks, when it accepts a reply, which is after a quorum of a view has given it,
//! and when it takes over a view, which is after more members than may be faulty have stated it.
#![tactic(auto)]

pub mod asking;
pub mod client;
pub mod counting;
pub mod hearing;
pub mod laws;
pub mod viewing;
