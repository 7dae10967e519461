//! The ends of a party's links in a group, member or client: its trail with the sink that gets it, the
//! links on which it sends, and those that it polls.
#![tactic(auto)]

pub mod inbox;
pub mod journal;
pub mod owner;
pub mod port;
pub mod posting;
pub mod sending;
mod text;
