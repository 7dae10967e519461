//! The world of a play: clients, hosts, the lines of a script and of its transcript. The
//! definitions are in `specs/`. The types that they match on are here.
#![tactic(auto)]

pub mod crash;
pub mod line;
pub mod message;
