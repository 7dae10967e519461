//! A member's store in a world. Its devices are in memory. Entries go into it, and a crash leaves of
//! it what a script says.
#![tactic(auto)]

pub mod crash;
pub mod laws;
mod left;
pub mod store;
