//! The loops of a group in threads: four for each member over its seat under a lock, and the client's.
#![tactic(auto)]

pub mod bearer;
pub mod cell;
pub mod desk;
pub mod group;
pub mod loops;
pub mod member;
pub mod members;
pub mod steps;
