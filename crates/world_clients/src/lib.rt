//! The clients of a world.
#![tactic(auto)]

pub mod clients;
