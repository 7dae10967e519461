//! The law of one list over recorded runs.
#![tactic(auto)]

pub mod laws;
