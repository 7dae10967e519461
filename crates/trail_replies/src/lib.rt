//! The law of the replies that clients accept, over recorded runs.
#![tactic(auto)]

pub mod laws;
