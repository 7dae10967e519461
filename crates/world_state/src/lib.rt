//! The world of a script: hosts and clients, each message that was sent, and the chosen list of
//! batches.
#![tactic(auto)]

pub mod few;
pub mod state;
