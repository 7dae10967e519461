//! The lines of a transcript, written.
#![tactic(auto)]

pub mod text;
