//! The audit of an input: its bytes are read as trails, and the line that tells what is found is written.
#![tactic(auto)]

pub mod input;
pub mod play;
pub mod status;
pub mod text;
