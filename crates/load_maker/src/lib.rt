//! The script that `load N` plays, one line after the other.
#![tactic(auto)]

pub mod draw;
pub mod laws;
pub mod line;
pub mod script;
