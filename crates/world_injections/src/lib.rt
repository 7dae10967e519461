//! What a script injects.
#![tactic(auto)]

pub mod injection;
mod size;
