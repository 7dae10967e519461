//! The play of a script: its lines, and what they do in the world.
#![tactic(auto)]

pub mod arrivals;
pub mod byzantine;
pub mod flow;
pub mod joining;
pub mod lines;
pub mod world;
