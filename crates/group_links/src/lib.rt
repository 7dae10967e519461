//! A link that carries messages from one end to another, and drops one that finds it full.
#![tactic(auto)]

pub mod ends;
pub mod inward;
pub mod outward;
