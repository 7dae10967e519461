//! What the audit of recorded runs asks of trails: that they are coherent, and when they are quiet.
#![tactic(auto)]

pub mod laws;
pub mod recorded;
