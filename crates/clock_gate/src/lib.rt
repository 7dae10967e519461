//! Clocks and gates: what tells a node the time, and what may hold its workers for a while.
#![tactic(auto)]

pub mod clock;
pub mod gate;
