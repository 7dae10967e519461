//! The node of a member: one event after another, and the messages that leave.
#![tactic(auto)]

mod answers;
mod arrivals;
mod completing;
pub mod laws;
pub mod node;
mod passes;
pub mod reopener;
mod step;
mod tail;
