//! The leader change (the synchronisation phase of Mod-SMaRt, EDCC 2012): the STOPs, STOPDATA and
//! SYNCs that a member has heard, what is due, and the choice of reports.
#![tactic(auto)]

pub mod choice;
pub mod choosing;
mod find;
pub mod laws;
pub mod needed;
pub mod rule;
pub mod synchronizer;
