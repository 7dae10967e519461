//! The rules of a leader change (the synchronisation phase of Mod-SMaRt, EDCC 2012): the node adopts,
//! joins, promises, leads, and acts on time.
#![tactic(auto)]

mod asks;
mod reports;
mod starts;
pub mod times;
pub mod turns;
