//! How a member's node begins: a new one, and one that goes on after a restart.
#![tactic(auto)]

pub mod reopen;
