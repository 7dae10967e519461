//! The lines of a script, read.
#![tactic(auto)]

pub mod crash;
pub mod fault;
pub mod forms;
pub mod hex;
pub mod numbers;
pub mod reading;
pub mod words;
