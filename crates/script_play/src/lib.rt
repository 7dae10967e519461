//! A script that is read line by line; each line is played when it is read.
#![tactic(auto)]

pub mod app;
pub mod script;
pub mod status;
pub mod totals;
