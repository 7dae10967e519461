//! The laws of a play: one list, for every script. Each law is a function with an empty body, and
//! speaks of definitions alone.
#![tactic(auto)]

pub mod cores;
pub mod knowing;
pub mod one_list;
pub mod promises;
pub mod rest;
pub mod stated;
