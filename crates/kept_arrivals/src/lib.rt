//! A core: a node that keeps only what its rules still need, those of leader changes among them.
#![tactic(auto)]

pub mod laws;
