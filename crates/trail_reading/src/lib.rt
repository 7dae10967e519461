//! How trails are read that stand one after the other, part by part.
#![tactic(auto)]

pub mod parts;
mod taking;
