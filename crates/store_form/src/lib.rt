//! The bytes that a store writes, for groups of entries and for checkpoints, and the ends of its
//! calls. Each value has one spelling.
#![tactic(auto)]

pub mod checkpoint;
pub mod ends;
pub mod group;
