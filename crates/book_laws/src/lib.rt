//! The laws of a book's cut: what a store keeps of a member's entries beside a checkpoint.
#![tactic(auto)]

pub mod laws;
