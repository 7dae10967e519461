//! The laws of agreement: a place has one decision, whatever the faulty members of a view state, and
//! in whatever regencies. Each law is a function with an empty body, and speaks of definitions alone.
#![tactic(auto)]

pub mod agreement;
pub mod growth;
pub mod quorums;
pub mod statements;
