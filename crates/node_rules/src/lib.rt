//! The rules of a member's node: its state, the reasons to drop a message, what orders requests, what
//! changes the leader, and the step. The definitions are in `specs/`. The types that they match on
//! are here.
#![tactic(auto)]

pub mod node;
