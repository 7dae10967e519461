//! The audit of recorded runs: each member's trail is replayed by a node of its own. Also, whether they are quiet.
#![tactic(auto)]

pub mod audit;
mod damage;
pub mod quiet;
pub mod reader;
mod replay;
