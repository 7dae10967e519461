//! The links of a whole group: one from each party to each, but that the client has none to itself.
#![tactic(auto)]

pub mod dealing;
pub mod laws;
pub mod parties;
pub mod rejoining;
pub mod row;
