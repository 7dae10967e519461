//! Views made of members in any order, and the sizes that a view gives (Mod-SMaRt, EDCC 2012).
#![tactic(auto)]

pub mod fault;
pub mod laws;
pub mod making;
pub mod size;
