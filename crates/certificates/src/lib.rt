//! Certificates: what enough members of a view have signed. Write certificates and decision proofs
//! are votes of a quorum (Mod-SMaRt, EDCC 2012). Mark certificates are marks of more than f members,
//! and collects are reports of n-f members.
#![tactic(auto)]

pub mod check;
pub mod collect;
pub mod fault;
pub mod laws;
mod list;
