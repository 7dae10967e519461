//! Laws of audits of inputs.
#![tactic(auto)]

pub mod laws;
