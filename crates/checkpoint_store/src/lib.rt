//! Two slots for checkpoints: the odd generations use one, the even ones the other. The newest that
//! counts is restored.
#![tactic(auto)]

pub mod job;
pub mod laws;
pub mod reading;
pub mod reopening;
pub mod store;
