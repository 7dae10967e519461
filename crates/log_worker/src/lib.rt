//! The worker that stores what comes out of a lane: group by group, and a new generation where a
//! snapshot was handed over.
#![tactic(auto)]

pub mod decided;
pub mod home;
pub mod laws;
pub mod storing;
pub mod taking;
pub mod text;
pub mod worker;
