//! Where bytes come from and where they go.
#![tactic(auto)]

pub mod memory;
pub mod standard;
pub mod stream;
