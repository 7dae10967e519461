//! The messages that were sent, what stands in them, the snapshots that were met, and the chosen list of
//! batches.
#![tactic(auto)]

pub mod chosen;
mod claims;
pub mod content;
pub mod ledger;
mod managed;
mod own;
pub mod secret;
mod stated;
