//! What a store is about to do: its state without the contents of its devices. No function here calls
//! a device.
#![tactic(auto)]

pub mod entries;
pub mod jobs;
pub mod plan;
pub mod stops;
