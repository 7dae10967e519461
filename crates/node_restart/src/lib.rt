//! The restart of a node from the checkpoint and the entries that its disks restored (recovery:
//! Dura-SMaRt, USENIX ATC 2013).
#![tactic(auto)]

pub mod batch;
pub mod fault;
pub mod restart;
mod rests;
