//! What members exchange so that one takes over another's replica (collaborative state transfer:
//! Dura-SMaRt, USENIX ATC 2013). These are asks, offers, parts of snapshots and decided batches, with
//! the bytes of each.
#![tactic(auto)]

pub mod codec;
pub mod laws;
pub mod transfer;
