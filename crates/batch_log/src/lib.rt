//! A log of groups of entries on a disk. A crash at any moment leaves the groups from before a call,
//! or these with the whole new one. Groups are Dura-SMaRt's batch write (USENIX ATC 2013); gates are
//! this project's own.
#![tactic(auto)]

pub mod job;
pub mod laws;
pub mod log;
pub mod reading;
pub mod reopening;
