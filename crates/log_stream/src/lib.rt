//! The reading of logs and slots in pieces. The entries of a log come one after the other, and memory
//! holds one piece of the log and one entry.
#![tactic(auto)]

pub mod device;
pub mod group;
pub mod laws;
pub mod reader;
pub mod slot;
pub mod window;
