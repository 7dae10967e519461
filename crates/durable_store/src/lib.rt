//! A store over two generations: a newest checkpoint, and the entries of its log since. A crash at any
//! moment leaves what was firm, with or without what was being written.
#![tactic(auto)]

pub mod cell;
pub mod disks;
pub mod laws;
pub mod opening;
pub mod reading;
pub mod reopening;
pub mod store;
