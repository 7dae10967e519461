//! Rooms of a node: disks over files, and trails in memory or over files. A room knows which of its
//! things are taken, and counts the failures of what it gave.
#![tactic(auto)]

pub mod disks;
pub mod memory;
pub mod shelves;
pub mod trails;
pub mod written;
