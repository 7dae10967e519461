//! A disk as the layers above see it: what a read gives, and what a crash may leave.
#![tactic(auto)]

pub mod call;
pub mod disk;
pub mod image;
pub mod memory;
pub mod plain;
pub mod platter;
pub mod room;
