//! Disks over real files: the edge at which a system is trusted.
#![tactic(auto)]

pub mod file;
