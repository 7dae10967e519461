//! Tests of the disks over files. What is kept on disks is played by the lives of store_lives.
#![tactic(auto)]

#[cfg(test)]
mod disks;
