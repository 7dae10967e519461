//! Frames over a stream of bytes: each is the length of its payload in four bytes, and the payload.
#![tactic(auto)]

pub mod frame;
pub mod laws;
pub mod stream;
pub mod writing;
