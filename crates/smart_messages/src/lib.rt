//! The messages that members and clients send each other, and the bytes of each.
#![tactic(auto)]

pub mod codec;
pub mod laws;
pub mod message;
pub mod party;
pub mod regency;
