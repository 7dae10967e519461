//! Digests, and tags of parties under a secret that they share (HMAC, RFC 2104, over SHA-256).
#![tactic(auto)]

pub mod checked;
pub mod hash;
pub mod keyed;
pub mod known;
pub mod laws;
pub mod ring;
