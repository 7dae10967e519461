//! What a trail says of its node: the replay of its events, and what came and left by them.
#![tactic(auto)]

pub mod laws;
