//! The core of a running node as the replay of its trail, with the end of the lane that has its entries.
#![tactic(auto)]

pub mod life;
pub mod played;
mod texts;
