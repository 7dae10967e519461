//! How the life of one member's node comes to its end: why its loops ended, how its trail is closed, and what
//! is left of its seat. And how a batch that waits at the seat is delivered.
#![tactic(auto)]

pub mod delivering;
pub mod ending;
pub mod finishing;
pub mod settling;
