//! A bounded queue with one end that puts and one end that takes, each for a thread of its own.
#![tactic(auto)]

pub mod ends;
pub mod put_end;
pub mod rule;
pub mod take_end;
pub mod told;
