//! The ends of a running node: frames that an input brings go onto a link, messages of a link go as
//! frames to an output. And what a loop waits for: a gate, and the time of a tick.
#![tactic(auto)]

pub mod intake;
pub mod outlet;
pub mod waits;
pub mod watch;
