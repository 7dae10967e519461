//! What the client of a group does: it asks for its amounts one after the other, and a line is written for
//! each reply that it accepts.
#![tactic(auto)]

pub mod asking;
pub mod reply_line;
pub mod turns;
