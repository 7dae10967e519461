//! The outbox: messages that a member holds until the entries that they rest on are firm.
#![tactic(auto)]

pub mod laws;
pub mod outbox;
