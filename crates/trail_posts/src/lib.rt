//! What was sent, lost and received by recorded runs, message by message.
#![tactic(auto)]

pub mod counts;
pub mod posts;
