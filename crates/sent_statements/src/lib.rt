//! The statements that members have sent by their trails, and those that came and were not sent.
#![tactic(auto)]

pub mod coming;
pub mod made;
pub mod sending;
