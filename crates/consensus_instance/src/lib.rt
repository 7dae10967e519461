//! The instance of consensus in which a member takes part: the regency in force and its beginning,
//! what the member has heard, its votes, and what is due.
#![tactic(auto)]

mod find;
pub mod instance;
pub mod laws;
pub mod needed;
pub mod rule;
pub mod start;
