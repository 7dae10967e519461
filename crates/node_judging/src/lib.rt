//! The judging of what arrives at a member's node: why a message is dropped, and what is kept of the
//! others.
#![tactic(auto)]

mod arrivals;
pub mod asks;
mod marks;
mod reasons;
mod reports;
pub mod taking;
pub mod transfers;
