//! The service that is replicated, and what a member keeps of it and its clients.
#![tactic(auto)]

pub mod fault;
pub mod replica;
pub mod service;
pub mod table;
