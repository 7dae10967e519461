//! How a member that lags takes over a replica (collaborative state transfer: Dura-SMaRt, USENIX ATC
//! 2013): which snapshot it fetches and from whom, and what comes of the parts. The checkpoint comes
//! from one member. It is checked against what more members than may be faulty marked.
#![tactic(auto)]

pub mod choice;
pub mod fetch;
pub mod laws;
pub mod plan;
pub mod seed;
