//! The pool: requests that wait to be proposed, one for each client, in the order in which the
//! clients came.
#![tactic(auto)]

mod gather;
pub mod laws;
pub mod pool;
