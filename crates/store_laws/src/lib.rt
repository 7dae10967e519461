//! What a store is between two device calls, and its laws. A store has two logs and two slots, one of
//! each for the even and for the odd generations. The laws speak of definitions alone.
#![tactic(auto)]

pub mod job;
pub mod laws;
