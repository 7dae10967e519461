//! Collaborative state transfer at a member's node (Dura-SMaRt, USENIX ATC 2013): what it gives to a
//! member that asks for state, and the plan that it makes of the offers that it got.
#![tactic(auto)]

pub mod answers;
pub mod plans;
