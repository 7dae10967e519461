//! How the view manager changes a group's view (reconfiguration: BFT-SMaRt, DSN 2014): the operation
//! that asks for a view, the view that begins, the cause for which none does, and the reply.
#![tactic(auto)]

pub mod apply;
pub mod change;
pub mod codec;
pub mod laws;
pub mod outcome;
pub mod views;
