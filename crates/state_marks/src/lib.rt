//! What members sign of their replicas: after which places a member takes its checkpoint and all
//! mark, and the marks that a node keeps, with what enough of them show (checkpoints in turn are
//! Dura-SMaRt's, USENIX ATC 2013; signed marks are this project's own rule).
#![tactic(auto)]

pub mod counting;
pub mod laws;
pub mod place;
pub mod table;
