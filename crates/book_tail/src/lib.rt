//! What a store keeps of a member's entries beside a checkpoint, as bytes. That a checkpoint stands
//! for the log before it is Dura-SMaRt's (USENIX ATC 2013); what is kept beside it is this project's
//! own rule.
#![tactic(auto)]

pub mod tail;
