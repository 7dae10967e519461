//! The rules by which a member's node orders requests: it proposes, writes, accepts and decides
//! (Mod-SMaRt, EDCC 2012).
#![tactic(auto)]

pub mod decisions;
pub mod votes;
