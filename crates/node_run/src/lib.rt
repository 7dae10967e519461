//! One member of a group as a program: its store is opened, its node runs in threads over frames, and all is put
//! back.
#![tactic(auto)]

pub mod life;
pub mod member;
pub mod naming;
pub mod status;
pub mod wires;
