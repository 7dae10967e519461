//! The run of a whole group: its parties are assembled, they run, and all is put back and audited.
#![tactic(auto)]

pub mod clocks;
pub mod closing;
pub mod concluding;
pub mod judging;
pub mod lines;
pub mod parties;
pub mod run;
pub mod status;
