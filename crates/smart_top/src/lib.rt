//! The top call: from a program's words and input to its output and status.
#![tactic(auto)]

pub mod audit;
pub mod group;
pub mod laws;
pub mod load;
pub mod node;
pub mod reader;
pub mod report;
pub mod top;
