//! The words of a command line, read by the parser of clap.
#![tactic(auto)]

pub mod command;
pub mod laws;
mod node_options;
mod node_values;
pub mod node_words;
