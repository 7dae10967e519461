//! The laws of one node, whatever comes to it: its book stays lawful and tidy, and rests on what has
//! been stated. Its book shows what it holds.
#![tactic(auto)]

pub mod laws;
