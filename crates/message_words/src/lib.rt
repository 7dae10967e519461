//! What a transcript tells of a message that was sent: its kind and its numbers, and the words for
//! them.
#![tactic(auto)]

pub mod words;
