//! A member's book: its entries, their bytes, and which entries it admits.
#![tactic(auto)]

pub mod book;
pub mod codec;
pub mod entry;
pub mod laws;
pub mod votes;
