//! The values that every layer speaks of: lists, numbers and names as types, and views.
#![tactic(auto)]

pub mod bytes;
pub mod cursor;
pub mod decimal;
pub mod duplicate;
pub mod equality;
pub mod fault;
pub mod field;
pub mod keys;
pub mod limits;
pub mod name;
pub mod number;
pub mod party;
pub mod sequence;
pub mod view;
pub mod view_bytes;
