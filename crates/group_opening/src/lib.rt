//! The opening of a group: its members' stores are opened ascending, the trails of all parties are begun, and their lanes are
//! made.
#![tactic(auto)]

pub mod berth;
pub mod gathering;
pub mod settings;
pub mod trails;
