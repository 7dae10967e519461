//! The core of a running member as the replay of its trail, with the journal that has the trail and the
//! end of the lane that has its entries.
#![tactic(auto)]

pub mod course;
pub mod group_life;
mod texts;
