//! A lane from the thread that makes entries to the thread that stores them, with the number of the
//! stored entries on the way back.
#![tactic(auto)]

pub mod ends;
pub mod inward;
pub mod outward;
pub mod stored;
pub mod word;
