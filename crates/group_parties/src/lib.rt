//! The parties of a group: their stores are opened and their trails begun, each gets its links and its seat, they
//! run in threads and play the rest without, and each is taken apart.
#![tactic(auto)]

pub mod client;
pub mod course;
pub mod crew;
pub mod ending;
pub mod naming;
pub mod playing;
pub mod running;
pub mod seating;
