//! Trails: what happened to a node, and what it sent, in an order that can be played again. A trail is
//! an opening, the entries that the node began with, and events. Each has one spelling.
#![tactic(auto)]

pub mod event;
pub mod event_bytes;
pub mod laws;
pub mod opening;
pub mod opening_bytes;
pub mod writing;
