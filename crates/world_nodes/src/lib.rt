//! What happens at the nodes of a world: events, device calls, deliveries, crashes and restarts.
#![tactic(auto)]

pub mod crashes;
pub mod deliveries;
pub mod events;
