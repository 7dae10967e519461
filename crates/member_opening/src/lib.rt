//! How a node begins: its devices are taken from a room, its store restores a core, and its trail gets a head.
#![tactic(auto)]

pub mod devices;
pub mod fault;
pub mod heading;
pub mod restoring;
pub mod settings;
