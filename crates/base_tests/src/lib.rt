//! Tests of what every layer stands on: views and their bytes, digests, sources and sinks, and services
//! with their snapshots; of the turns of checkpoints; and of the scripts of loads.
#![tactic(auto)]

#[cfg(test)]
mod keys;
#[cfg(test)]
mod loads;
#[cfg(test)]
mod marks;
#[cfg(test)]
mod services;
#[cfg(test)]
mod snapshots;
#[cfg(test)]
mod streams;
#[cfg(test)]
mod views;
