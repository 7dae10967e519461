//! Tests of app_lock, the example of docs/SERVICE.md: its snapshots, and a group that replicates it. Lines of a
//! script, at their limits.
#![tactic(auto)]

#[cfg(test)]
mod lines;
#[cfg(test)]
mod locks;
#[cfg(test)]
mod plays;
