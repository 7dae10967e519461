//! Tests of what goes from one thread to another: the lane to a log and the links of a group, and
//! by them the queues with two ends.
#![tactic(auto)]

#[cfg(test)]
mod lanes;
#[cfg(test)]
mod links;
