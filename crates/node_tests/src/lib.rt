//! Tests of what a node keeps of requests, and of what a client makes of replies.
#![tactic(auto)]

#[cfg(test)]
mod clients;
#[cfg(test)]
mod kit;
#[cfg(test)]
mod pools;
