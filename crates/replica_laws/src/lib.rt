//! The laws of one node, whatever comes to it. It accepts once in a slot, delivers its decided
//! batches in order, and executes each request once. What it holds is its own, rests on its book and
//! is read from its bytes. Each law is a function with an empty body, and speaks of definitions
//! alone.
#![tactic(auto)]

pub mod laws;
