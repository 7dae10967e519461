//! The rules of a replica: what a list of batches makes of the service and its clients, how members
//! and clients sign, and which requests wait. The definitions are in `specs/`.
#![tactic(auto)]
