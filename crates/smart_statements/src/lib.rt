//! The statements of members and clients, signed, in lists, batches and reports, with the bytes of
//! each. Also the events of a node.
#![tactic(auto)]

pub mod batch;
pub mod entry;
pub mod equality;
pub mod laws;
pub mod optional;
pub mod report;
pub mod signed;
pub mod signed_list;
pub mod statement;
