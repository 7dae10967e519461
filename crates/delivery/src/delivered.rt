//! What a delivery gives.
use crate::views::Begun;
use smart_base::sequence::Sequence;
use smart_service::table::Execution;

/// The executions of a batch, in order, and the view that it began, if it began one.
#[derive(Drop)]
pub struct Delivered {
    pub lines: Sequence<Execution>,
    pub begun: Option<Begun>,
}
