//! What the loops at the ends of a node see of it.

/// What is to be done after a message could leave.
#[derive(Clone, Copy, Debug, PartialEq, Eq)]
pub enum Going {
    /// A message was put on the link.
    More,
    /// None leaves yet.
    Nothing,
    /// No message leaves any more.
    Last,
}

/// A node, as the loops at its ends see it. Each call may wait.
pub trait Watch {
    /// Whether no more is to come in.
    fn is_over(&mut self) -> bool;

    /// Lets the next message that leaves go onto its link.
    fn let_go(&mut self) -> Going;
}
