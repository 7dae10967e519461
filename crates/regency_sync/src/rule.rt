//! The rules of a leader change that may be due.
/// The rules of a leader change (Mod-SMaRt, EDCC 2012), in their order. Adoption comes before them;
/// it is the node's, which asks its book.
#[derive(Clone, Copy, Debug, PartialEq, Eq)]
pub enum Rule {
    /// More than f members ask for the next regency: the member asks too.
    Join,
    /// 2f+1 members ask for the next regency: the member promises it, and reports to its leader.
    Promise,
    /// n-f members have reported: the leader begins its regency.
    Collect,
}
