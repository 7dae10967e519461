//! The beginning of a regency.
use smart_base::bytes::Digest32;

/// The beginning of a regency: from where on members vote in it (Mod-SMaRt, EDCC 2012; how the two
/// are chosen is this project's own rule).
#[derive(Clone, Copy, Debug, PartialEq, Eq)]
pub struct Start {
    /// The first place at which members vote, from 1 to 2^63.
    pub base: u64,
    /// The digest that alone may get votes at that place, if there is one.
    pub bound: Option<Digest32>,
}
