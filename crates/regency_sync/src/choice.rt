//! The choice of reports.
use smart_base::bytes::Digest32;

/// The beginning of a regency, as reports leave it.
#[derive(Clone, Copy, Debug, PartialEq, Eq)]
pub struct Choice {
    /// The first place that is decided in the regency, from 1 to 2^63.
    pub base: u64,
    /// The digest that alone may be decided at that place, if one binds.
    pub bound: Option<Digest32>,
}
