//! Why a line is not read.
use world_rules::line::Kind;

/// Why a line is not read.
#[derive(Clone, Copy, Debug, PartialEq, Eq)]
pub enum LineFault {
    /// It has no meaning, and this is the first thing that is wrong with it.
    Kind { kind: Kind },
    /// Memory ran out.
    NoMemory,
}
