//! Gates.
ghost use Rattle.std.specs.Prelude.{◌≡◌, true};

use smart_base::name::MemberId;

/// A point at which a worker asks a gate.
#[derive(Clone, Copy, Debug, PartialEq, Eq)]
pub enum Point {
    /// A group of entries is about to be written. `decided` is the greatest place that is decided in it,
    /// 0 if none is.
    BeforeWrite { decided: u64 },
    /// The batch of this place was delivered.
    Delivered { place: u64 },
}

/// The number of times that a worker asks a gate at one point. Then it goes on.
pub const ASKS: u32 = 1_000_000;

/// A gate, which may hold a member's worker at a point for a while. It cannot fail.
pub trait Gate {
    /// Whether the worker may go on. If not, it asks again, at most `ASKS` times.
    fn at(&self, member: MemberId, point: Point) -> bool;
}

/// A gate that holds nobody.
#[derive(Clone, Copy, Debug)]
pub struct OpenGate;

impl Gate for OpenGate {
    fn at(&self, _member: MemberId, _point: Point) -> bool
        ensures { result ≡ true }
    {
        true
    }
}
