//! What one end tells the other.
ghost use Rattle.std.specs.Prelude.{◌≡◌, []};

use crate::rule::Known;
use crossbeam_queue::Pass;

/// Tells what was put and what was taken, as far as the end knew that gave it. It has no bytes, and
/// can move to another thread.
#[derive(Drop)]
pub struct Told<T> {
    pub(crate) pass: Pass<T, Known<T>>,
    pub ghost ours: { pass.me.1 ≡ [] },
}
