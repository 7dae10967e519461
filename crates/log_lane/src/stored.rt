//! What the far end tells of the entries that are stored.
ghost use Rattle.std.specs.Prelude.{◌≡◌, ◌≤◌, [], length};
ghost use Rattle.queue_ends.specs.Ends.{told_taken};

use crate::word::WordSeat;
use queue_ends::told::Told;

/// Tells how many entries were stored, and that so many were put. It has no bytes, and can move to
/// another thread.
#[derive(Drop)]
pub struct Stored<T> {
    pub(crate) taken: Told<T>,
    pub(crate) seat: WordSeat,
    pub ghost ours: { seat.me.1 ≡ [] },
    pub ghost has_taken: { seat.me.0.heard ≤ length (told_taken taken) },
}
