//! The places after which members take their checkpoints.
ghost use Rattle.std.specs.Prelude.{◌≡◌, ◌<◌, ◌≤◌, length};
ghost use Rattle.state_marks.specs.Places.{is_checkpoint_of, is_mark};

use smart_base::number::Place;
use smart_base::view::View;

/// Whether the member at an index takes its checkpoint after a place. The members share each
/// `period` of places evenly, in their order (checkpoints in turn are Dura-SMaRt's, USENIX ATC 2013;
/// that turns are counted in places is this project's own rule). It takes no memory.
pub fn checkpoint_place(view: &View, period: u32, index: usize, place: Place) -> bool
    requires some { 1 ≤ period }
    requires member { index < length view.now.members }
    ensures { result ≡ is_checkpoint_of view.now period index place }
{
    let period = period as u64;
    let share = period / view.members().len() as u64;
    place.get() % period == index as u64 * share
}

/// Whether a place is one after which some member takes its checkpoint: every node marks it. It
/// takes no memory.
pub fn is_mark_place(view: &View, period: u32, place: Place) -> bool
    requires { 1 ≤ period }
    ensures { result ≡ is_mark view.now period place }
{
    for index in 0..view.members().len() {
        if checkpoint_place(view, period, index, place) {
            return true;
        }
    }
    false
}
