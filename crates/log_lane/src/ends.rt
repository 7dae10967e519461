//! How the two ends are made and brought together.
ghost use Rattle.std.specs.Prelude.{◌≡◌, ◌<◌, ◌≤◌, ◌++◌, [], List, length, IfOk};
ghost use Rattle.log_lane.specs.Lane.{lane_put, lane_read, lane_heard, lane_capacity, lane_taken, lane_raised, lane_heard_put, in_lane, out_lane};

use crate::inward::LaneIn;
use crate::outward::LaneOut;
use crate::word::{Reads, Roles, Word};
use queue_ends::ends::pair;
use std::alloc::{AllocError, Global};
use std::sync::Arc;

/// How many entries were put, taken and stored.
#[derive(Clone, Copy, Debug, PartialEq, Eq)]
pub struct LaneEnd {
    pub put: u64,
    pub taken: u64,
    pub firm: u64,
}

/// The two ends of a new lane. No later call takes memory. A lane of capacity 0 never has room.
pub fn lane<T: Drop>(alloc: Global, capacity: usize) -> Result<(LaneIn<T>, LaneOut<T>), AllocError>
    ensures lane { IfOk result (λ r. in_lane r.0 ≡ out_lane r.1) }
    ensures inward { IfOk result (λ r. (lane_put r.0 ≡ []) × (lane_read r.0 ≡ 0) × (lane_heard r.0 ≡ 0) × (lane_capacity r.0 ≡ capacity)) }
    ensures outward { IfOk result (λ r. (lane_taken r.1 ≡ []) × (lane_raised r.1 ≡ 0) × (lane_heard_put r.1 ≡ [])) }
{
    // The queue under it holds one entry at least.
    let (puts, takes) = pair(alloc, capacity.max(1))?;
    let (word, mut seat) = Word::of_words(alloc, &[0], &())?;
    let other = word.shared.split_seat::<Roles>(&mut seat);
    let word = Arc::new(alloc, word)?;
    let theirs = Arc::try_clone(&word)?;
    let inward = LaneIn {
        items: puts,
        word,
        seat,
        capacity: capacity as u64,
        read: 0,
    };
    let outward = LaneOut {
        items: takes,
        word: theirs,
        seat: other,
        raised: 0,
    };
    Ok((inward, outward))
}

/// Both ends of one lane are done. What was taken is a front of what was put. What `firm` has
/// answered is at most what was raised, that at most what was taken, and that at most what was put.
pub fn rejoin<T: Drop>(inward: LaneIn<T>, outward: LaneOut<T>) -> LaneEnd
    requires { in_lane inward ≡ out_lane outward }
    ensures put { result.put ≡ length (lane_put inward) }
    ensures taken { result.taken ≡ length (lane_taken outward) }
    ensures firm { result.firm ≡ lane_raised outward }
    ensures order { (rest : List T) × (lane_put inward ≡ lane_taken outward ++ rest) }
    ensures numbers { (lane_read inward ≤ result.firm) × (result.firm ≤ result.taken) × (result.taken ≤ result.put) }
{
    let LaneIn {
        items: puts,
        word,
        mut seat,
        capacity: _,
        read: _,
    } = inward;
    let LaneOut {
        items: takes,
        word: _,
        seat: other,
        raised,
    } = outward;
    word.shared.join_seat::<Roles>(&mut seat, other);
    word.shared.load::<Reads>(&mut seat, 0);
    let counts = queue_ends::ends::rejoin(puts, takes);
    LaneEnd {
        put: counts.put,
        taken: counts.taken,
        firm: raised,
    }
}
