//! How the two ends are made and brought together.
ghost use Rattle.std.specs.Prelude.{◌≡◌, ◌<◌, ◌≤◌, ◌++◌, [], List, length, IfOk};
ghost use Rattle.queue_ends.specs.Ends.{put_list, heard_taken, put_capacity, taken_list, heard_put, ArePair};

use crate::put_end::PutEnd;
use crate::rule::{Queue, Roles, Total};
use crate::take_end::TakeEnd;
use std::alloc::{AllocError, Global};
use std::sync::Arc;

/// How many items were put, and how many were taken.
#[derive(Clone, Copy, Debug, PartialEq, Eq)]
pub struct Counts {
    pub put: u64,
    pub taken: u64,
}

/// The two ends of a new queue, which holds at most `capacity` items. No later call takes memory.
pub fn pair<T: Drop>(alloc: Global, capacity: usize) -> Result<(PutEnd<T>, TakeEnd<T>), AllocError>
    requires { 0 < capacity }
    ensures pair { IfOk result (λ r. ArePair r.0 r.1) }
    ensures capacity { IfOk result (λ r. put_capacity r.0 ≡ capacity) }
    ensures put { IfOk result (λ r. (put_list r.0 ≡ []) × (heard_taken r.0 ≡ [])) }
    ensures taken { IfOk result (λ r. (taken_list r.1 ≡ []) × (heard_put r.1 ≡ [])) }
{
    let (queue, mut puts) = Queue::<T>::ruled(alloc, capacity)?;
    let takes = queue.another::<Roles>(&mut puts);
    let queue = Arc::new(alloc, queue)?;
    let theirs = Arc::try_clone(&queue)?;
    let put = PutEnd {
        queue,
        pass: puts,
        count: 0,
    };
    let take = TakeEnd {
        queue: theirs,
        pass: takes,
        count: 0,
    };
    Ok((put, take))
}

/// Both ends are done. What was taken is a front of what was put.
pub fn rejoin<T: Drop>(put: PutEnd<T>, take: TakeEnd<T>) -> Counts
    requires { ArePair put take }
    ensures put { result.put ≡ length (put_list put) }
    ensures taken { result.taken ≡ length (taken_list take) }
    ensures order { (rest : List T) × (put_list put ≡ taken_list take ++ rest) }
    ensures counts { result.taken ≤ result.put }
{
    let PutEnd {
        queue,
        mut pass,
        count: put,
    } = put;
    let TakeEnd {
        queue: _,
        pass: other,
        count: taken,
    } = take;
    queue.absorb::<Roles>(&mut pass, other);
    queue.learn_as::<Total>(&mut pass);
    Counts { put, taken }
}
