//! How the two ends are made and brought together.
ghost use Rattle.std.specs.Prelude.{◌≡◌, ◌<◌, ◌≤◌, ◌++◌, [], List, length, IfOk};
ghost use Rattle.group_links.specs.Link.{link_put, link_heard_taken, link_capacity, link_taken, link_heard_put, in_link, out_link};

use crate::inward::LinkIn;
use crate::outward::LinkOut;
use queue_ends::ends::pair;
use std::alloc::{AllocError, Global};

/// How many messages were put on the link and taken from it.
#[derive(Clone, Copy, Debug, PartialEq, Eq)]
pub struct LinkEnd {
    pub put: u64,
    pub taken: u64,
}

/// The two ends of a new link. No later call takes memory. A link of capacity 0 drops every message.
pub fn link<T: Drop>(alloc: Global, capacity: usize) -> Result<(LinkIn<T>, LinkOut<T>), AllocError>
    ensures link { IfOk result (λ r. in_link r.0 ≡ out_link r.1) }
    ensures inward { IfOk result (λ r. (link_put r.0 ≡ []) × (link_heard_taken r.0 ≡ []) × (link_capacity r.0 ≡ capacity)) }
    ensures outward { IfOk result (λ r. (link_taken r.1 ≡ []) × (link_heard_put r.1 ≡ [])) }
{
    // The queue under it holds one message at least.
    let (puts, takes) = pair(alloc, capacity.max(1))?;
    let inward = LinkIn {
        items: puts,
        capacity: capacity as u64,
    };
    Ok((inward, LinkOut { items: takes }))
}

/// Both ends of one link are done. What was taken is a front of what was put.
pub fn rejoin<T: Drop>(inward: LinkIn<T>, outward: LinkOut<T>) -> LinkEnd
    requires { in_link inward ≡ out_link outward }
    ensures put { result.put ≡ length (link_put inward) }
    ensures taken { result.taken ≡ length (link_taken outward) }
    ensures order { (rest : List T) × (link_put inward ≡ link_taken outward ++ rest) }
    ensures counts { result.taken ≤ result.put }
{
    let LinkIn {
        items: puts,
        capacity: _,
    } = inward;
    let LinkOut { items: takes } = outward;
    let counts = queue_ends::ends::rejoin(puts, takes);
    LinkEnd {
        put: counts.put,
        taken: counts.taken,
    }
}
