//! The lane and the links of a node.
ghost use Rattle.std.specs.Prelude.{IfOk};
ghost use Rattle.node_run.specs.Wires.{AreFresh};

use group_links::ends::link;
use group_links::inward::LinkIn;
use group_links::outward::LinkOut;
use log_lane::ends::lane;
use log_lane::inward::LaneIn;
use log_lane::outward::LaneOut;
use log_worker::text::EntryText;
use smart_base::sequence::Bytes;
use std::alloc::{AllocError, Global};

/// How many entries may be made before the first of them is firm.
const LANE: usize = 1024;

/// How many messages may wait on a link.
const LINK: usize = 1024;

/// Both ends of a node's lane and of its two links: from the thread that reads frames, and to the thread
/// that writes them.
#[derive(Drop)]
pub struct Wires {
    pub lane_in: LaneIn<EntryText>,
    pub lane_out: LaneOut<EntryText>,
    pub arriving_in: LinkIn<Bytes>,
    pub arriving_out: LinkOut<Bytes>,
    pub leaving_in: LinkIn<Bytes>,
    pub leaving_out: LinkOut<Bytes>,
}

/// A lane and two links that carry nothing yet. Error: want of memory.
pub fn new_wires(alloc: Global) -> Result<Wires, AllocError>
    ensures { IfOk result AreFresh }
{
    let (lane_in, lane_out) = lane(alloc, LANE)?;
    let (arriving_in, arriving_out) = link(alloc, LINK)?;
    let (leaving_in, leaving_out) = link(alloc, LINK)?;
    Ok(Wires {
        lane_in,
        lane_out,
        arriving_in,
        arriving_out,
        leaving_in,
        leaving_out,
    })
}
