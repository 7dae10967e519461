//! What is left of a node once its loops are joined.
ghost use Rattle.std.specs.Prelude.{◌≡◌, ◌≤◌, ◌+◌, ◌-◌, false, true, length};
ghost use Rattle.std.specs.Io.KnownBytes.{Appends};
ghost use Rattle.faults.specs.Counts.{Rose};
ghost use Rattle.log_lane.specs.Lane.{lane_taken};
ghost use Rattle.group_links.specs.Link.{link_put, link_taken, in_link, out_link};
ghost use Rattle.trail.specs.Trails.{trail_text};
ghost use Rattle.trail_rules.specs.Replays.{core_steps, replay, arrivals, needed, Released};
ghost use Rattle.node_played.specs.Lives.{made_texts, IsEndLast};
ghost use Rattle.node_seat.specs.Seats.{payloads, IsFirst, HasWrittenFirst};

use disk_model::disk::Disk;
use durable_store::store::Store;
use group_links::ends::LinkEnd;
use group_links::inward::LinkIn;
use group_links::outward::LinkOut;
use log_lane::ends::LaneEnd;
use log_worker::home::Home;
use log_worker::worker::LogWorker;
use node_core::node::NodeCore;
use node_played::played::Played;
use node_seat::place::Place;
use node_seat::seat::{Seat, SeatParts};
use smart_base::sequence::Bytes;
use smart_io::stream::Sink;
use smart_service::service::Service;
use trail::event::TrailEvent;

/// What is left of a node.
pub struct NodeEnd<S: Service, O: Sink, D: Disk> {
    pub core: NodeCore<S>,
    /// Whether want of memory stopped an event half-way, so that the core may be another.
    pub stuck: bool,
    /// All that happened to the node.
    pub trail: Vec<TrailEvent>,
    /// The sink of the trail.
    pub sink: O,
    /// Whether nothing more was to happen to the node.
    pub over: bool,
    /// Whether the sink of the trail has failed.
    pub failed: bool,
    pub store: Store<D>,
    pub lane: LaneEnd,
    pub arriving: LinkEnd,
    pub leaving: LinkEnd,
}

/// Whether want of memory stopped an event of a core half-way. If it did, the seat is over.
fn is_stuck<S: Service, P: Place<S>>(inner: &Played<S, P>, over: bool) -> bool
    requires { over ≡ false → inner.now.stuck ≡ false }
    ensures whole { over ≡ false → result ≡ false }
    ensures kept { result ≡ false → inner.now.stuck ≡ false }
{
    over && !inner.is_whole()
}

/// Takes a seat apart whose loops are joined, and brings the ends of its lane and of its links together.
pub fn finish<S: Service, P: Place<S>, O: Sink, D: Disk, H: Home>(
    seat: Seat<S, P, O>,
    arriving: LinkIn<Bytes>,
    leaving: LinkOut<Bytes>,
    worker: LogWorker<D, H>,
) -> NodeEnd<S, O, D>
    requires lane { (P.lane ≡ H.lane) × (P.restored ≡ H.restored) }
    requires links { (in_link arriving ≡ P.arriving) × (out_link leaving ≡ P.leaving) }
    ensures same { (result.trail ≡ seat.inner.trail) × (result.over ≡ seat.over) }
    ensures store { result.store ≡ worker.store }
    // The core is the replay of the trail, unless an event stopped half-way.
    ensures kept { result.stuck ≡ false → (result.core.broken ≡ false) × (result.core.node ≡ replay (core_steps S.meaning) P.opening result.trail.items) }
    ensures whole { result.over ≡ false → result.stuck ≡ false }
    // No event stands behind the end of the trail.
    ensures end_last { IsEndLast result.trail.items }
    // Each message that left is the next release of the replay there, and needed no more entries than are firm in the store.
    ensures released { Released (core_steps S.meaning) P.opening result.trail.items }
    ensures needs { needed (core_steps S.meaning) P.opening result.trail.items ≤ result.store.plan.firm }
    // What the trail says is firm is firm in the store. The entries put into the lane are those that the replay made.
    ensures firm { (replay (core_steps S.meaning) P.opening result.trail.items).firm ≤ result.store.plan.firm }
    ensures put { result.lane.put ≡ length (replay (core_steps S.meaning) P.opening result.trail.items).entries - P.restored }
    ensures lane { (P.restored + result.lane.firm ≤ result.store.plan.firm) × ((result.lane.firm ≤ result.lane.taken) × (result.lane.taken ≤ result.lane.put)) }
    // What the trail says is firm, and what its messages needed, was said to be stored by the lane.
    ensures ends { ((replay (core_steps S.meaning) P.opening result.trail.items).firm ≤ P.restored + result.lane.firm) × (needed (core_steps S.meaning) P.opening result.trail.items ≤ P.restored + result.lane.firm) }
    // What the worker took is a front of the entries that the replay made.
    ensures counts { result.lane.taken ≡ length (lane_taken worker.lane) }
    ensures took { IsFirst (lane_taken worker.lane) (made_texts P.restored (replay (core_steps S.meaning) P.opening result.trail.items).entries) }
    // What arrived by the trail is a front of what came in, and what was written is one of what the trail sends.
    ensures came { IsFirst (arrivals result.trail.items) (link_put arriving) }
    ensures all_came { result.over ≡ false → result.arriving.taken ≡ result.arriving.put → arrivals result.trail.items ≡ link_put arriving }
    ensures left { IsFirst (link_taken leaving) (payloads result.trail.items) }
    ensures all_left { result.over ≡ false → result.leaving.taken ≡ result.leaving.put → payloads result.trail.items ≡ link_taken leaving }
    ensures text { HasWrittenFirst P.begun (O.written result.sink) (trail_text P.head P.entries result.trail.items) }
    ensures all_text { result.over ≡ false → Appends P.begun (O.written result.sink) (trail_text P.head P.entries result.trail.items) }
    ensures failed { result.failed ≡ true → Rose P.failures (O.faults result.sink) }
{
    let SeatParts {
        inner,
        from,
        to,
        sink,
        over,
        cut: _,
        failed,
    } = seat.into_parts();
    let stuck = is_stuck(&inner, over);
    let (core, trail, inward) = inner.into_parts();
    let (outward, store) = worker.into_parts();
    let lane = log_lane::ends::rejoin(inward, outward);
    let came = group_links::ends::rejoin(arriving, from);
    let left = group_links::ends::rejoin(to, leaving);
    NodeEnd {
        core,
        stuck,
        trail,
        sink,
        over,
        failed,
        store,
        lane,
        arriving: came,
        leaving: left,
    }
}
