//! How a group is gathered before it runs: the sinks of its trails, its lanes and its links.
ghost use Rattle.std.specs.Prelude.{◌≡◌, ◌≤◌, ◌+◌, ◌<◌, ◌^◌, [], ℕ, length, vec_len, vec_capacity, slice_index_or, IfOk, IsErrOf, OnErr, OnOk, Some, None, ◌++◌, ◌∷◌};
ghost use Rattle.faults.specs.Counts.{Rose};
ghost use Rattle.group_opening.specs.Berths.{IsHeaded};
ghost use Rattle.disk_model.specs.Rooms.{address, KeepsOthers};
ghost use Rattle.smart_base.specs.Lists.{Each};
ghost use Rattle.group_opening.specs.Lanes.{AreFreshLanes};
ghost use Rattle.group_opening.specs.Rooms.{IsLent, IsReturned, KeepsRest};
ghost use Rattle.group_opening.specs.Runs.{client_head};

use crate::berth::Berth;
use crate::settings::GroupSettings;
use crate::trails::take_trail;
use disk_model::disk::Disk;
use faults::Fault;
use log_lane::ends::lane;
use log_lane::inward::LaneIn;
use log_lane::outward::LaneOut;
use log_worker::text::EntryText;
use node_rooms::trails::TrailRoom;
use smart_base::duplicate::Duplicate;
use smart_base::name::MemberId;
use smart_base::sequence::{Bytes, Sequence};
use smart_service::service::Service;
use std::alloc::{AllocError, Global};
use trail::opening::{App, TrailOpening};

/// How many entries may be made before the first of them is firm.
const LANE: usize = 1024;

/// Both ends of a member's lane.
#[derive(Drop)]
pub struct Lane {
    pub inward: LaneIn<EntryText>,
    pub outward: LaneOut<EntryText>,
}

/// With what the trail of the client begins. Error: want of memory.
pub fn client_head(alloc: Global, settings: &GroupSettings) -> Result<TrailOpening, AllocError>
    ensures { IfOk result (λ head. head ≡ client_head settings.now) }
{
    Ok(TrailOpening {
        member: 0,
        period: settings.period,
        view: settings.view.duplicate(alloc)?,
        app: App::Count,
        secret: Bytes::from_slice(alloc, settings.secret.as_slice())?,
        snapshot: Bytes::new(alloc),
        entries: 0,
    })
}

/// As many lanes that carry nothing yet. Error: want of memory.
pub fn new_lanes(alloc: Global, count: usize) -> Result<Vec<Lane>, AllocError>
    ensures fresh { IfOk result (λ lanes. Each AreFreshLanes lanes.items) }
    ensures many { IfOk result (λ lanes. vec_len lanes ≡ count) }
{
    let mut lanes = Vec::new(alloc);
    for _made in 0..count {
        let (inward, outward) = lane(alloc, LANE)?;
        lanes.push(Lane { inward, outward })?;
    }
    Ok(lanes)
}

/// Keeps the sinks of trails of the parties from 0 on.
pub fn keep_sinks<T: TrailRoom>(trails: &mut T, dir: &[u8], sinks: Vec<T::Sink>)
    requires few { vec_len sinks ≤ 2 ^ 16 }
    requires taken { (index : ℕ) → index < vec_len sinks → (before : ℕ) × (T.taken trails.old (address dir.now index 0) ≡ Some before) }
    ensures later { T.faults trails.old ≤ T.faults trails.new }
    ensures returned { IsReturned dir.now 0 (vec_len sinks) 1 (record { before = T.kept trails.old; after = T.kept trails.new; taken_before = T.taken trails.old; taken_after = T.taken trails.new }) }
{
    let mut sinks = sinks;
    while let Some(sink) = sinks.pop() {
        trails.keep(dir, MemberId::new(sinks.len() as u16), sink);
    }
    sinks.destroy_empty();
}

/// Takes the sink of the client's trail, and writes its head. The place for so many more sinks is made. Errors:
/// a failure of the room or of the sink; want of memory. What was taken is kept then.
fn first_sink<T: TrailRoom>(
    alloc: Global,
    settings: &GroupSettings,
    client: &TrailOpening,
    count: usize,
    trails: &mut T,
) -> Result<Vec<T::Sink>, Fault>
    requires { count < 2 ^ 16 }
    ensures few { count < 2 ^ 16 }
    ensures many { IfOk result (λ sinks. vec_len sinks ≡ 1) }
    ensures room { IfOk result (λ sinks. count + 1 ≤ vec_capacity sinks) }
    ensures lent { IfOk result (λ _. IsLent settings.now.dir 0 1 1 (record { before = T.kept trails.old; after = T.kept trails.new; taken_before = T.taken trails.old; taken_after = T.taken trails.new })) }
    ensures back { OnErr result (KeepsRest settings.now.dir 0 (count + 1) 1 (record { before = T.kept trails.old; after = T.kept trails.new; taken_before = T.taken trails.old; taken_after = T.taken trails.new })) }
    ensures headed { IfOk result (λ sinks. (d : T.Sink) → IsHeaded T.Sink.written T.Sink.faults (T.taken trails.new) settings.now.dir 0 client.now [] (slice_index_or sinks.items 0 d)) }
    ensures cause { IsErrOf result Fault.Failed → Rose (T.faults trails.old) (T.faults trails.new) }
    ensures later { T.faults trails.old ≤ T.faults trails.new }
{
    let dir = settings.dir.as_slice();
    let mut sinks = Vec::new(alloc);
    if sinks.reserve(count + 1).is_err() {
        sinks.destroy_empty();
        return Err(Fault::NoMemory);
    }
    let none: Sequence<Bytes> = Sequence::new(alloc);
    match take_trail(
        alloc,
        trails,
        dir,
        MemberId::new(0),
        client,
        none.as_slice(),
    ) {
        Ok(sink) => {
            sinks.push_reserved(sink);
            Ok(sinks)
        }
        Err(fault) => {
            sinks.destroy_empty();
            Err(fault)
        }
    }
}

/// Takes the sink of one more trail behind those that are taken, and writes its head. Errors: a failure of the
/// room or of the sink, which is kept then; want of memory.
fn next_sink<T: TrailRoom>(
    alloc: Global,
    dir: &[u8],
    index: usize,
    head: &TrailOpening,
    entries: &[Bytes],
    trails: &mut T,
    sinks: &mut Vec<T::Sink>,
) -> Result<(), Fault>
    requires few { index + 1 < 2 ^ 16 }
    requires room { vec_len sinks.old < vec_capacity sinks.old }
    ensures more { OnOk result ((sink : T.Sink) × ((sinks.new.items ≡ sinks.old.items ++ sink ∷ []) × IsHeaded T.Sink.written T.Sink.faults (T.taken trails.new) dir.now (index + 1) head.now entries.now sink)) }
    ensures many { OnOk result ((vec_len sinks.new ≡ vec_len sinks.old + 1) × (vec_capacity sinks.new ≡ vec_capacity sinks.old)) }
    ensures free { OnOk result (T.taken trails.old (address dir.now (index + 1) 0) ≡ None) }
    ensures same { OnErr result (sinks.new ≡ sinks.old) }
    ensures others { KeepsOthers (address dir.now (index + 1) 0) (T.kept trails.old) (T.kept trails.new) }
    ensures others_taken { KeepsOthers (address dir.now (index + 1) 0) (T.taken trails.old) (T.taken trails.new) }
    ensures back { OnErr result (T.taken trails.new (address dir.now (index + 1) 0) ≡ T.taken trails.old (address dir.now (index + 1) 0)) }
    ensures cause { IsErrOf result Fault.Failed → Rose (T.faults trails.old) (T.faults trails.new) }
    ensures later { T.faults trails.old ≤ T.faults trails.new }
{
    let member = MemberId::new(index as u16 + 1);
    match take_trail(alloc, trails, dir, member, head, entries) {
        Ok(sink) => {
            sinks.push_reserved(sink);
            Ok(())
        }
        Err(fault) => Err(fault),
    }
}

/// Takes the sinks of all trails, the client's and then the members' ascending, and writes the heads of the
/// trails. Errors: a failure of the room or of a sink; want of memory. What was taken is kept then.
pub fn take_sinks<S: Service, D: Disk, T: TrailRoom>(
    alloc: Global,
    settings: &GroupSettings,
    client: &TrailOpening,
    berths: &[Berth<S, D>],
    trails: &mut T,
) -> Result<Vec<T::Sink>, Fault>
    requires client { client.now ≡ client_head settings.now }
    requires many { length berths.now ≡ settings.now.members }
    ensures many { IfOk result (λ sinks. vec_len sinks ≡ settings.now.members + 1) }
    // What belongs to others is as it was. After an error nothing more is taken than before.
    ensures lent { IfOk result (λ _. IsLent settings.now.dir 0 (settings.now.members + 1) 1 (record { before = T.kept trails.old; after = T.kept trails.new; taken_before = T.taken trails.old; taken_after = T.taken trails.new })) }
    ensures back { OnErr result (KeepsRest settings.now.dir 0 (settings.now.members + 1) 1 (record { before = T.kept trails.old; after = T.kept trails.new; taken_before = T.taken trails.old; taken_after = T.taken trails.new })) }
    ensures client { IfOk result (λ sinks. (d : T.Sink) → IsHeaded T.Sink.written T.Sink.faults (T.taken trails.new) settings.now.dir 0 client.now [] (slice_index_or sinks.items 0 d)) }
    ensures members { IfOk result (λ sinks. (i : ℕ) (d : T.Sink) (b : _) → i < settings.now.members → IsHeaded T.Sink.written T.Sink.faults (T.taken trails.new) settings.now.dir (i + 1) (slice_index_or berths.now i b).head (slice_index_or berths.now i b).entries (slice_index_or sinks.items (i + 1) d)) }
    ensures cause { IsErrOf result Fault.Failed → Rose (T.faults trails.old) (T.faults trails.new) }
    ensures later { T.faults trails.old ≤ T.faults trails.new }
{
    let dir = settings.dir.as_slice();
    let mut sinks = match first_sink(alloc, settings, client, berths.len(), trails) {
        Ok(sinks) => sinks,
        Err(fault) => return Err(fault),
    };
    for index in 0..berths.len() {
        let berth = &berths[index];
        match next_sink(
            alloc,
            dir,
            index,
            &berth.head,
            berth.entries.as_slice(),
            trails,
            &mut sinks,
        ) {
            Ok(()) => {}
            Err(fault) => {
                keep_sinks(trails, dir, sinks);
                return Err(fault);
            }
        }
    }
    Ok(sinks)
}
