//! A group before it runs, made of what was opened and gathered.
ghost use Rattle.std.specs.Prelude.{◌≡◌, ◌≤◌, ◌<◌, ◌+◌, ◌++◌, ◌∷◌, [], ℕ, slice_index_or, vec_len, vec_capacity, Some, IfOk};
ghost use Rattle.smart_base.specs.Lists.{Each};
ghost use Rattle.store_laws.specs.Restored.{Images};
ghost use Rattle.group_wires.specs.Wires.{AreFresh};
ghost use Rattle.group_parties.specs.Assembled.{headed_of, station_of};
ghost use Rattle.group_opening.specs.Berths.{AreBerths};
ghost use Rattle.group_parties.specs.Crews.{HasHeads, IsCrew};
ghost use Rattle.group_opening.specs.Lanes.{AreFreshLanes};
ghost use Rattle.group_opening.specs.Runs.{client_head};

use crate::client::ClientStation;
use crate::seating::Station;
use disk_model::disk::Disk;
use group_ends::inbox::Inbox;
use group_opening::berth::Berth;
use group_opening::gathering::Lane;
use group_opening::settings::GroupSettings;
use group_wires::dealing::Wires;
use group_wires::row::Row;
use smart_base::sequence::{Bytes, Sequence};
use smart_io::stream::Sink;
use smart_service::service::Service;
use std::alloc::{AllocError, Global};
use trail::opening::TrailOpening;

/// The head of a member's trail, and the entries that follow it.
#[derive(Drop)]
pub struct Headed {
    pub head: TrailOpening,
    pub entries: Sequence<Bytes>,
}

/// A group before it runs: its client, its members ascending, and the heads of their trails.
pub struct Crew<S: Service, D: Disk, O: Sink> {
    pub client: ClientStation<O>,
    pub stations: Vec<Station<S, D, O>>,
    pub heads: Vec<Headed>,
}

/// Places for the members of a group, and for the heads of their trails.
pub struct Berthed<S: Service, D: Disk, O: Sink> {
    pub stations: Vec<Station<S, D, O>>,
    pub heads: Vec<Headed>,
}

/// Places for so many. Error: want of memory.
pub fn places<T>(alloc: Global, count: usize) -> Result<Vec<T>, AllocError>
    ensures { IfOk result (λ v. (v.items ≡ []) × (count ≤ vec_capacity v)) }
{
    let mut made = Vec::new(alloc);
    if made.reserve(count).is_err() {
        made.destroy_empty();
        return Err(AllocError);
    }
    Ok(made)
}

/// Places for the members of a group, and for the heads of their trails. Error: want of memory.
pub fn berth_places<S: Service, D: Disk, O: Sink>(
    alloc: Global,
    count: usize,
) -> Result<Berthed<S, D, O>, AllocError>
    ensures { IfOk result (λ b. (b.stations.items ≡ []) × ((b.heads.items ≡ []) × ((count ≤ vec_capacity b.stations) × (count ≤ vec_capacity b.heads)))) }
{
    let heads = places(alloc, count)?;
    let stations = places(alloc, count)?;
    Ok(Berthed { stations, heads })
}

/// Puts a member and the head of its trail behind others.
fn add_member<S: Service, D: Disk, O: Sink>(
    made: &mut Berthed<S, D, O>,
    berth: Berth<S, D>,
    lane: Lane,
    row: Row,
    inbox: Inbox,
    sink: O,
)
    requires room { (vec_len made.old.stations + 1 ≤ vec_capacity made.old.stations) × (vec_len made.old.heads + 1 ≤ vec_capacity made.old.heads) }
    ensures stations { made.new.stations.items ≡ made.old.stations.items ++ station_of berth lane row inbox sink ∷ [] }
    ensures heads { made.new.heads.items ≡ made.old.heads.items ++ headed_of berth ∷ [] }
    ensures many { (vec_len made.new.stations ≡ vec_len made.old.stations + 1) × (vec_len made.new.heads ≡ vec_len made.old.heads + 1) }
    ensures room { (vec_capacity made.new.stations ≡ vec_capacity made.old.stations) × (vec_capacity made.new.heads ≡ vec_capacity made.old.heads) }
{
    let Berth {
        settings,
        core,
        head,
        entries,
        store,
    } = berth;
    let Lane { inward, outward } = lane;
    made.heads.push_reserved(Headed { head, entries });
    made.stations.push_reserved(Station {
        member: settings.member,
        core,
        store,
        lane_in: inward,
        lane_out: outward,
        row,
        inbox,
        sink,
    });
}

/// A group before it runs. It takes no memory, as there are places for all. The sinks are the client's and
/// then the members', ascending.
pub fn crew_of<S: Service, D: Disk, O: Sink>(
    settings: &GroupSettings,
    client: &TrailOpening,
    berths: Vec<Berth<S, D>>,
    sinks: Vec<O>,
    lanes: Vec<Lane>,
    wires: Wires,
    made: Berthed<S, D, O>,
) -> Crew<S, D, O>
    requires client { client.now ≡ client_head settings.now }
    requires many { (vec_len berths ≡ settings.now.members) × ((vec_len sinks ≡ settings.now.members + 1) × (vec_len lanes ≡ settings.now.members)) }
    requires lanes { Each AreFreshLanes lanes.items }
    requires wires { AreFresh settings.now.members wires }
    requires empty { (made.stations.items ≡ []) × (made.heads.items ≡ []) }
    requires room { (settings.now.members ≤ vec_capacity made.stations) × (settings.now.members ≤ vec_capacity made.heads) }
    ensures crew { (images : ℕ → Images) → AreBerths S.meaning D.told D.cells images settings.now 1 berths.items → HasHeads O.written settings.now client.now berths.items sinks.items → IsCrew S.meaning D.told D.cells O.written images settings.now result }
    ensures sinks { (d : O) → result.client.sink ≡ slice_index_or sinks.items 0 d }
    ensures members { (i : ℕ) (d : O) (s : _) → i < settings.now.members → (slice_index_or result.stations.items i s).sink ≡ slice_index_or sinks.items (i + 1) d }
    ensures stores { (i : ℕ) (b : _) (s : _) → i < settings.now.members → (slice_index_or result.stations.items i s).store ≡ (slice_index_or berths.items i b).store }
{
    let mut made = made;
    let mut berths = berths;
    let mut sinks = sinks;
    let mut lanes = lanes;
    let Wires {
        mut rows,
        mut inboxes,
    } = wires;
    let Some(client_row) = rows.pop() else {
        unreachable!()
    };
    let Some(client_inbox) = inboxes.pop() else {
        unreachable!()
    };
    while let Some(berth) = berths.pop() {
        let Some(lane) = lanes.pop() else {
            unreachable!()
        };
        let Some(row) = rows.pop() else {
            unreachable!()
        };
        let Some(inbox) = inboxes.pop() else {
            unreachable!()
        };
        let Some(sink) = sinks.pop() else {
            unreachable!()
        };
        add_member(&mut made, berth, lane, row, inbox, sink);
    }
    berths.destroy_empty();
    let Some(client_sink) = sinks.pop() else {
        unreachable!()
    };
    sinks.destroy_empty();
    let Berthed {
        mut stations,
        mut heads,
    } = made;
    stations.reverse();
    heads.reverse();
    Crew {
        client: ClientStation {
            row: client_row,
            inbox: client_inbox,
            sink: client_sink,
        },
        stations,
        heads,
    }
}
