//! How the client of a group gets its seat.
ghost use Rattle.std.specs.Prelude.{◌≡◌, ◌≤◌, [], false, None, IfOk, IfErr};
ghost use Rattle.client_quorum.specs.Clients.{fresh};
ghost use Rattle.group_opening.specs.Runs.{client_head};
ghost use Rattle.group_parties.specs.Stations.{AreLinksOf, IsSinkOf};

use client_quorum::client::Client;
use client_seat::seat::{CLIENT, ClientSeat};
use group_ends::inbox::Inbox;
use group_ends::journal::Journal;
use group_opening::settings::GroupSettings;
use group_wires::row::Row;
use node_course::group_life::GroupLife;
use smart_base::duplicate::Duplicate;
use smart_base::name::ClientId;
use smart_base::sequence::Bytes;
use smart_io::stream::Sink;
use smart_keys::ring::Ring;
use smart_service::service::Service;
use std::alloc::{AllocError, Global};

/// What the client of a group begins with.
pub struct ClientStation<O: Sink> {
    pub row: Row,
    pub inbox: Inbox,
    /// The sink of its trail, which has the trail's head.
    pub sink: O,
}

/// The secret of the group as keys. Error: want of memory.
fn ring_of(alloc: Global, settings: &GroupSettings) -> Result<Ring, AllocError>
    ensures { IfOk result (λ ring. ring ≡ settings.now.secret) }
{
    Ok(Ring::from_secret(Bytes::from_slice(alloc, settings.secret.as_slice())?))
}

/// The client, which has not asked and knows the group's first view. Error: want of memory.
fn fresh_client(alloc: Global, settings: &GroupSettings) -> Result<Client, AllocError>
    ensures { IfOk result (λ client. client ≡ fresh settings.now.view 1) }
{
    let view = settings.view.duplicate(alloc)?;
    Client::new(alloc, view, ClientId::new(CLIENT))
}

/// The seat of the client. Error: want of memory; the sink of its trail comes back.
pub fn seat_client<P: GroupLife<S>, S: Service, O: Sink>(
    alloc: Global,
    settings: &GroupSettings,
    station: ClientStation<O>,
) -> Result<ClientSeat<P, O>, O>
    requires head { (P.head 0 ≡ client_head settings.now) × (P.entries 0 ≡ []) }
    requires links { AreLinksOf (record { head = P.head; entries = P.entries; begun = P.begun; failures = P.failures; receivers = P.receivers; leaving = P.leaving; arriving = P.arriving; lane = P.lane; restored = P.restored; opening = P.opening }) 0 station.row station.inbox }
    requires sink { IsSinkOf (record { head = P.head; entries = P.entries; begun = P.begun; failures = P.failures; receivers = P.receivers; leaving = P.leaving; arriving = P.arriving; lane = P.lane; restored = P.restored; opening = P.opening }) O.written O.faults 0 station.sink }
    ensures client { IfOk result (λ seat. (seat.client ≡ fresh settings.now.view 1) × ((seat.over ≡ false) × ((seat.pending ≡ None) × ((seat.idle ≡ 0) × (seat.journal.events.items ≡ []))))) }
    ensures back { IfErr result (λ sink. P.failures 0 ≤ O.faults sink) }
{
    let ClientStation { row, inbox, sink } = station;
    let Row { ports } = row;
    let Ok(ring) = ring_of(alloc, settings) else {
        return Err(sink);
    };
    let Ok(client) = fresh_client(alloc, settings) else {
        return Err(sink);
    };
    let journal: Journal<P, O> = Journal::new(alloc, 0, sink)?;
    Ok(ClientSeat::new(alloc, ring, client, journal, ports, inbox))
}
