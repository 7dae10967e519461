//! Messages that arrive at the parties that a line names.
ghost use Rattle.std.specs.Prelude.{◌≡◌, OnOk};
ghost use Rattle.smart_statements.specs.declared.entry.NodeEvent.TheVariants.{Arrive};
ghost use Rattle.world_rules.specs.Worlds.{core_course, arrives, arrives_at, give_number};

use smart_base::party::Party;
use smart_service::service::Service;
use smart_statements::entry::NodeEvent;
use std::alloc::AllocError;
use world_clients::clients::client_takes;
use world_ledger::content::content_bytes;
use world_nodes::deliveries::member_takes;
use world_state::state::WorldState;

/// Brings bytes, and their arrival, to a member's node or to a client. Error: want of memory.
fn arrive<S: Service>(
    world: &mut WorldState<S>,
    bytes: &[u8],
    arrival: &NodeEvent,
    to: &Party,
) -> Result<(), AllocError>
    requires { arrival.now ≡ Arrive bytes.now }
    ensures { OnOk result (world.new ≡ arrives (core_course S.meaning) bytes.now to.now world.old) }
{
    match to {
        Party::Member(id) => member_takes(world, *id, arrival),
        Party::Client(id) => client_takes(world, id.get() as usize, bytes),
    }
}

fn arrive_at<S: Service>(
    world: &mut WorldState<S>,
    bytes: &[u8],
    arrival: &NodeEvent,
    to: &[Party],
) -> Result<(), AllocError>
    requires { arrival.now ≡ Arrive bytes.now }
    ensures { OnOk result (world.new ≡ arrives_at (core_course S.meaning) bytes.now to.now world.old) }
{
    for party in to {
        arrive(world, bytes, arrival, party)?;
    }
    Ok(())
}

/// Brings the message of a number to each of some parties, in order. Error: want of memory.
pub fn give_number<S: Service>(
    world: &mut WorldState<S>,
    number: u64,
    to: &[Party],
) -> Result<(), AllocError>
    ensures { OnOk result (world.new ≡ give_number (core_course S.meaning) number to.now world.old) }
{
    let index = number.saturating_sub(1) as usize;
    if index >= world.sent.as_slice().len() {
        return Ok(());
    }
    let bytes = content_bytes(world.alloc, &world.sent.as_slice()[index].content)?;
    let arrival = NodeEvent::Arrive(bytes);
    match &arrival {
        NodeEvent::Arrive(bytes) => arrive_at(world, bytes.as_slice(), &arrival, to),
        NodeEvent::Tick | NodeEvent::Deliver | NodeEvent::Firm(_) => unreachable!(),
    }
}
