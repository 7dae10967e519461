//! Messages that flow to their addressees.
ghost use Rattle.std.specs.Prelude.{◌≡◌, IfOk, OnOk, false};
ghost use Rattle.smart_statements.specs.declared.entry.NodeEvent.TheVariants.{Arrive};
ghost use Rattle.world_rules.specs.Repeats.{until_rest};
ghost use Rattle.world_rules.specs.Premises.{bytes_of};
ghost use Rattle.world_rules.specs.Worlds.{core_course, reaches, goes, flow_once, flows};

use smart_base::name::MemberId;
use smart_base::party::Party;
use smart_base::sequence::{Bytes, Sequence};
use smart_service::service::Service;
use smart_statements::entry::NodeEvent;
use std::alloc::{AllocError, Global};
use world_clients::clients::client_takes;
use world_ledger::content::content_bytes;
use world_nodes::events::{give_member, settle_all};
use world_rules::message::Sent;
use world_state::state::WorldState;

/// The addressees of a message, and its bytes.
fn letter(alloc: Global, sent: &Sent) -> Result<(Sequence<Party>, Bytes), AllocError>
    ensures to { IfOk result (λ l. l.0 ≡ sent.now.to) }
    ensures bytes { IfOk result (λ l. l.1 ≡ bytes_of sent.now.content) }
{
    let bytes = content_bytes(alloc, &sent.content)?;
    let to = Vec::from_slice(alloc, sent.to.as_slice())?;
    Ok((Sequence::from_vec(to), bytes))
}

/// Brings bytes, and their arrival, to an addressee: a member, if it is listed, or a client. Error:
/// want of memory.
#[tactic(auto, using(world_nodes::proofs::Giving::given_arrival))]
fn reach<S: Service>(
    world: &mut WorldState<S>,
    members: &[MemberId],
    bytes: &[u8],
    arrival: &NodeEvent,
    to: &Party,
) -> Result<(), AllocError>
    requires { arrival.now ≡ Arrive bytes.now }
    ensures { OnOk result (world.new ≡ reaches (core_course S.meaning) members.now bytes.now to.now world.old) }
{
    match to {
        Party::Member(id) => give_member(world, members, *id, arrival),
        Party::Client(id) => client_takes(world, id.get() as usize, bytes),
    }
}

/// Brings bytes, and their arrival, to each of their addressees, in order. Error: want of memory.
fn reach_all<S: Service>(
    world: &mut WorldState<S>,
    members: &[MemberId],
    bytes: &[u8],
    arrival: &NodeEvent,
    to: &[Party],
) -> Result<(), AllocError>
    requires { arrival.now ≡ Arrive bytes.now }
    ensures { OnOk result (world.new ≡ goes (core_course S.meaning) members.now world.old bytes.now to.now) }
{
    for party in to {
        reach(world, members, bytes, arrival, party)?;
    }
    Ok(())
}

/// Brings bytes to their addressees: members that are listed, and clients. Error: want of memory.
fn go<S: Service>(
    world: &mut WorldState<S>,
    members: &[MemberId],
    bytes: Bytes,
    to: &[Party],
) -> Result<(), AllocError>
    ensures { OnOk result (world.new ≡ goes (core_course S.meaning) members.now world.old bytes to.now) }
{
    let arrival = NodeEvent::Arrive(bytes);
    match &arrival {
        NodeEvent::Arrive(bytes) => reach_all(world, members, bytes.as_slice(), &arrival, to),
        NodeEvent::Tick | NodeEvent::Deliver | NodeEvent::Firm(_) => unreachable!(),
    }
}

/// Brings the next message past the mark, if there is one, to its addressees: members that are
/// listed, and clients. Error: want of memory.
#[tactic(auto, unfolding(world_rules::specs::Worlds::flow_once))]
fn flow_once<S: Service>(
    world: &mut WorldState<S>,
    members: &[MemberId],
) -> Result<bool, AllocError>
    ensures world { OnOk result (world.new ≡ flow_once (core_course S.meaning) members.now world.old) }
    ensures idle { IfOk result (λ more. more ≡ false → world.new ≡ world.old) }
{
    let next = world.mark as usize;
    if world.is_halted() || next >= world.sent.as_slice().len() {
        return Ok(false);
    }
    let (to, bytes) = letter(world.alloc, &world.sent.as_slice()[next])?;
    world.mark += 1;
    go(world, members, bytes, to.as_slice())?;
    Ok(true)
}

/// Brings each message past the mark to its addressees, until none is left. Error: want of memory.
#[tactic(auto, using(world_nodes::proofs::Turns::rest_begins, world_nodes::proofs::Turns::rest_more, world_nodes::proofs::Turns::rest_done, world_nodes::proofs::Turns::rest_idle))]
fn flow_rest<S: Service>(world: &mut WorldState<S>, members: &[MemberId]) -> Result<(), AllocError>
    ensures { OnOk result (world.new ≡ until_rest (flow_once (core_course S.meaning) members.now) world.old) }
{
    for turn in 0..u64::MAX {
        if !flow_once(world, members)? {
            return Ok(());
        }
    }
    Ok(())
}

/// Settles the listed members, and then brings each message past the mark to its addressees. Error:
/// want of memory.
pub fn flow<S: Service>(world: &mut WorldState<S>, members: &[MemberId]) -> Result<(), AllocError>
    ensures { OnOk result (world.new ≡ flows (core_course S.meaning) members.now world.old) }
{
    settle_all(world, members)?;
    flow_rest(world, members)
}
