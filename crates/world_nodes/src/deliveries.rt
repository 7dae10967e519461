//! What happens at a member: what is due, deliveries one by one, and time.
ghost use Rattle.std.specs.Prelude.{◌≡◌, ◌<◌, ℕ, true, IfOk, OnOk, length, slice_get};
ghost use Rattle.world_rules.specs.Worlds.{World, core_course, node_takes, calls_disk, settle, at_host, at_index, at_member, telling_all, tries_at, tries_each, deliver_each, tick_each};
ghost use Rattle.world_rules.specs.Repeats.{repeated};
ghost use Rattle.world_nodes.specs.Crashes.{runs};
ghost use Rattle.world_nodes.specs.Idling.{idle_lines, tries};

use crate::events::{acts, call_often, node_takes, settle, step_at};
use smart_base::name::MemberId;
use smart_service::service::Service;
use smart_statements::entry::NodeEvent;
use std::alloc::AllocError;
use world_hosts::host::host_index;
use world_rules::line::OutLine;
use world_state::state::WorldState;

/// The index of the node, if it runs. If not, its member is told absent. Error: want of memory.
fn present_at<S: Service>(world: &mut WorldState<S>, i: usize) -> Result<Option<usize>, AllocError>
    ensures { IfOk result (λ found. (f : ℕ → World S → World S) → at_index f world.new found ≡ at_host f i world.old (slice_get world.old.hosts i)) }
{
    let hosts = world.hosts();
    if i >= hosts.len() {
        return Ok(None);
    }
    let host = &hosts[i];
    if world.is_up(host) {
        return Ok(Some(i));
    }
    let member = host.id();
    world.tell(OutLine::Absent { member })?;
    Ok(None)
}

/// The index of a member's node, if it runs. If not, the member is told absent. Error: want of
/// memory.
pub fn present<S: Service>(
    world: &mut WorldState<S>,
    member: MemberId,
) -> Result<Option<usize>, AllocError>
    ensures { IfOk result (λ found. (f : ℕ → World S → World S) → at_index f world.new found ≡ at_member f member world.old) }
{
    match host_index(world.hosts(), member) {
        None => Ok(None),
        Some(i) => present_at(world, i),
    }
}

/// Settles a member's node. Error: want of memory.
pub fn settle_member<S: Service>(
    world: &mut WorldState<S>,
    member: MemberId,
) -> Result<(), AllocError>
    ensures { OnOk result (world.new ≡ at_member (settle (core_course S.meaning)) member world.old) }
{
    if let Some(i) = present(world, member)? {
        settle(world, i)?;
    }
    Ok(())
}

/// Makes so many device calls of a member's store, or fewer if no more are due. Error: want of
/// memory.
pub fn call_member<S: Service>(
    world: &mut WorldState<S>,
    member: MemberId,
    count: u64,
) -> Result<(), AllocError>
    ensures { OnOk result (world.new ≡ at_member (λ i w. repeated (calls_disk (core_course S.meaning) i) count w) member world.old) }
{
    if let Some(i) = present(world, member)? {
        call_often(world, i, count)?;
    }
    Ok(())
}

/// Takes an event at a member's node. Error: want of memory.
pub fn member_takes<S: Service>(
    world: &mut WorldState<S>,
    member: MemberId,
    event: &NodeEvent,
) -> Result<(), AllocError>
    ensures { OnOk result (world.new ≡ at_member (λ i w. node_takes (core_course S.meaning) i event.now w) member world.old) }
{
    if let Some(i) = present(world, member)? {
        node_takes(world, i, event)?;
    }
    Ok(())
}

fn tell_idle<S: Service>(
    world: &mut WorldState<S>,
    id: MemberId,
    idle: bool,
) -> Result<(), AllocError>
    ensures { OnOk result (world.new ≡ telling_all world.old (idle_lines id idle)) }
{
    if idle {
        world.tell(OutLine::Idle { member: id })?;
    }
    Ok(())
}

/// Lets the running node at an index deliver, or lets time pass there. Error: want of memory.
#[tactic(auto, using(crate::proofs::Idling::told_idle_is))]
fn try_up<S: Service>(
    world: &mut WorldState<S>,
    i: usize,
    event: &NodeEvent,
) -> Result<(), AllocError>
    requires within { i < length world.old.hosts }
    requires up { runs (slice_get world.old.hosts i) ≡ true }
    ensures { OnOk result (world.new ≡ tries (core_course S.meaning) i event.now world.old (slice_get world.old.hosts i)) }
{
    let id = world.hosts()[i].id();
    let idle = step_at(world, i, event)?;
    tell_idle(world, id, idle)?;
    Ok(())
}

/// Lets the node at an index deliver, or lets time pass there, if it runs. Error: want of memory.
fn try_at<S: Service>(
    world: &mut WorldState<S>,
    i: usize,
    event: &NodeEvent,
) -> Result<(), AllocError>
    ensures { OnOk result (world.new ≡ tries_at (core_course S.meaning) event.now i world.old) }
{
    if acts(world, i) {
        return try_up(world, i, event);
    }
    Ok(())
}

fn try_member<S: Service>(
    world: &mut WorldState<S>,
    member: MemberId,
    event: &NodeEvent,
) -> Result<(), AllocError>
    ensures { OnOk result (world.new ≡ at_member (tries_at (core_course S.meaning) event.now) member world.old) }
{
    if let Some(i) = present(world, member)? {
        try_at(world, i, event)?;
    }
    Ok(())
}

/// Lets the nodes of some members deliver, or lets time pass there, in order. Error: want of memory.
fn try_each<S: Service>(
    world: &mut WorldState<S>,
    members: &[MemberId],
    event: &NodeEvent,
) -> Result<(), AllocError>
    ensures { OnOk result (world.new ≡ tries_each (core_course S.meaning) event.now members.now world.old) }
{
    for member in members {
        try_member(world, *member, event)?;
    }
    Ok(())
}

/// Lets each of some members deliver its waiting batch, in order. Error: want of memory.
pub fn deliver<S: Service>(
    world: &mut WorldState<S>,
    members: &[MemberId],
) -> Result<(), AllocError>
    ensures { OnOk result (world.new ≡ deliver_each (core_course S.meaning) members.now world.old) }
{
    try_each(world, members, &NodeEvent::Deliver)
}

/// Lets time pass at each of some members, in order. Error: want of memory.
pub fn tick<S: Service>(world: &mut WorldState<S>, members: &[MemberId]) -> Result<(), AllocError>
    ensures { OnOk result (world.new ≡ tick_each (core_course S.meaning) members.now world.old) }
{
    try_each(world, members, &NodeEvent::Tick)
}
