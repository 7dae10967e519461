//! Events of nodes: what is due there, and what is given to those that a line lists.
ghost use Rattle.std.specs.Prelude.{◌≡◌, ◌<◌, Some, true, IfOk, OnOk, length, slice_get, slice_set, false};
ghost use Rattle.std.specs.List.{flat_map};
ghost use Rattle.node_rules.specs.Kept.{core_step};
ghost use Rattle.node_rules.specs.Steps.{leaving};
ghost use Rattle.node_rules.specs.Transfers.{completed_by};
ghost use Rattle.world_rules.specs.Worlds.{Host, core_course, disk_called, snapshot_in, told_absent, settle_present, node_takes, calls_disk, takes_due, settle_once, settle, settle_all, is_listed, at_listed, at_index, host_index, telling_all};
ghost use Rattle.world_rules.specs.Repeats.{repeated};
ghost use Rattle.world_hosts.specs.Hearing.{firmness, is_idle};
ghost use Rattle.world_nodes.specs.Acting.{acts};
ghost use Rattle.world_nodes.specs.Calling.{steps_if, calls};
ghost use Rattle.world_nodes.specs.Crashes.{runs};
ghost use Rattle.world_nodes.specs.Idling.{stepped_in, steps, met_at, takes_at, is_idle_at};

use smart_base::name::MemberId;
use smart_base::sequence::Bytes;
use smart_service::service::Service;
use smart_statements::entry::NodeEvent;
use std::alloc::AllocError;
use world_hosts::host::{Left, call_disk, host_index, is_among, step_host};
use world_rules::line::OutLine;
use world_state::state::WorldState;

/// Whether a list has a member; an empty list has all.
fn is_listed(members: &[MemberId], member: MemberId) -> bool
    ensures { result ≡ is_listed members.now member }
{
    members.is_empty() || is_among(members, member)
}

/// Takes an event at the running node at an index. Gives what the step leaves, and the snapshots that
/// it marked. Error: want of memory.
fn step_in<S: Service>(
    world: &mut WorldState<S>,
    i: usize,
    event: &NodeEvent,
) -> Result<(Left, Vec<Bytes>), AllocError>
    requires within { i < length world.old.hosts }
    requires up { runs (slice_get world.old.hosts i) ≡ true }
    ensures world { (h : Host S) → slice_get world.old.hosts i ≡ Some h → OnOk result (world.new ≡ stepped_in (core_course S.meaning) i world.old h (core_step S.meaning h.node event.now)) }
    ensures left { (h : Host S) → slice_get world.old.hosts i ≡ Some h → IfOk result (λ r. let after = (core_step S.meaning h.node event.now).node in r.0.messages ≡ leaving after.firm after.held) }
    ensures idle { (h : Host S) → slice_get world.old.hosts i ≡ Some h → IfOk result (λ r. r.0.idle ≡ is_idle (core_step S.meaning h.node event.now).fired) }
    ensures marked { (h : Host S) → slice_get world.old.hosts i ≡ Some h → IfOk result (λ r. r.1.items ≡ flat_map snapshot_in (core_step S.meaning h.node event.now).fired) }
{
    let mut marked: Vec<Bytes> = Vec::new(world.alloc);
    let left = step_host(
        world.alloc,
        &mut world.hosts[i],
        &mut world.chosen,
        &mut world.told,
        &mut marked,
        event,
    )?;
    Ok((left, marked))
}

/// Makes a step of the running node at an index, and tells whether no rule fired. If a batch that it
/// decided makes a view of which too many members are faulty, the play ends. Error: want of memory.
pub fn step_at<S: Service>(
    world: &mut WorldState<S>,
    i: usize,
    event: &NodeEvent,
) -> Result<bool, AllocError>
    requires within { i < length world.old.hosts }
    requires up { runs (slice_get world.old.hosts i) ≡ true }
    ensures world { OnOk result (world.new ≡ steps (core_course S.meaning) i event.now world.old (slice_get world.old.hosts i)) }
    ensures idle { IfOk result (λ idle. idle ≡ is_idle_at (core_course S.meaning) event.now (slice_get world.old.hosts i)) }
{
    let id = world.hosts()[i].id();
    let (left, marked) = step_in(world, i, event)?;
    world.keep_few();
    world.leave(id, i, marked, left.messages)?;
    Ok(left.idle)
}

/// The texts that an event completes at the node at an index: one, or none. Error: want of memory.
fn completed_at<S: Service>(
    world: &mut WorldState<S>,
    i: usize,
    event: &NodeEvent,
) -> Result<Vec<Bytes>, AllocError>
    requires { i < length world.old.hosts }
    ensures texts { (h : Host S) → slice_get world.old.hosts i ≡ Some h → IfOk result (λ texts. texts.items ≡ completed_by h.node event.now) }
    ensures same { world.new ≡ world.old }
{
    world.hosts[i].completed(world.alloc, event)
}

/// Meets the text that an event completes at the node at an index. Error: want of memory.
fn meet_completed<S: Service>(
    world: &mut WorldState<S>,
    i: usize,
    event: &NodeEvent,
) -> Result<(), AllocError>
    requires { i < length world.old.hosts }
    ensures { OnOk result (world.new ≡ met_at event.now world.old (slice_get world.old.hosts i)) }
{
    let texts = completed_at(world, i, event)?;
    world.meet_all(texts)?;
    Ok(())
}

/// Takes an event at the running node at an index. The text that the event completes is met first. Error:
/// want of memory.
fn takes_met<S: Service>(
    world: &mut WorldState<S>,
    i: usize,
    event: &NodeEvent,
) -> Result<(), AllocError>
    requires within { i < length world.old.hosts }
    requires up { runs (slice_get world.old.hosts i) ≡ true }
    ensures { OnOk result (world.new ≡ takes_at (core_course S.meaning) i event.now world.old (slice_get world.old.hosts i)) }
{
    meet_completed(world, i, event)?;
    if world.is_halted() {
        return Ok(());
    }
    let _ = step_at(world, i, event)?;
    Ok(())
}

/// Takes an event at the node at an index, if it runs. Error: want of memory.
pub fn node_takes<S: Service>(
    world: &mut WorldState<S>,
    i: usize,
    event: &NodeEvent,
) -> Result<(), AllocError>
    ensures { OnOk result (world.new ≡ node_takes (core_course S.meaning) i event.now world.old) }
{
    if acts(world, i) {
        return takes_met(world, i, event);
    }
    Ok(())
}

/// Takes an event at the running node at an index, if there is one. Error: want of memory.
fn step_if<S: Service>(
    world: &mut WorldState<S>,
    i: usize,
    event: &Option<NodeEvent>,
) -> Result<(), AllocError>
    requires within { i < length world.old.hosts }
    requires up { runs (slice_get world.old.hosts i) ≡ true }
    ensures { OnOk result (world.new ≡ steps_if (core_course S.meaning) i world.old (slice_get world.old.hosts i) event.now) }
{
    if let Some(event) = event {
        let _ = step_at(world, i, event)?;
    }
    Ok(())
}

/// Makes the next device call of the running host's store at an index, and gives what its node has to
/// hear then. Error: want of memory.
fn call_host<S: Service>(
    world: &mut WorldState<S>,
    i: usize,
) -> Result<Option<NodeEvent>, AllocError>
    requires within { i < length world.old.hosts }
    requires up { runs (slice_get world.old.hosts i) ≡ true }
    ensures world { (h : Host S) → slice_get world.old.hosts i ≡ Some h → OnOk result (world.new ≡ record world.old { hosts = slice_set world.old.hosts i (disk_called (core_course S.meaning) h) }) }
    ensures event { (h : Host S) → slice_get world.old.hosts i ≡ Some h → IfOk result (λ event. event ≡ firmness (disk_called (core_course S.meaning) h)) }
{
    call_disk(&mut world.hosts[i])
}

/// Makes the next device call of the store at an index; its running node hears what is firm then.
/// Error: want of memory.
fn call_at<S: Service>(world: &mut WorldState<S>, i: usize) -> Result<(), AllocError>
    requires within { i < length world.old.hosts }
    requires up { runs (slice_get world.old.hosts i) ≡ true }
    ensures { OnOk result (world.new ≡ calls (core_course S.meaning) i world.old (slice_get world.old.hosts i)) }
{
    let event = call_host(world, i)?;
    step_if(world, i, &event)?;
    Ok(())
}

/// Makes the next device call of the store at an index, if its node runs and there is one; the node
/// hears what is firm then. Error: want of memory.
#[tactic(auto, unfolding(world_rules::specs::Worlds::calls_disk))]
fn calls_disk<S: Service>(world: &mut WorldState<S>, i: usize) -> Result<(), AllocError>
    ensures { OnOk result (world.new ≡ calls_disk (core_course S.meaning) i world.old) }
{
    if world.is_halted() || i >= world.hosts.len() {
        return Ok(());
    }
    if world.is_up(&world.hosts[i]) && world.hosts[i].has_call() {
        call_at(world, i)?;
    }
    Ok(())
}

/// Makes so many device calls of the store at an index, or fewer if no more are due. Error: want of
/// memory.
#[tactic(auto, using(crate::proofs::Turns::times_more, crate::proofs::Turns::times_done))]
pub fn call_often<S: Service>(
    world: &mut WorldState<S>,
    i: usize,
    count: u64,
) -> Result<(), AllocError>
    ensures { OnOk result (world.new ≡ repeated (calls_disk (core_course S.meaning) i) count world.old) }
{
    for turn in 0..count {
        calls_disk(world, i)?;
    }
    Ok(())
}

/// Whether something may happen at an index: the play goes on, and the node there runs.
pub(crate) fn acts<S: Service>(world: &WorldState<S>, i: usize) -> bool
    ensures { result ≡ acts world.now (slice_get world.now.hosts i) }
{
    if world.is_halted() {
        return false;
    }
    let hosts = world.hosts();
    if i >= hosts.len() {
        return false;
    }
    world.is_up(&hosts[i])
}

/// Does one thing that is due at the running node at an index, if anything is: a device call, or else
/// a delivery. Error: want of memory.
fn settle_up<S: Service>(world: &mut WorldState<S>, i: usize) -> Result<bool, AllocError>
    requires within { i < length world.old.hosts }
    requires up { runs (slice_get world.old.hosts i) ≡ true }
    ensures world { OnOk result (world.new ≡ takes_due (core_course S.meaning) i world.old (slice_get world.old.hosts i)) }
    ensures idle { IfOk result (λ more. more ≡ false → world.new ≡ world.old) }
{
    let host = &world.hosts()[i];
    let (due, waits) = (host.has_call(), host.waits());
    if due {
        calls_disk(world, i)?;
        return Ok(true);
    }
    if waits {
        node_takes(world, i, &NodeEvent::Deliver)?;
        return Ok(true);
    }
    Ok(false)
}

/// Does one thing that is due at an index, if its node runs and anything is. Error: want of memory.
fn settle_once<S: Service>(world: &mut WorldState<S>, i: usize) -> Result<bool, AllocError>
    ensures world { OnOk result (world.new ≡ settle_once (core_course S.meaning) i world.old) }
    ensures idle { IfOk result (λ more. more ≡ false → world.new ≡ world.old) }
{
    if acts(world, i) {
        return settle_up(world, i);
    }
    Ok(false)
}

/// Does what is due at the node at an index until nothing is. Error: want of memory.
#[tactic(auto, using(crate::proofs::Turns::rest_begins, crate::proofs::Turns::rest_more, crate::proofs::Turns::rest_done, crate::proofs::Turns::rest_idle))]
pub fn settle<S: Service>(world: &mut WorldState<S>, i: usize) -> Result<(), AllocError>
    ensures { OnOk result (world.new ≡ settle (core_course S.meaning) i world.old) }
{
    for turn in 0..u64::MAX {
        if !settle_once(world, i)? {
            return Ok(());
        }
    }
    Ok(())
}

/// Tells that a member is absent whose node does not run, if a line lists members. Error: want of
/// memory.
fn tell_absent<S: Service>(
    world: &mut WorldState<S>,
    members: &[MemberId],
    member: MemberId,
) -> Result<(), AllocError>
    ensures { OnOk result (world.new ≡ telling_all world.old (told_absent members.now member)) }
{
    if !members.is_empty() {
        world.tell(OutLine::Absent { member })?;
    }
    Ok(())
}

/// Settles the node at an index, if it runs. Error: want of memory.
fn settle_present<S: Service>(
    world: &mut WorldState<S>,
    members: &[MemberId],
    i: usize,
) -> Result<(), AllocError>
    ensures { OnOk result (world.new ≡ settle_present (core_course S.meaning) members.now i world.old (slice_get world.old.hosts i)) }
{
    if i >= world.hosts.len() {
        return Ok(());
    }
    if world.is_up(&world.hosts[i]) {
        settle(world, i)?;
    } else {
        let member = world.hosts[i].id();
        tell_absent(world, members, member)?;
    }
    Ok(())
}

/// Settles the node at an index, if its member is listed. Error: want of memory.
fn settle_listed<S: Service>(
    world: &mut WorldState<S>,
    members: &[MemberId],
    i: usize,
) -> Result<(), AllocError>
    ensures { OnOk result (world.new ≡ at_listed members.now (λ i w. settle_present (core_course S.meaning) members.now i w (slice_get w.hosts i)) i world.old) }
{
    if i < world.hosts.len() && is_listed(members, world.hosts[i].id()) {
        settle_present(world, members, i)?;
    }
    Ok(())
}

/// Settles each listed node, by number. Error: want of memory.
pub fn settle_all<S: Service>(
    world: &mut WorldState<S>,
    members: &[MemberId],
) -> Result<(), AllocError>
    ensures { OnOk result (world.new ≡ settle_all (core_course S.meaning) members.now world.old) }
{
    let count = world.hosts().len();
    for i in 0..count {
        settle_listed(world, members, i)?;
    }
    Ok(())
}

/// Takes an event at the node at an index, and settles it. Error: want of memory.
fn give<S: Service>(
    world: &mut WorldState<S>,
    i: usize,
    event: &NodeEvent,
) -> Result<(), AllocError>
    ensures { OnOk result (world.new ≡ settle (core_course S.meaning) i (node_takes (core_course S.meaning) i event.now world.old)) }
{
    node_takes(world, i, event)?;
    settle(world, i)?;
    Ok(())
}

/// Takes an event at the node at an index and settles it, if its member is listed. Error: want of
/// memory.
fn give_listed<S: Service>(
    world: &mut WorldState<S>,
    members: &[MemberId],
    i: usize,
    event: &NodeEvent,
) -> Result<(), AllocError>
    ensures { OnOk result (world.new ≡ at_listed members.now (λ i w. settle (core_course S.meaning) i (node_takes (core_course S.meaning) i event.now w)) i world.old) }
{
    if i < world.hosts.len() && is_listed(members, world.hosts[i].id()) {
        give(world, i, event)?;
    }
    Ok(())
}

/// Takes an event at a member's node and settles it, if the member is listed. Error: want of memory.
pub fn give_member<S: Service>(
    world: &mut WorldState<S>,
    members: &[MemberId],
    member: MemberId,
    event: &NodeEvent,
) -> Result<(), AllocError>
    ensures { OnOk result (world.new ≡ at_index (at_listed members.now (λ i w. settle (core_course S.meaning) i (node_takes (core_course S.meaning) i event.now w))) world.old (host_index world.old.hosts member)) }
{
    match host_index(world.hosts(), member) {
        None => Ok(()),
        Some(i) => give_listed(world, members, i, event),
    }
}
