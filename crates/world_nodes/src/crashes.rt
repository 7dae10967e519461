//! Members that crash, and restart from what their devices hold.
ghost use Rattle.std.specs.Prelude.{◌≡◌, ◌<◌, [], true, Some, None, length, slice_get, slice_set, IfOk, IfErr, OnOk, OnErr};
ghost use Rattle.member_store.specs.Left.{Tells};
ghost use Rattle.world_rules.specs.Crashes.{images_left, wrong_images};
ghost use Rattle.world_rules.specs.Worlds.{Host, core_course, crashes, crash_all, at_member, host_crashed, parts_held, resumes, restart_at, restart_all, restart_member};
ghost use Rattle.world_hosts.specs.Lives.{node_in, host_with, told_with};
ghost use Rattle.world_nodes.specs.Crashes.{runs, is_down, stops, telling_if, goes_on};

use crate::deliveries::present;
use crate::events::acts;
use member_store::crash::CrashFault;
use smart_base::name::MemberId;
use smart_service::service::Service;
use std::alloc::AllocError;
use world_hosts::host::host_index;
use world_hosts::lives;
use world_rules::crash::{Image, Patch};
use world_rules::line::OutLine;
use world_rules::message::{Ending, Premise};
use world_state::state::WorldState;

/// Crashes the running host at an index, and leaves this of its devices. Errors: bytes that no crash
/// leaves; want of memory. Nothing has changed then.
fn crash_host<S: Service>(
    world: &mut WorldState<S>,
    i: usize,
    image: Image,
    patches: &[Patch],
) -> Result<(), CrashFault>
    requires within { i < length world.old.hosts }
    requires up { runs (slice_get world.old.hosts i) ≡ true }
    ensures right { (h : Host S) → slice_get world.old.hosts i ≡ Some h → OnOk result (wrong_images h.store (images_left image patches.now h.store) ≡ None) }
    ensures left { (h : Host S) → slice_get world.old.hosts i ≡ Some h → OnOk result (world.new ≡ record world.old { hosts = slice_set world.old.hosts i (host_crashed (core_course S.meaning) h (images_left image patches.now h.store)) }) }
    ensures wrong { (h : Host S) → slice_get world.old.hosts i ≡ Some h → IfErr result (λ e. Tells e (wrong_images h.store (images_left image patches.now h.store))) }
    ensures same { OnErr result (world.new ≡ world.old) }
{
    world.hosts[i].crash(image, patches)
}

fn end<S: Service>(world: &mut WorldState<S>, ending: Ending)
    ensures { world.new ≡ record world.old { ending = Some ending } }
{
    world.ending = Some(ending);
}

/// Crashes the running node at an index, and leaves this of its devices. Bytes that no crash leaves
/// end the play. Error: want of memory.
fn stop_at<S: Service>(
    world: &mut WorldState<S>,
    i: usize,
    image: Image,
    patches: &[Patch],
) -> Result<(), AllocError>
    requires within { i < length world.old.hosts }
    requires up { runs (slice_get world.old.hosts i) ≡ true }
    ensures { OnOk result (world.new ≡ stops (core_course S.meaning) image patches.now i world.old (slice_get world.old.hosts i)) }
{
    let member = world.hosts()[i].id();
    match crash_host(world, i, image, patches) {
        Ok(()) => {
            world.tell(OutLine::Crashed { member })?;
            Ok(())
        }
        Err(CrashFault::NotAnImage(wrong)) => {
            end(world, Ending::Premise(Premise::NotAnImage(wrong)));
            Ok(())
        }
        Err(CrashFault::NoMemory) => Err(AllocError),
    }
}

/// Crashes the node at an index, if it runs, and leaves this of its devices. Error: want of memory.
fn crash<S: Service>(
    world: &mut WorldState<S>,
    i: usize,
    image: Image,
    patches: &[Patch],
) -> Result<(), AllocError>
    ensures { OnOk result (world.new ≡ crashes (core_course S.meaning) image patches.now i world.old) }
{
    if acts(world, i) {
        return stop_at(world, i, image, patches);
    }
    Ok(())
}

/// Crashes a member. Error: want of memory.
pub fn crash_member<S: Service>(
    world: &mut WorldState<S>,
    member: MemberId,
    image: Image,
    patches: &[Patch],
) -> Result<(), AllocError>
    ensures { OnOk result (world.new ≡ at_member (crashes (core_course S.meaning) image patches.now) member world.old) }
{
    if let Some(i) = present(world, member)? {
        crash(world, i, image, patches)?;
    }
    Ok(())
}

/// Crashes each member whose node runs, by number. Error: want of memory.
pub fn crash_all<S: Service>(world: &mut WorldState<S>, image: Image) -> Result<(), AllocError>
    ensures { OnOk result (world.new ≡ crash_all (core_course S.meaning) image world.old) }
{
    let count = world.hosts().len();
    for i in 0..count {
        crash(world, i, image, &[])?;
    }
    Ok(())
}

fn tell_if<S: Service>(world: &mut WorldState<S>, line: Option<OutLine>) -> Result<(), AllocError>
    ensures { OnOk result (world.new ≡ telling_if world.old line) }
{
    if let Some(line) = line {
        world.tell(line)?;
    }
    Ok(())
}

/// Restarts the crashed host at an index from what its devices hold, and gives what the restart tells.
/// Error: want of memory.
fn resume_host<S: Service>(
    world: &mut WorldState<S>,
    i: usize,
) -> Result<Option<OutLine>, AllocError>
    requires within { i < length world.old.hosts }
    requires down { is_down (slice_get world.old.hosts i) ≡ true }
    ensures world { (h : Host S) → slice_get world.old.hosts i ≡ Some h → OnOk result (world.new ≡ record world.old { hosts = slice_set world.old.hosts i (host_with h (node_in S.meaning world.old.view world.old.period h)) }) }
    ensures line { (h : Host S) → slice_get world.old.hosts i ≡ Some h → IfOk result (λ line. line ≡ told_with h.node.id (length (parts_held h).entries) (node_in S.meaning world.old.view world.old.period h)) }
{
    lives::resume(
        world.alloc,
        &mut world.hosts[i],
        world.chosen.first(),
        world.period,
        world.ring.get(),
    )
}

/// Restarts the crashed node at an index from what its devices hold. Error: want of memory.
fn resume_at<S: Service>(world: &mut WorldState<S>, i: usize) -> Result<(), AllocError>
    requires within { i < length world.old.hosts }
    requires down { is_down (slice_get world.old.hosts i) ≡ true }
    ensures { OnOk result (world.new ≡ goes_on (core_course S.meaning) i world.old (slice_get world.old.hosts i)) }
{
    let line = resume_host(world, i)?;
    tell_if(world, line)?;
    Ok(())
}

/// Restarts the node at an index, if it has crashed and its member is not faulty. Error: want of
/// memory.
#[tactic(auto, unfolding(world_rules::specs::Worlds::resumes))]
fn resume<S: Service>(world: &mut WorldState<S>, i: usize) -> Result<(), AllocError>
    ensures { OnOk result (world.new ≡ resumes (core_course S.meaning) i world.old) }
{
    if world.is_halted() || i >= world.hosts.len() {
        return Ok(());
    }
    if world.hosts[i].is_up() || world.is_gone(world.hosts[i].id()) {
        return Ok(());
    }
    resume_at(world, i)?;
    Ok(())
}

/// Restarts the node at an index, if it has crashed. One that runs is told idle. Error: want of
/// memory.
fn restart_at<S: Service>(world: &mut WorldState<S>, i: usize) -> Result<(), AllocError>
    ensures { OnOk result (world.new ≡ restart_at (core_course S.meaning) i world.old (slice_get world.old.hosts i)) }
{
    if i >= world.hosts.len() {
        return Ok(());
    }
    let member = world.hosts[i].id();
    if world.is_gone(member) {
        world.tell(OutLine::Absent { member })?;
    } else if world.hosts[i].is_up() {
        world.tell(OutLine::Idle { member })?;
    } else {
        resume(world, i)?;
    }
    Ok(())
}

/// Restarts a member. Error: want of memory.
pub fn restart_member<S: Service>(
    world: &mut WorldState<S>,
    member: MemberId,
) -> Result<(), AllocError>
    ensures { OnOk result (world.new ≡ restart_member (core_course S.meaning) member world.old) }
{
    match host_index(world.hosts(), member) {
        None => Ok(()),
        Some(i) => restart_at(world, i),
    }
}

/// Restarts each member that has crashed, by number. Error: want of memory.
pub fn restart_all<S: Service>(world: &mut WorldState<S>) -> Result<(), AllocError>
    ensures { OnOk result (world.new ≡ restart_all (core_course S.meaning) world.old) }
{
    let count = world.hosts().len();
    for i in 0..count {
        resume(world, i)?;
    }
    Ok(())
}
