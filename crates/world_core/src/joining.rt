//! New nodes of a group.
ghost use Rattle.std.specs.Prelude.{◌≡◌, OnOk, None};
ghost use Rattle.world_rules.specs.Worlds.{core_course, is_name, with_new, adds_unless, adds_node};

use smart_base::name::MemberId;
use smart_base::party::Party;
use smart_service::service::Service;
use std::alloc::AllocError;
use world_hosts::host::{Host, host_index, hosts_below};
use world_state::state::{WorldState, first_host};

/// Whether a member may have a number.
fn is_name(member: MemberId) -> bool
    ensures { result ≡ is_name member }
{
    1 <= member.get()
}

/// Puts a host behind those of members with lower numbers. Error: want of memory.
fn put_host<S: Service>(world: &mut WorldState<S>, host: Host<S>) -> Result<(), AllocError>
    ensures { OnOk result (world.new ≡ record world.old { hosts = with_new world.old.hosts host }) }
{
    let at = hosts_below(world.hosts.as_slice(), host.id());
    world.hosts.insert(at, host)?;
    Ok(())
}

/// Adds a new node of a member that has none, if a member may have its number. Error: want of memory.
fn add_named<S: Service>(world: &mut WorldState<S>, member: MemberId) -> Result<(), AllocError>
    ensures { OnOk result (world.new ≡ adds_unless (core_course S.meaning) member world.old None) }
{
    if !is_name(member) {
        return Ok(());
    }
    world.ring.learn(Party::Member(member))?;
    let host: Host<S> = first_host(
        world.alloc,
        world.chosen.first(),
        world.period,
        world.ring.get(),
        member,
    )?;
    put_host(world, host)
}

/// Adds a new node of a member, unless the member has one. Error: want of memory.
#[tactic(auto, unfolding(world_rules::specs::Worlds::adds_node))]
pub fn add_node<S: Service>(world: &mut WorldState<S>, member: MemberId) -> Result<(), AllocError>
    ensures { OnOk result (world.new ≡ adds_node (core_course S.meaning) member world.old) }
{
    if world.is_halted() {
        return Ok(());
    }
    match host_index(world.hosts(), member) {
        Some(_) => Ok(()),
        None => add_named(world, member),
    }
}
