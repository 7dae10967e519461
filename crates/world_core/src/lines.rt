//! The lines of a script.
ghost use Rattle.std.specs.Prelude.{◌≡◌, OnOk};
ghost use Rattle.std.specs.List.{list_all};
ghost use Rattle.world_rules.specs.Worlds.{core_course, shows};
ghost use Rattle.world_rules.specs.Plays.{has_member, has_party, is_there, line_played};

use crate::arrivals::give_number;
use crate::byzantine::{declare_faulty, declare_rogue, inject};
use crate::flow::flow;
use crate::joining::add_node;
use smart_base::name::MemberId;
use smart_base::party::Party;
use smart_service::service::Service;
use std::alloc::AllocError;
use world_clients::clients::{ask, repeat, show_clients, tell_client};
use world_hosts::host::{host_index, show_hosts};
use world_injections::injection::is_injectable;
use world_nodes::crashes::{crash_all, crash_member, restart_all, restart_member};
use world_nodes::deliveries::{call_member, deliver, settle_member, tick};
use world_nodes::events::settle_all;
use world_rules::line::Line;
use world_state::state::WorldState;

fn has_member<S: Service>(world: &WorldState<S>, member: MemberId) -> bool
    ensures { result ≡ has_member world.now member }
{
    host_index(world.hosts(), member).is_some()
}

fn has_members<S: Service>(world: &WorldState<S>, members: &[MemberId]) -> bool
    ensures { result ≡ list_all (has_member world.now) members.now }
{
    members.iter().all(|member| has_member(world, *member))
}

fn has_party<S: Service>(world: &WorldState<S>, party: &Party) -> bool
    ensures { result ≡ has_party world.now party.now }
{
    match party {
        Party::Member(id) => has_member(world, *id),
        Party::Client(_) => true,
    }
}

fn has_parties<S: Service>(world: &WorldState<S>, parties: &[Party]) -> bool
    ensures { result ≡ list_all (has_party world.now) parties.now }
{
    parties.iter().all(|party| has_party(world, party))
}

/// Whether everything that a line names is there.
#[tactic(auto, unfolding(world_rules::specs::Plays::is_there))]
pub fn is_there<S: Service>(world: &WorldState<S>, line: &Line) -> bool
    ensures { result ≡ is_there world.now line.now }
{
    match line {
        Line::Nothing
        | Line::Ask { .. }
        | Line::Change { .. }
        | Line::Again { .. }
        | Line::Tell { .. }
        | Line::CrashAll { .. }
        | Line::RestartAll
        | Line::SettleAll
        | Line::Show
        | Line::Rogue { .. } => true,
        Line::Flow { members } | Line::Deliver { members } | Line::Tick { members } => {
            has_members(world, members.as_slice())
        }
        Line::Give { number, to } => {
            1 <= *number
                && *number <= world.sent().len() as u64
                && has_parties(world, to.as_slice())
        }
        Line::Disk { member, .. }
        | Line::Crash { member, .. }
        | Line::Restart { member }
        | Line::Settle { member }
        | Line::Faulty { member } => has_member(world, *member),
        Line::Node { member } => !has_member(world, *member),
        Line::Inject(form) => is_injectable(world.sent(), form),
    }
}

/// Tells the place, view and regency of each member, and the greatest place that each client knows
/// which has asked. Error: want of memory.
fn show<S: Service>(world: &mut WorldState<S>) -> Result<(), AllocError>
    ensures { OnOk result (world.new ≡ shows world.old) }
{
    show_hosts(
        &mut world.told,
        world.faulty.as_slice(),
        world.hosts.as_slice(),
    )?;
    show_clients(&mut world.told, world.clients.as_slice())?;
    Ok(())
}

/// Plays a line of a script. Error: want of memory.
#[tactic(auto, unfolding(world_rules::specs::Plays::line_played))]
pub fn play<S: Service>(world: &mut WorldState<S>, line: &Line) -> Result<(), AllocError>
    ensures { OnOk result (world.new ≡ line_played (core_course S.meaning) world.old line.now) }
{
    match line {
        Line::Nothing => Ok(()),
        Line::Ask { client, op } => ask(world, client.get() as usize, op),
        Line::Change { op } => ask(world, 0, op),
        Line::Again { client } => repeat(world, client.get() as usize),
        Line::Tell { from, to } => tell_client(world, from.get() as usize, to.get() as usize),
        Line::Flow { members } => flow(world, members.as_slice()),
        Line::Give { number, to } => give_number(world, *number, to.as_slice()),
        Line::Deliver { members } => deliver(world, members.as_slice()),
        Line::Tick { members } => tick(world, members.as_slice()),
        Line::Disk { member, count } => call_member(world, *member, *count),
        Line::Crash {
            member,
            image,
            patches,
        } => crash_member(world, *member, *image, patches.as_slice()),
        Line::CrashAll { image } => crash_all(world, *image),
        Line::Restart { member } => restart_member(world, *member),
        Line::RestartAll => restart_all(world),
        Line::Settle { member } => settle_member(world, *member),
        Line::SettleAll => settle_all(world, &[]),
        Line::Show => show(world),
        Line::Node { member } => add_node(world, *member),
        Line::Faulty { member } => declare_faulty(world, *member),
        Line::Rogue { client } => declare_rogue(world, *client),
        Line::Inject(form) => inject(world, form),
    }
}
