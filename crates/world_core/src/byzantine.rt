//! Faulty members, rogue clients, and what a script injects.
ghost use Rattle.std.specs.Prelude.{◌≡◌, OnOk, Some};
ghost use Rattle.world_rules.specs.Worlds.{declares_faulty, declares_rogue, injects_content, injects};

use smart_base::name::{ClientId, MemberId};
use smart_base::sequence::Sequence;
use smart_service::service::Service;
use std::alloc::AllocError;
use world_injections::injection::injected;
use world_rules::line::Injection;
use world_rules::message::{Content, Ending, Origin, Premise, Sent};
use world_state::few::too_many_in;
use world_state::state::{WorldState, let_go};

/// Declares a member faulty, unless more than f would be in one of the views behind the chosen list.
#[tactic(auto, unfolding(world_rules::specs::Worlds::declares_faulty))]
pub fn declare_faulty<S: Service>(
    world: &mut WorldState<S>,
    member: MemberId,
) -> Result<(), AllocError>
    ensures { OnOk result (world.new ≡ declares_faulty member world.old) }
{
    if world.is_halted() || world.is_gone(member) {
        return Ok(());
    }
    world.faulty.push(member)?;
    if too_many_in(world.chosen.views(), world.faulty.as_slice()) {
        world.faulty.pop();
        world.ending = Some(Ending::Premise(Premise::TooManyFaulty));
    }
    Ok(())
}

/// Declares a client rogue.
#[tactic(auto, unfolding(world_rules::specs::Worlds::declares_rogue))]
pub fn declare_rogue<S: Service>(
    world: &mut WorldState<S>,
    client: ClientId,
) -> Result<(), AllocError>
    ensures { OnOk result (world.new ≡ declares_rogue client world.old) }
{
    if world.is_halted() || world.is_rogue(client) {
        return Ok(());
    }
    world.rogue.push(client)?;
    Ok(())
}

/// Gives the next number to what the script injects, unless it is forged.
fn inject_content<S: Service>(world: &mut WorldState<S>, content: Content) -> Result<(), AllocError>
    ensures { OnOk result (world.new ≡ injects_content world.old (Some content)) }
{
    let (faulty, rogue) = (world.faulty.as_slice(), world.rogue.as_slice());
    match world.sent.is_forged(world.alloc, faulty, rogue, &content) {
        Err(error) => {
            let_go(content);
            return Err(error);
        }
        Ok(true) => {
            let_go(content);
            world.ending = Some(Ending::Premise(Premise::Forged));
            return Ok(());
        }
        Ok(false) => {}
    }
    let sent = Sent {
        origin: Origin::Script,
        to: Sequence::new(world.alloc),
        content,
    };
    world.post(sent)
}

/// Injects a message. Error: want of memory.
#[tactic(auto, unfolding(world_rules::specs::Worlds::injects))]
pub fn inject<S: Service>(world: &mut WorldState<S>, form: &Injection) -> Result<(), AllocError>
    ensures { OnOk result (world.new ≡ injects form.now world.old) }
{
    if world.is_halted() {
        return Ok(());
    }
    let made = injected(world.alloc, world.ring.get(), world.sent.as_slice(), form)?;
    if let Some(content) = made {
        inject_content(world, content)?;
    }
    Ok(())
}
