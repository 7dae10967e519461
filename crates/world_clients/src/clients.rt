//! What clients hear, ask and are told.
ghost use Rattle.std.specs.Prelude.{◌≡◌, ◌+◌, ◌<◌, ◌++◌, [], ◌∷◌, IfOk, OnOk, length, slice_get};
ghost use Rattle.std.specs.List.{flat_map};
ghost use Rattle.world_rules.specs.Secrets.{group_secret};
ghost use Rattle.smart_base.specs.Views.{present};
ghost use Rattle.client_quorum.specs.Readings.{after_word};
ghost use Rattle.client_quorum.specs.declared.client.Client.{Client};
ghost use Rattle.world_rules.specs.Clients.{heard_word};
ghost use Rattle.world_rules.specs.Worlds.{heard_by, acceptance_in, told_heard, client_takes, asks, repeats, learns, tells, shown_client};
ghost use Rattle.world_clients.specs.Words.{takes_word};
ghost use Rattle.world_clients.specs.Asking.{repeats_by, repeats_found};

use client_quorum::client::{Acceptance, Client, Heard, Ignored, Word};
use client_quorum::hearing::read_word;
use node_rules::node::Target;
use smart_base::bytes::Payload;
use smart_base::duplicate::Duplicate;
use smart_base::name::ClientId;
use smart_base::number::Place;
use smart_base::party::Party;
use smart_base::sequence::Sequence;
use smart_keys::ring::Ring;
use smart_messages::message::Message;
use smart_service::service::Service;
use smart_statements::signed::Signed;
use smart_statements::statement::Request;
use std::alloc::{AllocError, Global};
use world_rules::line::OutLine;
use world_rules::message::Origin;
use world_state::state::{WorldState, members_of};

/// What a transcript tells of what a client heard.
fn told_heard(alloc: Global, id: ClientId, heard: &Heard) -> Result<OutLine, AllocError>
    ensures { IfOk result (λ line. line ≡ told_heard id heard.now) }
{
    match heard {
        Heard::Counted { have, need } => Ok(OutLine::Counted {
            client: id,
            have: *have,
            need: *need,
        }),
        Heard::Accepted(a) => {
            let reply = a.reply.duplicate(alloc)?;
            Ok(OutLine::Accepted {
                client: id,
                seq: a.request.seq,
                place: a.place,
                index: a.index,
                reply,
            })
        }
        Heard::Viewed { have, need } => Ok(OutLine::Viewed {
            client: id,
            have: *have,
            need: *need,
        }),
        Heard::Moved(view) => Ok(OutLine::Moved {
            client: id,
            view: *view,
        }),
        Heard::Ignored(why) => Ok(OutLine::Ignored {
            client: id,
            why: *why,
        }),
    }
}

fn keep_accepted(accepted: &mut Vec<Acceptance>, heard: Heard) -> Result<(), AllocError>
    ensures { OnOk result (accepted.new.items ≡ accepted.old.items ++ acceptance_in heard) }
{
    if let Heard::Accepted(acceptance) = heard {
        accepted.push(acceptance)?;
    }
    Ok(())
}

/// Hears a member's word at a client; what the client tells and accepts is added. Error: want of memory.
fn hear_word(
    alloc: Global,
    ring: &Ring,
    client: &mut Client,
    accepted: &mut Vec<Acceptance>,
    told: &mut Vec<OutLine>,
    word: &Word,
) -> Result<(), AllocError>
    requires { ring.now ≡ group_secret }
    ensures client { OnOk result (client.new ≡ after_word client.old word.now (heard_word client.old word.now)) }
    ensures accepted { OnOk result (accepted.new.items ≡ accepted.old.items ++ acceptance_in (heard_word client.old word.now)) }
    ensures told { OnOk result (told.new.items ≡ told.old.items ++ told_heard client.old.id (heard_word client.old word.now) ∷ []) }
{
    let id = client.id;
    let heard = client.hear_word(alloc, ring, word)?;
    told.push(told_heard(alloc, id, &heard)?)?;
    keep_accepted(accepted, heard)?;
    Ok(())
}

/// Tells the greatest place that a client knows, if it has asked. Error: want of memory.
fn show_client(told: &mut Vec<OutLine>, client: &Client) -> Result<(), AllocError>
    ensures { OnOk result (told.new.items ≡ told.old.items ++ shown_client client.now) }
{
    if client.last > 0 {
        told.push(OutLine::Seen {
            client: client.id,
            place: client.seen,
        })?;
    }
    Ok(())
}

/// Tells the greatest place of each client that has asked. Error: want of memory.
pub fn show_clients(told: &mut Vec<OutLine>, clients: &[Client]) -> Result<(), AllocError>
    ensures { OnOk result (told.new.items ≡ told.old.items ++ flat_map shown_client clients.now) }
{
    for client in clients {
        show_client(told, client)?;
    }
    Ok(())
}

/// Hears a member's word at the client at an index, or ignores what is none. Error: want of memory.
#[tactic(auto, unfolding(crate::specs::Words::takes_word, world_rules::specs::Worlds::hearing))]
fn takes_word<S: Service>(
    world: &mut WorldState<S>,
    i: usize,
    word: &Option<Word>,
) -> Result<(), AllocError>
    ensures { OnOk result (world.new ≡ takes_word i word.now world.old) }
{
    if world.is_halted() || i >= world.clients.len() {
        return Ok(());
    }
    match word {
        Some(word) => {
            hear_word(
                world.alloc,
                world.ring.get(),
                &mut world.clients[i],
                &mut world.accepted,
                &mut world.told,
                word,
            )?;
        }
        None => {
            let id = world.clients[i].id;
            world.tell(OutLine::Ignored {
                client: id,
                why: Ignored::Unread,
            })?;
        }
    }
    Ok(())
}

/// Hears the bytes of a message at the client at an index, which reads members' words alone. Error: want
/// of memory.
#[tactic(auto, using(crate::proofs::Hearing::takes_bytes))]
pub fn client_takes<S: Service>(
    world: &mut WorldState<S>,
    i: usize,
    bytes: &[u8],
) -> Result<(), AllocError>
    ensures { OnOk result (world.new ≡ client_takes i bytes.now world.old) }
{
    let word = read_word(world.alloc, bytes)?;
    takes_word(world, i, &word)?;
    Ok(())
}

/// The members of the newest view that the client at an index knows. Error: want of memory.
fn members_known<S: Service>(world: &WorldState<S>, i: usize) -> Result<Sequence<Party>, AllocError>
    requires { i < length world.now.clients }
    ensures { (c : Client) → slice_get world.now.clients i ≡ Some c → IfOk result (λ to. to ≡ heard_by (present c.views) [] Target.View) }
{
    members_of(world.alloc, world.clients[i].view())
}

/// Lets the client at an index ask, if it is not rogue and none of its requests waits. Error: want of
/// memory.
#[tactic(auto, unfolding(world_rules::specs::Worlds::asks))]
pub fn ask<S: Service>(world: &mut WorldState<S>, i: usize, op: &Payload) -> Result<(), AllocError>
    ensures { OnOk result (world.new ≡ asks i op.now world.old) }
{
    if world.is_halted() || i >= world.clients.len() {
        return Ok(());
    }
    let client = world.clients[i].id;
    if world.is_rogue(client) {
        world.tell(OutLine::IdleClient { client })?;
        return Ok(());
    }
    if let Some(waiting) = &world.clients[i].waiting {
        let seq = waiting.seq;
        world.tell(OutLine::Busy { client, seq })?;
        return Ok(());
    }
    // That an operation is short is known of its bytes.
    let _short = op.as_slice();
    if world.clients[i].last >= (1 << 63) - 1 {
        return Ok(());
    }
    world.ring.learn(Party::Client(client))?;
    let to = members_known(world, i)?;
    match world.clients[i].ask(world.alloc, world.ring.get(), op) {
        Ok(request) => world.send(Origin::Client(client), to, Message::Ask(request)),
        // None waits: its only want is memory.
        Err(_) => Err(AllocError),
    }
}

/// Lets the client at an index send its waiting request again, unless it is rogue. Error: want of
/// memory.
#[tactic(auto, unfolding(world_rules::specs::Worlds::repeats))]
pub fn repeat<S: Service>(world: &mut WorldState<S>, i: usize) -> Result<(), AllocError>
    ensures { OnOk result (world.new ≡ repeats i world.old) }
{
    if world.is_halted() || i >= world.clients.len() {
        return Ok(());
    }
    let id = world.clients[i].id;
    if world.is_rogue(id) {
        world.tell(OutLine::IdleClient { client: id })?;
        return Ok(());
    }
    repeat_waiting(world, i)
}

/// Sends the waiting request of a client, if there is one. Error: want of memory.
#[tactic(auto, using(crate::proofs::Asking::repeats_waiting))]
fn repeat_waiting<S: Service>(world: &mut WorldState<S>, i: usize) -> Result<(), AllocError>
    requires { i < length world.old.clients }
    ensures { OnOk result (world.new ≡ repeats_found world.old (slice_get world.old.clients i)) }
{
    let id = world.clients[i].id;
    let to = members_known(world, i)?;
    let request = world.clients[i].again(world.alloc, world.ring.get())?;
    send_again(world, id, to, request)
}

/// Sends a client's request to some parties, if there is one. Error: want of memory.
fn send_again<S: Service>(
    world: &mut WorldState<S>,
    id: ClientId,
    to: Sequence<Party>,
    request: Option<Signed<Request>>,
) -> Result<(), AllocError>
    ensures { OnOk result (world.new ≡ repeats_by world.old id to request) }
{
    match request {
        None => world.tell(OutLine::IdleClient { client: id }),
        Some(request) => world.send(Origin::Client(id), to, Message::Ask(request)),
    }
}

/// Tells the client at an index of a place. Error: want of memory.
fn learn<S: Service>(world: &mut WorldState<S>, place: Place, i: usize) -> Result<(), AllocError>
    ensures { OnOk result (world.new ≡ learns world.old place i (slice_get world.old.clients i)) }
{
    if i >= world.clients.len() {
        return Ok(());
    }
    world.clients[i].told(place);
    let (client, place) = (world.clients[i].id, world.clients[i].seen);
    world.tell(OutLine::Learned { client, place })?;
    Ok(())
}

/// Tells a client of the greatest place that another one knows, unless that other one is rogue.
/// Error: want of memory.
#[tactic(auto, unfolding(world_rules::specs::Worlds::tells))]
pub fn tell_client<S: Service>(
    world: &mut WorldState<S>,
    from: usize,
    to: usize,
) -> Result<(), AllocError>
    ensures { OnOk result (world.new ≡ tells from to world.old) }
{
    if world.is_halted() || from >= world.clients.len() {
        return Ok(());
    }
    let teller = world.clients[from].id;
    if world.is_rogue(teller) {
        world.tell(OutLine::IdleClient { client: teller })?;
        return Ok(());
    }
    let place = world.clients[from].seen;
    learn(world, place, to)?;
    Ok(())
}
