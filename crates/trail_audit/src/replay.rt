//! How a member's trail is replayed, and what it has that no replay makes.
ghost use Rattle.std.specs.Prelude.{◌≡◌, ℕ, Bool, false, None, Some, IfOk, OnOk, IsErrOf};
ghost use Rattle.std.specs.HashSet.{contains};
ghost use Rattle.smart_base.specs.Lists.{same_bytes};
ghost use Rattle.smart_messages.specs.declared.message.Sealed.{Sealed};
ghost use Rattle.snapshot_form.specs.Snapshots.{snapshot_text};
ghost use Rattle.replica_rules.specs.Replicas.{empty};
ghost use Rattle.node_restart.specs.declared.fault.ReopenFault.TheVariants.{Damaged};
ghost use Rattle.trail.specs.Events.{addressed_text};
ghost use Rattle.trail_rules.specs.Replays.{core_steps, after};
ghost use Rattle.audit_rules.specs.Audits.{checkpoint_in, parts_in, first_node, damage_over, addressed_of, sent_found, event_found, client_found, member_difference, client_difference, service_difference};
ghost use Rattle.sent_statements.specs.Indexes.{same_made, IsIndex};

use audit_rules::recorded::{Difference, Found, Recorded};
use delivery::replica::KeptReplica;
use node_core::node::NodeCore;
use node_restart::fault::ReopenFault;
use node_rules::node::{Held, Parts};
use sent_statements::coming::came_found;
use sent_statements::made::SentIndex;
use smart_base::duplicate::Duplicate;
use smart_base::equality::same_bytes;
use smart_base::name::MemberId;
use smart_base::sequence::Bytes;
use smart_keys::ring::Ring;
use smart_service::service::Service;
use snapshot_form::writing::to_bytes;
use std::alloc::{AllocError, Global};
use trail::event::{Addressed, TrailEvent};
use trail::event_bytes::put_addressed;
use trail::opening::TrailOpening;

/// The bytes of the replica before any batch, in the first view of a trail.
fn first_snapshot<S: Service>(alloc: Global, opening: &TrailOpening) -> Result<Bytes, AllocError>
    ensures { IfOk result (λ bytes. bytes ≡ snapshot_text S.meaning (empty S.meaning opening.now.view)) }
{
    let kept = KeptReplica::<S>::empty(alloc, opening.view.duplicate(alloc)?)?;
    to_bytes(alloc, kept.replica())
}

/// The snapshot of the checkpoint with which a member began, if there was one.
fn checkpoint_in<S: Service>(
    alloc: Global,
    opening: &TrailOpening,
) -> Result<Option<Bytes>, AllocError>
    ensures { IfOk result (λ found. found ≡ checkpoint_in S.meaning opening.now) }
{
    let first = first_snapshot::<S>(alloc, opening)?;
    if same_bytes(opening.snapshot.as_slice(), first.as_slice()) {
        return Ok(None);
    }
    Ok(Some(Bytes::from_slice(alloc, opening.snapshot.as_slice())?))
}

/// What the devices of a member restored.
fn parts_in<S: Service>(alloc: Global, trail: &Recorded) -> Result<Parts, AllocError>
    ensures { IfOk result (λ parts. parts ≡ parts_in S.meaning trail.now) }
{
    Ok(Parts {
        snapshot: checkpoint_in::<S>(alloc, &trail.opening)?,
        entries: trail.entries.duplicate(alloc)?,
    })
}

/// The ring of keys of a trail.
pub fn ring_of(alloc: Global, opening: &TrailOpening) -> Result<Ring, AllocError>
    ensures { IfOk result (λ ring. ring ≡ opening.now.secret) }
{
    let secret = Bytes::from_slice(alloc, opening.secret.as_slice())?;
    Ok(Ring::from_secret(secret))
}

/// The node with which a member's trail begins. Errors: the number of the first damaged part; want of
/// memory.
#[tactic(auto, unfolding(audit_rules::specs::Audits::first_node))]
pub fn open<S: Service>(alloc: Global, trail: &Recorded) -> Result<NodeCore<S>, ReopenFault>
    ensures node { IfOk result (λ core. core.node ≡ first_node S.meaning trail.now) }
    ensures broken { IfOk result (λ core. core.broken ≡ false) }
    ensures whole { OnOk result (damage_over S.meaning trail.now ≡ None) }
    ensures cause { (entry : ℕ) → IsErrOf result (Damaged entry) → damage_over S.meaning trail.now ≡ Some entry }
{
    let parts = parts_in::<S>(alloc, trail)?;
    let opening = &trail.opening;
    let id = MemberId::new(opening.member);
    let view = opening.view.duplicate(alloc)?;
    let ring = ring_of(alloc, opening)?;
    NodeCore::reopen(alloc, id, view, opening.period, ring, &parts)
}

/// The message of a held one, and who receives it.
fn addressed_of(held: Held) -> Addressed
    ensures { result ≡ addressed_of held }
{
    let Held {
        to,
        message,
        needs: _,
    } = held;
    Addressed { to, message }
}

fn copy_of(alloc: Global, addressed: &Addressed) -> Result<Addressed, AllocError>
    ensures { IfOk result (λ copy. copy ≡ addressed.now) }
{
    Ok(Addressed {
        to: addressed.to,
        message: addressed.message.duplicate(alloc)?,
    })
}

/// Whether two messages, each with its receiver, are spelled alike.
fn are_alike(alloc: Global, one: &Addressed, other: &Addressed) -> Result<bool, AllocError>
    ensures { IfOk result (λ alike. alike ≡ same_bytes (addressed_text one.now) (addressed_text other.now)) }
{
    let mut left = Vec::new(alloc);
    let mut right = Vec::new(alloc);
    put_addressed(alloc, &mut left, one)?;
    put_addressed(alloc, &mut right, other)?;
    Ok(same_bytes(left.as_slice(), right.as_slice()))
}

/// What was sent in place of the next message that leaves, if that is another.
fn sent_found(
    alloc: Global,
    sent: &Addressed,
    next: Option<Held>,
) -> Result<Option<Found>, AllocError>
    ensures { IfOk result (λ found. found ≡ sent_found sent.now next) }
{
    let Some(held) = next else {
        return Ok(Some(Found::Sent {
            expected: None,
            found: copy_of(alloc, sent)?,
        }));
    };
    let expected = addressed_of(held);
    if are_alike(alloc, &expected, sent)? {
        return Ok(None);
    }
    Ok(Some(Found::Sent {
        expected: Some(expected),
        found: copy_of(alloc, sent)?,
    }))
}

/// Replays an event of a member's trail. Gives what the event has and has no right to. Error: want of
/// memory.
pub fn event_found<S: Service>(
    alloc: Global,
    index: &SentIndex,
    ring: &Ring,
    core: &mut NodeCore<S>,
    event: &TrailEvent,
) -> Result<Option<Found>, AllocError>
    requires { core.old.broken ≡ false }
    ensures found { (sent : Sealed → Bool) → IsIndex (contains same_made index.now) sent → IfOk result (λ found. found ≡ event_found sent ring.now core.old.node event.now) }
    ensures node { OnOk result (core.new.node ≡ after (core_steps S.meaning) core.old.node event.now) }
    ensures whole { OnOk result (core.new.broken ≡ false) }
{
    match event {
        TrailEvent::Happens(happens) => {
            let found = came_found(alloc, index, ring, happens)?;
            core.step(happens)?;
            Ok(found)
        }
        TrailEvent::Send(sent) => {
            let next = core.release();
            let found = sent_found(alloc, sent, next)?;
            Ok(found)
        }
        TrailEvent::Lost(_) | TrailEvent::Polls(_) | TrailEvent::End => Ok(None),
    }
}

/// A difference at an event of a trail.
fn difference(opening: &TrailOpening, event: u64, found: Found) -> Difference
    ensures { result ≡ record { member = opening.now.member; event = event; found = found } }
{
    Difference {
        member: opening.member,
        event,
        found,
    }
}

/// The first difference among a member's events, from the node that a core stands for. Error: want of
/// memory.
fn member_difference<S: Service>(
    alloc: Global,
    index: &SentIndex,
    opening: &TrailOpening,
    core: NodeCore<S>,
    events: &[TrailEvent],
) -> Result<Option<Difference>, AllocError>
    requires { core.broken ≡ false }
    ensures { (sent : Sealed → Bool) → IsIndex (contains same_made index.now) sent → IfOk result (λ d. d ≡ member_difference (core_steps S.meaning) sent opening.now 0 core.node events.now) }
{
    let ring = ring_of(alloc, opening)?;
    let mut core = core;
    let mut number = 0;
    for event in events {
        let told = event_found(alloc, index, &ring, &mut core, event)?;
        number += 1;
        match told {
            None => {}
            Some(found) => return Ok(Some(difference(opening, number, found))),
        }
    }
    Ok(None)
}

/// What a client's event has and has no right to. Error: want of memory.
fn client_found(
    alloc: Global,
    index: &SentIndex,
    ring: &Ring,
    event: &TrailEvent,
) -> Result<Option<Found>, AllocError>
    ensures { (sent : Sealed → Bool) → IsIndex (contains same_made index.now) sent → IfOk result (λ found. found ≡ client_found sent ring.now event.now) }
{
    match event {
        TrailEvent::Happens(happens) => came_found(alloc, index, ring, happens),
        TrailEvent::Send(_) | TrailEvent::Lost(_) | TrailEvent::Polls(_) | TrailEvent::End => {
            Ok(None)
        }
    }
}

/// The first difference among a client's events. Error: want of memory.
pub fn client_difference(
    alloc: Global,
    index: &SentIndex,
    opening: &TrailOpening,
    events: &[TrailEvent],
) -> Result<Option<Difference>, AllocError>
    ensures { (sent : Sealed → Bool) → IsIndex (contains same_made index.now) sent → IfOk result (λ d. d ≡ client_difference sent opening.now 0 events.now) }
{
    let ring = ring_of(alloc, opening)?;
    let mut number = 0;
    for event in events {
        let told = client_found(alloc, index, &ring, event)?;
        number += 1;
        match told {
            None => {}
            Some(found) => return Ok(Some(difference(opening, number, found))),
        }
    }
    Ok(None)
}

/// The first difference in a member's trail. Error: want of memory.
pub fn service_difference<S: Service>(
    alloc: Global,
    index: &SentIndex,
    trail: &Recorded,
) -> Result<Option<Difference>, AllocError>
    requires { damage_over S.meaning trail.now ≡ None }
    ensures { (sent : Sealed → Bool) → IsIndex (contains same_made index.now) sent → IfOk result (λ d. d ≡ service_difference S.meaning sent trail.now) }
{
    match open::<S>(alloc, trail) {
        Ok(core) => {
            let events = trail.events.as_slice();
            let told = member_difference(alloc, index, &trail.opening, core, events)?;
            Ok(told)
        }
        Err(ReopenFault::NoMemory) => Err(AllocError),
        Err(ReopenFault::Damaged { entry: _ }) => unreachable!(),
    }
}
