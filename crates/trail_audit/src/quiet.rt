//! Whether recorded runs are quiet.
ghost use Rattle.std.specs.Prelude.{◌≡◌, ◌++◌, ◌&&◌, ◌||◌, false, None, List, map, not, IfOk, OnOk};
ghost use Rattle.std.specs.HashMap.{get};
ghost use Rattle.std.specs.List.{list_all, flat_map};
ghost use Rattle.smart_base.specs.Lists.{Each};
ghost use Rattle.trail_rules.specs.Replays.{core_steps, after, replay};
ghost use Rattle.audit_rules.specs.Audits.{CanBegin, damage_over, damage_by};
ghost use Rattle.audit_rules.specs.Quiets.{Post, seems_at_rest, rests_over, rests_by, rests, sent_from, sent_over, sent_by, posted, dropped, came, has_trail, is_received, is_quiet};
ghost use Rattle.trail_posts.specs.Counting.{post_of, same_posted, count_or, IsCount};

use crate::replay::open;
use app_count::Count;
use app_kv::KeyValueStore;
use audit_rules::recorded::Recorded;
use node_core::node::NodeCore;
use node_restart::fault::ReopenFault;
use smart_service::service::Service;
use std::alloc::{AllocError, Global};
use trail::event::TrailEvent;
use trail::opening::App;
use trail_posts::counts::{Counts, counts_of, is_received};
use trail_posts::posts::{Posted, add_client_sent, add_sent, all_came, all_dropped};

/// Whether no batch waits at a core, all its entries are firm, and no message leaves it any more. One that
/// leaves is taken out.
fn seems_at_rest<S: Service>(core: &mut NodeCore<S>) -> bool
    ensures { result ≡ seems_at_rest core.old.node }
{
    if core.waits() {
        return false;
    }
    if core.made() > core.firm() {
        return false;
    }
    core.release().is_none()
}

/// Replays an event of a member's trail. Error: want of memory.
fn play_event<S: Service>(core: &mut NodeCore<S>, event: &TrailEvent) -> Result<(), AllocError>
    requires { core.old.broken ≡ false }
    ensures node { OnOk result (core.new.node ≡ after (core_steps S.meaning) core.old.node event.now) }
    ensures whole { OnOk result (core.new.broken ≡ false) }
{
    match event {
        TrailEvent::Happens(happens) => {
            core.step(happens)?;
            Ok(())
        }
        TrailEvent::Send(_) => {
            let _left = core.release();
            Ok(())
        }
        TrailEvent::Lost(_) | TrailEvent::Polls(_) | TrailEvent::End => Ok(()),
    }
}

/// Adds what was sent by a member's events, from the node that a core stands for. Gives whether the node is
/// at rest after them. Error: want of memory.
fn play<S: Service>(
    alloc: Global,
    core: NodeCore<S>,
    events: &[TrailEvent],
    found: &mut Vec<Posted>,
) -> Result<bool, AllocError>
    requires { core.broken ≡ false }
    ensures rests { IfOk result (λ rests. rests ≡ seems_at_rest (replay (core_steps S.meaning) core.node events.now)) }
    ensures sent { OnOk result (map post_of found.new.items ≡ map post_of found.old.items ++ sent_from (core_steps S.meaning) core.node events.now) }
{
    let mut core = core;
    for event in events {
        add_sent(alloc, core.view().members(), event, found)?;
        play_event(&mut core, event)?;
    }
    Ok(seems_at_rest(&mut core))
}

/// The same of a member's trail.
fn play_over<S: Service>(
    alloc: Global,
    trail: &Recorded,
    found: &mut Vec<Posted>,
) -> Result<bool, AllocError>
    requires { damage_over S.meaning trail.now ≡ None }
    ensures rests { IfOk result (λ rests. rests ≡ rests_over S.meaning trail.now) }
    ensures sent { OnOk result (map post_of found.new.items ≡ map post_of found.old.items ++ sent_over S.meaning trail.now) }
{
    match open::<S>(alloc, trail) {
        Ok(core) => {
            let events = trail.events.as_slice();
            let told = play(alloc, core, events, found)?;
            Ok(told)
        }
        Err(ReopenFault::NoMemory) => Err(AllocError),
        Err(ReopenFault::Damaged { entry: _ }) => unreachable!(),
    }
}

/// Over the service that its opening names.
fn play_by(
    alloc: Global,
    trail: &Recorded,
    app: App,
    found: &mut Vec<Posted>,
) -> Result<bool, AllocError>
    requires { damage_by trail.now app ≡ None }
    ensures rests { IfOk result (λ rests. rests ≡ rests_by trail.now app) }
    ensures sent { OnOk result (map post_of found.new.items ≡ map post_of found.old.items ++ sent_by trail.now app) }
{
    match app {
        App::Count => play_over::<Count>(alloc, trail, found),
        App::Kv => play_over::<KeyValueStore>(alloc, trail, found),
    }
}

/// The same of any trail. A client is always at rest.
#[tactic(auto, unfolding(audit_rules::specs::Quiets::rests, audit_rules::specs::Quiets::posted))]
fn play_trail(alloc: Global, trail: &Recorded, found: &mut Vec<Posted>) -> Result<bool, AllocError>
    requires { CanBegin trail.now }
    ensures rests { IfOk result (λ told. told ≡ rests trail.now) }
    ensures sent { OnOk result (map post_of found.new.items ≡ map post_of found.old.items ++ posted trail.now) }
{
    if trail.opening.member == 0 {
        let events = trail.events.as_slice();
        add_client_sent(alloc, &trail.opening.view, events, found)?;
        return Ok(true);
    }
    play_by(alloc, trail, trail.opening.app, found)
}

fn both(one: bool, other: bool) -> bool
    ensures { result ≡ (one && other) }
{
    one && other
}

/// Adds what was sent by trails. Gives whether all members are at rest after them.
fn play_all(alloc: Global, trails: &[Recorded], found: &mut Vec<Posted>) -> Result<bool, AllocError>
    requires { Each CanBegin trails.now }
    ensures rests { IfOk result (λ told. told ≡ list_all rests trails.now) }
    ensures sent { OnOk result (map post_of found.new.items ≡ map post_of found.old.items ++ flat_map posted trails.now) }
{
    let mut rest = true;
    for trail in trails {
        let told = play_trail(alloc, trail, found)?;
        rest = both(rest, told);
    }
    Ok(rest)
}

/// Whether a receiver has a trail.
fn has_trail(trails: &[Recorded], receiver: u16) -> bool
    ensures { result ≡ has_trail trails.now receiver }
{
    trails.iter().any(|trail| trail.opening.member == receiver)
}

/// How often links dropped each message.
fn dropped_counts(alloc: Global, trails: &[Recorded]) -> Result<Counts, AllocError>
    ensures { IfOk result (λ counts. IsCount (λ p. count_or (get same_posted counts p)) (flat_map dropped trails.now)) }
{
    let posts = all_dropped(alloc, trails)?;
    let counts = counts_of(alloc, posts.as_slice())?;
    Ok(counts)
}

/// How often each message came.
fn came_counts(alloc: Global, trails: &[Recorded]) -> Result<Counts, AllocError>
    ensures { IfOk result (λ counts. IsCount (λ p. count_or (get same_posted counts p)) (flat_map came trails.now)) }
{
    let posts = all_came(alloc, trails)?;
    let counts = counts_of(alloc, posts.as_slice())?;
    Ok(counts)
}

/// Whether a message has come as often as it was sent and not dropped, or its receiver has no trail.
fn is_settled(
    trails: &[Recorded],
    sent: &Counts,
    lost: &Counts,
    arrived: &Counts,
    posted: &Posted,
) -> bool
    ensures { (s l a : List Post) → IsCount (λ p. count_or (get same_posted sent.now p)) s → IsCount (λ p. count_or (get same_posted lost.now p)) l →
        IsCount (λ p. count_or (get same_posted arrived.now p)) a → result ≡ (not (has_trail trails.now posted.now.to) || is_received s l a (post_of posted.now)) }
{
    !has_trail(trails, posted.to) || is_received(sent, lost, arrived, posted)
}

/// Whether each message that was sent to a receiver with a trail and was not dropped has come, as often as
/// it was sent. Error: want of memory.
fn all_received(alloc: Global, trails: &[Recorded], sent: &[Posted]) -> Result<bool, AllocError>
    ensures { IfOk result (λ all. all ≡ list_all (λ p. not (has_trail trails.now p.to) || is_received (map post_of sent.now) (flat_map dropped trails.now) (flat_map came trails.now) p) (map post_of sent.now)) }
{
    let counts = counts_of(alloc, sent)?;
    let lost = dropped_counts(alloc, trails)?;
    let arrived = came_counts(alloc, trails)?;
    for posted in sent {
        let settled = is_settled(trails, &counts, &lost, &arrived, posted);
        if !settled {
            return Ok(false);
        }
    }
    Ok(true)
}

/// Whether recorded runs are quiet: after each member's last event no batch waits there, all its entries
/// are firm, and no message leaves it any more. And each message that was sent to a receiver with a trail
/// came there, as often as it was sent and not dropped. The time is linear in the events, times the number
/// of trails. Error: want of memory.
#[tactic(auto, unfolding(audit_rules::specs::Quiets::is_quiet))]
pub fn quiet(alloc: Global, trails: &[Recorded]) -> Result<bool, AllocError>
    requires { Each CanBegin trails.now }
    ensures { IfOk result (λ quiet. quiet ≡ is_quiet trails.now) }
{
    let mut sent = Vec::new(alloc);
    let rest = play_all(alloc, trails, &mut sent)?;
    if !rest {
        return Ok(false);
    }
    all_received(alloc, trails, sent.as_slice())
}
