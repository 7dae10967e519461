//! Members that could not begin as their trails say.
ghost use Rattle.std.specs.Prelude.{◌≡◌, ◌+◌, IfOk, option_map};
ghost use Rattle.audit_rules.specs.Audits.{damage_over, damage_by};
ghost use Rattle.audit_rules.specs.Readings.{damage_in, part_count, damaged_part};

use crate::replay::open;
use app_count::Count;
use app_kv::KeyValueStore;
use audit_rules::recorded::Recorded;
use node_restart::fault::ReopenFault;
use smart_service::service::Service;
use std::alloc::{AllocError, Global};
use trail::opening::App;

/// The number of the first damaged part with which a member began, if there is one: 0 for its snapshot,
/// else that of an entry, from 1. Error: want of memory.
fn damage_over<S: Service>(alloc: Global, trail: &Recorded) -> Result<Option<u64>, AllocError>
    ensures { IfOk result (λ damage. damage ≡ damage_over S.meaning trail.now) }
{
    match open::<S>(alloc, trail) {
        Ok(_core) => Ok(None),
        Err(ReopenFault::Damaged { entry }) => Ok(Some(entry)),
        Err(ReopenFault::NoMemory) => Err(AllocError),
    }
}

/// Over the service that its opening names.
fn damage_by(alloc: Global, trail: &Recorded, app: App) -> Result<Option<u64>, AllocError>
    ensures { IfOk result (λ damage. damage ≡ damage_by trail.now app) }
{
    match app {
        App::Count => damage_over::<Count>(alloc, trail),
        App::Kv => damage_over::<KeyValueStore>(alloc, trail),
    }
}

/// The same of any trail; nothing of a client's is damaged.
pub fn damage_in(alloc: Global, trail: &Recorded) -> Result<Option<u64>, AllocError>
    ensures { IfOk result (λ damage. damage ≡ damage_in trail.now) }
{
    if trail.opening.member == 0 {
        return Ok(None);
    }
    damage_by(alloc, trail, trail.opening.app)
}

/// A sum, if it is within 64 bits. Error: it is not.
pub fn sum(a: u64, b: u64) -> Result<u64, AllocError>
    ensures { IfOk result (λ total. total ≡ a + b) }
{
    match a.checked_add(b) {
        Some(total) => Ok(total),
        None => Err(AllocError),
    }
}

/// How many parts a trail has. Error: 2^64 or more.
fn part_count(trail: &Recorded) -> Result<u64, AllocError>
    ensures { IfOk result (λ count. count ≡ part_count trail.now) }
{
    let entries = sum(1, trail.entries.len() as u64)?;
    sum(entries, trail.events.len() as u64)
}

/// The number of the damaged part of a trail that comes after so many parts.
fn part_at(before: u64, damage: Option<u64>) -> Result<Option<u64>, AllocError>
    ensures { IfOk result (λ part. part ≡ option_map (λ k. before + 1 + k) damage) }
{
    match damage {
        None => Ok(None),
        Some(number) => Ok(Some(sum(sum(before, 1)?, number)?)),
    }
}

/// The number of the first damaged part of trails. Error: want of memory, also for 2^64 parts or more.
pub fn damaged_part(alloc: Global, trails: &[Recorded]) -> Result<Option<u64>, AllocError>
    ensures { IfOk result (λ part. part ≡ damaged_part 0 trails.now) }
{
    let mut before = 0u64;
    for trail in trails {
        let damage = damage_in(alloc, trail)?;
        let told = part_at(before, damage)?;
        match told {
            None => {}
            Some(part) => return Ok(Some(part)),
        }
        let parts = part_count(trail)?;
        let behind = sum(before, parts)?;
        before = behind;
    }
    Ok(None)
}
