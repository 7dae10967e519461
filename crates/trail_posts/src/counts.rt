//! How often a message to a receiver stands in others.
ghost use Rattle.std.specs.Prelude.{◌≡◌, ◌+◌, List, IfOk, OnOk, map, if◌then◌else◌};
ghost use Rattle.std.specs.HashMap.{get};
ghost use Rattle.audit_rules.specs.Quiets.{Post, has_come, is_received};
ghost use Rattle.trail_posts.specs.declared.posts.Posted.{Posted};
ghost use Rattle.trail_posts.specs.Counting.{post_of, same_posted, count_or, IsCount};

use crate::posts::Posted;
use std::alloc::{AllocError, Global};
use std::collections::HashMap;

/// Messages to receivers, with the number of times that each stands there.
pub type Counts = HashMap<Posted, u64>;

/// How often a message stands there.
fn count(counts: &Counts, posted: &Posted) -> u64
    ensures { result ≡ count_or (get same_posted counts.now posted.now) }
{
    match counts.get(posted) {
        None => 0,
        Some(times) => *times,
    }
}

/// One more, if that is within 64 bits. Error: it is not.
fn one_more(count: u64) -> Result<u64, AllocError>
    ensures { IfOk result (λ more. more ≡ count + 1) }
{
    match count.checked_add(1) {
        Some(more) => Ok(more),
        None => Err(AllocError),
    }
}

/// Counts a message once more. Error: want of memory, also for 2^64 times.
fn count_once(alloc: Global, counts: &mut Counts, posted: &Posted) -> Result<(), AllocError>
    ensures { OnOk result ((p : Posted) → count_or (get same_posted counts.new p) ≡ (if same_posted posted.now p then 1 else 0) + count_or (get same_posted counts.old p)) }
{
    let before = count(counts, posted);
    let times = one_more(before)?;
    let copy = posted.copy(alloc)?;
    counts.insert(copy, times)?;
    Ok(())
}

/// The counts of all these messages. Error: want of memory.
pub fn counts_of(alloc: Global, posts: &[Posted]) -> Result<Counts, AllocError>
    ensures { IfOk result (λ counts. IsCount (λ p. count_or (get same_posted counts p)) (map post_of posts.now)) }
{
    let mut counts = HashMap::new(alloc);
    for posted in posts {
        count_once(alloc, &mut counts, posted)?;
    }
    Ok(counts)
}

/// Whether a message came as often as it was sent and not dropped.
fn has_come(sent: u64, lost: u64, arrived: u64) -> bool
    ensures { result ≡ has_come sent lost arrived }
{
    sent <= lost || sent - lost == arrived
}

/// Whether a message came as often as it was sent and not dropped, by the counts of what was sent, what
/// was dropped and what came.
pub fn is_received(sent: &Counts, lost: &Counts, arrived: &Counts, posted: &Posted) -> bool
    ensures { (s l a : List Post) → IsCount (λ p. count_or (get same_posted sent.now p)) s → IsCount (λ p. count_or (get same_posted lost.now p)) l →
        IsCount (λ p. count_or (get same_posted arrived.now p)) a → result ≡ is_received s l a (post_of posted.now) }
{
    has_come(
        count(sent, posted),
        count(lost, posted),
        count(arrived, posted),
    )
}
