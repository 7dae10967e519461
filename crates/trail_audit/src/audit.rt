//! The audit of recorded runs.
ghost use Rattle.std.specs.Prelude.{◌≡◌, Bool, false, None, IfOk};
ghost use Rattle.std.specs.HashSet.{contains};
ghost use Rattle.smart_base.specs.Lists.{Each};
ghost use Rattle.smart_messages.specs.declared.message.Sealed.{Sealed};
ghost use Rattle.audit_rules.specs.Audits.{CanBegin, is_client, damage_by, app_difference, trail_difference, difference_in, first_difference, verdict_of};
ghost use Rattle.sent_statements.specs.Indexes.{same_made, IsIndex};

use crate::replay::{client_difference, service_difference};
use app_count::Count;
use app_kv::KeyValueStore;
use audit_rules::recorded::{Difference, Recorded, Verdict};
use sent_statements::made::SentIndex;
use sent_statements::sending::sent_index;
use std::alloc::{AllocError, Global};
use trail::opening::App;

/// The first difference in a member's trail, over the service that its opening names.
fn app_difference(
    alloc: Global,
    index: &SentIndex,
    trail: &Recorded,
    app: App,
) -> Result<Option<Difference>, AllocError>
    requires { damage_by trail.now app ≡ None }
    ensures { (sent : Sealed → Bool) → IsIndex (contains same_made index.now) sent → IfOk result (λ d. d ≡ app_difference sent trail.now app) }
{
    match app {
        App::Count => service_difference::<Count>(alloc, index, trail),
        App::Kv => service_difference::<KeyValueStore>(alloc, index, trail),
    }
}

/// The first difference in a trail.
#[tactic(auto, unfolding(audit_rules::specs::Audits::trail_difference))]
fn trail_difference(
    alloc: Global,
    index: &SentIndex,
    trail: &Recorded,
) -> Result<Option<Difference>, AllocError>
    requires { CanBegin trail.now }
    ensures { (sent : Sealed → Bool) → IsIndex (contains same_made index.now) sent → IfOk result (λ d. d ≡ trail_difference sent trail.now) }
{
    if trail.opening.member == 0 {
        let events = trail.events.as_slice();
        client_difference(alloc, index, &trail.opening, events)
    } else {
        app_difference(alloc, index, trail, trail.opening.app)
    }
}

/// The first difference in trails, in their order.
fn difference_in(
    alloc: Global,
    index: &SentIndex,
    trails: &[Recorded],
) -> Result<Option<Difference>, AllocError>
    requires { Each CanBegin trails.now }
    ensures { (sent : Sealed → Bool) → IsIndex (contains same_made index.now) sent → IfOk result (λ d. d ≡ difference_in sent trails.now) }
{
    for trail in trails {
        let told = trail_difference(alloc, index, trail)?;
        match told {
            None => {}
            Some(difference) => return Ok(Some(difference)),
        }
    }
    Ok(None)
}

/// The audit of recorded runs: each member's trail is replayed by a node of its own, event by event. Each
/// Send is to be the next message that leaves the node there. Each statement of a member that comes with
/// its tag is to be the member's own in a message that it sent by its trail. A member without a trail has
/// sent nothing. What differs first is told, in the order of the trails and of their events. The time is
/// linear in the events. Error: want of memory.
#[tactic(auto, unfolding(audit_rules::specs::Audits::first_difference))]
pub fn audit(alloc: Global, trails: &[Recorded]) -> Result<Verdict, AllocError>
    requires { Each CanBegin trails.now }
    ensures { IfOk result (λ verdict. verdict ≡ verdict_of (first_difference trails.now)) }
{
    let index = sent_index(alloc, trails)?;
    match difference_in(alloc, &index, trails)? {
        None => Ok(Verdict::Coherent),
        Some(difference) => Ok(Verdict::Differs(difference)),
    }
}
