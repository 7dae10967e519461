//! How a worker takes entries from its lane, and says how many are stored.
ghost use Rattle.std.specs.Prelude.{◌≡◌, ◌≤◌, ◌++◌, ◌^◌, min, max, true, [], length};
ghost use Rattle.log_lane.specs.Lane.{lane_taken, lane_heard_put, lane_raised, out_lane};
ghost use Rattle.queue_ends.specs.Rule.{IsFront};
ghost use Rattle.store_plan.specs.Fit.{AreEntries};
ghost use Rattle.log_worker.specs.Rounds.{PassesOver};

use crate::text::EntryText;
use log_lane::outward::LaneOut;
use smart_base::sequence::Bytes;
use std::sync::Wait;

/// Takes entries until there is none, and tells whether there was memory for all. After `true` all was
/// taken that was heard to be put.
#[tactic(auto, using(crate::proofs::Stored::more_entries))]
pub(crate) fn take_all<R: Wait>(
    rt: &R,
    lane: &mut LaneOut<EntryText>,
    group: &mut Vec<Bytes>,
) -> bool
    requires { group.old.items ≡ [] }
    ensures lane { out_lane lane.new ≡ out_lane lane.old }
    ensures taken { lane_taken lane.new ≡ lane_taken lane.old ++ group.new.items }
    ensures same { lane_raised lane.new ≡ lane_raised lane.old }
    ensures heard { lane_heard_put lane.new ≡ lane_heard_put lane.old }
    ensures all { result ≡ true → IsFront (lane_heard_put lane.new) (lane_taken lane.new) }
    ensures fit { AreEntries group.new.items }
{
    for _ in rt.forever() {
        if group.reserve(1).is_err() {
            return false;
        }
        let Some(text) = lane.take(rt) else {
            return true;
        };
        group.push_reserved(text.into_bytes());
    }
    unreachable!()
}

/// Takes entries up to the one of this number, or until there is none.
pub(crate) fn pass_over<R: Wait>(rt: &R, lane: &mut LaneOut<EntryText>, upto: u64)
    ensures lane { out_lane lane.new ≡ out_lane lane.old }
    ensures over { PassesOver upto (lane_heard_put lane.old) (lane_taken lane.old) (lane_taken lane.new) }
    ensures same { lane_raised lane.new ≡ lane_raised lane.old }
    ensures heard { lane_heard_put lane.new ≡ lane_heard_put lane.old }
{
    for _ in rt.forever() {
        if lane.taken() >= upto || lane.take(rt).is_none() {
            return;
        }
    }
    unreachable!()
}

/// Says that so many entries are stored, as far as they were taken. Gives the number of entries taken.
pub(crate) fn raise(lane: &mut LaneOut<EntryText>, stored: u64) -> u64
    ensures lane { out_lane lane.new ≡ out_lane lane.old }
    ensures raised { lane_raised lane.new ≡ max (lane_raised lane.old) (min stored (length (lane_taken lane.old))) }
    ensures same { (lane_taken lane.new ≡ lane_taken lane.old) × (lane_heard_put lane.new ≡ lane_heard_put lane.old) }
    ensures count { result ≡ length (lane_taken lane.old) }
    ensures few { result ≤ 2 ^ 62 }
{
    let taken = lane.taken();
    let stored = stored.min(taken);
    if lane.raised() < stored {
        lane.raise(stored);
    }
    taken
}
