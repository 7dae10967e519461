//! The sinks of a group's trails.
ghost use Rattle.std.specs.Prelude.{◌≡◌, ◌≤◌, IfOk, None, OnErr, IsErrOf};
ghost use Rattle.faults.specs.Counts.{Rose};
ghost use Rattle.disk_model.specs.Rooms.{address, KeepsOthers};
ghost use Rattle.group_opening.specs.Berths.{IsHeaded};

use faults::Fault;
use member_opening::heading::write_head;
use node_rooms::trails::TrailRoom;
use smart_base::name::MemberId;
use smart_base::sequence::Bytes;
use std::alloc::Global;
use trail::opening::TrailOpening;

/// Takes the sink of a party's trail from a room, and writes the head of the trail. Errors: a failure of the
/// room or of the sink, which is kept then; want of memory.
pub fn take_trail<T: TrailRoom>(
    alloc: Global,
    trails: &mut T,
    dir: &[u8],
    member: MemberId,
    head: &TrailOpening,
    entries: &[Bytes],
) -> Result<T::Sink, Fault>
    ensures headed { IfOk result (IsHeaded T.Sink.written T.Sink.faults (T.taken trails.new) dir.now member head.now entries.now) }
    ensures free { IfOk result (λ _. T.taken trails.old (address dir.now member 0) ≡ None) }
    ensures others { KeepsOthers (address dir.now member 0) (T.kept trails.old) (T.kept trails.new) }
    ensures others_taken { KeepsOthers (address dir.now member 0) (T.taken trails.old) (T.taken trails.new) }
    ensures back { OnErr result (T.taken trails.new (address dir.now member 0) ≡ T.taken trails.old (address dir.now member 0)) }
    ensures cause { IsErrOf result Fault.Failed → Rose (T.faults trails.old) (T.faults trails.new) }
    ensures later { T.faults trails.old ≤ T.faults trails.new }
{
    let mut sink = trails.get(alloc, dir, member)?;
    match write_head(alloc, &mut sink, head, entries) {
        Ok(()) => Ok(sink),
        Err(fault) => {
            trails.keep(dir, member, sink);
            Err(fault)
        }
    }
}
