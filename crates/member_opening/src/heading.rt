//! The head of a node's trail: its opening, and the entries with which the node began.
ghost use Rattle.std.specs.Prelude.{◌≡◌, ◌<◌, ◌^◌, [], ℕ, length, take, IfOk, OnOk, OnErr};
ghost use Rattle.std.specs.List.{flat_map};
ghost use Rattle.std.specs.Io.KnownBytes.{Appends};
ghost use Rattle.faults.specs.Counts.{HasCause};
ghost use Rattle.trail.specs.Openings.{opening_text};
ghost use Rattle.trail.specs.Trails.{part, trail_text};
ghost use Rattle.member_opening.specs.Headings.{head_by, snapshot_by};

use crate::settings::Settings;
use delivery::replica::KeptReplica;
use faults::Fault;
use frame_stream::writing::write_frame;
use node_rules::node::Parts;
use smart_base::duplicate::Duplicate;
use smart_base::sequence::Bytes;
use smart_io::stream::Sink;
use smart_service::service::Service;
use snapshot_form::writing::to_bytes;
use std::alloc::{AllocError, Global};
use trail::opening::TrailOpening;
use trail::opening_bytes::encode_opening;

/// The bytes of the replica with which a node begins. Error: want of memory.
fn snapshot_by<S: Service>(
    alloc: Global,
    settings: &Settings,
    parts: &Parts,
) -> Result<Bytes, AllocError>
    ensures { IfOk result (λ bytes. bytes ≡ snapshot_by S.meaning settings.now.view parts.now.snapshot) }
{
    match &parts.snapshot {
        Some(bytes) => Bytes::from_slice(alloc, bytes.as_slice()),
        None => {
            let first: KeptReplica<S> = KeptReplica::empty(alloc, settings.view.duplicate(alloc)?)?;
            to_bytes(alloc, first.replica())
        }
    }
}

/// With what the trail of a node begins. Error: want of memory.
pub fn head_by<S: Service>(
    alloc: Global,
    settings: &Settings,
    parts: &Parts,
) -> Result<TrailOpening, AllocError>
    ensures { IfOk result (λ head. head ≡ head_by S.meaning settings.now parts.now) }
{
    Ok(TrailOpening {
        member: settings.member.get(),
        period: settings.period,
        view: settings.view.duplicate(alloc)?,
        app: settings.app,
        secret: Bytes::from_slice(alloc, settings.secret.as_slice())?,
        snapshot: snapshot_by::<S>(alloc, settings, parts)?,
        entries: parts.entries.len() as u64,
    })
}

/// The bytes of a trail's opening, fewer than 2^32. Error: want of memory, also for an opening with more.
fn opening_bytes(alloc: Global, head: &TrailOpening) -> Result<Vec<u8>, AllocError>
    ensures text { IfOk result (λ bytes. bytes.items ≡ opening_text head.now) }
    ensures short { IfOk result (λ bytes. length bytes.items < 2 ^ 32) }
{
    if head.secret.len() >= 1 << 32 || head.snapshot.len() >= 1 << 32 {
        return Err(AllocError);
    }
    let bytes = encode_opening(alloc, head)?;
    if bytes.len() >= 1 << 32 {
        return Err(AllocError);
    }
    Ok(bytes)
}

/// Writes a part of a trail. Errors: those of the sink; want of memory, also for a part of 2^32 bytes or
/// more. A front of the part is written then.
fn write_part<O: Sink>(sink: &mut O, bytes: &[u8]) -> Result<(), Fault>
    ensures ok { OnOk result (Appends (O.written sink.old) (O.written sink.new) (part bytes.now)) }
    ensures err { OnErr result ((count : ℕ) × Appends (O.written sink.old) (O.written sink.new) (take count (part bytes.now))) }
    ensures cause { HasCause (O.faults sink.old) (O.faults sink.new) result }
{
    if bytes.len() >= 1 << 32 {
        return Err(Fault::NoMemory);
    }
    write_frame(sink, bytes)
}

/// Writes entries as parts of a trail, one after the other. Errors: as at `write_part`.
fn write_entries<O: Sink>(sink: &mut O, entries: &[Bytes]) -> Result<(), Fault>
    ensures ok { OnOk result (Appends (O.written sink.old) (O.written sink.new) (flat_map part entries.now)) }
    ensures err { OnErr result ((count : ℕ) × Appends (O.written sink.old) (O.written sink.new) (take count (flat_map part entries.now))) }
    ensures cause { HasCause (O.faults sink.old) (O.faults sink.new) result }
{
    for entry in entries {
        write_part(sink, entry.as_slice())?;
    }
    Ok(())
}

/// Writes the head of a trail: its opening, and the entries with which the node began, in their bytes.
/// Errors: those of the sink; want of memory. A front of the head is written then.
pub fn write_head<O: Sink>(
    alloc: Global,
    sink: &mut O,
    head: &TrailOpening,
    entries: &[Bytes],
) -> Result<(), Fault>
    ensures ok { OnOk result (Appends (O.written sink.old) (O.written sink.new) (trail_text head.now entries.now [])) }
    ensures err { OnErr result ((count : ℕ) × Appends (O.written sink.old) (O.written sink.new) (take count (trail_text head.now entries.now []))) }
    ensures cause { HasCause (O.faults sink.old) (O.faults sink.new) result }
{
    let Ok(bytes) = opening_bytes(alloc, head) else {
        return Err(Fault::NoMemory);
    };
    write_part(sink, bytes.as_slice())?;
    write_entries(sink, entries)
}
