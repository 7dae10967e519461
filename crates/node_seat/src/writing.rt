//! How a part of a trail is written, and a payload is put on a link.
ghost use Rattle.std.specs.Prelude.{◌≡◌, ◌⊎◌, ◌≤◌, ◌<◌, ◌^◌, ◌++◌, ◌∷◌, [], ℕ, true, take, length, OnOk, OnErr, IsErrOf};
ghost use Rattle.std.specs.Io.KnownBytes.{Appends};
ghost use Rattle.faults.specs.Counts.{Rose};
ghost use Rattle.group_links.specs.Link.{link_put, in_link};
ghost use Rattle.trail.specs.Trails.{part};

use faults::Fault;
use frame_stream::writing::write_frame;
use group_links::inward::{LinkIn, Sending};
use node_played::played::SeatEnd;
use smart_base::sequence::Bytes;
use smart_io::stream::Sink;
use std::sync::Wait;
use std::thread;

/// Writes a part of a trail. Error: a failure of the sink, or a want of memory there; a front of the
/// part is written then. `failed` is set if the sink has failed.
pub(crate) fn write_part<O: Sink>(
    sink: &mut O,
    failed: &mut bool,
    text: &[u8],
) -> Result<(), SeatEnd>
    requires { length text.now < 2 ^ 32 }
    ensures ok { OnOk result (Appends (O.written sink.old) (O.written sink.new) (part text.now)) }
    ensures err { OnErr result ((count : ℕ) × Appends (O.written sink.old) (O.written sink.new) (take count (part text.now))) }
    ensures later { O.faults sink.old ≤ O.faults sink.new }
    ensures failed { failed.new ≡ true → (failed.old ≡ true) ⊎ Rose (O.faults sink.old) (O.faults sink.new) }
    ensures cause { IsErrOf result SeatEnd.TrailFault → (failed.new ≡ true) × Rose (O.faults sink.old) (O.faults sink.new) }
{
    match write_frame(sink, text) {
        Ok(()) => Ok(()),
        Err(Fault::Failed) => {
            *failed = true;
            Err(SeatEnd::TrailFault)
        }
        Err(Fault::NoMemory) => Err(SeatEnd::NoMemory),
    }
}

/// Puts a payload on a link, and tries again while the link is full.
pub fn put_on<R: Wait>(rt: &R, link: &mut LinkIn<Bytes>, payload: Bytes)
    ensures link { in_link link.new ≡ in_link link.old }
    ensures put { link_put link.new ≡ link_put link.old ++ payload ∷ [] }
{
    let mut payload = payload;
    for _ in rt.forever() {
        match link.send(rt, payload) {
            Sending::Sent => return,
            Sending::Dropped { message } => payload = message,
        }
        thread::yield_now();
    }
    unreachable!()
}
