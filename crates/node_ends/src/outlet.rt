//! The end by which messages leave: it writes the messages of a link as frames.
ghost use Rattle.std.specs.Prelude.{◌≡◌, ◌≤◌, ℕ, take, OnOk, OnErr, IsErrOf};
ghost use Rattle.std.specs.Io.KnownBytes.{Appends};
ghost use Rattle.faults.specs.Counts.{Rose};
ghost use Rattle.frame_stream.specs.Frames.{framed};

use crate::watch::{Going, Watch};
use faults::Fault;
use frame_stream::writing::write_frame;
use group_links::outward::LinkOut;
use smart_base::sequence::Bytes;
use smart_io::stream::Sink;
use std::sync::Wait;
use std::thread;

/// Why no more leaves.
#[derive(Clone, Copy, Debug, PartialEq, Eq)]
pub enum OutputEnd {
    /// The output has failed.
    Failed,
    /// Memory ran out.
    NoMemory,
}

/// What became of a turn of an outlet.
#[derive(Clone, Copy, Debug, PartialEq, Eq)]
pub enum Giving {
    /// A message was written.
    Done,
    /// No message was on the link.
    Nothing,
    /// No more leaves.
    Ended(OutputEnd),
}

/// The link whose messages are written.
pub struct Outlet {
    pub link: LinkOut<Bytes>,
}

/// Let go by one call, so that no function that lets one go carries the whole of it.
impl Drop for Outlet {
    fn drop(self) {
        let Outlet { link: _ } = self;
    }
}

/// Why a call of an output gave up.
fn end_of(fault: Fault) -> OutputEnd
    ensures { result ≡ OutputEnd.Failed → fault ≡ Fault.Failed }
{
    match fault {
        Fault::Failed => OutputEnd::Failed,
        Fault::NoMemory => OutputEnd::NoMemory,
    }
}

/// Writes a message as a frame, and lets it go on. Errors: a failure of the output; want of memory, also
/// for a message of 2^32 bytes or more. A front of the frame is written then.
fn write_message<O: Sink>(output: &mut O, payload: &[u8]) -> Result<(), OutputEnd>
    ensures ok { OnOk result (Appends (O.written output.old) (O.written output.new) (framed payload.now)) }
    ensures err { OnErr result ((count : ℕ) × Appends (O.written output.old) (O.written output.new) (take count (framed payload.now))) }
    ensures cause { IsErrOf result OutputEnd.Failed → Rose (O.faults output.old) (O.faults output.new) }
    ensures later { O.faults output.old ≤ O.faults output.new }
{
    if payload.len() >= 1 << 32 {
        return Err(OutputEnd::NoMemory);
    }
    if let Err(fault) = write_frame(output, payload) {
        return Err(end_of(fault));
    }
    match output.flush() {
        Ok(()) => Ok(()),
        Err(fault) => Err(end_of(fault)),
    }
}

impl Outlet {
    ghost use Rattle.std.specs.Prelude.{◌≡◌, ◌≤◌, OnOk, IsErrOf};
    ghost use Rattle.std.specs.Result.{is_ok};
    ghost use Rattle.faults.specs.Counts.{Rose};
    ghost use Rattle.queue_ends.specs.Rule.{IsFront};
    ghost use Rattle.group_links.specs.Link.{link_taken, link_heard_put, out_link};
    ghost use Rattle.node_ends.specs.Outlets.{Writes, goes_on};
    ghost use Rattle.node_ends.specs.declared.outlet.Giving.TheVariants.{Nothing, Ended};
    ghost use Rattle.node_ends.specs.declared.outlet.OutputEnd.TheVariants.{Failed};

    pub fn new(link: LinkOut<Bytes>) -> Outlet
        ensures { result.link ≡ link }
    {
        Outlet { link }
    }

    /// The end of the link.
    pub fn into_link(self) -> LinkOut<Bytes>
        ensures { result ≡ self.link }
    {
        let Outlet { link } = self;
        link
    }

    /// One turn: the next message is written, if there is one.
    pub fn turn<O: Sink, R: Wait>(&mut self, rt: &R, output: &mut O) -> Giving
        ensures link { out_link self.new.link ≡ out_link self.old.link }
        ensures heard { link_heard_put self.new.link ≡ link_heard_put self.old.link }
        ensures wrote { Writes (O.written output.old) (O.written output.new) (goes_on result) self.old self.new }
        // Nothing only where no message was there at one moment of the call, so that all was taken that was heard to be put.
        ensures nothing { result ≡ Nothing → (link_taken self.new.link ≡ link_taken self.old.link) × IsFront (link_heard_put self.old.link) (link_taken self.new.link) }
        ensures cause { result ≡ Ended Failed → Rose (O.faults output.old) (O.faults output.new) }
        ensures later { O.faults output.old ≤ O.faults output.new }
    {
        let Some(payload) = self.link.poll(rt) else {
            return Giving::Nothing;
        };
        match write_message(output, payload.as_slice()) {
            Ok(()) => Giving::Done,
            Err(end) => Giving::Ended(end),
        }
    }

    /// Writes all messages that are on the link. Error: no more leaves.
    pub fn drain<O: Sink, R: Wait>(&mut self, rt: &R, output: &mut O) -> Result<(), OutputEnd>
        ensures link { out_link self.new.link ≡ out_link self.old.link }
        ensures heard { link_heard_put self.new.link ≡ link_heard_put self.old.link }
        ensures wrote { Writes (O.written output.old) (O.written output.new) (is_ok result) self.old self.new }
        ensures nothing { OnOk result (IsFront (link_heard_put self.old.link) (link_taken self.new.link)) }
        ensures cause { IsErrOf result OutputEnd.Failed → Rose (O.faults output.old) (O.faults output.new) }
        ensures later { O.faults output.old ≤ O.faults output.new }
    {
        for _ in rt.forever() {
            match self.turn(rt, output) {
                Giving::Done => {}
                Giving::Nothing => return Ok(()),
                Giving::Ended(end) => return Err(end),
            }
        }
        unreachable!()
    }

    /// Writes all that leaves, until nothing more does. Error: no more leaves.
    pub fn give_all<O: Sink, W: Watch, R: Wait>(
        &mut self,
        rt: &R,
        watch: &mut W,
        output: &mut O,
    ) -> Result<(), OutputEnd>
        ensures link { out_link self.new.link ≡ out_link self.old.link }
        ensures heard { link_heard_put self.new.link ≡ link_heard_put self.old.link }
        ensures wrote { Writes (O.written output.old) (O.written output.new) (is_ok result) self.old self.new }
        ensures nothing { OnOk result (IsFront (link_heard_put self.old.link) (link_taken self.new.link)) }
        ensures cause { IsErrOf result OutputEnd.Failed → Rose (O.faults output.old) (O.faults output.new) }
        ensures later { O.faults output.old ≤ O.faults output.new }
    {
        for _ in rt.forever() {
            let going = watch.let_go();
            if let Err(end) = self.drain(rt, output) {
                return Err(end);
            }
            match going {
                Going::More => {}
                Going::Nothing => thread::yield_now(),
                Going::Last => return Ok(()),
            }
        }
        unreachable!()
    }
}
