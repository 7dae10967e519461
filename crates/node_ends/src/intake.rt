//! The end by which messages come in: it reads frames, and puts those that are not empty on a link.
ghost use Rattle.std.specs.Prelude.{◌≡◌, ◌++◌, ◌∷◌, [], None};

use crate::watch::Watch;
use faults::Fault;
use frame_stream::frame::Frame;
use frame_stream::laws::frames_are_those_of_all_bytes;
use frame_stream::stream::{FeedFault, Frames};
use group_links::inward::{LinkIn, Sending};
use smart_base::sequence::Bytes;
use smart_io::stream::Source;
use std::alloc::Global;
use std::sync::Wait;
use std::thread;

/// The number of bytes that one read takes at most.
const PIECE: usize = 4096;

/// Why no more comes in.
#[derive(Clone, Copy, Debug, PartialEq, Eq)]
pub enum InputEnd {
    /// The input is at its end, and each of its frames that is not empty was put on the link.
    Whole,
    /// A frame is too long, or the input ended within it. `frame` is its number, counted from 1.
    Form { frame: u64 },
    /// The input has failed.
    Failed,
    /// Memory ran out.
    NoMemory,
}

/// What became of a turn of an intake.
#[derive(Clone, Copy, Debug, PartialEq, Eq)]
pub enum Taking {
    /// Bytes were read, or a frame was given.
    Done,
    /// The link has no room for the next message.
    Full,
    /// No more comes in.
    Ended(InputEnd),
}

/// The stream of the frames of an input, and the link on which their payloads are put.
pub struct Intake {
    pub frames: Frames,
    pub link: LinkIn<Bytes>,
    /// A payload for which the link had no room.
    pub waiting: Option<Bytes>,
    /// The number of frames that the stream has given.
    pub count: u64,
    /// Whether a frame is too long.
    pub is_long: bool,
}

/// Let go by one call, so that no function that lets one go carries the whole of it.
impl Drop for Intake {
    fn drop(self) {
        let Intake {
            frames: _,
            link: _,
            waiting: _,
            count: _,
            is_long: _,
        } = self;
    }
}

impl Intake {
    ghost use Rattle.std.specs.Prelude.{◌≡◌, ◌≤◌, ◌<◌, ◌⊎◌, ◌+◌, ◌-◌, ◌^◌, ◌++◌, ◌∷◌, [], ℕ, List, min, length, None, Some, true, false};
    ghost use Rattle.std.specs.Option.{option_to_list};
    ghost use Rattle.std.specs.Io.KnownBytes.{IsAtEnd};
    ghost use Rattle.faults.specs.Counts.{Rose};
    ghost use Rattle.group_links.specs.Link.{link_put, in_link, IsFull};
    ghost use Rattle.node_ends.specs.Intakes.{filled_by, HasTakenIn, HasFedOn, Reads, IsDone, IsCutOff, is_cut, is_early};
    ghost use Rattle.node_ends.specs.declared.intake.Taking.TheVariants.{Done, Full, Ended};
    ghost use Rattle.node_ends.specs.declared.intake.InputEnd.TheVariants.{Whole, Form, Failed, NoMemory};

    /// An intake that has read nothing. It takes no memory.
    pub fn new(alloc: Global, link: LinkIn<Bytes>) -> Intake
        ensures link { result.link ≡ link }
        ensures taken { link_put link ≡ [] → HasTakenIn [] result }
    {
        Intake {
            frames: Frames::new(alloc),
            link,
            waiting: None,
            count: 0,
            is_long: false,
        }
    }

    /// The end of the link.
    pub fn into_link(self) -> LinkIn<Bytes>
        ensures { result ≡ self.link }
    {
        let Intake {
            frames: _,
            link,
            waiting: _,
            count: _,
            is_long: _,
        } = self;
        link
    }

    /// One turn: a message that waits goes onto the link, or the next frame is given, or a piece of the
    /// input is read. An empty frame goes nowhere.
    pub fn turn<I: Source, R: Wait>(&mut self, rt: &R, input: &mut I) -> Taking
        ensures link { in_link self.new.link ≡ in_link self.old.link }
        ensures reads { Reads (I.left input.old) (I.left input.new) (is_cut result) self.old self.new }
        ensures whole { result ≡ Ended Whole → IsAtEnd (I.left input.new) × IsDone self.new }
        ensures form { (frame : ℕ) → result ≡ Ended (Form frame) → (frame ≡ min (self.new.count + 1) (2 ^ 64 - 1)) × IsCutOff (I.left input.new) self.new }
        ensures cause { result ≡ Ended Failed → Rose (I.faults input.old) (I.faults input.new) }
        ensures later { I.faults input.old ≤ I.faults input.new }
        ensures full { result ≡ Full → IsFull self.old.link }
    {
        if let Some(payload) = self.waiting.take() {
            return self.offer(rt, payload);
        }
        if let Some(frame) = self.frames.next() {
            return self.pass(rt, frame);
        }
        if self.is_long {
            return Taking::Ended(self.cut_off());
        }
        self.take_piece(input)
    }

    /// Takes in all of an input, until it has ended, or no more is to come in. `None`: no more is to come
    /// in.
    pub fn take_all<I: Source, W: Watch, R: Wait>(
        &mut self,
        rt: &R,
        watch: &mut W,
        input: &mut I,
    ) -> Option<InputEnd>
        ensures link { in_link self.new.link ≡ in_link self.old.link }
        ensures reads { Reads (I.left input.old) (I.left input.new) (is_early result) self.old self.new }
        ensures whole { result ≡ Some Whole → IsAtEnd (I.left input.new) × IsDone self.new }
        ensures form { (frame : ℕ) → result ≡ Some (Form frame) → (frame ≡ min (self.new.count + 1) (2 ^ 64 - 1)) × IsCutOff (I.left input.new) self.new }
        ensures cause { result ≡ Some Failed → Rose (I.faults input.old) (I.faults input.new) }
        ensures later { I.faults input.old ≤ I.faults input.new }
    {
        for _ in rt.forever() {
            if watch.is_over() {
                return None;
            }
            match self.turn(rt, input) {
                Taking::Done => {}
                Taking::Full => thread::yield_now(),
                Taking::Ended(end) => return Some(end),
            }
        }
        unreachable!()
    }

    /// Puts a payload on the link, or lets it wait.
    fn offer<R: Wait>(&mut self, rt: &R, payload: Bytes) -> Taking
        requires { self.old.waiting ≡ None }
        ensures link { in_link self.new.link ≡ in_link self.old.link }
        ensures put { link_put self.new.link ++ option_to_list self.new.waiting ≡ link_put self.old.link ++ payload ∷ [] }
        ensures same { (self.new.frames ≡ self.old.frames) × ((self.new.count ≡ self.old.count) × (self.new.is_long ≡ self.old.is_long)) }
        ensures full { result ≡ Full → IsFull self.old.link }
        ensures goes { (result ≡ Done) ⊎ (result ≡ Full) }
    {
        match self.link.send(rt, payload) {
            Sending::Sent => Taking::Done,
            Sending::Dropped { message } => {
                self.waiting = Some(message);
                Taking::Full
            }
        }
    }

    /// Puts the payload of a frame on the link, if it is not empty.
    fn pass<R: Wait>(&mut self, rt: &R, frame: Frame) -> Taking
        requires { self.old.waiting ≡ None }
        ensures link { in_link self.new.link ≡ in_link self.old.link }
        ensures put { link_put self.new.link ++ option_to_list self.new.waiting ≡ link_put self.old.link ++ filled_by frame }
        ensures same { (self.new.frames ≡ self.old.frames) × (self.new.is_long ≡ self.old.is_long) }
        ensures count { self.new.count ≡ min (self.old.count + 1) (2 ^ 64 - 1) }
        ensures full { result ≡ Full → IsFull self.old.link }
        ensures goes { (result ≡ Done) ⊎ (result ≡ Full) }
    {
        self.count = self.count.saturating_add(1);
        let payload = frame.into_payload();
        if payload.is_empty() {
            return Taking::Done;
        }
        self.offer(rt, payload)
    }

    /// Reads a piece of the input, and feeds it to the stream.
    fn take_piece<I: Source>(&mut self, input: &mut I) -> Taking
        requires { self.old.is_long ≡ false }
        ensures same { (self.new.link ≡ self.old.link) × ((self.new.waiting ≡ self.old.waiting) × (self.new.count ≡ self.old.count)) }
        ensures reads { Reads (I.left input.old) (I.left input.new) (is_cut result) self.old self.new }
        ensures whole { result ≡ Ended Whole → IsAtEnd (I.left input.new) × ((self.new ≡ self.old) × (self.new.frames.rest ≡ [])) }
        ensures form { (frame : ℕ) → result ≡ Ended (Form frame) → (frame ≡ min (self.new.count + 1) (2 ^ 64 - 1)) × (IsAtEnd (I.left input.new) × ((self.new ≡ self.old) × (0 < length self.new.frames.rest))) }
        ensures cause { result ≡ Ended Failed → Rose (I.faults input.old) (I.faults input.new) }
        ensures later { I.faults input.old ≤ I.faults input.new }
        ensures not_full { result ≡ Full → ⊥ }
    {
        let mut buffer = [0u8; PIECE];
        let count = match input.read(&mut buffer) {
            Ok(count) => count,
            Err(Fault::Failed) => return Taking::Ended(InputEnd::Failed),
            Err(Fault::NoMemory) => return Taking::Ended(InputEnd::NoMemory),
        };
        if count == 0 {
            return Taking::Ended(self.at_end());
        }
        let (piece, _) = buffer.split_at(count);
        self.feed(piece)
    }

    /// How the input has ended, all frames of which were given.
    fn at_end(&self) -> InputEnd
        ensures whole { result ≡ Whole → self.now.frames.rest ≡ [] }
        ensures form { (frame : ℕ) → result ≡ Form frame → (frame ≡ min (self.now.count + 1) (2 ^ 64 - 1)) × (0 < length self.now.frames.rest) }
        ensures ended { (result ≡ Failed → ⊥) × (result ≡ NoMemory → ⊥) }
    {
        if self.frames.rest() == 0 {
            return InputEnd::Whole;
        }
        self.cut_off()
    }

    /// The input has no whole frame at the next number.
    fn cut_off(&self) -> InputEnd
        ensures { result ≡ Form (min (self.now.count + 1) (2 ^ 64 - 1)) }
    {
        InputEnd::Form {
            frame: self.count.saturating_add(1),
        }
    }

    /// Feeds a piece to the stream.
    fn feed(&mut self, piece: &[u8]) -> Taking
        ensures same { (self.new.link ≡ self.old.link) × ((self.new.waiting ≡ self.old.waiting) × (self.new.count ≡ self.old.count)) }
        ensures fed { HasFedOn piece.now result self.old self.new }
        ensures goes { (result ≡ Done) ⊎ (result ≡ Ended NoMemory) }
    {
        frames_are_those_of_all_bytes();
        match self.frames.feed(piece) {
            Ok(()) => Taking::Done,
            Err(FeedFault::TooLong { length: _ }) => {
                self.is_long = true;
                Taking::Done
            }
            Err(FeedFault::NoMemory) => Taking::Ended(InputEnd::NoMemory),
        }
    }
}
