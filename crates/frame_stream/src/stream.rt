//! A stream that is fed in pieces and gives frames.
ghost use Rattle.std.specs.Prelude.{◌≡◌, ◌≤◌, ◌++◌, List, ℕ, length, take, drop, IfOk, OnOk, OnErr};
ghost use Rattle.frame_stream.specs.Frames.{IsCut, Takes};

use crate::frame::{Frame, first_length, split_frame, too_long};
use std::alloc::{AllocError, Global};
use std::collections::VecDeque;
use std::marker::Model;

/// The reason for which a stream did not take a piece.
#[derive(Clone, Copy, Debug, PartialEq, Eq)]
pub enum FeedFault {
    /// A frame's length is above the limit. The stream stays so.
    TooLong { length: u32 },
    /// Want of memory. The stream is as it was.
    NoMemory,
}

/// A stream of frames. It keeps the frames that are whole and were not given, and the bytes after them.
pub struct Frames {
    ready: VecDeque<Frame>,
    rest: Vec<u8>,
}

/// Let go by one call, so that no function that lets one go carries the whole of it.
impl Drop for Frames {
    fn drop(self) {
        let Frames { ready: _, rest: _ } = self;
    }
}

impl Model for Frames {
    ghost use Rattle.frame_stream.specs.Frames.{Stream, IsEnd};

    ghost Value = { Stream };

    ghost view = { λ s. record { ready = s.ready.items; rest = s.rest.items } };

    ghost invariant = { λ s. IsEnd s.rest.items };
}

impl Frames {
    ghost use Rattle.std.specs.Prelude.{◌≡◌, ◌==◌, ◌++◌, ◌∷◌, [], List, ℕ, length, is_some, Option, Some, None, IfOk, IfSome, MatchOption};
    ghost use Rattle.std.specs.Option.{option_to_list};
    ghost use Rattle.frame_stream.specs.Frames.{Fed, HasFed, IsShort, too_long};
    ghost use Rattle.smart_base.specs.Lists.{Each};

    /// A stream to which nothing was fed. It takes no memory.
    pub fn new(alloc: Global) -> Self
        ensures stream { result ≡ record { ready = []; rest = [] } }
        ensures fed { HasFed [] [] result }
    {
        Frames {
            ready: VecDeque::new(alloc),
            rest: Vec::new(alloc),
        }
    }

    /// Takes the next piece of the stream. Errors: a length above the limit was fed, in this piece or
    /// before; want of memory. The frames before that length are given all the same.
    pub fn feed(&mut self, piece: &[u8]) -> Result<(), FeedFault>
        ensures fed { Fed self.old piece.now result self.new }
    {
        if let Some(length) = too_long(self.rest.as_slice()) {
            return Err(FeedFault::TooLong { length });
        }
        let alloc = *self.rest.allocator();
        if take_piece(alloc, &mut self.ready, &mut self.rest, piece).is_err() {
            return Err(FeedFault::NoMemory);
        }
        match too_long(self.rest.as_slice()) {
            Some(length) => Err(FeedFault::TooLong { length }),
            None => Ok(()),
        }
    }

    /// Gives the next frame, in the order of the stream. `None` if and only if none is whole.
    pub fn next(&mut self) -> Option<Frame>
        ensures ready { self.old.ready ≡ option_to_list result ++ self.new.ready }
        ensures none { MatchOption result (self.old.ready ≡ []) (λ frame. self.old.ready ≡ frame ∷ self.new.ready) }
        ensures rest { self.new.rest ≡ self.old.rest }
        ensures fed { (bytes : List ℕ) (given : List (List ℕ)) → HasFed bytes given self.old → HasFed bytes (given ++ option_to_list result) self.new }
    {
        self.ready.pop_front()
    }

    /// The number of bytes after the last whole frame.
    pub fn rest(&self) -> u64
        ensures { result ≡ length self.now.rest }
    {
        self.rest.len() as u64
    }
}

/// Adds a piece to the rest of a stream, and makes the frames ready that are whole then. Error: want of
/// memory; both are as they were.
fn take_piece(
    alloc: Global,
    ready: &mut VecDeque<Frame>,
    rest: &mut Vec<u8>,
    piece: &[u8],
) -> Result<(), AllocError>
    ensures ok { OnOk result (Takes (record { ready = ready.old.items; rest = rest.old.items }) piece.now (record { ready = ready.new.items; rest = rest.new.items })) }
    ensures err { OnErr result ((ready.new.items ≡ ready.old.items) × (rest.new.items ≡ rest.old.items)) }
{
    let (count, len) = (ready.len(), rest.len());
    rest.extend_from_slice(piece)?;
    match take_frames(alloc, rest.as_slice(), ready) {
        Ok(used) => {
            rest.drain(..used);
            Ok(())
        }
        Err(error) => {
            ready.truncate(count);
            rest.truncate(len);
            Err(error)
        }
    }
}

/// Makes the whole frames ready with which bytes begin, and gives the number of their bytes. Error: want
/// of memory; more frames may be ready then.
fn take_frames(
    alloc: Global,
    bytes: &[u8],
    ready: &mut VecDeque<Frame>,
) -> Result<usize, AllocError>
    ensures few { IfOk result (λ used. used ≤ length bytes.now) }
    ensures ok { IfOk result (λ used. (more : List (List ℕ)) × (ready.new.items ≡ ready.old.items ++ more) × IsCut bytes.now more (drop used bytes.now)) }
    ensures err { OnErr result (take (length ready.old.items) ready.new.items ≡ ready.old.items) }
{
    let mut left = bytes;
    while let Some(length) = first_length(left) {
        let (payload, behind) = split_frame(left, length);
        ready.push_back(Frame::from_slice(alloc, payload)?)?;
        left = behind;
    }
    Ok(bytes.len() - left.len())
}
