//! One frame, and how it stands in bytes.
ghost use Rattle.std.specs.Prelude.{◌≡◌, ◌≤◌, ◌++◌, length, IfOk, Some};
ghost use Rattle.smart_base.specs.declared.limits.TheConstants.{MESSAGE_BYTES};
ghost use Rattle.frame_stream.specs.Frames.{framed, length_at, too_long, HasFirst};

use byteorder::{BigEndian, ByteOrder};
use smart_base::limits::MESSAGE_BYTES;
use smart_base::sequence::Bytes;
use std::alloc::{AllocError, Global};
use std::marker::Model;

/// The number of bytes in which a frame's length stands.
pub const HEAD_BYTES: usize = 4;

/// The payload of a frame: at most 1,048,576 bytes.
pub struct Frame {
    payload: Bytes,
}

/// Let go by one call, so that no function that lets one go carries the whole of it.
impl Drop for Frame {
    fn drop(self) {
        let Frame { payload: _ } = self;
    }
}

impl Model for Frame {
    ghost use Rattle.std.specs.Prelude.{List, ℕ, length, ◌≤◌};
    ghost use Rattle.smart_base.specs.declared.limits.TheConstants.{MESSAGE_BYTES};

    ghost Value = { List ℕ };

    ghost view = { λ f. f.payload };

    ghost invariant = { λ f. length f.payload ≤ MESSAGE_BYTES };
}

impl Frame {
    /// A copy of a payload. Error: want of memory.
    pub fn from_slice(alloc: Global, payload: &[u8]) -> Result<Self, AllocError>
        requires { length payload.now ≤ MESSAGE_BYTES }
        ensures { IfOk result (λ f. f ≡ payload.now) }
    {
        Ok(Frame {
            payload: Bytes::from_slice(alloc, payload)?,
        })
    }

    pub fn as_slice(&self) -> &[u8]
        ensures value { result.now ≡ self.now }
        ensures short { length result.now ≤ MESSAGE_BYTES }
    {
        self.payload.as_slice()
    }

    /// The payload itself. It takes no memory.
    pub fn into_payload(self) -> Bytes
        ensures value { result ≡ self }
        ensures short { length result ≤ MESSAGE_BYTES }
    {
        let Frame { payload } = self;
        payload
    }
}

/// The length with which bytes begin.
fn length_at(bytes: &[u8]) -> u32
    requires { HEAD_BYTES ≤ length bytes.now }
    ensures { result ≡ length_at bytes.now }
{
    BigEndian::read_u32(bytes)
}

/// The length with which bytes begin, if it is above the limit.
pub(crate) fn too_long(bytes: &[u8]) -> Option<u32>
    ensures { result ≡ too_long bytes.now }
{
    if bytes.len() < HEAD_BYTES {
        return None;
    }
    let length = length_at(bytes);
    if length as usize <= MESSAGE_BYTES {
        return None;
    }
    Some(length)
}

/// The length of the payload of the whole frame with which bytes begin. `None` if and only if the bytes
/// begin with no whole frame within the limit.
pub(crate) fn first_length(bytes: &[u8]) -> Option<usize>
    ensures { HasFirst bytes.now result }
{
    if bytes.len() < HEAD_BYTES {
        return None;
    }
    let length = length_at(bytes) as usize;
    if MESSAGE_BYTES < length || bytes.len() - HEAD_BYTES < length {
        return None;
    }
    Some(length)
}

/// The payload of the frame with which bytes begin, and the bytes after it.
#[tactic(auto, using(crate::proofs::Cutting::frame_at))]
pub(crate) fn split_frame(bytes: &[u8], count: usize) -> (&[u8], &[u8])
    requires { HasFirst bytes.now (Some count) }
    ensures parts { bytes.now ≡ framed result.0.now ++ result.1.now }
    ensures short { length result.0.now ≤ MESSAGE_BYTES }
{
    let (frame, behind) = bytes.split_at(HEAD_BYTES + count);
    let (_head, payload) = frame.split_at(HEAD_BYTES);
    (payload, behind)
}
