//! Strings of bytes whose lengths are limited.
ghost use Rattle.std.specs.Prelude.{◌≡◌, ◌<◌, ◌≤◌, length, IfOk};
ghost use Rattle.smart_base.specs.declared.limits.TheConstants.{PAYLOAD_BYTES, TAG_BYTES};

use crate::duplicate::Duplicate;
use crate::sequence::Bytes;
use std::alloc::{AllocError, Global};
use std::marker::Model;

/// A digest of 32 bytes.
#[derive(Clone, Copy, Debug, PartialEq, Eq)]
pub struct Digest32 {
    bytes: [u8; 32],
}

impl Model for Digest32 {
    ghost use Rattle.std.specs.Prelude.{List, ℕ};

    ghost Value = { List ℕ };

    ghost view = { λ d. d.bytes };

    ghost inverse = { λ bytes. record { bytes = bytes } };
}

impl Digest32 {
    pub fn new(bytes: [u8; 32]) -> Self
        ensures { result ≡ bytes }
    {
        Digest32 { bytes }
    }

    pub fn get(self) -> [u8; 32]
        ensures { result ≡ self }
    {
        self.bytes
    }

    pub fn as_slice(&self) -> &[u8]
        ensures value { result.now ≡ self.now }
        ensures long { length result.now ≡ 32 }
    {
        self.bytes.as_slice()
    }
}

impl Duplicate for Digest32 {
    fn duplicate(&self, _alloc: Global) -> Result<Digest32, AllocError> {
        Ok(*self)
    }
}

/// What a signer makes over bytes, so that others can tell who stated them: 1 to 4,096 bytes.
pub struct Tag {
    bytes: Bytes,
}

/// Let go by one call, so that no function that lets one go carries the whole of it.
impl Drop for Tag {
    fn drop(self) {
        let Tag { bytes: _ } = self;
    }
}

impl Model for Tag {
    ghost use Rattle.std.specs.Prelude.{List, ℕ, length, ◌<◌, ◌≤◌};
    ghost use Rattle.smart_base.specs.declared.limits.TheConstants.{TAG_BYTES};

    ghost Value = { List ℕ };

    ghost view = { λ t. t.bytes };

    ghost invariant = { λ t. (0 < length t.bytes) × (length t.bytes ≤ TAG_BYTES) };
}

impl Tag {
    pub fn new(bytes: Bytes) -> Self
        requires some { 0 < length bytes }
        requires short { length bytes ≤ TAG_BYTES }
        ensures { result ≡ bytes }
    {
        Tag { bytes }
    }

    pub fn as_slice(&self) -> &[u8]
        ensures value { result.now ≡ self.now }
        ensures some { 0 < length result.now }
        ensures short { length result.now ≤ TAG_BYTES }
    {
        self.bytes.as_slice()
    }
}

impl Duplicate for Tag {
    fn duplicate(&self, alloc: Global) -> Result<Tag, AllocError> {
        Ok(Tag {
            bytes: Bytes::from_slice(alloc, self.bytes.as_slice())?,
        })
    }
}

/// An operation of a service or its reply: at most 4,096 bytes.
pub struct Payload {
    bytes: Bytes,
}

/// Let go by one call, so that no function that lets one go carries the whole of it.
impl Drop for Payload {
    fn drop(self) {
        let Payload { bytes: _ } = self;
    }
}

impl Model for Payload {
    ghost use Rattle.std.specs.Prelude.{List, ℕ, length, ◌≤◌};
    ghost use Rattle.smart_base.specs.declared.limits.TheConstants.{PAYLOAD_BYTES};

    ghost Value = { List ℕ };

    ghost view = { λ p. p.bytes };

    ghost invariant = { λ p. length p.bytes ≤ PAYLOAD_BYTES };
}

impl Payload {
    pub fn new(bytes: Bytes) -> Self
        requires { length bytes ≤ PAYLOAD_BYTES }
        ensures { result ≡ bytes }
    {
        Payload { bytes }
    }

    /// A copy of bytes.
    pub fn from_slice(alloc: Global, bytes: &[u8]) -> Result<Self, AllocError>
        requires { length bytes.now ≤ PAYLOAD_BYTES }
        ensures { IfOk result (λ p. p ≡ bytes.now) }
    {
        Ok(Payload {
            bytes: Bytes::from_slice(alloc, bytes)?,
        })
    }

    pub fn as_slice(&self) -> &[u8]
        ensures value { result.now ≡ self.now }
        ensures short { length result.now ≤ PAYLOAD_BYTES }
    {
        self.bytes.as_slice()
    }
}

impl Duplicate for Payload {
    fn duplicate(&self, alloc: Global) -> Result<Payload, AllocError> {
        Ok(Payload {
            bytes: Bytes::from_slice(alloc, self.bytes.as_slice())?,
        })
    }
}
