//! A list of values that contracts see as a list.
ghost use Rattle.std.specs.Prelude.{◌≡◌, ◌^◌, ◌<◌, ◌==◌, List, [], ◌∷◌, ◌++◌, length, take, drop, IfOk, OnOk, OnErr};

use crate::duplicate::Duplicate;
use std::alloc::{AllocError, Global};
use std::marker::Model;

/// A list that grows at its end. Two sequences with the same values are equal in a contract, which
/// is not so of two `Vec`s.
pub struct Sequence<T> {
    items: Vec<T>,
}

/// Let go by one call, so that no function that lets one go carries the whole of it.
impl<T: Drop> Drop for Sequence<T> {
    fn drop(self) {
        let Sequence { items: _ } = self;
    }
}

/// A text, an operation or another string of bytes.
pub type Bytes = Sequence<u8>;

impl<T> Model for Sequence<T> {
    ghost Value = { List T };

    ghost view = { λ s. s.items.items };
}

impl<T> Sequence<T> {
    /// The empty list. It takes no memory.
    pub fn new(alloc: Global) -> Self
        ensures { result ≡ [] }
    {
        Sequence {
            items: Vec::new(alloc),
        }
    }

    /// The values of a `Vec`. It takes no memory.
    pub fn from_vec(items: Vec<T>) -> Self
        ensures { result ≡ items.items }
    {
        Sequence { items }
    }

    /// The values as a `Vec`. It takes no memory.
    pub fn into_vec(self) -> Vec<T>
        ensures { result.items ≡ self }
    {
        let Sequence { items } = self;
        items
    }

    pub fn as_slice(&self) -> &[T]
        ensures { result.now ≡ self.now }
    {
        self.items.as_slice()
    }

    pub fn len(&self) -> usize
        ensures value { result ≡ length self.now }
        ensures small { result < 2 ^ 63 }
    {
        self.items.len()
    }

    pub fn is_empty(&self) -> bool
        ensures { result ≡ (length self.now == 0) }
    {
        self.items.is_empty()
    }

    /// Keeps the first values alone.
    pub fn truncate(&mut self, len: usize)
    where
        T: Drop,
        ensures { self.new ≡ take len self.old }
    {
        self.items.truncate(len);
    }

    /// Adds a value at the end.
    pub fn push(&mut self, value: T) -> Result<(), AllocError>
    where
        T: Drop,
        ensures ok { OnOk result (self.new ≡ self.old ++ value ∷ []) }
        ensures err { OnErr result (self.new ≡ self.old) }
    {
        self.items.push(value)?;
        Ok(())
    }
}

impl Sequence<u8> {
    /// A copy of bytes.
    pub fn from_slice(alloc: Global, bytes: &[u8]) -> Result<Self, AllocError>
        ensures { IfOk result (λ s. s ≡ bytes.now) }
    {
        Ok(Sequence {
            items: Vec::from_slice(alloc, bytes)?,
        })
    }
}

impl<T: Duplicate> Duplicate for Sequence<T> {
    /// Room for the whole copy is made at once. Bytes are copied quicker as one piece, by `from_slice`.
    fn duplicate(&self, alloc: Global) -> Result<Sequence<T>, AllocError> {
        let mut items = Vec::with_capacity(alloc, self.len())?;
        for item in self.as_slice() {
            items.push(item.duplicate(alloc)?)?;
        }
        Ok(Sequence { items })
    }
}
