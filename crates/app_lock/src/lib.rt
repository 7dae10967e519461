//! A service that keeps a lock: one name holds it, or nobody does. An operation is a text:
//!
//! - `take NAME` gives the lock to the name, if nobody holds it.
//! - `free NAME` frees the lock, if the name holds it.
//! - `who`, like any other text, changes nothing.
//!
//! Each reply is the name that holds the lock after the operation, or `-` if nobody does.
#![tactic(auto)]

ghost use Rattle.std.specs.Prelude.{◌≡◌, ◌≤◌, length};
ghost use Rattle.std.specs.Option.{option_copied};
ghost use Rattle.app_lock.specs.Locks.{are_letters, is_name, name_after, taken, freed, holder_after, told};

use smart_base::bytes::Payload;
use smart_base::duplicate::Duplicate;
use smart_base::sequence::Bytes;
use smart_service::fault::RestoreError;
use smart_service::service::Service;
use std::alloc::{AllocError, Global};

/// The name that holds the lock. It is empty if nobody does.
#[derive(Drop)]
pub struct Lock {
    holder: Bytes,
}

/// Whether a text has no other bytes than small letters.
fn are_letters(text: &[u8]) -> bool
    ensures { result ≡ are_letters text.now }
{
    text.iter().all(|byte| b'a' <= *byte && *byte <= b'z')
}

/// Whether a text is a name: 1 to 64 small letters.
fn is_name(text: &[u8]) -> bool
    ensures { result ≡ is_name text.now }
{
    1 <= text.len() && text.len() <= 64 && are_letters(text)
}

/// The name that stands after a word, if the operation is the word and a name.
fn name_after<'a>(word: &[u8], op: &'a [u8]) -> Option<&'a [u8]>
    ensures { option_copied result ≡ name_after word.now op.now }
{
    match op.strip_prefix(word) {
        Some(name) if is_name(name) => Some(name),
        _ => None,
    }
}

/// The holder after a name takes the lock: who holds it keeps it.
fn taken<'a>(holder: &'a [u8], name: &'a [u8]) -> &'a [u8]
    ensures { result.now ≡ taken holder.now name.now }
{
    if is_name(holder) { holder } else { name }
}

/// The holder after a name frees the lock: nobody, if it was that name.
fn freed<'a>(holder: &'a [u8], name: &[u8]) -> &'a [u8]
    ensures { result.now ≡ freed holder.now name.now }
{
    if holder == name { &[] } else { holder }
}

/// The holder after an operation.
fn holder_after<'a>(holder: &'a [u8], op: &'a [u8]) -> &'a [u8]
    ensures { result.now ≡ holder_after holder.now op.now }
{
    if let Some(name) = name_after(b"take ", op) {
        taken(holder, name)
    } else if let Some(name) = name_after(b"free ", op) {
        freed(holder, name)
    } else {
        holder
    }
}

/// What a reply says of the holder.
fn told(holder: &[u8]) -> &[u8]
    ensures text { result.now ≡ told holder.now }
    ensures short { length result.now ≤ 4096 }
{
    if is_name(holder) { holder } else { b"-" }
}

impl Service for Lock {
    ghost use Rattle.app_lock.specs.Locks.{locking, IsLock};
    ghost use Rattle.app_lock.specs.Laws.{brief_replies, printable_replies, first_lock, next_lock, short_snapshot, restored_lock, valid_lock, one_snapshot};

    // What the service means: five functions over values (specs/Locks.antt).
    ghost meaning = { locking };

    // The states that it comes to.
    ghost valid = { IsLock };

    // A reply has at most 4,096 bytes.
    ghost brief = { brief_replies };

    // A reply can be printed.
    ghost printable = { printable_replies };

    // The first state is valid.
    ghost valid_first = { first_lock };

    // An operation leaves a valid state valid.
    ghost valid_next = { next_lock };

    // A snapshot has at most 12,000,000 bytes.
    ghost small = { short_snapshot };

    // A snapshot is read back as the state that it was taken of.
    ghost restores = { restored_lock };

    // What is read back is valid.
    ghost valid_restored = { valid_lock };

    // A state has one snapshot: no other bytes are read as it.
    ghost spelled = { one_snapshot };

    /// At first nobody holds the lock.
    fn first(alloc: Global) -> Result<Lock, AllocError> {
        Ok(Lock {
            holder: Bytes::new(alloc),
        })
    }

    /// The reply says what the state is after the operation. It is made before the state changes.
    fn run(&mut self, alloc: Global, op: &[u8]) -> Result<Payload, AllocError> {
        let holder = Bytes::from_slice(alloc, holder_after(self.holder.as_slice(), op))?;
        let reply = Payload::from_slice(alloc, told(holder.as_slice()))?;
        self.holder = holder;
        Ok(reply)
    }

    /// The snapshot is the holder's name.
    fn snapshot(&self, alloc: Global) -> Result<Bytes, AllocError> {
        self.holder.duplicate(alloc)
    }

    /// Bytes that are neither empty nor a name are no snapshot.
    fn restore(alloc: Global, bytes: &[u8]) -> Result<Lock, RestoreError> {
        if bytes.is_empty() || is_name(bytes) {
            Ok(Lock {
                holder: Bytes::from_slice(alloc, bytes)?,
            })
        } else {
            Err(RestoreError::BadSnapshot)
        }
    }
}
