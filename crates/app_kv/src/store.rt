//! Entries that ascend by key.
ghost use Rattle.std.specs.Prelude.{◌≡◌, ◌≤◌, ◌++◌, length, OnOk, OnErr, IfOk, IfErr, true, codes};
ghost use Rattle.std.specs.Ordering.{is_lt, is_gt};
ghost use Rattle.app_kv.specs.Operations.{is_key, is_value, put, get, del};
ghost use Rattle.app_kv.specs.Stores.{byte_order, ascends, entries_before, Found, Missing, IsStore, next_of, reply_of};

use smart_base::bytes::Payload;
use smart_base::sequence::Bytes;
use std::alloc::{AllocError, Global};

/// The most entries.
pub const ENTRIES: usize = 4096;

/// A key and its value.
#[derive(Drop)]
pub struct Entry {
    pub key: Bytes,
    pub value: Bytes,
}

/// Whether a text comes before another in the order of their bytes.
fn is_before<'a>(text: &'a [u8], other: &'a [u8]) -> bool
    ensures { result ≡ is_lt (byte_order text.now other.now) }
{
    text < other
}

/// Whether a text comes behind another in the order of their bytes.
fn is_behind<'a>(text: &'a [u8], other: &'a [u8]) -> bool
    ensures { result ≡ is_gt (byte_order text.now other.now) }
{
    text > other
}

/// Whether entries ascend by key.
pub fn ascends(entries: &[Entry]) -> bool
    ensures { result ≡ ascends entries.now }
{
    let Some((first, others)) = entries.split_first() else {
        return true;
    };
    let mut last = first.key.as_slice();
    for entry in others {
        let key = entry.key.as_slice();
        if !is_before(last, key) {
            return false;
        }
        last = key;
    }
    true
}

/// How many entries stand before a key's, by binary search.
fn entries_before(entries: &[Entry], key: &[u8]) -> usize
    requires { ascends entries.now ≡ true }
    ensures place { result ≡ entries_before key.now entries.now }
    ensures within { result ≤ length entries.now }
{
    entries.partition_point(|entry| is_behind(key, entry.key.as_slice()))
}

/// Where a key's entry stands, or else where it belongs.
fn place_of(entries: &[Entry], key: &[u8]) -> Result<usize, usize>
    requires { ascends entries.now ≡ true }
    ensures found { IfOk result (Found entries.now key.now) }
    ensures missing { IfErr result (Missing entries.now key.now) }
{
    let at = entries_before(entries, key);
    if at == entries.len() {
        return Err(at);
    }
    if key == entries[at].key.as_slice() {
        Ok(at)
    } else {
        Err(at)
    }
}

/// Gives a key a value, and says whether it was there. Where 4,096 keys stand no other is taken.
pub fn put(
    alloc: Global,
    entries: &mut Vec<Entry>,
    key: &[u8],
    value: &[u8],
) -> Result<Payload, AllocError>
    requires store { IsStore entries.old.items }
    requires key { is_key key.now ≡ true }
    requires value { is_value value.now ≡ true }
    ensures reply { IfOk result (λ reply. reply ≡ reply_of entries.old.items (put key.now value.now)) }
    ensures state { OnOk result (entries.new.items ≡ next_of entries.old.items (put key.now value.now)) }
    ensures err { OnErr result (entries.new.items ≡ entries.old.items) }
    ensures store { IsStore entries.new.items }
{
    match place_of(entries.as_slice(), key) {
        Ok(at) => {
            let value = Bytes::from_slice(alloc, value)?;
            let reply = Payload::from_slice(alloc, b"old")?;
            entries[at].value = value;
            Ok(reply)
        }
        Err(at) => {
            if entries.len() >= ENTRIES {
                return Payload::from_slice(alloc, b"full");
            }
            let entry = Entry {
                key: Bytes::from_slice(alloc, key)?,
                value: Bytes::from_slice(alloc, value)?,
            };
            let reply = Payload::from_slice(alloc, b"new")?;
            entries.insert(at, entry)?;
            Ok(reply)
        }
    }
}

fn told(alloc: Global, value: &[u8]) -> Result<Payload, AllocError>
    requires { is_value value.now ≡ true }
    ensures { IfOk result (λ reply. reply ≡ codes "=" ++ value.now) }
{
    let mut out = Vec::with_capacity(alloc, 1 + value.len())?;
    out.push(b'=')?;
    out.extend_from_slice(value)?;
    Ok(Payload::new(Bytes::from_vec(out)))
}

/// Tells the value of a key.
pub fn get(alloc: Global, entries: &[Entry], key: &[u8]) -> Result<Payload, AllocError>
    requires { IsStore entries.now }
    ensures { IfOk result (λ reply. reply ≡ reply_of entries.now (get key.now)) }
{
    match place_of(entries, key) {
        Ok(at) => told(alloc, entries[at].value.as_slice()),
        Err(_) => Payload::from_slice(alloc, b"none"),
    }
}

/// Takes a key out, and says whether it was there.
pub fn del(alloc: Global, entries: &mut Vec<Entry>, key: &[u8]) -> Result<Payload, AllocError>
    requires { IsStore entries.old.items }
    ensures reply { IfOk result (λ reply. reply ≡ reply_of entries.old.items (del key.now)) }
    ensures state { OnOk result (entries.new.items ≡ next_of entries.old.items (del key.now)) }
    ensures err { OnErr result (entries.new.items ≡ entries.old.items) }
    ensures store { IsStore entries.new.items }
{
    match place_of(entries.as_slice(), key) {
        Ok(at) => {
            let reply = Payload::from_slice(alloc, b"gone")?;
            let _gone = entries.remove(at);
            Ok(reply)
        }
        Err(_) => Payload::from_slice(alloc, b"none"),
    }
}
