//! A key-value service: operations put, get and del over keys and values that are texts.
#![tactic(auto)]

pub mod laws;
pub mod operation;
pub mod snapshot;
pub mod store;

use crate::operation::{Operation, operation_of};
use crate::snapshot::{put_store, read_store, room_of};
use crate::store::{Entry, ascends, del, get, put};
use smart_base::bytes::Payload;
use smart_base::fault::ReadError;
use smart_base::sequence::Bytes;
use smart_service::fault::RestoreError;
use smart_service::service::Service;
use std::alloc::{AllocError, Global};
use std::marker::Model;

/// A value for each of at most 4,096 keys.
#[derive(Drop)]
pub struct KeyValueStore {
    entries: Vec<Entry>,
}

impl Model for KeyValueStore {
    ghost use Rattle.std.specs.Prelude.{List};
    ghost use Rattle.app_kv.specs.Stores.{IsStore};
    ghost use Rattle.app_kv.specs.declared.store.Entry.{Entry};

    ghost Value = { List Entry };

    ghost view = { λ s. s.entries.items };

    ghost invariant = { λ s. IsStore s.entries.items };
}

impl Service for KeyValueStore {
    ghost use Rattle.app_kv.specs.Snapshots.{keeping};
    ghost use Rattle.app_kv.specs.Stores.{IsStore};
    ghost use Rattle.app_kv.specs.Replies.{brief_replies, printable_replies};
    ghost use Rattle.app_kv.specs.States.{first_store, next_store};
    ghost use Rattle.app_kv.specs.Restored.{short_snapshot, restored_store, valid_store, one_snapshot};

    ghost meaning = { keeping };

    ghost valid = { IsStore };

    ghost brief = { brief_replies };

    ghost printable = { printable_replies };

    ghost valid_first = { first_store };

    ghost valid_next = { next_store };

    ghost small = { short_snapshot };

    ghost restores = { restored_store };

    ghost valid_restored = { valid_store };

    ghost spelled = { one_snapshot };

    fn first(alloc: Global) -> Result<KeyValueStore, AllocError> {
        Ok(KeyValueStore {
            entries: Vec::new(alloc),
        })
    }

    fn run(&mut self, alloc: Global, op: &[u8]) -> Result<Payload, AllocError> {
        match operation_of(op) {
            Operation::Put { key, value } => put(alloc, &mut self.entries, key, value),
            Operation::Get { key } => get(alloc, self.entries.as_slice(), key),
            Operation::Del { key } => del(alloc, &mut self.entries, key),
            Operation::Other => Payload::from_slice(alloc, b"?"),
        }
    }

    fn snapshot(&self, alloc: Global) -> Result<Bytes, AllocError> {
        let entries = self.entries.as_slice();
        let mut out = Vec::with_capacity(alloc, room_of(entries))?;
        put_store(&mut out, entries)?;
        Ok(Bytes::from_vec(out))
    }

    fn restore(alloc: Global, bytes: &[u8]) -> Result<KeyValueStore, RestoreError> {
        match read_store(alloc, bytes) {
            Ok(entries) => {
                if ascends(entries.as_slice()) {
                    Ok(KeyValueStore {
                        entries: entries.into_vec(),
                    })
                } else {
                    Err(RestoreError::BadSnapshot)
                }
            }
            Err(ReadError::NoMemory) => Err(RestoreError::NoMemory),
            Err(ReadError::Unread { .. }) => Err(RestoreError::BadSnapshot),
        }
    }
}
