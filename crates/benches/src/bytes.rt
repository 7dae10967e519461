//! One kind of work on bytes, so many times, for `bench/bytes.sh` and `bench/load.sh`.

ghost use Rattle.std.specs.Prelude.{◌<◌, ◌^◌};

use crate::done::{Done, Stopped};
use crate::snapshot_head::HEAD;
use app_kv::KeyValueStore;
use sha2::{Digest, Sha256};
use smart_base::bytes::Payload;
use smart_base::field::{put_text, put_u16, put_u32};
use smart_base::keys::Digester;
use smart_base::name::{ClientId, MemberId};
use smart_base::number::{Place, Regency, ViewNo};
use smart_base::party::Party;
use smart_base::sequence::{Bytes, Sequence};
use smart_keys::hash::{Sha, hmac};
use smart_keys::ring::Ring;
use smart_messages::codec::{decode, encode};
use smart_messages::message::{Message, Proposed, proposal_in};
use smart_service::fault::RestoreError;
use smart_service::replica::Replica;
use smart_statements::batch::Batch;
use smart_statements::signed::Signed;
use smart_statements::statement::{Proposal, Request, Slot};
use snapshot_form::pieces::digest;
use snapshot_form::reading::from_bytes;
use snapshot_form::writing::to_bytes;
use std::alloc::{AllocError, Global};

/// The bytes that are digested at a time.
const PIECE: usize = 1024;

/// The requests of the proposal that is spelled and read.
const REQUESTS: u16 = 64;

/// The bytes of each one's operation.
const OPERATION: usize = 100;

/// The keys of the store whose replica is spelled.
const KEYS: u16 = 4096;

/// The bytes of each key's value.
const VALUE: usize = 100;

/// The bytes of the store's own snapshot: a number, and each key of 3 bytes and its value behind
/// lengths.
const STORE_BYTES: u32 = 2 + 4096 * (4 + 3 + 4 + 100);

/// A signed proposal with a full batch.
fn proposal(alloc: Global) -> Result<Message, Stopped> {
    let ring = Ring::from_secret(Bytes::from_slice(alloc, b"bench")?);
    let mut list = Sequence::new(alloc);
    for number in 1..REQUESTS + 1 {
        let client = ClientId::new(number);
        let request = Request {
            client,
            seq: 1,
            after: 0,
            op: Payload::from_slice(alloc, &[b'x'; OPERATION])?,
        };
        let mut sealer = ring.sealer(Party::Client(client));
        list.push(Signed::seal(alloc, &mut sealer, number, request)?)?;
    }
    let batch = Batch::from_list(list);
    let head = Proposal {
        slot: Slot {
            view: ViewNo::new(0),
            place: Place::new(1),
            regency: Regency::new(0),
        },
        digest: Sha::digest(batch.text(alloc)?.as_slice()),
    };
    let mut sealer = ring.sealer(Party::Member(MemberId::new(1)));
    let head = Signed::seal(alloc, &mut sealer, 1, head)?;
    Ok(Message::Propose(Proposed { head, batch }))
}

/// SHA-256 of the kit's crate over one piece, so many times.
fn digests(times: u64) -> Done {
    let mut piece = [0; PIECE];
    let mut done = Done::nothing();
    for i in 0..times {
        piece[0] = (i % 256) as u8;
        let digest = Sha256::digest(&piece);
        done = done.with(PIECE as u64, digest[0] as u64);
    }
    done
}

/// HMAC over one piece, so many times.
fn tags(times: u64) -> Done {
    let mut piece = [0; PIECE];
    let mut done = Done::nothing();
    for i in 0..times {
        piece[0] = (i % 256) as u8;
        let tag = hmac(b"bench", &piece).get();
        done = done.with(PIECE as u64, tag[0] as u64);
    }
    done
}

/// The proposal is spelled so many times.
fn encodes(alloc: Global, times: u64) -> Result<Done, Stopped> {
    let message = proposal(alloc)?;
    let mut done = Done::nothing();
    for _ in 0..times {
        let bytes = encode(alloc, &message)?;
        done = done.with(bytes.len() as u64, 1);
    }
    Ok(done)
}

/// How many requests a message has.
fn requests_in(message: &Message) -> u64 {
    match proposal_in(message) {
        Some(proposed) => proposed.batch.len() as u64,
        None => 0,
    }
}

/// The proposal is read so many times.
fn decodes(alloc: Global, times: u64) -> Result<Done, Stopped> {
    let bytes = encode(alloc, &proposal(alloc)?)?;
    let mut done = Done::nothing();
    for _ in 0..times {
        let message = decode(alloc, bytes.as_slice())?;
        done = done.with(bytes.len() as u64, requests_in(&message));
    }
    Ok(done)
}

/// A key of three letters. They ascend with the number, as far as it has three digits to base 16.
fn key_of(number: u16) -> [u8; 3] {
    [
        b'a'.wrapping_add((number / 256 % 16) as u8),
        b'a'.wrapping_add((number / 16 % 16) as u8),
        b'a'.wrapping_add((number % 16) as u8),
    ]
}

/// The snapshot of a replica of a full store.
fn snapshot(alloc: Global) -> Result<Vec<u8>, AllocError> {
    let mut out = Vec::new(alloc);
    out.extend_from_slice(&HEAD)?;
    put_u32(&mut out, STORE_BYTES)?;
    put_u16(&mut out, KEYS)?;
    for number in 0..KEYS {
        put_text(&mut out, &key_of(number))?;
        put_text(&mut out, &[b'x'; VALUE])?;
    }
    Ok(out)
}

/// A replica is spelled, and its bytes are digested, so many times.
fn spells(alloc: Global, replica: &Replica<KeyValueStore>, times: u64) -> Result<Done, AllocError> {
    let mut done = Done::nothing();
    for _ in 0..times {
        let bytes = to_bytes(alloc, replica)?;
        let digest = digest(bytes.as_slice()).get();
        done = done.with(bytes.len() as u64, digest[0] as u64);
    }
    Ok(done)
}

/// The replica of a full store is spelled and digested so many times.
fn snapshots(alloc: Global, times: u64) -> Result<Done, Stopped> {
    match from_bytes::<KeyValueStore>(alloc, snapshot(alloc)?.as_slice()) {
        Ok(replica) => Ok(spells(alloc, &replica, times)?),
        Err(RestoreError::NoMemory) => Err(Stopped::NoMemory),
        Err(RestoreError::BadSnapshot) => Err(Stopped::Snapshot),
    }
}

/// The same bytes are copied and digested so many times.
fn copies(alloc: Global, times: u64) -> Result<Done, Stopped> {
    let text = snapshot(alloc)?;
    let mut done = Done::nothing();
    for _ in 0..times {
        let bytes = Bytes::from_slice(alloc, text.as_slice())?;
        let digest = Sha256::digest(bytes.as_slice());
        done = done.with(bytes.len() as u64, digest[0] as u64);
    }
    Ok(done)
}

/// Does the work of this name so many times.
pub fn work(alloc: Global, what: &str, times: u64) -> Result<Done, Stopped> {
    match what {
        "digest" => Ok(digests(times)),
        "tag" => Ok(tags(times)),
        "encode" => encodes(alloc, times),
        "decode" => decodes(alloc, times),
        "snapshot" => snapshots(alloc, times),
        "copy" => copies(alloc, times),
        _ => Err(Stopped::Words),
    }
}
