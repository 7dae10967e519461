//! What votes, marks and reports prove.
use crate::fault::{RowFault, fault_of};
use certificates::check::{check_marks, check_proof, check_write_cert};
use certificates::collect::check_collect;
use certificates::fault::CertFault;
use regency_sync::choice::Choice;
use regency_sync::choosing::choice;
use smart_base::bytes::Digest32;
use smart_base::cursor::Cursor;
use smart_base::keys::Digester;
use smart_base::sequence::Bytes;
use smart_base::view::View;
use smart_base::view_bytes::read_view;
use smart_keys::hash::Sha;
use smart_keys::ring::Ring;
use smart_messages::codec::decode;
use smart_messages::message::Message;
use smart_messages::regency::Sync;
use smart_statements::batch::Batch;
use std::alloc::{AllocError, Global};
use std::io::Write;
use vote_book::codec::decode_entry;
use vote_book::entry::LogEntry;

/// The keys of the secret `world`.
pub fn ring(alloc: Global) -> Result<Ring, AllocError> {
    Ok(Ring::from_secret(Bytes::from_slice(alloc, b"world")?))
}

/// The view of bytes.
pub fn view_of(alloc: Global, bytes: &[u8]) -> Result<View, RowFault> {
    match read_view(alloc, &mut Cursor::new(bytes)) {
        Ok(view) => Ok(view),
        Err(error) => Err(fault_of(error)),
    }
}

fn views_of(alloc: Global, heads: &[Vec<u8>]) -> Result<Vec<View>, RowFault> {
    let mut views = Vec::new(alloc);
    for bytes in heads {
        views.push(view_of(alloc, bytes.as_slice())?)?;
    }
    Ok(views)
}

/// The first fault that was found, by name.
fn told_check(alloc: Global, checked: Result<(), CertFault>) -> Result<String, RowFault> {
    let told = match checked {
        Ok(()) => "fine",
        Err(CertFault::TooFew) => "too-few",
        Err(CertFault::Stranger) => "stranger",
        Err(CertFault::Twice) => "twice",
        Err(CertFault::Unequal) => "unequal",
        Err(CertFault::BadTag) => "bad-tag",
    };
    Ok(String::from_str(alloc, told)?)
}

fn digest_of(alloc: Global, batch: &Batch) -> Result<Digest32, AllocError> {
    let text = batch.text(alloc)?;
    Ok(Sha::digest(text.as_slice()))
}

/// Checks the votes or the marks in an entry.
fn check_entry(
    alloc: Global,
    ring: &Ring,
    view: &View,
    entry: &LogEntry,
) -> Result<Result<(), CertFault>, RowFault> {
    match entry {
        LogEntry::Accepted(accept) => {
            let votes = accept.writes.as_slice();
            Ok(check_write_cert(ring, view, accept.slot, accept.digest, votes))
        }
        LogEntry::Decided(decision) => {
            let votes = decision.accepts.as_slice();
            let digest = digest_of(alloc, &decision.batch)?;
            Ok(check_proof(ring, view, decision.slot, digest, votes))
        }
        LogEntry::Installed(installation) => {
            let marks = installation.marks.as_slice();
            let (place, digest) = (installation.place, installation.digest);
            Ok(check_marks(ring, view, place, digest, marks))
        }
        _ => Err(RowFault::Word),
    }
}

fn told_in_view(alloc: Global, view: &View, bytes: &[u8]) -> Result<String, RowFault> {
    let ring = ring(alloc)?;
    match decode_entry(alloc, bytes) {
        Ok(entry) => {
            let checked = check_entry(alloc, &ring, view, &entry);
            drop(entry);
            told_check(alloc, checked?)
        }
        Err(error) => Err(fault_of(error)),
    }
}

/// The first fault of the votes or the marks in an entry, in a view.
pub fn told_of_votes(alloc: Global, heads: &[Vec<u8>], bytes: &[u8]) -> Result<String, RowFault> {
    let head = heads.first().ok_or(RowFault::Word)?;
    let view = view_of(alloc, head.as_slice())?;
    told_in_view(alloc, &view, bytes)
}

/// What begins a regency, if a message does.
fn sync_of(message: &Message) -> Option<&Sync> {
    match message {
        Message::Sync(sync) => Some(sync.statement()),
        _ => None,
    }
}

fn check_sync(
    alloc: Global,
    views: &[View],
    message: &Message,
) -> Result<Result<(), CertFault>, RowFault> {
    let sync = sync_of(message).ok_or(RowFault::Word)?;
    if views.is_empty() {
        return Err(RowFault::Word);
    }
    let ring = ring(alloc)?;
    let reports = sync.collect.as_slice();
    Ok(check_collect(&ring, views, sync.regency, reports))
}

/// The first fault of the reports with which a regency begins, where these views are known.
pub fn told_of_collect(alloc: Global, heads: &[Vec<u8>], bytes: &[u8]) -> Result<String, RowFault> {
    let views = views_of(alloc, heads)?;
    match decode(alloc, bytes) {
        Ok(message) => {
            let checked = check_sync(alloc, views.as_slice(), &message);
            drop(message);
            told_check(alloc, checked?)
        }
        Err(error) => Err(fault_of(error)),
    }
}

fn choice_of(message: &Message) -> Result<Choice, RowFault> {
    let sync = sync_of(message).ok_or(RowFault::Word)?;
    Ok(choice(sync.collect.as_slice()))
}

/// A choice: its base, and the first byte of the digest that binds, if one does.
fn told_choice(alloc: Global, choice: Choice) -> Result<String, RowFault> {
    let base = choice.base;
    match choice.bound {
        None => Ok(format!(in alloc; "{base}")?),
        Some(digest) => {
            let letter = digest.get()[0];
            Ok(format!(in alloc; "{base}/{letter:02x}")?)
        }
    }
}

/// What the reports with which a regency begins leave to it.
pub fn told_of_choice(alloc: Global, bytes: &[u8]) -> Result<String, RowFault> {
    match decode(alloc, bytes) {
        Ok(message) => {
            let choice = choice_of(&message);
            drop(message);
            told_choice(alloc, choice?)
        }
        Err(error) => Err(fault_of(error)),
    }
}
