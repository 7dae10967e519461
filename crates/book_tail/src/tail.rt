//! The entries that are kept beside a checkpoint, as a log has them.
ghost use Rattle.std.specs.Prelude.{◌≡◌, ◌++◌, ◌∷◌, [], ◌<◌, ◌^◌, map, take, drop, length, find, None, OnOk, IfOk, IfSome, IfNone};
ghost use Rattle.std.specs.List.{position};
ghost use Rattle.std.specs.Option.{option_copied};
ghost use Rattle.vote_book.specs.Entries.{entry_text};
ghost use Rattle.vote_book.specs.Admission.{makes};
ghost use Rattle.vote_book.specs.BookIndex.{is_kept_with};
ghost use Rattle.book_laws.specs.BookCuts.{promise_by, greater_promise, greatest_promise, kept_of, cut_at, installs_past, until_installed};
ghost use Rattle.book_tail.specs.Tails.{is_opening, is_start, found, AreTexts};

use smart_base::number::{Place, Regency, ViewNo};
use smart_base::sequence::{Bytes, Sequence};
use std::alloc::{AllocError, Global};
use vote_book::codec::encode_entry;
use vote_book::entry::{LogEntry, Promise};

/// The most bytes of an entry in a log.
const ENTRY_BYTES: usize = 0xffff_ffff;

// ---- what is kept

fn is_opening(entry: &LogEntry) -> bool
    ensures { result ≡ is_opening entry.now }
{
    match entry {
        LogEntry::Opened(_) => true,
        LogEntry::Wrote(_)
        | LogEntry::Accepted(_)
        | LogEntry::Promised(_)
        | LogEntry::Synced(_)
        | LogEntry::Decided(_)
        | LogEntry::Installed(_)
        | LogEntry::Marked(_) => false,
    }
}

/// Whether an entry is the beginning of a regency of a view.
fn is_start(view: ViewNo, regency: Regency, entry: &LogEntry) -> bool
    ensures { result ≡ is_start view regency entry.now }
{
    match entry {
        LogEntry::Synced(start) => start.view == view && start.regency == regency,
        LogEntry::Opened(_)
        | LogEntry::Wrote(_)
        | LogEntry::Accepted(_)
        | LogEntry::Promised(_)
        | LogEntry::Decided(_)
        | LogEntry::Installed(_)
        | LogEntry::Marked(_) => false,
    }
}

/// The promise that an entry is, if it is one.
fn promise_by(entry: &LogEntry) -> Option<Promise>
    ensures { result ≡ promise_by entry.now }
{
    match entry {
        LogEntry::Promised(promise) => Some(*promise),
        LogEntry::Opened(_)
        | LogEntry::Wrote(_)
        | LogEntry::Accepted(_)
        | LogEntry::Synced(_)
        | LogEntry::Decided(_)
        | LogEntry::Installed(_)
        | LogEntry::Marked(_) => None,
    }
}

/// Whether a promise is of an earlier view than another, or of its view and no later regency.
fn is_kept_with(promise: Promise, other: Promise) -> bool
    ensures { result ≡ is_kept_with promise other }
{
    promise.view < other.view || promise.view == other.view && promise.regency <= other.regency
}

/// The greater of two promises; of equals the first.
fn greater(left: Option<Promise>, right: Option<Promise>) -> Option<Promise>
    ensures { result ≡ greater_promise left right }
{
    match (left, right) {
        (None, _) => right,
        (Some(_), None) => left,
        (Some(first), Some(second)) => {
            if is_kept_with(second, first) {
                left
            } else {
                right
            }
        }
    }
}

/// The greatest promise among entries.
#[tactic(auto, using(crate::proofs::Tails::greatest_step, crate::proofs::Tails::greatest_end))]
fn greatest_promise(entries: &[LogEntry]) -> Option<Promise>
    ensures { result ≡ greatest_promise entries.now }
{
    let mut greatest = None;
    for entry in entries {
        greatest = greater(greatest, promise_by(entry));
    }
    greatest
}

fn first_opening(entries: &[LogEntry]) -> Option<&LogEntry>
    ensures { option_copied result ≡ find is_opening entries.now }
{
    entries.iter().find(|entry| is_opening(entry))
}

fn first_start(entries: &[LogEntry], view: ViewNo, regency: Regency) -> Option<&LogEntry>
    ensures { option_copied result ≡ find (is_start view regency) entries.now }
{
    entries.iter().find(|entry| is_start(view, regency, entry))
}

/// Whether an entry installs a place past this one.
fn installs_past(place: Place, entry: &LogEntry) -> bool
    ensures { result ≡ installs_past place entry.now }
{
    match entry {
        LogEntry::Installed(installation) => place < installation.place,
        LogEntry::Opened(_)
        | LogEntry::Wrote(_)
        | LogEntry::Accepted(_)
        | LogEntry::Promised(_)
        | LogEntry::Synced(_)
        | LogEntry::Decided(_)
        | LogEntry::Marked(_) => false,
    }
}

/// The index of the first entry that installs a place past this one.
#[tactic(auto, using(crate::proofs::Tails::until_within))]
fn installer_index(entries: &[LogEntry], place: Place) -> Option<usize>
    ensures is { result ≡ position (installs_past place) entries.now }
    ensures within { IfSome result (λ index. index < length entries.now) }
{
    entries.iter().position(|entry| installs_past(place, entry))
}

/// The entries before the first one that installs a place past this one. The later ones wait for the
/// switch to that place.
#[tactic(auto, using(crate::proofs::Tails::until_at, crate::proofs::Tails::until_all))]
pub fn until_installed(entries: &[LogEntry], place: Place) -> &[LogEntry]
    ensures { result.now ≡ until_installed place entries.now }
{
    match installer_index(entries, place) {
        None => entries,
        Some(index) => {
            let (before, _rest) = entries.split_at(index);
            before
        }
    }
}

// ---- their bytes

/// Adds the bytes of an entry. Error: want of memory, also for an entry that no log has room for.
fn put(alloc: Global, texts: &mut Sequence<Bytes>, entry: &LogEntry) -> Result<(), AllocError>
    requires { AreTexts texts.old }
    ensures fit { OnOk result (AreTexts texts.new) }
    ensures is { OnOk result (texts.new ≡ texts.old ++ entry_text entry.now ∷ []) }
{
    let bytes = encode_entry(alloc, entry)?;
    if bytes.len() > ENTRY_BYTES {
        return Err(AllocError);
    }
    texts.push(Bytes::from_vec(bytes))?;
    Ok(())
}

/// Adds the bytes of entries, as `put`.
fn put_all(
    alloc: Global,
    texts: &mut Sequence<Bytes>,
    entries: &[LogEntry],
) -> Result<(), AllocError>
    requires { AreTexts texts.old }
    ensures fit { OnOk result (AreTexts texts.new) }
    ensures are { OnOk result (texts.new ≡ texts.old ++ map entry_text entries.now) }
{
    for entry in entries {
        put(alloc, texts, entry)?;
    }
    Ok(())
}

/// Adds the bytes of an entry that was found, if one was.
fn put_found(
    alloc: Global,
    texts: &mut Sequence<Bytes>,
    one: Option<&LogEntry>,
) -> Result<(), AllocError>
    requires { AreTexts texts.old }
    ensures fit { OnOk result (AreTexts texts.new) }
    ensures are { OnOk result (texts.new ≡ texts.old ++ map entry_text (found (option_copied one.entry))) }
{
    match one {
        None => Ok(()),
        Some(entry) => put(alloc, texts, entry),
    }
}

/// Adds the bytes of what is kept of the entries before one.
#[tactic(auto, using(crate::proofs::Tails::kept_texts, crate::proofs::Tails::kept_alone))]
fn put_kept(
    alloc: Global,
    texts: &mut Sequence<Bytes>,
    before: &[LogEntry],
) -> Result<(), AllocError>
    requires { AreTexts texts.old }
    ensures fit { OnOk result (AreTexts texts.new) }
    ensures are { OnOk result (texts.new ≡ texts.old ++ map entry_text (kept_of before.now)) }
{
    put_found(alloc, texts, first_opening(before))?;
    let Some(promise) = greatest_promise(before) else {
        return Ok(());
    };
    let start = first_start(before, promise.view, promise.regency);
    put(alloc, texts, &LogEntry::Promised(promise))?;
    put_found(alloc, texts, start)
}

// ---- the cut

/// Whether an entry decides or installs a place.
fn makes(place: Place, entry: &LogEntry) -> bool
    ensures { result ≡ makes place entry.now }
{
    match entry {
        LogEntry::Decided(decision) => decision.slot.place == place,
        LogEntry::Installed(installation) => installation.place == place,
        LogEntry::Opened(_)
        | LogEntry::Wrote(_)
        | LogEntry::Accepted(_)
        | LogEntry::Promised(_)
        | LogEntry::Synced(_)
        | LogEntry::Marked(_) => false,
    }
}

/// The index of the first entry that makes a place.
#[tactic(auto, using(crate::proofs::Tails::within))]
fn maker_index(entries: &[LogEntry], place: Place) -> Option<usize>
    ensures is { result ≡ position (makes place) entries.now }
    ensures within { IfSome result (λ index. index < length entries.now) }
{
    entries.iter().position(|entry| makes(place, entry))
}

/// The entries before the first one that makes a place, and those from it on. None for place 0, the
/// empty replica's, or if no entry makes the place.
#[tactic(auto, using(crate::proofs::Tails::parted, crate::proofs::Tails::whole, crate::proofs::Tails::at_zero))]
fn parts_at(entries: &[LogEntry], place: Place) -> Option<(&[LogEntry], &[LogEntry])>
    ensures parted { IfSome result (λ parts. cut_at place entries.now ≡ kept_of parts.0.now ++ parts.1.now) }
    ensures whole { IfNone result (cut_at place entries.now ≡ entries.now) }
{
    if place == Place::zero() {
        return None;
    }
    let index = maker_index(entries, place)?;
    Some(entries.split_at(index))
}

/// The bytes of the entries that are kept beside a checkpoint of a place (`cut_at`): the tail of the
/// log. Error: want of memory, also for an entry that no log has room for.
#[tactic(auto, using(crate::proofs::Tails::cut_texts))]
pub fn cut_texts(
    alloc: Global,
    entries: &[LogEntry],
    place: Place,
) -> Result<Sequence<Bytes>, AllocError>
    ensures fit { IfOk result (λ texts. AreTexts texts) }
    ensures cut { IfOk result (λ texts. texts ≡ map entry_text (cut_at place entries.now)) }
{
    let mut texts = Sequence::new(alloc);
    let Some((before, rest)) = parts_at(entries, place) else {
        put_all(alloc, &mut texts, entries)?;
        return Ok(texts);
    };
    put_kept(alloc, &mut texts, before)?;
    put_all(alloc, &mut texts, rest)?;
    Ok(texts)
}
