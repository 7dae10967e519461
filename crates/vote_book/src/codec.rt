//! The bytes of entries, and how entries are read.
ghost use Rattle.std.specs.Prelude.{◌≡◌, ◌++◌, ℕ, List, IfOk, OnOk, Ok};
ghost use Rattle.smart_base.specs.Cuts.{IsBytes, Gives, GivesAll, Takes};
ghost use Rattle.smart_base.specs.Fields.{digest_at};
ghost use Rattle.smart_base.specs.ViewBytes.{first_place_at};
ghost use Rattle.smart_statements.specs.Reading.{slot_at};
ghost use Rattle.smart_statements.specs.Spelling.{slot as slot_text};
ghost use Rattle.smart_statements.specs.SignedLists.{optional, optional_at};
ghost use Rattle.vote_book.specs.Entries.{opening, member_at, opening_at, write, write_at, accept, accept_at, promise, promise_at, start, regency_start_at, decision, decision_at, installation, installation_at, own_mark, own_mark_at, entry_kind, entry_content, entry_text, FitsEntry, content_at, entry_kind_at, entry_at, entry_decoded};
ghost use Rattle.vote_book.specs.declared.entry.LogEntry.{LogEntry};

use crate::entry::{Accept, Decision, Installation, LogEntry, Opening, Promise, Start, Write};
use smart_base::bytes::Digest32;
use smart_base::cursor::Cursor;
use smart_base::fault::{ReadError, Unread};
use smart_base::field::{put_u8, put_u16, put_u32, put_u64, take_count, take_digest};
use smart_base::name::MemberId;
use smart_base::number::{Place, Regency, ViewNo};
use smart_base::view_bytes::{put_view, read_view};
use smart_statements::batch::Batch;
use smart_statements::optional::take_flag;
use smart_statements::report::Mark;
use smart_statements::signed_list::SignedList;
use smart_statements::statement::{Ballot, Slot, VoteKind};
use std::alloc::{AllocError, Global};

/// Reads a member's number, which is at least 1.
#[tactic(auto, unfolding(smart_base::specs::Cuts::ranged))]
fn take_member(cut: &mut Cursor<'_>) -> Result<MemberId, Unread>
    ensures { Takes result cut.new (member_at cut.old) }
{
    let at = cut.at();
    let found = cut.take_u16()?;
    if 0 < found {
        Ok(MemberId::new(found))
    } else {
        Err(Unread { at })
    }
}

impl Opening {
    #[tactic(auto, unfolding(crate::specs::Entries::opening_at))]
    fn read(alloc: Global, cut: &mut Cursor<'_>) -> Result<Opening, ReadError>
        ensures { Gives result cut.new (opening_at cut.old) }
    {
        let member = take_member(cut)?;
        let period = cut.take_u32()?;
        let view = read_view(alloc, cut)?;
        Ok(Opening {
            member,
            period,
            view,
        })
    }

    fn put(&self, out: &mut Vec<u8>) -> Result<(), AllocError>
        ensures { OnOk result (out.new.items ≡ out.old.items ++ opening self.now) }
    {
        let member = self.member.get();
        put_u16(out, member)?;
        put_u32(out, self.period)?;
        put_view(out, &self.view)?;
        Ok(())
    }
}

#[tactic(auto, unfolding(smart_statements::specs::Reading::slot_at))]
fn take_slot(cut: &mut Cursor<'_>) -> Result<Slot, Unread>
    ensures { Takes result cut.new (slot_at cut.old) }
{
    let view = ViewNo::new(cut.take_u32()?);
    let place = Place::new(take_count(cut)?);
    let regency = Regency::new(cut.take_u32()?);
    Ok(Slot {
        view,
        place,
        regency,
    })
}

fn put_slot(out: &mut Vec<u8>, slot: Slot) -> Result<(), AllocError>
    ensures { OnOk result (out.new.items ≡ out.old.items ++ slot_text slot) }
{
    let (view, place, regency) = (slot.view.get(), slot.place.get(), slot.regency.get());
    put_u32(out, view)?;
    put_u64(out, place)?;
    put_u32(out, regency)?;
    Ok(())
}

impl Write {
    #[tactic(auto, unfolding(crate::specs::Entries::write_at))]
    fn read(cut: &mut Cursor<'_>) -> Result<Write, Unread>
        ensures { Takes result cut.new (write_at cut.old) }
    {
        let slot = take_slot(cut)?;
        let digest = take_digest(cut)?;
        Ok(Write { slot, digest })
    }

    fn put(&self, out: &mut Vec<u8>) -> Result<(), AllocError>
        ensures { OnOk result (out.new.items ≡ out.old.items ++ write self.now) }
    {
        put_slot(out, self.slot)?;
        out.extend_from_slice(self.digest.as_slice())?;
        Ok(())
    }
}

impl Accept {
    #[tactic(auto, unfolding(crate::specs::Entries::accept_at))]
    fn read(alloc: Global, cut: &mut Cursor<'_>) -> Result<Accept, ReadError>
        ensures { Gives result cut.new (accept_at cut.old) }
    {
        let slot = take_slot(cut)?;
        let digest = take_digest(cut)?;
        let writes = SignedList::<Ballot>::read_votes(alloc, VoteKind::Write, cut)?;
        let batch = Batch::read(alloc, cut)?;
        Ok(Accept {
            slot,
            digest,
            writes,
            batch,
        })
    }

    fn put(&self, out: &mut Vec<u8>) -> Result<(), AllocError>
        ensures { OnOk result (out.new.items ≡ out.old.items ++ accept self.now) }
    {
        put_slot(out, self.slot)?;
        out.extend_from_slice(self.digest.as_slice())?;
        self.writes.put(out)?;
        self.batch.put(out)?;
        Ok(())
    }
}

impl Promise {
    #[tactic(auto, unfolding(crate::specs::Entries::promise_at))]
    fn read(cut: &mut Cursor<'_>) -> Result<Promise, Unread>
        ensures { Takes result cut.new (promise_at cut.old) }
    {
        let view = ViewNo::new(cut.take_u32()?);
        let regency = Regency::new(cut.take_u32()?);
        Ok(Promise { view, regency })
    }

    fn put(&self, out: &mut Vec<u8>) -> Result<(), AllocError>
        ensures { OnOk result (out.new.items ≡ out.old.items ++ promise self.now) }
    {
        let (view, regency) = (self.view.get(), self.regency.get());
        put_u32(out, view)?;
        put_u32(out, regency)?;
        Ok(())
    }
}

/// Reads a base: a place, or the one after the last, from 1 to 2^63.
#[tactic(auto, unfolding(smart_base::specs::Cuts::ranged))]
fn take_base(cut: &mut Cursor<'_>) -> Result<u64, Unread>
    ensures { Takes result cut.new (first_place_at cut.old) }
{
    let at = cut.at();
    let found = cut.take_u64()?;
    if 1 <= found && found <= 1 << 63 {
        Ok(found)
    } else {
        Err(Unread { at })
    }
}

#[tactic(auto, unfolding(smart_statements::specs::SignedLists::optional_at, smart_statements::specs::SignedLists::some_at))]
fn take_bound(cut: &mut Cursor<'_>) -> Result<Option<Digest32>, Unread>
    ensures { Takes result cut.new (optional_at digest_at cut.old) }
{
    if take_flag(cut)? == 0 {
        return Ok(None);
    }
    Ok(Some(take_digest(cut)?))
}

fn put_bound(out: &mut Vec<u8>, bound: &Option<Digest32>) -> Result<(), AllocError>
    ensures { OnOk result (out.new.items ≡ out.old.items ++ optional (λ d. d) bound.now) }
{
    match bound {
        None => {
            put_u8(out, 0)?;
        }
        Some(digest) => {
            put_u8(out, 1)?;
            out.extend_from_slice(digest.as_slice())?;
        }
    }
    Ok(())
}

impl Start {
    #[tactic(auto, unfolding(crate::specs::Entries::regency_start_at))]
    fn read(cut: &mut Cursor<'_>) -> Result<Start, Unread>
        ensures { Takes result cut.new (regency_start_at cut.old) }
    {
        let view = ViewNo::new(cut.take_u32()?);
        let regency = Regency::new(cut.take_u32()?);
        let base = take_base(cut)?;
        let bound = take_bound(cut)?;
        Ok(Start {
            view,
            regency,
            base,
            bound,
        })
    }

    fn put(&self, out: &mut Vec<u8>) -> Result<(), AllocError>
        ensures { OnOk result (out.new.items ≡ out.old.items ++ start self.now) }
    {
        let (view, regency) = (self.view.get(), self.regency.get());
        put_u32(out, view)?;
        put_u32(out, regency)?;
        put_u64(out, self.base)?;
        put_bound(out, &self.bound)?;
        Ok(())
    }
}

impl Decision {
    #[tactic(auto, unfolding(crate::specs::Entries::decision_at))]
    fn read(alloc: Global, cut: &mut Cursor<'_>) -> Result<Decision, ReadError>
        ensures { Gives result cut.new (decision_at cut.old) }
    {
        let slot = take_slot(cut)?;
        let batch = Batch::read(alloc, cut)?;
        let accepts = SignedList::<Ballot>::read_votes(alloc, VoteKind::Accept, cut)?;
        Ok(Decision {
            slot,
            batch,
            accepts,
        })
    }

    fn put(&self, out: &mut Vec<u8>) -> Result<(), AllocError>
        ensures { OnOk result (out.new.items ≡ out.old.items ++ decision self.now) }
    {
        put_slot(out, self.slot)?;
        self.batch.put(out)?;
        self.accepts.put(out)?;
        Ok(())
    }
}

impl Installation {
    #[tactic(auto, unfolding(crate::specs::Entries::installation_at))]
    fn read(alloc: Global, cut: &mut Cursor<'_>) -> Result<Installation, ReadError>
        ensures { Gives result cut.new (installation_at cut.old) }
    {
        let place = Place::new(take_count(cut)?);
        let digest = take_digest(cut)?;
        let view = ViewNo::new(cut.take_u32()?);
        let marks = SignedList::<Mark>::read(alloc, cut)?;
        Ok(Installation {
            place,
            digest,
            view,
            marks,
        })
    }

    fn put(&self, out: &mut Vec<u8>) -> Result<(), AllocError>
        ensures { OnOk result (out.new.items ≡ out.old.items ++ installation self.now) }
    {
        let (place, view) = (self.place.get(), self.view.get());
        put_u64(out, place)?;
        out.extend_from_slice(self.digest.as_slice())?;
        put_u32(out, view)?;
        self.marks.put(out)?;
        Ok(())
    }
}

#[tactic(auto, unfolding(crate::specs::Entries::own_mark_at))]
fn take_own_mark(cut: &mut Cursor<'_>) -> Result<Mark, Unread>
    ensures { Takes result cut.new (own_mark_at cut.old) }
{
    let place = Place::new(take_count(cut)?);
    let digest = take_digest(cut)?;
    Ok(Mark { place, digest })
}

fn put_own_mark(out: &mut Vec<u8>, mark: &Mark) -> Result<(), AllocError>
    ensures { OnOk result (out.new.items ≡ out.old.items ++ own_mark mark.now) }
{
    let place = mark.place.get();
    put_u64(out, place)?;
    out.extend_from_slice(mark.digest.as_slice())?;
    Ok(())
}

#[tactic(auto, unfolding(smart_base::specs::Cuts::ranged))]
fn take_entry_kind(cut: &mut Cursor<'_>) -> Result<u8, Unread>
    ensures { Takes result cut.new (entry_kind_at cut.old) }
{
    let at = cut.at();
    let found = cut.take_u8()?;
    if 1 <= found && found <= 8 {
        Ok(found)
    } else {
        Err(Unread { at })
    }
}

#[tactic(auto, unfolding(crate::specs::Entries::content_at, crate::specs::Entries::read_as))]
fn read_content(alloc: Global, kind: u8, cut: &mut Cursor<'_>) -> Result<LogEntry, ReadError>
    ensures { Gives result cut.new (content_at kind cut.old) }
{
    match kind {
        1 => Ok(LogEntry::Opened(Opening::read(alloc, cut)?)),
        2 => Ok(LogEntry::Wrote(Write::read(cut)?)),
        3 => Ok(LogEntry::Accepted(Accept::read(alloc, cut)?)),
        4 => Ok(LogEntry::Promised(Promise::read(cut)?)),
        5 => Ok(LogEntry::Synced(Start::read(cut)?)),
        6 => Ok(LogEntry::Decided(Decision::read(alloc, cut)?)),
        7 => Ok(LogEntry::Installed(Installation::read(alloc, cut)?)),
        _ => Ok(LogEntry::Marked(take_own_mark(cut)?)),
    }
}

#[tactic(auto, unfolding(crate::specs::Entries::entry_at))]
fn read_entry(alloc: Global, cut: &mut Cursor<'_>) -> Result<LogEntry, ReadError>
    ensures { Gives result cut.new (entry_at cut.old) }
{
    let kind = take_entry_kind(cut)?;
    let entry = read_content(alloc, kind, cut)?;
    Ok(entry)
}

#[tactic(auto, unfolding(crate::specs::Entries::entry_decoded, smart_base::specs::Cuts::whole))]
fn read_all(alloc: Global, bytes: &[u8]) -> Result<LogEntry, ReadError>
    ensures { GivesAll result (entry_decoded bytes.now) }
{
    let mut cut = Cursor::new(bytes);
    let entry = read_entry(alloc, &mut cut)?;
    if !cut.is_done() {
        return Err(ReadError::Unread { at: cut.at() });
    }
    Ok(entry)
}

/// The entry that these bytes are, all of them. Errors: the lowest offset of a field that is none, or
/// of a byte left over; want of memory.
pub fn decode_entry(alloc: Global, bytes: &[u8]) -> Result<LogEntry, ReadError>
    // What is read is spelled so.
    ensures found { IfOk result (λ e. FitsEntry e × (bytes.now ≡ entry_text e)) }
    // What is spelled so is read, unless memory runs out.
    ensures only { (e : LogEntry) → FitsEntry e → bytes.now ≡ entry_text e → GivesAll result (Ok e) }
    // Else the lowest offset of a field that cannot be read or is out of its range, or of a byte left over.
    ensures exact { GivesAll result (entry_decoded bytes.now) }
{
    read_all(alloc, bytes)
}

/// The first byte of an entry.
fn entry_kind(entry: &LogEntry) -> u8
    ensures { result ≡ entry_kind entry.now }
{
    match entry {
        LogEntry::Opened(_) => 1,
        LogEntry::Wrote(_) => 2,
        LogEntry::Accepted(_) => 3,
        LogEntry::Promised(_) => 4,
        LogEntry::Synced(_) => 5,
        LogEntry::Decided(_) => 6,
        LogEntry::Installed(_) => 7,
        LogEntry::Marked(_) => 8,
    }
}

/// Adds the bytes after the first one.
fn put_content(out: &mut Vec<u8>, entry: &LogEntry) -> Result<(), AllocError>
    ensures { OnOk result (out.new.items ≡ out.old.items ++ entry_content entry.now) }
{
    match entry {
        LogEntry::Opened(opening) => opening.put(out),
        LogEntry::Wrote(write) => write.put(out),
        LogEntry::Accepted(accept) => accept.put(out),
        LogEntry::Promised(promise) => promise.put(out),
        LogEntry::Synced(start) => start.put(out),
        LogEntry::Decided(decision) => decision.put(out),
        LogEntry::Installed(installation) => installation.put(out),
        LogEntry::Marked(mark) => put_own_mark(out, mark),
    }
}

/// Adds the bytes of an entry. Error: want of memory.
#[tactic(auto, unfolding(crate::specs::Entries::entry_text))]
fn put_entry(out: &mut Vec<u8>, entry: &LogEntry) -> Result<(), AllocError>
    ensures { OnOk result (out.new.items ≡ out.old.items ++ entry_text entry.now) }
{
    put_u8(out, entry_kind(entry))?;
    put_content(out, entry)?;
    Ok(())
}

/// The bytes of an entry. Error: want of memory.
pub fn encode_entry(alloc: Global, entry: &LogEntry) -> Result<Vec<u8>, AllocError>
    ensures { IfOk result (λ v. v.items ≡ entry_text entry.now) }
{
    let mut out = Vec::new(alloc);
    put_entry(&mut out, entry)?;
    Ok(out)
}

/// An entry has one spelling: its bytes are read as the entry, and no other bytes are.
pub fn an_entry_has_one_spelling()
    ensures read { (e : LogEntry) → FitsEntry e → entry_decoded (entry_text e) ≡ Ok e }
    ensures alone { (bytes : List ℕ) (e : LogEntry) → IsBytes bytes → entry_decoded bytes ≡ Ok e → FitsEntry e × (bytes ≡ entry_text e) }
{}
