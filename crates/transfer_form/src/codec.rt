//! How asks, offers, parts and decided batches are read and written.
ghost use Rattle.std.specs.Prelude.{◌≡◌, ◌≤◌, ◌++◌, IfOk, OnOk, OnErr};
ghost use Rattle.smart_base.specs.Cuts.{Gives, Takes};
ghost use Rattle.smart_base.specs.Spelling.{Extends};
ghost use Rattle.smart_base.specs.declared.limits.TheConstants.{MARKS};
ghost use Rattle.transfer_form.specs.Transfers.{member_at, place_at, few_at, few_marks_at, ask_text, ask_at, offer_text, offer_at, part_text, part_at, proven_text, proven_at};

use crate::transfer::{Piece, ProvenBatch, StateAsk, StateOffer, StatePart};
use smart_base::cursor::Cursor;
use smart_base::fault::{ReadError, Unread};
use smart_base::field::{put_text, put_u16, put_u32, put_u64, take_count, take_text};
use smart_base::limits::{MARKS, PIECE_BYTES};
use smart_base::name::MemberId;
use smart_base::number::Place;
use smart_statements::batch::Batch;
use smart_statements::report::Mark;
use smart_statements::signed::Every;
use smart_statements::signed_list::{SignedList, read_each};
use smart_statements::statement::{Ballot, VoteKind};
use std::alloc::{AllocError, Global};

/// Reads the number of a member, from 1.
#[tactic(auto, unfolding(smart_base::specs::Cuts::ranged))]
fn take_member(cut: &mut Cursor<'_>) -> Result<MemberId, Unread>
    ensures { Takes result cut.new (member_at cut.old) }
{
    let at = cut.at();
    let found = cut.take_u16()?;
    if 1 <= found {
        Ok(MemberId::new(found))
    } else {
        Err(Unread { at })
    }
}

/// Reads a place, or 0.
#[tactic(auto, unfolding(smart_base::specs::Cuts::ranged))]
fn take_place(cut: &mut Cursor<'_>) -> Result<Place, Unread>
    ensures { Takes result cut.new (place_at cut.old) }
{
    let at = cut.at();
    let found = cut.take_u64()?;
    if found < 1 << 63 {
        Ok(Place::new(found))
    } else {
        Err(Unread { at })
    }
}

/// Reads how many marks an offer has.
#[tactic(auto, unfolding(smart_base::specs::Cuts::ranged))]
fn take_few(cut: &mut Cursor<'_>) -> Result<u16, Unread>
    ensures number { Takes result cut.new (few_at cut.old) }
    ensures few { IfOk result (λ n. n ≤ MARKS) }
{
    let at = cut.at();
    let found = cut.take_u16()?;
    if found as usize <= MARKS {
        Ok(found)
    } else {
        Err(Unread { at })
    }
}

/// Reads the marks of an offer.
#[tactic(auto, unfolding(crate::specs::Transfers::few_marks_at))]
fn take_few_marks(alloc: Global, cut: &mut Cursor<'_>) -> Result<SignedList<Mark>, ReadError>
    ensures { Gives result cut.new (few_marks_at cut.old) }
{
    let count = take_few(cut)?;
    let marks = read_each::<Mark, Every>(alloc, &Every, count, cut)?;
    Ok(SignedList::from_list(marks))
}

impl StateAsk {
    /// Reads an ask. Error: a field that is none.
    #[tactic(auto, unfolding(crate::specs::Transfers::ask_at))]
    pub fn read(cut: &mut Cursor<'_>) -> Result<StateAsk, Unread>
        ensures { Takes result cut.new (ask_at cut.old) }
    {
        let member = take_member(cut)?;
        let place = take_place(cut)?;
        let fetch = take_place(cut)?;
        Ok(StateAsk {
            member,
            place,
            fetch,
        })
    }

    /// Adds the bytes of an ask. Error: want of memory.
    pub fn put(&self, out: &mut Vec<u8>) -> Result<(), AllocError>
        ensures text { OnOk result (out.new.items ≡ out.old.items ++ ask_text self.now) }
        ensures err { OnErr result (Extends out.old.items out.new.items) }
    {
        let (member, place, fetch) = (self.member.get(), self.place.get(), self.fetch.get());
        put_u16(out, member)?;
        put_u64(out, place)?;
        put_u64(out, fetch)?;
        Ok(())
    }
}

impl StateOffer {
    /// Reads an offer. Errors: a field that is none; want of memory.
    #[tactic(auto, unfolding(crate::specs::Transfers::offer_at))]
    pub fn read(alloc: Global, cut: &mut Cursor<'_>) -> Result<StateOffer, ReadError>
        ensures { Gives result cut.new (offer_at cut.old) }
    {
        let member = take_member(cut)?;
        let place = take_place(cut)?;
        let size = cut.take_u32()?;
        let marks = take_few_marks(alloc, cut)?;
        Ok(StateOffer {
            member,
            place,
            size,
            marks,
        })
    }

    /// Adds the bytes of an offer. Error: want of memory.
    pub fn put(&self, out: &mut Vec<u8>) -> Result<(), AllocError>
        ensures text { OnOk result (out.new.items ≡ out.old.items ++ offer_text self.now) }
        ensures err { OnErr result (Extends out.old.items out.new.items) }
    {
        let (member, place) = (self.member.get(), self.place.get());
        put_u16(out, member)?;
        put_u64(out, place)?;
        put_u32(out, self.size)?;
        self.marks.put(out)?;
        Ok(())
    }
}

impl StatePart {
    /// Reads a part. Errors: a field that is none; want of memory.
    #[tactic(auto, unfolding(crate::specs::Transfers::part_at))]
    pub fn read(alloc: Global, cut: &mut Cursor<'_>) -> Result<StatePart, ReadError>
        ensures { Gives result cut.new (part_at cut.old) }
    {
        let place = Place::new(take_count(cut)?);
        let index = cut.take_u32()?;
        let total = cut.take_u32()?;
        let bytes = Piece::new(take_text(alloc, cut, PIECE_BYTES)?);
        Ok(StatePart {
            place,
            index,
            total,
            bytes,
        })
    }

    /// Adds the bytes of a part. Error: want of memory.
    pub fn put(&self, out: &mut Vec<u8>) -> Result<(), AllocError>
        ensures text { OnOk result (out.new.items ≡ out.old.items ++ part_text self.now) }
        ensures err { OnErr result (Extends out.old.items out.new.items) }
    {
        let place = self.place.get();
        let bytes = self.bytes.as_slice();
        put_u64(out, place)?;
        put_u32(out, self.index)?;
        put_u32(out, self.total)?;
        put_text(out, bytes)?;
        Ok(())
    }
}

impl ProvenBatch {
    /// Reads a decided batch. Errors: a field that is none; want of memory.
    #[tactic(auto, unfolding(crate::specs::Transfers::proven_at))]
    pub fn read(alloc: Global, cut: &mut Cursor<'_>) -> Result<ProvenBatch, ReadError>
        ensures { Gives result cut.new (proven_at cut.old) }
    {
        let place = Place::new(take_count(cut)?);
        let batch = Batch::read(alloc, cut)?;
        let accepts = SignedList::<Ballot>::read_votes(alloc, VoteKind::Accept, cut)?;
        Ok(ProvenBatch {
            place,
            batch,
            accepts,
        })
    }

    /// Adds the bytes of a decided batch. Error: want of memory.
    pub fn put(&self, out: &mut Vec<u8>) -> Result<(), AllocError>
        ensures text { OnOk result (out.new.items ≡ out.old.items ++ proven_text self.now) }
        ensures err { OnErr result (Extends out.old.items out.new.items) }
    {
        let place = self.place.get();
        put_u64(out, place)?;
        self.batch.put(out)?;
        self.accepts.put(out)?;
        Ok(())
    }
}
