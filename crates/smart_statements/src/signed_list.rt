//! Lists of signed statements.
ghost use Rattle.std.specs.Prelude.{◌≡◌, ◌+◌, ◌<◌, ◌^◌, ◌==◌, [], ◌∷◌, ◌++◌, length, IfOk, OnOk, OnErr};
ghost use Rattle.std.specs.List.{flat_map};
ghost use Rattle.smart_base.specs.Cuts.{Gives, times_at};
ghost use Rattle.smart_base.specs.Spelling.{Extends};
ghost use Rattle.smart_statements.specs.Reading.{signed_at};
ghost use Rattle.smart_statements.specs.Reports.{votes_of};
ghost use Rattle.smart_statements.specs.SignedLists.{listed, list_at};
ghost use Rattle.smart_statements.specs.Spelling.{signed};

use crate::signed::{Every, Selection, Signed, Statement};
use crate::statement::{Ballot, VoteKind};
use smart_base::cursor::Cursor;
use smart_base::duplicate::Duplicate;
use smart_base::fault::ReadError;
use smart_base::field::put_u16;
use smart_base::sequence::Sequence;
use std::alloc::{AllocError, Global};
use std::marker::Model;

/// A list of signed statements of one kind: at most 65,535, as their count has two bytes.
pub struct SignedList<S: Statement> {
    items: Sequence<Signed<S>>,
}

/// Let go by one call, so that no function that lets one go carries the whole of it.
impl<S: Statement> Drop for SignedList<S> {
    fn drop(self) {
        let SignedList { items: _ } = self;
    }
}

impl<S: Statement> Model for SignedList<S> {
    ghost use Rattle.std.specs.Prelude.{List, length, ◌<◌, ◌^◌};
    ghost use Rattle.smart_statements.specs.Forms.{SignedBy};

    ghost Value = { List (SignedBy S) };

    ghost view = { λ l. l.items };

    ghost invariant = { λ l. length l.items < 2 ^ 16 };
}

impl<S: Statement> SignedList<S> {
    /// The empty list.
    pub fn new(alloc: Global) -> SignedList<S>
        ensures { result ≡ [] }
    {
        SignedList {
            items: Sequence::new(alloc),
        }
    }

    pub fn from_list(items: Sequence<Signed<S>>) -> SignedList<S>
        requires { length items < 2 ^ 16 }
        ensures { result ≡ items }
    {
        SignedList { items }
    }

    /// Adds a statement at the end.
    pub fn push(&mut self, item: Signed<S>) -> Result<(), AllocError>
        requires { length self.old + 1 < 2 ^ 16 }
        ensures ok { OnOk result (self.new ≡ self.old ++ item ∷ []) }
        ensures err { OnErr result (self.new ≡ self.old) }
    {
        self.items.push(item)
    }

    pub fn len(&self) -> usize
        ensures value { result ≡ length self.now }
        ensures small { result < 2 ^ 16 }
    {
        self.items.len()
    }

    pub fn is_empty(&self) -> bool
        ensures { result ≡ (length self.now == 0) }
    {
        self.items.is_empty()
    }

    pub fn as_slice(&self) -> &[Signed<S>]
        ensures value { result.now ≡ self.now }
        ensures small { length result.now < 2 ^ 16 }
    {
        self.items.as_slice()
    }

    /// The statements as a list. It needs no memory.
    pub fn into_list(self) -> Sequence<Signed<S>>
        ensures value { result ≡ self }
        ensures small { length result < 2 ^ 16 }
    {
        let SignedList { items } = self;
        items
    }

    /// Adds the bytes of the count and of each statement. Error: want of memory.
    pub fn put(&self, out: &mut Vec<u8>) -> Result<(), AllocError>
        ensures text { OnOk result (out.new.items ≡ out.old.items ++ listed S.form self.now) }
        ensures err { OnErr result (Extends out.old.items out.new.items) }
    {
        put_u16(out, self.len() as u16)?;
        put_each(out, self.as_slice())?;
        Ok(())
    }

    /// Reads a list. Errors: a field that is none; want of memory.
    pub fn read(alloc: Global, cut: &mut Cursor<'_>) -> Result<SignedList<S>, ReadError>
        ensures exact { Gives result cut.new (list_at S.form cut.old) }
        ensures unchanged { OnErr result (cut.new ≡ cut.old) }
    {
        read_selected(alloc, &Every, cut)
    }
}

impl SignedList<Ballot> {
    /// Reads a list of votes of one kind alone. Errors: a field that is none; want of memory.
    pub fn read_votes(
        alloc: Global,
        kind: VoteKind,
        cut: &mut Cursor<'_>,
    ) -> Result<SignedList<Ballot>, ReadError>
        ensures exact { Gives result cut.new (list_at (votes_of kind) cut.old) }
        ensures unchanged { OnErr result (cut.new ≡ cut.old) }
    {
        read_selected(alloc, &kind, cut)
    }
}

#[tactic(auto, unfolding(crate::specs::SignedLists::list_at))]
fn read_selected<S: Statement, W: Selection<S>>(
    alloc: Global,
    which: &W,
    cut: &mut Cursor<'_>,
) -> Result<SignedList<S>, ReadError>
    ensures exact { Gives result cut.new (list_at (W.form which.now) cut.old) }
    ensures unchanged { OnErr result (cut.new ≡ cut.old) }
{
    let mut ahead = cut.ahead();
    let count = ahead.take_u16()?;
    let items = read_each::<S, W>(alloc, which, count, &mut ahead)?;
    *cut = ahead;
    Ok(SignedList { items })
}

/// Adds the bytes of each statement. Error: want of memory.
pub fn put_each<S: Statement>(out: &mut Vec<u8>, items: &[Signed<S>]) -> Result<(), AllocError>
    ensures text { OnOk result (out.new.items ≡ out.old.items ++ flat_map (signed S.form) items.now) }
    ensures err { OnErr result (Extends out.old.items out.new.items) }
{
    for item in items {
        item.put(out)?;
    }
    Ok(())
}

/// Reads so many signed statements, one after the other. Errors: a field that is none; want of
/// memory.
pub fn read_each<S: Statement, W: Selection<S>>(
    alloc: Global,
    which: &W,
    count: u16,
    cut: &mut Cursor<'_>,
) -> Result<Sequence<Signed<S>>, ReadError>
    ensures list { Gives result cut.new (times_at (signed_at (W.form which.now)) count cut.old) }
    ensures count { IfOk result (λ list. length list ≡ count) }
{
    let mut list = Sequence::new(alloc);
    for turn in 0..count {
        let item = Signed::<S>::read_selected(alloc, which, cut)?;
        list.push(item)?;
    }
    Ok(list)
}

impl<S: Statement> Duplicate for SignedList<S> {
    fn duplicate(&self, alloc: Global) -> Result<SignedList<S>, AllocError> {
        Ok(SignedList {
            items: self.items.duplicate(alloc)?,
        })
    }
}
