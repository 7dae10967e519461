//! The operation that asks for a change.
ghost use Rattle.std.specs.Prelude.{◌≡◌, ◌<◌, ◌≤◌, ◌^◌, ◌++◌, true, length, IfOk, OnOk, Ok};
ghost use Rattle.std.specs.List.{flat_map};
ghost use Rattle.smart_base.specs.Cuts.{Gives, GivesAll, Takes, times_at};
ghost use Rattle.smart_base.specs.Spelling.{u16};
ghost use Rattle.reconfig.specs.declared.change.Change.{Change};
ghost use Rattle.reconfig.specs.Changes.{change_text, FitsChange, member_at, change_at, change_of, is_brief};

use crate::change::Change;
use smart_base::bytes::Payload;
use smart_base::cursor::Cursor;
use smart_base::fault::{ReadError, Unread};
use smart_base::field::{put_u8, put_u16};
use smart_base::limits::PAYLOAD_BYTES;
use smart_base::name::MemberId;
use smart_base::sequence::{Bytes, Sequence};
use std::alloc::{AllocError, Global};

/// The member of a number, which any number of 16 bits is.
fn member_of(number: u16) -> MemberId
    ensures value { result ≡ number }
    ensures small { result ≤ 65535 }
{
    MemberId::new(number)
}

#[tactic(auto, unfolding(smart_base::specs::Cuts::ranged))]
fn take_member(cut: &mut Cursor<'_>) -> Result<MemberId, Unread>
    ensures { Takes result cut.new (member_at cut.old) }
{
    let number = cut.take_u16()?;
    Ok(member_of(number))
}

fn take_members(
    alloc: Global,
    count: u16,
    cut: &mut Cursor<'_>,
) -> Result<Sequence<MemberId>, ReadError>
    ensures { Gives result cut.new (times_at member_at count cut.old) }
{
    let mut list = Sequence::new(alloc);
    for turn in 0..count {
        let member = take_member(cut)?;
        list.push(member)?;
    }
    Ok(list)
}

#[tactic(auto, unfolding(crate::specs::Changes::change_at))]
fn take_change(alloc: Global, cut: &mut Cursor<'_>) -> Result<Change, ReadError>
    ensures { Gives result cut.new (change_at cut.old) }
{
    let f = cut.take_u8()?;
    let count = cut.take_u16()?;
    let members = take_members(alloc, count, cut)?;
    Ok(Change { f, members })
}

#[tactic(auto, unfolding(crate::specs::Changes::change_of, smart_base::specs::Cuts::whole))]
fn read_all(alloc: Global, op: &[u8]) -> Result<Change, ReadError>
    ensures { GivesAll result (change_of op.now) }
{
    let mut cut = Cursor::new(op);
    let change = take_change(alloc, &mut cut)?;
    if !cut.is_done() {
        return Err(ReadError::Unread { at: cut.at() });
    }
    Ok(change)
}

/// The change that an operation asks for. Errors: the lowest offset of a field that cannot be read,
/// or of a byte left over; want of memory.
pub fn read_change(alloc: Global, op: &[u8]) -> Result<Change, ReadError>
    // What is read is spelled so.
    ensures found { IfOk result (λ c. FitsChange c × (op.now ≡ change_text c)) }
    // What is spelled so is read, unless memory runs out.
    ensures only { (c : Change) → FitsChange c → op.now ≡ change_text c → GivesAll result (Ok c) }
    // Else the lowest offset of a field that cannot be read, or of a byte left over.
    ensures exact { GivesAll result (change_of op.now) }
{
    read_all(alloc, op)
}

fn put_members(out: &mut Vec<u8>, members: &[MemberId]) -> Result<(), AllocError>
    ensures { OnOk result (out.new.items ≡ out.old.items ++ flat_map u16 members.now) }
{
    for member in members {
        put_u16(out, member.get())?;
    }
    Ok(())
}

impl Change {
    /// Whether the operation that asks for the change is within the limit of an operation.
    pub fn is_brief(&self) -> bool
        ensures { result ≡ is_brief self.now }
    {
        self.members.len() <= (PAYLOAD_BYTES - 3) / 2
    }

    fn text(&self, alloc: Global) -> Result<Bytes, AllocError>
        requires { length self.now.members < 2 ^ 16 }
        ensures { IfOk result (λ text. text ≡ change_text self.now) }
    {
        let members = self.members.as_slice();
        let mut out = Vec::new(alloc);
        put_u8(&mut out, self.f)?;
        put_u16(&mut out, members.len() as u16)?;
        put_members(&mut out, members)?;
        Ok(Bytes::from_vec(out))
    }

    /// The operation that asks for the change. Error: want of memory.
    pub fn operation(&self, alloc: Global) -> Result<Payload, AllocError>
        requires { is_brief self.now ≡ true }
        ensures { IfOk result (λ op. op ≡ change_text self.now) }
    {
        Ok(Payload::new(self.text(alloc)?))
    }
}
