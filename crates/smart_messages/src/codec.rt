//! The bytes of messages, and how messages are read.
ghost use Rattle.std.specs.Prelude.{◌≡◌, ◌++◌, IfOk, OnOk, OnErr, Ok};
ghost use Rattle.smart_base.specs.Cuts.{Gives, GivesAll, Takes, limited};
ghost use Rattle.smart_base.specs.Spelling.{Extends};
ghost use Rattle.smart_base.specs.declared.limits.TheConstants.{MESSAGE_BYTES};
ghost use Rattle.smart_statements.specs.Batches.{batch_text};
ghost use Rattle.smart_statements.specs.Kinds.{proposals, requests};
ghost use Rattle.smart_statements.specs.Reading.{batch_at};
ghost use Rattle.smart_statements.specs.Reports.{reports};
ghost use Rattle.smart_statements.specs.SignedLists.{optional, optional_at};
ghost use Rattle.smart_statements.specs.Spelling.{signed};
ghost use Rattle.smart_messages.specs.Messages.{Fits, kind, content, spelling, ask_at, propose_at, vote_at, stop_message_at, stop_data_at, sync_message_at, decision_at, reply_at, mark_message_at, state_ask_at, state_offer_at, state_part_at, view_told_at, body_at, is_kind, message_kind_at, message_at, decoded};

use crate::message::{Message, Proposed};
use crate::regency::{Reported, Stop, Sync, ViewInfo};
use smart_base::cursor::Cursor;
use smart_base::fault::{ReadError, Unread};
use smart_base::field::put_u8;
use smart_base::limits::MESSAGE_BYTES;
use smart_statements::batch::Batch;
use smart_statements::optional::take_flag;
use smart_statements::report::{Mark, Report};
use smart_statements::signed::Signed;
use smart_statements::statement::{Answer, Ballot, Proposal, Request};
use std::alloc::{AllocError, Global};
use transfer_form::transfer::{ProvenBatch, StateAsk, StateOffer, StatePart};

#[tactic(auto, unfolding(crate::specs::Messages::ask_at))]
fn read_ask(alloc: Global, cut: &mut Cursor<'_>) -> Result<Message, ReadError>
    ensures { Gives result cut.new (ask_at cut.old) }
{
    Ok(Message::Ask(Signed::<Request>::read(alloc, cut)?))
}

#[tactic(auto, unfolding(crate::specs::Messages::propose_at))]
fn read_propose(alloc: Global, cut: &mut Cursor<'_>) -> Result<Message, ReadError>
    ensures { Gives result cut.new (propose_at cut.old) }
{
    let head = Signed::<Proposal>::read(alloc, cut)?;
    let batch = Batch::read(alloc, cut)?;
    Ok(Message::Propose(Proposed { head, batch }))
}

#[tactic(auto, unfolding(crate::specs::Messages::vote_at))]
fn read_vote(alloc: Global, cut: &mut Cursor<'_>) -> Result<Message, ReadError>
    ensures { Gives result cut.new (vote_at cut.old) }
{
    Ok(Message::Vote(Signed::<Ballot>::read(alloc, cut)?))
}

#[tactic(auto, unfolding(crate::specs::Messages::stop_message_at))]
fn read_stop(alloc: Global, cut: &mut Cursor<'_>) -> Result<Message, ReadError>
    ensures { Gives result cut.new (stop_message_at cut.old) }
{
    Ok(Message::Stop(Signed::<Stop>::read(alloc, cut)?))
}

#[tactic(auto, unfolding(smart_statements::specs::SignedLists::optional_at, smart_statements::specs::SignedLists::some_at))]
fn read_batch(alloc: Global, cut: &mut Cursor<'_>) -> Result<Option<Batch>, ReadError>
    ensures { Gives result cut.new (optional_at (batch_at requests) cut.old) }
{
    if take_flag(cut)? == 0 {
        return Ok(None);
    }
    Ok(Some(Batch::read(alloc, cut)?))
}

#[tactic(auto, unfolding(crate::specs::Messages::stop_data_at))]
fn read_stop_data(alloc: Global, cut: &mut Cursor<'_>) -> Result<Message, ReadError>
    ensures { Gives result cut.new (stop_data_at cut.old) }
{
    let head = Signed::<Report>::read(alloc, cut)?;
    let batch = read_batch(alloc, cut)?;
    Ok(Message::StopData(Reported { head, batch }))
}

#[tactic(auto, unfolding(crate::specs::Messages::sync_message_at))]
fn read_sync(alloc: Global, cut: &mut Cursor<'_>) -> Result<Message, ReadError>
    ensures { Gives result cut.new (sync_message_at cut.old) }
{
    Ok(Message::Sync(Signed::<Sync>::read(alloc, cut)?))
}

#[tactic(auto, unfolding(crate::specs::Messages::reply_at))]
fn read_reply(alloc: Global, cut: &mut Cursor<'_>) -> Result<Message, ReadError>
    ensures { Gives result cut.new (reply_at cut.old) }
{
    Ok(Message::Reply(Signed::<Answer>::read(alloc, cut)?))
}

#[tactic(auto, unfolding(crate::specs::Messages::mark_message_at))]
fn read_mark(alloc: Global, cut: &mut Cursor<'_>) -> Result<Message, ReadError>
    ensures { Gives result cut.new (mark_message_at cut.old) }
{
    Ok(Message::Mark(Signed::<Mark>::read(alloc, cut)?))
}

#[tactic(auto, unfolding(crate::specs::Messages::decision_at))]
fn read_decision(alloc: Global, cut: &mut Cursor<'_>) -> Result<Message, ReadError>
    ensures { Gives result cut.new (decision_at cut.old) }
{
    Ok(Message::Decision(ProvenBatch::read(alloc, cut)?))
}

#[tactic(auto, unfolding(crate::specs::Messages::state_ask_at))]
fn read_state_ask(cut: &mut Cursor<'_>) -> Result<Message, ReadError>
    ensures { Gives result cut.new (state_ask_at cut.old) }
{
    Ok(Message::StateAsk(StateAsk::read(cut)?))
}

#[tactic(auto, unfolding(crate::specs::Messages::state_offer_at))]
fn read_state_offer(alloc: Global, cut: &mut Cursor<'_>) -> Result<Message, ReadError>
    ensures { Gives result cut.new (state_offer_at cut.old) }
{
    Ok(Message::StateOffer(StateOffer::read(alloc, cut)?))
}

#[tactic(auto, unfolding(crate::specs::Messages::state_part_at))]
fn read_state_part(alloc: Global, cut: &mut Cursor<'_>) -> Result<Message, ReadError>
    ensures { Gives result cut.new (state_part_at cut.old) }
{
    Ok(Message::StatePart(StatePart::read(alloc, cut)?))
}

#[tactic(auto, unfolding(crate::specs::Messages::view_told_at))]
fn read_view_told(alloc: Global, cut: &mut Cursor<'_>) -> Result<Message, ReadError>
    ensures { Gives result cut.new (view_told_at cut.old) }
{
    Ok(Message::ViewTold(Signed::<ViewInfo>::read(alloc, cut)?))
}

/// Reads what comes after a message's first byte.
#[tactic(auto, unfolding(crate::specs::Messages::body_at))]
fn read_body(alloc: Global, kind: u8, cut: &mut Cursor<'_>) -> Result<Message, ReadError>
    ensures { Gives result cut.new (body_at kind cut.old) }
{
    match kind {
        1 => read_ask(alloc, cut),
        2 => read_propose(alloc, cut),
        3 => read_vote(alloc, cut),
        4 => read_stop(alloc, cut),
        5 => read_stop_data(alloc, cut),
        6 => read_sync(alloc, cut),
        7 => read_decision(alloc, cut),
        8 => read_reply(alloc, cut),
        9 => read_mark(alloc, cut),
        10 => read_state_ask(cut),
        11 => read_state_offer(alloc, cut),
        12 => read_state_part(alloc, cut),
        _ => read_view_told(alloc, cut),
    }
}

/// Whether a byte is the first of a message.
fn is_message_kind(kind: u8) -> bool
    ensures { result ≡ is_kind kind }
{
    1 <= kind && kind <= 13
}

#[tactic(auto, unfolding(smart_base::specs::Cuts::ranged))]
fn take_message_kind(cut: &mut Cursor<'_>) -> Result<u8, Unread>
    ensures { Takes result cut.new (message_kind_at cut.old) }
{
    let at = cut.at();
    let found = cut.take_u8()?;
    if is_message_kind(found) {
        Ok(found)
    } else {
        Err(Unread { at })
    }
}

#[tactic(auto, unfolding(crate::specs::Messages::message_at))]
fn read_message(alloc: Global, cut: &mut Cursor<'_>) -> Result<Message, ReadError>
    ensures { Gives result cut.new (message_at cut.old) }
{
    let kind = take_message_kind(cut)?;
    let message = read_body(alloc, kind, cut)?;
    Ok(message)
}

/// Reads a message within the limit; a field that ends past the limit cannot be read.
#[tactic(auto, unfolding(smart_base::specs::Cuts::limited))]
fn read_limited(alloc: Global, cut: &mut Cursor<'_>) -> Result<Message, ReadError>
    ensures { Gives result cut.new (limited MESSAGE_BYTES message_at cut.old) }
{
    let mut inner = cut.front(MESSAGE_BYTES);
    let room = inner.rest().len();
    let message = read_message(alloc, &mut inner)?;
    cut.skip(room.saturating_sub(inner.rest().len()));
    Ok(message)
}

#[tactic(auto, unfolding(crate::specs::Messages::decoded, smart_base::specs::Cuts::whole))]
fn read_all(alloc: Global, bytes: &[u8]) -> Result<Message, ReadError>
    ensures { GivesAll result (decoded bytes.now) }
{
    let mut cut = Cursor::new(bytes);
    let message = read_limited(alloc, &mut cut)?;
    if !cut.is_done() {
        return Err(ReadError::Unread { at: cut.at() });
    }
    Ok(message)
}

/// The message that these bytes are, all of them. Errors: the lowest offset of a field that is none,
/// or of a byte left over; want of memory.
pub fn decode(alloc: Global, bytes: &[u8]) -> Result<Message, ReadError>
    // What is read is spelled so.
    ensures found { IfOk result (λ m. Fits m × (bytes.now ≡ spelling m)) }
    // What is spelled so is read, unless memory runs out.
    ensures only { (m : Message) → Fits m → bytes.now ≡ spelling m → GivesAll result (Ok m) }
    // Else the lowest offset of a field that cannot be read or is out of its range, or of a byte left over.
    ensures exact { GivesAll result (decoded bytes.now) }
{
    read_all(alloc, bytes)
}

/// The first byte of a message.
fn kind(message: &Message) -> u8
    ensures { result ≡ kind message.now }
{
    match message {
        Message::Ask(_) => 1,
        Message::Propose(_) => 2,
        Message::Vote(_) => 3,
        Message::Stop(_) => 4,
        Message::StopData(_) => 5,
        Message::Sync(_) => 6,
        Message::Decision(_) => 7,
        Message::Reply(_) => 8,
        Message::Mark(_) => 9,
        Message::StateAsk(_) => 10,
        Message::StateOffer(_) => 11,
        Message::StatePart(_) => 12,
        Message::ViewTold(_) => 13,
    }
}

fn put_proposed(out: &mut Vec<u8>, proposed: &Proposed) -> Result<(), AllocError>
    ensures text { OnOk result (out.new.items ≡ out.old.items ++ (signed proposals proposed.now.head ++ batch_text proposed.now.batch)) }
    ensures err { OnErr result (Extends out.old.items out.new.items) }
{
    proposed.head.put(out)?;
    proposed.batch.put(out)?;
    Ok(())
}

fn put_batch(out: &mut Vec<u8>, batch: &Option<Batch>) -> Result<(), AllocError>
    ensures text { OnOk result (out.new.items ≡ out.old.items ++ optional batch_text batch.now) }
    ensures err { OnErr result (Extends out.old.items out.new.items) }
{
    match batch {
        None => {
            put_u8(out, 0)?;
        }
        Some(batch) => {
            put_u8(out, 1)?;
            batch.put(out)?;
        }
    }
    Ok(())
}

fn put_reported(out: &mut Vec<u8>, reported: &Reported) -> Result<(), AllocError>
    ensures text { OnOk result (out.new.items ≡ out.old.items ++ (signed reports reported.now.head ++ optional batch_text reported.now.batch)) }
    ensures err { OnErr result (Extends out.old.items out.new.items) }
{
    reported.head.put(out)?;
    put_batch(out, &reported.batch)?;
    Ok(())
}

/// Adds the bytes after the first one.
fn put_content(out: &mut Vec<u8>, message: &Message) -> Result<(), AllocError>
    ensures text { OnOk result (out.new.items ≡ out.old.items ++ content message.now) }
    ensures err { OnErr result (Extends out.old.items out.new.items) }
{
    match message {
        Message::Ask(ask) => ask.put(out),
        Message::Propose(proposed) => put_proposed(out, proposed),
        Message::Vote(vote) => vote.put(out),
        Message::Stop(stop) => stop.put(out),
        Message::StopData(reported) => put_reported(out, reported),
        Message::Sync(sync) => sync.put(out),
        Message::Decision(proven) => proven.put(out),
        Message::Reply(reply) => reply.put(out),
        Message::Mark(mark) => mark.put(out),
        Message::StateAsk(ask) => ask.put(out),
        Message::StateOffer(offer) => offer.put(out),
        Message::StatePart(part) => part.put(out),
        Message::ViewTold(info) => info.put(out),
    }
}

/// Adds the bytes of a message. Error: want of memory.
#[tactic(auto, unfolding(crate::specs::Messages::spelling))]
fn put_message(out: &mut Vec<u8>, message: &Message) -> Result<(), AllocError>
    ensures text { OnOk result (out.new.items ≡ out.old.items ++ spelling message.now) }
    ensures err { OnErr result (Extends out.old.items out.new.items) }
{
    put_u8(out, kind(message))?;
    put_content(out, message)?;
    Ok(())
}

/// The room with which a message's bytes begin: more than a vote or a request takes.
const ROOM: usize = 256;

/// The bytes of a message. Error: want of memory.
pub fn encode(alloc: Global, message: &Message) -> Result<Vec<u8>, AllocError>
    ensures { IfOk result (λ v. v.items ≡ spelling message.now) }
{
    let mut out = Vec::with_capacity(alloc, ROOM)?;
    put_message(&mut out, message)?;
    Ok(out)
}
