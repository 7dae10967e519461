//! What a transcript tells of a message that was sent, and the words for it.
ghost use Rattle.std.specs.Prelude.{◌≡◌, ◌++◌, OnOk, string_bytes};
ghost use Rattle.message_words.specs.Words.{vote_summary, regency_locked, summary_of, after_space, lock_text, bound_text, summary_text};

use regency_sync::choosing::choice;
use smart_base::name::ClientId;
use smart_base::number::{Place, Regency, ViewNo};
use smart_messages::message::Message;
use smart_statements::report::LockCertificate;
use smart_statements::statement::{Ballot, VoteKind};
use std::alloc::AllocError;
use std::fmt::{self, Write};

/// What a transcript tells of a message.
#[derive(Clone, Copy, Debug, PartialEq, Eq)]
pub enum Summary {
    Ask {
        client: ClientId,
        seq: u64,
        after: u64,
    },
    Propose {
        view: ViewNo,
        place: Place,
        regency: Regency,
        requests: u64,
    },
    Write {
        view: ViewNo,
        place: Place,
        regency: Regency,
    },
    Accept {
        view: ViewNo,
        place: Place,
        regency: Regency,
    },
    Reply {
        client: ClientId,
        seq: u64,
        place: Place,
        index: u16,
    },
    Stop {
        view: ViewNo,
        regency: Regency,
    },
    /// A STOPDATA: its last place, and the regency of its lock, if it has one.
    StopData {
        view: ViewNo,
        regency: Regency,
        last: u64,
        lock: Option<Regency>,
    },
    /// A SYNC: the place at which its regency begins, and whether a batch binds there.
    Sync {
        view: ViewNo,
        regency: Regency,
        base: u64,
        bound: bool,
    },
    /// A MARK.
    Mark {
        place: Place,
    },
    /// A DECISION: the place of its batch.
    Decision {
        place: Place,
    },
    /// A STATEASK: the place of the member that asks, and that of the snapshot whose parts it asks for.
    StateAsk {
        place: Place,
        fetch: Place,
    },
    /// A STATEOFFER: the place of the offered snapshot, and how many marks come with it.
    Offer {
        place: Place,
        marks: u64,
    },
    /// A STATEPART: the place of the snapshot, the number of the part, and how many there are.
    Part {
        place: Place,
        index: u32,
        total: u32,
    },
    /// A VIEWTOLD: the number of the view.
    View {
        view: ViewNo,
    },
    /// Bytes that are no message.
    Raw,
}

fn vote_summary(ballot: &Ballot) -> Summary
    ensures { result ≡ vote_summary ballot.now ballot.now.kind }
{
    let slot = ballot.slot;
    match ballot.kind {
        VoteKind::Write => Summary::Write {
            view: slot.view,
            place: slot.place,
            regency: slot.regency,
        },
        VoteKind::Accept => Summary::Accept {
            view: slot.view,
            place: slot.place,
            regency: slot.regency,
        },
    }
}

fn regency_locked(lock: &Option<LockCertificate>) -> Option<Regency>
    ensures { result ≡ regency_locked lock.now }
{
    match lock {
        None => None,
        Some(lock) => Some(lock.regency),
    }
}

/// What a transcript tells of a message.
pub fn summary_of(message: &Message) -> Summary
    ensures { result ≡ summary_of message.now }
{
    match message {
        Message::Ask(signed) => {
            let request = signed.statement();
            Summary::Ask {
                client: request.client,
                seq: request.seq,
                after: request.after,
            }
        }
        Message::Propose(proposed) => {
            let slot = proposed.head.statement().slot;
            Summary::Propose {
                view: slot.view,
                place: slot.place,
                regency: slot.regency,
                requests: proposed.batch.len() as u64,
            }
        }
        Message::Vote(signed) => vote_summary(signed.statement()),
        Message::Stop(stop) => {
            let stop = stop.statement();
            Summary::Stop {
                view: stop.view,
                regency: stop.regency,
            }
        }
        Message::StopData(reported) => {
            let report = reported.head.statement();
            Summary::StopData {
                view: report.view,
                regency: report.regency,
                last: report.last.get(),
                lock: regency_locked(&report.lock),
            }
        }
        Message::Sync(sync) => {
            let sync = sync.statement();
            let choice = choice(sync.collect.as_slice());
            Summary::Sync {
                view: sync.view,
                regency: sync.regency,
                base: choice.base,
                bound: choice.bound.is_some(),
            }
        }
        Message::Reply(signed) => {
            let answer = signed.statement();
            Summary::Reply {
                client: answer.client,
                seq: answer.seq,
                place: answer.place,
                index: answer.index,
            }
        }
        Message::Mark(mark) => Summary::Mark {
            place: mark.statement().place,
        },
        Message::Decision(proven) => Summary::Decision {
            place: proven.place,
        },
        Message::StateAsk(ask) => Summary::StateAsk {
            place: ask.place,
            fetch: ask.fetch,
        },
        Message::StateOffer(offer) => Summary::Offer {
            place: offer.place,
            marks: offer.marks.len() as u64,
        },
        Message::StatePart(part) => Summary::Part {
            place: part.place,
            index: part.index,
            total: part.total,
        },
        Message::ViewTold(info) => Summary::View {
            view: info.statement().view.number(),
        },
    }
}

/// Whether a batch binds where a regency begins.
pub fn bound_text(bound: bool) -> &'static str
    ensures { result.now ≡ bound_text bound }
{
    if bound { " bound" } else { " free" }
}

/// A number behind a space.
fn push_number(out: &mut String, number: u64) -> Result<(), AllocError>
    ensures { OnOk result (string_bytes out.new ≡ string_bytes out.old ++ after_space number) }
{
    write!(out, " {number}")
}

/// A word and a number.
fn push_one(out: &mut String, word: &str, number: u64) -> Result<(), AllocError>
    ensures { OnOk result (string_bytes out.new ≡ string_bytes out.old ++ (word.now ++ after_space number)) }
{
    out.push_str(word)?;
    push_number(out, number)?;
    Ok(())
}

/// A word and two numbers.
fn push_two(out: &mut String, word: &str, first: u64, second: u64) -> Result<(), AllocError>
    ensures { OnOk result (string_bytes out.new ≡ string_bytes out.old ++ (word.now ++ (after_space first ++ after_space second))) }
{
    push_one(out, word, first)?;
    push_number(out, second)?;
    Ok(())
}

/// A word and three numbers.
fn push_three(
    out: &mut String,
    word: &str,
    first: u64,
    second: u64,
    third: u64,
) -> Result<(), AllocError>
    ensures { OnOk result (string_bytes out.new ≡ string_bytes out.old ++ (word.now ++ (after_space first ++ (after_space second ++ after_space third)))) }
{
    push_two(out, word, first, second)?;
    push_number(out, third)?;
    Ok(())
}

/// A word and four numbers.
fn push_four(
    out: &mut String,
    word: &str,
    first: u64,
    second: u64,
    third: u64,
    fourth: u64,
) -> Result<(), AllocError>
    ensures { OnOk result (string_bytes out.new ≡ string_bytes out.old ++ (word.now ++ (after_space first ++ (after_space second ++ (after_space third ++ after_space fourth))))) }
{
    push_three(out, word, first, second, third)?;
    push_number(out, fourth)?;
    Ok(())
}

/// The regency of a lock behind a space, or a dash.
fn push_lock(out: &mut String, lock: Option<Regency>) -> Result<(), AllocError>
    ensures { OnOk result (string_bytes out.new ≡ string_bytes out.old ++ lock_text lock) }
{
    match lock {
        None => out.push_str(" -"),
        Some(regency) => push_number(out, regency.get() as u64),
    }
}

fn push_stop_data(
    out: &mut String,
    view: u64,
    regency: u64,
    last: u64,
    lock: Option<Regency>,
) -> Result<(), AllocError>
    ensures { OnOk result (string_bytes out.new ≡ string_bytes out.old ++ summary_text (Summary.StopData view regency last lock)) }
{
    push_three(out, "stopdata", view, regency, last)?;
    push_lock(out, lock)?;
    Ok(())
}

fn push_sync(
    out: &mut String,
    view: u64,
    regency: u64,
    base: u64,
    bound: bool,
) -> Result<(), AllocError>
    ensures { OnOk result (string_bytes out.new ≡ string_bytes out.old ++ summary_text (Summary.Sync view regency base bound)) }
{
    push_three(out, "sync", view, regency, base)?;
    out.push_str(bound_text(bound))?;
    Ok(())
}

/// The words of what a transcript tells of a message.
pub fn push_summary(out: &mut String, summary: Summary) -> Result<(), AllocError>
    ensures { OnOk result (string_bytes out.new ≡ string_bytes out.old ++ summary_text summary) }
{
    match summary {
        Summary::Ask { client, seq, after } => push_three(
            out,
            "ask",
            client.get() as u64,
            seq,
            after,
        ),
        Summary::Propose {
            view,
            place,
            regency,
            requests,
        } => push_four(
            out,
            "propose",
            view.get() as u64,
            place.get(),
            regency.get() as u64,
            requests,
        ),
        Summary::Write {
            view,
            place,
            regency,
        } => push_three(
            out,
            "write",
            view.get() as u64,
            place.get(),
            regency.get() as u64,
        ),
        Summary::Accept {
            view,
            place,
            regency,
        } => push_three(
            out,
            "accept",
            view.get() as u64,
            place.get(),
            regency.get() as u64,
        ),
        Summary::Reply {
            client,
            seq,
            place,
            index,
        } => push_four(
            out,
            "reply",
            client.get() as u64,
            seq,
            place.get(),
            index as u64,
        ),
        Summary::Stop { view, regency } => push_two(
            out,
            "stop",
            view.get() as u64,
            regency.get() as u64,
        ),
        Summary::StopData {
            view,
            regency,
            last,
            lock,
        } => push_stop_data(out, view.get() as u64, regency.get() as u64, last, lock),
        Summary::Sync {
            view,
            regency,
            base,
            bound,
        } => push_sync(out, view.get() as u64, regency.get() as u64, base, bound),
        Summary::Mark { place } => push_one(out, "mark", place.get()),
        Summary::Decision { place } => push_one(out, "decision", place.get()),
        Summary::StateAsk { place, fetch } => push_two(out, "stateask", place.get(), fetch.get()),
        Summary::Offer { place, marks } => push_two(out, "offer", place.get(), marks),
        Summary::Part {
            place,
            index,
            total,
        } => push_three(out, "part", place.get(), index as u64, total as u64),
        Summary::View { view } => push_one(out, "view", view.get() as u64),
        Summary::Raw => out.push_str("raw"),
    }
}
