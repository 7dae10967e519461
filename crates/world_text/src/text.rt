//! The lines of a transcript, as text.
ghost use Rattle.std.specs.Prelude.{◌≡◌, ◌++◌, ◌∷◌, ◌<◌, IfOk, OnOk, string_bytes};
ghost use Rattle.std.specs.Fmt.{decimal};
ghost use Rattle.std.specs.List.{flat_map};
ghost use Rattle.message_words.specs.Words.{after_space};
ghost use Rattle.world_rules.specs.Texts.{why_text, ignored_text, app_text, origin_text, hex_digit, shown, words_of, line_text, text_of};

use client_quorum::client::Ignored;
use message_words::words::{Summary, bound_text, push_summary};
use node_rules::node::Why;
use std::alloc::{AllocError, Global};
use std::fmt::{self, Write};
use world_rules::line::{App, OutLine};
use world_rules::message::Origin;

/// The name of a reason.
pub fn why_text(why: Why) -> &'static str
    ensures { result.now ≡ why_text why }
{
    match why {
        Why::Unread => "Unread",
        Why::NotMember => "NotMember",
        Why::BadTag => "BadTag",
        Why::Stranger => "Stranger",
        Why::OldView => "OldView",
        Why::NewView => "NewView",
        Why::OldPlace => "OldPlace",
        Why::FarPlace => "FarPlace",
        Why::OldRegency => "OldRegency",
        Why::NewRegency => "NewRegency",
        Why::OldSeq => "OldSeq",
        Why::FarSeq => "FarSeq",
        Why::NotLeader => "NotLeader",
        Why::InvalidBatch => "InvalidBatch",
        Why::BadProof => "BadProof",
        Why::Unbound => "Unbound",
        Why::Unasked => "Unasked",
        Why::Repeated => "Repeated",
    }
}

/// The name of a reason of a client's.
pub fn ignored_text(why: Ignored) -> &'static str
    ensures { result.now ≡ ignored_text why }
{
    match why {
        Ignored::Unread => "Unread",
        Ignored::BadTag => "BadTag",
        Ignored::Settled => "Settled",
        Ignored::UnknownView => "UnknownView",
        Ignored::OldView => "OldView",
        Ignored::Stranger => "Stranger",
        Ignored::Repeated => "Repeated",
    }
}

/// The name of a service.
pub fn app_text(app: App) -> &'static str
    ensures { result.now ≡ app_text app }
{
    match app {
        App::Count => "count",
        App::Kv => "kv",
    }
}

fn push_origin(out: &mut String, origin: Origin) -> Result<(), AllocError>
    ensures { OnOk result (string_bytes out.new ≡ string_bytes out.old ++ origin_text origin) }
{
    match origin {
        Origin::Node(id) => {
            let id = id.get();
            write!(out, "n{id}")
        }
        Origin::Client(id) => {
            let id = id.get();
            write!(out, "c{id}")
        }
        Origin::Script => out.push_str("x"),
    }
}

fn hex_digit(n: u8) -> char
    requires { n < 16 }
    ensures { result ≡ hex_digit n }
{
    if n < 10 {
        (48 + n) as char
    } else {
        (87 + n) as char
    }
}

fn push_byte(out: &mut String, byte: u8) -> Result<(), AllocError>
    ensures { OnOk result (string_bytes out.new ≡ string_bytes out.old ++ shown byte) }
{
    if 32 <= byte && byte <= 126 && byte != 92 {
        out.push(byte as char)?;
        return Ok(());
    }
    out.push_str("\\x")?;
    out.push(hex_digit(byte / 16))?;
    out.push(hex_digit(byte % 16))?;
    Ok(())
}

/// A reply, where only bytes that print stand for themselves.
fn push_reply(out: &mut String, reply: &[u8]) -> Result<(), AllocError>
    ensures { OnOk result (string_bytes out.new ≡ string_bytes out.old ++ flat_map shown reply.now) }
{
    for byte in reply {
        push_byte(out, *byte)?;
    }
    Ok(())
}

/// A word and a number.
fn push_id(out: &mut String, word: &str, id: u16) -> Result<(), AllocError>
    ensures { OnOk result (string_bytes out.new ≡ string_bytes out.old ++ (word.now ++ decimal id)) }
{
    out.push_str(word)?;
    write!(out, "{id}")?;
    Ok(())
}

/// A word, a number and a name.
fn push_name(out: &mut String, word: &str, id: u16, name: &str) -> Result<(), AllocError>
    ensures { OnOk result (string_bytes out.new ≡ string_bytes out.old ++ (word.now ++ (decimal id ++ (32 ∷ name.now)))) }
{
    out.push_str(word)?;
    write!(out, "{id} {name}")?;
    Ok(())
}

/// A word and two numbers.
fn push_one(out: &mut String, word: &str, id: u16, number: u64) -> Result<(), AllocError>
    ensures { OnOk result (string_bytes out.new ≡ string_bytes out.old ++ (word.now ++ (decimal id ++ after_space number))) }
{
    out.push_str(word)?;
    write!(out, "{id} {number}")?;
    Ok(())
}

/// A word and three numbers.
fn push_two(
    out: &mut String,
    word: &str,
    id: u16,
    number: u64,
    other: u64,
) -> Result<(), AllocError>
    ensures { OnOk result (string_bytes out.new ≡ string_bytes out.old ++ (word.now ++ (decimal id ++ (after_space number ++ after_space other)))) }
{
    out.push_str(word)?;
    write!(out, "{id} {number} {other}")?;
    Ok(())
}

fn push_group(
    out: &mut String,
    members: u64,
    faulty: u8,
    app: App,
    period: u32,
) -> Result<(), AllocError>
    ensures { OnOk result (string_bytes out.new ≡ string_bytes out.old ++ words_of (OutLine.Group members faulty app period)) }
{
    let app = app_text(app);
    write!(out, "group {members} {faulty} {app} {period}")
}

fn push_sent(
    out: &mut String,
    number: u64,
    origin: Origin,
    summary: Summary,
) -> Result<(), AllocError>
    ensures { OnOk result (string_bytes out.new ≡ string_bytes out.old ++ words_of (OutLine.Sent number origin summary)) }
{
    write!(out, "sent {number} ")?;
    push_origin(out, origin)?;
    write!(out, " ")?;
    push_summary(out, summary)
}

fn push_synced(
    out: &mut String,
    id: u16,
    view: u32,
    regency: u32,
    base: u64,
    bound: bool,
) -> Result<(), AllocError>
    ensures { OnOk result (string_bytes out.new ≡ string_bytes out.old ++ words_of (OutLine.Synced id view regency base bound)) }
{
    write!(out, "synced n{id} {view} {regency} {base}")?;
    out.push_str(bound_text(bound))
}

fn push_accepted(
    out: &mut String,
    id: u16,
    seq: u64,
    place: u64,
    index: u16,
    reply: &[u8],
) -> Result<(), AllocError>
    ensures { OnOk result (string_bytes out.new ≡ string_bytes out.old ++ words_of (OutLine.Accepted id seq place index reply.now)) }
{
    write!(out, "accepted c{id} {seq} {place} {index} ")?;
    push_reply(out, reply)
}

fn push_place(
    out: &mut String,
    id: u16,
    place: u64,
    view: u32,
    regency: u32,
) -> Result<(), AllocError>
    ensures { OnOk result (string_bytes out.new ≡ string_bytes out.old ++ words_of (OutLine.Stands id place view regency)) }
{
    write!(out, "place n{id} {place} {view} {regency}")
}

fn push_end(out: &mut String, lines: u64, messages: u64) -> Result<(), AllocError>
    ensures { OnOk result (string_bytes out.new ≡ string_bytes out.old ++ words_of (OutLine.End lines messages)) }
{
    write!(out, "end {lines} {messages}")
}

fn push_words(out: &mut String, line: &OutLine) -> Result<(), AllocError>
    ensures { OnOk result (string_bytes out.new ≡ string_bytes out.old ++ words_of line.now) }
{
    match line {
        OutLine::Group {
            members,
            faulty,
            app,
            period,
        } => push_group(out, *members, *faulty, *app, *period),
        OutLine::Sent {
            number,
            origin,
            summary,
        } => push_sent(out, *number, *origin, *summary),
        OutLine::Decided { member, place } => push_one(out, "decided n", member.get(), place.get()),
        OutLine::Installed { member, place } => push_one(
            out,
            "installed n",
            member.get(),
            place.get(),
        ),
        OutLine::Delivered {
            member,
            place,
            executed,
        } => push_two(out, "delivered n", member.get(), place.get(), *executed),
        OutLine::View { member, view } => push_one(out, "view n", member.get(), view.get() as u64),
        OutLine::Promised {
            member,
            view,
            regency,
        } => push_two(
            out,
            "promised n",
            member.get(),
            view.get() as u64,
            regency.get() as u64,
        ),
        OutLine::Synced {
            member,
            view,
            regency,
            base,
            bound,
        } => push_synced(out, member.get(), view.get(), regency.get(), *base, *bound),
        OutLine::Dropped { member, why } => push_name(
            out,
            "dropped n",
            member.get(),
            why_text(*why),
        ),
        OutLine::Counted { client, have, need } => push_two(
            out,
            "counted c",
            client.get(),
            *have,
            *need,
        ),
        OutLine::Accepted {
            client,
            seq,
            place,
            index,
            reply,
        } => push_accepted(
            out,
            client.get(),
            *seq,
            place.get(),
            *index,
            reply.as_slice(),
        ),
        OutLine::Viewed { client, have, need } => push_two(
            out,
            "viewed c",
            client.get(),
            *have,
            *need,
        ),
        OutLine::Moved { client, view } => push_one(
            out,
            "moved c",
            client.get(),
            view.get() as u64,
        ),
        OutLine::Ignored { client, why } => push_name(
            out,
            "ignored c",
            client.get(),
            ignored_text(*why),
        ),
        OutLine::Busy { client, seq } => push_one(out, "busy c", client.get(), *seq),
        OutLine::Absent { member } => push_id(out, "absent n", member.get()),
        OutLine::Crashed { member } => push_id(out, "crashed n", member.get()),
        OutLine::Restarted {
            member,
            place,
            entries,
        } => push_two(out, "restarted n", member.get(), place.get(), *entries),
        OutLine::Down { member } => push_id(out, "down n", member.get()),
        OutLine::Idle { member } => push_id(out, "idle n", member.get()),
        OutLine::IdleClient { client } => push_id(out, "idle c", client.get()),
        OutLine::Learned { client, place } => push_one(out, "told c", client.get(), place.get()),
        OutLine::Stands {
            member,
            place,
            view,
            regency,
        } => push_place(out, member.get(), place.get(), view.get(), regency.get()),
        OutLine::Seen { client, place } => push_one(out, "seen c", client.get(), place.get()),
        OutLine::End { lines, messages } => push_end(out, *lines, *messages),
    }
}

/// The text of lines.
pub fn out_text(alloc: Global, lines: &[OutLine]) -> Result<String, AllocError>
    ensures { IfOk result (λ text. string_bytes text ≡ text_of lines.now) }
{
    let mut out = String::new(alloc);
    for line in lines {
        push_words(&mut out, line)?;
        out.push_str("\n")?;
    }
    Ok(out)
}
