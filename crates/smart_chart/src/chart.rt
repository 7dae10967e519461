//! What the lines of a transcript draw.
ghost use Rattle.std.specs.Prelude.{◌≡◌};

use crate::label::{happening_text, label, message_text};
use crate::party::{Column, Party, add_party, column_of, columns_of, note_regency};
use crate::picture::{Figure, Shape, Side};
use crate::scene::{
    Audience, Happening, Message, Scene, client_of, is_of_script, number_at, regency_of, scene_of,
    split_word,
};
use std::alloc::{AllocError, Global};
use std::fmt::Write;

/// What is drawn so far.
struct Chart {
    alloc: Global,
    columns: Vec<Column>,
    members: u64,
    shapes: Vec<Shape>,
}

impl Drop for Chart {
    fn drop(self) {
        let Chart {
            alloc: _,
            columns: _,
            members: _,
            shapes: _,
        } = self;
    }
}

impl Chart {
    fn into_shapes(self) -> Vec<Shape> {
        let Chart {
            alloc: _,
            columns: _,
            members: _,
            shapes,
        } = self;
        shapes
    }
}

/// How far below the top a row's part stands.
fn height_at(at: u16, below: u8) -> u64 {
    at as u64 * 22 + 44 + below as u64
}

/// How high a picture of so many lines is.
pub fn height_of(lines: usize) -> u64 {
    (lines as u64).saturating_mul(22).saturating_add(70)
}

/// How many members the header of a transcript tells, at most 31.
fn members_of(lines: &[String]) -> u64 {
    let Some(line) = lines.first() else {
        return 0;
    };
    let (word, rest) = split_word(line.as_str());
    if word != "group" {
        return 0;
    }
    number_at(rest, 0).unwrap_or(0).min(31)
}

/// The clients that lines name, ascending.
fn clients_of(alloc: Global, lines: &[String]) -> Result<Vec<u64>, AllocError> {
    let mut clients = Vec::new(alloc);
    for line in lines {
        if let Some(client) = client_of(scene_of(line.as_str()))
            && !clients.contains(&client)
        {
            clients.push(client)?;
        }
    }
    clients.sort()?;
    Ok(clients)
}

fn is_script_in(lines: &[String]) -> bool {
    for line in lines {
        if is_of_script(scene_of(line.as_str())) {
            return true;
        }
    }
    false
}

/// The parties of lines: clients, members, and the script.
fn parties_of(alloc: Global, members: u64, lines: &[String]) -> Result<Vec<Party>, AllocError> {
    let mut parties = Vec::new(alloc);
    let clients = clients_of(alloc, lines)?;
    for client in clients.as_slice().iter().take(4) {
        add_party(&mut parties, Party::Client(*client))?;
    }
    for member in 0..members {
        add_party(&mut parties, Party::Member(member + 1))?;
    }
    if is_script_in(lines) {
        add_party(&mut parties, Party::Script)?;
    }
    Ok(parties)
}

fn push_name(out: &mut String, party: Party) -> Result<(), AllocError> {
    match party {
        Party::Member(id) => write!(out, "n{id}"),
        Party::Client(id) => write!(out, "c{id}"),
        Party::Script => out.push_str("x"),
    }
}

/// The name of a party.
fn name_of(alloc: Global, party: Party) -> Result<String, AllocError> {
    let mut name = String::new(alloc);
    push_name(&mut name, party)?;
    Ok(name)
}

fn is_for(audience: Audience, party: Party) -> bool {
    match audience {
        Audience::View => matches!(party, Party::Member(_)),
        Audience::One(one) => party == one,
        Audience::Nobody => false,
    }
}

/// Draws an arrow from a column to each that it is for.
fn draw_arrows(
    shapes: &mut Vec<Shape>,
    columns: &[Column],
    sender: Column,
    audience: Audience,
    y: u64,
) -> Result<(), AllocError> {
    let (mut from, mut to) = (sender.x, sender.x);
    for column in columns {
        if is_for(audience, column.party) && column.party != sender.party {
            from = from.min(column.x);
            to = to.max(column.x);
            let figure = if column.x < sender.x {
                Figure::ToLeft
            } else {
                Figure::ToRight
            };
            shapes.push(Shape::Mark {
                figure,
                x: column.x,
                y,
            })?;
        }
    }
    shapes.push(Shape::Mark {
        figure: Figure::Start,
        x: sender.x,
        y,
    })?;
    shapes.push(Shape::Beam { y, from, to })?;
    Ok(())
}

/// Draws a message, if its sender has a column.
fn draw_message(chart: &mut Chart, at: u16, message: Message<'_>) -> Result<(), AllocError> {
    let Some(sender) = column_of(chart.columns.as_slice(), message.sender) else {
        return Ok(());
    };
    let text = message_text(chart.alloc, message)?;
    chart.shapes.push(label(sender.x, height_at(at, 12), text))?;
    let audience = message.audience(chart.members, sender.regency);
    draw_arrows(
        &mut chart.shapes,
        chart.columns.as_slice(),
        sender,
        audience,
        height_at(at, 18),
    )
}

/// Draws what happens, if its party has a column.
fn draw_happening(chart: &mut Chart, at: u16, happening: Happening<'_>) -> Result<(), AllocError> {
    let Some(column) = column_of(chart.columns.as_slice(), happening.party) else {
        return Ok(());
    };
    chart.shapes.push(Shape::Mark {
        figure: happening.figure,
        x: column.x,
        y: height_at(at, 11),
    })?;
    let text = happening_text(chart.alloc, happening)?;
    chart.shapes.push(label(column.x, height_at(at, 15), text))?;
    Ok(())
}

/// Notes what a line tells of a regency.
fn note(chart: &mut Chart, line: &str) {
    if let Scene::Happens(happening) = scene_of(line)
        && let Some(regency) = regency_of(happening)
    {
        note_regency(chart.columns.as_mut_slice(), happening.party, regency);
    }
}

fn draw_line(chart: &mut Chart, at: u16, line: &str) -> Result<(), AllocError> {
    match scene_of(line) {
        Scene::Sent(message) => draw_message(chart, at, message)?,
        Scene::Happens(happening) => draw_happening(chart, at, happening)?,
        Scene::Nothing => {}
    }
    note(chart, line);
    Ok(())
}

/// Draws a column's life line, with its name above and below.
fn draw_column(
    alloc: Global,
    shapes: &mut Vec<Shape>,
    column: Column,
    top: u64,
    bottom: u64,
) -> Result<(), AllocError> {
    shapes.push(Shape::Life {
        x: column.x,
        from: top.saturating_add(5),
        to: bottom,
    })?;
    let text = name_of(alloc, column.party)?;
    shapes.push(Shape::Label {
        side: Side::Middle,
        x: column.x,
        y: top,
        text,
    })?;
    let text = name_of(alloc, column.party)?;
    shapes.push(Shape::Label {
        side: Side::Middle,
        x: column.x,
        y: bottom.saturating_add(15),
        text,
    })?;
    Ok(())
}

/// Draws the columns. Where they are many, their names stand in two rows.
fn draw_columns(chart: &mut Chart, bottom: u64) -> Result<(), AllocError> {
    let many = chart.columns.len() > 16;
    let mut is_high = false;
    for column in chart.columns.as_slice() {
        let top = if is_high { 18 } else { 34 };
        draw_column(chart.alloc, &mut chart.shapes, *column, top, bottom)?;
        is_high = many && !is_high;
    }
    Ok(())
}

/// The shapes that lines draw, behind those that come before them.
pub fn shapes_of(
    alloc: Global,
    all: &[String],
    before: &[String],
    lines: &[String],
) -> Result<Vec<Shape>, AllocError> {
    let members = members_of(all);
    let parties = parties_of(alloc, members, lines)?;
    let mut chart = Chart {
        alloc,
        columns: columns_of(alloc, parties.as_slice())?,
        members,
        shapes: Vec::new(alloc),
    };
    draw_columns(&mut chart, height_of(lines.len()).saturating_sub(24))?;
    for line in before {
        note(&mut chart, line.as_str());
    }
    let mut at = 0u16;
    for line in lines {
        draw_line(&mut chart, at, line.as_str())?;
        at = at.saturating_add(1);
    }
    Ok(chart.into_shapes())
}
