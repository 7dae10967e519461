//! A picture: its parts, and its text as SVG.
ghost use Rattle.std.specs.Prelude.{◌≡◌, ◌++◌, ◌∷◌, ◌+◌, ◌*◌, ◌<◌, ◌≤◌, ◌^◌, length, List, ℕ, map, take, IfOk, OnOk, string_bytes};
ghost use Rattle.std.specs.Fmt.{decimal};
ghost use Rattle.std.specs.List.{flat_map};
ghost use Rattle.smart_chart.specs.Pictures.{head_text, shown, figure_name, side_name, front_text, label_head, label_text, mark_text, shape_text, row_head, row_text, rows_text, picture_text};

use std::alloc::{AllocError, Global};
use std::fmt::{self, Write};

/// The first line of a picture, up to its height.
pub const HEAD: &str =
    "<svg xmlns='http://www.w3.org/2000/svg' width='1200' font-family='monospace' font-size='12' xml:space='preserve' height='";

/// How each part looks, and the figures.
pub const STYLE: &str =
    "<style>.number{fill:#999;text-anchor:end}.line{fill:#555}.rule{stroke:#eee}.life{stroke:#bbb}.beam{stroke:#225}.label{paint-order:stroke;stroke:#fff;stroke-width:4}.right{text-anchor:start}.left{text-anchor:end}.middle{text-anchor:middle;font-weight:bold}</style>
<defs>
<path id='to-right' fill='#225' d='M0 0l-9-4v8z'/>
<path id='to-left' fill='#225' d='M0 0l9-4v8z'/>
<circle id='start' fill='#225' r='3'/>
<path id='decided' fill='#283' d='M-7 0L0-7L7 0L0 7z'/>
<path id='delivered' fill='#283' d='M-5-5h10v10h-10z'/>
<circle id='promised' fill='#fff' stroke='#83b' stroke-width='2' r='5'/>
<circle id='synced' fill='#83b' r='6'/>
<path id='dropped' stroke='#b63' stroke-width='2' d='M-4-4L4 4M-4 4L4-4'/>
<path id='crashed' stroke='#d11' stroke-width='4' d='M-7-7L7 7M-7 7L7-7'/>
<path id='restarted' fill='#17c' d='M-7 6h14L0-7z'/>
<path id='installed' fill='#17c' d='M-7-6h14L0 7z'/>
<path id='accepted' fill='#e90' stroke='#850' d='M0-8L2-3L8-2L4 2L5 8L0 5L-5 8L-4 2L-8-2L-2-3z'/>
<circle id='other' fill='#999' r='4'/>
</defs>
<rect width='1200' height='100%' fill='#fff'/>
";

/// What stands at a point.
#[derive(Clone, Copy, PartialEq, Eq)]
pub enum Figure {
    ToRight,
    ToLeft,
    Start,
    Decided,
    Delivered,
    Promised,
    Synced,
    Dropped,
    Crashed,
    Restarted,
    Installed,
    Accepted,
    Other,
}

/// To which side of its point a text stands.
#[derive(Clone, Copy, PartialEq, Eq)]
pub enum Side {
    Right,
    Left,
    Middle,
}

/// A part of a picture that is no line of the transcript.
#[derive(Drop)]
pub enum Shape {
    /// The life line of a column.
    Life {
        x: u64,
        from: u64,
        to: u64,
    },
    /// The line of an arrow.
    Beam {
        y: u64,
        from: u64,
        to: u64,
    },
    Mark {
        figure: Figure,
        x: u64,
        y: u64,
    },
    Label {
        side: Side,
        x: u64,
        y: u64,
        text: String,
    },
}

fn figure_name(figure: Figure) -> &'static str
    ensures { result.now ≡ figure_name figure }
{
    match figure {
        Figure::ToRight => "to-right",
        Figure::ToLeft => "to-left",
        Figure::Start => "start",
        Figure::Decided => "decided",
        Figure::Delivered => "delivered",
        Figure::Promised => "promised",
        Figure::Synced => "synced",
        Figure::Dropped => "dropped",
        Figure::Crashed => "crashed",
        Figure::Restarted => "restarted",
        Figure::Installed => "installed",
        Figure::Accepted => "accepted",
        Figure::Other => "other",
    }
}

fn side_name(side: Side) -> &'static str
    ensures { result.now ≡ side_name side }
{
    match side {
        Side::Right => "right",
        Side::Left => "left",
        Side::Middle => "middle",
    }
}

/// A byte of a text: what would be read as markup is escaped, and what does not print is `?`.
fn push_byte(out: &mut String, byte: u8) -> Result<(), AllocError>
    ensures { OnOk result (string_bytes out.new ≡ string_bytes out.old ++ shown byte) }
{
    if byte == b'<' {
        return out.push_str("&lt;");
    }
    if byte == b'&' {
        return out.push_str("&amp;");
    }
    if byte == b'>' {
        return out.push_str("&gt;");
    }
    if 32 <= byte && byte <= 126 {
        out.push(byte as char)?;
        return Ok(());
    }
    out.push_str("?")
}

/// The first bytes of a text, as many as there is room for.
fn front_of(text: &[u8], room: usize) -> &[u8]
    ensures { result.now ≡ take room text.now }
{
    let len = text.len().min(room);
    let (front, _) = text.split_at(len);
    front
}

fn push_text(out: &mut String, text: &[u8]) -> Result<(), AllocError>
    ensures { OnOk result (string_bytes out.new ≡ string_bytes out.old ++ flat_map shown text.now) }
{
    for byte in text {
        push_byte(out, *byte)?;
    }
    Ok(())
}

fn push_label_head(out: &mut String, side: Side, x: u64, y: u64) -> Result<(), AllocError>
    ensures { OnOk result (string_bytes out.new ≡ string_bytes out.old ++ label_head side x y) }
{
    let side = side_name(side);
    write!(out, "<text class='label {side}' x='{x}' y='{y}'>")
}

/// As much of a text as there is room for, and its end.
fn push_front(out: &mut String, text: &[u8], room: usize) -> Result<(), AllocError>
    ensures { OnOk result (string_bytes out.new ≡ string_bytes out.old ++ front_text room text.now) }
{
    push_text(out, front_of(text, room))?;
    out.push_str("</text>\n")?;
    Ok(())
}

fn push_label(out: &mut String, side: Side, x: u64, y: u64, text: &str) -> Result<(), AllocError>
    ensures { OnOk result (string_bytes out.new ≡ string_bytes out.old ++ label_text side x y text.now) }
{
    push_label_head(out, side, x, y)?;
    push_front(out, text.as_bytes(), 56)?;
    Ok(())
}

fn push_mark(out: &mut String, figure: Figure, x: u64, y: u64) -> Result<(), AllocError>
    ensures { OnOk result (string_bytes out.new ≡ string_bytes out.old ++ mark_text figure x y) }
{
    let name = figure_name(figure);
    write!(out, "<use href='#{name}' x='{x}' y='{y}'/>\n")
}

fn push_shape(out: &mut String, shape: &Shape) -> Result<(), AllocError>
    ensures { OnOk result (string_bytes out.new ≡ string_bytes out.old ++ shape_text shape.now) }
{
    match shape {
        Shape::Life { x, from, to } => write!(out, "<path class='life' d='M{x} {from}V{to}'/>\n"),
        Shape::Beam { y, from, to } => write!(out, "<path class='beam' d='M{from} {y}H{to}'/>\n"),
        Shape::Mark { figure, x, y } => push_mark(out, *figure, *x, *y),
        Shape::Label { side, x, y, text } => push_label(out, *side, *x, *y, text.as_str()),
    }
}

fn push_shapes(out: &mut String, shapes: &[Shape]) -> Result<(), AllocError>
    ensures { OnOk result (string_bytes out.new ≡ string_bytes out.old ++ flat_map shape_text shapes.now) }
{
    for shape in shapes {
        push_shape(out, shape)?;
    }
    Ok(())
}

fn push_row_head(out: &mut String, number: u64, at: u64) -> Result<(), AllocError>
    requires { at < 2 ^ 32 }
    ensures { OnOk result (string_bytes out.new ≡ string_bytes out.old ++ row_head number at) }
{
    let (rule, base) = (22 * at + 44, 22 * at + 59);
    write!(
        out,
        "<path class='rule' d='M0 {rule}H1200'/><text class='number' x='40' y='{base}'>{number}</text><text class='line' x='48' y='{base}'>"
    )
}

/// A line of the transcript with its number, in row `at`.
fn push_row(out: &mut String, number: u64, at: u64, line: &[u8]) -> Result<(), AllocError>
    requires { at < 2 ^ 32 }
    ensures { OnOk result (string_bytes out.new ≡ string_bytes out.old ++ row_text number at line.now) }
{
    push_row_head(out, number, at)?;
    push_front(out, line, 36)?;
    Ok(())
}

/// A line in row `at`, where others follow.
fn push_next(out: &mut String, first: u64, at: u64, line: &String) -> Result<(), AllocError>
    requires row { at < 2 ^ 32 }
    requires below { first < 2 ^ 32 }
    ensures { (rest : List (List ℕ)) → OnOk result (string_bytes out.new ++ rows_text first (at + 1) rest ≡ string_bytes out.old ++ rows_text first at (string_bytes line.now ∷ rest)) }
{
    push_row(out, first + at, at, line.as_bytes())?;
    Ok(())
}

fn push_rows(out: &mut String, first: u64, lines: &[String]) -> Result<(), AllocError>
    requires few { length lines.now ≤ 1000 }
    requires below { first < 2 ^ 32 }
    ensures { OnOk result (string_bytes out.new ≡ string_bytes out.old ++ rows_text first 0 (map string_bytes lines.now)) }
{
    for (at, line) in lines.iter().enumerate() {
        push_next(out, first, at as u64, line)?;
    }
    Ok(())
}

fn push_head(out: &mut String, height: u64) -> Result<(), AllocError>
    ensures { OnOk result (string_bytes out.new ≡ string_bytes out.old ++ head_text height) }
{
    out.push_str(HEAD)?;
    write!(out, "{height}'>\n")?;
    out.push_str(STYLE)
}

/// The text of a picture: these lines, of which the first has the number `first`, and these shapes.
pub fn picture_text(
    alloc: Global,
    height: u64,
    first: u64,
    lines: &[String],
    shapes: &[Shape],
) -> Result<String, AllocError>
    requires few { length lines.now ≤ 1000 }
    requires below { first < 2 ^ 32 }
    ensures { IfOk result (λ text. string_bytes text ≡ picture_text height first (map string_bytes lines.now) shapes.now) }
{
    let mut out = String::new(alloc);
    push_head(&mut out, height)?;
    push_rows(&mut out, first, lines)?;
    push_shapes(&mut out, shapes)?;
    out.push_str("</svg>\n")?;
    Ok(out)
}
