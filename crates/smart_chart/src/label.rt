//! The texts beside arrows and figures.

use crate::picture::{Shape, Side};
use crate::scene::{Happening, Message};
use std::alloc::{AllocError, Global};
use std::fmt::Write;

/// A field behind its name. One that is empty is left out.
fn push_field(text: &mut String, name: &str, value: &str) -> Result<(), AllocError> {
    if name == "-" || value.is_empty() {
        return Ok(());
    }
    if name == "=" {
        write!(text, " {value}")
    } else {
        write!(text, " {name} {value}")
    }
}

fn push_fields(text: &mut String, names: &str, values: &str) -> Result<(), AllocError> {
    let mut values = values.split(' ');
    for name in names.split(' ') {
        if let Some(value) = values.next() {
            push_field(text, name, value)?;
        }
    }
    Ok(())
}

/// The kind of a message, its number and its fields.
pub fn message_text(alloc: Global, message: Message<'_>) -> Result<String, AllocError> {
    let (kind, number) = (message.kind.name(), message.number);
    let mut text = format!(in alloc; "{kind} {number}")?;
    push_fields(&mut text, message.kind.field_names(), message.fields)?;
    Ok(text)
}

/// The word of what happens, and those behind it.
pub fn happening_text(alloc: Global, happening: Happening<'_>) -> Result<String, AllocError> {
    let (word, rest) = (happening.word, happening.rest);
    if rest.is_empty() {
        return String::from_str(alloc, word);
    }
    format!(in alloc; "{word} {rest}")
}

/// A text beside a point, on the side towards the middle of the picture.
pub fn label(x: u64, y: u64, text: String) -> Shape {
    if x < 740 {
        Shape::Label {
            side: Side::Right,
            x: x.saturating_add(11),
            y,
            text,
        }
    } else {
        Shape::Label {
            side: Side::Left,
            x: x.saturating_sub(11),
            y,
            text,
        }
    }
}
