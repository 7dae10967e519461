//! Reads rows, one a line of the input, and says of each what the words of commands, frames, trails,
//! rooms and workers make of it.
#![tactic(auto)]

mod commands;
mod fault;
mod frames;
mod rooms;
mod trails;
mod words;
mod workers;

use crate::commands::say_command;
use crate::fault::RowFault;
use crate::frames::{say_cuts, say_frames};
use crate::rooms::{say_clock, say_disks, say_trail};
use crate::trails::{say_event, say_opening};
use crate::workers::say_rounds;
use std::sync::Wait;

/// Plays a row.
fn play<R: Wait>(handle: &R, rt: &HostRuntime, row: &str) -> Result<(), RowFault> {
    let (word, rest) = row.split_once(' ').unwrap_or((row, ""));
    match word {
        "smart" => say_command(rt, row),
        "frames" => say_frames(rt, rest),
        "cuts" => say_cuts(rt, rest),
        "event" => say_event(rt, rest),
        "opening" => say_opening(rt, rest),
        "disks" => say_disks(rt, rest),
        "trail" => say_trail(rt, rest),
        "clock" => say_clock(rt),
        "rounds" => say_rounds(handle, rt, rest),
        _ => Err(RowFault::Word),
    }
}

fn main(rt: HostRuntime) -> Result<(), RowFault> {
    for row in rt.lines(rt.alloc()) {
        let row = row?;
        println!(rt; "$ {row}")?;
        play(&rt, &rt, row.as_str())?;
    }
    Ok(())
}
