//! Plays the scripts of its folder, and says whether their transcripts are those of the files there. Then it plays lives
//! of a member, other runs, and audits, one a line of the input, and says how each ends and what it leaves.
#![tactic(auto)]

mod case;
mod course;
mod ends;
mod fault;
mod fronts;
mod gates;
mod life;
mod rooms;
mod runs;
mod scripts;
mod signs;
mod steps;
mod verdict;

use crate::case::case_of;
use crate::fault::RowFault;
use crate::fronts::say_fronts;
use crate::rooms::Rooms;
use crate::runs::say_status;
use crate::scripts::play_scripts;
use crate::verdict::say_whole;
use std::process::ExitCode;
use std::sync::Wait;
use std::thread::Threads;

/// Repeats a row, unless it is a long one: one of trails to be audited.
fn repeat(rt: &HostRuntime, row: &str) -> Result<(), RowFault> {
    if !row.starts_with("whole ") && !row.starts_with("fronts ") {
        println!(rt; "$ {row}")?;
    }
    Ok(())
}

/// Plays a row. A remark is only repeated.
fn play<R: Threads + Wait + Sync>(
    handle: &R,
    rt: &HostRuntime,
    rooms: &mut Rooms,
    row: &str,
) -> Result<(), RowFault> {
    let (word, rest) = row.split_once(' ').unwrap_or((row, ""));
    match word {
        "#" => Ok(()),
        "new" => rooms.clear(rt),
        "device" => rooms.let_fail(rt.alloc(), rest),
        "taken" => rooms.take(rt.alloc(), rest),
        "move" => rooms.move_devices(rt.alloc(), rest),
        "memory" => rooms.live_in_memory(handle, rt, case_of(rt.alloc(), rest)?),
        "files" => rooms.live_in_files(handle, rt, case_of(rt.alloc(), rest)?),
        "restored" => rooms.say_restored(rt, rest),
        "bytes" => rooms.say_bytes(rt),
        "run" => rooms.run_in_memory(handle, rt, case_of(rt.alloc(), rest)?),
        "said" => say_status(rt, rest),
        "whole" => say_whole(rt, rest),
        "fronts" => say_fronts(rt, rest),
        _ => Err(RowFault::Word),
    }
}

fn main(rt: HostRuntime) -> Result<ExitCode, RowFault> {
    let status = match play_scripts(&rt, &rt)? {
        true => ExitCode::SUCCESS,
        false => ExitCode::FAILURE,
    };
    let mut rooms = Rooms::new(rt.alloc());
    for row in rt.lines(rt.alloc()) {
        let row = row?;
        repeat(&rt, row.as_str())?;
        play(&rt, &rt, &mut rooms, row.as_str())?;
    }
    Ok(status)
}
