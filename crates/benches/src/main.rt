//! Does the benches that its words name, for the scripts of `bench/` to time and measure from outside. A
//! word is one bench with its numbers, as `digest 20000`. A line of the output repeats the word and
//! says how much was done.
#![tactic(auto)]

mod bytes;
mod done;
mod groups;
mod lanes;
mod openings;
mod snapshot_head;
mod text;
mod transfers;
mod wanted;

use crate::done::{Done, Stopped};
use crate::lanes::{by_lane, by_queue};
use crate::transfers::transfer;
use crate::wanted::{count_of, fill_of};
use std::process::ExitCode;
use std::{env, io};

/// Does the bench of this name, one in one thread, with the words after it.
fn work(rt: &HostRuntime, bench: &str, words: &str) -> Result<Done, Stopped> {
    match bench {
        "memory" => groups::in_memory(rt.alloc(), fill_of(words)?),
        "file" => groups::in_file(rt, fill_of(words)?),
        "opening" => openings::open(rt, words),
        _ => bytes::work(rt.alloc(), bench, count_of(words)?),
    }
}

/// Says what the bench that a word names has done. Answers the exit status.
fn say(rt: &HostRuntime, word: &str, ended: Result<Done, Stopped>) -> io::Result<u8> {
    match ended {
        Ok(done) => {
            println!(rt; "{word} {} {}", done.amount, done.sum)?;
            Ok(0)
        }
        Err(stopped) => Ok(stopped.status()),
    }
}

/// Takes over a replica, and says of how many bytes and parts it was joined, and how many bytes its state
/// has. Answers the exit status.
fn say_transfer(rt: &HostRuntime, word: &str, words: &str) -> io::Result<u8> {
    match transfer(rt.alloc(), words) {
        Ok(taken) => {
            println!(rt; "{word} {} {} {}", taken.bytes, taken.parts, taken.state)?;
            Ok(0)
        }
        Err(stopped) => Ok(stopped.status()),
    }
}

fn main(rt: HostRuntime) -> io::Result<ExitCode> {
    let mut status = 0;
    for word in env::args(&rt)?.skip(1) {
        let (bench, words) = word.split_once(' ').unwrap_or((word.as_str(), ""));
        status = match bench {
            "transfer" => say_transfer(&rt, word.as_str(), words)?,
            "lane" => say(&rt, word.as_str(), by_lane(&rt, rt.alloc(), words))?,
            "queue" => say(&rt, word.as_str(), by_queue(&rt, rt.alloc(), words))?,
            _ => say(&rt, word.as_str(), work(&rt, bench, words))?,
        };
        if status != 0 {
            break;
        }
    }
    Ok(ExitCode::from(status))
}
