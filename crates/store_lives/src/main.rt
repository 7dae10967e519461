//! Plays the lives of stores that lie in the folder where it runs, and compares what each step tells
//! with what the life says.
#![tactic(auto)]

mod disk;
mod images;
mod life;
mod words;

use crate::images::empty_disks;
use crate::life::{Stage, play};
use std::alloc::Global;
use std::process::ExitCode;
use std::{fs, io};

/// How many lives went as they say, and whether one did not.
#[derive(Clone, Copy)]
struct Tally {
    lives: u64,
    differs: bool,
}

/// The names of the files in this folder that have lives, ascending.
fn names(rt: &HostRuntime) -> io::Result<Vec<String>> {
    let mut names = Vec::new(rt.alloc());
    for entry in fs::read_dir(rt, ".")? {
        let entry = entry?;
        if entry.file_name().ends_with(".lives") {
            names.push(String::from_str(rt.alloc(), entry.file_name())?)?;
        }
    }
    names.sort()?;
    Ok(names)
}

/// Whether a step told what the life says. Says where it told something else, and what it told where
/// the life asks.
fn agrees(rt: &HostRuntime, name: &str, line: u64, told: &str, wanted: &str) -> io::Result<bool> {
    if told == wanted {
        return Ok(true);
    }
    if wanted == "?" {
        println!(rt; "{name}, line {line}: {told}")?;
        return Ok(true);
    }
    println!(rt; "{name}, line {line}: {told} in place of {wanted}")?;
    Ok(false)
}

/// Says where a line is no step, and that it did not tell what the life says.
fn refused(rt: &HostRuntime, name: &str, line: u64, why: io::Error) -> io::Result<bool> {
    if why.kind() != io::ErrorKind::InvalidData {
        return Err(why);
    }
    println!(rt; "{name}, line {line}: {why}")?;
    Ok(false)
}

/// The names that a file gives to words, in order.
fn named(alloc: Global, text: &str) -> io::Result<Vec<(&str, &str)>> {
    let mut named = Vec::new(alloc);
    for line in text.lines() {
        if let Some(words) = line.strip_prefix("let ") {
            named.push(words.split_once(' ').unwrap_or((words, "")))?;
        }
    }
    Ok(named)
}

/// A line with the words of each name in its place. The last name goes first, so that its words may have
/// names before it.
fn spelled_out(alloc: Global, named: &[(&str, &str)], text: &str) -> io::Result<String> {
    let mut line = String::from_str(alloc, text)?;
    for (name, words) in named.iter().rev() {
        line = line.replace(alloc, *name, words)?;
    }
    Ok(line)
}

/// Plays a line with names in it: a step, and after ` = ` what it tells. Answers whether it did.
fn play_line(
    rt: &HostRuntime,
    name: &str,
    line: u64,
    stage: &mut Stage,
    named: &[(&str, &str)],
    text: &str,
) -> io::Result<bool> {
    let text = spelled_out(rt.alloc(), named, text)?;
    let (step, wanted) = text.split_once(" = ").unwrap_or((text.as_str(), ""));
    match play(rt.alloc(), stage, step) {
        Ok(told) => agrees(rt, name, line, told.as_str(), wanted),
        Err(why) => refused(rt, name, line, why),
    }
}

/// Disks that hold nothing, and nothing over them.
fn fresh(rt: &HostRuntime) -> io::Result<Stage> {
    Ok(Stage::Down(empty_disks(rt.alloc())?))
}

/// Takes a line: none, the beginning of a life, or a step. Answers whether it went as the life says.
fn take_line(
    rt: &HostRuntime,
    name: &str,
    line: u64,
    stage: &mut Stage,
    lives: &mut u64,
    named: &[(&str, &str)],
    text: &str,
) -> io::Result<bool> {
    if text.is_empty() || text.starts_with('#') || text.starts_with("let ") {
        return Ok(true);
    }
    if text.starts_with("life ") {
        *stage = fresh(rt)?;
        *lives = lives.saturating_add(1);
        return Ok(true);
    }
    play_line(rt, name, line, stage, named, text)
}

/// Plays the lines of a file, up to the first that tells something else.
fn play_lines(
    rt: &HostRuntime,
    name: &str,
    named: &[(&str, &str)],
    text: &str,
    tally: &mut Tally,
) -> io::Result<()> {
    let mut stage = fresh(rt)?;
    let mut lives = 0u64;
    let mut differs = false;
    for (line, text) in (1u64..).zip(text.lines()) {
        if !take_line(rt, name, line, &mut stage, &mut lives, named, text)? {
            differs = true;
            lives = lives.saturating_sub(1);
            break;
        }
    }
    tally.count(lives, differs);
    Ok(())
}

/// Plays the lives of a file, up to the first line that tells something else.
fn play_file(rt: &HostRuntime, name: &str, tally: &mut Tally) -> io::Result<()> {
    let text = fs::read_to_string(rt, name)?;
    let named = named(rt.alloc(), text.as_str())?;
    play_lines(rt, name, named.as_slice(), text.as_str(), tally)
}

impl Tally {
    /// Counts the lives of a file that went as they say, and whether one did not.
    fn count(&mut self, lives: u64, differs: bool) {
        self.lives = self.lives.saturating_add(lives);
        self.differs |= differs;
    }
}

fn main(rt: HostRuntime) -> io::Result<ExitCode> {
    let mut tally = Tally {
        lives: 0,
        differs: false,
    };
    for name in names(&rt)?.iter() {
        play_file(&rt, name.as_str(), &mut tally)?;
    }
    let lives = tally.lives;
    println!(&rt; "{lives} lives agree")?;
    if tally.differs {
        return Ok(ExitCode::FAILURE);
    }
    Ok(ExitCode::SUCCESS)
}
