//! Plays the scripts that lie in the folder where the program runs, and says of each whether its transcript and its status
//! are those of the files beside it. A case may have words of its own, such as those of a load.

ghost use Rattle.std.specs.Prelude.{◌≡◌, ◌↔◌, IsNone};

use clock_gate::clock::RealClock;
use clock_gate::gate::OpenGate;
use disk_model::room::MemRoom;
use node_rooms::memory::MemTrails;
use smart_io::memory::{MemSink, MemSource};
use smart_top::top::run;
use std::alloc::Global;
use std::io::Write;
use std::rt::Clock;
use std::sync::Wait;
use std::thread::Threads;
use std::{fs, io};

/// What a run wrote, and how it ended: its exit status and the line that it said on standard error.
#[derive(Drop)]
struct Ending {
    written: Vec<u8>,
    status: Vec<u8>,
}

/// The names of the scripts in this folder, ascending.
fn case_names(rt: &HostRuntime) -> io::Result<Vec<String>> {
    let mut names = Vec::new(rt.alloc());
    for entry in fs::read_dir(rt, ".")? {
        let entry = entry?;
        if let Some(name) = entry.file_name().strip_suffix(".smart") {
            names.push(String::from_str(rt.alloc(), name)?)?;
        }
    }
    names.sort()?;
    Ok(names)
}

/// The script of a case.
fn script_of(rt: &HostRuntime, name: &str) -> io::Result<Vec<u8>> {
    let path = format!(in rt.alloc(); "{name}.smart")?;
    fs::read(rt, path.as_str())
}

/// A file of a case, or what it stands for where there is none.
fn part_or(rt: &HostRuntime, name: &str, part: &str, other: &[u8]) -> io::Result<Vec<u8>> {
    let path = format!(in rt.alloc(); "{name}.{part}")?;
    match fs::read(rt, path.as_str()) {
        Err(error) if error.kind() == io::ErrorKind::NotFound => Ok(other.to_vec(rt.alloc())?),
        read => read,
    }
}

/// The words with which a case is run, each behind a space but the first: those of its file, or `world`.
fn words_of(rt: &HostRuntime, name: &str) -> io::Result<Vec<String>> {
    let alloc = rt.alloc();
    let path = format!(in alloc; "{name}.words")?;
    let text = match fs::read_to_string(rt, path.as_str()) {
        Err(error) if error.kind() == io::ErrorKind::NotFound => String::from_str(alloc, "world")?,
        read => read?,
    };
    let mut words = Vec::new(alloc);
    for word in text.as_str().trim_end().split(' ') {
        words.push(String::from_str(alloc, word)?)?;
    }
    Ok(words)
}

/// What a case is to write, and how it is to end.
fn wanted_ending(rt: &HostRuntime, name: &str) -> io::Result<Ending> {
    Ok(Ending {
        written: part_or(rt, name, "out", b"")?,
        status: part_or(rt, name, "status", b"0\n")?,
    })
}

/// The status of a run as a case's file tells it: the number, and what was said.
fn status_line(alloc: Global, code: u8, said: &[u8]) -> io::Result<Vec<u8>> {
    let mut line = Vec::new(alloc);
    write!(&mut line, "{code}")?;
    if said.is_empty() {
        line.push(b'\n')?;
    } else {
        line.push(b' ')?;
        line.extend_from_slice(said)?;
    }
    Ok(line)
}

/// Runs the words of a case over its script.
fn play<R: Clock + Threads + Wait + Sync>(
    rt: &R,
    alloc: Global,
    words: &[String],
    script: Vec<u8>,
) -> io::Result<Ending> {
    let mut input = MemSource::new(script, Vec::new(alloc));
    let mut output = MemSink::new(Vec::new(alloc), Vec::new(alloc));
    let mut errors = MemSink::new(Vec::new(alloc), Vec::new(alloc));
    let status = run(
        rt,
        alloc,
        words,
        &mut input,
        &mut output,
        &mut errors,
        &mut MemRoom::new(alloc),
        &mut RealClock::new(rt),
        &mut MemTrails::new(alloc, 0, 0),
        &OpenGate,
    );
    let status = status_line(alloc, status.code(), errors.bytes.as_slice())?;
    Ok(Ending {
        written: output.bytes,
        status,
    })
}

/// The first line, counted from 1, in which two texts differ; none where they are equal.
fn differing_line(played: &[u8], wanted: &[u8]) -> Option<u64>
    ensures { IsNone result ↔ (played.now ≡ wanted.now) }
{
    if played == wanted {
        return None;
    }
    let mut line = 1u64;
    for (byte, other) in played.iter().zip(wanted) {
        if byte != other {
            break;
        }
        if *byte == b'\n' {
            line = line.saturating_add(1);
        }
    }
    Some(line)
}

/// Says of a case in which line its transcript differs, and how its status does, or that it is as wanted. Answers whether
/// it is.
fn say(rt: &HostRuntime, name: &str, played: &Ending, wanted: &Ending) -> io::Result<bool> {
    let line = differing_line(played.written.as_slice(), wanted.written.as_slice());
    if let Some(line) = line {
        println!(rt; "{name} differs at line {line}")?;
    }
    let status = played.status.trim_ascii_end();
    let other = wanted.status.trim_ascii_end();
    if status != other {
        let (status, other) = (status.escape_ascii(), other.escape_ascii());
        println!(rt; "{name} status {status}, wanted {other}")?;
    }
    let is_wanted = line.is_none() && status == other;
    if is_wanted {
        println!(rt; "{name} ok")?;
    }
    Ok(is_wanted)
}

/// Plays the scripts of this folder, and says how each went. Answers whether all went as their files say.
pub fn play_scripts<R: Clock + Threads + Wait + Sync>(
    handle: &R,
    rt: &HostRuntime,
) -> io::Result<bool> {
    let mut all = true;
    for name in case_names(rt)?.iter() {
        let name = name.as_str();
        let wanted = wanted_ending(rt, name)?;
        let words = words_of(rt, name)?;
        let script = script_of(rt, name)?;
        let played = play(handle, rt.alloc(), words.as_slice(), script)?;
        if !say(rt, name, &played, &wanted)? {
            all = false;
        }
    }
    Ok(all)
}
