//! The program `smart_chart`: it reads a transcript and writes its picture.
#![tactic(auto)]

mod chart;
mod label;
mod laws;
mod lines;
mod party;
mod picture;
mod reading;
mod scene;
mod top;

use crate::top::{Status, run, said};
use smart_io::standard::{StdSink, StdSource};
use smart_io::stream::{Sink, write_all};
use std::process::ExitCode;
use std::{env, io};

/// The words after the program's name. Words that are not UTF-8 are no range.
fn program_words(rt: &HostRuntime) -> Result<Vec<String>, Status> {
    let words = match env::args(rt) {
        Ok(words) => words,
        Err(error) => {
            return Err(if error.kind() == io::ErrorKind::OutOfMemory {
                Status::NoMemory
            } else {
                Status::Words
            });
        }
    };
    let mut rest = Vec::new(rt.alloc());
    for word in words.skip(1) {
        if rest.push(word).is_err() {
            return Err(Status::NoMemory);
        }
    }
    Ok(rest)
}

fn main(rt: HostRuntime) -> ExitCode {
    let mut input = StdSource {
        inner: rt.stdin(),
        faults: 0,
    };
    let mut output = StdSink {
        inner: rt.stdout(),
        faults: 0,
    };
    let mut errors = StdSink {
        inner: rt.stderr(),
        faults: 0,
    };
    let status = match program_words(&rt) {
        Ok(words) => run(rt.alloc(), words.as_slice(), &mut input, &mut output),
        Err(status) => status,
    };
    let _ = write_all(&mut errors, said(status).as_bytes());
    let _ = errors.flush();
    ExitCode::from(status.code())
}
