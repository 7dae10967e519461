//! The program `smart`: it makes the real input and outputs, and runs.
#![tactic(auto)]

use clock_gate::clock::RealClock;
use clock_gate::gate::OpenGate;
use node_rooms::disks::FileRoom;
use node_rooms::written::FileTrails;
use script_play::status::Status;
use smart_io::standard::{StdSink, StdSource};
use smart_top::report::report;
use smart_top::top::run;
use std::process::ExitCode;
use std::{env, io};

/// The words after the program's name. Words that are not UTF-8 are no command.
fn program_words(rt: &HostRuntime) -> Result<Vec<String>, Status> {
    let words = match env::args(rt) {
        Ok(words) => words,
        Err(error) => {
            return Err(if error.kind() == io::ErrorKind::OutOfMemory {
                Status::NoMemory
            } else {
                Status::Words
            });
        }
    };
    let mut rest = Vec::new(rt.alloc());
    for word in words.skip(1) {
        if rest.push(word).is_err() {
            return Err(Status::NoMemory);
        }
    }
    Ok(rest)
}

fn main(rt: HostRuntime) -> ExitCode {
    let mut input = StdSource {
        inner: rt.stdin(),
        faults: 0,
    };
    let mut output = StdSink {
        inner: rt.stdout(),
        faults: 0,
    };
    let mut errors = StdSink {
        inner: rt.stderr(),
        faults: 0,
    };
    let mut room = FileRoom::new(&rt, rt.alloc());
    let mut clock = RealClock::new(&rt);
    let mut trails = FileTrails::new(&rt, rt.alloc());
    let status = match program_words(&rt) {
        Ok(words) => {
            run(
                &rt,
                rt.alloc(),
                words.as_slice(),
                &mut input,
                &mut output,
                &mut errors,
                &mut room,
                &mut clock,
                &mut trails,
                &OpenGate,
            )
        }
        Err(status) => {
            report(rt.alloc(), &mut errors, status);
            status
        }
    };
    ExitCode::from(status.code())
}
