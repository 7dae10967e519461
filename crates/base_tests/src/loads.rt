//! The scripts of loads, against those of a generator in another language, which knows this one not.
use load_maker::script::LoadScript;
use std::alloc::{AllocError, Global};
use std::process::Abort;

/// The script of a load of 1 ask.
const ONE: &str = "group 4 1\napp count\nperiod 16\nask 1 91\nflow\n";

/// The script of a load of 2 asks.
const TWO: &str = "group 4 1\napp count\nperiod 16\nask 1 88\nask 2 93\nflow\n";

/// The script of a load of 65 asks: in it somebody crashes.
const SIXTY_FIVE: &str =
    "group 4 1\napp count\nperiod 16\nask 1 87\nask 2 80\nask 3 61\nask 4 62\nask 5 47\n\
     ask 6 100\nask 7 33\nask 8 90\nflow\nask 1 55\nask 2 48\nask 3 45\nask 4 94\n\
     ask 5 95\nask 6 76\nask 7 21\nask 8 42\nflow\nask 1 23\nask 2 72\nask 3 93\n\
     ask 4 98\nask 5 83\nask 6 44\nask 7 21\nask 8 58\nflow\nask 1 47\nask 2 12\n\
     ask 3 73\nask 4 42\nask 5 95\nask 6 48\nask 7 49\nask 8 78\nflow\nask 1 95\n\
     ask 2 60\nask 3 5\nask 4 46\nask 5 19\nask 6 84\nask 7 65\nask 8 66\nflow\n\
     ask 1 47\nask 2 48\nask 3 49\nask 4 90\nask 5 11\nask 6 72\nask 7 93\nask 8 82\n\
     flow\nask 1 67\nask 2 44\nask 3 61\nask 4 46\nask 5 27\nask 6 76\nask 7 21\n\
     ask 8 46\nflow\nask 1 51\nask 2 44\nask 3 73\nask 4 22\nask 5 67\nask 6 24\n\
     ask 7 53\nask 8 38\nflow\ncrash 3 new\nrestart 3\nask 1 8\nflow\n";

/// The whole script of a load, with a line feed behind each line. Error: want of memory.
fn script_text(alloc: Global, count: u32) -> Result<String, AllocError> {
    let mut text = String::new(alloc);
    let mut script = LoadScript::new(count);
    while let Some(line) = script.next() {
        line.put(&mut text)?;
        text.push_str("\n")?;
    }
    Ok(text)
}

/// Whether a load of so many asks has this script.
fn has_text(rt: &impl Abort, alloc: Global, count: u32, wanted: &str) -> bool {
    let text = script_text(alloc, count).expect(rt, "there is memory");
    text.as_str() == wanted
}

#[test]
fn loads_have_these_scripts(rt: HostRuntime) {
    assert!(rt; has_text(&rt, rt.alloc(), 1, ONE));
    assert!(rt; has_text(&rt, rt.alloc(), 2, TWO));
    assert!(rt; has_text(&rt, rt.alloc(), 65, SIXTY_FIVE));
}
