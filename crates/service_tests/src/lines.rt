//! Lines of a script that are read, and what is wrong with others.
use std::alloc::Global;
use std::process::Abort;
use world_rules::line::Kind;
use world_script::fault::LineFault;
use world_script::reading::read_line;

/// What is wrong with a line.
fn fault(rt: &impl Abort, alloc: Global, bytes: &[u8]) -> Option<Kind> {
    let kind = match read_line(alloc, bytes).err()? {
        LineFault::Kind { kind } => Some(kind),
        LineFault::NoMemory => None,
    };
    Some(kind.expect(rt, "there is memory"))
}

/// The least and the greatest numbers of each word.
#[test]
fn numbers_at_their_limits_are_read(rt: HostRuntime) {
    let alloc = rt.alloc();
    for line in [
        "ask 1024 5",
        "change 255 0 65535 0",
        "flow 65535 1",
        "again 0",
        "give 16777216 65535 c0 c1024",
        "told 0 1024",
        "disk 65535 1000",
        "faulty 65535",
        "rogue 0",
        "rogue 1024",
        "crash 65535 new 3@18446744073709551615=00ff1a 0@10=c0de",
        "restart 65535",
        "tick 65535",
        "inject ask 0 1 0 #",
        "inject ask 1024 9223372036854775807 18446744073709551615 #",
        "inject propose 65535 4294967295 9223372036854775807 4294967295 1 16777216",
        "inject write 1 0 1 0 16777216",
        "inject stop 65535 4294967295 4294967295",
        "inject stopdata 1 0 0 - 16777216",
        "inject sync 1 0 0 16777216",
        "inject reply 65535 4294967295 9223372036854775807 65535 1024 9223372036854775807 x",
        "inject reply 1 0 1 0 0 1 x",
        "inject view 65535 1023 9223372036854775808 1 1 2 3 65535",
        "inject view 1 0 1 0 1",
        "inject raw 00ff1a",
    ] {
        assert_eq!(rt; fault(&rt, alloc, line.as_bytes()), None, "{line}");
    }
}

/// Numbers past the least and the greatest of each word.
#[test]
fn numbers_past_their_limits_are_refused(rt: HostRuntime) {
    let alloc = rt.alloc();
    for line in [
        "ask 0 5",
        "ask 1025 5",
        "ask 01 5",
        "change 256 1",
        "change 0 65536",
        "flow 65536",
        "give 16777217 1",
        "give 1 c1025",
        "told 1 1025",
        "disk 1 1001",
        "faulty 0",
        "rogue 1025",
        "crash 1 old 4@0=00",
        "crash 1 old 0@18446744073709551616=00",
        "restart 65536",
        "tick 0",
        "inject ask 1 0 0 x",
        "inject ask 1 9223372036854775808 0 x",
        "inject ask 1 1 18446744073709551616 x",
        "inject propose 1 4294967296 1 0 1",
        "inject propose 1 0 0 0 1",
        "inject propose 1 0 9223372036854775808 0 1",
        "inject propose 1 0 1 4294967296 1",
        "inject propose 1 0 1 0 16777217",
        "inject accept 1 0 1 0 0",
        "inject stop 0 2 3",
        "inject stopdata 1 2 3 0 -",
        "inject sync 1 2 3 0",
        "inject reply 1 0 1 65536 1 1 x",
        "inject reply 1 0 1 0 1 0 x",
        "inject view 0 1 1 0 1",
        "inject view 1 1024 1 0 1",
        "inject view 1 1 0 0 1",
        "inject view 1 1 9223372036854775809 0 1",
        "inject view 1 1 1 11 1",
        "inject view 1 1 1 x 1",
        "inject view 1 1 1 0 0",
        "inject view 1 1 1 0 65536",
        "inject view 1 1 1 1 1 2 2 3",
        "inject view 1 1 1 1 2 1 3 4",
    ] {
        assert_eq!(rt;
            fault(&rt, alloc, line.as_bytes()),
            Some(Kind::Number),
            "{line}"
        );
    }
}

/// A text, and so many sevens behind it.
fn long(rt: &impl Abort, alloc: Global, start: &str, seven: &str, count: usize) -> String {
    let mut line = String::from_str(alloc, start).expect(rt, "there is memory");
    for _ in 0..count {
        line.push_str(seven).expect(rt, "there is memory");
    }
    line
}

#[test]
fn operations_batches_and_lines_have_limits(rt: HostRuntime) {
    let alloc = rt.alloc();
    for (start, seven, count, want) in [
        ("ask 1 ", "7", 4096, None),
        ("ask 1 ", "7", 4097, Some(Kind::Form)),
        ("ask x ", "7", 4097, Some(Kind::Number)),
        ("inject ask 1 2 3 ", "7", 4096, None),
        ("inject ask 1 2 3 ", "7", 4097, Some(Kind::Form)),
        ("inject reply 1 2 3 4 5 6 ", "7", 4096, None),
        ("inject reply 1 2 3 4 5 6 ", "7", 4097, Some(Kind::Form)),
        ("inject propose 1 0 1 0", " 7", 0, Some(Kind::Count)),
        ("inject propose 1 0 1 0", " 7", 64, None),
        ("inject propose 1 0 1 0", " 7", 65, Some(Kind::Count)),
        ("inject view 1 1 1", " 0", 1, Some(Kind::Count)),
        ("inject view 1 1 1 1", " 7", 3, Some(Kind::Count)),
        ("inject view 1 1 1 1", " 7", 4, Some(Kind::Number)),
        ("inject view 1 1 1 11", " 7", 31, Some(Kind::Number)),
        ("inject view 1 1 1 11", " 7", 32, Some(Kind::Count)),
        ("#", "7", 65535, None),
        ("#", "7", 65536, Some(Kind::Long)),
        ("#\t", "7", 65535, Some(Kind::Byte)),
        ("#\t", "7", 65536, Some(Kind::Byte)),
    ] {
        let line = long(&rt, alloc, start, seven, count);
        let found = fault(&rt, alloc, line.as_bytes());
        assert_eq!(rt; found, want, "{start} and {count}");
    }
}
