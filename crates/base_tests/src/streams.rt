//! Sources and sinks over readers and writers that fail in the middle.
use faults::Fault;
use smart_io::standard::{StdSink, StdSource};
use smart_io::stream::{Sink, Source, write_all};
use std::io::{self, Read, Write};

/// A reader and a writer that fail at every call.
#[derive(Drop)]
struct Broken;

impl Read for Broken {
    fn read(&mut self, _buf: &mut [u8]) -> io::Result<usize> {
        Err(io::ErrorKind::Other.into())
    }
}

impl Write for Broken {
    fn write(&mut self, _buf: &[u8]) -> io::Result<usize> {
        Err(io::ErrorKind::Other.into())
    }

    fn flush(&mut self) -> io::Result<()> {
        Err(io::ErrorKind::Other.into())
    }
}

const FAILED: Fault = Fault::Failed;

/// Whether a read into two dashes answers so and makes these bytes of them.
fn reads<S: Source>(source: &mut S, answer: Result<usize, Fault>, bytes: &[u8; 2]) -> bool {
    let mut piece = *b"--";
    let told = source.read(&mut piece);
    told == answer && piece == *bytes
}

/// Whether a write of all bytes answers so.
fn writes<O: Sink>(sink: &mut O, bytes: &[u8], answer: Result<(), Fault>) -> bool {
    write_all(sink, bytes) == answer
}

/// Whether a flush answers so.
fn flushes<O: Sink>(sink: &mut O, answer: Result<(), Fault>) -> bool {
    sink.flush() == answer
}

#[test]
fn a_source_fails_where_its_reader_does(rt: HostRuntime) {
    let mut source = StdSource {
        inner: b"abc".as_slice(),
        faults: 0,
    };
    assert!(rt; reads(&mut source, Ok(2), b"ab"));
    assert!(rt; source.faults == 0);
    let mut source = StdSource {
        inner: Broken,
        faults: 3,
    };
    assert!(rt; reads(&mut source, Err(FAILED), b"--"));
    assert!(rt; source.faults == 4);
}

#[test]
fn a_sink_fails_where_its_writer_is_full(rt: HostRuntime) {
    let mut sink = StdSink {
        inner: io::Cursor::new([0; 3]),
        faults: 0,
    };
    assert!(rt; writes(&mut sink, b"ab", Ok(())));
    assert!(rt; flushes(&mut sink, Ok(())));
    assert!(rt; sink.faults == 0);
    assert!(rt; writes(&mut sink, b"cd", Err(FAILED)));
    assert!(rt; sink.faults == 1);
    assert!(rt; sink.inner.into_inner() == *b"abc");
}

#[test]
fn a_sink_fails_where_its_writer_does(rt: HostRuntime) {
    let mut sink = StdSink {
        inner: Broken,
        faults: 0,
    };
    assert!(rt; writes(&mut sink, b"ab", Err(FAILED)));
    assert!(rt; flushes(&mut sink, Err(FAILED)));
    assert!(rt; sink.faults == 2);
}
