//! Rows of frames.
use crate::fault::RowFault;
use crate::words::{bytes_of, word_of};
use frame_stream::stream::{FeedFault, Frames};
use std::alloc::Global;

/// More frames than a row has.
const MOST: usize = 1000;

/// Adds what the stream answers to a piece, if it is a refusal.
fn feed(
    alloc: Global,
    stream: &mut Frames,
    piece: &[u8],
    said: &mut String,
) -> Result<(), RowFault> {
    match stream.feed(piece) {
        Ok(()) => Ok(()),
        Err(FeedFault::NoMemory) => Err(RowFault::NoMemory),
        Err(FeedFault::TooLong { length }) => {
            let text = format!(in alloc; "too long {length}\n")?;
            said.push_str(text.as_str())?;
            Ok(())
        }
    }
}

/// Adds the frames that the stream gives, and its rest.
fn give(alloc: Global, stream: &mut Frames, said: &mut String) -> Result<(), RowFault> {
    for _ in 0..MOST {
        let Some(frame) = stream.next() else {
            break;
        };
        said.push_str("frame ")?;
        said.push_str(word_of(alloc, frame.as_slice())?.as_str())?;
        said.push_str("\n")?;
    }
    let rest = stream.rest();
    said.push_str(format!(in alloc; "rest {rest}")?.as_str())?;
    Ok(())
}

/// Says what the stream of some pieces gives.
pub fn say_frames(rt: &HostRuntime, pieces: &str) -> Result<(), RowFault> {
    let alloc = rt.alloc();
    let mut stream = Frames::new(alloc);
    let mut said = String::new(alloc);
    for word in pieces.split(' ') {
        let piece = bytes_of(alloc, word)?;
        feed(alloc, &mut stream, piece.as_slice(), &mut said)?;
    }
    give(alloc, &mut stream, &mut said)?;
    println!(rt; "{said}")?;
    Ok(())
}

/// What the stream of these bytes gives, if they come in two pieces.
fn said_at(alloc: Global, bytes: &[u8], at: usize) -> Result<String, RowFault> {
    let mut stream = Frames::new(alloc);
    let mut said = String::new(alloc);
    let (first, second) = bytes.split_at(at.min(bytes.len()));
    feed(alloc, &mut stream, first, &mut said)?;
    if said.is_empty() {
        feed(alloc, &mut stream, second, &mut said)?;
    }
    give(alloc, &mut stream, &mut said)?;
    Ok(said)
}

/// Says what the stream of these bytes gives, and whether it is the same wherever they are cut.
pub fn say_cuts(rt: &HostRuntime, word: &str) -> Result<(), RowFault> {
    let alloc = rt.alloc();
    let bytes = bytes_of(alloc, word)?;
    let whole = said_at(alloc, bytes.as_slice(), 0)?;
    println!(rt; "{whole}")?;
    let mut same = 0u64;
    for at in 0..bytes.len() {
        if said_at(alloc, bytes.as_slice(), at)?.as_str() == whole.as_str() {
            same = same.saturating_add(1);
        }
    }
    println!(rt; "the same at {same} cuts")?;
    Ok(())
}
