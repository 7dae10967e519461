//! The audits of the fronts of a trail.
use crate::fault::RowFault;
use crate::steps::bytes_of;
use crate::verdict::{Verdict, verdict_of};

/// Fronts of several lengths, all of whose audits end alike.
#[derive(Drop)]
struct Alike {
    first: usize,
    last: usize,
    verdict: Verdict,
}

/// Says of which lengths the fronts are, and how their audits end.
fn say(rt: &HostRuntime, alike: &Alike) -> Result<(), RowFault> {
    let Alike {
        first,
        last,
        verdict,
    } = alike;
    let text = verdict.text.as_str();
    if first == last {
        println!(rt; "{first}: {text}")?;
    } else {
        println!(rt; "{first}-{last}: {text}")?;
    }
    Ok(())
}

/// Takes the next front: among those that end alike, or as the first of others.
fn take_front(
    rt: &HostRuntime,
    alike: Option<Alike>,
    length: usize,
    verdict: Verdict,
) -> Result<Alike, RowFault> {
    let Some(before) = alike else {
        return Ok(Alike {
            first: length,
            last: length,
            verdict,
        });
    };
    if before.verdict.text == verdict.text {
        return Ok(Alike {
            first: before.first,
            last: length,
            verdict,
        });
    }
    say(rt, &before)?;
    Ok(Alike {
        first: length,
        last: length,
        verdict,
    })
}

/// Audits each proper front of the bytes of a word, and says how these audits end.
pub fn say_fronts(rt: &HostRuntime, word: &str) -> Result<(), RowFault> {
    let bytes = bytes_of(rt.alloc(), word)?;
    let mut alike = None;
    for length in 0..bytes.len() {
        let (front, _) = bytes.as_slice().split_at(length);
        let verdict = verdict_of(rt.alloc(), front)?;
        alike = Some(take_front(rt, alike, length, verdict)?);
    }
    match alike {
        Some(alike) => say(rt, &alike),
        None => Ok(()),
    }
}
