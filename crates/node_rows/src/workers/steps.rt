//! The steps of a row.
use crate::fault::RowFault;
use std::alloc::Global;

/// A step of a row.
#[derive(Clone, Copy, Debug)]
pub enum Step {
    /// An entry that decides this place is put into the lane.
    Put(u8),
    /// A round of the worker of the log.
    Round,
    /// A round of the worker of checkpoints.
    Check,
}

/// The step that a word names: `round`, `check`, or the place that an entry decides.
fn step_of(word: &str) -> Option<Step> {
    match word {
        "round" => Some(Step::Round),
        "check" => Some(Step::Check),
        _ => Some(Step::Put(word.parse::<u8>().ok()?)),
    }
}

/// The steps that words name, in order.
pub fn steps_of(alloc: Global, words: &str) -> Result<Vec<Step>, RowFault> {
    let mut steps = Vec::new(alloc);
    for word in words.split(' ') {
        match step_of(word) {
            Some(step) => steps.push(step)?,
            None => return Err(RowFault::Word),
        }
    }
    Ok(steps)
}
