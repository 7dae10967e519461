//! What a bench is to do.
use crate::done::Stopped;
use smart_base::decimal::number_of;

/// How many times something is done.
pub fn count_of(words: &str) -> Result<u64, Stopped> {
    number_of(words.as_bytes()).ok_or(Stopped::Words)
}

/// How a log is filled: with so many groups of so many entries, in a file of this path.
#[derive(Clone, Copy, Debug)]
pub struct Fill<'w> {
    pub groups: u64,
    pub entries: u64,
    pub path: &'w str,
}

/// The numbers, and the path behind them, if there is one.
pub fn fill_of(words: &str) -> Result<Fill<'_>, Stopped> {
    let (groups, words) = words.split_once(' ').unwrap_or((words, ""));
    let (entries, path) = words.split_once(' ').unwrap_or((words, ""));
    Ok(Fill {
        groups: count_of(groups)?,
        entries: count_of(entries)?,
        path,
    })
}
