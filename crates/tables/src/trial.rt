//! Tries the rows of a table.
use crate::change::{Change, bytes_with, change_of, front_of};
use crate::fault::RowFault;
use crate::names::{Names, number_of};
use crate::table::Table;

/// How many cases of a table were tried, how many are not as their rows say, and the number of
/// cases that the table tells itself, if it does.
#[derive(Clone, Copy)]
pub struct Tally {
    pub cases: usize,
    pub wrong: usize,
    pub told: Option<usize>,
}

impl Tally {
    fn count(&mut self, is_wanted: bool) {
        self.cases = self.cases.saturating_add(1);
        if !is_wanted {
            self.wrong = self.wrong.saturating_add(1);
        }
    }
}

/// A row that is tried: where it stands, what it says, and all of its parts but the last.
#[derive(Drop)]
struct Row<'a> {
    table: Table,
    line: usize,
    wanted: &'a str,
    heads: &'a [Vec<u8>],
}

impl Row<'_> {
    /// Says what a case is, where the row says otherwise.
    fn say(&self, rt: &HostRuntime, told: &str, len: usize) -> Result<(), RowFault> {
        let (name, line, wanted) = (self.table.name(), self.line, self.wanted);
        println!(rt; "{name}, line {line}: {told} in place of {wanted}, of {len} bytes")?;
        Ok(())
    }

    /// Tries one case.
    fn try_case(&self, rt: &HostRuntime, bytes: &[u8], tally: &mut Tally) -> Result<(), RowFault> {
        let told = self.table.told(rt.alloc(), self.heads, bytes)?;
        let is_wanted = told.as_str() == self.wanted;
        if !is_wanted {
            self.say(rt, told.as_str(), bytes.len())?;
        }
        tally.count(is_wanted);
        Ok(())
    }

    /// Tries the cases that a change makes.
    fn try_change(
        &self,
        rt: &HostRuntime,
        bytes: &[u8],
        change: Change,
        tally: &mut Tally,
    ) -> Result<(), RowFault> {
        match change {
            Change::Fronts(lengths) => {
                for len in lengths.first..=lengths.last {
                    let front = front_of(rt.alloc(), bytes, len)?;
                    self.try_case(rt, front.as_slice(), tally)?;
                }
            }
            Change::Bytes { offsets, values } => {
                for offset in offsets.first..=offsets.last {
                    for value in values.first..=values.last {
                        let changed = bytes_with(rt.alloc(), bytes, offset, value)?;
                        self.try_case(rt, changed.as_slice(), tally)?;
                    }
                }
            }
        }
        Ok(())
    }

    /// Tries the cases of some changes, or the one case where there are none.
    fn try_changes(
        &self,
        rt: &HostRuntime,
        bytes: &[u8],
        changes: &str,
        tally: &mut Tally,
    ) -> Result<(), RowFault> {
        if changes.is_empty() {
            return self.try_case(rt, bytes, tally);
        }
        for word in changes.split_whitespace() {
            self.try_change(rt, bytes, change_of(word)?, tally)?;
        }
        Ok(())
    }
}

/// Tries a row: what is wanted, the parts, and the changes if there are any.
fn try_row(
    rt: &HostRuntime,
    table: Table,
    names: &Names,
    line: usize,
    text: &str,
    tally: &mut Tally,
) -> Result<(), RowFault> {
    let (wanted, text) = text.split_once(' ').ok_or(RowFault::Word)?;
    let (parts, changes) = text.split_once(';').unwrap_or((text, ""));
    let parts = names.parts_of(parts)?;
    let (bytes, heads) = parts.as_slice().split_last().ok_or(RowFault::Word)?;
    let row = Row {
        table,
        line,
        wanted,
        heads,
    };
    row.try_changes(rt, bytes.as_slice(), changes, tally)
}

/// Takes a line: a name with its words, the number of cases, or a row.
fn try_line(
    rt: &HostRuntime,
    table: Table,
    names: &mut Names,
    line: usize,
    text: &str,
    tally: &mut Tally,
) -> Result<(), RowFault> {
    if text.is_empty() || text.starts_with('#') {
        return Ok(());
    }
    if let Some((name, words)) = text.split_once(" = ") {
        return names.give(name, words);
    }
    if let Some(number) = text.strip_prefix("cases ") {
        tally.told = Some(number_of(number)?);
        return Ok(());
    }
    try_row(rt, table, names, line, text, tally)
}

/// Tries the rows of a table's text.
pub fn try_table(rt: &HostRuntime, table: Table, text: &str) -> Result<Tally, RowFault> {
    let mut names = Names::new(rt.alloc());
    let mut tally = Tally {
        cases: 0,
        wrong: 0,
        told: None,
    };
    for (index, text) in text.lines().enumerate() {
        let line = index.saturating_add(1);
        match try_line(rt, table, &mut names, line, text, &mut tally) {
            Err(RowFault::Word) => {
                let name = table.name();
                println!(rt; "{name}, line {line}: no row")?;
                tally.count(false);
            }
            tried => tried?,
        }
    }
    Ok(tally)
}
