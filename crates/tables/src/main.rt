//! Compares what the libraries make of the rows in the folder where it runs with what each row says.
#![tactic(auto)]

mod admission;
mod change;
mod fault;
mod names;
mod plans;
mod proofs_of;
mod spelling;
mod table;
mod trial;

use crate::fault::RowFault;
use crate::table::{TABLES, Table};
use crate::trial::{Tally, try_table};
use std::alloc::AllocError;
use std::process::ExitCode;
use std::{fs, io};

/// The text of a table.
fn text_of(rt: &HostRuntime, table: Table) -> io::Result<String> {
    let name = table.name();
    let path = format!(in rt.alloc(); "{name}.rows")?;
    fs::read_to_string(rt, path.as_str())
}

/// Says whether all cases of a table are as their rows say, and are as many as the table tells.
/// Answers the same.
fn say(rt: &HostRuntime, table: Table, tally: Tally) -> io::Result<bool> {
    let name = table.name();
    let Tally { cases, wrong, told } = tally;
    let is_whole = told == Some(cases);
    if !is_whole {
        println!(rt; "{name}: {cases} cases, which is not the number that its last line tells")?;
    }
    if wrong != 0 {
        println!(rt; "{name}: {wrong} of {cases} cases differ")?;
    }
    let is_ok = is_whole && wrong == 0;
    if is_ok {
        println!(rt; "{name}: ok")?;
    }
    Ok(is_ok)
}

/// Tries a table and says how that ended. Answers whether all of it is as its rows say.
fn try_and_say(rt: &HostRuntime, table: Table) -> Result<bool, RowFault> {
    let text = text_of(rt, table)?;
    let tally = try_table(rt, table, text.as_str())?;
    Ok(say(rt, table, tally)?)
}

fn try_all(rt: &HostRuntime) -> Result<ExitCode, RowFault> {
    let mut status = ExitCode::SUCCESS;
    for table in TABLES {
        if !try_and_say(rt, table)? {
            status = ExitCode::FAILURE;
        }
    }
    Ok(status)
}

fn main(rt: HostRuntime) -> io::Result<ExitCode> {
    match try_all(&rt) {
        Ok(status) => Ok(status),
        Err(RowFault::Output(error)) => Err(error),
        Err(RowFault::NoMemory | RowFault::Word) => Err(AllocError.into()),
    }
}
