//! The opening of a store whose log of the even generations is a file, entry by entry, for
//! `bench/opening.sh`. No entry is kept.

use crate::done::{Done, Stopped, stop_of};
use disk_files::file::FileDisk;
use durable_store::disks::Disks;
use durable_store::opening::Opening;
use durable_store::store::Store;
use std::alloc::Global;
use std::fs::OpenOptions;
use std::io;
use store_form::ends::LogFault;

/// The path of a device that holds nothing.
const NOTHING: &str = "/dev/null";

/// A disk over a file that is read.
fn disk(rt: &HostRuntime, path: &str) -> io::Result<FileDisk> {
    let file = OpenOptions::new().read(true).open(rt, path)?;
    Ok(FileDisk::new(file))
}

/// The devices of a store with this log alone.
fn disks(rt: &HostRuntime, log: &str) -> io::Result<Disks<FileDisk>> {
    Ok(Disks {
        even_log: disk(rt, log)?,
        odd_log: disk(rt, NOTHING)?,
        even_slot: disk(rt, NOTHING)?,
        odd_slot: disk(rt, NOTHING)?,
    })
}

/// Takes all entries. Answers how many there are, and how many bytes they have.
fn take_all(alloc: Global, opening: &mut Opening<FileDisk>) -> Result<Done, LogFault> {
    let mut done = Done::nothing();
    for _ in 0..u64::MAX {
        match opening.next(alloc)? {
            Some(entry) => {
                done = Done {
                    amount: done.amount.saturating_add(1),
                    sum: done.sum.saturating_add(entry.len() as u64),
                };
            }
            None => break,
        }
    }
    Ok(done)
}

/// Opens a store over these devices.
fn take_from(alloc: Global, disks: Disks<FileDisk>) -> Result<Done, LogFault> {
    match Store::reopen_start(alloc, disks) {
        Ok(opening) => {
            let mut opening = opening;
            take_all(alloc, &mut opening)
        }
        Err((fault, _disks)) => Err(fault),
    }
}

/// Opens a store with the log of this path.
pub fn open(rt: &HostRuntime, log: &str) -> Result<Done, Stopped> {
    match disks(rt, log) {
        Ok(disks) => take_from(rt.alloc(), disks).map_err(stop_of),
        Err(_) => Err(Stopped::Disk),
    }
}
