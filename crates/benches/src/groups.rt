//! Groups of entries for a log, over memory or over a file, for `bench/groups.sh` and
//! `bench/opening.sh`.

ghost use Rattle.std.specs.Prelude.{◌≡◌, IfOk};
ghost use Rattle.smart_base.specs.Lists.{Each};
ghost use Rattle.disk_model.specs.Cells.{settled};
ghost use Rattle.store_form.specs.Spelling.{IsEntry};
ghost use Rattle.batch_log.specs.Jobs.{IsIdle, IsUnderWay};

use crate::done::{Done, Stopped, stop_of};
use crate::wanted::Fill;
use batch_log::log::BatchLog;
use batch_log::reopening::reopen;
use disk_files::file::FileDisk;
use disk_model::disk::Disk;
use disk_model::plain::PlainDisk;
use faults::Fault;
use smart_base::sequence::Bytes;
use std::alloc::{AllocError, Global};
use std::fs::OpenOptions;

/// The bytes of each entry.
const ENTRY: [u8; 100] = [7; 100];

/// So many entries.
fn entries(alloc: Global, count: u64) -> Result<Vec<Bytes>, AllocError>
    ensures { IfOk result (λ entries. Each IsEntry entries.items) }
{
    let mut entries = Vec::new(alloc);
    for _ in 0..count {
        entries.push(Bytes::from_slice(alloc, &ENTRY)?)?;
    }
    Ok(entries)
}

/// Adds a group so many times.
fn append<D: Disk + Drop>(
    alloc: Global,
    log: BatchLog<D>,
    entries: &[Bytes],
    groups: u64,
) -> Result<BatchLog<D>, Stopped>
    requires fit { Each IsEntry entries.now }
    requires idle { IsIdle log.job }
    requires stands { D.told → IsUnderWay (D.cells log.device) log.end log.job }
{
    let mut log = log;
    for _ in 0..groups {
        match log.append_group(alloc, entries) {
            Ok(()) => {}
            Err(fault) => return Err(stop_of(fault)),
        }
    }
    Ok(log)
}

/// Adds groups to a log over an empty disk. Answers how many entries were added, and how many bytes the
/// log then has.
fn fill<D: Disk + Drop>(alloc: Global, disk: D, wanted: Fill<'_>) -> Result<Done, Stopped>
    requires { D.told → D.cells disk ≡ settled (D.cells disk).now }
{
    let entries = entries(alloc, wanted.entries)?;
    let log = match reopen(alloc, disk) {
        Ok((log, _)) => log,
        Err((fault, _)) => return Err(stop_of(fault)),
    };
    let mut disk = append(alloc, log, entries.as_slice(), wanted.groups)?.into_device();
    match disk.len() {
        Ok(len) => Ok(Done {
            amount: wanted.groups.wrapping_mul(wanted.entries),
            sum: len,
        }),
        Err(Fault::Failed) => Err(Stopped::Disk),
        Err(Fault::NoMemory) => Err(Stopped::NoMemory),
    }
}

/// Fills a log over memory.
pub fn in_memory(alloc: Global, wanted: Fill<'_>) -> Result<Done, Stopped> {
    fill(alloc, PlainDisk::new(alloc, Bytes::new(alloc)), wanted)
}

/// Fills a log over a file, which is made anew.
pub fn in_file(rt: &HostRuntime, wanted: Fill<'_>) -> Result<Done, Stopped> {
    let opened = OpenOptions::new()
        .read(true)
        .write(true)
        .create(true)
        .truncate(true)
        .open(rt, wanted.path);
    match opened {
        Ok(file) => fill(rt.alloc(), FileDisk::new(file), wanted),
        Err(_) => Err(Stopped::Disk),
    }
}
