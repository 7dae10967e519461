//! What the disks of a row hold at its end.
use crate::workers::disk::TrialDisk;
use durable_store::disks::Disks;
use durable_store::reopening::reopen;
use smart_base::sequence::Bytes;
use std::alloc::{AllocError, Global};
use store_form::checkpoint::Checkpoint;
use store_laws::job::Kept;

/// Adds bytes as numbers, each after a blank.
fn spell(alloc: Global, told: &mut String, bytes: &[u8]) -> Result<(), AllocError> {
    for byte in bytes {
        let byte = *byte;
        told.push_str(format!(in alloc; " {byte}")?.as_str())?;
    }
    Ok(())
}

/// A generation and the bytes of its snapshot, if there is one.
fn told_of_checkpoint(alloc: Global, present: &Option<Checkpoint>) -> Result<String, AllocError> {
    match present {
        Some(checkpoint) => {
            let generation = checkpoint.generation;
            let mut told = format!(in alloc; "holds generation {generation}, snapshot")?;
            spell(alloc, &mut told, checkpoint.snapshot.as_slice())?;
            Ok(told)
        }
        None => String::from_str(alloc, "holds no snapshot"),
    }
}

/// Adds the bytes of each entry.
fn spell_entries(alloc: Global, told: &mut String, entries: &[Bytes]) -> Result<(), AllocError> {
    for entry in entries {
        told.push_str(", entry")?;
        spell(alloc, told, entry.as_slice())?;
    }
    Ok(())
}

/// What a store restores.
fn told_of_kept(alloc: Global, kept: &Kept) -> Result<String, AllocError> {
    let mut told = told_of_checkpoint(alloc, &kept.present)?;
    spell_entries(alloc, &mut told, kept.entries.as_slice())?;
    told.push_str("\n")?;
    Ok(told)
}

/// What a store restores that is opened over these disks.
pub fn told_of_disks(alloc: Global, disks: Disks<TrialDisk>) -> Result<String, AllocError> {
    match reopen(alloc, disks) {
        Ok((_, kept)) => told_of_kept(alloc, &kept),
        Err(_) => String::from_str(alloc, "does not open\n"),
    }
}
