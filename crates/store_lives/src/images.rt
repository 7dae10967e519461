//! The disks of a life: what they hold, and what a crash leaves of them.
use crate::disk::TrialDisk;
use crate::words::{bytes_of, no_step, number_of};
use disk_model::image::ImageFault;
use disk_model::memory::MemDisk;
use durable_store::disks::Disks;
use smart_base::sequence::Bytes;
use std::alloc::{AllocError, Global};
use std::io;

/// A disk with these bytes that fails at these calls.
fn disk(alloc: Global, bytes: Bytes, failing: Vec<u64>) -> io::Result<TrialDisk> {
    Ok(TrialDisk::over(MemDisk::new(alloc, bytes, failing)?))
}

/// A disk that holds nothing.
fn empty(alloc: Global) -> io::Result<TrialDisk> {
    disk(alloc, Bytes::new(alloc), Vec::new(alloc))
}

/// Disks that hold nothing.
pub fn empty_disks(alloc: Global) -> io::Result<Disks<TrialDisk>> {
    Ok(Disks {
        even_log: empty(alloc)?,
        odd_log: empty(alloc)?,
        even_slot: empty(alloc)?,
        odd_slot: empty(alloc)?,
    })
}

/// The disk of this number.
pub fn disk_at<'a>(disks: &'a mut Disks<TrialDisk>, device: &str) -> io::Result<&'a mut TrialDisk> {
    match device {
        "0" => Ok(&mut disks.even_log),
        "1" => Ok(&mut disks.odd_log),
        "2" => Ok(&mut disks.even_slot),
        "3" => Ok(&mut disks.odd_slot),
        _ => Err(no_step("no device")),
    }
}

/// Puts a disk in the place of another: its number, its bytes, and the numbers of its calls that fail.
pub fn put(alloc: Global, disks: &mut Disks<TrialDisk>, words: &str) -> io::Result<()> {
    let mut words = words.split_whitespace();
    let (Some(device), Some(bytes)) = (words.next(), words.next()) else {
        return Err(no_step("no disk"));
    };
    let mut failing = Vec::new(alloc);
    for word in words {
        failing.push(number_of(word)?)?;
    }
    *disk_at(disks, device)? = disk(alloc, bytes_of(alloc, bytes)?, failing)?;
    Ok(())
}

/// Adds the bytes of a span: `3-7` are those of the indices 3 to 6, as far as they are there.
fn put_span(image: &mut Vec<u8>, bytes: &[u8], span: &str) -> io::Result<()> {
    let (from, upto) = span.split_once('-').ok_or(no_step("no span"))?;
    let (from, upto) = (number_of(from)?, number_of(upto)?);
    let (front, _) = bytes.split_at(upto.min(bytes.len() as u64) as usize);
    let (_, part) = front.split_at(from.min(front.len() as u64) as usize);
    image.extend_from_slice(part)?;
    Ok(())
}

/// Adds a piece of an image: `r` and a span as the disk reads, `s` and a span as at its last sync, or
/// bytes.
fn put_piece(alloc: Global, disk: &TrialDisk, image: &mut Vec<u8>, piece: &str) -> io::Result<()> {
    if let Some(span) = piece.strip_prefix('r') {
        return put_span(image, disk.inner.as_read(), span);
    }
    if let Some(span) = piece.strip_prefix('s') {
        return put_span(image, disk.inner.as_synced(alloc)?.as_slice(), span);
    }
    image.extend_from_slice(bytes_of(alloc, piece)?.as_slice())?;
    Ok(())
}

/// The disk that a crash leaves with these pieces, if it may leave them.
fn image_of(alloc: Global, disk: &TrialDisk, pieces: Option<&str>) -> io::Result<TrialDisk> {
    let mut image = Vec::new(alloc);
    for piece in pieces.unwrap_or("").split(',') {
        put_piece(alloc, disk, &mut image, piece)?;
    }
    match disk.inner.image(alloc, Bytes::from_vec(image)) {
        Ok(left) => Ok(TrialDisk::over(left)),
        Err(ImageFault::NotAnImage { .. }) => Err(no_step("no image")),
        Err(ImageFault::NoMemory) => Err(AllocError.into()),
    }
}

/// The disks that a crash leaves, with the pieces of each.
pub fn crashed(
    alloc: Global,
    disks: &Disks<TrialDisk>,
    words: &str,
) -> io::Result<Disks<TrialDisk>> {
    let mut words = words.split_whitespace();
    Ok(Disks {
        even_log: image_of(alloc, &disks.even_log, words.next())?,
        odd_log: image_of(alloc, &disks.odd_log, words.next())?,
        even_slot: image_of(alloc, &disks.even_slot, words.next())?,
        odd_slot: image_of(alloc, &disks.odd_slot, words.next())?,
    })
}

/// Makes one number of a number and bytes.
fn add(sum: u32, bytes: &[u8]) -> u32 {
    let mut sum = sum;
    for byte in bytes {
        sum = sum.wrapping_mul(257).wrapping_add(u32::from(*byte));
        sum = sum.wrapping_add(1);
    }
    sum.wrapping_mul(257)
}

/// Makes one number of a number and what a disk holds, and held at its last sync.
fn add_disk(alloc: Global, sum: u32, disk: &TrialDisk) -> io::Result<u32> {
    let synced = disk.inner.as_synced(alloc)?;
    Ok(add(add(sum, disk.inner.as_read()), synced.as_slice()))
}

/// One number of all that the disks hold, and held at their last syncs.
pub fn sum_of(alloc: Global, disks: &Disks<TrialDisk>) -> io::Result<u32> {
    let sum = add_disk(alloc, 0, &disks.even_log)?;
    let sum = add_disk(alloc, sum, &disks.odd_log)?;
    let sum = add_disk(alloc, sum, &disks.even_slot)?;
    add_disk(alloc, sum, &disks.odd_slot)
}
