//! A disk over a real file.
use disk_files::file::FileDisk;
use disk_model::disk::Disk;
use std::alloc::{AllocError, Global};
use std::fs::OpenOptions;
use std::{fs, io, process};

/// The path of a file of this test's own.
fn own_path(rt: &HostRuntime) -> Result<String, AllocError> {
    let id = process::id(rt.process());
    format!(in rt.alloc(); "/tmp/smart-file-disk-{id}")
}

/// A disk over a file that is made anew.
fn over_file(rt: &HostRuntime, path: &str) -> io::Result<FileDisk> {
    let file = OpenOptions::new()
        .read(true)
        .write(true)
        .create(true)
        .truncate(true)
        .open(rt, path)?;
    Ok(FileDisk::new(file))
}

/// Whether the disk reads so.
fn reads(alloc: Global, disk: &mut FileDisk, at: u64, count: u64, want: &[u8]) -> bool {
    match disk.read(alloc, at, count) {
        Ok(bytes) => bytes.as_slice() == want,
        Err(_) => false,
    }
}

#[test]
fn a_file_is_read_written_and_cut_in_place(rt: HostRuntime) {
    let path = own_path(&rt).expect(&rt, "there is memory");
    let mut disk = over_file(&rt, path.as_str()).ok().expect(&rt, "a file");
    assert!(rt; disk.write_at(0, b"abcdef").is_ok());
    assert!(rt; disk.write_at(4, b"EFGH").is_ok());
    // A cut past the end changes nothing, and no file has bytes past 2^63.
    assert!(rt; disk.cut(7).is_ok() && disk.cut(9).is_ok());
    assert!(rt; disk.write_at(1 << 63, b"a").is_err());
    assert!(rt; disk.sync().is_ok() && disk.len() == Ok(7));
    assert!(rt; reads(rt.alloc(), &mut disk, 0, 3, b"abc"));
    assert!(rt; reads(rt.alloc(), &mut disk, 3, 100, b"dEFG"));
    assert!(rt; reads(rt.alloc(), &mut disk, 9, 1, b""));
    assert!(rt; fs::remove_file(&rt, path.as_str()).is_ok());
}
