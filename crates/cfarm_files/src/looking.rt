//! What stands at a path, before anything is written there.

use std::io::ErrorKind;
use std::os::unix::fs::MetadataExt;
use std::{fs, io};

/// The device and the number of the file that a path leads to.
fn numbers_of(rt: &HostRuntime, path: &str) -> io::Result<(u64, u64)> {
    let found = fs::metadata(rt, path)?;
    Ok((found.dev(), found.ino()))
}

/// Whether there was no memory to look.
fn is_unseen(found: &io::Result<(u64, u64)>) -> bool {
    match found {
        Ok(_) => false,
        Err(fault) => fault.kind() == ErrorKind::OutOfMemory,
    }
}

/// Whether both paths lead to one file. Where there was no memory to look they might.
pub(crate) fn are_same(rt: &HostRuntime, path: &str, other: &str) -> bool {
    let (one, two) = (numbers_of(rt, path), numbers_of(rt, other));
    if is_unseen(&one) || is_unseen(&two) {
        return true;
    }
    match (one, two) {
        (Ok(one), Ok(two)) => one == two,
        _ => false,
    }
}

/// That something else than a plain file is there.
fn not_plain() -> io::Error {
    io::Error::from(ErrorKind::AlreadyExists)
}

/// Whether nothing of this path is there, or a plain file, or why that is not so. A link is not followed. Nothing is in a folder that is none.
pub(crate) fn free_at(rt: &HostRuntime, path: &str) -> io::Result<()> {
    match fs::symlink_metadata(rt, path) {
        Ok(found) if found.is_file() => Ok(()),
        Ok(_) => Err(not_plain()),
        Err(fault) => match fault.kind() {
            ErrorKind::NotFound | ErrorKind::NotADirectory => Ok(()),
            _ => Err(fault),
        },
    }
}

/// The same of what the path leads to, where a link is followed.
pub(crate) fn leads_to_free(rt: &HostRuntime, path: &str) -> io::Result<()> {
    match fs::metadata(rt, path) {
        Ok(found) if found.is_file() => Ok(()),
        Ok(_) => Err(not_plain()),
        Err(fault) => match fault.kind() {
            ErrorKind::NotFound => Ok(()),
            _ => Err(fault),
        },
    }
}

/// Whether the path leads to something. Nothing is in a folder that is none, and a link to nothing leads to nothing.
pub(crate) fn leads_to_something(rt: &HostRuntime, path: &str) -> bool {
    match fs::metadata(rt, path) {
        Ok(_) => true,
        Err(fault) => match fault.kind() {
            ErrorKind::NotFound | ErrorKind::NotADirectory => false,
            _ => true,
        },
    }
}
