//! A file in the place of another.

use crate::looking::free_at;
use std::fs::{File, OpenOptions};
use std::io::Write;
use std::path::Path;
use std::{fs, io};

/// The folder that a file's name stands in.
fn folder_of(path: &str) -> Path<'_> {
    match Path::new(path).parent() {
        Some(folder) if !folder.as_str().is_empty() => folder,
        _ => Path::new("."),
    }
}

/// Whether a plain file or a link is there.
fn may_be_taken_away(rt: &HostRuntime, path: &str) -> bool {
    match fs::symlink_metadata(rt, path) {
        Ok(found) => found.is_file() || found.is_symlink(),
        Err(_) => false,
    }
}

/// A new file. A plain file or a link that stands there is taken away before; anything else there is refused.
fn new_file(rt: &HostRuntime, path: &str) -> io::Result<File> {
    if may_be_taken_away(rt, path) {
        fs::remove_file(rt, path)?;
    }
    let mut options = OpenOptions::new();
    options.write(true).create_new(true).open(rt, path)
}

/// Writes the bytes to the file and syncs it.
fn write_synced(file: &mut File, bytes: &[u8]) -> io::Result<()> {
    file.write_all(bytes)?;
    file.sync_all()
}

/// Writes the bytes to a new file beside, and gives that the name; it is taken away where that is refused.
fn written_and_renamed(rt: &HostRuntime, beside: &str, path: &str, bytes: &[u8]) -> io::Result<()> {
    let mut file = new_file(rt, beside)?;
    let mut done = write_synced(&mut file, bytes);
    if done.is_ok() {
        done = fs::rename(rt, beside, path);
    }
    if done.is_err() {
        let _ = fs::remove_file(rt, beside);
    }
    done
}

/// Puts these bytes in the place of a file, where nothing or a plain file is; anything else there is refused, a link too. They are
/// written to a file beside it, whose name has `.new` behind, and synced; that file then gets the name, and the folder is synced. Where it
/// is refused before that, the old file stays as it was, and the one beside is taken away. Where the folder cannot be synced the new file
/// stands, and a crash may leave the old one.
pub(crate) fn place(rt: &HostRuntime, path: &str, bytes: &[u8]) -> io::Result<()> {
    free_at(rt, path)?;
    let folder = File::open(rt, folder_of(path))?;
    let beside = format!(in rt.alloc(); "{path}.new")?;
    written_and_renamed(rt, &beside, path, bytes)?;
    folder.sync_all()
}
