//! Opening the files of a pair.

ghost use Rattle.std.specs.Prelude.{◌≡◌, ◌≤◌, ◌↔◌, length, get_or, IsTrue, IsNone, IfOk};
ghost use Rattle.durable_pair_files.specs.Opening.{OpensWhatIsThere, AreSpent};

use std::alloc::Global;
use std::fs::{File, OpenOptions};
use std::io::ErrorKind;
use std::os::unix::fs::FileExt;
use std::path::Path;
use std::{fs, io};

/// Opens what is there, to be read and written: no file is made, and none is cut.
fn as_it_is() -> OpenOptions
    ensures { OpensWhatIsThere result }
{
    let mut options = OpenOptions::new();
    options.read(true);
    options.write(true);
    options
}

/// A file that is there, synced.
fn file_there(rt: &HostRuntime, path: &str) -> io::Result<File> {
    let file: File = as_it_is().open(rt, path)?;
    file.sync_all()?;
    Ok(file)
}

/// A new file, which is empty and synced with its folder, so that a crash leaves its name.
fn new_file(rt: &HostRuntime, path: &str) -> io::Result<File> {
    let file = File::create_new(rt, path)?;
    file.sync_all()?;
    sync_folder(rt, path)?;
    Ok(file)
}

/// Syncs the folder that a file's name stands in.
fn sync_folder(rt: &HostRuntime, path: &str) -> io::Result<()> {
    let folder = File::open(rt, folder_of(path))?;
    folder.sync_all()
}

/// A file that is there, or a new one.
fn file_or_new(rt: &HostRuntime, path: &str) -> io::Result<File> {
    match file_there(rt, path) {
        Err(fault) if fault.kind() == ErrorKind::NotFound => new_file(rt, path),
        opened => opened,
    }
}

/// A file that is there; none where nothing of that name is there. A link to nothing is refused.
fn file_if_there(rt: &HostRuntime, path: &str) -> io::Result<Option<File>> {
    match file_there(rt, path) {
        Ok(file) => Ok(Some(file)),
        Err(fault) if fault.kind() == ErrorKind::NotFound && is_nothing(rt, path) => Ok(None),
        Err(fault) => Err(fault),
    }
}

/// Whether nothing has that name.
fn is_nothing(rt: &HostRuntime, path: &str) -> bool {
    match fs::symlink_metadata(rt, path) {
        Ok(_) => false,
        Err(fault) => fault.kind() == ErrorKind::NotFound,
    }
}

/// The folder that a file's name stands in.
fn folder_of(path: &str) -> Path<'_> {
    match Path::new(path).parent() {
        Some(folder) if !folder.as_str().is_empty() => folder,
        _ => Path::new("."),
    }
}

/// The first bytes of a file, so many where it has them. Where memory is refused the error's kind is `OutOfMemory`.
fn front_of(alloc: Global, file: &File, most: usize) -> io::Result<Vec<u8>>
    ensures { IfOk result (λ bytes. length bytes.items ≤ most) }
{
    let found = file.metadata()?;
    let len = most.min(found.len() as usize);
    let mut bytes = Vec::new(alloc);
    if bytes.resize(len, 0).is_err() {
        return Err(io::Error::from(ErrorKind::OutOfMemory));
    }
    file.read_exact_at(&mut bytes, 0)?;
    Ok(bytes)
}

/// All the bytes of a file.
pub fn bytes_of(alloc: Global, file: &File) -> io::Result<Vec<u8>> {
    front_of(alloc, file, usize::MAX)
}

/// The new file, and what it holds.
pub fn new_found(rt: &HostRuntime, path: &str) -> io::Result<(File, Vec<u8>)> {
    let file = file_or_new(rt, path)?;
    let bytes = bytes_of(rt.alloc(), &file)?;
    Ok((file, bytes))
}

/// The old file and what it holds, where it is there and counts. Else no file, and its first byte, if it has one.
pub fn old_found(rt: &HostRuntime, path: &str) -> io::Result<(Option<File>, Vec<u8>)>
    ensures { IfOk result (λ found. IsNone found.0 → AreSpent found.1.items) }
{
    match file_if_there(rt, path)? {
        Some(file) => old_of(rt.alloc(), file),
        None => Ok((None, Vec::new(rt.alloc()))),
    }
}

/// The same of a file that is there.
fn old_of(alloc: Global, file: File) -> io::Result<(Option<File>, Vec<u8>)>
    ensures { IfOk result (λ found. IsNone found.0 → AreSpent found.1.items) }
{
    let first = front_of(alloc, &file, 1)?;
    if begins_with_c(&first) {
        let bytes = bytes_of(alloc, &file)?;
        Ok((Some(file), bytes))
    } else {
        Ok((None, first))
    }
}

/// Whether a journal's first byte stands there.
pub fn begins_with_c(bytes: &[u8]) -> bool
    ensures { IsTrue result ↔ (get_or bytes.now 0 0 ≡ 67) }
{
    match bytes.first() {
        Some(byte) => *byte == b'C',
        None => false,
    }
}
