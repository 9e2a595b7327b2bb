//! Files in memory.

use cfarm_files::{DiskFault, FileFault, Files, Reason};
use durable_pair_memory::MemoryPair;
use std::alloc::Global;
use worked_row_files::{bytes_of, fine};

/// How many calls and bytes a disk can note.
const CALLS: usize = 20_000;

const BYTES: usize = 2_000_000;

/// A file that was put.
#[derive(Drop)]
pub struct Put {
    pub path: String,
    pub bytes: Vec<u8>,
}

/// The one file that is there, what was put, and the files over which disks were opened and closed. Journals are empty, unless their folder says
/// otherwise.
#[derive(Drop)]
pub struct Given<'a> {
    pub alloc: Global,
    pub text: &'a [u8],
    pub put: Vec<Put>,
    opened: Vec<String>,
    closed: Vec<String>,
}

impl<'a> Given<'a> {
    /// What was put at this path.
    fn put_as(&self, path: &str) -> Result<Vec<u8>, FileFault> {
        for put in self.put.as_slice() {
            if put.path.as_str() == path {
                return match put.bytes.as_slice().to_vec(self.alloc) {
                    Ok(bytes) => Ok(bytes),
                    Err(_) => Err(FileFault::NoMemory),
                };
            }
        }
        Err(FileFault::Refused(Reason::Unsaid))
    }

    pub fn of(alloc: Global, text: &'a [u8]) -> Given<'a> {
        Given {
            alloc,
            text,
            put: Vec::new(alloc),
            opened: Vec::new(alloc),
            closed: Vec::new(alloc),
        }
    }

    /// Whether all disks that were opened were closed, in the same order, and none was opened twice.
    pub fn are_disks_closed(&self) -> bool {
        self.opened == self.closed && !has_twice(&self.opened)
    }
}

/// How often a path stands there.
fn times(paths: &[String], path: &str) -> usize {
    let mut times: usize = 0;
    for other in paths {
        times = times.saturating_add(usize::from(other.as_str() == path));
    }
    times
}

/// Whether a path stands there twice.
fn has_twice(paths: &[String]) -> bool {
    for path in paths {
        if times(paths, path.as_str()) > 1 {
            return true;
        }
    }
    false
}

/// Disks that hold these bytes, synced; they can note so many calls, and fail at this one.
fn disk_of(
    alloc: Global,
    calls: usize,
    fails: usize,
    bytes: &[u8],
    old_bytes: &[u8],
) -> Result<MemoryPair, DiskFault> {
    let (Ok(new), Ok(old)) = (bytes.to_vec(alloc), old_bytes.to_vec(alloc)) else {
        return Err(DiskFault::NoMemory);
    };
    match MemoryPair::holding(alloc, new, old, calls, BYTES) {
        Ok(mut disk) => {
            disk.fail_at(fails);
            Ok(disk)
        }
        Err(_) => Err(DiskFault::NoMemory),
    }
}

/// What the name of a folder spells for the node with this file: where a number and `=` stand in front, nothing for another node.
fn spelled<'a>(folder: &'a str, name: &str) -> &'a str {
    let number = name.strip_prefix("node").unwrap_or("");
    let (number, _) = number.split_once('.').unwrap_or((number, ""));
    match folder.split_once('=') {
        Some((meant, rest)) if meant == number => rest,
        Some(_) => "",
        None => folder,
    }
}

/// The bytes that are spelled, in hex: behind `%` those of the old one, behind `&` those of the new one.
fn parts_spelled(text: &str) -> (&str, &str) {
    let (old, new) = text.split_once('&').unwrap_or((text, ""));
    (old.strip_prefix("%").unwrap_or(""), new)
}

/// Disks whose bytes are spelled.
fn disk_spelled(alloc: Global, text: &str) -> Result<MemoryPair, DiskFault> {
    let (old, new) = parts_spelled(text);
    let (Some(bytes), Some(old_bytes)) = (bytes_of(alloc, new), bytes_of(alloc, old)) else {
        return Err(DiskFault::New(Reason::Unsaid));
    };
    disk_of(alloc, CALLS, 0, &bytes, &old_bytes)
}

/// Why there are no disks in a folder.
fn fault_in(folder: &str, name: &str) -> Option<DiskFault> {
    match folder {
        "missing" => Some(DiskFault::New(Reason::Unsaid)),
        "behind" if name == "node1.cf2" => Some(DiskFault::New(Reason::Unsaid)),
        "barred" if name == "node1.cf2" => Some(DiskFault::Old(Reason::Unsaid)),
        "scarce" => Some(DiskFault::NoMemory),
        _ => None,
    }
}

/// The disks of a folder.
fn disk_in(alloc: Global, folder: &str, name: &str) -> Result<MemoryPair, DiskFault> {
    if let Some(fault) = fault_in(folder, name) {
        return Err(fault);
    }
    match folder {
        "broken" => disk_of(alloc, CALLS, 1, &[], &[]),
        "worn" => disk_of(alloc, 14, 0, &[], &[]),
        _ => disk_spelled(alloc, spelled(folder, name)),
    }
}

/// The file of a folder whose bytes are spelled; none where they are none.
fn file_spelled(alloc: Global, text: &str, name: &str) -> Result<Option<Vec<u8>>, FileFault> {
    let (old, new) = parts_spelled(text);
    let hex = if name.ends_with(".cfj") { old } else { new };
    match bytes_of(alloc, hex) {
        Some(bytes) if bytes.is_empty() => Ok(None),
        Some(bytes) => Ok(Some(bytes)),
        None => Err(FileFault::Refused(Reason::Unsaid)),
    }
}

/// The file of a folder, where it is there.
fn file_in(alloc: Global, folder: &str, name: &str) -> Result<Option<Vec<u8>>, FileFault> {
    match folder {
        "behind" if name == "node1.cf2" => Err(FileFault::Refused(Reason::Unsaid)),
        "barred" if name == "node1.cfj" => Err(FileFault::Refused(Reason::Unsaid)),
        "scarce" => Err(FileFault::NoMemory),
        _ => file_spelled(alloc, spelled(folder, name), name),
    }
}

/// The file of this path with these bytes.
fn put_of(alloc: Global, path: &str, bytes: &[u8]) -> Option<Put> {
    let path = fine!(path.to_string(alloc));
    let bytes = fine!(bytes.to_vec(alloc));
    Some(Put { path, bytes })
}

/// The file that a path leads to: `twin` is another name of a journal, and two are other names of the text.
fn leads_to(path: &str) -> &str {
    match path {
        "twin" => "d/node1.cf2",
        "other" | "c.new" => "f",
        _ => path,
    }
}

/// A copy of the text.
fn text_of(alloc: Global, text: &[u8]) -> Result<Vec<u8>, FileFault> {
    match text.to_vec(alloc) {
        Ok(bytes) => Ok(bytes),
        Err(_) => Err(FileFault::NoMemory),
    }
}

/// The lock of a folder in memory.
#[derive(Drop)]
pub struct Held;

impl Files for Given<'_> {
    type Disk = MemoryPair;

    type Lock = Held;

    fn lock(&mut self, folder: &str, _path: &str) -> Result<Held, FileFault> {
        match folder {
            "missing" | "busy" => Err(FileFault::Refused(Reason::Unsaid)),
            "locked" => Err(FileFault::NoMemory),
            _ => Ok(Held),
        }
    }

    fn read(&self, path: &str) -> Result<Vec<u8>, FileFault> {
        match path {
            "f" => text_of(self.alloc, self.text),
            "twin" => match self.put_as(path) {
                Ok(bytes) => Ok(bytes),
                Err(_) => text_of(self.alloc, self.text),
            },
            "big" => Err(FileFault::NoMemory),
            _ => self.put_as(path),
        }
    }

    fn read_if_there(&self, path: &str) -> Result<Option<Vec<u8>>, FileFault> {
        let (folder, name) = path.rsplit_once('/').unwrap_or(("", path));
        file_in(self.alloc, folder, name)
    }

    fn read_under(&self, _lock: &Held, path: &str) -> Result<Option<Vec<u8>>, FileFault> {
        self.read_if_there(path)
    }

    fn is_same(&self, path: &str, other: &str) -> bool {
        leads_to(path) == leads_to(other)
    }

    fn is_free(&self, path: &str) -> bool {
        !path.starts_with("pipe/")
    }

    fn is_found(&self, path: &str) -> bool {
        path != "none"
    }

    fn disk(&mut self, _lock: &Held, path: &str, _old_path: &str) -> Result<MemoryPair, DiskFault> {
        let (folder, name) = path.rsplit_once('/').unwrap_or(("", path));
        let Ok(noted) = path.to_string(self.alloc) else {
            return Err(DiskFault::NoMemory);
        };
        match disk_in(self.alloc, folder, name) {
            Ok(disk) => match self.opened.push(noted) {
                Ok(()) => Ok(disk),
                Err(_) => Err(DiskFault::NoMemory),
            },
            Err(fault) => Err(fault),
        }
    }

    fn close(&mut self, _lock: &Held, path: &str, _old_path: &str, disk: MemoryPair) {
        drop(disk);
        if let Ok(noted) = path.to_string(self.alloc) {
            let _ = self.closed.push(noted);
        }
    }

    fn counts_old(&self, disk: &MemoryPair) -> bool {
        disk.old_bytes().starts_with(b"C".as_slice())
    }

    fn put(&mut self, _lock: &Held, path: &str, bytes: &[u8]) -> Result<(), FileFault> {
        self.put_at(path, bytes)
    }

    fn put_at(&mut self, path: &str, bytes: &[u8]) -> Result<(), FileFault> {
        if path.starts_with("full/") {
            return Err(FileFault::Refused(Reason::Unsaid));
        }
        if path.starts_with("tight/") {
            return Err(FileFault::NoMemory);
        }
        let Some(put) = put_of(self.alloc, path, bytes) else {
            return Err(FileFault::NoMemory);
        };
        match self.put.push(put) {
            Ok(()) => Ok(()),
            Err(_) => Err(FileFault::NoMemory),
        }
    }
}
