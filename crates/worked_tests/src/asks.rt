//! What a disk is asked, and how it answers.

use durable_model::{Disk, DiskError, MemoryDisk};
use std::alloc::Global;

/// A call of a disk, and how it ends.
#[derive(Clone, Copy)]
pub enum Ask<'a> {
    /// A write at this place.
    Write(u64, &'a [u8]),
    /// One that fails so.
    NoWrite(u64, &'a [u8], DiskError),
    Sync,
    NoSync,
    /// A read, which gives these bytes.
    Read(&'a [u8]),
    NoRead,
    /// So many calls have failed.
    Failures(u64),
}

/// Whether the disk answers all of it so.
pub fn are_answered<D: Disk>(alloc: Global, disk: &mut D, asks: &[Ask<'_>]) -> bool {
    for ask in asks {
        if !is_answered(alloc, disk, *ask) {
            return false;
        }
    }
    true
}

fn is_answered<D: Disk>(alloc: Global, disk: &mut D, ask: Ask<'_>) -> bool {
    match ask {
        Ask::Write(at, bytes) => disk.write_at(at, bytes).is_ok(),
        Ask::NoWrite(at, bytes, error) => is_failure(disk.write_at(at, bytes), error),
        Ask::Sync => disk.sync().is_ok(),
        Ask::NoSync => is_failure(disk.sync(), DiskError::Device),
        Ask::Read(bytes) => is_read(disk.read(alloc), bytes),
        Ask::NoRead => disk.read(alloc).is_err(),
        Ask::Failures(count) => disk.failures() == count,
    }
}

fn is_failure(answer: Result<(), DiskError>, wanted: DiskError) -> bool {
    match answer {
        Ok(()) => false,
        Err(error) => error == wanted,
    }
}

fn is_read(answer: Result<Vec<u8>, DiskError>, wanted: &[u8]) -> bool {
    match answer {
        Ok(held) => held.as_slice() == wanted,
        Err(_) => false,
    }
}

/// A disk that can note so many calls and bytes, the call with the third number of which fails, and each from the one with the
/// fourth on, where that is not 0.
pub fn made(alloc: Global, numbers: [usize; 4]) -> Option<MemoryDisk> {
    let [calls, bytes, fails, stops] = numbers;
    match MemoryDisk::new(alloc, calls, bytes) {
        Ok(mut disk) => {
            disk.fail_at(fails);
            disk.stop_from(stops);
            Some(disk)
        }
        Err(_) => None,
    }
}
