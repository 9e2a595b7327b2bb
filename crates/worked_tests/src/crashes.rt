//! What a crash leaves of a disk in memory, under sixteen generators each.

use crate::asks::{Ask, are_answered, made};
use durable_model::{Disk, DiskError, MemoryDisk};
use rand_pcg::Pcg32;
use std::alloc::Global;

/// What a crash may leave: from so many bytes to so many, and these from a place on.
#[derive(Clone, Copy)]
struct Image<'a> {
    least: usize,
    most: usize,
    at: usize,
    bytes: &'a [u8],
}

/// Whether the bytes are such an image.
fn is_image(held: &[u8], image: Image<'_>) -> bool {
    if held.len() < image.least || image.most < held.len() {
        return false;
    }
    match held.get(image.at..) {
        Some(rest) => rest.starts_with(image.bytes),
        None => false,
    }
}

/// Whether the disk holds such an image.
fn holds(alloc: Global, disk: &mut MemoryDisk, image: Image<'_>) -> bool {
    match disk.read(alloc) {
        Ok(held) => is_image(held.as_slice(), image),
        Err(_) => false,
    }
}

/// Of how many generators a crash leaves such an image.
fn count(alloc: Global, disk: &MemoryDisk, image: Image<'_>) -> u32 {
    let mut count = 0u32;
    for s in 1..17 {
        if let Ok(mut left) = disk.crash(alloc, &mut Pcg32::new(s, 0)) {
            count = count.saturating_add(u32::from(holds(alloc, &mut left, image)));
        }
    }
    count
}

/// Whether what a crash leaves answers so.
fn are_answered_after(alloc: Global, disk: &MemoryDisk, asks: &[Ask<'_>]) -> bool {
    match disk.crash(alloc, &mut Pcg32::new(1, 0)) {
        Ok(mut left) => are_answered(alloc, &mut left, asks),
        Err(_) => false,
    }
}

/// These bytes at a place of an image that is from so many to so many bytes long.
fn part(least: usize, most: usize, at: usize, bytes: &[u8]) -> Image<'_> {
    Image {
        least,
        most,
        at,
        bytes,
    }
}

/// After a sync, what a read gives.
fn is_kept(alloc: Global, disk: &mut MemoryDisk) -> bool {
    let asks = [
        Ask::Write(0, b"abcdef"),
        Ask::Sync,
        Ask::Write(2, b"XY"),
        Ask::Write(6, b"ghi"),
        Ask::Sync,
    ];
    are_answered(alloc, disk, &asks) && count(alloc, disk, part(9, 9, 0, b"abXYefghi")) == 16
}

/// Of a write that was not synced, all, nothing, or something else, and all other bytes.
fn is_torn(alloc: Global, disk: &mut MemoryDisk) -> bool {
    let asks = [
        Ask::Write(0, b"abcdef"),
        Ask::Sync,
        Ask::Write(2, b"XY"),
        Ask::Write(6, b"ghi"),
    ];
    if !are_answered(alloc, disk, &asks) {
        return false;
    }
    let front = count(alloc, disk, part(6, 9, 0, b"ab"));
    let back = count(alloc, disk, part(6, 9, 4, b"ef"));
    let done = count(alloc, disk, part(6, 9, 2, b"XY"));
    let lost = count(alloc, disk, part(6, 9, 2, b"cd"));
    front == 16 && back == 16 && done > 0 && lost > 0 && done.saturating_add(lost) < 16
}

/// A sync that failed leaves writes torn.
fn is_torn_where_a_sync_failed(alloc: Global, disk: &mut MemoryDisk) -> bool {
    let whole = part(13, 13, 0, b"a longer text");
    are_answered(alloc, disk, &[Ask::Write(0, b"a longer text"), Ask::NoSync])
        && count(alloc, disk, whole) < 16
        && disk.sync().is_ok()
        && count(alloc, disk, whole) == 16
}

/// A disk that stopped leaves what was synced, and its own crash a disk that goes on.
fn is_stopped(alloc: Global, disk: &mut MemoryDisk) -> bool {
    let asks = [
        Ask::Write(0, b"abcdef"),
        Ask::Sync,
        Ask::NoWrite(2, b"XY", DiskError::Device),
        Ask::NoSync,
        Ask::NoRead,
        Ask::Failures(3),
    ];
    let after = [
        Ask::Write(2, b"XY"),
        Ask::Sync,
        Ask::Write(0, b"AB"),
        Ask::Read(b"ABXYef"),
        Ask::Failures(0),
    ];
    are_answered(alloc, disk, &asks)
        && count(alloc, disk, part(6, 6, 0, b"ab")) == 16
        && count(alloc, disk, part(6, 6, 4, b"ef")) == 16
        && count(alloc, disk, part(6, 6, 2, b"cd")) < 16
        && are_answered_after(alloc, disk, &after)
}

/// A disk that a crash left has its capacity anew, and no call of it is to fail.
fn has_capacity_anew(alloc: Global, disk: &mut MemoryDisk) -> bool {
    let asks = [Ask::Write(0, b"abcdef"), Ask::Sync, Ask::NoSync];
    let after = [
        Ask::Write(0, b"ABCDEF"),
        Ask::Read(b"ABCDEF"),
        Ask::NoSync,
        Ask::Failures(1),
    ];
    if !are_answered(alloc, disk, &asks) {
        return false;
    }
    disk.fail_at(1);
    are_answered_after(alloc, disk, &after)
}

/// What a crash is to leave.
#[derive(Clone, Copy)]
enum Run {
    Kept,
    Torn,
    TornWhereASyncFailed,
    Stopped,
    CapacityAnew,
}

/// What is tried of which disks.
const RUNS: [(Run, [usize; 4]); 5] = [
    (Run::Kept, [100, 100, 0, 0]),
    (Run::Torn, [100, 100, 0, 0]),
    (Run::TornWhereASyncFailed, [100, 100, 2, 0]),
    (Run::Stopped, [100, 100, 0, 3]),
    (Run::CapacityAnew, [2, 6, 0, 0]),
];

fn is_so(alloc: Global, disk: &mut MemoryDisk, run: Run) -> bool {
    match run {
        Run::Kept => is_kept(alloc, disk),
        Run::Torn => is_torn(alloc, disk),
        Run::TornWhereASyncFailed => is_torn_where_a_sync_failed(alloc, disk),
        Run::Stopped => is_stopped(alloc, disk),
        Run::CapacityAnew => has_capacity_anew(alloc, disk),
    }
}

fn are_so(alloc: Global) -> bool {
    for (run, numbers) in RUNS {
        let is_right = match made(alloc, numbers) {
            Some(mut disk) => is_so(alloc, &mut disk, run),
            None => false,
        };
        if !is_right {
            return false;
        }
    }
    true
}

#[test]
fn a_crash_leaves_what_it_may(rt: HostRuntime) {
    assert!(rt; are_so(rt.alloc()));
}
