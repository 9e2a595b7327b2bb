//! Which call of a disk in memory fails.

use crate::asks::{Ask, are_answered, made};
use durable_model::{Disk, DiskError, MemoryDisk};
use std::alloc::Global;

/// Whether the device fails the call of this number, from 1 to 6.
fn is_failed(alloc: Global, disk: &mut MemoryDisk, number: u64) -> bool {
    let answer = match number {
        1 => disk.write_at(0, b"abc"),
        4 => disk.write_at(3, b"def"),
        2 | 5 => disk.sync(),
        _ => match disk.read(alloc) {
            Ok(_) => Ok(()),
            Err(error) => Err(error),
        },
    };
    match answer {
        Ok(()) => false,
        Err(error) => error == DiskError::Device,
    }
}

/// The number of the first of six calls that the device fails, or 0.
fn first_failed(alloc: Global, disk: &mut MemoryDisk) -> u64 {
    let mut first = 0;
    for number in 1..7 {
        if is_failed(alloc, disk, number) && first == 0 {
            first = number;
        }
    }
    first
}

/// What six calls of a disk come to: the first that failed, how many failed, and how many bytes of `abcdef` it then holds.
#[derive(Clone, Copy)]
struct Found {
    first: u64,
    failures: u64,
    held: usize,
}

/// How many bytes of `abcdef` the disk holds, or 99 where it does not hold those.
fn held(alloc: Global, disk: &mut MemoryDisk) -> usize {
    match disk.read(alloc) {
        Ok(bytes) => {
            if b"abcdef".starts_with(bytes.as_slice()) {
                bytes.len()
            } else {
                99
            }
        }
        Err(_) => 99,
    }
}

/// What six calls come to of a disk that was made so. It stops no more once they were made.
fn tried(alloc: Global, numbers: [usize; 4]) -> Found {
    match made(alloc, numbers) {
        Some(mut disk) => {
            let first = first_failed(alloc, &mut disk);
            let failures = disk.failures();
            disk.stop_from(0);
            let held = held(alloc, &mut disk);
            Found {
                first,
                failures,
                held,
            }
        }
        None => Found {
            first: 99,
            failures: 99,
            held: 99,
        },
    }
}

/// The nth call fails alone.
fn fails_once(alloc: Global, n: usize) -> bool {
    let found = tried(alloc, [100, 100, n, 0]);
    let wanted = if n <= 6 { n as u64 } else { 0 };
    found.first == wanted && found.failures == wanted.min(1)
}

/// Each call fails from the nth on.
fn stops(alloc: Global, n: usize) -> bool {
    let found = tried(alloc, [100, 100, 0, n]);
    let wanted = if n <= 6 { n as u64 } else { 0 };
    let failures = if wanted == 0 {
        0
    } else {
        7u64.saturating_sub(wanted)
    };
    let held = match n {
        1 => 0,
        2 | 3 | 4 => 3,
        _ => 6,
    };
    found.first == wanted && found.failures == failures && found.held == held
}

/// One call fails before the disk stops at the fifth.
fn fails_and_stops(alloc: Global, n: usize) -> bool {
    let found = tried(alloc, [100, 100, n, 5]);
    if 1 <= n && n <= 4 {
        found.first == n as u64 && found.failures == 3
    } else {
        found.first == 5 && found.failures == 2
    }
}

/// A call past the capacity of calls fails.
fn is_full(alloc: Global, n: usize) -> bool {
    let wanted = if n < 6 { n as u64 + 1 } else { 0 };
    tried(alloc, [n, 100, 0, 0]).first == wanted
}

/// Calls fail as each number tells, and a write past the capacity of bytes.
fn fail_as_told(alloc: Global) -> bool {
    for n in 0..8usize {
        let is_told = fails_once(alloc, n) && stops(alloc, n);
        if !is_told || !fails_and_stops(alloc, n) || !is_full(alloc, n) {
            return false;
        }
    }
    let found = tried(alloc, [100, 5, 0, 0]);
    found.first == 4 && found.failures == 1 && found.held == 3
}

/// A write goes over what is there and past the end, where zeros fill a gap.
fn are_written(alloc: Global) -> bool {
    let asks = [
        Ask::Write(0, b"abcdef"),
        Ask::Write(2, b"XY"),
        Ask::Read(b"abXYef"),
        Ask::Write(5, b"12"),
        Ask::Read(b"abXYe12"),
        Ask::Write(9, b"z"),
        Ask::Read(b"abXYe12\0\0z"),
        Ask::Write(50, b""),
        Ask::Read(b"abXYe12\0\0z"),
        Ask::NoWrite(u64::MAX, b"zz", DiskError::NoMemory),
        Ask::Read(b"abXYe12\0\0z"),
        Ask::Failures(0),
    ];
    match made(alloc, [100, 100, 0, 0]) {
        Some(mut disk) => are_answered(alloc, &mut disk, &asks),
        None => false,
    }
}

#[test]
fn calls_fail_as_told(rt: HostRuntime) {
    assert!(rt; fail_as_told(rt.alloc()));
}

#[test]
fn a_write_goes_over_and_past_the_end(rt: HostRuntime) {
    assert!(rt; are_written(rt.alloc()));
}
