//! A pair of disks in memory: its calls are counted together, and one crash leaves an image of each.

use durable_model::{Disk, DiskError};
use durable_pair::Pair;
use durable_pair_memory::MemoryPair;
use rand_pcg::Pcg32;
use std::alloc::Global;

/// A pair of which the new disk holds `new` and the old one `Cold`, the call with this number of which fails, and each from the
/// one with the other on, where that is not 0.
fn made(alloc: Global, fails: usize, stops: usize) -> Option<MemoryPair> {
    let (new, old) = (b"new".as_slice(), b"Cold".as_slice());
    let content = Vec::from_slice(alloc, new).ok()?;
    let old_content = Vec::from_slice(alloc, old).ok()?;
    let mut pair = MemoryPair::holding(alloc, content, old_content, 100, 100).ok()?;
    pair.fail_at(fails);
    pair.stop_from(stops);
    Some(pair)
}

fn both_hold(alloc: Global, pair: &mut MemoryPair, new: &[u8], old: &[u8]) -> Option<bool> {
    let held = pair.read(alloc).ok()?;
    let old_held = pair.read_old(alloc).ok()?;
    Some(held.as_slice() == new && old_held.as_slice() == old)
}

/// Whether the device fails the call of this number, from 1 to 6: a write, a sync and a read of each disk.
fn is_failed(alloc: Global, pair: &mut MemoryPair, number: usize) -> bool {
    let answer = match number {
        1 => pair.write_at(0, b"N"),
        2 => pair.write_old_at(0, b"O"),
        3 => pair.sync(),
        4 => pair.sync_old(),
        5 => pair.read(alloc).map(|_| ()),
        _ => pair.read_old(alloc).map(|_| ()),
    };
    answer == Err(DiskError::Device)
}

/// How many of the six calls fail, and whether they do from this one on.
fn failed_from(alloc: Global, pair: &mut MemoryPair) -> (usize, u64) {
    let mut first = 0;
    for number in 1..7usize {
        if is_failed(alloc, pair, number) && first == 0 {
            first = number;
        }
    }
    (first, pair.failures())
}

/// The calls of both disks have one count, and so have the failures.
fn are_counted(alloc: Global) -> Option<bool> {
    for n in 1..7usize {
        let alone = failed_from(alloc, &mut made(alloc, n, 0)?);
        let stopped = failed_from(alloc, &mut made(alloc, 0, n)?);
        if alone != (n, 1) || stopped != (n, 7u64.saturating_sub(n as u64)) {
            return Some(false);
        }
    }
    Some(failed_from(alloc, &mut made(alloc, 0, 0)?) == (0, 0))
}

/// What was synced stays on both; of what was not, each disk may lose its own. So there are crashes that leave one write alone.
fn are_left_together(alloc: Global) -> Option<bool> {
    let mut pair = made(alloc, 0, 0)?;
    pair.write_at(0, b"NEW").ok()?;
    pair.sync().ok()?;
    pair.write_old_at(0, b"\0").ok()?;
    let (mut stays, mut spent) = (0u32, 0u32);
    for seed in 0..16u64 {
        let mut left = pair.crash(alloc, &mut Pcg32::new(seed, 0)).ok()?;
        let old = left.read_old(alloc).ok()?;
        if left.read(alloc).ok()?.as_slice() != b"NEW".as_slice()
            || old.get(1..) != Some(b"old".as_slice())
        {
            return Some(false);
        }
        stays = stays.saturating_add(u32::from(old.first() == Some(&b'C')));
        spent = spent.saturating_add(u32::from(old.first() == Some(&0)));
    }
    pair.sync_old().ok()?;
    let mut left = pair.crash(alloc, &mut Pcg32::new(1, 0)).ok()?;
    Some(0 < stays && 0 < spent && both_hold(alloc, &mut left, b"NEW", b"\0old")?)
}

#[test]
fn calls_of_both_are_counted_together(rt: HostRuntime) {
    assert!(rt; are_counted(rt.alloc()) == Some(true));
}

#[test]
fn one_crash_leaves_both(rt: HostRuntime) {
    assert!(rt; are_left_together(rt.alloc()) == Some(true));
}
