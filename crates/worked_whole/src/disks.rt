//! Disks in memory.

use crate::running::Node;
use durable_model::Disk;
use durable_pair_memory::MemoryPair;
use rand_pcg::Pcg32;
use rooms_hall::Naming;
use std::alloc::Global;

/// How many calls and bytes a disk of a farm can note.
pub const CALLS: usize = 20_000;

pub const BYTES: usize = 2_000_000;

/// How many calls a disk can note that is only opened.
const FEW_CALLS: usize = 16;

/// An empty disk.
pub fn empty_disk(alloc: Global) -> Option<MemoryPair> {
    MemoryPair::new(alloc, CALLS, BYTES).ok()
}

/// So many empty disks, which stop from this call on; at none where it is 0.
pub fn disks_of(alloc: Global, nodes: u8, stops: usize) -> Option<Vec<MemoryPair>> {
    let mut disks = Vec::new(alloc);
    for _node in 0..nodes {
        let Some(mut disk) = empty_disk(alloc) else {
            return None;
        };
        disk.stop_from(stops);
        if disks.push(disk).is_err() {
            return None;
        }
    }
    Some(disks)
}

/// A disk of these bytes, for a farm that is only opened.
pub fn disk_of(alloc: Global, bytes: &[u8]) -> Option<MemoryPair> {
    let Ok(mut disk) = MemoryPair::new(alloc, FEW_CALLS, bytes.len().saturating_add(64)) else {
        return None;
    };
    match disk.write_at(0, bytes) {
        Ok(()) => {}
        Err(_) => return None,
    }
    match disk.sync() {
        Ok(()) => Some(disk),
        Err(_) => None,
    }
}

/// What a crash leaves of the disks.
pub fn crashed(alloc: Global, disks: &[MemoryPair], seed: u64) -> Option<Vec<MemoryPair>> {
    let mut words = Pcg32::new(seed, 0);
    let mut left = Vec::new(alloc);
    for disk in disks {
        let Ok(disk) = disk.crash(alloc, &mut words) else {
            return None;
        };
        if left.push(disk).is_err() {
            return None;
        }
    }
    Some(left)
}

/// What a crash leaves of the disks of all nodes.
pub fn crashed_of<H: Naming>(
    alloc: Global,
    nodes: &[Node<H>],
    seed: u64,
) -> Option<Vec<MemoryPair>> {
    let mut words = Pcg32::new(seed, 0);
    let mut left = Vec::new(alloc);
    for node in nodes {
        let Ok(disk) = node.disk().crash(alloc, &mut words) else {
            return None;
        };
        if left.push(disk).is_err() {
            return None;
        }
    }
    Some(left)
}

/// The bytes of each disk.
pub fn bytes_of_all(alloc: Global, disks: Vec<MemoryPair>) -> Option<Vec<Vec<u8>>> {
    let mut all = Vec::new(alloc);
    for disk in disks {
        let mut disk = disk;
        let Ok(bytes) = disk.read(alloc) else {
            return None;
        };
        if all.push(bytes).is_err() {
            return None;
        }
    }
    Some(all)
}
