//! Journals of another farm.

use crate::answers::opening_told;
use paxos_core_world::quorum::Quorums;
use rooms_hall::{Hall, Naming};
use std::alloc::Global;
use std::sync::Wait;
use std::thread::Threads;
use worked_whole::{empty_disk, whole_disks};

/// The journals of the first two nodes are exchanged.
pub(crate) fn exchanged_told<H: Naming + Send, R: Threads + Wait + Sync>(
    threads: &R,
    alloc: Global,
    hall: &Hall<H>,
    text: &[u8],
    quorums: Quorums,
) -> Option<String> {
    let Some(mut disks) = whole_disks(threads, alloc, hall, text, quorums) else {
        return None;
    };
    if disks.len() < 2 {
        return None;
    }
    disks.swap(0, 1);
    opening_told(threads, alloc, hall, text, quorums, disks)
}

/// The journals are of the text with a blank behind.
pub(crate) fn edited_told<H: Naming + Send, R: Threads + Wait + Sync>(
    threads: &R,
    alloc: Global,
    hall: &Hall<H>,
    text: &[u8],
    quorums: Quorums,
) -> Option<String> {
    let Ok(mut longer) = text.to_vec(alloc) else {
        return None;
    };
    if longer.push(b' ').is_err() {
        return None;
    }
    let Some(disks) = whole_disks(threads, alloc, hall, &longer, quorums) else {
        return None;
    };
    opening_told(threads, alloc, hall, text, quorums, disks)
}

/// The journals are of three nodes, of which more than half are a quorum of either kind; further nodes have empty disks.
pub(crate) fn joined_told<H: Naming + Send, R: Threads + Wait + Sync>(
    threads: &R,
    alloc: Global,
    hall: &Hall<H>,
    text: &[u8],
    quorums: Quorums,
) -> Option<String> {
    let Some(three) = Quorums::majorities(3) else {
        return None;
    };
    let Some(mut disks) = whole_disks(threads, alloc, hall, text, three) else {
        return None;
    };
    let count = usize::from(quorums.nodes());
    disks.truncate(count);
    for _more in disks.len()..count {
        let Some(disk) = empty_disk(alloc) else {
            return None;
        };
        if disks.push(disk).is_err() {
            return None;
        }
    }
    opening_told(threads, alloc, hall, text, quorums, disks)
}
