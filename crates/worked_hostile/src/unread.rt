//! Disks that fail while a farm opens.

use crate::answers::is_failure;
use durable_pair_memory::MemoryPair;
use paxos_core_world::quorum::Quorums;
use rooms_hall::{Hall, Naming};
use std::alloc::Global;
use std::sync::Wait;
use std::thread::Threads;
use worked_row_files::owned;
use worked_whole::{Node, all_linked, crashed_of, opened_on, ran_on, stays, whole};

/// More calls of a disk than an opening makes.
const MOST: usize = 100;

/// What a crash leaves of the disks of all nodes; that of this node fails at this call.
fn disks_failing<H: Naming>(
    alloc: Global,
    nodes: &[Node<H>],
    node: u8,
    call: usize,
) -> Option<Vec<MemoryPair>> {
    let Some(mut disks) = crashed_of(alloc, nodes, 1) else {
        return None;
    };
    match disks.get_mut(usize::from(node)) {
        Some(disk) => disk.fail_at(call),
        None => return None,
    }
    Some(disks)
}

/// Whether an opening tells that the node's disk fails; none where it tells something else, or a farm on the disks that come back does
/// not link what was linked before.
fn is_told<H: Naming + Send, R: Threads + Wait + Sync>(
    threads: &R,
    alloc: Global,
    hall: &Hall<H>,
    text: &[u8],
    quorums: Quorums,
    disks: Vec<MemoryPair>,
    node: u8,
    linked: &[Vec<u8>],
) -> Option<bool> {
    let (disks, fault) = match opened_on(threads, alloc, hall, text, quorums, disks) {
        Ok(_farm) => return Some(false),
        Err(refused) => refused,
    };
    if !is_failure(&fault, node) {
        return None;
    }
    let Ok(mut nodes) = ran_on(threads, alloc, hall, text, quorums, disks) else {
        return None;
    };
    match all_linked(alloc, &mut nodes) {
        Some(again) if stays(linked, &again) => Some(true),
        _ => None,
    }
}

/// How many calls of the node's disk an opening makes, each of which it tells where it fails.
fn calls_told<H: Naming + Send, R: Threads + Wait + Sync>(
    threads: &R,
    alloc: Global,
    hall: &Hall<H>,
    text: &[u8],
    quorums: Quorums,
    nodes: &[Node<H>],
    node: u8,
    linked: &[Vec<u8>],
) -> Option<usize> {
    for call in 1..MOST {
        let Some(disks) = disks_failing(alloc, nodes, node, call) else {
            return None;
        };
        match is_told(threads, alloc, hall, text, quorums, disks, node, linked) {
            Some(true) => {}
            Some(false) => return Some(call - 1),
            None => return None,
        }
    }
    None
}

/// Each call of each disk of a whole farm fails in turn, while another farm opens on what a crash left.
pub(crate) fn unread_told<H: Naming + Send, R: Threads + Wait + Sync>(
    threads: &R,
    alloc: Global,
    hall: &Hall<H>,
    text: &[u8],
    quorums: Quorums,
) -> Option<String> {
    let Some(mut nodes) = whole(threads, alloc, hall, text, quorums) else {
        return None;
    };
    let Some(linked) = all_linked(alloc, &mut nodes) else {
        return None;
    };
    for node in 0..quorums.nodes() {
        match calls_told(threads, alloc, hall, text, quorums, &nodes, node, &linked) {
            Some(calls) if calls > 1 => {}
            _ => return owned(alloc, "not told"),
        }
    }
    owned(alloc, "linked")
}
