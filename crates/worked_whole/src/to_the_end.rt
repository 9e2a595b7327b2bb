//! Whole farms: their disks do not fail, and their nodes learn in all rooms.

use crate::disks::{crashed_of, disks_of};
use crate::running::{Node, ran_on};
use durable_pair_memory::MemoryPair;
use paxos_core_world::quorum::Quorums;
use rooms_hall::{Hall, Naming};
use std::alloc::Global;
use std::sync::Wait;
use std::thread::Threads;

/// The nodes of a whole farm of the text.
pub fn whole<H: Naming + Send, R: Threads + Wait + Sync>(
    threads: &R,
    alloc: Global,
    hall: &Hall<H>,
    text: &[u8],
    quorums: Quorums,
) -> Option<Vec<Node<H>>> {
    let Some(disks) = disks_of(alloc, quorums.nodes(), 0) else {
        return None;
    };
    match ran_on(threads, alloc, hall, text, quorums, disks) {
        Ok(nodes) => Some(nodes),
        Err(_) => None,
    }
}

/// What a crash leaves of their disks.
pub fn whole_disks<H: Naming + Send, R: Threads + Wait + Sync>(
    threads: &R,
    alloc: Global,
    hall: &Hall<H>,
    text: &[u8],
    quorums: Quorums,
) -> Option<Vec<MemoryPair>> {
    match whole(threads, alloc, hall, text, quorums) {
        Some(nodes) => crashed_of(alloc, &nodes, 1),
        None => None,
    }
}
