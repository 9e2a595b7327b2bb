//! Journals of the older forms, which a farm migrates while its disks fail and it crashes.

use crate::answers::is_failure;
use durable_pair_memory::MemoryPair;
use farm_nodes_source::prepare;
use paxos_core_world::quorum::Quorums;
use rooms_hall::{Hall, Naming};
use std::alloc::Global;
use std::sync::Wait;
use std::thread::Threads;
use worked_row_files::{fine, owned, some};
use worked_whole::{
    BYTES, CALLS, Farm, Node, all_linked, bytes_of_all, crashed, crashed_of, opened_on, ran_on,
    stays, whole,
};

/// More calls of a pair than an opening makes.
const MOST: usize = 100;

/// How many bytes stand in front of the first gate of a new journal.
const HEADER: usize = 40;

/// An old journal with the records of a new one: behind `CFJ1`, the nodes and the node where their number is odd and both kinds of
/// quorum are half of it, rounded up, and else behind `CFJF`, the nodes, both sizes and the node, stands the digest.
fn old_journal(
    alloc: Global,
    quorums: Quorums,
    node: u8,
    digest: &[u8; 32],
    journal: &[u8],
) -> Option<Vec<u8>> {
    let (nodes, promise, accept) = (quorums.nodes(), quorums.promise(), quorums.accept());
    let half = nodes / 2 + 1;
    let mut old = Vec::new(alloc);
    if nodes % 2 == 1 && promise == half && accept == half {
        let front = [b'C', b'F', b'J', b'1', nodes, node];
        fine!(old.extend_from_slice(front.as_slice()));
    } else {
        let front = [b'C', b'F', b'J', b'F', nodes, promise, accept, node];
        fine!(old.extend_from_slice(front.as_slice()));
    }
    if journal.len() < HEADER {
        return None;
    }
    let (_header, records) = journal.split_at(HEADER);
    fine!(old.extend_from_slice(digest.as_slice()));
    fine!(old.extend_from_slice(records));
    Some(old)
}

/// The pairs of nodes whose journals these are, of older forms; that of this node fails at this call.
fn old_pairs(
    alloc: Global,
    quorums: Quorums,
    digest: &[u8; 32],
    journals: &[Vec<u8>],
    fails: u8,
    call: usize,
) -> Option<Vec<MemoryPair>> {
    let mut pairs = Vec::new(alloc);
    let mut node = 0u8;
    for journal in journals {
        let old = some!(old_journal(alloc, quorums, node, digest, journal.as_slice()));
        let mut pair = fine!(MemoryPair::holding(alloc, Vec::new(alloc), old, CALLS, BYTES));
        if node == fails {
            pair.fail_at(call);
        }
        if pairs.push(pair).is_err() {
            return None;
        }
        node = node.saturating_add(1);
    }
    Some(pairs)
}

/// Whether no old journal counts any more.
fn all_spent<H: Naming>(nodes: &[Node<H>]) -> bool {
    for node in nodes {
        if node.disk().old_bytes().first() == Some(&b'C') {
            return false;
        }
    }
    true
}

/// Whether an opening over old journals tells that the node's pair fails; none where it tells something else, or a farm on what a crash
/// leaves of the pairs that come back does not link what was linked before, or leaves an old journal.
fn is_told<H: Naming + Send, R: Threads + Wait + Sync>(
    threads: &R,
    alloc: Global,
    hall: &Hall<H>,
    text: &[u8],
    quorums: Quorums,
    pairs: Vec<MemoryPair>,
    node: u8,
    seed: u64,
    linked: &[Vec<u8>],
) -> Option<bool> {
    let (left, failed) = match opened_on(threads, alloc, hall, text, quorums, pairs) {
        Ok(farm) => {
            let Farm { nodes, .. } = farm;
            (crashed_of(alloc, &nodes, seed), false)
        }
        Err((pairs, fault)) => {
            if !is_failure(&fault, node) {
                return None;
            }
            (crashed(alloc, &pairs, seed), true)
        }
    };
    let Some(left) = left else {
        return None;
    };
    let Ok(mut nodes) = ran_on(threads, alloc, hall, text, quorums, left) else {
        return None;
    };
    if !all_spent(&nodes) {
        return None;
    }
    match all_linked(alloc, &mut nodes) {
        Some(again) if stays(linked, &again) => Some(failed),
        _ => None,
    }
}

/// How many calls of the node's pair an opening makes over old journals, each of which it tells where it fails.
fn calls_told<H: Naming + Send, R: Threads + Wait + Sync>(
    threads: &R,
    alloc: Global,
    hall: &Hall<H>,
    text: &[u8],
    quorums: Quorums,
    digest: &[u8; 32],
    journals: &[Vec<u8>],
    node: u8,
    linked: &[Vec<u8>],
) -> Option<usize> {
    for call in 1..MOST {
        let Some(pairs) = old_pairs(alloc, quorums, digest, journals, node, call) else {
            return None;
        };
        let seed = call as u64;
        match is_told(
            threads, alloc, hall, text, quorums, pairs, node, seed, linked,
        ) {
            Some(true) => {}
            Some(false) => return Some(call - 1),
            None => return None,
        }
    }
    None
}

/// Each call of each pair of a whole farm fails in turn, while another farm opens on its journals, which are told in an older form; all
/// crash then.
pub(crate) fn migrated_told<H: Naming + Send, R: Threads + Wait + Sync>(
    threads: &R,
    alloc: Global,
    hall: &Hall<H>,
    text: &[u8],
    quorums: Quorums,
) -> Option<String> {
    let Ok(source) = prepare(alloc, text) else {
        return None;
    };
    let Some(mut nodes) = whole(threads, alloc, hall, text, quorums) else {
        return None;
    };
    let Some(linked) = all_linked(alloc, &mut nodes) else {
        return None;
    };
    let Some(pairs) = crashed_of(alloc, &nodes, 1) else {
        return None;
    };
    let Some(journals) = bytes_of_all(alloc, pairs) else {
        return None;
    };
    let digest = &source.digest;
    for node in 0..quorums.nodes() {
        match calls_told(
            threads, alloc, hall, text, quorums, digest, &journals, node, &linked,
        ) {
            Some(calls) if calls > 5 => {}
            _ => return owned(alloc, "not told"),
        }
    }
    owned(alloc, "linked")
}
