//! Disks that all stop, and crash.

use crate::answers::is_failure;
use acceptor_log_form::LogError;
use durable_pair_memory::MemoryPair;
use farm_nodes_turn_offer::Fault;
use paxos_core_world::quorum::Quorums;
use rooms_hall::{Hall, Naming};
use std::alloc::Global;
use std::sync::Wait;
use std::thread::Threads;
use worked_row_files::owned;
use worked_whole::{
    FarmError, Node, OpenFault, all_linked, codes_of, crashed, crashed_of, disks_of, ran_on, stays,
};

/// So many moments are tried at most.
const MOST: usize = 400;

/// Fewer calls than a node's journal needs.
const FEW: usize = 20;

/// Whether any of the nodes was stopped by its disk.
fn any_stopped<H: Naming>(nodes: &[Node<H>]) -> bool {
    for node in nodes {
        if let Some(fault) = node.fault() {
            if *fault == Fault::Journal(LogError::Device) {
                return true;
            }
        }
    }
    false
}

/// Whether a node stopped; none where a farm on what a crash of all disks leaves does not open, or all its nodes do not link all
/// functions, and those that a node had linked with the same code.
fn lives<H: Naming + Send, R: Threads + Wait + Sync>(
    threads: &R,
    alloc: Global,
    hall: &Hall<H>,
    text: &[u8],
    quorums: Quorums,
    nodes: &[Node<H>],
    seed: u64,
) -> Option<bool> {
    let Some(disks) = crashed_of(alloc, nodes, seed) else {
        return None;
    };
    let Ok(mut again) = ran_on(threads, alloc, hall, text, quorums, disks) else {
        return None;
    };
    let Some(after) = all_linked(alloc, &mut again) else {
        return None;
    };
    for node in nodes {
        let Some(before) = codes_of(alloc, node) else {
            return None;
        };
        if !stays(&before, &after) {
            return None;
        }
    }
    Some(any_stopped(nodes))
}

/// Whether a farm is refused since the first node's disk holds no whole journal.
fn is_unmade(fault: &Option<FarmError>) -> bool {
    match fault {
        Some(FarmError::Disks(OpenFault::Journal(0, fault))) => matches!(
            fault,
            LogError::NotAJournal | LogError::BadRecord | LogError::OtherSource
        ),
        _ => false,
    }
}

/// Whether all nodes link one program on what a crash leaves of disks of which the first one stopped while its journal was made; or that
/// is refused: then a farm begins with an empty disk in its place, as this one did.
fn begins<H: Naming + Send, R: Threads + Wait + Sync>(
    threads: &R,
    alloc: Global,
    hall: &Hall<H>,
    text: &[u8],
    quorums: Quorums,
    disks: &[MemoryPair],
    seed: u64,
) -> bool {
    let Some(left) = crashed(alloc, disks, seed) else {
        return false;
    };
    match ran_on(threads, alloc, hall, text, quorums, left) {
        Ok(nodes) => {
            let mut nodes = nodes;
            all_linked(alloc, &mut nodes).is_some()
        }
        Err((_disks, fault)) => is_unmade(&fault),
    }
}

/// Whether a node stopped of a farm whose disks all stop from this call on; none where what they held does not stay.
fn stops<H: Naming + Send, R: Threads + Wait + Sync>(
    threads: &R,
    alloc: Global,
    hall: &Hall<H>,
    text: &[u8],
    quorums: Quorums,
    call: usize,
) -> Option<bool> {
    let Some(disks) = disks_of(alloc, quorums.nodes(), call) else {
        return None;
    };
    let seed = call as u64;
    match ran_on(threads, alloc, hall, text, quorums, disks) {
        Ok(nodes) => lives(threads, alloc, hall, text, quorums, &nodes, seed),
        Err((disks, fault)) => {
            if is_failure(&fault, 0) && begins(threads, alloc, hall, text, quorums, &disks, seed) {
                Some(true)
            } else {
                None
            }
        }
    }
}

/// All disks stop, so many calls later in each farm, until there are no more.
pub(crate) fn stopped_told<H: Naming + Send, R: Threads + Wait + Sync>(
    threads: &R,
    alloc: Global,
    hall: &Hall<H>,
    step: &str,
    text: &[u8],
    quorums: Quorums,
) -> Option<String> {
    let Ok(step) = step.parse() else {
        return None;
    };
    let mut call = 1usize;
    for _moment in 0..MOST {
        let Some(stopped) = stops(threads, alloc, hall, text, quorums, call) else {
            return None;
        };
        if !stopped {
            return owned(alloc, if call > FEW { "linked" } else { "not stopped" });
        }
        call = call.saturating_add(step);
    }
    owned(alloc, "no end")
}
