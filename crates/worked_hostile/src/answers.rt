//! What is told of farms, in words.

use acceptor_log_form::LogError;
use cfarm_build_faults::BuildError;
use durable_pair_memory::MemoryPair;
use paxos_core_world::quorum::Quorums;
use rooms_hall::{Hall, Naming};
use std::alloc::Global;
use std::sync::Wait;
use std::thread::Threads;
use worked_row_files::owned;
use worked_whole::{FarmError, OpenFault, opened_on};

/// The status and the line of a build that is refused.
pub(crate) fn line_of(alloc: Global, fault: &BuildError) -> Option<String> {
    let status = fault.status();
    format!(in alloc; "{status} {fault}").ok()
}

/// The same of a farm that does not open, if that was told.
pub(crate) fn line_of_farm(alloc: Global, fault: Option<FarmError>) -> Option<String> {
    let Some(fault) = fault else {
        return None;
    };
    let fault = match fault {
        FarmError::Source(fault) => BuildError::Source(fault),
        FarmError::Disks(fault) => BuildError::Disks(fault),
    };
    line_of(alloc, &fault)
}

/// Whether a farm is refused since this node's disk failed.
pub(crate) fn is_failure(fault: &Option<FarmError>, node: u8) -> bool {
    match fault {
        Some(FarmError::Disks(OpenFault::Journal(number, LogError::Device))) => *number == node,
        _ => false,
    }
}

/// Whether a farm opens over the disks; else its line.
pub(crate) fn opening_told<H: Naming, R: Threads + Wait + Sync>(
    threads: &R,
    alloc: Global,
    hall: &Hall<H>,
    text: &[u8],
    quorums: Quorums,
    disks: Vec<MemoryPair>,
) -> Option<String> {
    match opened_on(threads, alloc, hall, text, quorums, disks) {
        Ok(_farm) => owned(alloc, "opened"),
        Err((_disks, fault)) => line_of_farm(alloc, fault),
    }
}
