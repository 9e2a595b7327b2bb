//! Farms that crash as a whole and are opened again.

ghost use Rattle.std.specs.Prelude.{◌≡◌, length, IfOk, IfSome};
ghost use Rattle.c_checker_rules.specs.Checked.{program_tree};
ghost use Rattle.cminor_program_ranges.specs.Names.{HaveNames};

use crate::linking::{Node, all_linked, crashed_of, empty_disk, first_linked};
use crate::turning::{open_three, turned};
use acceptor_log_form::LogError;
use durable_pair_memory::MemoryPair;
use farm_nodes::{Farm, FarmError, OpenFault, Optimisers, Optimising, optimisers_of};
use farm_nodes_turn_offer::Fault;
use rooms_hall::{Hall, Naming};
use std::alloc::Global;
use std::sync::Wait;
use std::thread::Threads;
use worked_row_files::{owned, some};

/// How many crashes are tried of each moment.
const CRASHES: u64 = 2;

/// So many calls of a disk may fail at most.
const MOST: usize = 400;

/// Fewer calls than a node's journal needs.
const FEW: usize = 20;

/// Three empty disks that fail at this call.
fn all_failing(alloc: Global, call: usize) -> Option<Vec<MemoryPair>>
    ensures { IfSome result (λ disks. length disks.items ≡ 3) }
{
    let mut disks = Vec::new(alloc);
    for _node in 0..3usize {
        let Some(mut disk) = empty_disk(alloc) else {
            return None;
        };
        disk.fail_at(call);
        if disks.push(disk).is_err() {
            return None;
        }
    }
    Some(disks)
}

/// A farm of three nodes on these disks, after its turns; or why it does not open, if it is that.
fn ran_on<H: Naming + Send, R: Threads + Wait + Sync>(
    threads: &R,
    alloc: Global,
    hall: &Hall<H>,
    text: &[u8],
    disks: Vec<MemoryPair>,
    seed: u64,
) -> Result<Farm<MemoryPair, Optimisers, H>, Option<FarmError>>
    ensures { IfOk result (λ farm. HaveNames (program_tree farm.source.program)) }
{
    if disks.len() != 3 {
        return Err(None);
    }
    let Ok(oracles) = optimisers_of(alloc, 3, Optimising::Drawn) else {
        return Err(None);
    };
    let farm = match open_three(threads, alloc, hall, text, disks, oracles, seed) {
        Ok(farm) => farm,
        Err((_disks, fault)) => return Err(Some(fault)),
    };
    let Farm { source, nodes } = farm;
    match turned(threads, alloc, nodes) {
        Some(nodes) => Ok(Farm { source, nodes }),
        None => Err(None),
    }
}

/// Whether any of the nodes was stopped by its disk.
fn any_stopped<H: Naming>(nodes: &[Node<H>]) -> bool {
    for node in nodes {
        if let Some(fault) = node.fault() {
            if *fault == Fault::Journal(LogError::Device) {
                return true;
            }
        }
    }
    false
}

/// Whether a node stopped; none where the farm is not opened again over what a crash of all disks leaves, or all nodes do not link then
/// what one had linked before.
fn crashes<H: Naming + Send, R: Threads + Wait + Sync>(
    threads: &R,
    alloc: Global,
    hall: &Hall<H>,
    text: &[u8],
    farm: Farm<MemoryPair, Optimisers, H>,
    seed: u64,
) -> Option<bool>
    requires { HaveNames (program_tree farm.source.program) }
{
    let Farm { source, nodes } = farm;
    let before = first_linked(alloc, &source, &nodes);
    let stopped = any_stopped(&nodes);
    let Some(crashed) = crashed_of(alloc, &nodes, seed) else {
        return None;
    };
    let Ok(again) = ran_on(threads, alloc, hall, text, crashed, seed) else {
        return None;
    };
    let Farm { source, mut nodes } = again;
    let Some(after) = all_linked(alloc, &source, &mut nodes) else {
        return None;
    };
    if before.is_empty() || before.as_slice() == after.as_slice() {
        Some(stopped)
    } else {
        None
    }
}

/// The same of a farm whose disks all fail at this call, also where the first node does not even open.
fn reopens<H: Naming + Send, R: Threads + Wait + Sync>(
    threads: &R,
    alloc: Global,
    hall: &Hall<H>,
    text: &[u8],
    call: usize,
    seed: u64,
) -> Option<bool> {
    let Some(disks) = all_failing(alloc, call) else {
        return None;
    };
    match ran_on(threads, alloc, hall, text, disks, seed) {
        Ok(farm) => crashes(threads, alloc, hall, text, farm, seed),
        Err(Some(FarmError::Disks(OpenFault::Journal(0, LogError::Device)))) => Some(true),
        Err(_) => None,
    }
}

/// Whether a node stopped in one of the farms whose disks all fail at this call, each with another crash.
fn reopens_at<H: Naming + Send, R: Threads + Wait + Sync>(
    threads: &R,
    alloc: Global,
    hall: &Hall<H>,
    text: &[u8],
    call: usize,
) -> Option<bool> {
    let mut stopped = false;
    for seed in 0..CRASHES {
        let failed = some!(reopens(threads, alloc, hall, text, call, seed));
        stopped = stopped || failed;
    }
    Some(stopped)
}

/// Each call of the disks fails in turn, until there are no more.
pub(crate) fn reopened_told<H: Naming + Send, R: Threads + Wait + Sync>(
    threads: &R,
    alloc: Global,
    hall: &Hall<H>,
    text: &[u8],
) -> Option<String> {
    for call in 1..MOST {
        let stopped = some!(reopens_at(threads, alloc, hall, text, call));
        if !stopped {
            return owned(alloc, if call > FEW { "linked" } else { "not stopped" });
        }
    }
    owned(alloc, "no end")
}
