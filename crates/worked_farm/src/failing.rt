//! A node whose disk fails, and that is restarted.

ghost use Rattle.std.specs.Prelude.{◌≡◌, length, IfSome};
ghost use Rattle.std.specs.List.{AllByRecursion};
ghost use Rattle.durable_pair_memory.specs.contracts.memory.MemoryPairDisk.TheImpl as memory;
ghost use Rattle.c_checker_rules.specs.Checked.{program_tree};
ghost use Rattle.cminor_program_ranges.specs.Names.{HaveNames};
ghost use Rattle.farm_nodes_turn_node.specs.Asked.{MayBeAsked};
ghost use Rattle.worked_farm.specs.Nodes.{HasThird};

use crate::linking::{Node, all_linked, disks_of, empty_disk};
use crate::turning::{back_over, joined, open_three, parted, turned, was_stopped};
use acceptor_log_form::LogError;
use durable_pair_memory::MemoryPair;
use farm_nodes::{Farm, FarmError, OpenFault, Optimising, Source, optimisers_of};
use rand_pcg::Pcg32;
use rooms_hall::{Hall, Naming};
use std::alloc::Global;
use std::sync::Wait;
use std::thread::Threads;
use worked_row_files::{owned, some};

/// How many generators the crashes are drawn by, the first ones for a failure and the following ones for the next.
const GENERATORS: u64 = 16;

/// So many calls of the disk may fail at most.
const MOST: usize = 400;

/// Fewer calls than a node's journal needs.
const FEW: usize = 20;

/// Three empty disks, the third of which fails at this call.
fn disks_failing(alloc: Global, call: usize) -> Option<Vec<MemoryPair>>
    ensures { IfSome result (λ disks. length disks.items ≡ 3) }
{
    let Some(mut disks) = disks_of(alloc, 2) else {
        return None;
    };
    let Some(mut disk) = empty_disk(alloc) else {
        return None;
    };
    disk.fail_at(call);
    if disks.push(disk).is_err() {
        return None;
    }
    Some(disks)
}

/// Whether the third node stopped when its disk failed; none where it did not stop as it should, or where not all nodes link one
/// program when it is back over what a crash left.
fn lives<H: Naming + Send, R: Threads + Wait + Sync>(
    threads: &R,
    alloc: Global,
    source: &Source,
    nodes: Vec<Node<H>>,
    seed: u64,
) -> Option<bool>
    requires fit { AllByRecursion (MayBeAsked memory.ghosts) nodes.items }
    requires third { HasThird source.now.digest nodes.items }
    requires names { HaveNames (program_tree source.now.program) }
{
    let Some(nodes) = turned(threads, alloc, nodes) else {
        return None;
    };
    let Some((others, mut node)) = parted(nodes) else {
        return None;
    };
    let Some(stopped) = was_stopped(&mut node) else {
        return None;
    };
    let Ok(disk) = node.disk().crash(alloc, &mut Pcg32::new(seed, 0)) else {
        return None;
    };
    let Some(back) = back_over(node, disk) else {
        return None;
    };
    let Some(nodes) = joined(others, back) else {
        return None;
    };
    let Some(mut nodes) = turned(threads, alloc, nodes) else {
        return None;
    };
    if all_linked(alloc, source, &mut nodes).is_none() {
        return None;
    }
    Some(stopped)
}

/// The same of a farm whose third node's disk fails at this call, also where the node does not even open.
fn fails<H: Naming + Send, R: Threads + Wait + Sync>(
    threads: &R,
    alloc: Global,
    hall: &Hall<H>,
    text: &[u8],
    call: usize,
    seed: u64,
) -> Option<bool> {
    let Some(disks) = disks_failing(alloc, call) else {
        return None;
    };
    let Ok(oracles) = optimisers_of(alloc, 3, Optimising::Drawn) else {
        return None;
    };
    match open_three(threads, alloc, hall, text, disks, oracles, seed) {
        Ok(farm) => {
            let Farm { source, nodes } = farm;
            lives(threads, alloc, &source, nodes, seed)
        }
        Err((_disks, fault)) => {
            if fault == FarmError::Disks(OpenFault::Journal(2, LogError::Device)) {
                Some(true)
            } else {
                None
            }
        }
    }
}

/// Whether the node stopped in one of so many farms whose third node's disk fails at this call, each with another crash.
fn fails_at<H: Naming + Send, R: Threads + Wait + Sync>(
    threads: &R,
    alloc: Global,
    hall: &Hall<H>,
    text: &[u8],
    call: usize,
    crashes: u64,
) -> Option<bool> {
    let mut stopped = false;
    let first = (call as u64).wrapping_mul(crashes);
    for crash in 0..crashes {
        let seed = (first.wrapping_add(crash) % GENERATORS).wrapping_add(1);
        let failed = some!(fails(threads, alloc, hall, text, call, seed));
        stopped = stopped || failed;
    }
    Some(stopped)
}

/// Each call of the disk fails in turn, until there are no more, with so many crashes of each failure.
pub(crate) fn failing_told<H: Naming + Send, R: Threads + Wait + Sync>(
    threads: &R,
    alloc: Global,
    hall: &Hall<H>,
    text: &[u8],
    crashes: u64,
) -> Option<String> {
    for call in 1..MOST {
        let stopped = some!(fails_at(threads, alloc, hall, text, call, crashes));
        if !stopped {
            return owned(alloc, if call > FEW { "linked" } else { "not stopped" });
        }
    }
    owned(alloc, "no end")
}
