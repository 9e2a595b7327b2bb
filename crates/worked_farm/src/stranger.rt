//! A node that is restarted over another's disk.

ghost use Rattle.std.specs.Prelude.{◌≡◌, length, IfSome};
ghost use Rattle.std.specs.List.{AllByRecursion};
ghost use Rattle.durable_pair_memory.specs.contracts.memory.MemoryPairDisk.TheImpl as memory;
ghost use Rattle.c_checker_rules.specs.Checked.{program_tree};
ghost use Rattle.cminor_program_ranges.specs.Names.{HaveNames};
ghost use Rattle.farm_nodes_turn_node.specs.Asked.{MayBeAsked};
ghost use Rattle.worked_farm.specs.Nodes.{HasThird};

use crate::linking::{all_linked, crashed_of, disks_of};
use crate::turning::{back_over, joined, open_three, parted, refused_over, turned};
use acceptor_log_form::LogError;
use durable_pair_memory::MemoryPair;
use farm_nodes::{Farm, Optimisers, Optimising, optimisers_of};
use farm_nodes_restart_disks::RestartFault;
use rand_pcg::Pcg32;
use rooms_hall::{Hall, Naming};
use std::alloc::Global;
use std::sync::Wait;
use std::thread::Threads;
use worked_row_files::owned;

/// A farm of three nodes after its turns.
fn whole<H: Naming + Send, R: Threads + Wait + Sync>(
    threads: &R,
    alloc: Global,
    hall: &Hall<H>,
    text: &[u8],
    seed: u64,
) -> Option<Farm<MemoryPair, Optimisers, H>>
    ensures fit { IfSome result (λ farm. AllByRecursion (MayBeAsked memory.ghosts) farm.nodes.items) }
    ensures third { IfSome result (λ farm. HasThird farm.source.digest farm.nodes.items) }
    ensures names { IfSome result (λ farm. HaveNames (program_tree farm.source.program)) }
{
    let Some(disks) = disks_of(alloc, 3) else {
        return None;
    };
    let Ok(oracles) = optimisers_of(alloc, 3, Optimising::Drawn) else {
        return None;
    };
    let Ok(farm) = open_three(threads, alloc, hall, text, disks, oracles, seed) else {
        return None;
    };
    let Farm { source, nodes } = farm;
    match turned(threads, alloc, nodes) {
        Some(nodes) => Some(Farm { source, nodes }),
        None => None,
    }
}

/// What a crash leaves of the disks of the second and the third node of another farm of the same text.
fn strange_disks<H: Naming + Send, R: Threads + Wait + Sync>(
    threads: &R,
    alloc: Global,
    hall: &Hall<H>,
    text: &[u8],
) -> Option<(MemoryPair, MemoryPair)> {
    let Some(other) = whole(threads, alloc, hall, text, 1) else {
        return None;
    };
    let Some(mut disks) = crashed_of(alloc, &other.nodes, 1) else {
        return None;
    };
    let Some(third_disk) = disks.pop() else {
        return None;
    };
    match disks.pop() {
        Some(second_disk) => Some((second_disk, third_disk)),
        None => None,
    }
}

/// Restarts a node over another node's disk, over that of the same node of another farm, and over its own.
pub(crate) fn stranger_told<H: Naming + Send, R: Threads + Wait + Sync>(
    threads: &R,
    alloc: Global,
    hall: &Hall<H>,
    text: &[u8],
) -> Option<String> {
    let Some((second_disk, third_disk)) = strange_disks(threads, alloc, hall, text) else {
        return None;
    };
    let Some(farm) = whole(threads, alloc, hall, text, 2) else {
        return None;
    };
    let Farm { source, nodes } = farm;
    let Some((others, node)) = parted(nodes) else {
        return None;
    };
    let wanted = RestartFault::Journal(LogError::OtherSource);
    let Some(node) = refused_over(node, second_disk, wanted) else {
        return owned(alloc, "over another node's");
    };
    let Some(node) = refused_over(node, third_disk, RestartFault::OtherRecords) else {
        return owned(alloc, "over another farm's");
    };
    let Ok(own_disk) = node.disk().crash(alloc, &mut Pcg32::new(3, 0)) else {
        return None;
    };
    let Some(back) = back_over(node, own_disk) else {
        return owned(alloc, "not back");
    };
    let Some(nodes) = joined(others, back) else {
        return None;
    };
    let Some(mut nodes) = turned(threads, alloc, nodes) else {
        return None;
    };
    if all_linked(alloc, &source, &mut nodes).is_none() {
        return None;
    }
    owned(alloc, "stopped")
}
