//! Farms that open, and that take their turns.

ghost use Rattle.std.specs.Prelude.{IfOk};
ghost use Rattle.std.specs.List.{AllByRecursion};
ghost use Rattle.farm_nodes.specs.Asked.{MayBeAsked};

use durable_pair::Pair;
use durable_pair_memory::MemoryPair;
use farm_nodes::{Farm, FarmError, FarmNode, Optimisers, Optimising, optimisers_of, run_threads};
use parallel_validate::OpenGate;
use paxos_core_world::quorum::Quorums;
use rooms_hall::{Hall, Naming};
use std::alloc::Global;
use std::sync::Wait;
use std::thread::Threads;

/// How many turns each node may take: more than any of the farms needs.
pub const TURNS: u64 = 100_000;

/// A node of these farms.
pub type Node<H> = FarmNode<MemoryPair, Optimisers, H>;

/// A farm with these quorums and a node for each of the disks. Where it does not open they come back, with the fault, if it is one; none
/// where there are not as many disks as nodes.
pub fn opened_on<P: Pair + Drop, H: Naming, R: Threads + Wait + Sync>(
    threads: &R,
    alloc: Global,
    hall: &Hall<H>,
    text: &[u8],
    quorums: Quorums,
    disks: Vec<P>,
) -> Result<Farm<P, Optimisers, H>, (Vec<P>, Option<FarmError>)>
    ensures { IfOk result (λ farm. AllByRecursion (MayBeAsked P.Disk) farm.nodes.items) }
{
    let count = usize::from(quorums.nodes());
    if disks.len() != count {
        return Err((disks, None));
    }
    let Ok(oracles) = optimisers_of(alloc, count, Optimising::Drawn) else {
        return Err((disks, None));
    };
    match Farm::open(threads, alloc, hall, text, disks, oracles, 1, quorums) {
        Ok(farm) => Ok(farm),
        Err((disks, fault)) => Err((disks, Some(fault))),
    }
}

/// The nodes of such a farm, once they have learned in all their rooms, or a fault has stopped them.
pub fn ran_on<H: Naming + Send, R: Threads + Wait + Sync>(
    threads: &R,
    alloc: Global,
    hall: &Hall<H>,
    text: &[u8],
    quorums: Quorums,
    disks: Vec<MemoryPair>,
) -> Result<Vec<Node<H>>, (Vec<MemoryPair>, Option<FarmError>)> {
    let farm = match opened_on(threads, alloc, hall, text, quorums, disks) {
        Ok(farm) => farm,
        Err(refused) => return Err(refused),
    };
    let Farm { nodes, .. } = farm;
    match run_threads(threads, alloc, nodes, TURNS, 3, &OpenGate) {
        Ok(nodes) => Ok(nodes),
        Err(_) => Err((Vec::new(alloc), None)),
    }
}
