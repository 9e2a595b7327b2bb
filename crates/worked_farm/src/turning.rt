//! Three nodes that open, take turns, stop and come back.

ghost use Rattle.std.specs.Prelude.{◌≡◌, ◌<◌, ℕ, List, length, IfSome, IfOk};
ghost use Rattle.std.specs.List.{AllByRecursion};
ghost use Rattle.c_checker_rules.specs.Checked.{program_tree};
ghost use Rattle.cminor_program_ranges.specs.Names.{HaveNames};
ghost use Rattle.farm_nodes_turn_node.specs.Asked.{MayBeAsked};
ghost use Rattle.worked_farm.specs.Nodes.{HasThird, IsThirdNode};

use acceptor_log_form::LogError;
use durable_model::Disk;
use durable_pair::Pair;
use farm_nodes::{Farm, FarmError, FarmNode, Oracles, Turn, run_threads};
use farm_nodes_restart_disks::{RestartFault, restart};
use farm_nodes_turn_offer::Fault;
use parallel_validate::OpenGate;
use rooms_hall::{Hall, Naming};
use std::alloc::Global;
use std::sync::Wait;
use std::thread::Threads;

/// How many turns each node may take: more than any of the farms needs.
pub(crate) const TURNS: u64 = 10_000;

/// A node of more functions is none of these farms'.
const MOST_FUNCTIONS: usize = 64;

/// A farm of three nodes on these disks, with majorities.
pub(crate) fn open_three<P: Pair + Drop, O: Drop, H: Naming, R: Threads + Wait + Sync>(
    threads: &R,
    alloc: Global,
    hall: &Hall<H>,
    text: &[u8],
    disks: Vec<P>,
    oracles: Vec<O>,
    seed: u64,
) -> Result<Farm<P, O, H>, (Vec<P>, FarmError)>
    requires disks { length disks.items ≡ 3 }
    requires oracles { length oracles.items ≡ 3 }
    ensures names { IfOk result (λ farm. HaveNames (program_tree farm.source.program)) }
    ensures fit { IfOk result (λ farm. AllByRecursion (MayBeAsked P.Disk) farm.nodes.items) }
    ensures third { IfOk result (λ farm. HasThird farm.source.digest farm.nodes.items) }
{
    let Some(quorums) = paxos_core_world::quorum::Quorums::majorities(3) else {
        unreachable!();
    };
    match Farm::open(threads, alloc, hall, text, disks, oracles, seed, quorums) {
        Ok(farm) => Ok(farm),
        Err(refused) => Err(refused),
    }
}

/// The nodes when they have learned in all their rooms, or have failed, or each has taken so many turns; none where memory or a thread is refused.
pub(crate) fn turned<
    D: Disk + Drop + Send,
    O: Oracles + Drop + Send,
    H: Naming + Send,
    R: Threads + Wait,
>(threads: &R, alloc: Global, nodes: Vec<FarmNode<D, O, H>>) -> Option<Vec<FarmNode<D, O, H>>>
    requires fit { AllByRecursion (MayBeAsked D.Disk) nodes.items }
    ensures fit { IfSome result (λ after. AllByRecursion (MayBeAsked D.Disk) after.items) }
    ensures third { (digest : List ℕ) → HasThird digest nodes.items
        → IfSome result (λ after. HasThird digest after.items) }
{
    match run_threads(threads, alloc, nodes, TURNS, 3, &OpenGate) {
        Ok(after) => Some(after),
        Err(_) => None,
    }
}

/// The first two nodes and the third, where there are three.
pub(crate) fn parted<D: Disk + Drop, O: Drop, H: Naming>(
    nodes: Vec<FarmNode<D, O, H>>,
) -> Option<(Vec<FarmNode<D, O, H>>, FarmNode<D, O, H>)>
    requires fit { AllByRecursion (MayBeAsked D.Disk) nodes.items }
    ensures first { IfSome result (λ two. AllByRecursion (MayBeAsked D.Disk) two.0.items) }
    ensures last { IfSome result (λ two. MayBeAsked D.Disk two.1) }
    ensures third { (digest : List ℕ) → HasThird digest nodes.items
        → IfSome result (λ two. IsThirdNode digest two.1) }
{
    let mut nodes = nodes;
    if nodes.len() != 3 {
        return None;
    }
    match nodes.pop() {
        Some(node) => Some((nodes, node)),
        None => None,
    }
}

/// The nodes with one more behind them.
pub(crate) fn joined<D: Disk + Drop, O: Drop, H: Naming>(
    nodes: Vec<FarmNode<D, O, H>>,
    node: FarmNode<D, O, H>,
) -> Option<Vec<FarmNode<D, O, H>>>
    requires fit { AllByRecursion (MayBeAsked D.Disk) nodes.items }
    requires last { MayBeAsked D.Disk node }
    ensures { IfSome result (λ all. AllByRecursion (MayBeAsked D.Disk) all.items) }
{
    let mut nodes = nodes;
    match nodes.push(node) {
        Ok(()) => Some(nodes),
        Err(_) => None,
    }
}

/// Whether a stopped node answers 405.
pub(crate) fn has_stopped<D: Disk, O: Oracles, H: Naming>(node: &mut FarmNode<D, O, H>) -> bool
    requires { MayBeAsked D.Disk node.old }
    ensures fit { MayBeAsked D.Disk node.new }
    ensures header { node.new.log.header ≡ node.old.log.header }
{
    if node.seats.is_empty() {
        return false;
    }
    node.turn(0) == Turn::Failed(Fault::Journal(LogError::Stopped))
}

/// The node, restarted over the disk; none where it is refused.
pub(crate) fn back_over<P: Pair + Drop, O: Drop, H: Naming>(
    node: FarmNode<P, O, H>,
    disk: P,
) -> Option<FarmNode<P, O, H>>
    requires nodes { 0 < node.log.header.nodes }
    requires fit { MayBeAsked P.Disk node }
    ensures { IfSome result (λ back. MayBeAsked P.Disk back) }
{
    if node.seats.len() > MOST_FUNCTIONS {
        return None;
    }
    match restart(node, disk) {
        Ok((back, _disk)) => Some(back),
        Err(_) => None,
    }
}

/// The node, if it is refused over the disk by this fault and stopped by it.
pub(crate) fn refused_over<P: Pair + Drop, O: Oracles + Drop, H: Naming>(
    node: FarmNode<P, O, H>,
    disk: P,
    wanted: RestartFault,
) -> Option<FarmNode<P, O, H>>
    requires nodes { 0 < node.log.header.nodes }
    requires fit { MayBeAsked P.Disk node }
    ensures fit { IfSome result (λ back. MayBeAsked P.Disk back) }
    ensures header { IfSome result (λ back. back.log.header ≡ node.log.header) }
{
    if node.seats.len() > MOST_FUNCTIONS {
        return None;
    }
    match restart(node, disk) {
        Ok(_) => None,
        Err((refused, _disk, fault)) => {
            let mut refused = refused;
            let stopped = has_stopped(&mut refused);
            if stopped && fault == wanted {
                Some(refused)
            } else {
                None
            }
        }
    }
}

/// Whether the node was stopped by its disk, and answers 405; none where another fault stopped it, or it does not answer so.
pub(crate) fn was_stopped<D: Disk, O: Oracles, H: Naming>(
    node: &mut FarmNode<D, O, H>,
) -> Option<bool>
    requires { MayBeAsked D.Disk node.old }
    ensures fit { MayBeAsked D.Disk node.new }
    ensures header { node.new.log.header ≡ node.old.log.header }
{
    let by_disk = match node.fault() {
        None => return Some(false),
        Some(fault) => *fault == Fault::Journal(LogError::Device),
    };
    if by_disk && has_stopped(node) {
        Some(true)
    } else {
        None
    }
}
