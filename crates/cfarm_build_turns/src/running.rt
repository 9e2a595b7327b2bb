//! The nodes take their turns, round after round.

ghost use Rattle.std.specs.Prelude.{◌<◌, length, IfErr};
ghost use Rattle.std.specs.List.{AllByRecursion, AllZip};
ghost use Rattle.farm_nodes_threads_teams.specs.Back.{nodes_of};
ghost use Rattle.farm_nodes_turn_node.specs.Asked.{MayBeAsked};
ghost use Rattle.cfarm_build_faults.specs.Nodes.{NodeCameBack};
ghost use Rattle.cfarm_build_turns.specs.NotRun.{IsNotRun};

use crate::learning::{have_learned_all, learned_rooms};
use cfarm_build_faults::{BuildError, run_threads};
use cfarm_build_meeting::linked_functions;
use cfarm_options::Meter;
use durable_model::Disk;
use farm_nodes_threads_teams::RunError;
use farm_nodes_turn_node::{FarmNode, Oracles};
use parallel_validate::OpenGate;
use rooms_hall::Naming;
use std::alloc::Global;
use std::sync::Wait;
use std::thread::Threads;

/// How many turns at least each node takes in a round, behind which it is told how far they are.
const LEAST: u64 = 32;

/// How many turns each node takes for each function in a round: two in each of its rooms. A round begins with the first room, so one of
/// fewer turns than there are rooms would never come to the last.
const FOR_FUNCTION: usize = 8;

/// How many turns a round has.
fn turns_of<D, O, H: Naming>(nodes: &[FarmNode<D, O, H>]) -> u64
    ensures { 0 < result }
{
    let functions = match nodes.first() {
        Some(first) => first.seats.len(),
        None => 0,
    };
    LEAST.max(functions.saturating_mul(FOR_FUNCTION) as u64)
}

/// Whether no node takes turns any more: each has failed, or has learned in all its rooms.
fn are_done<D, O, H: Naming>(nodes: &[FarmNode<D, O, H>]) -> bool {
    for number in 0..nodes.len() {
        if nodes[number].halted.is_none() && !have_learned_all(&nodes[number].seats) {
            return false;
        }
    }
    true
}

/// Tells in how many rooms the first node has learned, and how many functions it links.
fn tell_of<D, O, H: Naming, M: Meter>(nodes: &[FarmNode<D, O, H>], meter: &mut M) {
    if let Some(first) = nodes.first() {
        let functions = first.seats.len();
        let rooms = functions.saturating_mul(4);
        meter.tell(
            learned_rooms(&first.seats),
            rooms,
            linked_functions(&first.seats),
            functions,
        );
    }
}

/// Each node takes so many turns at most, on a thread of its own. All come back.
fn one_round<
    D: Disk + Drop + Send,
    O: Oracles + Drop + Send,
    H: Naming + Send,
    R: Threads + Wait + Sync,
>(
    rt: &R,
    alloc: Global,
    nodes: Vec<FarmNode<D, O, H>>,
    turns: u64,
) -> Result<Vec<FarmNode<D, O, H>>, (Vec<FarmNode<D, O, H>>, BuildError)>
    requires some { 0 < length nodes.items }
    requires fit { AllByRecursion (MayBeAsked D.Disk) nodes.items }
    ensures fit { AllByRecursion (MayBeAsked D.Disk) (nodes_of result).items }
    ensures came { AllZip (NodeCameBack D.Disk turns) nodes.items (nodes_of result).items }
    ensures refused { IfErr result (λ told. IsNotRun told.1) }
{
    let workers = nodes.len();
    let gate = OpenGate;
    match run_threads(rt, alloc, nodes, turns, workers, &gate) {
        Ok(nodes) => Ok(nodes),
        Err((nodes, RunError::NoMemory)) => Err((nodes, BuildError::NoMemory)),
        Err((nodes, RunError::NoThread)) => Err((nodes, BuildError::NoThread)),
    }
}

/// The nodes, each of which has taken so many turns at most. It ends before, where none takes turns any more. All nodes come back, also where
/// memory or a thread is refused.
pub fn run_rounds<
    D: Disk + Drop + Send,
    O: Oracles + Drop + Send,
    H: Naming + Send,
    R: Threads + Wait + Sync,
    M: Meter,
>(
    rt: &R,
    alloc: Global,
    nodes: Vec<FarmNode<D, O, H>>,
    turns: u64,
    meter: &mut M,
) -> Result<Vec<FarmNode<D, O, H>>, (Vec<FarmNode<D, O, H>>, BuildError)>
    requires some { 0 < length nodes.items }
    requires fit { AllByRecursion (MayBeAsked D.Disk) nodes.items }
    ensures fit { AllByRecursion (MayBeAsked D.Disk) (nodes_of result).items }
    ensures came { AllZip (NodeCameBack D.Disk turns) nodes.items (nodes_of result).items }
    ensures refused { IfErr result (λ told. IsNotRun told.1) }
{
    let mut nodes = nodes;
    let mut left = turns;
    tell_of(&nodes, meter);
    while left > 0 {
        let round = left.min(turns_of(&nodes));
        nodes = match one_round(rt, alloc, nodes, round) {
            Ok(nodes) => nodes,
            Err(told) => return Err(told),
        };
        left -= round;
        tell_of(&nodes, meter);
        if are_done(&nodes) {
            left = 0;
        }
    }
    Ok(nodes)
}
