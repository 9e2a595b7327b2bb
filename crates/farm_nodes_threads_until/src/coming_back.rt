ghost use Rattle.std.specs.Prelude.{◌≡◌, ◌<◌, IfErr};
ghost use Rattle.std.specs.List.{AllByRecursion, AllZip};
ghost use Rattle.farm_nodes_threads_teams.specs.Back.{nodes_of};
ghost use Rattle.farm_nodes_turn_node.specs.Asked.{MayBeAsked};
ghost use Rattle.farm_nodes_threads.specs.Nodes.{NodeCameBack};
ghost use Rattle.farm_nodes_threads_until.specs.Early.{StaysBehind};

use crate::wrapping::{all_nodes, all_taking, two_spares};
use durable_model::Disk;
use farm_nodes_threads_teams::{RunError, run_threads as run};
use farm_nodes_turn_node::{FarmNode, Oracles, Which};
use parallel_validate::Gate;
use rooms_hall::Naming;
use std::alloc::Global;
use std::sync::Wait;
use std::thread::Threads;

/// As the run of a farm's nodes on threads, but in the rooms of the passes up to this one alone, function by function: it ends where the
/// turns are used, or all nodes that did not fail have learned in these. With the last pass it is that run.
pub fn run_threads_until<
    D: Disk + Drop + Send,
    O: Oracles + Drop + Send,
    H: Naming + Send,
    G: Gate + Sync,
    R: Threads + Wait,
>(
    rt: &R,
    alloc: Global,
    nodes: Vec<FarmNode<D, O, H>>,
    until: Which,
    turns: u64,
    workers: usize,
    gate: &G,
) -> Result<Vec<FarmNode<D, O, H>>, (Vec<FarmNode<D, O, H>>, RunError)>
    requires workers { 0 < workers }
    requires fit { AllByRecursion (MayBeAsked D.Disk) nodes.items }
    ensures fit { AllByRecursion (MayBeAsked D.Disk) (nodes_of result).items }

    // As many in their order, each with what its turns recorded; in the rooms of later passes each node's seats are as they were.
    ensures came { AllZip (NodeCameBack D.Disk turns) nodes.items (nodes_of result).items }
    ensures behind { AllZip (StaysBehind until) nodes.items (nodes_of result).items }
    ensures same { IfErr result (λ told. told.1 ≡ RunError.NoMemory → told.0.items ≡ nodes.items) }
{
    let Some((spare, home)) = two_spares(alloc, nodes.len()) else {
        return Err((nodes, RunError::NoMemory));
    };
    match run(
        rt,
        alloc,
        all_taking(nodes, until, spare),
        turns,
        workers,
        gate,
    ) {
        Ok(taking) => Ok(all_nodes(taking, home)),
        Err((taking, error)) => Err((all_nodes(taking, home), error)),
    }
}
