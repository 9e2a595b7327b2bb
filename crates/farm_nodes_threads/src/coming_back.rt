ghost use Rattle.std.specs.Prelude.{◌≡◌, ◌<◌, IfErr};
ghost use Rattle.std.specs.List.{AllByRecursion, AllZip};
ghost use Rattle.farm_nodes_threads_teams.specs.Back.{nodes_of};
ghost use Rattle.farm_nodes_turn_node.specs.Asked.{MayBeAsked};
ghost use Rattle.farm_nodes_threads.specs.Nodes.{NodeCameBack};

use crate::wrapping::{all_nodes, all_taking, two_spares};
use durable_model::Disk;
use farm_nodes_threads_teams::{RunError, run_threads as run};
use farm_nodes_turn_node::{FarmNode, Oracles};
use parallel_validate::Gate;
use rooms_hall::Naming;
use std::alloc::Global;
use std::sync::Wait;
use std::thread::Threads;

/// Lets each node of a farm take at most so many turns in its rooms, in their order, round and round, on so many threads: node i on
/// the thread i modulo their number, and no node more than 64 turns ahead of the slowest that has still to learn. A node that fails
/// takes none any more. It ends where the turns are used, or all nodes that did not fail have learned in all their rooms. The gate is
/// called before and after each turn with the node's number. All nodes come back, also where memory or a thread is refused.
pub fn run_threads<
    D: Disk + Drop + Send,
    O: Oracles + Drop + Send,
    H: Naming + Send,
    G: Gate + Sync,
    R: Threads + Wait,
>(
    rt: &R,
    alloc: Global,
    nodes: Vec<FarmNode<D, O, H>>,
    turns: u64,
    workers: usize,
    gate: &G,
) -> Result<Vec<FarmNode<D, O, H>>, (Vec<FarmNode<D, O, H>>, RunError)>
    requires workers { 0 < workers }
    requires fit { AllByRecursion (MayBeAsked D.Disk) nodes.items }
    ensures fit { AllByRecursion (MayBeAsked D.Disk) (nodes_of result).items }

    // As many in their order: of the same program, in the same rooms, and each with what its turns recorded, which are so many at most. Where
    // a turn stopped a node there is a cause.
    ensures came { AllZip (NodeCameBack D.Disk turns) nodes.items (nodes_of result).items }
    ensures same { IfErr result (λ told. told.1 ≡ RunError.NoMemory → told.0.items ≡ nodes.items) }
{
    let Some((spare, home)) = two_spares(alloc, nodes.len()) else {
        return Err((nodes, RunError::NoMemory));
    };
    match run(rt, alloc, all_taking(nodes, spare), turns, workers, gate) {
        Ok(taking) => Ok(all_nodes(taking, home)),
        Err((taking, error)) => Err((all_nodes(taking, home), error)),
    }
}
