//! The disks of nodes are given back.

ghost use Rattle.std.specs.Prelude.{◌≡◌, ◌≤◌, [], vec_len, vec_capacity};
ghost use Rattle.cfarm_build_turns.specs.Resting.{disks_in};

use durable_model::Disk;
use farm_nodes_threads_teams::put;
use farm_nodes_turn_node::FarmNode;
use rooms_hall::Naming;

/// The disks of the nodes, each with its journal, in spare memory.
pub fn disks_back<D: Disk + Drop, O: Drop, H: Naming>(
    nodes: Vec<FarmNode<D, O, H>>,
    spare: Vec<D>,
) -> Vec<D>
    requires none { spare.items ≡ [] }
    requires capacity { vec_len nodes ≤ vec_capacity spare }
    ensures { result.items ≡ disks_in nodes.items }
{
    let mut all = spare;
    for node in nodes {
        let FarmNode { log, .. } = node;
        put(&mut all, log.into_disk());
    }
    all
}
