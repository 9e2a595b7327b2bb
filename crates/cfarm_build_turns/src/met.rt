//! Nodes that took their turns, and have met.

ghost use Rattle.std.specs.Prelude.{◌≡◌, None, OnOk, IfOk, IfErr};
ghost use Rattle.std.specs.Arc.{arc_value};
ghost use Rattle.std.specs.List.{AllByRecursion, AllZip};
ghost use Rattle.cfarm_build_meeting.specs.Alike.{HaveCounted};
ghost use Rattle.cfarm_build_meeting.specs.Neighbours.{EachTwo};
ghost use Rattle.farm_nodes_threads_teams.specs.Back.{nodes_of};
ghost use Rattle.cfarm_build_turns.specs.Nodes.{HasFewFunctions, NodeStays, NodesMetTwice, failed_of};
ghost use Rattle.cfarm_build_turns.specs.Unmet.{IsUnmet};

use crate::failing::first_failed;
use crate::meeting::meet_neighbours;
use cfarm_build_faults::BuildError;
use durable_model::Disk;
use farm_nodes_turn_node::FarmNode;
use rooms_hall::Naming;

/// The nodes after each two neighbours have met, where none had failed; the lowest that had is told. All functions were counted. All nodes
/// come back, also where a node failed or not all functions were counted.
pub fn met_all<D: Disk + Drop, O: Drop, H: Naming>(
    nodes: Vec<FarmNode<D, O, H>>,
) -> Result<Vec<FarmNode<D, O, H>>, (Vec<FarmNode<D, O, H>>, BuildError)>
    requires few { AllByRecursion (λ n. HasFewFunctions (arc_value n.program)) nodes.items }
    ensures going { OnOk result (failed_of nodes.items ≡ None) }
    ensures stay { AllZip (NodeStays D.Disk) nodes.items (nodes_of result).items }
    ensures twice { IfOk result (λ met. NodesMetTwice nodes.items met.items) }
    ensures counted { IfOk result (λ met. EachTwo (λ n m. HaveCounted n.seats.items m.seats.items) met.items) }
    ensures refused { IfErr result (λ told. IsUnmet nodes.items told.0.items told.1) }
{
    let mut nodes = nodes;
    if let Some((node, fault)) = first_failed(&nodes) {
        return Err((nodes, BuildError::Failed(node, fault)));
    }
    if !meet_neighbours(&mut nodes) {
        return Err((nodes, BuildError::Undecided));
    }
    Ok(nodes)
}
