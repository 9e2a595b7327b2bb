ghost use Rattle.std.specs.Prelude.{◌≡◌};
ghost use Rattle.cfarm_build_turns.specs.Nodes.{failed_of};

use durable_model::Disk;
use farm_nodes_turn_node::FarmNode;
use farm_nodes_turn_offer::Fault;
use rooms_hall::Naming;

/// The lowest node that a fault stopped.
pub(crate) fn first_failed<D: Disk, O, H: Naming>(
    nodes: &[FarmNode<D, O, H>],
) -> Option<(usize, Fault)>
    ensures { result ≡ failed_of nodes.now }
{
    for number in 0..nodes.len() {
        match nodes[number].fault() {
            Some(fault) => return Some((number, *fault)),
            None => {}
        }
    }
    None
}
