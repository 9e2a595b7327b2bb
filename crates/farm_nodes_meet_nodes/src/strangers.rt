ghost use Rattle.std.specs.Prelude.{◌↔◌, IsTrue};
ghost use Rattle.farm_nodes_meet_nodes.specs.Meeting.{AreStrangers};

use farm_nodes_turn_node::FarmNode;
use rooms_hall::Naming;

/// Whether two nodes are of two farms: whether of each function that both have seats of, the rooms of the one have another number
/// than those of the other. No word is loaded. Such nodes link nothing when they meet.
pub fn are_strangers<D, O, H: Naming>(first: &FarmNode<D, O, H>, second: &FarmNode<D, O, H>) -> bool
    ensures { IsTrue result ↔ AreStrangers first.now second.now }
{
    farm_nodes_meet_seats::are_strangers(&first.seats, &second.seats)
}
