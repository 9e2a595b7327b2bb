ghost use Rattle.std.specs.Prelude.{◌↔◌, IsTrue};
ghost use Rattle.farm_nodes_meet_seats.specs.Held.{held_of};
ghost use Rattle.farm_nodes_meet_seats.specs.Lists.{AreAllStrange};

use farm_nodes_turn_passes::NumberedSeat;
use rooms_hall::Naming;

/// Whether two nodes are of two farms: whether of each function that both have seats of, the rooms of the one have another number
/// than those of the other. No word is loaded.
pub fn are_strangers<H: Naming>(first: &[NumberedSeat<H>], second: &[NumberedSeat<H>]) -> bool
    ensures { IsTrue result ↔ AreAllStrange held_of first.now second.now }
{
    for function in 0..first.len() {
        if function == second.len() {
            return true;
        }
        if first[function].number() == second[function].number() {
            return false;
        }
    }
    true
}
