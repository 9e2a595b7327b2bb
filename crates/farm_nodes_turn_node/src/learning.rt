ghost use Rattle.std.specs.Prelude.{◌≡◌};
ghost use Rattle.farm_nodes_turn_function.specs.Fours.{four_of, words_of};

use farm_nodes_turn_function::{NumberedSeat, Which};
use rooms_hall::Naming;

/// The value that the node has learned in the room of one pass of the function.
pub(crate) fn learned_in<H: Naming>(numbered: &NumberedSeat<H>, pass: Which) -> Option<u8>
    ensures { result ≡ (words_of (four_of numbered.now) pass).node.learned }
{
    match pass {
        Which::Constants => numbered.seat.first.learned(),
        Which::Expressions => numbered.seat.second.learned(),
        Which::Allocation => numbered.seat.third.learned(),
        Which::Order => numbered.seat.fourth.learned(),
    }
}
