ghost use Rattle.std.specs.Prelude.{◌≡◌, ◌↔◌, ◌&&◌, IsTrue};
ghost use Rattle.farm_nodes_meet_seats.specs.Held.{held_of};
ghost use Rattle.farm_nodes_meet_seats.specs.Functions.{HasAll, HasMet};

use crate::learned::has_learned_offer;
use farm_nodes_turn_passes::{NumberedSeat, meet_numbered};
use rooms_hall::Naming;

/// The seats of two nodes in the four rooms of one function meet, room by room, where the rooms have one number. Answers whether both
/// link the function.
pub fn meet_in_function<H: Naming>(
    first: &mut NumberedSeat<H>,
    second: &mut NumberedSeat<H>,
) -> bool
    ensures { HasMet (held_of first.old) (held_of second.old) (held_of first.new) (held_of second.new) result }
{
    let told = meet_numbered(first, second);
    let both = and(has_all(first), has_all(second));
    and(told.is_some(), both)
}

/// Whether in each room of a function an offer is learned, and seen.
fn has_all<H: Naming>(numbered: &NumberedSeat<H>) -> bool
    ensures { IsTrue result ↔ HasAll (held_of numbered.now) }
{
    let early = and(
        has_learned_offer(&numbered.seat.first),
        has_learned_offer(&numbered.seat.second),
    );
    let late = and(
        has_learned_offer(&numbered.seat.third),
        has_learned_offer(&numbered.seat.fourth),
    );
    and(early, late)
}

fn and(first: bool, second: bool) -> bool
    ensures { result ≡ (first && second) }
{
    first && second
}
