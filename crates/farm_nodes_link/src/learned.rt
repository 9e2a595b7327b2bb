ghost use Rattle.std.specs.Prelude.{◌≡◌, ◌↔◌, is_some, IsTrue};
ghost use Rattle.farm_nodes_link.specs.Learned.{learned_by, learned_four, IsUndecided};
ghost use Rattle.farm_nodes_link.specs.Lent.{lent};

use farm_nodes_meet_seats::{NumberedSeat, learned_offer};
use linker::Chain;
use rooms_hall::Naming;

/// The four offers of a function that the node has learned, whoever made them, where it has learned and seen all four. They are
/// lent. No word is loaded, and no cell is read.
pub fn chain_of<H: Naming>(numbered: &NumberedSeat<H>) -> Option<Chain<'_>>
    ensures { lent result ≡ learned_four numbered.now }
{
    let Some(first) = learned_offer(&numbered.seat.first) else {
        return None;
    };
    let Some(second) = learned_offer(&numbered.seat.second) else {
        return None;
    };
    let Some(third) = learned_offer(&numbered.seat.third) else {
        return None;
    };
    let Some(fourth) = learned_offer(&numbered.seat.fourth) else {
        return None;
    };
    Some(Chain {
        first,
        second,
        third,
        fourth,
    })
}

/// Whether in all four rooms of a function an offer is learned, and seen.
pub fn has_learned_function<H: Naming>(numbered: &NumberedSeat<H>) -> bool
    ensures { result ≡ is_some (learned_four numbered.now) }
{
    chain_of(numbered).is_some()
}

/// Whether in one of the rooms nothing is learned, or the learned offer is not seen.
pub fn is_undecided<H: Naming>(seats: &[NumberedSeat<H>]) -> bool
    ensures { IsTrue result ↔ IsUndecided (learned_by seats.now) }
{
    for function in 0..seats.len() {
        if chain_of(&seats[function]).is_none() {
            return true;
        }
    }
    false
}
