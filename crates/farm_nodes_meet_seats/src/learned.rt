ghost use Rattle.std.specs.Prelude.{◌≡◌, ◌↔◌, IsTrue, IsSome, option_copied};
ghost use Rattle.farm_nodes_meet_seats.specs.Learned.{learned_offer};

use farm_nodes_turn_passes::Seat;
use lang_base::Pass;
use offers::Offer;

/// The offer that the seat has learned, whoever made it, where it has seen it. No word is loaded, and no cell is read.
pub fn learned_offer<P: Pass>(seat: &Seat<P>) -> Option<&Offer<P>>
    ensures { option_copied result ≡ learned_offer seat.now }
{
    let Some(value) = seat.learned() else {
        return None;
    };
    if value >= seat.count() {
        return None;
    }
    seat.fetch(value)
}

/// Whether it has learned an offer and has seen it.
pub fn has_learned_offer<P: Pass>(seat: &Seat<P>) -> bool
    ensures { IsTrue result ↔ IsSome (learned_offer seat.now) }
{
    learned_offer(seat).is_some()
}
