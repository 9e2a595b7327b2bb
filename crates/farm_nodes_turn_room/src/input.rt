ghost use Rattle.std.specs.Prelude.{MatchOption};
ghost use Rattle.farm_nodes_turn_room.specs.Played.{HasLearnedNone, IsLearnedOutput};

use farm_nodes_turn_offer::Seat;
use lang_base::{Language, Pass};

/// The input of the next pass, where the node knows it: the output of the offer that it has learned here, whoever made
/// that, and not of its own.
pub fn learned_output<P: Pass>(seat: &Seat<P>) -> Option<&<P::Out as Language>::Fun>
    ensures { MatchOption result (HasLearnedNone seat.now) (λ r. IsLearnedOutput seat.now r.now) }
{
    let Some(value) = seat.learned() else {
        return None;
    };
    if value >= seat.count() {
        return None;
    }
    let Some(offer) = seat.fetch(value) else {
        return None;
    };
    Some(offer.output())
}
