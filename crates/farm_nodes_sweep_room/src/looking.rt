//! Looking at the words of a room, and at the offer that was learned there.

ghost use Rattle.std.specs.Prelude.{◌≡◌};
ghost use Rattle.farm_nodes_turn_offer.specs.SeatValue.{IsOneRoom};
ghost use Rattle.farm_nodes_turn_room.specs.Played.{SeesOn};
ghost use Rattle.farm_nodes_sweep_step.specs.Staged.{HasLooked};

use farm_nodes_sweep_step::look_all;
use farm_nodes_turn_room::Seat;
use lang_base::Pass;

/// Looks at the words of every node, its own too, and at the offer that the node has learned. It takes no step.
pub fn look<P: Pass>(seat: &mut Seat<P>)
    ensures words { HasLooked seat.old.words seat.new.words }
    ensures room { IsOneRoom seat.old seat.new }
    ensures seen { SeesOn seat.old seat.new }
{
    look_all(&mut seat.words);
    see_learned(seat);
}

/// Reads the cell of the node whose offer was learned.
fn see_learned<P: Pass>(seat: &mut Seat<P>)
    ensures words { seat.new.words ≡ seat.old.words }
    ensures room { IsOneRoom seat.old seat.new }
    ensures seen { SeesOn seat.old seat.new }
{
    let Some(value) = seat.learned() else {
        return;
    };
    if value < seat.count() {
        seat.see(value);
    }
}
