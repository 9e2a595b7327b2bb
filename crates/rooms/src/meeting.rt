ghost use Rattle.std.specs.Prelude.{◌≡◌, ℕ, ◌<◌, Some};
ghost use Rattle.rooms_seat.specs.Meeting.{meeting_of, HaveMet};
ghost use Rattle.rooms.specs.SeatValue.{HoldSame, IsOneRoom};

use crate::seat::Seat;
use lang_base::Pass;
use rooms_seat::Meeting;

/// Two seats of one room tell each other what they have seen, and each loads every word once.
pub fn meet_seats<P: Pass>(first: &mut Seat<P>, second: &mut Seat<P>) -> Meeting
    requires { IsOneRoom first.old second.old }
    ensures met { HaveMet first.old.words second.old.words first.new.words second.new.words }
    ensures answer { result ≡ meeting_of first.new.words.node.learned second.new.words.node.learned }
    ensures same { (v u : ℕ) → first.new.words.node.learned ≡ Some v → second.new.words.node.learned ≡ Some u → v ≡ u }
    ensures offer { HoldSame result first.new second.new }
    ensures first_sights { first.new.sights ≡ first.old.sights }
    ensures second_sights { second.new.sights ≡ second.old.sights }
{
    let met = rooms_seat::meet_words(&mut first.words, &mut second.words);
    if let Meeting::Same(value) = met {
        first.sights.compare(&mut second.sights, usize::from(value));
    }
    met
}
