ghost use Rattle.std.specs.Prelude.{◌≡◌, ℕ, Some};
ghost use Rattle.rooms_seat.specs.Meeting.{meeting_of, HaveMet};

use crate::seat::WordSeat;

/// What two seats of one room have learned.
#[derive(Clone, Copy, Debug, PartialEq, Eq)]
pub enum Meeting {
    /// Neither has learned a value.
    Neither,
    /// One of the two has.
    One,
    /// Both have, and it is this.
    Same(u8),
}

/// Two seats of one room tell each other what they have seen, and each loads every word once.
pub fn meet_words(first: &mut WordSeat, second: &mut WordSeat) -> Meeting
    requires { first.old.table ≡ second.old.table }
    ensures met { HaveMet first.old second.old first.new second.new }
    ensures answer { result ≡ meeting_of first.new.node.learned second.new.node.learned }
    ensures same { (v u : ℕ) → first.new.node.learned ≡ Some v → second.new.node.learned ≡ Some u → v ≡ u }
{
    first.sound();
    second.sound();
    let _sizes = (first.count(), second.count());
    second.hear(first);
    second.look_at_all();
    first.hear(second);
    first.look_at_all();
    first.known();
    second.known();
    meeting_of(first.learned(), second.learned())
}

/// What two seats that have learned this have learned together.
fn meeting_of(first: Option<u8>, second: Option<u8>) -> Meeting
    ensures { result ≡ meeting_of first second }
{
    match (first, second) {
        (None, None) => Meeting::Neither,
        (Some(value), Some(_)) => Meeting::Same(value),
        _ => Meeting::One,
    }
}
