//! Three seats meet.

ghost use Rattle.std.specs.Prelude.{IfSome};
ghost use Rattle.cfarm_settle_nodes.specs.Goes.{AreThree, SeesNoMore};
ghost use Rattle.cfarm_settle_nodes.specs.Learned.{AreSame, IsLearnedByAll};

use lang_base::Pass;
use rooms::{Seat, meet_seats};
use rooms_seat::Meeting;

/// The value that all meetings told.
fn same(first: Meeting, second: Meeting, third: Meeting) -> Option<u8>
    ensures { IfSome result (AreSame first second third) }
{
    let (Meeting::Same(value), Meeting::Same(other), Meeting::Same(another)) = (
        first, second, third,
    ) else {
        return None;
    };
    if other == value && another == value {
        Some(value)
    } else {
        None
    }
}

/// Each two of the seats meet: the number of the node whose offer all three have learned.
pub(crate) fn agreed<P: Pass>(
    first: &mut Seat<P>,
    second: &mut Seat<P>,
    third: &mut Seat<P>,
) -> Option<u8>
    requires { AreThree first.old second.old third.old }
    ensures learned { IfSome result (IsLearnedByAll first.new.words.view.seen) }
    ensures first { SeesNoMore first.old first.new }
    ensures second { SeesNoMore second.old second.new }
    ensures third { SeesNoMore third.old third.new }
{
    let first_two = meet_seats(first, second);
    second.known();
    let outer_two = meet_seats(first, third);
    first.known();
    third.known();
    let last_two = meet_seats(second, third);
    same(first_two, outer_two, last_two)
}
