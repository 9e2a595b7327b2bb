ghost use Rattle.std.specs.Prelude.{◌≡◌, ◌<◌, ◌≤◌, ◌+◌, cond, length};
ghost use Rattle.farm_nodes_meet_seats.specs.Held.{held_of};
ghost use Rattle.farm_nodes_meet_seats.specs.Lists.{HaveMetAll};

use crate::functions::meet_in_function;
use farm_nodes_turn_passes::NumberedSeat;
use rooms_hall::Naming;

/// Two nodes meet, in all rooms of all functions. Answers how many functions both link, with all four offers seen. Nodes
/// with other numbers of functions are of two farms: they do not meet, and 0 is answered.
pub fn meet_all_seats<H: Naming>(
    first: &mut [NumberedSeat<H>],
    second: &mut [NumberedSeat<H>],
) -> u16
    requires { length first.old ≤ 65535 }
    ensures { HaveMetAll first.old second.old first.new second.new result held_of }
{
    if first.len() != second.len() {
        return 0;
    }
    let mut count: u16 = 0;
    for function in 0..first.len() {
        let both = meet_in_function(&mut first[function], &mut second[function]);
        count = one_more(count, both);
    }
    count
}

/// The count, and one more where it is so.
fn one_more(count: u16, is: bool) -> u16
    requires { count < 65535 }
    ensures { result ≡ count + cond is 1 0 }
{
    if is { count + 1 } else { count }
}
