//! Whether learned offers go on one from another.

ghost use Rattle.std.specs.Prelude.{◌↔◌, IsTrue};
ghost use Rattle.farm_nodes_meet_seats.specs.Learned.{learned_offer};
ghost use Rattle.farm_nodes_agreed.specs.Chains.{Follows, GoOnBefore, GoesOnFrom};

use farm_nodes_meet_seats::{NumberedSeat, Seat, learned_offer};
use farm_nodes_turn_passes::Which;
use lang_base::{Language, Pass};
use rooms_hall::Naming;
use rtl_language::Function;

/// Whether the offer that is learned in a room has been seen and has this input: all of it is compared.
fn goes_on_from<P: Pass>(input: &<P::In as Language>::Fun, seat: &Seat<P>) -> bool
    ensures { IsTrue result ↔ GoesOnFrom input.now (learned_offer seat.now) }
{
    let Some(offer) = learned_offer(seat) else {
        return false;
    };
    offer.input() == input
}

/// Whether the offers that are learned in two rooms have been seen, and the second goes on from the output of the first.
fn follows<P: Pass, Q: Pass<In = P::Out>>(before: &Seat<P>, seat: &Seat<Q>) -> bool
    ensures { IsTrue result ↔ Follows (learned_offer before.now) (learned_offer seat.now) }
{
    let Some(offer) = learned_offer(before) else {
        return false;
    };
    goes_on_from(offer.output(), seat)
}

/// Whether the node has learned and seen an offer in each pass before this one of the function, whoever made it, and they go on one from
/// another, the first from the function. So what the pass begins with is what they make of the function.
pub fn go_on_before<H: Naming>(function: &Function, numbered: &NumberedSeat<H>, pass: Which) -> bool
    ensures { IsTrue result ↔ GoOnBefore function.now numbered.now pass }
{
    let seat = &numbered.seat;
    match pass {
        Which::Constants => true,
        Which::Expressions => goes_on_from(function, &seat.first),
        Which::Allocation => {
            goes_on_from(function, &seat.first) && follows(&seat.first, &seat.second)
        }
        Which::Order => {
            goes_on_from(function, &seat.first)
                && follows(&seat.first, &seat.second)
                && follows(&seat.second, &seat.third)
        }
    }
}
