//! The function forms that the passes begin with.

ghost use Rattle.std.specs.Prelude.{◌≡◌, option_map, IfOk};
ghost use Rattle.farm_nodes_meet_seats.specs.Learned.{learned_offer};
ghost use Rattle.farm_nodes_agreed.specs.Forms.{bytes_in, form_of};

use farm_nodes_meet_seats::{NumberedSeat, Seat, learned_offer};
use farm_nodes_turn_passes::Which;
use lang_base::{Language, NoMemory, Pass};
use rooms_hall::Naming;
use rtl_language::{Function, Rtl};
use std::alloc::Global;

/// The bytes of a function.
fn written<L: Language>(alloc: Global, function: &L::Fun) -> Result<Vec<u8>, NoMemory>
    ensures { IfOk result (λ bytes. bytes.items ≡ L.spelling function.now) }
{
    let mut bytes = Vec::new(alloc);
    match L::write(function, &mut bytes) {
        Ok(()) => Ok(bytes),
        Err(fault) => Err(fault),
    }
}

/// The bytes of the output of the offer that is learned in a room, where it has been seen.
fn output_in<P: Pass>(alloc: Global, seat: &Seat<P>) -> Result<Option<Vec<u8>>, NoMemory>
    ensures { IfOk result (λ form.
        bytes_in form ≡ option_map (λ offer. P.Out.spelling offer.output) (learned_offer seat.now)) }
{
    let Some(offer) = learned_offer(seat) else {
        return Ok(None);
    };
    match written::<P::Out>(alloc, offer.output()) {
        Ok(bytes) => Ok(Some(bytes)),
        Err(fault) => Err(fault),
    }
}

/// The function form that a pass of the function begins with, as the node knows it: in bytes the function itself, or the output of the offer
/// that it has learned in the pass before, whoever made it. None where it has learned none there, or has not seen it.
pub fn form_of<H: Naming>(
    alloc: Global,
    function: &Function,
    numbered: &NumberedSeat<H>,
    pass: Which,
) -> Result<Option<Vec<u8>>, NoMemory>
    ensures { IfOk result (λ form. bytes_in form ≡ form_of function.now numbered.now pass) }
{
    match pass {
        Which::Constants => match written::<Rtl>(alloc, function) {
            Ok(form) => Ok(Some(form)),
            Err(fault) => Err(fault),
        },
        Which::Expressions => output_in(alloc, &numbered.seat.first),
        Which::Allocation => output_in(alloc, &numbered.seat.second),
        Which::Order => output_in(alloc, &numbered.seat.third),
    }
}
