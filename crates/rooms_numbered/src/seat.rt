ghost use Rattle.std.specs.Prelude.{◌≡◌, IfOk};
ghost use Rattle.rooms_hall.specs.RoomId.{AreNumbered};
ghost use Rattle.rooms_numbered.specs.FunctionOf.{function_of};

use rooms_function::FunctionSeat;
use rooms_hall::{Claim, Claiming, Drawn, Naming};
use std::alloc::AllocError;
use std::marker::Brand;

/// A node's seats in the four rooms of a function, and the number with which their table was opened. All calls of them may be made
/// of them as they stand here: each leaves them in their rooms.
#[derive(Drop)]
pub struct NumberedSeat<H: Naming> {
    pub seat: FunctionSeat,
    pub claim: Claim<H>,
    pub ghost named: { claim.room ≡ function_of seat },
}

impl<H: Naming> NumberedSeat<H> {
    /// Gives the number to the rooms of this seat, whose table was opened with it. Whoever opens a function's rooms draws a number, opens
    /// them with it, and gives it to them, once; each of their seats then gets the claim.
    pub fn claim_of(drawn: Drawn<H>, seat: &FunctionSeat) -> Claim<H>
        requires { AreNumbered drawn (function_of seat.now).places }
        ensures { result ≡ record { number = drawn; room = function_of seat.now } }
    {
        claim_for::<H, Brand>(drawn, seat)
    }

    /// The number, with which the table of its rooms was opened. Seats with two numbers are of two functions.
    pub fn number(&self) -> u64
        ensures value { result ≡ self.now.claim.number }
        ensures tables { AreNumbered result (function_of self.now.seat).places }
    {
        self.claim.number()
    }

    /// The seat with its rooms' number.
    pub fn of(seat: FunctionSeat, claim: &mut Claim<H>) -> Result<NumberedSeat<H>, AllocError>
        requires { claim.old.room ≡ function_of seat }
        ensures seat { IfOk result (λ numbered. numbered.seat ≡ seat) }
        ensures number { IfOk result (λ numbered. numbered.claim ≡ claim.old) }
        ensures kept { claim.new ≡ claim.old }
    {
        match claim.again() {
            Ok(claim) => Ok(NumberedSeat { seat, claim }),
            Err(fault) => Err(fault),
        }
    }
}

/// Gives the number to the rooms that `C` names, which are those of the seat.
fn claim_for<H: Naming, C: Claiming>(drawn: Drawn<H>, seat: &FunctionSeat) -> Claim<H>
    requires named { C.room ≡ function_of seat.now }
    requires numbered { AreNumbered drawn C.room.places }
    ensures { result ≡ record { number = drawn; room = function_of seat.now } }
{
    let _seat = seat.first.me();
    drawn.claim::<C>()
}
