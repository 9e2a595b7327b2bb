ghost use Rattle.std.specs.Prelude.{◌≡◌, ◌≢◌, ◌↔◌, None, IfSome};
ghost use Rattle.rooms_function.specs.Met.{IsOneFunction};
ghost use Rattle.rooms_numbered.specs.FunctionOf.{AreAsBefore, ShareNoRoom, HaveMetIn};

use crate::seat::NumberedSeat;
use rooms_function::FunctionMeeting;
use rooms_hall::Naming;

/// Two seats of functions meet, and nobody need know whether they are of one function: `None` is answered of two functions, which
/// have two numbers, and no word is loaded; of one, each loads every word of its table once, pass by pass, and tells the other what it has seen, after
/// three loads of the hall's word.
#[tactic(auto, using(crate::proofs::Same::same_function))]
pub fn meet_numbered<H: Naming>(
    first: &mut NumberedSeat<H>,
    second: &mut NumberedSeat<H>,
) -> Option<FunctionMeeting>
    ensures strangers { result ≡ None → ShareNoRoom first.old.seat second.old.seat }
    ensures numbers { (result ≡ None) ↔ (first.old.claim.number ≢ second.old.claim.number) }
    ensures apart { AreAsBefore result first.old.seat second.old.seat first.new.seat second.new.seat }
    ensures same { IfSome result (λ m. IsOneFunction first.old.seat second.old.seat) }
    ensures met { IfSome result (λ m. HaveMetIn m first.old.seat second.old.seat first.new.seat second.new.seat) }
    ensures first_number { first.new.claim ≡ first.old.claim }
    ensures second_number { second.new.claim ≡ second.old.claim }
{
    if !first.claim.compare(&mut second.claim) {
        return None;
    }
    Some(rooms_function::meet_functions(&mut first.seat, &mut second.seat))
}
