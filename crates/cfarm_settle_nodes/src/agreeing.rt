//! The code that three nodes agree on.

ghost use Rattle.cfarm_settle_nodes.specs.Agreed.{HaveFound, IsCodeOf, IsFoundAs, IsOwnCode};
ghost use Rattle.cfarm_settle_nodes.specs.Goes.{AreThree, SeesNoMore};

use crate::meeting::agreed;
use lang_base::{Language, NoMemory, Pass};
use offers::offer_keeps;
use rooms::Seat;
use std::alloc::Global;

/// The bytes of the output of the seat's own offer, if it has made one.
fn own_code<P: Pass>(alloc: Global, seat: &Seat<P>) -> Result<Option<Vec<u8>>, NoMemory>
    ensures { IsFoundAs (IsOwnCode P.In.Language P.Out.Language P.Pass seat.now) result }
{
    let Some(offer) = seat.fetch(seat.me()) else {
        return Ok(None);
    };
    offer.validated();
    offer_keeps(offer);
    let mut code = Vec::new(alloc);
    P::Out::write(offer.output(), &mut code)?;
    Ok(Some(code))
}

/// The bytes of the output of the node's offer.
fn code_of<P: Pass>(
    alloc: Global,
    node: u8,
    first: &Seat<P>,
    second: &Seat<P>,
    third: &Seat<P>,
) -> Result<Option<Vec<u8>>, NoMemory>
    ensures { IsFoundAs (IsCodeOf P.In.Language P.Out.Language P.Pass node first.now second.now third.now) result }
{
    match node {
        0 => own_code(alloc, first),
        1 => own_code(alloc, second),
        2 => own_code(alloc, third),
        _ => Ok(None),
    }
}

/// The bytes of the code that the seats of three nodes have agreed on. None where not all three have learned one node's number.
pub fn code_agreed<P: Pass>(
    alloc: Global,
    first: &mut Seat<P>,
    second: &mut Seat<P>,
    third: &mut Seat<P>,
) -> Result<Option<Vec<u8>>, NoMemory>
    requires { AreThree first.old second.old third.old }
    // Of these seats that have met it is said, whose nodes offer for this input.
    ensures agreed { HaveFound P.In.Language P.Out.Language P.Pass first second third result }
    ensures stay { SeesNoMore first.old first.new × SeesNoMore second.old second.new × SeesNoMore third.old third.new }
{
    let Some(node) = agreed(first, second, third) else {
        return Ok(None);
    };
    code_of(alloc, node, first, second, third)
}
