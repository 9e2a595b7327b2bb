//! Whether offers stand: each goes on from the one before it, and its pass accepts it.

ghost use Rattle.std.specs.Prelude.{◌≡◌, length, IfErr, OnOk};
ghost use Rattle.bundle_reading.specs.Read.{offers_in, offers_of};
ghost use Rattle.bundle_offers.specs.Standing.{AllStand, IsFirstFault, IsStep, Judged, first_of};

use bundle_offers::{OfferFault, PassNumber, PassReasons, Reasons, stands};
use bundle_reading::{Alloc, Four};
use constprop_check::ConstProp;
use cse_check::Cse;
use lang_base::{Language, Named, Pass};
use linearize_check::Linearize;
use offers::PartsOf;
use rtl_language::Function;
use std::alloc::Global;

/// What is answered of an offer that has to go on from this function.
fn step<P: Pass, S: Reasons<P>>(
    alloc: Global,
    at: PassNumber,
    before: &<P::In as Language>::Fun,
    parts: &PartsOf<P>,
) -> Result<(), OfferFault>
    ensures { IsStep at P.accepts S.tells before.now parts.now result }
{
    match stands::<P, S>(alloc, at, before, parts) {
        Ok(()) => Ok(()),
        Err(fault) => Err(fault),
    }
}

/// The first fault of four answers, in the order of the passes.
fn in_order(
    first: Result<(), OfferFault>,
    second: Result<(), OfferFault>,
    third: Result<(), OfferFault>,
    fourth: Result<(), OfferFault>,
) -> Result<(), OfferFault>
    ensures { result ≡ first_of first second third fourth }
{
    match (first, second, third) {
        (Err(fault), _, _) => Err(fault),
        (Ok(()), Err(fault), _) => Err(fault),
        (Ok(()), Ok(()), Err(fault)) => Err(fault),
        (Ok(()), Ok(()), Ok(())) => fourth,
    }
}

/// Whether the four offers of a function stand, or the first that does not.
fn judge(alloc: Global, function: &Function, four: &Four) -> Result<(), OfferFault>
    ensures { Judged function.now (offers_of four.now) result }
{
    let first = step::<ConstProp, PassReasons>(alloc, PassNumber::First, function, &four.constants);
    let second = step::<Cse, PassReasons>(
        alloc,
        PassNumber::Second,
        &four.constants.output,
        &four.expressions,
    );
    let third = step::<Alloc, PassReasons>(
        alloc,
        PassNumber::Third,
        &four.expressions.output,
        &four.allocation,
    );
    let fourth = step::<Linearize, PassReasons>(
        alloc,
        PassNumber::Fourth,
        &four.allocation.output,
        &four.order,
    );
    in_order(first, second, third, fourth)
}

/// Whether the offers of all functions stand, or the first fault, by function and then by pass, with the function's number.
pub(crate) fn first_fault(
    alloc: Global,
    functions: &[Named<Function>],
    fours: &[Four],
) -> Result<(), (usize, OfferFault)>
    requires same { length functions.now ≡ length fours.now }
    ensures stand { OnOk result (AllStand functions.now (offers_in fours.now)) }
    ensures first { IfErr result (λ e. IsFirstFault functions.now (offers_in fours.now) e.0 e.1) }
{
    for number in 0..fours.len() {
        match judge(alloc, &functions[number].function, &fours[number]) {
            Ok(()) => {}
            Err(fault) => return Err((number, fault)),
        }
    }
    Ok(())
}
