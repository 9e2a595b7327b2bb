//! Whether offers stand: each goes on from the one before it, and its pass accepts it.

ghost use Rattle.std.specs.Prelude.{◌≡◌, ◌<◌, length, slice_get, Some, IfOk, IfErr, OnOk};
ghost use Rattle.lang_base.specs.declared.fault.Fault.{Fault};
ghost use Rattle.bundle_reading.specs.Read.{offers_in, offers_of};
ghost use Rattle.bundle_offers.specs.Standing.{AllStand, AreAlone, AreJudged, FailsItsCheck, FailsItsStep, IsAccepted, IsAlone, IsFirstFault, IsJudgedAt, IsStep, Judged, first_of};
ghost use Rattle.bundle_offers.specs.declared.fault.PassNumber.{PassNumber};

use crate::fault::{OfferFault, PassNumber};
use crate::reasons::Reasons;
use bundle_reading::Four;
use constprop_check::ConstProp;
use lang_base::{Language, Named, NoMemory, Pass};
use offers::PartsOf;
use rtl_language::Function;
use std::alloc::Global;
use std::thread::{Threads, map_indices};

/// Whether the pass accepts an offer, or why not.
pub(crate) fn accepted<P: Pass, S: Reasons<P>>(
    alloc: Global,
    at: PassNumber,
    parts: &PartsOf<P>,
) -> Result<(), OfferFault>
    ensures ok { OnOk result (P.accepts parts.now.input parts.now.output parts.now.certificate) }
    ensures refused { IfErr result (FailsItsCheck at P.accepts S.tells parts.now) }
{
    if P::check(alloc, &parts.input, &parts.output, &parts.certificate)? {
        return Ok(());
    }
    match S::reason(alloc, &parts.input, &parts.output, &parts.certificate)? {
        Some(fault) => Err(OfferFault::Refused(at, fault)),
        None => unreachable!(),
    }
}

/// Whether an offer goes on from this function and its pass accepts it, or what is wrong with it, the chain first.
pub fn stands<P: Pass, S: Reasons<P>>(
    alloc: Global,
    at: PassNumber,
    before: &<P::In as Language>::Fun,
    parts: &PartsOf<P>,
) -> Result<(), OfferFault>
    ensures chained { OnOk result (parts.now.input ≡ before.now) }
    ensures accepted { OnOk result (P.accepts parts.now.input parts.now.output parts.now.certificate) }
    ensures refused { IfErr result (FailsItsStep at P.accepts S.tells before.now parts.now) }
{
    if &parts.input != before {
        return Err(OfferFault::Unchained(at));
    }
    match accepted::<P, S>(alloc, at, parts) {
        Ok(()) => Ok(()),
        Err(fault) => Err(fault),
    }
}

/// The first fault of four answers, in the order of the passes.
pub(crate) fn in_order(
    first: Result<(), OfferFault>,
    second: Result<(), OfferFault>,
    third: Result<(), OfferFault>,
    fourth: Result<(), OfferFault>,
) -> Result<(), OfferFault>
    ensures { result ≡ first_of first second third fourth }
{
    match (first, second, third) {
        (Err(fault), _, _) => Err(fault),
        (Ok(()), Err(fault), _) => Err(fault),
        (Ok(()), Ok(()), Err(fault)) => Err(fault),
        (Ok(()), Ok(()), Ok(())) => fourth,
    }
}

fn told_at(judged: &[Result<(), OfferFault>], number: usize) -> Result<(), OfferFault>
    requires { number < length judged.now }
    ensures { slice_get judged.now number ≡ Some result }
{
    judged[number]
}

/// Whether an offer goes on from this function.
fn goes_on<P: Pass>(
    at: PassNumber,
    before: &<P::In as Language>::Fun,
    parts: &PartsOf<P>,
) -> Result<(), OfferFault>
    ensures chained { OnOk result (parts.now.input ≡ before.now) }
    ensures refused { IfErr result (λ e. (e ≡ OfferFault.Unchained at) × (parts.now.input ≡ before.now → ⊥)) }
{
    if &parts.input != before {
        return Err(OfferFault::Unchained(at));
    }
    Ok(())
}

/// What is answered of an offer that has to go on from this function, by what its pass answers: the chain first.
pub(crate) fn chained<P: Pass, S: Reasons<P>>(
    at: PassNumber,
    before: &<P::In as Language>::Fun,
    parts: &PartsOf<P>,
    told: Result<(), OfferFault>,
) -> Result<(), OfferFault>
    ensures { IsAccepted at P.accepts S.tells parts.now told → IsStep at P.accepts S.tells before.now parts.now result }
{
    match goes_on::<P>(at, before, parts) {
        Ok(()) => told,
        Err(fault) => Err(fault),
    }
}

/// Whether the four offers of a function stand, by what is answered of them by themselves.
fn judge_from(
    function: &Function,
    four: &Four,
    alone: Result<(), OfferFault>,
) -> Result<(), OfferFault>
    ensures { IsAlone four.now alone → Judged function.now (offers_of four.now) result }
{
    match goes_on::<ConstProp>(PassNumber::First, function, &four.constants) {
        Ok(()) => alone,
        Err(fault) => Err(fault),
    }
}

/// The same of the function of this number.
fn judge_at(
    functions: &[Named<Function>],
    fours: &[Four],
    alone: &[Result<(), OfferFault>],
    number: usize,
) -> Result<(), OfferFault>
    ensures { AreAlone fours.now alone.now → IsJudgedAt functions.now fours.now number result }
{
    if number >= functions.len() || number >= fours.len() || number >= alone.len() {
        return Err(OfferFault::NoMemory);
    }
    judge_from(
        &functions[number].function,
        &fours[number],
        told_at(alone, number),
    )
}

/// Whether the four offers of each function stand, in order, by what is answered of them by themselves: each function is compared with the
/// input of its first offer in a thread of its own. A thread that cannot be made costs no answer.
pub fn judge_all<R: Threads + Sync>(
    rt: &R,
    alloc: Global,
    functions: &[Named<Function>],
    fours: &[Four],
    alone: &[Result<(), OfferFault>],
) -> Result<Vec<Result<(), OfferFault>>, NoMemory>
    requires { AreAlone fours.now alone.now }
    ensures { IfOk result (λ judged. AreJudged functions.now fours.now judged.items) }
{
    let judged = map_indices(
        rt,
        alloc,
        fours.len(),
        &|number: usize| -> Result<(), OfferFault>
            ensures { AreAlone fours.entry.now alone.entry.now → IsJudgedAt functions.entry.now fours.entry.now number result }
        { judge_at(functions, fours, alone, number) },
    )?;
    Ok(judged)
}

/// The first fault of all, by function and then by pass, with the function's number; or that all offers stand.
pub fn first_fault(
    functions: &[Named<Function>],
    fours: &[Four],
    judged: &[Result<(), OfferFault>],
) -> Result<(), (usize, OfferFault)>
    requires same { length functions.now ≡ length fours.now }
    requires judged { AreJudged functions.now fours.now judged.now }
    ensures stand { OnOk result (AllStand functions.now (offers_in fours.now)) }
    ensures first { IfErr result (λ e. IsFirstFault functions.now (offers_in fours.now) e.0 e.1) }
{
    for number in 0..judged.len() {
        match told_at(judged, number) {
            Ok(()) => {}
            Err(fault) => return Err((number, fault)),
        }
    }
    Ok(())
}
