//! What a bundle's bytes spell, and whether its offers stand by themselves: who has read a text asks the text's pass at once.

ghost use Rattle.std.specs.Prelude.{◌≡◌, ◌≢◌, ◌<◌, ℕ, length, slice_index_or, IfOk, IfErr};
ghost use Rattle.bundle_reading.specs.Read.{AreRead, IsPartsText, offers_in};
ghost use Rattle.bundle_reading.specs.Texts.{HasNoBundle, HaveNoOffers, IsBundleOf};
ghost use Rattle.bundle_offers.specs.Standing.{AreAlone, IsAlone};
ghost use Rattle.bundle_offers.specs.Found.{AreBack, AreFront, AreTold, IsAnswered, IsFirst, IsFound, IsFoundAt, IsFourth, IsJoined, IsSecond, IsThird};
ghost use Rattle.bundle_offers.specs.declared.fault.PassNumber.{PassNumber};

use crate::fault::{OfferFault, PassNumber};
use crate::judged_bundle::JudgedBundle;
use crate::judging::{accepted, chained, in_order};
use crate::reasons::{PassReasons, Reasons};
use bundle_form::{Bundle, Texts, read};
use bundle_reading::{Alloc, Four, four_of, gathered, places_for, read_one};
use constprop_check::ConstProp;
use cse_check::Cse;
use lang_base::{FormError, Pass};
use lang_helpers::grow_arena;
use linearize_check::Linearize;
use offers::PartsOf;
use std::alloc::Global;
use std::thread::{Threads, for_each_mut, join};

/// What is found of a text: the parts that it spells, and whether their pass accepts them. Where it spells none, nothing is answered.
type Found<P> = (Result<PartsOf<P>, FormError>, Result<(), OfferFault>);

/// What is found of a function's texts for the first two passes.
type Front = (Found<ConstProp>, Found<Cse>);

/// The same for the last two.
type Back = (Found<Alloc>, Found<Linearize>);

/// What is found of all four: the parts, and whether they stand by themselves.
type FoundFour = Result<(Four, Result<(), OfferFault>), FormError>;

/// The parts that a text spells, all of it, and whether their pass accepts them.
fn found_of<P: Pass, S: Reasons<P>>(alloc: Global, at: PassNumber, text: &[u8]) -> Found<P>
    ensures text { IsPartsText P.In.Language P.Out.Language P.Pass text.now result.0 }
    ensures told { IsAnswered at P.accepts S.tells result }
{
    grow_arena(alloc);
    match read_one::<P>(alloc, text) {
        Ok(parts) => {
            let told = accepted::<P, S>(alloc, at, &parts);
            (Ok(parts), told)
        }
        Err(fault) => (Err(fault), Ok(())),
    }
}

/// The same of the first two texts, side by side.
fn found_front<R: Threads + Sync>(rt: &R, alloc: Global, first: &[u8], second: &[u8]) -> Front
    ensures { AreFront first.now second.now result }
{
    join(
        rt,
        || -> Found<ConstProp>
            ensures { IsFirst first.entry.now result }
        { found_of::<ConstProp, PassReasons>(alloc, PassNumber::First, first) },
        || -> Found<Cse>
            ensures { IsSecond second.entry.now result }
        { found_of::<Cse, PassReasons>(alloc, PassNumber::Second, second) },
    )
}

/// The same of the last two texts, side by side.
fn found_back<R: Threads + Sync>(rt: &R, alloc: Global, third: &[u8], fourth: &[u8]) -> Back
    ensures { AreBack third.now fourth.now result }
{
    join(
        rt,
        || -> Found<Alloc>
            ensures { IsThird third.entry.now result }
        { found_of::<Alloc, PassReasons>(alloc, PassNumber::Third, third) },
        || -> Found<Linearize>
            ensures { IsFourth fourth.entry.now result }
        { found_of::<Linearize, PassReasons>(alloc, PassNumber::Fourth, fourth) },
    )
}

/// Whether the four offers of a function stand by themselves, by what their passes answer: each goes on from the one before it.
fn told_of(
    four: &Four,
    first: Result<(), OfferFault>,
    second: Result<(), OfferFault>,
    third: Result<(), OfferFault>,
    fourth: Result<(), OfferFault>,
) -> Result<(), OfferFault>
    ensures { AreTold four.now first second third fourth → IsAlone four.now result }
{
    let second = chained::<Cse, PassReasons>(
        PassNumber::Second,
        &four.constants.output,
        &four.expressions,
        second,
    );
    let third = chained::<Alloc, PassReasons>(
        PassNumber::Third,
        &four.expressions.output,
        &four.allocation,
        third,
    );
    let fourth = chained::<Linearize, PassReasons>(
        PassNumber::Fourth,
        &four.allocation.output,
        &four.order,
        fourth,
    );
    in_order(first, second, third, fourth)
}

/// The parts of all four and whether they stand, or the first fault of form.
fn joined(front: Front, back: Back) -> FoundFour
    ensures { IsJoined front back result }
{
    let ((one, first), (two, second)) = front;
    let ((three, third), (four, fourth)) = back;
    match four_of((one, two), (three, four)) {
        Ok(four) => {
            let told = told_of(&four, first, second, third, fourth);
            Ok((four, told))
        }
        Err(fault) => Err(fault),
    }
}

/// What is found of a function's texts, each in a thread of its own.
fn found_beside<R: Threads + Sync>(rt: &R, alloc: Global, texts: &Texts) -> FoundFour
    ensures { IsFound texts.now result }
{
    let (first, second) = (texts.constants.as_slice(), texts.expressions.as_slice());
    let (third, fourth) = (texts.allocation.as_slice(), texts.order.as_slice());
    let (front, back) = join(
        rt,
        || -> Front
            ensures { AreFront first.entry.now second.entry.now result }
        { found_front(rt, alloc, first, second) },
        || -> Back
            ensures { AreBack third.entry.now fourth.entry.now result }
        { found_back(rt, alloc, third, fourth) },
    );
    joined(front, back)
}

/// The same, one text behind the other.
fn found_in_turn(alloc: Global, texts: &Texts) -> FoundFour
    ensures { IsFound texts.now result }
{
    let (first, second) = (texts.constants.as_slice(), texts.expressions.as_slice());
    let (third, fourth) = (texts.allocation.as_slice(), texts.order.as_slice());
    let one = found_of::<ConstProp, PassReasons>(alloc, PassNumber::First, first);
    let two = found_of::<Cse, PassReasons>(alloc, PassNumber::Second, second);
    let three = found_of::<Alloc, PassReasons>(alloc, PassNumber::Third, third);
    let four = found_of::<Linearize, PassReasons>(alloc, PassNumber::Fourth, fourth);
    joined((one, two), (three, four))
}

/// The same, side by side or in turn.
fn found_texts<R: Threads + Sync>(rt: &R, alloc: Global, beside: bool, texts: &Texts) -> FoundFour
    ensures { IsFound texts.now result }
{
    if beside {
        return found_beside(rt, alloc, texts);
    }
    found_in_turn(alloc, texts)
}

/// The same of the function of this number.
fn found_at<R: Threads + Sync>(
    rt: &R,
    alloc: Global,
    beside: bool,
    functions: &[Texts],
    number: usize,
) -> FoundFour
    ensures { IsFoundAt functions.now number result }
{
    if number >= functions.len() {
        return Err(FormError::NoMemory);
    }
    found_texts(rt, alloc, beside, &functions[number])
}

/// The same of each function, at its place: so many threads share them.
fn found_each<R: Threads + Sync>(
    rt: &R,
    alloc: Global,
    workers: usize,
    functions: &[Texts],
    found: &mut [FoundFour],
)
    requires { 0 < workers }
    ensures { (i : ℕ) (d : _) → i < length found.old → IsFoundAt functions.now i (slice_index_or found.new i d) }
{
    let beside = functions.len() < workers;
    for_each_mut(
        rt,
        found,
        workers,
        &|number: usize, one: &mut FoundFour|
            ensures { IsFoundAt functions.entry.now number one.exit.now }
        { *one = found_at(rt, alloc, beside, functions, number) },
    );
}

/// The parts of all functions' offers, and whether they stand by themselves, in order.
fn found_all<R: Threads + Sync>(
    rt: &R,
    alloc: Global,
    workers: usize,
    functions: &[Texts],
) -> Result<(Vec<Four>, Vec<Result<(), OfferFault>>), FormError>
    requires { 0 < workers }
    ensures read { IfOk result (λ all. AreRead functions.now all.0.items) }
    ensures alone { IfOk result (λ all. AreAlone all.0.items all.1.items) }
    ensures refused { IfErr result (λ e. e ≢ FormError.NoMemory → HaveNoOffers functions.now) }
{
    let mut found = match places_for(alloc, functions.len()) {
        Ok(found) => found,
        Err(_) => return Err(FormError::NoMemory),
    };
    found_each(rt, alloc, workers, functions, &mut found);
    match gathered(alloc, functions, found) {
        Ok(all) => Ok(all),
        Err(fault) => Err(fault),
    }
}

/// The digest and the offers of the bundle that all of the bytes spell, and whether the four offers of each function stand by
/// themselves. What holds the offers' texts together is read first, and then the texts: so many threads share the functions, and
/// where those are fewer than the threads, each text has a thread of its own. The thread that has read a text asks its pass at once.
/// A text that spells no offer refuses the bundle, whatever the passes answer of the others. Reading takes time linear in the bytes.
pub fn read_judged<R: Threads + Sync>(
    rt: &R,
    alloc: Global,
    workers: usize,
    bytes: &[u8],
) -> Result<JudgedBundle, FormError>
    requires { 0 < workers }
    ensures spelled { IfOk result (λ b. IsBundleOf bytes.now b.digest (offers_in b.fours.items)) }
    ensures alone { IfOk result (λ b. AreAlone b.fours.items b.alone.items) }
    ensures refused { IfErr result (λ e. e ≢ FormError.NoMemory → HasNoBundle bytes.now) }
{
    let bundle = read(alloc, bytes)?;
    let Bundle { digest, functions } = bundle;
    let (fours, alone) = found_all(rt, alloc, workers, functions.as_slice())?;
    Ok(JudgedBundle {
        digest,
        fours,
        alone,
    })
}
