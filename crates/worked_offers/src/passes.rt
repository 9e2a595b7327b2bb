//! What each pass, its baselines and its optimiser make of bytes.

use alloc_check::Alloc;
use constprop_check::ConstProp;
use cse_check::Cse;
use lang_base::{Fault, FormError, Language, NoMemory, Oracle, Pass};
use linearize_check::Linearize;
use offers::{Offer, PartsOf};
use oracle_alloc::AllocOracle;
use oracle_const::ConstOracle;
use oracle_cse::CseOracle;
use oracle_order::OrderOracle;
use rand_pcg::Pcg32;
use std::alloc::Global;
use worked_row_files::{fine, some};

/// An optimiser whose pass says what is wrong with an offer.
pub trait Explained: Oracle {
    /// What is wrong with the parts of a written offer, if anything is.
    fn fault_of(alloc: Global, parts: &PartsOf<Self::P>) -> Result<Option<Fault>, NoMemory>;
}

impl Explained for ConstOracle {
    fn fault_of(alloc: Global, parts: &PartsOf<ConstProp>) -> Result<Option<Fault>, NoMemory> {
        constprop_check::why(alloc, &parts.input, &parts.output, &parts.certificate)
    }
}

impl Explained for CseOracle {
    fn fault_of(alloc: Global, parts: &PartsOf<Cse>) -> Result<Option<Fault>, NoMemory> {
        cse_check::why(alloc, &parts.input, &parts.output, &parts.certificate)
    }
}

impl Explained for AllocOracle {
    fn fault_of(alloc: Global, parts: &PartsOf<Alloc>) -> Result<Option<Fault>, NoMemory> {
        alloc_check_verdict::why(alloc, &parts.input, &parts.output, &parts.certificate)
    }
}

impl Explained for OrderOracle {
    fn fault_of(alloc: Global, parts: &PartsOf<Linearize>) -> Result<Option<Fault>, NoMemory> {
        linearize_check::why(alloc, &parts.input, &parts.output, &parts.certificate)
    }
}

/// The function that all of the bytes are.
pub fn function_of<L: Language>(alloc: Global, bytes: &[u8]) -> Option<L::Fun> {
    let (function, length) = fine!(L::read(alloc, bytes));
    if length < bytes.len() {
        return None;
    }
    Some(function)
}

/// The bytes of a function.
pub fn spelled<L: Language>(alloc: Global, function: &L::Fun) -> Option<Vec<u8>> {
    let mut bytes = Vec::new(alloc);
    fine!(L::write(function, &mut bytes));
    Some(bytes)
}

/// The bytes of an offer.
fn written<P: Pass>(alloc: Global, offer: &Offer<P>) -> Option<Vec<u8>> {
    let mut bytes = Vec::new(alloc);
    fine!(offer.write(&mut bytes));
    Some(bytes)
}

/// The parts of a written offer.
pub fn parts_of<P: Pass>(alloc: Global, bytes: &[u8]) -> Result<PartsOf<P>, FormError> {
    Offer::<P>::parts(alloc, bytes)
}

/// The number of the refusal of a written offer, or 0.
pub fn refusal_in<P: Pass>(alloc: Global, bytes: &[u8]) -> u16 {
    match Offer::<P>::read(alloc, bytes) {
        Ok(_offer) => 0,
        Err(fault) => fault.number(),
    }
}

/// Whether the offer that the bytes are is written as just these.
pub fn again_in<P: Pass>(alloc: Global, bytes: &[u8]) -> Option<bool> {
    let offer = fine!(Offer::<P>::read(alloc, bytes));
    Some(some!(written(alloc, &offer)).as_slice() == bytes)
}

/// The name of a written offer.
pub fn name_in<P: Pass>(alloc: Global, bytes: &[u8]) -> Option<[u8; 32]> {
    let offer = fine!(Offer::<P>::read(alloc, bytes));
    offer.name(alloc).ok()
}

/// The bytes of a written offer's input, if these are an offer, accepted or not.
pub fn input_in<P: Pass>(alloc: Global, bytes: &[u8]) -> Option<Vec<u8>> {
    let parts = fine!(parts_of::<P>(alloc, bytes));
    spelled::<P::In>(alloc, &parts.input)
}

/// What is wrong with the parts of an offer, if anything is, and if the two calls that judge them agree.
pub fn fault_in<O: Explained>(alloc: Global, parts: &PartsOf<O::P>) -> Option<Option<Fault>> {
    let fault = fine!(O::fault_of(alloc, parts));
    let is_accepted = fine!(O::P::check(alloc, &parts.input, &parts.output, &parts.certificate));
    (is_accepted == fault.is_none()).then_some(fault)
}

/// What is wrong with an offer that is written so, likewise; or the number of the fault in its bytes.
pub fn judged_in<O: Explained>(alloc: Global, bytes: &[u8]) -> Option<Result<Option<Fault>, u16>> {
    match parts_of::<O::P>(alloc, bytes) {
        Ok(parts) => Some(Ok(some!(fault_in::<O>(alloc, &parts)))),
        Err(fault) => Some(Err(fault.number())),
    }
}

/// The written offer of the baseline of an input, or the number of its refusal.
pub fn baseline_in<P: Pass>(alloc: Global, input: &[u8]) -> Option<Result<Vec<u8>, u16>> {
    let input = some!(function_of::<P::In>(alloc, input));
    let (output, certificate) = match P::baseline(alloc, &input) {
        Ok(made) => made,
        Err(fault) => return Some(Err(fault.number())),
    };
    let offer = fine!(Offer::<P>::check(alloc, input, output, certificate));
    Some(Ok(some!(written(alloc, &offer))))
}

/// The output that is proposed for an input with the words of a seed, if it is accepted.
pub fn proposed_in<O: Oracle>(
    alloc: Global,
    oracle: &mut O,
    input: &[u8],
    seed: u64,
) -> Option<Vec<u8>> {
    let input = some!(function_of::<<O::P as Pass>::In>(alloc, input));
    let mut words = Pcg32::new(seed, 0);
    let (output, certificate) = some!(fine!(oracle.propose(alloc, &input, &mut words)));
    let offer = fine!(Offer::<O::P>::check(alloc, input, output, certificate));
    spelled::<<O::P as Pass>::Out>(alloc, offer.output())
}
