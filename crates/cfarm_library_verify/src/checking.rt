//! Whether a bundle's offers come to a program.

ghost use Rattle.std.specs.Prelude.{◌≡◌, ◌<◌, ◌↔◌, IsTrue, length, OnOk, IfErr};
ghost use Rattle.std.specs.List.{AllByRecursion};
ghost use Rattle.lang_base.specs.Keeps.{Keeps};
ghost use Rattle.c_lexer_lexemes.specs.Lexemes.{IsName};
ghost use Rattle.linear_language.specs.Meaning as linear;
ghost use Rattle.rtl_language.specs.Meaning as rtl;
ghost use Rattle.linker.specs.Chains.{names_of};
ghost use Rattle.bundle_reading.specs.Read.{offers_in};
ghost use Rattle.bundle_offers.specs.Standing.{AllStand};
ghost use Rattle.cfarm_verify.specs.Checked.{AreChecked, IsFaulty, IsNamedFault, IsUnchecked};

use crate::judging::first_fault;
use crate::linking::links_to;
use crate::naming::name_of;
use bundle_offers::OfferFault;
use bundle_reading::Four;
use cfarm_verify::VerifyError;
use cfarm_verify_comparing::same_names;
use lang_base::{Named, NoMemory, Program};
use linear_language::Function;
use std::alloc::Global;

/// A fault of the offers of the function of this number, with its name.
fn faulty<F>(alloc: Global, functions: &[Named<F>], number: usize, fault: OfferFault) -> VerifyError
    requires number { number < length functions.now }
    requires names { AllByRecursion (λ f. IsName f.name) functions.now }
    ensures { IsNamedFault (names_of functions.now) number fault result }
{
    match name_of(alloc, functions, number) {
        Ok(name) => VerifyError::Offer(fault, name),
        Err(NoMemory) => VerifyError::NoMemory,
    }
}

/// Whether the offers of all functions stand, or the first fault.
fn all_stand(
    alloc: Global,
    functions: &[Named<rtl_language::Function>],
    fours: &[Four],
) -> Result<(), VerifyError>
    requires many { length functions.now ≡ length fours.now }
    requires names { AllByRecursion (λ f. IsName f.name) functions.now }
    ensures stand { OnOk result (AllStand functions.now (offers_in fours.now)) }
    ensures refused { IfErr result (IsFaulty functions.now (offers_in fours.now)) }
{
    match first_fault(alloc, functions, fours) {
        Ok(()) => Ok(()),
        Err((number, fault)) => Err(faulty(alloc, functions, number, fault)),
    }
}

fn is_digest(digest: &[u8], hash: &[u8]) -> bool
    ensures { IsTrue result ↔ (digest.now ≡ hash.now) }
{
    digest == hash
}

/// Whether the bundle of this digest and of these parts is of the text whose digest and RTL these are, and comes to the program.
pub(crate) fn checked(
    alloc: Global,
    hash: &[u8],
    begun: &Program<rtl_language::Function>,
    program: &Program<Function>,
    digest: &[u8],
    fours: &[Four],
) -> Result<(), VerifyError>
    requires names { AllByRecursion (λ f. IsName f.name) begun.now.functions }
    ensures checked { OnOk result (AreChecked hash.now begun.now program.now digest.now (offers_in fours.now)) }
    ensures keeps { OnOk result (Keeps (rtl.run begun.now) (linear.run program.now)) }
    ensures refused { IfErr result (IsUnchecked hash.now begun.now program.now digest.now (offers_in fours.now)) }
{
    if !is_digest(digest, hash) {
        return Err(VerifyError::OtherSource);
    }
    if !same_names(begun.functions.as_slice(), program.functions.as_slice()) {
        return Err(VerifyError::ProgramNames);
    }
    if fours.len() != begun.functions.len() {
        return Err(VerifyError::BundleNames);
    }
    match all_stand(alloc, begun.functions.as_slice(), fours) {
        Ok(()) => {}
        Err(fault) => return Err(fault),
    }
    match links_to(alloc, begun, program, fours) {
        Ok(()) => Ok(()),
        Err(fault) => Err(fault),
    }
}
