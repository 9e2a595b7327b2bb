//! Whether offers that stand come to a program.

ghost use Rattle.std.specs.Prelude.{◌≡◌, ◌<◌, length, OnOk, IfErr};
ghost use Rattle.std.specs.List.{AllByRecursion};
ghost use Rattle.lang_base.specs.Keeps.{Keeps};
ghost use Rattle.c_lexer_lexemes.specs.Lexemes.{IsName};
ghost use Rattle.linear_language.specs.Meaning as linear;
ghost use Rattle.rtl_language.specs.Meaning as rtl;
ghost use Rattle.linker.specs.Chains.{names_of};
ghost use Rattle.bundle_reading.specs.Offered.{linked_offers};
ghost use Rattle.bundle_reading.specs.Read.{offers_in};
ghost use Rattle.bundle_offers.specs.Standing.{AllStand};
ghost use Rattle.cfarm_verify.specs.Checked.{IsNamedOther, IsOther};

use crate::naming::name_of;
use bundle_reading::Four;
use cfarm_verify::VerifyError;
use cfarm_verify_comparing::{first_other, linked_keeps, same_globals};
use lang_base::{Named, NoMemory, Program};
use linear_language::Function;
use std::alloc::Global;

/// The fault of the function of this number, with its name.
fn other_function<F>(alloc: Global, functions: &[Named<F>], number: usize) -> VerifyError
    requires number { number < length functions.now }
    requires names { AllByRecursion (λ f. IsName f.name) functions.now }
    ensures { IsNamedOther (names_of functions.now) number result }
{
    match name_of(alloc, functions, number) {
        Ok(name) => VerifyError::OtherFunction(name),
        Err(NoMemory) => VerifyError::NoMemory,
    }
}

/// Whether the offers of these parts, all of which stand, come to this program, or where they do not. Nothing is linked: each last
/// output is compared where it stands.
pub(crate) fn links_to(
    alloc: Global,
    begun: &Program<rtl_language::Function>,
    program: &Program<Function>,
    fours: &[Four],
) -> Result<(), VerifyError>
    requires stand { AllStand begun.now.functions (offers_in fours.now) }
    requires many { length fours.now ≡ length begun.now.functions }
    requires names { AllByRecursion (λ f. IsName f.name) begun.now.functions }
    requires same { names_of program.now.functions ≡ names_of begun.now.functions }
    ensures is { OnOk result (program.now ≡ linked_offers begun.now (offers_in fours.now)) }
    ensures keeps { OnOk result (Keeps (rtl.run begun.now) (linear.run program.now)) }
    ensures refused { IfErr result (IsOther begun.now program.now (offers_in fours.now)) }
{
    linked_keeps(begun, fours);
    let functions = begun.functions.as_slice();
    if let Some(number) = first_other(functions, fours, program.functions.as_slice()) {
        return Err(other_function(alloc, functions, number));
    }
    if !same_globals(begun.globals.as_slice(), program.globals.as_slice()) {
        return Err(VerifyError::OtherGlobals);
    }
    Ok(())
}
