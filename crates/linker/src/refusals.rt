//! The translation, with its refusals as those of linking.

ghost use Rattle.std.specs.Prelude.{◌≡◌, ◌≤◌, All, IfOk, IfErr, OnOk};
ghost use Rattle.cminor_syntax.specs.Meaning as cminor;
ghost use Rattle.lang_base.specs.Keeps.{Keeps};
ghost use Rattle.rtl_language.specs.Meaning as rtl;
ghost use Rattle.rtlgen_definition.specs.Gen.{gen};
ghost use Rattle.rtlgen.specs.Refused.{HasFewNodes};
ghost use Rattle.linker.specs.Refused.{refusal_to_translate, HasNoTranslation};

use crate::errors::LinkError;
use lang_base::Program;
use rtlgen::{GenError, translate};
use std::alloc::Global;

fn refusal_of(fault: GenError) -> LinkError
    ensures { result ≡ refusal_to_translate fault }
{
    match fault {
        GenError::NoMemory => LinkError::NoMemory,
        GenError::TooManyNodes(function) => LinkError::TooManyNodes(function),
    }
}

/// The RTL program of a Cminor program.
pub(crate) fn rtl_of(
    alloc: Global,
    program: &Program<cminor::Function>,
) -> Result<Program<rtl_language::Function>, LinkError>
    ensures same { IfOk result (λ made. made ≡ gen program.now) }
    ensures keeps { IfOk result (λ made. Keeps (cminor.run program.now) (rtl.run made)) }
    ensures small { IfOk result (λ made. All (λ f. f.function.registers ≤ 2048) made.functions) }
    ensures few { OnOk result (All HasFewNodes program.now.functions) }
    ensures refused { IfErr result (λ e. HasNoTranslation program.now e) }
{
    match translate(alloc, program) {
        Ok(made) => Ok(made),
        Err(fault) => Err(refusal_of(fault)),
    }
}
