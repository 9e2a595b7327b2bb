//! Whole programs.

ghost use Rattle.std.specs.Prelude.{◌≡◌, ◌≤◌, All, IfOk, IfErr, OnOk, map};
ghost use Rattle.lang_base.specs.Keeps.{Keeps};
ghost use Rattle.cminor_syntax.specs.Fits.{IsFunction};
ghost use Rattle.cminor_syntax.specs.Meaning as C;
ghost use Rattle.rtlgen_definition.specs.Gen.{gen, gen_named};
ghost use Rattle.rtl_language.specs.Meaning as R;
ghost use Rattle.rtlgen.specs.Refused.{HasFewNodes, IsRefused};

use crate::errors::GenError;
use crate::functions::translate_named;
use crate::generated_is_small;
use cminor_language::Function as CminorFunction;
use lang_base::{Named, Program, Row};
use lang_helpers::copy_globals;
use rtl_language::Function;
use rtlgen_definition::generated_keeps;
use std::alloc::Global;

/// Each function is in range.
fn are_in_range(functions: &[Named<CminorFunction>])
    ensures { All (λ f. IsFunction f.function) functions.now }
{
    for named in functions {
        let _body = named.function.body();
    }
}

/// The functions of a program, in order, or the first that needs too many nodes.
fn translate_functions(
    alloc: Global,
    functions: &[Named<CminorFunction>],
) -> Result<Row<Named<Function>>, GenError>
    ensures ok { IfOk result (λ fs. fs ≡ map gen_named functions.now) }
    ensures few { OnOk result (All HasFewNodes functions.now) }
    ensures err { IfErr result (λ e. IsRefused functions.now e) }
{
    let mut translated = Vec::new(alloc);
    for (number, named) in functions.iter().enumerate() {
        match translate_named(alloc, named)? {
            Some(function) => translated.push(function)?,
            None => return Err(GenError::TooManyNodes(number)),
        }
    }
    Ok(Row::from_vec(translated))
}

/// The RTL program of a Cminor program, or the first function that needs too many nodes.
fn translate_all(
    alloc: Global,
    program: &Program<CminorFunction>,
) -> Result<Program<Function>, GenError>
    ensures same { IfOk result (λ p. p ≡ gen program.now) }
    ensures few { OnOk result (All HasFewNodes program.now.functions) }
    ensures refused { IfErr result (λ e. IsRefused program.now.functions e) }
{
    let globals = copy_globals(alloc, &program.globals)?;
    let functions = translate_functions(alloc, program.functions.as_slice())?;
    Ok(Program { globals, functions })
}

/// The RTL program of a Cminor program, which keeps its meaning; or the first function that needs more than
/// 65,535 nodes. The time is linear in the program.
pub fn translate(
    alloc: Global,
    program: &Program<CminorFunction>,
) -> Result<Program<Function>, GenError>
    ensures same { IfOk result (λ p. p ≡ gen program.now) }
    ensures keeps { IfOk result (λ p. Keeps (C.run program.now) (R.run p)) }
    ensures small { IfOk result (λ p. All (λ f. f.function.registers ≤ 2048) p.functions) }

    // Where memory is not wanting, it is refused exactly where a function needs too many nodes.
    ensures few { OnOk result (All HasFewNodes program.now.functions) }
    ensures refused { IfErr result (λ e. IsRefused program.now.functions e) }
{
    generated_keeps();
    generated_is_small();
    are_in_range(program.functions.as_slice());
    translate_all(alloc, program)
}
