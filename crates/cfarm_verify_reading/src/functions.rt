//! One function, from its tree to RTL.

ghost use Rattle.std.specs.Prelude.{◌≡◌, ◌∷◌, [], All, IfOk, IfSome};
ghost use Rattle.c_program.specs.Views.{function_tree};
ghost use Rattle.cminor_syntax.specs.Fits.{IsFunction};
ghost use Rattle.cminor_lowering.specs.Programs.{low_function, low_named};
ghost use Rattle.rtlgen_definition.specs.Gen.{gen_named};
ghost use Rattle.cfarm_verify_reading.specs.Made.{IsMadeAt};

use crate::bodies::{lower_body, sequence_of};
use c_program::Function as CFunction;
use cminor_language::Function as CminorFunction;
use lang_base::{Named, NoMemory, Program, Row};
use rtl_language::Function;
use rtlgen::translate;
use std::alloc::Global;
use std::thread::Threads;

/// A function. It has one variable more than parameters and locals: the spare one.
fn lower_function<R: Threads + Sync>(
    rt: &R,
    alloc: Global,
    function: &CFunction,
) -> Result<CminorFunction, NoMemory>
    requires { IsFunction (low_function (function_tree function.now)) }
    ensures { IfOk result (λ f. f ≡ low_function (function_tree function.now)) }
{
    let spare = function.parameters.max(function.locals) as u16;
    let body = sequence_of(lower_body(rt, alloc, spare, function)?)?;
    Ok(CminorFunction::new(function.parameters as u8, spare + 1, body))
}

/// A function and its name.
fn lower_named<R: Threads + Sync>(
    rt: &R,
    alloc: Global,
    function: &CFunction,
) -> Result<Named<CminorFunction>, NoMemory>
    requires { IsFunction (low_function (function_tree function.now)) }
    ensures { IfOk result (λ f. f ≡ low_named (function_tree function.now)) }
{
    let name = Row::from_vec(Vec::from_slice(alloc, function.name.as_slice())?);
    let function = lower_function(rt, alloc, function)?;
    Ok(Named { name, function })
}

/// A program of this function alone.
fn alone(
    alloc: Global,
    function: Named<CminorFunction>,
) -> Result<Program<CminorFunction>, NoMemory>
    ensures { IfOk result (λ p. p.functions ≡ function ∷ []) }
{
    let mut functions = Vec::new(alloc);
    functions.push(function)?;
    Ok(Program {
        globals: Row::from_vec(Vec::new(alloc)),
        functions: Row::from_vec(functions),
    })
}

/// The one function of these.
fn only(functions: Row<Named<Function>>) -> Option<Named<Function>>
    ensures { (f : _) → functions ≡ f ∷ [] → IfSome result (λ one. one ≡ f) }
{
    functions.into_vec().pop()
}

/// The RTL function of a Cminor function; none where memory was refused, or where it needs too many nodes.
fn translated_alone(alloc: Global, function: Named<CminorFunction>) -> Option<Named<Function>>
    ensures { IfSome result (λ made. made ≡ gen_named function) }
{
    match alone(alloc, function) {
        Ok(program) => match translate(alloc, &program) {
            Ok(made) => only(made.functions),
            Err(_) => None,
        },
        Err(NoMemory) => None,
    }
}

/// The RTL function of the function of this number; none where memory was refused, or where it needs too many nodes.
pub(crate) fn made_at<R: Threads + Sync>(
    rt: &R,
    alloc: Global,
    functions: &[CFunction],
    number: usize,
) -> Option<Named<Function>>
    requires { All (λ f. IsFunction (low_function (function_tree f))) functions.now }
    ensures { IfSome result (IsMadeAt functions.now number) }
{
    if number >= functions.len() {
        return None;
    }
    match lower_named(rt, alloc, &functions[number]) {
        Ok(lowered) => translated_alone(alloc, lowered),
        Err(NoMemory) => None,
    }
}
