//! The program of the third pass's outputs.

ghost use Rattle.std.specs.Prelude.{◌≡◌, length, IfOk};
ghost use Rattle.cfarm_emit.specs.Made.{third_program, thirds_of};

use chains::Offers;
use lang_base::{Language, Named, NoMemory, Program, Row};
use lang_helpers::copy_globals;
use ltl::{Function, Ltl};
use std::alloc::Global;

/// The output of a function's third offer, under its name.
fn third(
    alloc: Global,
    function: &Named<rtl_language::Function>,
    offers: &Offers,
) -> Result<Named<Function>, NoMemory>
    ensures { IfOk result (λ made. made ≡ record { name = function.now.name; function = offers.now.allocation.output }) }
{
    let name = function.name.copied(alloc)?;
    let function = Ltl::copy(alloc, offers.allocation.output())?;
    Ok(Named { name, function })
}

/// The outputs of all functions' third offers.
fn thirds(
    alloc: Global,
    functions: &[Named<rtl_language::Function>],
    offers: &[Offers],
) -> Result<Vec<Named<Function>>, NoMemory>
    requires { length functions.now ≡ length offers.now }
    ensures { IfOk result (λ made. made.items ≡ thirds_of functions.now offers.now) }
{
    let mut made = Vec::new(alloc);
    for number in 0..functions.len() {
        made.push(third(alloc, &functions[number], &offers[number])?)?;
    }
    Ok(made)
}

/// The program of the third offers' outputs.
pub(crate) fn third_program(
    alloc: Global,
    begun: &Program<rtl_language::Function>,
    offers: &[Offers],
) -> Result<Program<Function>, NoMemory>
    requires { length begun.now.functions ≡ length offers.now }
    ensures { IfOk result (λ made. made ≡ third_program begun.now offers.now) }
{
    let globals = copy_globals(alloc, &begun.globals)?;
    let functions = thirds(alloc, begun.functions.as_slice(), offers)?;
    Ok(Program {
        globals,
        functions: Row::from_vec(functions),
    })
}
