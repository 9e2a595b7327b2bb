//! Whole programs.

ghost use Rattle.std.specs.Prelude.{◌≡◌, IfOk};
ghost use Rattle.native_lowering_definition.specs.Lowering.{lowered};
ghost use Rattle.native_lowering.specs.Named.{named_of};

use crate::code::lower_function;
use lang_base::{Named, NoMemory, Program, Row};
use lang_helpers::copy_globals;
use linear_language::Function as Linear;
use std::alloc::Global;
use x86_syntax::Function;

fn lower_named(
    alloc: Global,
    program: &Program<Linear>,
    named: &Named<Linear>,
) -> Result<Named<Function>, NoMemory>
    ensures { IfOk result (λ lowered. lowered ≡ named_of program.now named.now) }
{
    let name = named.name.copied(alloc)?;
    let function = lower_function(alloc, program, &named.function)?;
    Ok(Named { name, function })
}

/// The program of native code. The time is linear in its size; the only refusal is that there is no memory.
pub fn lower(alloc: Global, program: &Program<Linear>) -> Result<Program<Function>, NoMemory>
    ensures { IfOk result (λ native. native ≡ lowered program.now) }
{
    let globals = copy_globals(alloc, &program.globals)?;
    let mut functions = Vec::new(alloc);
    let all = program.functions.as_slice();
    for named in all {
        functions.push(lower_named(alloc, program, named)?)?;
    }
    Ok(Program {
        globals,
        functions: Row::from_vec(functions),
    })
}
