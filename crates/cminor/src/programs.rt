//! Whole programs.

ghost use Rattle.std.specs.Prelude.{◌≡◌, ◌<◌, All, IfOk};
ghost use Rattle.lang_base.specs.Keeps.{Keeps};
ghost use Rattle.c_program.specs.Meaning.{crun};
ghost use Rattle.c_checker_rules.specs.Checked.{program_tree};
ghost use Rattle.c_program.specs.Views.{function_tree};
ghost use Rattle.cminor_syntax.specs.Fits.{IsFunction};
ghost use Rattle.cminor_syntax.specs.Meaning.{run};
ghost use Rattle.cminor_lowering.specs.Programs.{low, low_function};

use crate::functions::lower_functions;
use crate::globals::lower_globals;
use crate::lowered_keeps;
use c_checker_rules::CProgram;
use cminor_language::Function;
use cminor_lowering_ranges::lowered_fits;
use lang_base::{NoMemory, Program};
use std::alloc::Global;

/// The Cminor program of a program whose parts are in range.
fn lower_all(alloc: Global, program: &CProgram) -> Result<Program<Function>, NoMemory>
    requires globals { All (λ g. g.cells < 4294967296) program.now.globals }
    requires functions { All (λ f. IsFunction (low_function (function_tree f))) program.now.functions }
    ensures { IfOk result (λ p. p ≡ low (program_tree program.now)) }
{
    let globals = lower_globals(alloc, program.globals())?;
    let functions = lower_functions(alloc, program.functions())?;
    Ok(Program { globals, functions })
}

/// The Cminor program of a checked C program, which keeps its meaning (Leroy 2009, sections 2.1 and 3.1). The
/// time is linear in the program.
pub fn lower(alloc: Global, program: &CProgram) -> Result<Program<Function>, NoMemory>
    ensures same { IfOk result (λ p. p ≡ low (program_tree program.now)) }
    ensures keeps { IfOk result (λ p. Keeps (crun (program_tree program.now)) (run p)) }
{
    lowered_keeps(program);
    lowered_fits(program);
    lower_all(alloc, program)
}
