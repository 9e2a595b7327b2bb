//! That the functions that a program is lowered to are in range.

ghost use Rattle.std.specs.Prelude.{All};
ghost use Rattle.std.specs.List.{AllByRecursion};
ghost use Rattle.c_program.specs.Views.{function_tree};
ghost use Rattle.c_checker_rules.specs.Checked.{program_tree};
ghost use Rattle.cminor_syntax.specs.Fits.{IsFunction};
ghost use Rattle.cminor_lowering.specs.Programs.{low};
ghost use Rattle.cminor_lowering_ranges.specs.Globals.{IsSized};
ghost use Rattle.cminor_lowering.specs.Held.{IsHeldFunction};

use c_checker_rules::CProgram;
use c_program::Function;
use cminor_lowering::function_held;

/// What is true of each function in memory.
fn functions_held(functions: &[Function])
    ensures { All (λ f. IsHeldFunction (function_tree f)) functions.now }
{
    for function in functions {
        function_held(function);
    }
}

/// The functions of Cminor that a checked program is lowered to are in range. The time is linear in the program.
pub fn lowered_fits(program: &CProgram)
    ensures globals { All IsSized program.now.globals }
    ensures fits { AllByRecursion (λ f. IsFunction f.function) (low (program_tree program.now)).functions }
{
    program.known();
    functions_held(program.functions());
}
