//! Whether the program that a program is lowered to has a spelling.

ghost use Rattle.std.specs.Prelude.{◌↔◌, IsTrue};
ghost use Rattle.c_checker_rules.specs.Checked.{program_tree};
ghost use Rattle.cminor_syntax.specs.Fits.{IsFunction};
ghost use Rattle.cminor_lowering.specs.Programs.{low};
ghost use Rattle.lang.specs.Form.{IsProgram};
ghost use Rattle.cminor_program_ranges.specs.Names.{HaveNames};

use crate::names::have_names;
use crate::words::globals_words;
use c_checker_rules::CProgram;
use cminor_lowering_ranges::lowered_fits;

/// Whether the program of Cminor that a checked program is lowered to has a spelling. It has, unless a function has no
/// C name. The time is linear in the program.
pub fn lowered_program_fits(program: &CProgram) -> bool
    ensures exact { IsTrue result ↔ HaveNames (program_tree program.now) }
    ensures fits { IsTrue result → IsProgram IsFunction (low (program_tree program.now)) }
{
    program.known();
    globals_words(program.globals());
    lowered_fits(program);
    have_names(program.functions())
}
