//! Programs that have the globals and the names of a lowered one.

ghost use Rattle.std.specs.Prelude.{All};
ghost use Rattle.c_checker_rules.specs.Checked.{program_tree};
ghost use Rattle.cminor_lowering.specs.Programs.{low};
ghost use Rattle.lang.specs.Form.{IsProgram};
ghost use Rattle.cminor_program_ranges.specs.Heads.{HasHeadOf};
ghost use Rattle.cminor_program_ranges.specs.Names.{HaveNames};

use crate::words::globals_words;
use c_checker_rules::CProgram;
use lang_base::{Language, Named, Program};

/// Each function of a language fits.
fn all_known<L: Language>(functions: &[Named<L::Fun>])
    ensures { All (λ f. L.fits f.function) functions.now }
{
    for named in functions {
        L::known(&named.function);
    }
}

/// What has the globals of a lowered program, and functions of any language under its names, has a spelling, if the
/// names are C names. So it is written with no test. The time is linear in the numbers of globals and functions.
pub fn same_head_fits<L: Language>(program: &CProgram, made: &Program<L::Fun>)
    ensures { HasHeadOf (low (program_tree program.now)) made.now → HaveNames (program_tree program.now) →
        IsProgram L.fits made.now }
{
    program.known();
    globals_words(program.globals());
    all_known::<L>(made.functions.as_slice());
}
