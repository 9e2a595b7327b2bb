ghost use Rattle.lang_helpers.specs.Written.{Wrote};
ghost use Rattle.c_program.specs.Meaning.{crun};
ghost use Rattle.c_checker_rules.specs.Checked.{program_tree};

use crate::run_program;
use c_checker_rules::CProgram;
use lang_base::Shown;
use lang_helpers::RunError;
use std::alloc::Global;
use std::io::Write;

/// Runs a program with the bound: writes its output, and tells whether it ended, went wrong or is still
/// running. After an error a beginning of the output was written. What waits in the run stands on the heap.
pub fn run<W: Write>(
    alloc: Global,
    program: &CProgram,
    bound: u64,
    out: &mut W,
) -> Result<Shown, RunError>
    ensures { Wrote (crun (program_tree program.now) bound) result (W.contents out.old) (W.contents out.new) }
{
    run_program(
        alloc,
        program.globals(),
        program.functions(),
        program.main(),
        bound,
        out,
    )
}
