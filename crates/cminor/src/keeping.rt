ghost use Rattle.lang_base.specs.Keeps.{Keeps};
ghost use Rattle.c_program.specs.Meaning.{crun};
ghost use Rattle.c_checker_rules.specs.Checked.{program_tree};
ghost use Rattle.cminor_syntax.specs.Meaning.{run};
ghost use Rattle.cminor_lowering.specs.Programs.{low};

use c_checker_rules::CProgram;

/// The Cminor program that a checked program is lowered to keeps its meaning (Leroy 2009, section 2.1). The
/// call does nothing else.
pub fn lowered_keeps(program: &CProgram)
    ensures { Keeps (crun (program_tree program.now)) (run (low (program_tree program.now))) }
{
    program.known();
}
