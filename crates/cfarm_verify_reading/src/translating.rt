//! The RTL program of a checked program.

ghost use Rattle.std.specs.Prelude.{◌≡◌, IfOk, IfErr};
ghost use Rattle.lang_base.specs.Keeps.{Keeps};
ghost use Rattle.lang.specs.Form.{IsProgram};
ghost use Rattle.c_program.specs.Meaning.{crun};
ghost use Rattle.c_checker_rules.specs.Checked.{program_tree};
ghost use Rattle.cminor_lowering.specs.Programs.{low};
ghost use Rattle.cminor_program_ranges.specs.Names.{HaveNames};
ghost use Rattle.rtl_language.specs.Function.{IsFunction};
ghost use Rattle.rtl_language.specs.Meaning as rtl;
ghost use Rattle.rtlgen_definition.specs.Gen.{gen};
ghost use Rattle.farm_nodes_source.specs.Refused.{IsUntranslated};

use crate::programs::translated;
use c_checker_rules::CProgram;
use farm_nodes_source::SourceFault;
use lang_base::Program;
use rtl_language::Function;
use std::alloc::Global;
use std::thread::Threads;

/// The RTL program of a checked program whose functions have C names, the functions side by side. Where one cannot be made, all are made
/// again in turn, which tells the first fault.
pub(crate) fn made_beside<R: Threads + Sync>(
    rt: &R,
    alloc: Global,
    program: &CProgram,
) -> Result<Program<Function>, SourceFault>
    requires names { HaveNames (program_tree program.now) }
    ensures same { IfOk result (λ made. made ≡ gen (low (program_tree program.now))) }
    ensures keeps { IfOk result (λ made. Keeps (crun (program_tree program.now)) (rtl.run made)) }
    ensures fits { IfOk result (IsProgram IsFunction) }
    ensures refused { IfErr result (IsUntranslated (program_tree program.now)) }
{
    match translated(rt, alloc, program) {
        Some(made) => Ok(made),
        None => farm_nodes_source::translated(alloc, program),
    }
}
