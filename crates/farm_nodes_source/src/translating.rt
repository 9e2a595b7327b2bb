//! The program with which the first pass begins.

ghost use Rattle.std.specs.Prelude.{◌≡◌, ◌≤◌, ◌<◌, All, length, map, IfOk, IfErr, OnOk};
ghost use Rattle.lang_base.specs.Keeps.{Keeps};
ghost use Rattle.c_program.specs.Meaning.{crun};
ghost use Rattle.c_checker_rules.specs.Checked.{program_tree};
ghost use Rattle.cminor_lowering.specs.Programs.{low};
ghost use Rattle.cminor_program_ranges.specs.Names.{HaveNames};
ghost use Rattle.lang.specs.Form.{IsProgram};
ghost use Rattle.rtl_language.specs.Function.{IsFunction};
ghost use Rattle.rtl_language.specs.Meaning as rtl;
ghost use Rattle.rtlgen.specs.Refused.{HasFewNodes};
ghost use Rattle.rtlgen_definition.specs.Gen.{gen};
ghost use Rattle.farm_nodes_source.specs.Refused.{IsNamed, IsUntranslated};

use crate::fault::SourceFault;
use crate::naming::name_of;
use c_checker_rules::CProgram;
use cminor::lower;
use cminor_program_ranges::same_head_fits;
use lang_base::{NoMemory, Program, keeps_composes};
use rtl_language::{Function, Rtl};
use rtlgen::{GenError, translate};
use std::alloc::Global;

/// The RTL program of a checked program whose functions have C names, or the first function that needs too many nodes.
pub fn translated(alloc: Global, program: &CProgram) -> Result<Program<Function>, SourceFault>
    requires { HaveNames (program_tree program.now) }
    ensures same { IfOk result (λ made. made ≡ gen (low (program_tree program.now))) }
    ensures keeps { IfOk result (λ made. Keeps (crun (program_tree program.now)) (rtl.run made)) }
    ensures fits { IfOk result (IsProgram IsFunction) }
    ensures small { IfOk result (λ made. All (λ f. f.function.registers ≤ 2048) made.functions) }
    ensures few { OnOk result (All HasFewNodes (low (program_tree program.now)).functions) }
    ensures refused { IfErr result (IsUntranslated (program_tree program.now)) }
{
    keeps_composes();
    let lowered = match lower(alloc, program) {
        Ok(lowered) => lowered,
        Err(NoMemory) => return Err(SourceFault::NoMemory),
    };
    match translate(alloc, &lowered) {
        Ok(made) => {
            same_head_fits::<Rtl>(program, &made);
            Ok(made)
        }
        Err(GenError::TooManyNodes(function)) => Err(too_many_nodes(alloc, program, function)),
        Err(GenError::NoMemory) => Err(SourceFault::NoMemory),
    }
}

/// The fault of the function of this number, with its name.
fn too_many_nodes(alloc: Global, program: &CProgram, function: usize) -> SourceFault
    requires number { function < length program.now.functions }
    requires names { HaveNames (program_tree program.now) }
    ensures { IsNamed (map (λ f. f.name) program.now.functions) function result }
{
    match name_of(alloc, program, function) {
        Ok(name) => SourceFault::TooManyNodes(name),
        Err(NoMemory) => SourceFault::NoMemory,
    }
}
