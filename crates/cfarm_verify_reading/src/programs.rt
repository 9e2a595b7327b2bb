//! Whole programs.

ghost use Rattle.std.specs.Prelude.{◌≡◌, ◌<◌, All, IfSome};
ghost use Rattle.lang_base.specs.Keeps.{Keeps};
ghost use Rattle.lang.specs.Form.{IsProgram};
ghost use Rattle.c_program.specs.Meaning.{crun};
ghost use Rattle.c_program.specs.Views.{function_tree};
ghost use Rattle.c_checker_rules.specs.Checked.{program_tree};
ghost use Rattle.cminor_syntax.specs.Fits as cminor;
ghost use Rattle.cminor_lowering.specs.Programs.{low, low_function};
ghost use Rattle.cminor_program_ranges.specs.Names.{HaveNames};
ghost use Rattle.rtl_language.specs.Function.{IsFunction};
ghost use Rattle.rtl_language.specs.Meaning.{run};
ghost use Rattle.rtlgen_definition.specs.Gen.{gen};
ghost use Rattle.cfarm_verify_reading.specs.Made.{AreMade, IsMadeAt, made_of};

use crate::functions::made_at;
use crate::globals::lower_globals;
use c_checker_rules::CProgram;
use c_program::Function as CFunction;
use cminor::lowered_keeps;
use cminor_lowering_ranges::lowered_fits;
use cminor_program_ranges::same_head_fits;
use lang_base::{Named, NoMemory, Program, Row, keeps_composes};
use rtl_language::{Function, Rtl};
use rtlgen_definition::generated_keeps;
use std::alloc::Global;
use std::thread::{Threads, map_indices};

/// All functions, if all were made.
fn gathered(
    alloc: Global,
    functions: &[CFunction],
    found: Vec<Option<Named<Function>>>,
) -> Option<Row<Named<Function>>>
    requires { AreMade (made_of functions.now) found.items }
    ensures { IfSome result (λ made. made ≡ made_of functions.now) }
{
    let mut all = match Vec::with_capacity(alloc, functions.len()) {
        Ok(all) => all,
        Err(_) => return None,
    };
    for one in found {
        match one {
            Some(made) => match all.push(made) {
                Ok(()) => {}
                Err(_) => return None,
            },
            None => return None,
        }
    }
    Some(Row::from_vec(all))
}

/// What all functions are translated to, each in a thread of its own.
fn made_all<R: Threads + Sync>(
    rt: &R,
    alloc: Global,
    functions: &[CFunction],
) -> Option<Row<Named<Function>>>
    requires { All (λ f. cminor.IsFunction (low_function (function_tree f))) functions.now }
    ensures { IfSome result (λ made. made ≡ made_of functions.now) }
{
    let found = map_indices(
        rt,
        alloc,
        functions.len(),
        &|number: usize| -> Option<Named<Function>>
            requires { All (λ f. cminor.IsFunction (low_function (function_tree f))) functions.now }
            ensures { IfSome result (IsMadeAt functions.entry.now number) }
        { made_at(rt, alloc, functions, number) },
    );
    match found {
        Ok(found) => gathered(alloc, functions, found),
        Err(_) => None,
    }
}

/// The program whose parts are in range.
fn made_whole<R: Threads + Sync>(
    rt: &R,
    alloc: Global,
    program: &CProgram,
) -> Option<Program<Function>>
    requires globals { All (λ g. g.cells < 4294967296) program.now.globals }
    requires functions { All (λ f. cminor.IsFunction (low_function (function_tree f))) program.now.functions }
    ensures { IfSome result (λ made. made ≡ gen (low (program_tree program.now))) }
{
    let globals = match lower_globals(alloc, program.globals()) {
        Ok(globals) => globals,
        Err(NoMemory) => return None,
    };
    match made_all(rt, alloc, program.functions()) {
        Some(functions) => Some(Program { globals, functions }),
        None => None,
    }
}

/// The RTL program of a checked program; none where memory was refused, or where a function needs too many nodes. The time is linear in
/// the program, and all processors share the functions.
pub(crate) fn translated<R: Threads + Sync>(
    rt: &R,
    alloc: Global,
    program: &CProgram,
) -> Option<Program<Function>>
    ensures same { IfSome result (λ made. made ≡ gen (low (program_tree program.now))) }
    ensures keeps { IfSome result (λ made. Keeps (crun (program_tree program.now)) (run made)) }
    // What is made of functions that have C names has a spelling.
    ensures fits { HaveNames (program_tree program.now) → IfSome result (IsProgram IsFunction) }
{
    keeps_composes();
    generated_keeps();
    lowered_keeps(program);
    lowered_fits(program);
    match made_whole(rt, alloc, program) {
        Some(made) => {
            same_head_fits::<Rtl>(program, &made);
            Some(made)
        }
        None => None,
    }
}
