//! Whole runs.

ghost use Rattle.std.specs.Prelude.{◌≡◌, [], IfOk, Some};
ghost use Rattle.c_faults.specs.Faults.{fault_of};
ghost use Rattle.c_checker_rules.specs.Checked.{program_tree};
ghost use Rattle.c_faults_step.specs.Steps.{goes_wrong};

use crate::starting::start;
use c_checker_rules::CProgram;
use c_faults::{Cause, Fault, Gap, Site};
use c_faults_run::{arrive, falls, function_at};
use c_faults_step::{Step, Tracer};
use lang_base::{NoMemory, Row};
use std::alloc::Global;

/// The fault of a run that has this gap.
fn fault(alloc: Global, tracer: &mut Tracer, found: Gap) -> Result<Fault, NoMemory>
    ensures { IfOk result (λ fault. goes_wrong (Step.Wrong found) tracer.old [] ≡ Some fault) }
{
    let function = tracer.running.function;
    let at = Site {
        function,
        place: found.place,
    };
    let callers = Row::from_vec(tracer.items.callers(alloc)?);
    Ok(Fault {
        cause: found.cause,
        at,
        callers,
    })
}

/// Steps until the run goes wrong, is over or its bound is spent.
fn run(alloc: Global, tracer: &mut Tracer) -> Result<Option<Fault>, NoMemory>
    ensures { IfOk result (λ found. found ≡ goes_wrong Step.Goes tracer.old []) }
{
    let mut step = Step::Goes;
    loop {
        step = match step {
            Step::Goes => falls(tracer)?,
            Step::Prints(byte, target, at) => arrive(tracer, target, u32::from(byte), at),
            Step::Wrong(found) => return Ok(Some(fault(alloc, tracer, found)?)),
            Step::Over => return Ok(None),
        };
    }
}

/// Where the run of a checked program with this bound goes wrong, by the places of its functions: none where it does not.
pub fn find_fault(
    alloc: Global,
    program: &CProgram,
    places: &[Row<usize>],
    bound: u64,
) -> Result<Option<Fault>, NoMemory>
    ensures { IfOk result (λ found. found ≡ fault_of places.now (program_tree program.now) bound) }
{
    let globals = program.globals();
    let functions = program.functions();
    let main = program.main();
    match function_at(functions, main, 0) {
        None => {
            let at = Site {
                function: main,
                place: 0,
            };
            let callers = Row::from_vec(Vec::new(alloc));
            let cause = Cause::Malformed;
            Ok(Some(Fault { cause, at, callers }))
        }
        Some(function) => {
            let mut tracer = start(alloc, globals, functions, main, function, places, bound)?;
            run(alloc, &mut tracer)
        }
    }
}
