//! Whole runs.

ghost use Rattle.lang_helpers.specs.Written.{Wrote};
ghost use Rattle.c_program.specs.Meaning.{crun};
ghost use Rattle.c_meaning.specs.Parts.{program_of};
ghost use Rattle.c_meaning.specs.Reaching.{still_shown};

use crate::acting::step;
use crate::arriving::arrive;
use crate::calling::function_at;
use crate::starting::start;
use c_meaning_machine::{Machine, Next};
use c_program::{Function, GlobalVariable};
use lang_base::Shown;
use lang_helpers::{RunError, print};
use std::alloc::Global;
use std::io::Write;

/// Steps until the run is over or its bound is spent.
fn run<W: Write>(machine: &mut Machine, out: &mut W) -> Result<Shown, RunError>
    ensures { Wrote (still_shown machine.old) result (W.contents out.old) (W.contents out.new) }
{
    let mut next = Next::Goes;
    loop {
        next = match next {
            Next::Goes => step(machine)?,
            Next::Prints(byte, target) => {
                print(out, byte)?;
                arrive(machine, target, u32::from(byte))
            }
            Next::Stops(shown) => return Ok(shown),
        };
    }
}

/// Runs a program with a bound, and writes what it prints. `NoMemory` is answered only where a growth was
/// refused, and `Write` only where the writer failed: then a beginning of the output was written.
pub fn run_program<W: Write>(
    alloc: Global,
    globals: &[GlobalVariable],
    functions: &[Function],
    main: usize,
    n: u64,
    out: &mut W,
) -> Result<Shown, RunError>
    ensures { Wrote (crun (program_of globals.now functions.now main) n) result (W.contents out.old) (W.contents out.new) }
{
    match function_at(functions, main, 0) {
        None => Ok(Shown::Wrong),
        Some(function) => {
            let mut machine = start(alloc, globals, functions, function, n)?;
            run(&mut machine, out)
        }
    }
}
